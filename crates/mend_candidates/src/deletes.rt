//! Deletions, alone or with what belongs to the instruction.

use crate::gathered::Gathered;
use crate::scene::Scene;
use absstate::Rule;
use driver_set::{Instr, Return};
use mend_changes::Change;
use mend_reading::Manner;
use mend_reading::acts::{Act, act_of};
use mend_reading::form::{are_pair, form_of};
use model::status::Status;

impl<'a> Scene<'a> {
    /// Adds the deletions at or before the fault.
    pub(crate) fn add_deletes(&self, out: &mut Gathered) {
        for at in 0..=self.last() {
            let behind = at.saturating_add(1);
            let hangs = behind >= self.len() && self.is_target(at);
            if let (Some(instr), true, false) = (self.instr(at), self.is_fresh(at), hangs) {
                let cost = self.delete_cost(at, &instr);
                self.add_with_locks(at, &instr, cost, out);
                self.add_second_completion(at, &instr, out);
                let one = out.begin(Manner::Delete, cost, None, Some(instr));
                out.add(one, at, Change::Delete);
            }
        }
        if self.fault.rule == Rule::Unreachable {
            self.add_dead_run(out);
        }
    }

    /// What the deletion of an instruction costs.
    fn delete_cost(&self, at: u16, instr: &Instr) -> u32 {
        let near = self.near(at);
        let early = self.fault.rule == Rule::DoubleCompletion && at < self.fault.at;
        if at != self.fault.at || !self.is_twice(instr) {
            let cost = weight(instr).saturating_add(150).saturating_add(near);
            return if early { cost.saturating_add(60) } else { cost };
        }
        let more = self.twice_cost(at, instr);
        near.saturating_add(more).saturating_add(100)
    }

    /// What the deletion of the instruction at the fault costs more, where it stands there once too
    /// often.
    fn twice_cost(&self, at: u16, instr: &Instr) -> u32 {
        match self.fault.rule {
            Rule::Malformed if !self.is_doubled(at, instr) => 45,
            Rule::WrongKind if self.stands_before(at, instr, 4) => 0,
            Rule::WrongKind if matches!(*instr, Instr::Complete(..)) => 0,
            Rule::WrongKind => 80,
            Rule::Malformed
            | Rule::Unreachable
            | Rule::StatesDiffer
            | Rule::DoubleCompletion
            | Rule::MarkIrpPending
            | Rule::CancelSpinLock
            | Rule::SpinLock
            | Rule::LockHeld
            | Rule::Level
            | Rule::Guard
            | Rule::CancelState
            | Rule::Dropped
            | Rule::Token
            | Rule::Sort
            | Rule::Completion
            | Rule::StackTooSmall
            | Rule::NoLower
            | Rule::TooLong
            | Rule::Memory => self.first_release_cost(at, instr),
        }
    }

    /// What it costs more to delete a release that stands nowhere before.
    fn first_release_cost(&self, at: u16, instr: &Instr) -> u32 {
        let releases = matches!(*instr, Instr::Release(_) | Instr::ReleaseCancel);
        if releases && !self.stands_before(at, instr, at) {
            40
        } else {
            0
        }
    }

    /// Whether the instruction at the fault may stand there once too often.
    fn is_twice(&self, instr: &Instr) -> bool {
        match self.fault.rule {
            Rule::DoubleCompletion | Rule::Unreachable | Rule::TooLong => true,
            Rule::MarkIrpPending => matches!(*instr, Instr::Mark(_)),
            Rule::CancelSpinLock => {
                matches!(*instr, Instr::AcquireCancel | Instr::ReleaseCancel)
            }
            Rule::SpinLock => matches!(*instr, Instr::Acquire(_) | Instr::Release(_)),
            Rule::Token => matches!(*instr, Instr::Next | Instr::Begin(_)),
            Rule::WrongKind => {
                matches!(
                    *instr,
                    Instr::Get(..) | Instr::Put(..) | Instr::Complete(..)
                )
            }
            Rule::Malformed => instr.label().is_none(),
            Rule::StatesDiffer
            | Rule::LockHeld
            | Rule::Level
            | Rule::Guard
            | Rule::CancelState
            | Rule::Dropped
            | Rule::Sort
            | Rule::Completion
            | Rule::StackTooSmall
            | Rule::NoLower
            | Rule::Memory => false,
        }
    }

    /// Whether the same instruction stands beside a position, or it is no half of a loop.
    fn is_doubled(&self, at: u16, instr: &Instr) -> bool {
        let half = matches!(*instr, Instr::Loop(_) | Instr::End);
        let again = match self.code.get(at.saturating_add(1) as usize) {
            Some(behind) => form_of(behind) == form_of(instr),
            None => false,
        };
        !half || again || self.stands_before(at, instr, 1)
    }

    /// Whether the same instruction stands among so many before a position.
    fn stands_before(&self, at: u16, instr: &Instr, within: u16) -> bool {
        let same = form_of(instr);
        let first = at.saturating_sub(within) as usize;
        let before = self.code.get(first..at as usize).unwrap_or_default();
        before.iter().any(|other| form_of(other) == same)
    }

    /// Adds the deletion of an instruction with the pair of a lock and its release round it.
    fn add_with_locks(&self, at: u16, instr: &Instr, cost: u32, out: &mut Gathered) {
        if needs_lock(instr) && self.is_in_pair(at) {
            let cost = cost.saturating_add(10);
            let one = out.begin(Manner::Block, cost, None, Some(*instr));
            for place in [at.saturating_add(1), at, at.saturating_sub(1)] {
                out.change(place, Change::Delete);
            }
            out.end(one);
        }
    }

    /// Whether a lock is acquired before a position and released behind it, and no jump leads
    /// between.
    fn is_in_pair(&self, at: u16) -> bool {
        let behind = at.saturating_add(1);
        let led_to = self.is_target(at) || self.is_target(behind);
        match (self.instr_before(at), self.instr(behind)) {
            (Some(lock), Some(release)) => !led_to && are_pair(&lock, &release),
            (None, _) | (_, None) => false,
        }
    }

    /// Adds the deletion of a second completion, where the return behind it takes the status of the
    /// first.
    fn add_second_completion(&self, at: u16, instr: &Instr, out: &mut Gathered) {
        if self.fault.rule != Rule::DoubleCompletion || at != self.fault.at {
            return;
        }
        if let Some(status) = self.other_status(at, instr) {
            let cost = self.near(at).saturating_add(100);
            let one = out.begin(Manner::Block, cost, None, Some(*instr));
            let right = Instr::Ret(Return::WithStatus(status));
            out.change(at.saturating_add(1), Change::Replace(right));
            out.change(at, Change::Delete);
            out.end(one);
        }
    }

    /// The status of the first completion of a packet, where the return behind another one has
    /// another one, which isn't STATUS_PENDING, and no jump leads there.
    fn other_status(&self, at: u16, instr: &Instr) -> Option<Status> {
        let behind = at.saturating_add(1);
        let Some(Instr::Ret(Return::WithStatus(returned))) = self.instr(behind) else {
            return None;
        };
        let status = self.first_status(at, instr)?;
        let stays = status == returned || returned == Status::Pending;
        if stays || self.is_target(behind) {
            None
        } else {
            Some(status)
        }
    }

    /// The status of the last completion of the same packet before a position.
    fn first_status(&self, at: u16, instr: &Instr) -> Option<Status> {
        let Instr::Complete(register, _) = *instr else {
            return None;
        };
        let before = self.code.get(..at as usize).unwrap_or_default();
        for other in before.iter().rev() {
            if let Instr::Complete(packet, status) = *other {
                if packet.index() == register.index() {
                    return Some(status);
                }
            }
        }
        None
    }

    /// Adds the deletion of all that no path reaches.
    fn add_dead_run(&self, out: &mut Gathered) {
        let first = self.fault.at;
        let end = self.end_of_dead(first);
        let count = u32::from(end.saturating_sub(first));
        if count < 2 {
            return;
        }
        let cost = count.saturating_mul(30).saturating_add(100);
        let one = out.begin(Manner::Block, cost, None, None);
        for _ in first..end {
            out.change(first, Change::Delete);
        }
        out.end(one);
    }

    /// The first position behind a dead one to which something leads from before it.
    fn end_of_dead(&self, first: u16) -> u16 {
        let before = self.code.get(..first as usize).unwrap_or_default();
        for at in first.saturating_add(1)..self.len() {
            if before.iter().any(|instr| instr.label() == Some(at)) {
                return at;
            }
        }
        self.len()
    }
}

/// What is lost with an instruction.
fn weight(instr: &Instr) -> u32 {
    match act_of(instr) {
        Act::Down => 160,
        Act::Packet | Act::Waiting => 120,
        Act::Leave => 100,
        Act::Mark | Act::Lock => 70,
        Act::Number | Act::Loop | Act::End => 30,
    }
}

/// Whether a lock is most often held for an instruction.
fn needs_lock(instr: &Instr) -> bool {
    matches!(
        *instr,
        Instr::Next
            | Instr::Begin(_)
            | Instr::Start(_)
            | Instr::Insert(..)
            | Instr::Dequeue(_)
            | Instr::Unlink(..)
    )
}
