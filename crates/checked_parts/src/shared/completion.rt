//! The completion of packets.

ghost use Rattle.std.specs.Prelude.{◌≡◌, ◌<◌, is_some, option_and_then};
ghost use Rattle.model.specs.declared.limits.TheConstants.{MAX_INSTRUCTIONS};
ghost use Rattle.model.specs.Effect.{top_of};
ghost use Rattle.checked_parts.specs.declared.ran.Runner.{Runner};
ghost use Rattle.model.specs.declared.world.Frame.TheVariants.{Walk as WalkFrame};

use super::Shared;
use crate::activation::completing;
use crate::{Frame, Managing, Over, Ran, is_last, packet_bug, wrong_at};
use driver_set::{DriverSet, Register, Sort, driver_of};
use iomgr::WalkStep;
use model::event::{BugCheck, Reply};
use model::status::Status;
use model::world::{Activation, Completion};

impl Shared {
    ghost use Rattle.checked_parts.specs.Ran.{left_of, LeavesOver};
    ghost use Rattle.checked_parts.specs.Left.{bounded, judged, frame_now};
    ghost use Rattle.iomgr.specs.Walk.{lent_if};
    ghost use Rattle.model.specs.Effect.{complete_effect, continued, let_on, stopped};
    ghost use Rattle.model.specs.Effect.{sort_of_completion};
    ghost use Rattle.model.specs.World.{packet_in, packet_of, register, current_location};
    ghost use Rattle.model.specs.World.{completion_of};

    /// `complete r STATUS`: IoCompleteRequest on the packet in the register. The I/O manager's
    /// frame then stands over the routine's, which stands over the frames `below`.
    pub fn complete(
        &mut self,
        below: &[Frame],
        r: Register,
        status: Status,
        a: &mut Activation,
    ) -> Ran
        requires { a.old.position < MAX_INSTRUCTIONS }
        ensures { let named = packet_in self.old (register a.old r) in
            let completed = complete_effect self.old a.old status named in
            LeavesOver below.now self.old a.old completed self.new a.new result }
    {
        let Some(n) = self.packet_in(a.registers[r.index()]) else {
            return Ran::Stays(wrong_at(a));
        };
        let Some(key) = self.packet_table.find(n) else {
            return Ran::Stays(packet_bug(BugCheck::MultipleIrpCompleteRequests, n));
        };
        let packet = self.packet_table.packet(key);
        if packet.is_completing() {
            return Ran::Stays(packet_bug(BugCheck::MultipleIrpCompleteRequests, n));
        }
        if packet.armer().is_some() {
            return Ran::Stays(packet_bug(BugCheck::CancelStateInCompletedIrp, n));
        }
        if is_last(below.len()) {
            return Ran::Stays(Reply::Refused);
        }
        self.packet_table.complete(key, status);
        a.position += 1;
        Ran::Under(Over::Manager(Managing::Completes(n)))
    }

    /// A step of the I/O manager, over the frames `below`, which completes the packet of this
    /// number.
    pub fn walk(&mut self, set: &DriverSet, below: &[Frame], n: u64) -> Ran
        ensures { (r : Runner)
            → left_of self.new (WalkFrame n) result
            ≡ frame_now set.now self.old r below.now (WalkFrame n) }
    {
        if is_last(below.len()) && self.runs_routine(n) {
            return Ran::Stays(Reply::Refused);
        }
        match self.packet_table.walk(n) {
            WalkStep::Missing if n < self.packet_table.issued() => {
                Ran::Stays(packet_bug(BugCheck::IrqlNotLessOrEqual, n))
            }
            // A packet that was never issued can't have topped out; no run completes one.
            WalkStep::Missing => Ran::Gone(Reply::Stepped),
            WalkStep::Runs(completion) => {
                self.lend(set, completion, n);
                Ran::Under(completing(set, completion, n))
            }
            WalkStep::Ascends { marked: _ } => Ran::Stays(Reply::Stepped),
            WalkStep::TopsOut { status, info } => Ran::Gone(Reply::Topped {
                packet: n,
                status,
                info,
            }),
        }
    }

    /// A completion routine that may hold the packet of a number is lent it.
    fn lend(&mut self, set: &DriverSet, completion: Completion, n: u64)
        ensures { self.new ≡ lent_if (sort_of_completion set.now completion) self.old n }
    {
        match set.sort(driver_of(set, completion.device), completion.routine) {
            Sort::Hold => self.packet_table.lend_to_routine(n),
            Sort::Dispatch | Sort::StartIo | Sort::Dpc | Sort::Propagate | Sort::Cancel => {}
        }
    }

    /// Whether a completion routine runs when completion leaves the current location of a packet.
    fn runs_routine(&self, n: u64) -> bool
        ensures { let current = option_and_then (λ p. current_location p) (packet_of self.now n) in
            result ≡ is_some (completion_of current) }
    {
        match self.packet_table.live_packet(n) {
            Some(packet) => packet.completion().is_some(),
            None => false,
        }
    }

    /// `ret continue`: the completion of the packet goes on that the frame below completes.
    pub fn go_on(&self, below: &[Frame]) -> Ran
        ensures { let onward = continued self.now (top_of below.now) in
            (r : Runner) (f : Frame)
            → left_of self.now f result
            ≡ bounded below.now self.now f (judged self.now r f onward) }
    {
        let under = below.get(below.len().saturating_sub(1));
        match under.and_then(|frame| frame.completed_packet()) {
            Some(n) if self.is_gone(n) => {
                Ran::Stays(packet_bug(BugCheck::IrqlNotLessOrEqual, n))
            }
            _ => Ran::Gone(Reply::Stepped),
        }
    }

    /// `ret continue` of a routine that was lent the packet: it gives that back, and the completion
    /// goes on.
    pub fn give_back(&mut self, below: &[Frame]) -> Ran
        ensures { let onward = let_on self.old (top_of below.now) in
            (r : Runner) (f : Frame)
            → left_of self.new f result
            ≡ bounded below.now self.old f (judged self.old r f onward) }
    {
        let under = below.get(below.len().saturating_sub(1));
        let Some(n) = under.and_then(|frame| frame.completed_packet()) else {
            return Ran::Gone(Reply::Stepped);
        };
        let Some(key) = self.packet_table.find(n) else {
            if self.is_issued(n) {
                return Ran::Stays(packet_bug(BugCheck::IrqlNotLessOrEqual, n));
            }
            return Ran::Gone(Reply::Stepped);
        };
        self.packet_table.give_back(key);
        Ran::Gone(Reply::Stepped)
    }

    /// `ret stop`: the I/O manager's frame below is gone too.
    pub fn stop(&self, below: &[Frame]) -> Ran
        ensures { let onward = stopped self.now (top_of below.now) in
            (r : Runner) (f : Frame)
            → left_of self.now f result
            ≡ bounded below.now self.now f (judged self.now r f onward) }
    {
        let under = below.get(below.len().saturating_sub(1));
        match under.and_then(|frame| frame.completed_packet()) {
            Some(_) => Ran::Stopped,
            None => Ran::Gone(Reply::Stepped),
        }
    }
}
