//! Steps in a row, of which those that do what is usual are kept in a few bytes.

ghost use Rattle.std.specs.Prelude.{◌≡◌, ◌∷◌, ◌++◌, ◌<◌, [], IfOk, IfSome, List, MatchOption};
ghost use Rattle.std.specs.Prelude.{OnErr, OnOk, false, get_or, length, ℕ};
ghost use Rattle.std.specs.List.{list_any};
ghost use Rattle.scenario_steps.specs.Steps.{IsIn, action_of, is_of, no_step, unfolded};
ghost use Rattle.scenario_steps.specs.declared.scenario.Step.{Step};

use crate::judging::expects_verdict;
use crate::scenario::{Action, Step};
use model::status::{Major, Status};
use scenario_expected::expectation::{Expectation, PacketState};
use std::alloc::{AllocError, Global};
use std::marker::Model;

/// A kind of steps that is looked for.
#[derive(Clone, Copy)]
pub enum Kind {
    /// Those that expect a verdict, which isn't known yet.
    Verdict,
    /// Those that ask for an audit.
    Audit,
    /// Those that run threads in every interleaving.
    Together,
}

/// A step as it is kept.
#[derive(Clone, Copy)]
pub(crate) enum Kept {
    /// In a few bytes, where it does what is usual and may not be refused.
    Brief { line: u32, usual: Usual },
    /// As it is: its place among those that are kept so.
    Whole(u16),
}

/// What a step does, where that is usual.
#[derive(Clone, Copy)]
pub enum Usual {
    /// A request arrives.
    Request {
        thread: u8,
        device: u8,
        major: Major,
        argument: u32,
    },
    /// A device interrupts.
    Interruption(u8),
    /// The DPC of a device begins.
    Deferred {
        thread: u8,
        device: u8,
    },
    /// A thread makes steps until it is idle or waits.
    Running(u8),
    /// A packet is expected to have topped out with a status.
    ToppedAs {
        packet: u16,
        status: Status,
    },
}

/// Steps in a row.
#[derive(Drop)]
pub struct Steps {
    kept: Vec<Kept>,
    whole: Vec<Step>,
}

impl Model for Steps {
    ghost use Rattle.std.specs.Prelude.{List, length, map};
    ghost use Rattle.scenario_steps.specs.Steps.{AreIn, unfolded};
    ghost use Rattle.scenario_steps.specs.declared.scenario.Step.{Step};

    ghost Value = { List Step };

    ghost view = { λ s. map (unfolded s.whole.items) s.kept.items };

    ghost invariant = { λ s. AreIn (length s.whole.items) s.kept.items };
}

impl Steps {
    /// No steps, with room for so many that do what is usual.
    ///
    /// # Errors
    ///
    /// When memory runs out.
    pub fn with_capacity(alloc: Global, room: usize) -> Result<Steps, AllocError>
        ensures { IfOk result (λ steps. steps ≡ []) }
    {
        Ok(Steps {
            kept: Vec::with_capacity(alloc, room)?,
            whole: Vec::new(alloc),
        })
    }

    /// How many there are.
    pub fn len(&self) -> usize
        ensures { result ≡ length self.now }
    {
        self.kept.len()
    }

    /// The step at a place.
    #[inline]
    pub fn at(&self, place: usize) -> Step
        requires { place < length self.now }
        ensures { result ≡ get_or self.now place result }
    {
        unfold(self.whole.as_slice(), self.kept[place])
    }

    /// Whether one of them is of a kind.
    pub fn has(&self, kind: Kind) -> bool
        ensures { result ≡ list_any (is_of kind) self.now }
    {
        for place in 0..self.len() {
            if self.is_of(kind, place) {
                return true;
            }
        }
        false
    }

    /// Whether the step at a place is of a kind: none is that does what is usual.
    fn is_of(&self, kind: Kind, place: usize) -> bool
        requires { place < length self.now }
        ensures { result ≡ is_of kind (get_or self.now place no_step) }
    {
        match self.kept[place] {
            Kept::Brief { .. } => false,
            Kept::Whole(_) => is_of(kind, &self.at(place)),
        }
    }

    /// Adds a step.
    ///
    /// # Errors
    ///
    /// When memory runs out, or 65,536 that do what isn't usual are there.
    pub fn push(&mut self, step: Step) -> Result<(), AllocError>
        ensures pushed { OnOk result (self.new ≡ self.old ++ step ∷ []) }
        ensures same { OnErr result (self.new ≡ self.old) }
    {
        match brief_of(&step) {
            Some(kept) => self.push_brief(kept),
            None => self.push_whole(step),
        }
    }

    /// Adds the step of a line, counted from 1, that does what is usual and may not be refused.
    ///
    /// # Errors
    ///
    /// When memory runs out, or the number of the line is no `u32`, and 65,536 steps that are kept
    /// as they are are there.
    pub fn push_usual(&mut self, line: u64, usual: Usual) -> Result<(), AllocError>
        ensures pushed { OnOk result (self.new ≡ self.old
            ++ record { line = line; may = false; action = action_of usual } ∷ []) }
        ensures same { OnErr result (self.new ≡ self.old) }
    {
        if line > u64::from(u32::MAX) {
            return self.push_whole(Step {
                line,
                may: false,
                action: action_of(usual),
            });
        }
        self.push_brief(Kept::Brief {
            line: line as u32,
            usual,
        })
    }

    /// Takes the last one away.
    pub fn pop(&mut self) -> Option<Step>
        ensures { MatchOption result ((self.old ≡ []) × (self.new ≡ []))
            (λ step. self.old ≡ self.new ++ step ∷ []) }
    {
        let kept = self.kept.pop()?;
        Some(unfold(self.whole.as_slice(), kept))
    }

    /// Adds a step that is kept in a few bytes.
    fn push_brief(&mut self, kept: Kept) -> Result<(), AllocError>
        requires { (n : ℕ) → IsIn n kept }
        ensures pushed { OnOk result ((step : Step)
            → ((whole : List Step) → unfolded whole kept ≡ step)
            → self.new ≡ self.old ++ step ∷ []) }
        ensures same { OnErr result (self.new ≡ self.old) }
    {
        self.kept.push(kept)?;
        Ok(())
    }

    /// Adds a step that is kept as it is.
    fn push_whole(&mut self, step: Step) -> Result<(), AllocError>
        ensures pushed { OnOk result (self.new ≡ self.old ++ step ∷ []) }
        ensures same { OnErr result (self.new ≡ self.old) }
    {
        let place = self.whole.len();
        if place > u16::MAX as usize {
            return Err(AllocError);
        }
        self.kept.reserve(1)?;
        self.whole.push(step)?;
        self.kept.push_reserved(Kept::Whole(place as u16));
        Ok(())
    }
}

/// Whether a step is of a kind.
fn is_of(kind: Kind, step: &Step) -> bool
    ensures { result ≡ is_of kind step.now }
{
    match kind {
        Kind::Verdict => expects_verdict(step),
        Kind::Audit => matches!(step.action, Action::Expect(Expectation::Clean)),
        Kind::Together => matches!(step.action, Action::Together { .. }),
    }
}

/// A step as it was before it was kept, beside those that are kept as they are.
#[inline]
fn unfold(whole: &[Step], kept: Kept) -> Step
    ensures { result ≡ unfolded whole.now kept }
{
    match kept {
        Kept::Brief { line, usual } => Step {
            line: u64::from(line),
            may: false,
            action: action_of(usual),
        },
        Kept::Whole(place) => match whole.get(place as usize) {
            Some(step) => *step,
            None => no_step(),
        },
    }
}

/// A step that stands nowhere.
fn no_step() -> Step
    ensures { result ≡ no_step }
{
    Step {
        line: 0,
        may: true,
        action: Action::RunAll,
    }
}

/// What a step does, where that is usual.
#[inline]
fn action_of(usual: Usual) -> Action
    ensures { result ≡ action_of usual }
{
    match usual {
        Usual::Request {
            thread,
            device,
            major,
            argument,
        } => Action::Issue {
            thread,
            device,
            major,
            argument: u64::from(argument),
        },
        Usual::Interruption(device) => Action::Interrupt(device),
        Usual::Deferred { thread, device } => Action::Dpc { thread, device },
        Usual::Running(thread) => Action::Run(thread),
        Usual::ToppedAs { packet, status } => Action::Expect(Expectation::Packet {
            packet,
            state: PacketState::Topped {
                status: Some(status),
                information: None,
            },
        }),
    }
}

/// A step in a few bytes, if it does what is usual.
fn brief_of(step: &Step) -> Option<Kept>
    ensures { IfSome result (λ kept. ((whole : List Step) → unfolded whole kept ≡ step.now)
        × ((n : ℕ) → IsIn n kept)) }
{
    if step.may || step.line > u64::from(u32::MAX) {
        return None;
    }
    let usual = usual_of(&step.action)?;
    Some(Kept::Brief {
        line: step.line as u32,
        usual,
    })
}

/// What a step does, if that is usual.
fn usual_of(action: &Action) -> Option<Usual>
    ensures { IfSome result (λ usual. action_of usual ≡ action.now) }
{
    match *action {
        Action::Issue {
            thread,
            device,
            major,
            argument,
        } => request(thread, device, major, argument),
        Action::Interrupt(device) => Some(Usual::Interruption(device)),
        Action::Dpc { thread, device } => Some(Usual::Deferred { thread, device }),
        Action::Run(thread) => Some(Usual::Running(thread)),
        Action::Expect(Expectation::Packet { packet, state }) => topped(packet, state),
        _ => None,
    }
}

/// A request, if its argument is small.
fn request(thread: u8, device: u8, major: Major, argument: u64) -> Option<Usual>
    ensures { IfSome result (λ usual. action_of usual ≡ Action.Issue thread device major argument) }
{
    if argument > u64::from(u32::MAX) {
        return None;
    }
    Some(Usual::Request {
        thread,
        device,
        major,
        argument: argument as u32,
    })
}

/// What is expected of a packet, if it is that it has topped out with a status alone.
fn topped(packet: u16, state: PacketState) -> Option<Usual>
    ensures { IfSome result (λ usual. action_of usual
        ≡ Action.Expect (Expectation.Packet packet state)) }
{
    match state {
        PacketState::Topped {
            status: Some(status),
            information: None,
        } => Some(Usual::ToppedAs { packet, status }),
        _ => None,
    }
}
