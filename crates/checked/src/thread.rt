//! A thread: its frames, and their steps.

ghost use Rattle.std.specs.Prelude.{◌≡◌, ◌<◌, ◌≤◌, ◌-◌, ◌++◌, ◌∷◌, [], Some, true, length, take};
ghost use Rattle.checked.specs.GoingOn.{ThreadGoes, ThreadGoesNoFurther};
ghost use Rattle.checked.specs.Step.{thread_now};
ghost use Rattle.checked_parts.specs.Ran.{frame_over};
ghost use Rattle.model.specs.declared.limits.TheConstants.{MAX_FRAMES};
ghost use Rattle.model.specs.Effect.{told_to};
ghost use Rattle.model.specs.Events.{is_idle, with_stack, finished_or};

use crate::frame;
use checked_parts::{Frame, Over, Ran, Runner, Shared};
use driver_set::DriverSet;
use model::event::{Place, Reply};
use model::limits::MAX_FRAMES;
use model::status::Status;
use model::view::ThreadView;
use model::world::Irql;
use std::marker::Model;

/// A thread: its frames, the lowest first, and the level of the lowest. A thread without frames is
/// idle, at PASSIVE_LEVEL. All places of frames are there from the start: a frame that comes is
/// written where it will stand, and one that goes costs nothing.
#[derive(Drop)]
pub struct Thread {
    root: Irql,
    /// How many frames it has.
    depth: usize,
    /// The places of its frames. Those behind its frames have what was left there.
    places: [Frame; MAX_FRAMES],
}

impl Model for Thread {
    ghost use Rattle.std.specs.Prelude.{◌≤◌, take};
    ghost use Rattle.model.specs.declared.limits.TheConstants.{MAX_FRAMES};
    ghost use Rattle.model.specs.declared.world.Thread.{Thread};

    ghost Value = { Thread };

    ghost view = { λ t. record {
      root = t.root;
      frames = record { items = take t.depth t.places };
    } };

    ghost invariant = { λ t. t.depth ≤ MAX_FRAMES };
}

/// The routine on the top, if one stands there, is told the status that a lower driver returned.
fn tell(set: &DriverSet, frames: &mut [Frame], status: Status)
    ensures { frames.new ≡ told_to set.now frames.old (Some status) }
{
    let Some((caller, below)) = frames.split_last_mut() else {
        return;
    };
    let _ = below;
    frame::tell(caller, set, status);
}

impl Thread {
    ghost use Rattle.model.specs.View.{thread_view};
    ghost use Rattle.model.specs.World.{idle_thread};

    /// A thread without frames.
    pub fn idle() -> Thread
        ensures { result ≡ idle_thread }
    {
        Thread {
            root: Irql::Passive,
            depth: 0,
            places: Default::default(),
        }
    }

    /// Whether it has no frames.
    pub fn is_idle(&self) -> bool
        ensures { result ≡ is_idle self.now }
    {
        self.frames().is_empty()
    }

    /// What there is to tell of it.
    pub fn view(&self) -> ThreadView
        ensures { result ≡ thread_view self.now }
    {
        let top = match self.frames().last() {
            Some(frame) => Some(frame.view()),
            None => None,
        };
        ThreadView {
            root: self.root,
            frames: self.frames().len(),
            top,
        }
    }

    /// Its frames, the lowest first.
    pub fn frames(&self) -> &[Frame]
        ensures { result.now ≡ self.now.frames.items }
    {
        &self.places[..self.depth]
    }

    /// A frame is put on an idle thread, at a level.
    pub fn begin(&mut self, level: Irql, root: Frame)
        requires { is_idle self.old ≡ true }
        ensures { self.new
            ≡ record self.old { root = level; frames = record { items = root ∷ [] } } }
    {
        self.root = level;
        self.places[0] = root;
        self.depth = 1;
    }

    /// A frame is put on the others, where it has a place.
    #[tactic(auto, using(std::proofs::lemmas::List::take_more_set))]
    fn push(&mut self, over: Over)
        requires { length self.old.frames.items < MAX_FRAMES }
        ensures { let frames = self.old.frames.items ++ frame_over over ∷ [] in
            self.new ≡ record self.old { frames = record { items = frames } } }
    {
        self.places[self.depth].replace(over);
        self.depth += 1;
    }

    /// The top frame goes.
    fn pop(&mut self)
        ensures { let below = take (length self.old.frames.items - 1) self.old.frames.items in
            self.new ≡ record self.old { frames = record { items = below } } }
    {
        self.depth = self.below_top();
    }

    /// How many frames stand under the top one.
    #[inline]
    fn below_top(&self) -> usize
        ensures { result ≡ length self.now.frames.items - 1 }
    {
        self.frames().len().saturating_sub(1)
    }

    /// After a step: a thread that it left without frames has finished, and is idle.
    fn finish(&mut self, reply: Reply) -> Reply
        ensures thread { self.new ≡ with_stack self.old self.old.frames.items }
        ensures reply { result ≡ finished_or self.old.frames.items reply }
    {
        if !self.is_idle() {
            return reply;
        }
        self.root = Irql::Passive;
        match reply {
            Reply::Stepped => Reply::Finished,
            _ => reply,
        }
    }

    /// Lets the routine on top, if one stands there, go on by itself for at most so many steps, up
    /// to a place, if one is given, and answers how many. Fewer only where it is there, or no
    /// routine that can go on stands on top.
    pub fn go_on(&mut self, set: &DriverSet, count: usize, until: &Option<Place>) -> usize
        ensures few { result ≤ count }
        ensures goes { ThreadGoes until.now set.now self.old result self.new }
        ensures far { result < count → ThreadGoesNoFurther until.now set.now self.new }
    {
        let Some((top, _below)) = self.places[..self.depth].split_last_mut() else {
            return 0;
        };
        frame::go_on(top, set, count, until)
    }

    /// A step of the top frame of the thread of this number, if it has one.
    pub fn step(&mut self, set: &DriverSet, shared: &mut Shared, number: u8) -> Reply
        ensures { record { shared = shared.new; thread = self.new; reply = result }
            ≡ thread_now set.now shared.old number self.old }
    {
        let runner = Runner {
            thread: number,
            root: self.root,
        };
        let Some((top, below)) = self.places[..self.depth].split_last_mut() else {
            return Reply::Idle;
        };
        match frame::step(top, set, shared, runner, below) {
            Ran::Stays(reply) => reply,
            Ran::Under(over) => {
                self.push(over);
                Reply::Stepped
            }
            Ran::Becomes(over) => {
                top.replace(over);
                Reply::Stepped
            }
            Ran::Gone(reply) => {
                self.pop();
                self.finish(reply)
            }
            Ran::Stopped => {
                self.pop();
                self.pop();
                self.finish(Reply::Stepped)
            }
            Ran::Returned(status) => {
                self.pop();
                tell(set, &mut self.places[..self.depth], status);
                self.finish(Reply::Stepped)
            }
        }
    }
}
