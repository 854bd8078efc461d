//! A thread: its frames, and their steps.

ghost use Rattle.std.specs.Prelude.{◌≡◌, ◌≤◌, ◌<◌, ◌-◌, ◌++◌, ◌∷◌, [], Some, length, option_map};
ghost use Rattle.std.specs.Prelude.{take, true};
ghost use Rattle.model.specs.declared.limits.TheConstants.{MAX_FRAMES};
ghost use Rattle.machine_parts.specs.Left.{frame_over};
ghost use Rattle.laws_slots.specs.Rep.{named};
ghost use Rattle.laws_slots.specs.ShownWords.{words_of_frame};
ghost use Rattle.laws_slots.specs.WordViews.{word_frame_view, word_thread_view};
ghost use Rattle.laws_slots.specs.WordsFit.{WordThreadFits};
ghost use Rattle.laws_slots.specs.WordEvents.{has_none, idle_words, rooted_word};
ghost use Rattle.laws_slots.specs.WordStep.{ends_or, told_frames, top_frame};
ghost use Rattle.machine.specs.GoingOn.{GoesOn, GoingOnFits};
ghost use Rattle.machine.specs.Threads.{standing_on, thread_moves};

use crate::{running, steps};
use driver_set::DriverSet;
use machine_parts::{Frame, Managing, Over, Ran, Shared, telling};
use model::event::Reply;
use model::limits::{MAX_FRAMES, REGISTERS};
use model::status::Status;
use model::view::{FrameView, ThreadView};
use model::world::{Canceller, Irql};
use std::marker::Model;

/// A thread: its frames, the lowest first, and the level of the lowest. A thread without frames is
/// idle, at PASSIVE_LEVEL. All places of frames are there from the start: a frame that comes is
/// written where it will stand, and one that goes costs nothing.
#[derive(Drop)]
pub struct Thread {
    root: Irql,
    /// How many frames it has.
    depth: usize,
    /// The places of its frames. Those behind its frames have what was left there.
    places: [Frame; MAX_FRAMES],
}

impl Model for Thread {
    ghost use Rattle.std.specs.Prelude.{◌≤◌, take};
    ghost use Rattle.model.specs.declared.limits.TheConstants.{MAX_FRAMES};
    ghost use Rattle.laws_slots.specs.Words.{WordThread};

    ghost Value = { WordThread };

    ghost view = { λ t. record { root = t.root; frames = take t.depth t.places } };

    ghost invariant = { λ t. t.depth ≤ MAX_FRAMES };
}

/// The routine on the top, if one stands there, is told the status that a lower driver returned.
fn tell(set: &DriverSet, frames: &mut [Frame], status: Status)
    ensures { frames.new ≡ told_frames set.now frames.old (Some status) }
{
    let Some((caller, below)) = frames.split_last_mut() else {
        return;
    };
    let _ = below;
    telling::tell(caller, set, status);
}

/// What there is to tell of a frame: of a packet the number.
fn told_of(frame: &Frame, shared: &Shared) -> FrameView
    ensures { result ≡ word_frame_view (named shared.now) frame.now }
{
    match frame.manager() {
        Some(Managing::Completes(key)) => FrameView::Walk(shared.named(key)),
        Some(
            Managing::Cancels {
                key: _,
                number,
                next,
            },
        ) => FrameView::Cancel(Canceller {
            packet: number,
            next,
        }),
        None => {
            let a = frame.activation();
            FrameView::Routine {
                driver: a.driver,
                routine: a.routine,
                device: a.device,
                position: a.position,
            }
        }
    }
}

/// The words in the registers of a frame that is a routine's.
fn words_of(frame: &Frame) -> Option<&[u64; REGISTERS]>
    ensures { option_map (λ words. words.now) result ≡ words_of_frame (Some frame.now) }
{
    if frame.manager().is_some() {
        return None;
    }
    Some(&frame.activation().registers)
}

impl Thread {
    /// A thread without frames.
    pub fn idle() -> Thread
        ensures { result ≡ idle_words }
    {
        Thread {
            root: Irql::Passive,
            depth: 0,
            places: Default::default(),
        }
    }

    /// Its frames, the lowest first.
    #[inline]
    fn frames(&self) -> &[Frame]
        ensures { result.now ≡ self.now.frames }
    {
        &self.places[..self.depth]
    }

    /// Whether it has no frames.
    pub fn is_idle(&self) -> bool
        ensures { result ≡ has_none self.now }
    {
        self.frames().is_empty()
    }

    /// What there is to tell of it, where keys name these packets.
    pub fn view(&self, shared: &Shared) -> ThreadView
        ensures { result ≡ word_thread_view (named shared.now) self.now }
    {
        let top = match self.frames().last() {
            Some(frame) => Some(told_of(frame, shared)),
            None => None,
        };
        ThreadView {
            root: self.root,
            frames: self.frames().len(),
            top,
        }
    }

    /// The words in the registers of the routine on top, if one stands there.
    pub fn words(&self) -> Option<&[u64; REGISTERS]>
        ensures { option_map (λ words. words.now) result
            ≡ words_of_frame (top_frame self.now.frames) }
    {
        match self.frames().last() {
            Some(frame) => words_of(frame),
            None => None,
        }
    }

    /// A frame is put on an idle thread, at a level.
    pub fn begin(&mut self, level: Irql, root: Over)
        requires { has_none self.old ≡ true }
        ensures { self.new ≡ rooted_word level (frame_over root) }
    {
        self.root = level;
        self.push(root);
    }

    /// A frame is put on the others, where it has a place.
    #[tactic(auto, using(std::proofs::lemmas::List::take_more_set))]
    fn push(&mut self, over: Over)
        requires { length self.old.frames < MAX_FRAMES }
        ensures { let frames = self.old.frames ++ frame_over over ∷ [] in
            self.new ≡ record self.old { frames = frames } }
    {
        self.places[self.depth].replace(over);
        self.depth += 1;
    }

    /// The top frame goes.
    fn pop(&mut self)
        ensures { let below = take (length self.old.frames - 1) self.old.frames in
            self.new ≡ record self.old { frames = below } }
    {
        self.depth = self.below_top();
    }

    /// How many frames stand under the top one.
    #[inline]
    fn below_top(&self) -> usize
        ensures { result ≡ length self.now.frames - 1 }
    {
        self.frames().len().saturating_sub(1)
    }

    /// After a step: a thread that it left without frames has finished, and is idle.
    fn finish(&mut self, reply: Reply) -> Reply
        ensures thread { self.new ≡ standing_on self.old self.old.frames }
        ensures reply { result ≡ ends_or self.old.frames reply }
    {
        if !self.is_idle() {
            return reply;
        }
        self.root = Irql::Passive;
        match reply {
            Reply::Stepped => Reply::Finished,
            _ => reply,
        }
    }

    /// After a step that ends the top frame: it goes, and the thread may have finished.
    fn end(&mut self, reply: Reply) -> Reply
        ensures thread { let below = take (length self.old.frames - 1) self.old.frames in
            self.new ≡ standing_on self.old below }
        ensures reply { let below = take (length self.old.frames - 1) self.old.frames in
            result ≡ ends_or below reply }
    {
        self.pop();
        self.finish(reply)
    }

    /// Lets the routine on top, if there is one, go on by itself for so many steps or fewer: how many.
    pub fn go_on(&mut self, set: &DriverSet, shared: &Shared, number: u8, count: usize) -> usize
        requires { GoingOnFits set.now shared.now number self.old }
        ensures few { result ≤ count }
        ensures goes { GoesOn set.now shared.now number self.old result self.new }
    {
        let Some((top, below)) = self.places[..self.depth].split_last_mut() else {
            return 0;
        };
        running::go_on(top, set, shared, number, below, count)
    }

    /// A step of the top frame of the thread of this number, if it has one.
    pub fn step(&mut self, set: &DriverSet, shared: &mut Shared, number: u8) -> Reply
        requires { WordThreadFits set.now shared.old number self.old }
        ensures { record { shared = shared.new; thread = self.new; reply = result }
            ≡ thread_moves set.now shared.old number self.old }
    {
        let Some((top, below)) = self.places[..self.depth].split_last_mut() else {
            return Reply::Idle;
        };
        match steps::step(top, set, shared, number, below) {
            Ran::Steps => Reply::Stepped,
            Ran::Waits => Reply::Waited,
            Ran::Under(over) => {
                self.push(over);
                Reply::Stepped
            }
            Ran::Becomes(over) => {
                top.replace(over);
                Reply::Stepped
            }
            Ran::Ends => self.end(Reply::Stepped),
            Ran::TopsOut {
                number: packet,
                status,
                info,
            } => self.end(Reply::Topped {
                packet,
                status,
                info,
            }),
            Ran::Stopped => {
                self.pop();
                self.end(Reply::Stepped)
            }
            Ran::Returned(status) => {
                self.pop();
                tell(set, &mut self.places[..self.depth], status);
                self.finish(Reply::Stepped)
            }
        }
    }
}
