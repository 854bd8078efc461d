//! Steps that a thread makes by itself, and what is told of them.

ghost use Rattle.std.specs.Prelude.{◌≡◌, ◌+◌, ◌<◌, ◌≤◌, ◌^◌, IfOk};
ghost use Rattle.checked.specs.GoingOn.{GoesOn};
ghost use Rattle.answer_views.specs.Told.{GoesAlone, ToldAlone, ToldOnce, unknown_step};

use crate::levels::FEW;
use crate::page::Page;
use checked::Checked;
use drvhost_devices::manner::Detail;
use model::event::{Event, Reply};
use model::view::FrameView;
use std::alloc::AllocError;
use tell_uses::standing::top_frame;

impl<'a> Page<'a> {
    /// Lets the thread of a step that comes so often go on by itself for as many as it can make so:
    /// in quiet nothing is told of them, and a line of each where each event has one. It answers
    /// how many were made; none where another event comes, in quiet one that needs a look at it
    /// before or comes a few times, and where it hangs on the step whether a line is told of it.
    #[inline]
    pub(crate) fn go_ahead(
        &mut self,
        machine: &mut Checked,
        event: &Event,
        count: usize,
        unseen: bool,
    ) -> Result<usize, AllocError>
        requires { self.old.number + count < 2 ^ 64 }
        ensures few { IfOk result (λ made. made ≤ count) }
        ensures detail { IfOk result (λ made. self.new.detail ≡ self.old.detail) }
        ensures number { IfOk result (λ made. self.new.number ≡ self.old.number + made) }
        ensures goes { IfOk result (λ made. GoesAlone event.now machine.old made machine.new) }
        ensures told { IfOk result (λ made. 1 ≤ made → ToldAlone self.old.detail self.old.number
            made self.old.text.items self.new.text.items) }
        ensures none { IfOk result (λ made. made ≡ 0
            → (machine.new ≡ machine.old) × (self.new.text.items ≡ self.old.text.items)) }
    {
        let Event::Step { thread } = *event else {
            return Ok(0);
        };
        let detail = self.detail;
        match detail {
            Detail::Quiet if !unseen || count <= FEW => Ok(0),
            Detail::Quiet => {
                let made = machine.go_on(thread, count);
                self.number.advance_many(made as u64);
                Ok(made)
            }
            Detail::Usual => Ok(0),
            Detail::Every => self.tell_alone(machine, thread, count),
        }
    }

    /// Lets a thread make steps by itself, up to so many, and tells each. It answers how many were
    /// made.
    fn tell_alone(
        &mut self,
        machine: &mut Checked,
        thread: u8,
        most: usize,
    ) -> Result<usize, AllocError>
        requires { self.old.number + most < 2 ^ 64 }
        ensures few { IfOk result (λ made. made ≤ most) }
        ensures detail { IfOk result (λ made. self.new.detail ≡ self.old.detail) }
        ensures number { IfOk result (λ made. self.new.number ≡ self.old.number + made) }
        ensures goes { IfOk result (λ made. GoesOn thread machine.old made machine.new) }
        ensures told { IfOk result (λ made. ToldAlone Detail.Every self.old.number made
            self.old.text.items self.new.text.items) }
        ensures none { IfOk result (λ made. made ≡ 0
            → (machine.new ≡ machine.old) × (self.new.text.items ≡ self.old.text.items)) }
    {
        for made in 0..most {
            if self.tell_step(machine, thread)? == 0 {
                return Ok(made);
            }
        }
        Ok(most)
    }

    /// Lets a thread make a step by itself, and tells it. It answers how many were made: one, or
    /// none.
    #[inline]
    fn tell_step(&mut self, machine: &mut Checked, thread: u8) -> Result<usize, AllocError>
        requires { self.old.number + 1 < 2 ^ 64 }
        ensures few { IfOk result (λ made. made ≤ 1) }
        ensures detail { IfOk result (λ made. self.new.detail ≡ self.old.detail) }
        ensures number { IfOk result (λ made. self.new.number ≡ self.old.number + made) }
        ensures goes { IfOk result (λ made. GoesOn thread machine.old made machine.new) }
        ensures told { IfOk result (λ made. 1 ≤ made → ToldOnce Detail.Every self.old.number
            unknown_step self.old.text.items self.new.text.items) }
        ensures none { IfOk result (λ made. made ≡ 0
            → (machine.new ≡ machine.old) × (self.new.text.items ≡ self.old.text.items)) }
    {
        let Some(place) = top_place(machine, thread) else {
            return Ok(0);
        };
        if machine.go_on(thread, 1) == 0 {
            return Ok(0);
        }
        let head = self.begin_line(&Reply::Stepped);
        self.teller.tell_alone(head, thread, place, machine)?;
        self.end_line()?;
        Ok(1)
    }
}

/// Where the frame on the top of a thread stands.
fn top_place(machine: &Checked, thread: u8) -> Option<FrameView> {
    match top_frame(machine, thread) {
        Some(frame) => Some(frame.view()),
        None => None,
    }
}
