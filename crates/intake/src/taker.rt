//! Those that take commands.

ghost use Rattle.std.specs.Prelude.{◌≡◌, ◌++◌, ◌∷◌, [], IfNone, IfSome};
ghost use Rattle.intake.specs.Finding.{Finds};
ghost use Rattle.intake.specs.Kept.{IsAtHome, known};
ghost use Rattle.intake.specs.Lists.{IsInOrder};
ghost use Rattle.intake.specs.Rule.{IsUnused};

use crate::closing::{Closed, Drained};
use crate::rule::{Known, Takes};
use crate::shared::Intake;
use hostcore::Taken;
use std::marker::Model;
use std::sync::Wait;

/// What a taker finds at the front of a queue.
pub enum Found {
    /// A command, which it took.
    Command(Taken),
    /// The queue was empty at a moment.
    Nothing,
    /// The queue was empty at a moment after it was closed.
    End(Drained),
}

/// Takes commands from one queue. Contracts see which queue it is, the share of it, and the
/// commands that it took, in order, each with its name.
#[derive(Drop)]
pub struct Taker {
    pass: Known,
}

impl Model for Taker {
    ghost use Rattle.intake.specs.Ends.{TakerState};
    ghost use Rattle.intake.specs.Kept.{KeepsTaker, known};

    ghost Value = { TakerState };

    ghost view = { λ t. record {
      queue = t.pass.table_id;
      share = (known t.pass).shares;
      taken = (known t.pass).taken;
    } };

    ghost invariant = { λ t. KeepsTaker t.pass };
}

impl Taker {
    /// A taker that has taken nothing.
    pub(crate) fn begin(pass: Known) -> Taker
        requires unused { IsUnused (known pass) }
        requires home { IsAtHome pass }
        ensures { result ≡ record {
          queue = pass.table_id;
          share = (known pass).shares;
          taken = [];
        } }
    {
        Taker { pass }
    }

    /// Its pass.
    pub(crate) fn into_pass(self) -> Known
        ensures home { IsAtHome result }
        ensures queue { result.table_id ≡ self.queue }
        ensures share { (known result).shares ≡ self.share }
        ensures put { (known result).put ≡ [] }
        ensures taken { (known result).taken ≡ self.taken }
        ensures order { IsInOrder self.taken }
    {
        let Taker { pass } = self;
        pass
    }

    /// Takes the command at the front of the queue. None where the queue was empty at a moment.
    pub fn take<R: Wait>(&mut self, rt: &R, intake: &Intake) -> Option<Taken>
        requires queue { self.old.queue ≡ intake.now }
        ensures taken { IfSome result (λ taken. self.new
            ≡ record self.old { taken = self.old.taken ++ taken ∷ [] }) }
        ensures none { IfNone result (self.new ≡ self.old) }
        ensures order { IsInOrder self.new.taken }
    {
        let queued = intake.line.pop_as::<Takes, R>(rt, &mut self.pass)?;
        Some(queued.taken())
    }
    /// Takes the command at the front of the queue, as `take`. Where there was none after the queue
    /// was closed, that is what is found.
    pub fn take_or_end<R: Wait>(&mut self, rt: &R, intake: &Intake, closed: Option<Closed>) -> Found
        requires queue { self.old.queue ≡ intake.now }
        requires closed { IfSome closed (λ closed. closed ≡ intake.now) }
        ensures found { Finds self.old self.new result }
        ensures order { IsInOrder self.new.taken }
    {
        let Some(taken) = self.take(rt, intake) else {
            return match closed {
                Some(closed) => Found::End(Drained::after(closed)),
                None => Found::Nothing,
            };
        };
        Found::Command(taken)
    }
}
