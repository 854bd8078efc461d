//! Those that submit commands.

ghost use Rattle.std.specs.Prelude.{◌≡◌, ◌++◌, ◌∷◌, [], length, IfErr, IfOk};
ghost use Rattle.intake.specs.Kept.{IsAtHome, known};
ghost use Rattle.intake.specs.Lists.{IsNumbered, name_of};
ghost use Rattle.intake.specs.Rule.{IsUnused};

use crate::rule::{Known, Puts};
use crate::shared::Intake;
use hostcore::{Desk, Ticket};
use model::history::Command;
use model::limits::MAX_NAMES;
use std::marker::Model;
use std::sync::Wait;

/// Puts commands into one queue. Contracts see which queue it is, the share of it, the submitter's
/// number, and the commands that it put, in order, each with its name.
#[derive(Drop)]
pub struct Submitter {
    desk: Desk,
    pass: Known,
}

impl Model for Submitter {
    ghost use Rattle.intake.specs.Ends.{SubmitterState};
    ghost use Rattle.intake.specs.Kept.{KeepsSubmitter, known};

    ghost Value = { SubmitterState };

    ghost view = { λ s. record {
      queue = s.pass.table_id;
      share = (known s.pass).shares;
      number = s.desk.submitter;
      put = (known s.pass).put;
    } };

    ghost invariant = { λ s. KeepsSubmitter s.desk s.pass };
}

impl Submitter {
    /// A submitter that has put nothing.
    pub(crate) fn begin(number: u32, pass: Known) -> Submitter
        requires unused { IsUnused (known pass) }
        requires number { (known pass).number ≡ number }
        requires home { IsAtHome pass }
        ensures { result ≡ record {
          queue = pass.table_id;
          share = (known pass).shares;
          number = number;
          put = [];
        } }
    {
        Submitter {
            desk: Desk::new(number),
            pass,
        }
    }

    /// Its pass.
    pub(crate) fn into_pass(self) -> Known
        ensures home { IsAtHome result }
        ensures queue { result.table_id ≡ self.queue }
        ensures share { (known result).shares ≡ self.share }
        ensures put { (known result).put ≡ self.put }
        ensures taken { (known result).taken ≡ [] }
        ensures names { IsNumbered self.number self.put }
    {
        let Submitter { desk: _, pass } = self;
        pass
    }

    /// Its number.
    pub fn number(&self) -> u32
        ensures number { result ≡ self.now.number }
        ensures names { IsNumbered self.now.number self.now.put }
    {
        self.desk.next_name().submitter
    }

    /// Puts a command at the back of the queue under its next name, and answers the ticket. The
    /// command comes back where the queue is full, or is closed, or all `MAX_NAMES` names are used.
    pub fn submit<R: Wait>(
        &mut self,
        rt: &R,
        intake: &Intake,
        command: Command,
    ) -> Result<Ticket, Command>
        requires queue { self.old.queue ≡ intake.now }
        ensures ticket { IfOk result (λ ticket. ticket
            ≡ name_of self.old.number (length self.old.put)) }
        ensures put { IfOk result (λ ticket. self.new ≡ record self.old {
          put = self.old.put ++ record { name = ticket; command = command } ∷ [];
        }) }
        ensures back { IfErr result (λ back. (back ≡ command) × (self.new ≡ self.old)) }
        ensures names { IsNumbered self.new.number self.new.put }
    {
        if intake.closed() || self.desk.next_name().count == MAX_NAMES {
            return Err(command);
        }
        let (ticket, queued) = self.desk.open(command);
        match intake.line.push_as::<Puts, R>(rt, &mut self.pass, queued) {
            Ok(()) => Ok(ticket),
            Err(queued) => Err(self.desk.undo(ticket, queued)),
        }
    }
}
