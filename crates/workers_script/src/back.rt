//! A command that its queue handed back.

ghost use Rattle.std.specs.Prelude.{◌≡◌, ◌++◌, ◌∷◌, [], length, IfErr, IfOk};
ghost use Rattle.intake.specs.Lists.{name_of};

use hostcore::Ticket;
use intake::{Intake, Submitter};
use model::history::Command;
use std::marker::Model;
use std::sync::Wait;

/// A command that its queue handed back. Only a submission makes one. Contracts see the command.
#[derive(Drop)]
pub(crate) struct Back {
    command: Command,
}

impl Model for Back {
    ghost use Rattle.model.specs.declared.history.Command.{Command};

    ghost Value = { Command };

    ghost view = { λ b. b.command };
}

/// Submits a command.
pub(crate) fn submit_one<R: Wait>(
    rt: &R,
    intake: &Intake,
    submitter: &mut Submitter,
    command: Command,
) -> Result<Ticket, Back>
    requires queue { submitter.old.queue ≡ intake.now }
    ensures ticket { IfOk result (λ ticket. ticket
        ≡ name_of submitter.old.number (length submitter.old.put)) }
    ensures put { IfOk result (λ ticket. submitter.new ≡ record submitter.old {
      put = submitter.old.put ++ record { name = ticket; command = command } ∷ [];
    }) }
    ensures back { IfErr result (λ back. (back ≡ command) × (submitter.new ≡ submitter.old)) }
{
    match submitter.submit(rt, intake, command) {
        Ok(ticket) => Ok(ticket),
        Err(command) => Err(Back { command }),
    }
}
