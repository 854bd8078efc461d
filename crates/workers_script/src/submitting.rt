//! Commands of a script on their way into a queue.

ghost use Rattle.std.specs.Prelude.{◌≡◌, ◌≤◌, [], IfNone, IfSome, Some, length, map, slice_get};
ghost use Rattle.std.specs.Prelude.{take};
ghost use Rattle.std.specs.List.{range_with_len};
ghost use Rattle.std.specs.Vec.{vec_capacity};
ghost use Rattle.workers_script.specs.Served.{command_name, named_from};

use crate::back::{Back, submit_one};
use hostcore::Ticket;
use intake::{Intake, Submitter};
use model::history::Command;
use std::sync::Wait;

/// Submits commands in order, up to one that comes back, and adds a ticket for each. Answers the
/// one that came back.
pub(crate) fn submit_all<R: Wait>(
    rt: &R,
    intake: &Intake,
    submitter: &mut Submitter,
    commands: &[Command],
    tickets: &mut Vec<Ticket>,
) -> Option<Back>
    requires queue { submitter.old.queue ≡ intake.now }
    requires number { submitter.old.number ≡ 0 }
    requires new { submitter.old.put ≡ [] }
    requires empty { tickets.old.items ≡ [] }
    requires room { length commands.now ≤ vec_capacity tickets.old }
    ensures queue { submitter.new.queue ≡ submitter.old.queue }
    ensures share { submitter.new.share ≡ submitter.old.share }
    ensures all { IfNone result (length tickets.new.items ≡ length commands.now) }
    ensures back { IfSome result (λ back. slice_get commands.now (length tickets.new.items)
        ≡ Some back) }
    ensures few { length tickets.new.items ≤ length commands.now }
    ensures put { submitter.new.put
        ≡ named_from 0 (take (length tickets.new.items) commands.now) }
    ensures tickets { tickets.new.items
        ≡ map command_name (range_with_len 0 (length tickets.new.items)) }
{
    for &command in commands {
        match submit_one(rt, intake, submitter, command) {
            Ok(ticket) => tickets.push_reserved(ticket),
            Err(back) => return Some(back),
        }
    }
    None
}
