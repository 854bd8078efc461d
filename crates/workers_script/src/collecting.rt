//! What is told of commands that had tickets.

ghost use Rattle.std.specs.Prelude.{◌≡◌, ◌≤◌, IfOk, None, length, map, replicate};
ghost use Rattle.std.specs.List.{range_with_len};
ghost use Rattle.workers_script.specs.Served.{command_name};
ghost use Rattle.workers_script.specs.Told.{Tells, shown, told_by};

use hostcore::{Core, Ticket};
use model::event::Reply;
use model::history::Outcome;
use model::memory::OutOfMemory;
use std::alloc::{AllocError, Global};

/// What is shown of an outcome: how the packet of the request topped out, or else the reply.
fn shown(outcome: &Outcome) -> Reply
    ensures { result ≡ shown outcome.now }
{
    match outcome.topped {
        Some(top) => Reply::Topped {
            packet: top.packet,
            status: top.status,
            info: top.info,
        },
        None => outcome.reply,
    }
}

/// What is told of the command of a ticket.
fn tell(core: &Core, ticket: Ticket) -> Option<Reply>
    ensures { result ≡ told_by core.now.history ticket }
{
    match core.collect(ticket) {
        Ok(outcome) => Some(shown(&outcome)),
        Err(ticket) => core.abandon(ticket),
    }
}

/// Of so many commands nothing is told.
pub(crate) fn none_told(alloc: Global, count: usize) -> Result<Vec<Option<Reply>>, OutOfMemory>
    ensures { IfOk result (λ told. told.items ≡ replicate count None) }
{
    match Vec::from_elem(alloc, None, count) {
        Ok(told) => Ok(told),
        Err(AllocError) => Err(OutOfMemory),
    }
}

/// Tells of each command that has a ticket, at its number.
pub(crate) fn tell_all(core: &Core, mut tickets: Vec<Ticket>, told: &mut Vec<Option<Reply>>)
    requires tickets { tickets.items ≡ map command_name (range_with_len 0 (length tickets.items)) }
    requires few { length tickets.items ≤ length told.old.items }
    ensures { Tells core.now.history (length tickets.items) told.old.items told.new.items }
{
    while let Some(ticket) = tickets.pop() {
        told[tickets.len()] = tell(core, ticket);
    }
    tickets.destroy_empty();
}
