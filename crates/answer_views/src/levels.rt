//! Of which events of a run that is told a line is left out.

ghost use Rattle.std.specs.Prelude.{◌≡◌, ◌≤◌};
ghost use Rattle.answer_views.specs.Told.{happens_again, is_incidental, is_left_out, times_of};

use drvhost_devices::manner::Detail;
use model::event::Reply;
use tell_uses::computing::only_computes;
use tell_words::Happened;

/// How often in a row an event happens at most that is told by itself where not each has a line.
pub(crate) const FEW: usize = 32;

/// Whether nothing is told of an event that happened.
pub(crate) fn is_left_out(detail: Detail, happened: &Happened) -> bool
    ensures { result ≡ is_left_out detail happened.now.moment.acting happened.now.reply }
{
    match detail {
        Detail::Every => false,
        Detail::Usual => is_incidental(happened),
        Detail::Quiet => matches!(happened.reply, Reply::Stepped | Reply::Idle),
    }
}

/// Whether it isn't about a packet, a lock, a list or a level.
fn is_incidental(happened: &Happened) -> bool
    ensures { result ≡ is_incidental happened.now.moment.acting happened.now.reply }
{
    match happened.reply {
        Reply::Idle => true,
        Reply::Stepped => only_computes(&happened.moment.acting),
        Reply::Started(_)
        | Reply::Finished
        | Reply::Topped { .. }
        | Reply::Waited
        | Reply::Refused
        | Reply::Bug(_)
        | Reply::Wrong(_) => false,
    }
}

/// How many are told at once of so many events in a row: one, where not each has a line and they
/// are few.
pub(crate) fn at_once(detail: Detail, count: usize) -> usize
    requires { 1 ≤ count }
    ensures some { 1 ≤ result }
    ensures few { result ≤ count }
{
    match detail {
        Detail::Every => count,
        Detail::Usual | Detail::Quiet => { if count > FEW { count } else { 1 } }
    }
}

/// How many of so many events in a row are told with the first of them, which has this reply.
pub(crate) fn times_of(reply: &Reply, count: usize) -> usize
    ensures { result ≡ times_of reply.now count }
{
    if happens_again(reply) { count } else { 1 }
}

/// Whether an event that has this reply has it again where it happens again, and does nothing.
fn happens_again(reply: &Reply) -> bool
    ensures { result ≡ happens_again reply.now }
{
    matches!(reply, Reply::Waited | Reply::Idle)
}
