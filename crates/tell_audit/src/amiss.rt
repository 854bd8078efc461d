//! What can be amiss at the end of a run.

ghost use Rattle.std.specs.Prelude.{◌≡◌};
ghost use Rattle.tell_audit.specs.Ends.{first_of, stops_with};

use crate::findings::Findings;
use crate::left::LeftLock;
use model::event::Reply;
use tell_uses::uses::LocationUse;

/// What is amiss at the end of a run.
#[derive(Clone, Copy)]
pub enum Amiss {
    /// Its last event replied a bug check or a wrong operand.
    Stopped(Reply),
    /// No place names this live packet.
    Lost(u64),
    /// An idle thread owns a lock.
    Left(LeftLock),
    /// This thread waits in a ring.
    Ringed(u8),
    /// This use of a stack location was returned from otherwise than it was marked.
    Disagrees(LocationUse),
}

/// A reply that stops the run: a bug check, or a wrong operand.
pub(crate) fn stops_with(reply: &Reply) -> Option<Amiss>
    ensures { result ≡ stops_with reply.now }
{
    match reply {
        Reply::Bug(_) | Reply::Wrong(_) => Some(Amiss::Stopped(*reply)),
        _ => None,
    }
}

/// The first thing that an audit finds amiss.
pub(crate) fn first_of(found: &Findings) -> Option<Amiss>
    ensures { result ≡ first_of found.now.lost.items found.now.left.items found.now.ringed.items
        found.now.disagreeing.items }
{
    if let Some(packet) = found.lost.first() {
        return Some(Amiss::Lost(*packet));
    }
    if let Some(left) = found.left.first() {
        return Some(Amiss::Left(*left));
    }
    if let Some(thread) = found.ringed.first() {
        return Some(Amiss::Ringed(*thread));
    }
    match found.disagreeing.first() {
        Some(location_use) => Some(Amiss::Disagrees(*location_use)),
        None => None,
    }
}
