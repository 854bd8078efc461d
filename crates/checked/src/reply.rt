//! What a reply says of the event.

ghost use Rattle.std.specs.Prelude.{◌≡◌};
ghost use Rattle.laws_runs.specs.Waits.{says_unchanged};

use model::event::Reply;

/// Whether a reply says that nothing has changed.
pub fn says_unchanged(reply: &Reply) -> bool
    ensures { result ≡ says_unchanged reply.now }
{
    matches!(reply, Reply::Waited | Reply::Idle | Reply::Refused)
}
