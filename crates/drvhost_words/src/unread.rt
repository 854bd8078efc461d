//! Files that can't be read, by their names.

ghost use Rattle.std.specs.Prelude.{◌≡◌, ◌+◌};
ghost use Rattle.drvhost_devices.specs.Device.{CanCount};
ghost use Rattle.drvhost_words.specs.Unread.{IsOneOf, SaysUnread};

use cli::job::FileNames;
use drvhost_devices::device::{Sink, Source};
use drvhost_devices::unopened::tell_unread;

/// Tells the name of a file, if a read of it failed, behind what an error writer was told since it
/// had failed so often.
pub(crate) fn tell_if_unread<S: Source, E: Sink>(name: &str, file: &S, failures: u64, err: &mut E)
    requires { CanCount failures }
    ensures { SaysUnread (λ unread. unread ≡ name.now) (S.failures file.now) failures
        (E.failures err.old) (E.failures err.new) (E.contents err.old) (E.contents err.new) }
{
    let reads = file.failures();
    if reads == 0 {
        return;
    }
    tell_unread(name, failures, err);
}

/// Tells the name of that of two files of which a read failed, if one did.
pub(crate) fn tell_which_unread<S: Source, P: Source, E: Sink>(
    names: FileNames<'_>,
    set: &S,
    input: &P,
    failures: u64,
    err: &mut E,
)
    requires { CanCount failures }
    ensures { SaysUnread (IsOneOf names.entry.set.now names.entry.input.now)
        (S.failures set.now + P.failures input.now) failures
        (E.failures err.old) (E.failures err.new) (E.contents err.old) (E.contents err.new) }
{
    let reads = set.failures();
    if reads > 0 {
        tell_unread(names.set, failures, err);
        return;
    }
    tell_if_unread(names.input, input, failures, err);
}
