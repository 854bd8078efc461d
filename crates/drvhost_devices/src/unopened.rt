//! Files that can't be opened or read.

ghost use Rattle.std.specs.Prelude.{ℕ, List, Option};
ghost use Rattle.report.specs.Fault.{unopened_line};
ghost use Rattle.drvhost_devices.specs.Answer.{IsUnopened};
ghost use Rattle.drvhost_devices.specs.Device.{CanCount, Says, SaysBehind};
ghost use Rattle.drvhost_devices.specs.Ends.{Answers};

use crate::device::Sink;
use crate::fault::say;
use report::fault::CANNOT_READ;

/// Tells on the error writer that the file of a name can't be opened. The answer is the exit
/// status.
pub fn tell_unopened<E: Sink>(name: &str, err: &mut E) -> u8
    requires { CanCount (E.failures err.old) }
    ensures { (reads writes : ℕ) (written : Option (List ℕ))
        → Answers (IsUnopened name.now) reads reads writes writes written written
        (Says (E.failures err.old) (E.failures err.new) (E.contents err.old) (E.contents err.new))
        result }
{
    let failures = err.failures();
    tell_unread(name, failures, err);
    2
}

/// Tells the name of a file that can't be read behind what an error writer was told since it had
/// failed so often.
pub fn tell_unread<E: Sink>(name: &str, failures: u64, err: &mut E)
    requires { CanCount failures }
    ensures { SaysBehind failures (E.failures err.old) (E.failures err.new) (E.contents err.old)
        (E.contents err.new) (unopened_line name.now) }
{
    say_behind(CANNOT_READ.as_bytes(), failures, err);
    say_behind(name.as_bytes(), failures, err);
    say_behind(b"\n", failures, err);
}

/// Writes a text behind what an error writer was told since it had failed so often, unless it has
/// failed since.
pub fn say_behind<E: Sink>(text: &[u8], failures: u64, err: &mut E)
    requires { CanCount failures }
    ensures { SaysBehind failures (E.failures err.old) (E.failures err.new) (E.contents err.old)
        (E.contents err.new) text.now }
{
    let is_good = err.failures() == failures;
    if is_good {
        say(err, text);
    }
}
