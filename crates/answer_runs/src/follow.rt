//! The events of a schedule, as a run takes them one after another.

ghost use Rattle.std.specs.Prelude.{◌≡◌, ◌++◌, ◌∷◌, ◌≤◌, List, [], IfSome, MatchOption, replicate};
ghost use Rattle.model.specs.declared.event.Event.{Event};
ghost use Rattle.drvhost_devices.specs.Answer.{is_last};
ghost use Rattle.answer_runs.specs.Repeats.{awaited};

use interleave::events::Upcoming;
use interleave::read::Repeated;
use model::event::{Event, Reply};

/// The next event, where nothing is left of a run, and it is one that happens once: so are most
/// events of a schedule with a line for each.
#[inline]
pub(crate) fn next_single(rest: &Option<Repeated>, upcoming: &mut Upcoming<'_>) -> Option<Event>
    ensures { MatchOption result (upcoming.new ≡ upcoming.old) (λ event.
        awaited rest.now upcoming.old ≡ event ∷ awaited rest.now upcoming.new) }
{
    if rest.is_some() {
        return None;
    }
    upcoming.next_single()
}

/// The events that come next: what is left of a run, or the next one.
#[inline]
pub(crate) fn next_run(rest: Option<Repeated>, upcoming: &mut Upcoming<'_>) -> Option<Repeated>
    requires { IfSome rest (λ run. 1 ≤ run.count) }
    ensures { MatchOption result (awaited rest upcoming.old ≡ []) (λ run. (1 ≤ run.count)
        × (awaited rest upcoming.old ≡ replicate run.count run.event ++ upcoming.new)) }
{
    if rest.is_some() {
        return rest;
    }
    upcoming.next_run()
}

/// What is left of a run, where this event is left to happen so often.
#[inline]
pub(crate) fn rest_of(event: Event, left: usize) -> Option<Repeated>
    ensures events { (later : List Event)
        → awaited result later ≡ replicate left event ++ later }
    ensures some { IfSome result (λ run. 1 ≤ run.count) }
    ensures same { IfSome result (λ run. run.event ≡ event) }
{
    if left == 0 {
        return None;
    }
    Some(Repeated { event, count: left })
}

/// Whether the run ends with this reply: a bug check, or a wrong operand.
#[inline]
pub fn is_last(reply: &Reply) -> bool
    ensures { result ≡ is_last reply.now }
{
    matches!(reply, Reply::Bug(_) | Reply::Wrong(_))
}
