//! What has happened in a run, each event as often as it did in a row.

ghost use Rattle.std.specs.Prelude.{◌≡◌, ◌<◌, ◌+◌, ◌^◌, ◌++◌, IsTrue, length, replicate, vec_len};
ghost use Rattle.std.specs.Vec.{vec_capacity};
ghost use Rattle.scenario_run.specs.Past.{events_of};

use interleave::read::Repeated;
use model::event::Event;

/// Adds an event, as often as it happens. A step of the thread that stepped last is counted there.
pub(crate) fn add_past(past: &mut Vec<Repeated>, more: Repeated)
    requires room { vec_len past.old < vec_capacity past.old }
    requires few { length (events_of past.old.items) + more.count < 2 ^ 64 }
    ensures { events_of past.new.items
        ≡ events_of past.old.items ++ replicate more.count more.event }
{
    if more.count == 0 {
        return;
    }
    if let Some(place) = past.len().checked_sub(1) {
        let last = past[place];
        if is_same_step(&last.event, &more.event) {
            past[place] = Repeated {
                event: more.event,
                count: last.count + more.count,
            };
            return;
        }
    }
    past.push_reserved(more);
}

/// Whether two events are steps of one thread.
fn is_same_step(one: &Event, other: &Event) -> bool
    ensures { IsTrue result → one.now ≡ other.now }
{
    match (one, other) {
        (Event::Step { thread }, Event::Step { thread: again }) => *thread == *again,
        _ => false,
    }
}
