//! Machines that run the same event several times in a row.

ghost use Rattle.std.specs.Prelude.{ℕ, ◌≡◌, ◌+◌, ◌≤◌, ◌∷◌, [], List, true};
ghost use Rattle.model.specs.declared.event.Event.{Event};
ghost use Rattle.model.specs.declared.event.Event.TheVariants.{Step};
ghost use Rattle.model.specs.Machine.{Shows, ShowsWhole};
ghost use Rattle.model.specs.Set.{Set};
ghost use Rattle.drvhost_devices.specs.Answer.{is_last};
ghost use Rattle.answer_runs.specs.Repeats.{RepeatsBy, settled, told_by};

use checked::{Checked, says_unchanged};
use laws_runs::waiting_changes_nothing;
use machine::World;
use model::event::{Event, Reply};

/// The replies to an event that happened several times in a row.
#[derive(Clone, Copy)]
pub struct Replies {
    /// To how many of them the thread stepped, before the others.
    pub stepped: usize,
    /// The reply to each of the others.
    pub last: Reply,
    /// How many others there are.
    pub times: usize,
}

/// Something that runs events.
pub trait Machine {
    ghost set_of: { Self → Set };

    /// It shows the run of these events, over so many threads.
    ghost shows: { Self → ℕ → List Event → Type 0 };

    /// Runs an event once, and answers its reply.
    fn answer(&mut self, event: &Event) -> Reply
        ensures { RepeatsBy set_of shows self.old event.now self.new (result ∷ []) };

    /// Runs an event at least once and at most so many times, and answers its replies. It ends with
    /// the first that is a bug check or a wrong operand.
    fn repeat(&mut self, event: &Event, count: usize) -> Replies
        requires { 1 ≤ count }
        ensures some { 1 ≤ result.times }
        ensures few { result.stepped + result.times ≤ count }
        ensures once { is_last result.last ≡ true → result.times ≡ 1 }
        ensures repeats { RepeatsBy set_of shows self.old event.now self.new (told_by result) };
}

impl Machine for Checked {
    ghost set_of = { λ machine. machine.set };

    ghost shows = { ShowsWhole };

    #[inline]
    fn answer(&mut self, event: &Event) -> Reply {
        self.apply(event)
    }

    #[inline]
    fn repeat(&mut self, event: &Event, _count: usize) -> Replies {
        Replies {
            stepped: 0,
            last: self.apply(event),
            times: 1,
        }
    }
}

impl Machine for World {
    ghost set_of = { λ world. world.set };

    ghost shows = { Shows };

    #[inline]
    fn answer(&mut self, event: &Event) -> Reply {
        self.apply(event)
    }

    #[inline]
    fn repeat(&mut self, event: &Event, count: usize) -> Replies {
        match *event {
            Event::Step { thread } if count > 1 => step(self, thread, count),
            _ => once(self, event, count),
        }
    }
}

/// Steps a thread, until it replies otherwise than that it stepped. If it does so at the first step
/// and nothing has changed, it does so at all of them.
fn step(world: &mut World, thread: u8, count: usize) -> Replies
    requires { 1 ≤ count }
    ensures some { 1 ≤ result.times }
    ensures few { result.stepped + result.times ≤ count }
    ensures once { is_last result.last ≡ true → result.times ≡ 1 }
    ensures repeats { RepeatsBy (λ world. world.set) Shows world.old (Step thread) world.new
        (told_by result) }
{
    waiting_changes_nothing();
    let steps = world.steps(thread, count);
    if steps.made > 1 {
        return Replies {
            stepped: steps.made - 1,
            last: steps.last,
            times: 1,
        };
    }
    settled(steps.last, count)
}

/// Applies an event. If nothing has changed by it, nothing changes by the others.
#[inline]
fn once(world: &mut World, event: &Event, count: usize) -> Replies
    requires { 1 ≤ count }
    ensures some { 1 ≤ result.times }
    ensures few { result.stepped + result.times ≤ count }
    ensures once { is_last result.last ≡ true → result.times ≡ 1 }
    ensures repeats { RepeatsBy (λ world. world.set) Shows world.old event.now world.new
        (told_by result) }
{
    waiting_changes_nothing();
    let reply = world.apply(event);
    settled(reply, count)
}

/// The replies to an event that has this one, and is to happen so often.
fn settled(reply: Reply, count: usize) -> Replies
    ensures { result ≡ settled reply count }
{
    let times = if says_unchanged(&reply) { count } else { 1 };
    Replies {
        stepped: 0,
        last: reply,
        times,
    }
}
