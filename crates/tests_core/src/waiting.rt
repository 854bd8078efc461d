//! Workers that have nothing to do for a while: their thread waits for a lock, or the queue, which
//! is open still, is empty.

ghost use Rattle.std.specs.Prelude.{◌≡◌, ◌≤◌, None, length, replicate};
ghost use Rattle.intake.specs.Ends.{AreTakersOf};

use crate::pace::Watch;
use crate::served::{Account, last_submitter, put, queue_of, serve_all};
use crate::sets::{LOCKS, READ, core_of};
use hostcore::Core;
use intake::{Intake, Submitter};
use std::alloc::Global;
use std::process::Abort;
use std::sync::Wait;
use std::sync::atomic::{AtomicU64, Ordering};
use std::thread::{Threads, join};
use std::time::Clock;
use tests_vectors::ONE_READ_TEXT;
use workers::{Gate, serve};

/// A gate for two workers that perform a request each. Worker 0 gets the lock, and has it until
/// worker 1 has asked once more after a turn in which its thread waited for it.
#[derive(Drop)]
struct Rivals<C: Clock> {
    clock: C,
    watch: Watch,
    /// How often worker 1 asked when it was to take the lock.
    tries: AtomicU64,
}

impl<C: Clock> Rivals<C> {
    /// A gate that nobody has asked yet.
    fn new(clock: C) -> Rivals<C> {
        Rivals {
            clock,
            watch: Watch::new(),
            tries: AtomicU64::new(0),
        }
    }
}

impl<C: Clock> Gate for Rivals<C> {
    fn before(&self, worker: u32, count: u64) -> bool {
        self.watch.note(worker, count);
        match (worker, count) {
            (0, 2) => self.watch.await_number(&self.clock, &self.tries, 2),
            (1, 1) => {
                self.tries.fetch_add(1, Ordering::SeqCst);
                self.watch.await_counts(&self.clock, 0, 3);
            }
            _ => {}
        }
        true
    }
}

/// A worker goes on once its thread has got the lock for which it waited: each performs its
/// request, by six entries.
#[test]
fn a_worker_goes_on_after_its_thread_waited(rt: HostRuntime) {
    let core = core_of(&rt, rt.alloc(), LOCKS, 2, 100);
    let rivals = Rivals::new(rt.clone().ok().expect(&rt, "a clock"));
    let account = serve_all(&rt, rt.alloc(), core, 2, [READ, READ].as_slice(), &rivals);
    assert!(rt; rivals.watch.ended_with([6, 6].as_slice()));
    assert!(rt; account.is_of(2, 2));
}

/// How many requests each of two submitters puts while workers serve.
const PUT: usize = 10;

/// Two workers perform what two submitters put while they serve, into a queue that has room for one
/// command, and end once it is closed.
#[test]
fn workers_stay_at_an_open_queue(rt: HostRuntime) {
    let watch = Watch::new();
    let account = stay(&rt, rt.alloc(), &watch);
    assert!(rt; watch.ended_with(account.counts.as_slice()));
    assert!(rt; account.is_of(2, 2 * PUT) && account.entries == 8 * PUT);
}

/// What came of two workers at an open queue.
fn stay<R: Threads + Wait + Abort + Clock + Sync>(rt: &R, alloc: Global, watch: &Watch) -> Account {
    let idle = core_of(rt, alloc, ONE_READ_TEXT, 1, 1);
    let core = core_of(rt, alloc, ONE_READ_TEXT, 2, 100);
    serve_while_put(rt, alloc, core, &idle, watch)
}

/// Two workers serve a queue with two submitters, each in a thread of its own.
fn serve_while_put<R: Threads + Wait + Abort + Clock + Sync>(
    rt: &R,
    alloc: Global,
    core: Core,
    idle: &Core,
    watch: &Watch,
) -> Account
    requires threads { core.threads ≡ 2 }
    requires free { core.seats ≡ replicate core.threads None }
{
    let (intake, mut submitters, takers) = queue_of(rt, alloc, 1, 2, 2);
    let first = last_submitter(rt, &intake, &mut submitters);
    let second = last_submitter(rt, &intake, &mut submitters);
    let (_put, served) = join(
        rt,
        ||
            requires { (first.queue ≡ intake) × (second.queue ≡ intake) }
        { both_put(rt, idle, &intake, first, second, watch) },
        ||
            requires { (length takers.items ≡ 2) × (core.threads ≡ 2)
                × (core.seats ≡ replicate core.threads None) × AreTakersOf intake takers.items }
        { serve(rt, alloc, core, &intake, takers, watch) },
    );
    Account::of(served)
}

/// Two submitters put requests at once, and the queue is closed when workers have found nothing to
/// do after the last.
fn both_put<R: Threads + Wait + Abort + Clock + Sync>(
    rt: &R,
    idle: &Core,
    intake: &Intake,
    first: Submitter,
    second: Submitter,
    watch: &Watch,
)
    requires first { first.queue ≡ intake.now }
    requires second { second.queue ≡ intake.now }
{
    join(
        rt,
        || put_slowly(rt, idle, intake, first, watch),
        || put_slowly(rt, idle, intake, second, watch),
    );
    intake.close();
}

/// A submitter puts requests, each once both workers have found nothing to do, up to when they have
/// found nothing to do after the last.
fn put_slowly<R: Wait + Abort + Clock>(
    rt: &R,
    idle: &Core,
    intake: &Intake,
    mut submitter: Submitter,
    watch: &Watch,
)
    requires queue { submitter.queue ≡ intake.now }
{
    for _ in 0..PUT {
        await_idle(rt, watch);
        put(rt, idle, intake, &mut submitter, READ);
    }
    await_idle(rt, watch);
}

/// Waits until each of two workers has twice found nothing to do.
fn await_idle<C: Clock>(clock: &C, watch: &Watch) {
    for worker in 0..2 {
        let repeats = watch.repeats_of(worker).saturating_add(2);
        watch.await_repeats(clock, worker, repeats);
    }
}
