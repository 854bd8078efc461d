//! Starting workers, each in a thread of its own.

ghost use Rattle.std.specs.Prelude.{◌≡◌, ◌<◌, ◌≤◌, ◌+◌, length};
ghost use Rattle.intake.specs.Ends.{AreTakersOf};
ghost use Rattle.intake.specs.declared.limits.TheConstants.{MAX_TAKERS};

use crate::ending::{End, Ends};
use crate::locked::{Beginning, Service};
use crate::waiting::lock_when_free;
use crate::working::{Gate, work};
use intake::Intake;
use std::sync::ledger::Share;
use std::sync::{Mutex, Wait};
use std::thread;
use std::thread::{Promise, Scope, Threads};

/// What all workers of a service work with.
#[derive(Drop)]
pub(crate) struct Shift<'s, B: Beginning, G> {
    pub(crate) service: &'s Mutex<Service<B>>,
    pub(crate) intake: &'s Intake,
    pub(crate) gate: &'s G,
}

/// The promise of a worker's thread: the end of the worker of a number.
#[derive(Clone, Copy)]
struct EndOf(usize);

impl Promise<End> for EndOf {
    ghost kept_by = { λ p end. end ≡ p.0 };
}

/// Workers that were started, and have ended.
pub struct Joined<B: Beginning> {
    pub ends: Ends,
    /// The share of their ledger, which has one for each.
    pub started: Share<B>,
}

/// One more worker was started: it is let in.
fn admit<B: Beginning, R: Wait>(rt: &R, service: &Mutex<Service<B>>, all: &mut Share<B>)
    requires all { all.old.parts ≡ B.parts }
    requires part { 0 < all.old.parts }
    requires next { all.old.amount < length B.takers }
    requires few { length B.takers ≤ MAX_TAKERS }
    ensures parts { all.new.parts ≡ all.old.parts }
    ensures amount { all.new.amount ≡ all.old.amount + 1 }
{
    lock_when_free(rt, service).admit(all)
}

/// Starts the workers from a number on, up to one whose thread the system refuses, and answers when
/// those that it started have ended.
fn start_from<'s, E, B: Beginning + Send + Sync, G: Gate + Sync, R: Threads + Wait + Sync>(
    scope: &Scope<'s, E>,
    rt: &'s R,
    shift: &'s Shift<'s, B, G>,
    number: usize,
    count: usize,
    mut all: Share<B>,
) -> Joined<B>
    requires count { count ≡ length B.takers }
    requires few { length B.takers ≤ MAX_TAKERS }
    requires takers { AreTakersOf shift.now.intake.now B.takers }
    requires number { number ≤ count }
    requires all { all.parts ≡ B.parts }
    requires part { 0 < all.parts }
    requires started { all.amount ≡ number }
    ensures all { result.started.parts ≡ B.parts }
    ensures missing { result.ends.missing ≡ number }
    ensures started { result.ends.started ≡ result.started.amount }
{
    if number >= count {
        return Joined {
            ends: Ends::of(number),
            started: all,
        };
    }
    let worker = move || -> End
        requires { (number < length B.takers) × (length B.takers ≤ MAX_TAKERS)
            × AreTakersOf shift.now.intake.now B.takers }
        ensures { result ≡ number }
    { work(rt, shift.service, shift.intake, shift.gate, number) };
    let Ok(child) = scope.spawn_with(EndOf(number), worker) else {
        return Joined {
            ends: Ends::of(number),
            started: all,
        };
    };
    admit(rt, shift.service, &mut all);
    let mut joined = start_from(scope, rt, shift, number + 1, count, all);
    joined.ends.add(child.join(rt));
    joined
}

/// All workers' work, each in a thread of its own, up to one whose thread the system refuses.
pub(crate) fn run_all<B: Beginning + Send + Sync, G: Gate + Sync, R: Threads + Wait + Sync>(
    rt: &R,
    shift: &Shift<'_, B, G>,
    count: usize,
    all: Share<B>,
) -> Joined<B>
    requires count { count ≡ length B.takers }
    requires few { length B.takers ≤ MAX_TAKERS }
    requires takers { AreTakersOf shift.now.intake.now B.takers }
    requires all { all.parts ≡ B.parts }
    requires part { 0 < all.parts }
    requires started { all.amount ≡ 0 }
    ensures all { result.started.parts ≡ B.parts }
    ensures missing { result.ends.missing ≡ 0 }
    ensures started { result.ends.started ≡ result.started.amount }
{
    thread::scope(
        thread::scope_env(),
        rt,
        move |scope| -> Joined<B>
            requires { (count ≡ length B.takers) × (length B.takers ≤ MAX_TAKERS)
                × AreTakersOf shift.now.intake.now B.takers
                × (all.parts ≡ B.parts) × (0 < all.parts) × (all.amount ≡ 0) }
            ensures { (result.started.parts ≡ B.parts) × (result.ends.missing ≡ 0)
                × (result.ends.started ≡ result.started.amount) }
        { start_from(scope, rt, shift, 0, count, all) },
    )
}
