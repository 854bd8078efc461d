//! Runs of accepted sets.

ghost use Rattle.std.specs.Prelude.{◌≡◌, ◌≤◌, IfOk, IfErr};
ghost use Rattle.model.specs.declared.limits.TheConstants.{MAX_THREADS};
ghost use Rattle.model.specs.Machine.{Shows};
ghost use Rattle.laws_runs.specs.Rules.{KeepsTheRules};
ghost use Rattle.laws_runs.specs.Rest.{ComesToRest};

use machine::World;
use model::event::Event;
use model::memory::OutOfMemory;
use std::alloc::Global;
use verifier::Accepted;

/// The world after these events, on so many threads, 1 to 64. The set comes back where memory is
/// refused.
pub fn run(
    alloc: Global,
    accepted: Accepted,
    threads: u8,
    events: &[Event],
) -> Result<World, (Accepted, OutOfMemory)>
    requires some { 1 ≤ threads }
    requires few { threads ≤ MAX_THREADS }
    ensures set { IfOk result (λ world. world.set ≡ accepted) }
    ensures shows { IfOk result (λ world. Shows world threads events.now) }
    ensures rules { IfOk result (λ world. KeepsTheRules accepted threads events.now) }
    ensures rests { IfOk result (λ world. ComesToRest accepted threads events.now) }
    ensures back { IfErr result (λ refused. refused.0 ≡ accepted) }
{
    let mut world = match World::new(alloc, accepted, threads) {
        Ok(world) => world,
        Err(refused) => return Err(refused),
    };
    for event in events {
        let _reply = world.apply(event);
    }
    Ok(world)
}
