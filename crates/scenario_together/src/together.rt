//! Threads that run in every interleaving, up to where each is idle or waits.

ghost use Rattle.std.specs.Prelude.{◌≡◌, ◌≤◌, ◌++◌, IfOk, OnOk, length};
ghost use Rattle.model.specs.Sound.{IsSound};
ghost use Rattle.scenario_run.specs.Playing.{happened};
ghost use Rattle.scenario_together.specs.Ends.{end_of, ends_of};
ghost use Rattle.scenario_together.specs.Interleaving.{behind, fails_with, may_step};
ghost use Rattle.scenario_together.specs.Together.{AreKept, IsFailing, IsTogether};
ghost use Rattle.hunt_walks.specs.Walks.{FailsBehind};

use crate::interleaving::Interleaving;
use checked::same_worlds_go_on_alike;
use hunt_walks::ends::at_end;
use hunt_walks::search::{Failed, Walked, walk};
use hunt_walks::walker::Walker;
use model::event::Event;
use model::items::Items;
use scenario_run::playing::Playing;
use std::alloc::{AllocError, Global};

/// Threads that a step may name: those below this number.
pub(crate) const MOVES: u8 = 64;

/// What threads come to together.
#[derive(Drop)]
pub enum Together {
    /// The ends of all interleavings, one for each world to which they lead.
    Ends(Vec<Playing>),
    /// A step of an interleaving fails: behind it.
    Fails(Playing),
    /// There are more interleavings than worlds were wanted.
    More,
}

/// Adds the scenario behind an interleaving, if that has come to its end.
fn add_end(
    alloc: Global,
    home: &Interleaving,
    plays: &mut Vec<Playing>,
    path: &[u8],
) -> Result<(), AllocError>
    ensures { OnOk result (plays.new.items
        ≡ plays.old.items ++ end_of home.now.named home.now.playing path.now) }
{
    let there = at_end(alloc, home, path, MOVES)?;
    match there {
        Some(place) => {
            plays.push(place.playing)?;
            Ok(())
        }
        None => Ok(()),
    }
}

/// The ends of interleavings.
fn ends_of(
    alloc: Global,
    home: &Interleaving,
    paths: &[Items<u8>],
) -> Result<Vec<Playing>, AllocError>
    ensures { IfOk result (λ plays. plays.items
        ≡ ends_of home.now.named home.now.playing paths.now) }
{
    let mut plays = Vec::new(alloc);
    for path in paths {
        add_end(alloc, home, &mut plays, path.as_slice())?;
    }
    Ok(plays)
}

/// The scenario behind a step of an interleaving that fails.
fn failing(alloc: Global, home: &Interleaving, failed: &Failed) -> Result<Playing, AllocError>
    requires { FailsBehind (may_step home.now.named home.now.playing)
        (fails_with home.now.playing) failed.now.path.items failed.now.number }
    ensures { IfOk result (IsFailing home.now.named home.now.playing) }
{
    let mut there = home.behind(alloc, failed.path.as_slice())?;
    let _outcome = there.playing.one(Event::Step {
        thread: failed.number,
    })?;
    Ok(there.playing)
}

/// Runs these of the threads of a scenario in every interleaving, up to where each is idle or
/// waits. Interleavings that go on alike are taken for one where that is asked for. So many are
/// left at most: where more are, there are more interleavings.
///
/// # Errors
///
/// When memory runs out.
pub fn run_together(
    alloc: Global,
    playing: Playing,
    named: [bool; 64],
    worlds: usize,
    merges: bool,
) -> Result<Together, AllocError>
    ensures { IfOk result (IsTogether merges named worlds playing) }
{
    let home = Interleaving {
        playing,
        named,
        merges,
    };
    run_from(alloc, &home, worlds)
}

/// The same from where one stands.
fn run_from(alloc: Global, home: &Interleaving, worlds: usize) -> Result<Together, AllocError>
    ensures { IfOk result (IsTogether home.now.merges home.now.named worlds home.now.playing) }
{
    let walked = walk(alloc, home, MOVES, worlds)?;
    match walked {
        Walked::All(paths) => all_ends(alloc, home, worlds, paths.as_slice()),
        Walked::Fails(failed) => {
            let there = failing(alloc, home, &failed)?;
            Ok(Together::Fails(there))
        }
        Walked::More => Ok(Together::More),
    }
}

/// The ends of those that are kept, where these meet all and are no more than the worlds.
fn all_ends(
    alloc: Global,
    home: &Interleaving,
    worlds: usize,
    paths: &[Items<u8>],
) -> Result<Together, AllocError>
    requires kept { AreKept home.now.merges home.now.named home.now.playing paths.now }
    requires few { length paths.now ≤ worlds }
    ensures { IfOk result (IsTogether home.now.merges home.now.named worlds home.now.playing) }
{
    same_worlds_go_on_alike();
    let _devices = home.playing.machine().set().devices();
    let plays = ends_of(alloc, home, paths)?;
    Ok(Together::Ends(plays))
}
