//! The steps of a scenario, one after another, from every end of interleavings.

ghost use Rattle.std.specs.Prelude.{◌≡◌, ◌∷◌, [], Bool, IfOk, IfSome, IsTrue, List, None, Some};
ghost use Rattle.std.specs.Prelude.{false, option_map};
ghost use Rattle.model.specs.Typable.{IsTypable};
ghost use Rattle.scenario_steps.specs.declared.scenario.Step.{Step};
ghost use Rattle.scenario_together.specs.Joining.{ActedAll, IsFirstOr, JoinedAll, JoinedOne};
ghost use Rattle.scenario_together.specs.Joining.{Leaves, LeavesAll, MayMerge, ThereIf};
ghost use Rattle.scenario_steps.specs.Steps.{together_of};
ghost use Rattle.scenario_together.specs.Plays.{ArePlain, Plays, PlaysPlainly, worlds_of};

use crate::interleaving::is_named;
use crate::together::{MOVES, Together, run_together};
use checked::same_worlds_go_on_alike;
use driver_set::DriverSet;
use scenario_run::holding::events_of;
use scenario_run::play::{act, passes, play as play_each};
use scenario_run::playing::Playing;
use scenario_steps::scenario::{Action, Step};
use scenario_steps::steps::{Kind, Steps};
use std::alloc::{AllocError, Global};
use tell_uses::laws::accepted_runs_show_no_disagreement;
use verifier::verify;

/// A step that fails.
#[derive(Clone, Copy)]
pub struct Failure {
    pub step: Step,
    /// Whether it fails since there are more interleavings there than worlds may be.
    pub more: bool,
}

/// How a scenario has played: to an end, or to the first step that fails in some interleaving.
#[derive(Drop)]
pub struct Played {
    pub now: Playing,
    pub failed: Option<Failure>,
}

/// What comes of threads that run together from several plays.
#[derive(Drop)]
pub(crate) enum Joined {
    /// The ends of all.
    Ends(Vec<Playing>),
    /// A step of an interleaving fails, or a thread isn't there.
    Fails(Playing),
    /// From this one there are more interleavings than worlds may be.
    More(Playing),
}

/// The threads that a step runs together, and how many worlds they may meet.
#[derive(Clone, Copy)]
struct Crew {
    threads: [bool; 64],
    worlds: u64,
}

/// Those of a step, if it runs any.
fn crew_of(action: &Action) -> Option<Crew>
    ensures threads { together_of action.now ≡ option_map (λ crew. crew.threads) result }
    ensures worlds { IfSome result (λ crew. crew.worlds ≡ worlds_of action.now) }
{
    match *action {
        Action::Together { threads, worlds } => Some(Crew { threads, worlds }),
        _ => None,
    }
}

/// Whether the set is accepted.
fn is_accepted(alloc: Global, set: &DriverSet) -> Result<bool, AllocError>
    ensures { IfOk result (λ yes. IsTrue yes → IsTypable set.now) }
{
    let Ok(copy) = set.copy(alloc) else {
        return Err(AllocError);
    };
    let verdict = verify(alloc, copy);
    Ok(verdict.is_ok())
}

/// The same play once more.
fn again(alloc: Global, playing: &Playing) -> Result<Playing, AllocError>
    ensures { IfOk result (λ same. same ≡ playing.now) }
{
    let events = events_of(alloc, playing.past())?;
    playing.replayed(alloc, events.as_slice())
}

/// Whether all threads that are named are there.
fn are_there(named: &[bool; 64], playing: &Playing) -> bool
    ensures { ThereIf result named.now playing.now }
{
    for thread in playing.threads()..MOVES {
        if is_named(named, thread) {
            return false;
        }
    }
    true
}

/// Each play does what a step does, up to the first in which that fails.
fn act_all(
    alloc: Global,
    plays: &mut Vec<Playing>,
    step: &Step,
) -> Result<Option<usize>, AllocError>
    ensures { IfOk result (ActedAll step.now plays.old.items plays.new.items) }
{
    for place in 0..plays.len() {
        let outcome = act(alloc, &mut plays[place], &step.action)?;
        if !passes(step.may, outcome) {
            return Ok(Some(place));
        }
    }
    Ok(None)
}

/// Threads run together from each play, up to the first in which that fails.
#[tactic(auto, using(crate::proofs::Joining::joined_none))]
fn join_all(
    alloc: Global,
    plays: &[Playing],
    crew: Crew,
    merges: bool,
) -> Result<Joined, AllocError>
    ensures { IfOk result (λ joined. (step : Step)
        → JoinedAll merges crew.threads crew.worlds step plays.now joined) }
{
    let mut all = Vec::new(alloc);
    for playing in plays {
        let joined = join_one(alloc, playing, crew, merges)?;
        match joined {
            Joined::Ends(mut ends) => all.append(&mut ends)?,
            Joined::Fails(now) => return Ok(Joined::Fails(now)),
            Joined::More(now) => return Ok(Joined::More(now)),
        }
    }
    Ok(Joined::Ends(all))
}

/// Threads run together from one play.
#[tactic(auto, using(crate::proofs::Joining::joined_ends, crate::proofs::Joining::joined_beyond))]
fn join_one(
    alloc: Global,
    playing: &Playing,
    crew: Crew,
    merges: bool,
) -> Result<Joined, AllocError>
    ensures { IfOk result (JoinedOne merges crew.threads crew.worlds playing.now) }
{
    let home = again(alloc, playing)?;
    if !are_there(&crew.threads, playing) {
        return Ok(Joined::Fails(home));
    }
    let joined = run_together(alloc, home, crew.threads, crew.worlds as usize, merges)?;
    match joined {
        Together::Ends(ends) => Ok(Joined::Ends(ends)),
        Together::Fails(now) => Ok(Joined::Fails(now)),
        Together::More => Ok(Joined::More(again(alloc, playing)?)),
    }
}

/// A step of each play: they go on, or it fails in one of them, and the scenario is over.
fn step_all(
    alloc: Global,
    plays: &mut Vec<Playing>,
    step: &Step,
    merges: bool,
) -> Result<Option<Played>, AllocError>
    ensures { IfOk result (Leaves merges step.now plays.old.items plays.new.items) }
{
    match crew_of(&step.action) {
        Some(crew) => {
            let joined = join_all(alloc, plays.as_slice(), crew, merges)?;
            Ok(leave(plays, joined, step))
        }
        None => act_alone(alloc, plays, step),
    }
}

/// A step of each play by itself.
fn act_alone(
    alloc: Global,
    plays: &mut Vec<Playing>,
    step: &Step,
) -> Result<Option<Played>, AllocError>
    requires { together_of step.now.action ≡ None }
    ensures { IfOk result (λ over. (merges : Bool)
        → Leaves merges step.now plays.old.items plays.new.items over) }
{
    match act_all(alloc, plays, step)? {
        Some(place) => Ok(Some(ended(plays.swap_remove(place), step, false))),
        None => Ok(None),
    }
}

/// What threads that run together leave of plays.
fn leave(plays: &mut Vec<Playing>, joined: Joined, step: &Step) -> Option<Played>
    ensures { (merges : Bool) (named : List Bool) → together_of step.now.action ≡ Some named
        → JoinedAll merges named (worlds_of step.now.action) step.now plays.old.items joined
        → Leaves merges step.now plays.old.items plays.new.items result }
{
    match joined {
        Joined::Ends(ends) => {
            *plays = ends;
            None
        }
        Joined::Fails(now) => Some(ended(now, step, false)),
        Joined::More(now) => Some(ended(now, step, true)),
    }
}

/// A scenario that has come to a step that fails.
fn ended(now: Playing, step: &Step, more: bool) -> Played
    ensures { result
        ≡ record { now = now; failed = Some (record { step = step.now; more = more }) } }
{
    let failed = Some(Failure { step: *step, more });
    Played { now, failed }
}

/// The first of some plays, or another one where there is none.
fn first_or(mut plays: Vec<Playing>, other: Playing) -> Playing
    ensures { IsFirstOr plays.items result }
{
    if plays.is_empty() {
        return other;
    }
    plays.swap_remove(0)
}

/// A play alone, once more.
fn alone(alloc: Global, home: &Playing) -> Result<Vec<Playing>, AllocError>
    ensures { IfOk result (λ plays. plays.items ≡ home.now ∷ []) }
{
    let mut plays = Vec::new(alloc);
    plays.push(again(alloc, home)?)?;
    Ok(plays)
}

/// Plays the steps from the first one on.
fn play_on(alloc: Global, home: Playing, steps: &Steps, merges: bool) -> Result<Played, AllocError>
    requires { MayMerge merges steps.now home }
    ensures { IfOk result (Plays home steps.now) }
{
    let mut plays = alone(alloc, &home)?;
    let over = step_each(alloc, &home, &mut plays, steps, merges)?;
    Ok(played_by(over, plays, home))
}

/// Each step of plays of which so far there is but one, up to the first that fails in one of them.
fn step_each(
    alloc: Global,
    home: &Playing,
    plays: &mut Vec<Playing>,
    steps: &Steps,
    merges: bool,
) -> Result<Option<Played>, AllocError>
    requires alone { plays.old.items ≡ home.now ∷ [] }
    requires merges { MayMerge merges steps.now home.now }
    ensures { IfOk result (LeavesAll merges steps.now home.now plays.new.items) }
{
    same_worlds_go_on_alike();
    accepted_runs_show_no_disagreement();
    let _devices = home.machine().set().devices();
    for place in 0..steps.len() {
        let over = step_all(alloc, plays, &steps.at(place), merges)?;
        if over.is_some() {
            return Ok(over);
        }
    }
    Ok(None)
}

/// How a scenario has played that began with one play: it is over, or these plays are left.
fn played_by(over: Option<Played>, plays: Vec<Playing>, home: Playing) -> Played
    ensures { (merges : Bool) (steps : List Step)
        → LeavesAll merges steps home plays.items over → Plays home steps result }
{
    match over {
        Some(played) => played,
        None => {
            let now = first_or(plays, home);
            Played { now, failed: None }
        }
    }
}

/// Plays the steps of a scenario, each in what every interleaving before it has led to, up to the
/// first that fails.
///
/// Ends of interleavings that lead to one world are taken for one. What an audit finds may be
/// different there if the set isn't accepted: where that is asked for, none are taken for another.
///
/// # Errors
///
/// When memory runs out.
pub fn play(alloc: Global, playing: Playing, steps: &Steps) -> Result<Played, AllocError>
    ensures plays { IfOk result (Plays playing steps.now) }
    ensures plain { IfOk result (PlaysPlainly playing steps.now) }
{
    if steps.has(Kind::Together) {
        return play_all(alloc, playing, steps);
    }
    play_plainly(alloc, playing, steps)
}

/// Plays the steps of a scenario, none of which runs threads together.
fn play_plainly(alloc: Global, mut playing: Playing, steps: &Steps) -> Result<Played, AllocError>
    requires { ArePlain steps.now }
    ensures { IfOk result (Plays playing steps.now) }
{
    let failed = play_each(alloc, &mut playing, steps)?;
    Ok(Played {
        now: playing,
        failed: failure_at(failed),
    })
}

/// The failure of the step that fails, if one does, not for want of worlds.
fn failure_at(failed: Option<Step>) -> Option<Failure>
    ensures { result ≡ option_map (λ step. record { step = step; more = false }) failed }
{
    match failed {
        Some(step) => Some(Failure { step, more: false }),
        None => None,
    }
}

/// The same where a step may run threads together.
fn play_all(alloc: Global, playing: Playing, steps: &Steps) -> Result<Played, AllocError>
    ensures { IfOk result (Plays playing steps.now) }
{
    let audits = steps.has(Kind::Audit);
    let home = readied(playing, audits)?;
    let merges = may_merge(alloc, &home, audits)?;
    play_on(alloc, home, steps, merges)
}

/// The same play, with what an audit needs.
fn readied(mut playing: Playing, audits: bool) -> Result<Playing, AllocError>
    ensures { IfOk result (λ same. same ≡ playing) }
{
    if audits {
        playing.keep_ledger()?;
    }
    Ok(playing)
}

/// Whether plays that lead to one world may be taken for one: no audit is asked for, or the set is
/// accepted.
fn may_merge(alloc: Global, playing: &Playing, audits: bool) -> Result<bool, AllocError>
    ensures { IfOk result (λ yes. IsTrue yes → IsTrue audits → IsTypable playing.now.set) }
{
    if !audits {
        return Ok(true);
    }
    is_accepted(alloc, playing.machine().set())
}
