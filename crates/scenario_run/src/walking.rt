//! Steps that a thread makes one after another, on a machine with the ledger of its run.

ghost use Rattle.std.specs.Prelude.{◌≡◌, ◌≤◌, ◌+◌, ◌<◌, ◌^◌};
ghost use Rattle.scenario_run.specs.Going.{Strides};
ghost use Rattle.scenario_run.specs.Walking.{WalksOn, is_stepped, steps_in};

use crate::runner::Runner;
use model::event::{Event, Reply};
use scenario_world::until::{Until, may_step, place_of, wakes};

/// Steps that aren't tried as such of the routine by itself, behind one that wasn't.
const PAUSE: u8 = 7;

/// Steps that a thread made, one after another.
#[derive(Clone, Copy)]
pub struct Walked {
    /// How many of them only stepped.
    pub made: usize,
    /// What the one behind these replied, if one was made: something else.
    pub last: Option<Reply>,
}

impl Walked {
    /// How many steps that are.
    pub(crate) fn count(&self) -> usize
        requires { self.now.made + 1 < 2 ^ 64 }
        ensures { result ≡ steps_in self.now }
    {
        match self.last {
            Some(_) => self.made + 1,
            None => self.made,
        }
    }
}

/// Lets a thread make steps while it has frames and each only steps, and the one behind these, at
/// most so many, and up to where they are to end.
pub(crate) fn walk(runner: &mut Runner, thread: u8, most: usize, until: Until) -> Walked
    ensures few { steps_in result ≤ most }
    ensures walks { WalksOn until thread runner.old result runner.new }
{
    let mut made = 0;
    let mut pause = 0;
    while made < most {
        let alone = stride(runner, thread, most - made, pause, until);
        pause = pause_behind(pause, alone);
        made += alone;
        if made == most || !may_step(&runner.machine, thread, until) {
            return Walked { made, last: None };
        }
        let reply = runner.apply(&Event::Step { thread });
        if !is_stepped(&reply) || wakes(&runner.machine, thread, until) {
            let last = Some(reply);
            return Walked { made, last };
        }
        made += 1;
    }
    Walked { made, last: None }
}

/// Lets the routine of a thread go on by itself, if that is tried: at most so many steps, how many.
fn stride(runner: &mut Runner, thread: u8, most: usize, pause: u8, until: Until) -> usize
    ensures few { result ≤ most }
    ensures goes { Strides until thread runner.old.machine result runner.new.machine }
    ensures ledger { runner.new.ledger ≡ runner.old.ledger }
    ensures keeping { runner.new.keeping ≡ runner.old.keeping }
{
    if pause > 0 || wakes(&runner.machine, thread, until) {
        return 0;
    }
    match until {
        Until::At(spot) => match place_of(spot) {
            Some(place) => runner.machine.go_up_to(thread, most, place),
            None => 0,
        },
        _ => runner.machine.go_on(thread, most),
    }
}

/// For how many steps more it isn't tried, where the routine has made so many by itself.
fn pause_behind(pause: u8, alone: usize) -> u8 {
    if pause > 0 {
        return pause - 1;
    }
    if alone > 0 { 0 } else { PAUSE }
}

/// Whether a reply tells that the thread stepped.
fn is_stepped(reply: &Reply) -> bool
    ensures { result ≡ is_stepped reply.now }
{
    matches!(reply, Reply::Stepped)
}
