//! One interleaving of the threads that a step of a scenario names.

ghost use Rattle.std.specs.Prelude.{◌≡◌, ◌&&◌, ◌++◌, OnOk};
ghost use Rattle.scenario_together.specs.Interleaving.{goes_on, is_named, steps_of};

use hunt_walks::walker::Walker;
use model::event::Event;
use model::view::FrameView;
use scenario_run::holding::events_of;
use scenario_run::play::passes;
use scenario_run::playing::Playing;
use scenario_world::going;
use std::alloc::{AllocError, Global};

/// A scenario behind steps of threads of which each is named.
#[derive(Drop)]
pub(crate) struct Interleaving {
    pub(crate) playing: Playing,
    pub(crate) named: [bool; 64],
    /// Whether what goes on alike is taken for one.
    pub(crate) merges: bool,
}

/// Whether a thread goes on: the run hasn't stopped, and it has frames and waits for no lock.
pub(crate) fn goes_on(playing: &Playing, thread: u8) -> bool
    ensures { result ≡ goes_on playing.now thread }
{
    !playing.machine().stopped() && going::goes_on(playing.machine(), thread)
}

/// Whether a thread is named.
pub(crate) fn is_named(named: &[bool; 64], thread: u8) -> bool
    ensures { result ≡ is_named named.now thread }
{
    match named.get(thread as usize) {
        Some(named) => *named,
        None => false,
    }
}

/// Adds a step of each of these threads, in order.
fn add_steps(events: &mut Vec<Event>, threads: &[u8]) -> Result<(), AllocError>
    ensures { OnOk result (events.new.items ≡ events.old.items ++ steps_of threads.now) }
{
    for thread in threads {
        events.push(Event::Step { thread: *thread })?;
    }
    Ok(())
}

impl Walker for Interleaving {
    ghost use Rattle.scenario_together.specs.Interleaving.{LeadIf, fails_with, may_step};
    ghost use Rattle.scenario_together.specs.Standing.{Stands};

    ghost may = { λ home. may_step home.named home.playing };

    ghost fails = { λ home. fails_with home.playing };

    ghost one = { λ home. LeadIf home.merges home.playing };

    ghost stands = { λ home path it. Stands home.named home.merges home.playing path it.named
        it.merges it.playing };

    fn behind(&self, alloc: Global, moves: &[u8]) -> Result<Interleaving, AllocError> {
        let mut events = events_of(alloc, self.playing.past())?;
        add_steps(&mut events, moves)?;
        let playing = self.playing.replayed(alloc, events.as_slice())?;
        Ok(Interleaving {
            playing,
            named: self.named,
            merges: self.merges,
        })
    }

    fn may(&self, number: u8) -> bool {
        is_named(&self.named, number) && goes_on(&self.playing, number)
    }

    fn go(&mut self, number: u8) -> Result<bool, AllocError> {
        let outcome = self.playing.one(Event::Step { thread: number })?;
        let well = passes(false, outcome);
        Ok(well)
    }

    fn is_one(&self, other: &Interleaving) -> bool {
        self.merges && self.playing.is_alike(&other.playing)
    }

    fn add_key(&self, key: &mut Vec<u8>) -> Result<(), AllocError> {
        for thread in 0..self.playing.threads() {
            add_thread(key, &self.playing, thread)?;
        }
        add_number(key, self.playing.count() as u64)
    }
}

/// Adds where a thread stands.
fn add_thread(key: &mut Vec<u8>, playing: &Playing, thread: u8) -> Result<(), AllocError> {
    let Some(view) = playing.machine().thread(thread) else {
        return Ok(());
    };
    add_number(key, view.frames as u64)?;
    let Some(top) = view.top else {
        return Ok(());
    };
    match top {
        FrameView::Routine {
            driver,
            routine,
            position,
            device: _,
        } => {
            key.push(driver)?;
            key.push(routine)?;
            add_number(key, u64::from(position))
        }
        FrameView::Walk(packet) => add_number(key, packet),
        FrameView::Cancel(_) => Ok(()),
    }
}

/// Adds the two lowest bytes of a number.
fn add_number(key: &mut Vec<u8>, number: u64) -> Result<(), AllocError> {
    key.push((number % 256) as u8)?;
    key.push((number / 256 % 256) as u8)?;
    Ok(())
}
