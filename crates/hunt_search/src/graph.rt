//! How worlds lead to one another, and from which of them no run comes to rest.

use crate::moves::{first_busy, live_packets};
use checked::Checked;
use std::alloc::{AllocError, Global};

/// How a world stands.
#[derive(Clone, Copy, PartialEq, Eq)]
pub(crate) enum Stand {
    /// At rest: all threads are idle, and no packet is live.
    Rests,
    /// All threads are idle, and some packet is live.
    Waits,
    /// Some thread isn't idle.
    Runs,
}

impl Stand {
    /// How the world of a machine stands.
    pub(crate) fn of(machine: &Checked) -> Stand {
        if first_busy(machine).is_some() {
            return Stand::Runs;
        }
        if live_packets(machine) == 0 {
            Stand::Rests
        } else {
            Stand::Waits
        }
    }
}

/// A way into a world: from which one, and the number of another way into it that was noted before.
#[derive(Clone, Copy)]
struct Way {
    from: usize,
    before: Option<usize>,
}

/// The ways from worlds to others.
#[derive(Drop)]
pub(crate) struct Graph {
    /// By world, how it stands.
    stands: Vec<Stand>,
    /// By world, the number of the last way into it.
    last: Vec<Option<usize>>,
    ways: Vec<Way>,
}

impl Graph {
    /// No worlds.
    pub(crate) fn new(alloc: Global) -> Graph {
        Graph {
            stands: Vec::new(alloc),
            last: Vec::new(alloc),
            ways: Vec::new(alloc),
        }
    }

    /// Adds the next world.
    pub(crate) fn add_world(&mut self, stand: Stand) -> Result<(), AllocError> {
        self.stands.push(stand)?;
        self.last.push(None)?;
        Ok(())
    }

    /// Adds a way from a world to another one.
    pub(crate) fn add_way(&mut self, from: usize, to: usize) -> Result<(), AllocError> {
        let number = self.ways.len();
        let Some(last) = self.last.get_mut(to) else {
            return Ok(());
        };
        let before = *last;
        *last = Some(number);
        self.ways.push(Way { from, before })?;
        Ok(())
    }

    /// The first world from which none that is at rest is reached: one in which all threads are
    /// idle, if there is one.
    pub(crate) fn first_stuck(&self, alloc: Global) -> Result<Option<usize>, AllocError> {
        let comes = self.come_to_rest(alloc)?;
        match self.first_that(&comes, Stand::Waits) {
            Some(number) => Ok(Some(number)),
            None => Ok(self.first_that(&comes, Stand::Runs)),
        }
    }

    /// The first world that stands so, and doesn't come to rest.
    fn first_that(&self, comes: &Vec<bool>, stand: Stand) -> Option<usize> {
        for number in 0..self.stands.len() {
            let stuck = comes.get(number).copied() == Some(false);
            if stuck && self.stands.get(number).copied() == Some(stand) {
                return Some(number);
            }
        }
        None
    }

    /// By world, whether one that is at rest is reached from it.
    fn come_to_rest(&self, alloc: Global) -> Result<Vec<bool>, AllocError> {
        let mut comes = vec![in alloc; false; self.stands.len()]?;
        let mut reached = Vec::new(alloc);
        for number in 0..self.stands.len() {
            if self.stands.get(number).copied() == Some(Stand::Rests) {
                reach(&mut comes, &mut reached, number)?;
            }
        }
        for _world in 0..self.stands.len() {
            let Some(number) = reached.pop() else {
                break;
            };
            self.go_back(&mut comes, &mut reached, number)?;
        }
        Ok(comes)
    }

    /// Goes back from a world by each way into it.
    fn go_back(
        &self,
        comes: &mut Vec<bool>,
        reached: &mut Vec<usize>,
        number: usize,
    ) -> Result<(), AllocError> {
        let mut at = self.last_way(number);
        for _way in 0..self.ways.len() {
            let Some(way) = at else {
                break;
            };
            reach(comes, reached, way.from)?;
            at = self.way_before(way);
        }
        Ok(())
    }

    /// The last way into a world.
    fn last_way(&self, number: usize) -> Option<Way> {
        let last = self.last.get(number).copied()?;
        self.ways.get(last?).copied()
    }

    /// The way into the same world that was noted before one.
    fn way_before(&self, way: Way) -> Option<Way> {
        self.ways.get(way.before?).copied()
    }
}

/// Notes that a world comes to rest, unless that is known.
fn reach(comes: &mut Vec<bool>, reached: &mut Vec<usize>, number: usize) -> Result<(), AllocError> {
    if let Some(known) = comes.get_mut(number) {
        if !*known {
            *known = true;
            reached.push(number)?;
        }
    }
    Ok(())
}
