//! The worlds that were seen, each by its key, and how each was reached.

use crate::graph::{Graph, Stand};
use crate::plan::Plan;
use hunt_facts::bounds::Goal;
use hunt_facts::keys::write_key;
use hunt_facts::uses::add_uses;
use hunt_facts::writer::Writer;
use indexmap::IndexSet;
use model::event::Event;
use std::alloc::{AllocError, Global};
use tell_audit::rehearsal::Rehearsal;

/// How a world was reached: by which event from which other one, and after how many events from the
/// first one.
#[derive(Clone, Copy)]
struct Reached {
    from: usize,
    event: Event,
    depth: usize,
}

/// The worlds that were seen, numbered in that order.
#[derive(Drop)]
pub(crate) struct Worlds {
    alloc: Global,
    writer: Writer,
    keys: IndexSet<Vec<u8>>,
    /// By the number of a world.
    ways: Vec<Reached>,
    /// How they lead to one another, where this is asked for.
    graph: Option<Graph>,
}

impl Worlds {
    /// None.
    pub(crate) fn new(alloc: Global, goal: Goal) -> Worlds {
        Worlds {
            alloc,
            writer: Writer::new(alloc),
            keys: IndexSet::new(alloc),
            ways: Vec::new(alloc),
            graph: match goal {
                Goal::Amiss => None,
                Goal::AmissOrStuck => Some(Graph::new(alloc)),
            },
        }
    }

    /// How many there are.
    pub(crate) fn len(&self) -> usize {
        self.ways.len()
    }

    /// How many events led to a world.
    pub(crate) fn depth(&self, number: usize) -> usize {
        match self.ways.get(number) {
            Some(way) => way.depth,
            None => 0,
        }
    }

    /// Adds the world to which a run has come, from another one by an event, unless it was seen.
    pub(crate) fn add(
        &mut self,
        run: &Rehearsal,
        plan: &Plan,
        from: usize,
        event: Event,
    ) -> Result<(), AllocError> {
        let number = self.number_of(run, plan)?;
        if number >= self.ways.len() {
            let depth = self.depth(from).saturating_add(1);
            self.ways.push(Reached { from, event, depth })?;
            self.note_world(Stand::of(run.machine()))?;
        }
        match &mut self.graph {
            Some(graph) => graph.add_way(from, number),
            None => Ok(()),
        }
    }

    /// The number of the world to which a run has come, whose key is added unless it was seen.
    fn number_of(&mut self, run: &Rehearsal, plan: &Plan) -> Result<usize, AllocError> {
        write_key(&mut self.writer, run.machine(), plan.facts())?;
        if plan.may_disagree() {
            add_uses(&mut self.writer, run.machine(), run.ledger())?;
        }
        let key = self.writer.bytes();
        if let Some(number) = self.keys.get_index_of(key) {
            return Ok(number);
        }
        let (number, _is_new) = self.keys.insert_full(Vec::from_slice(self.alloc, key)?)?;
        Ok(number)
    }

    /// Notes how a new world stands.
    fn note_world(&mut self, stand: Stand) -> Result<(), AllocError> {
        match &mut self.graph {
            Some(graph) => graph.add_world(stand),
            None => Ok(()),
        }
    }

    /// Adds the first world, that of a run before the first event.
    pub(crate) fn begin(&mut self, run: &Rehearsal, plan: &Plan) -> Result<(), AllocError> {
        let _first = self.number_of(run, plan)?;
        self.ways.push(Reached {
            from: 0,
            event: Event::Interrupt { device: 0 },
            depth: 0,
        })?;
        self.note_world(Stand::of(run.machine()))
    }

    /// The first world from which none comes to rest.
    pub(crate) fn first_stuck(&self, alloc: Global) -> Result<Option<usize>, AllocError> {
        match &self.graph {
            Some(graph) => graph.first_stuck(alloc),
            None => Ok(None),
        }
    }

    /// The events that led to a world from the first one.
    pub(crate) fn path(&self, alloc: Global, number: usize) -> Result<Vec<Event>, AllocError> {
        let mut events = Vec::new(alloc);
        let mut at = number;
        for _event in 0..self.depth(number) {
            if let Some(way) = self.ways.get(at) {
                events.push(way.event)?;
                at = way.from;
            }
        }
        events.reverse();
        Ok(events)
    }
}
