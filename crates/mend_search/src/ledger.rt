//! What a search has tried: edits that lead on, by cost, and those after which a routine has no
//! fault.

ghost use Rattle.std.specs.Prelude.{◌≤◌, length};

use crate::aim::Aim;
use crate::pairs::Made;
use driver_set::DriverSet;
use mend_reading::{Manner, Placed};
use std::alloc::{AllocError, Global};
use std::collections::{BTreeSet, BinaryHeap};

/// Edits of a routine, at most.
pub(crate) const MAX_EDITS: u8 = 4;

/// What an edit costs at least.
pub(crate) const LEAST: u32 = 15;

/// Edits that were tried, and lead on from others.
#[derive(Clone, Copy)]
pub(crate) struct Node {
    pub(crate) parent: Option<usize>,
    pub(crate) edits: u8,
    pub(crate) cost: u32,
    pub(crate) made: Made,
    /// Which of the sets it is of: 0 is the one that is mended.
    pub(crate) set: usize,
    /// Its own changes.
    first: usize,
    count: usize,
}

/// Edits after which a routine has no fault.
#[derive(Clone, Copy)]
pub(crate) struct Solution {
    pub(crate) node: usize,
    pub(crate) cost: u32,
    /// What stands for its code.
    key: u64,
}

/// What was tried.
#[derive(Drop)]
pub(crate) struct Ledger {
    alloc: Global,
    nodes: Vec<Node>,
    changes: Vec<Placed>,
    solutions: Vec<Solution>,
    /// What one costs that will be found.
    bound: u32,
    seen: BTreeSet<u64>,
    /// The nodes that wait: of each the cost and the number, turned round, so that the least comes
    /// first.
    queue: BinaryHeap<u64>,
    /// Sets with edited lines that were made since they were taken.
    pub(crate) made: Vec<DriverSet>,
    /// How many sets with edited lines there are.
    sets: usize,
    /// What is looked for, with the tries and the work that are left.
    aim: Aim,
    /// Whether memory ran out where something was kept or made: nothing more is tried then.
    lacks: bool,
}

impl Ledger {
    /// Begins with no edit.
    pub(crate) fn begin(alloc: Global, aim: Aim) -> Ledger {
        let mut ledger = Ledger::empty(alloc, aim);
        ledger.open();
        ledger
    }

    /// Nothing tried.
    fn empty(alloc: Global, aim: Aim) -> Ledger {
        Ledger {
            alloc,
            nodes: Vec::new(alloc),
            changes: Vec::new(alloc),
            solutions: Vec::new(alloc),
            bound: u32::MAX,
            seen: BTreeSet::new(alloc),
            queue: BinaryHeap::new(alloc),
            made: Vec::new(alloc),
            sets: 0,
            aim,
            lacks: false,
        }
    }

    /// Lets the node wait that has no edit.
    fn open(&mut self) {
        let made = Made {
            manner: Manner::Line,
            new: None,
            old: None,
        };
        let number = self.add(None, made, 0, 0, &[]);
        self.wait(number, 0);
    }

    /// Notes that memory ran out.
    pub(crate) fn note_lack(&mut self) {
        self.lacks = true;
    }

    /// Notes whether something was kept.
    fn note_done(&mut self, is_done: bool) {
        if !is_done {
            self.lacks = true;
        }
    }

    /// What was answered, or false where memory ran out, which is noted.
    pub(crate) fn holds(&mut self, answer: Result<bool, AllocError>) -> bool {
        match answer {
            Ok(holds) => holds,
            Err(AllocError) => {
                self.lacks = true;
                false
            }
        }
    }

    /// Whether nothing is missing of what was kept or made.
    ///
    /// # Errors
    ///
    /// When memory ran out.
    pub(crate) fn finish(&self) -> Result<(), AllocError> {
        if self.lacks {
            return Err(AllocError);
        }
        Ok(())
    }

    /// Whether a try of code of so many instructions is left, which is used.
    pub(crate) fn uses_try(&mut self, length: usize) -> bool {
        let some = self.is_left();
        self.aim.tries = self.aim.tries.saturating_sub(1);
        self.aim.work = self.aim.work.saturating_sub(length as u64);
        some
    }

    /// Whether anything may still be tried.
    fn is_left(&self) -> bool {
        !self.lacks && self.aim.tries > 0 && self.aim.work > 0
    }

    /// Whether so many tries of code of so many instructions are more than are left.
    pub(crate) fn lacks_tries(&self, tries: usize, length: usize) -> bool {
        let work = (tries as u64).saturating_mul(length as u64);
        self.aim.tries < tries as u64 || self.aim.work < work
    }

    /// Whether what costs so much counts.
    pub(crate) fn counts(&self, cost: u32) -> bool {
        let first = match self.solutions.first() {
            Some(first) => first.cost.min(self.bound),
            None => self.bound,
        };
        cost < self.aim.dearest.min(first.saturating_add(self.aim.rivals))
    }

    /// Whether few count behind a solution.
    pub(crate) fn is_narrow(&self) -> bool {
        self.aim.rivals < u32::MAX
    }

    /// Notes that there is a solution which costs so much.
    pub(crate) fn bind(&mut self, cost: u32) {
        self.bound = self.bound.min(cost);
    }

    /// The next node to be looked at, with its number: none where the offers are settled.
    pub(crate) fn next(&mut self) -> Option<(usize, Node)> {
        let key = !self.queue.pop()?;
        let number = (key & 0xffff_ffff) as usize;
        let node = self.nodes.get(number).copied()?;
        let leads_on = self.counts(node.cost.saturating_add(LEAST));
        if !leads_on || self.is_settled(node.cost) || !self.is_left() {
            None
        } else {
            Some((number, node))
        }
    }

    /// Whether no offer is looked for that costs so much.
    fn is_settled(&self, cost: u32) -> bool {
        let far = match self.solutions.first() {
            Some(first) => first.cost.saturating_add(self.aim.window) < cost,
            None => false,
        };
        match self.solutions.get(self.aim.offers.saturating_sub(1)) {
            Some(last) => far || last.cost <= cost,
            None => far,
        }
    }

    /// The node of a number.
    pub(crate) fn node(&self, number: usize) -> Option<Node> {
        self.nodes.get(number).copied()
    }

    /// The number that the next set will have which is kept.
    pub(crate) fn next_set(&self) -> usize {
        self.sets.saturating_add(1)
    }

    /// Keeps a set with edited lines.
    pub(crate) fn keep(&mut self, set: DriverSet) {
        let done = self.made.push(set).is_ok();
        self.note_done(done);
        self.sets = self.sets.saturating_add(1);
    }

    /// Adds a node, and answers its number.
    pub(crate) fn add(
        &mut self,
        parent: Option<usize>,
        made: Made,
        cost: u32,
        set: usize,
        changes: &[Placed],
    ) -> usize {
        let edits = self.edits_behind(parent);
        let number = self.nodes.len();
        let first = self.changes.len();
        let node = Node {
            parent,
            edits,
            cost,
            made,
            set,
            first,
            count: changes.len(),
        };
        let are_kept = self.changes.extend_from_slice(changes).is_ok();
        self.note_done(are_kept);
        let is_kept = self.nodes.push(node).is_ok();
        self.note_done(is_kept);
        number
    }

    /// How many edits there are behind a node.
    fn edits_behind(&self, parent: Option<usize>) -> u8 {
        let Some(number) = parent else {
            return 0;
        };
        match self.nodes.get(number) {
            Some(node) => node.edits.saturating_add(1),
            None => 0,
        }
    }

    /// Lets a node wait.
    pub(crate) fn wait(&mut self, number: usize, cost: u32) {
        let key = u64::from(cost) << 32 | (number as u64 & 0xffff_ffff);
        let done = self.queue.push(!key).is_ok();
        self.note_done(done);
    }

    /// Notes code, and answers whether it is new.
    pub(crate) fn note(&mut self, key: u64) -> bool {
        match self.seen.insert(key) {
            Ok(is_new) => is_new,
            Err(_) => {
                self.lacks = true;
                false
            }
        }
    }

    /// Whether code is known as a solution of a greater cost, which it is no more.
    pub(crate) fn drops_dearer(&mut self, key: u64, cost: u32) -> bool {
        for (place, solution) in self.solutions.iter().enumerate() {
            if solution.key == key && solution.cost > cost {
                let _dearer = self.solutions.remove(place);
                return true;
            }
        }
        false
    }

    /// Adds a solution behind those that cost no more.
    pub(crate) fn solve(&mut self, node: usize, cost: u32, key: u64) {
        let place = place_behind(self.solutions.as_slice(), cost);
        let solution = Solution { node, cost, key };
        let done = self.solutions.insert(place, solution).is_ok();
        self.note_done(done);
    }

    /// The solutions, the best first.
    pub(crate) fn solutions(&self) -> &[Solution] {
        self.solutions.as_slice()
    }

    /// The nodes on the way to a node, from the first.
    pub(crate) fn path(&self, number: usize) -> Result<Vec<Node>, AllocError> {
        let mut path = Vec::new(self.alloc);
        let mut next = Some(number);
        for _ in 0..=MAX_EDITS {
            let Some(number) = next else {
                break;
            };
            let Some(node) = self.nodes.get(number) else {
                break;
            };
            path.push(*node)?;
            next = node.parent;
        }
        path.reverse();
        Ok(path)
    }

    /// The changes of a node.
    pub(crate) fn changes_of(&self, node: &Node) -> &[Placed] {
        let end = node.first.saturating_add(node.count);
        self.changes.get(node.first..end).unwrap_or_default()
    }
}

/// The place behind the solutions that cost no more.
fn place_behind(solutions: &[Solution], cost: u32) -> usize
    ensures { result ≤ length solutions.now }
{
    for (place, solution) in solutions.iter().enumerate() {
        if solution.cost > cost {
            return place;
        }
    }
    solutions.len()
}
