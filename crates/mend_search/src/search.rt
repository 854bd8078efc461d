//! The search: best first by cost, ties by the order in which candidates were made.

use crate::aim::Aim;
use crate::draft::{Draft, changes_at, first_changed, followed};
use crate::ledger::{LEAST, Ledger, MAX_EDITS, Node};
use crate::pairs::{Made, rebate};
use crate::task::Task;
use absstate::Rule;
use driver_set::{DriverSet, Instr, Items};
use mend_candidates::{Gathered, Scene};
use mend_changes::{Edit, edited};
use mend_groups::add_all;
use mend_reading::form::form_of;
use mend_reading::usual::{empties, mismatches};
use mend_reading::{Candidate, Candidates, Fault, Manner, Placed, Reading, Subject};
use std::alloc::{AllocError, Global};
use verifier::check_routine;

/// Solutions that are told, at most.
const MAX_FOUND: usize = 6;

/// How many of the cheapest edits are tried, at most, for what bounds the others.
const PROBES: usize = 32;

/// What an edit costs less, at most, for what becomes usual.
const MOST_LESS: u32 = 30;

/// What it costs more behind others, none of which it completes.
const ALONE: u32 = 30;

/// Edits that may be offered, and what they cost.
#[derive(Drop)]
pub struct Found {
    pub edits: Items<Edit>,
    pub cost: u32,
}

/// The set that is mended, and those with edited lines.
#[derive(Drop)]
struct Sets<'a> {
    base: &'a DriverSet,
    edited: Vec<DriverSet>,
}

/// What is used again from candidate to candidate.
#[derive(Drop)]
struct Bench {
    draft: Draft,
    child: Draft,
    reading: Reading,
    next: Reading,
    list: Gathered,
}

impl Bench {
    /// Nothing yet.
    fn new(alloc: Global) -> Bench {
        Bench {
            draft: Draft::new(alloc),
            child: Draft::new(alloc),
            reading: Reading::new(alloc),
            next: Reading::new(alloc),
            list: Gathered::new(alloc),
        }
    }

    /// A candidate, with the code that was made of it last.
    fn tried(&self, candidate: Candidate) -> Tried<'_> {
        let changes = self.list.candidates.changes_of(&candidate);
        Tried {
            candidate,
            changes,
            code: self.child.code.as_slice(),
        }
    }
}

/// What stands at a node that is looked at, before its candidates are tried.
#[derive(Clone, Copy)]
struct Here<'a> {
    number: usize,
    node: Node,
    /// The nodes on the way to it.
    path: &'a [Node],
    fault: Fault,
    strangeness: u32,
    mismatches: u32,
    empties: u32,
}

/// A candidate, its changes, and the code that they make, or that is there where they make none.
#[derive(Clone, Copy)]
struct Tried<'a> {
    candidate: Candidate,
    changes: &'a [Placed],
    code: &'a [Instr],
}

/// Mends of a routine of a set, by number, the best first, as far as they are looked for. Routines
/// before it may have faults behind edits of lines.
///
/// # Errors
///
/// When memory runs out.
pub fn find_mends(
    alloc: Global,
    set: &DriverSet,
    driver: u8,
    routine: u8,
    aim: Aim,
) -> Result<Vec<Found>, AllocError> {
    match Task::of(alloc, set, driver, routine)? {
        Some(task) if task.cut.jumps <= aim.jumps => mends_of(&task, set, aim),
        _ => Ok(Vec::new(alloc)),
    }
}

/// The mends of a task, the best first.
fn mends_of(task: &Task, set: &DriverSet, aim: Aim) -> Result<Vec<Found>, AllocError> {
    let mut ledger = Ledger::begin(task.alloc, aim);
    search(task, set, &mut ledger, aim.tries)?;
    found_edits(task, &ledger)
}

/// Looks at the nodes of a ledger in their order, at most so many.
fn search(task: &Task, set: &DriverSet, ledger: &mut Ledger, tries: u64) -> Result<(), AllocError> {
    let mut sets = Sets {
        base: set,
        edited: Vec::new(task.alloc),
    };
    let mut bench = Bench::new(task.alloc);
    look_at_all(task, &mut sets, ledger, &mut bench, tries)
}

/// The same, by what is used again from node to node.
fn look_at_all(
    task: &Task,
    sets: &mut Sets,
    ledger: &mut Ledger,
    bench: &mut Bench,
    tries: u64,
) -> Result<(), AllocError> {
    for _ in 0..tries {
        let Some((number, node)) = ledger.next() else {
            break;
        };
        if node.edits < MAX_EDITS {
            look_at(task, sets, ledger, bench, number)?;
        }
    }
    ledger.finish()
}

/// Tries the candidates of a node, if its code can be made, and takes the sets that they made.
fn look_at(
    task: &Task,
    sets: &mut Sets,
    ledger: &mut Ledger,
    bench: &mut Bench,
    number: usize,
) -> Result<(), AllocError> {
    if rebuild(task, ledger, number, &mut bench.draft)? {
        expand(task, sets, ledger, bench, number)?;
        sets.take(ledger)?;
    }
    Ok(())
}

impl<'a> Sets<'a> {
    /// The set of a number.
    fn get(&self, number: usize) -> &DriverSet {
        if number == 0 {
            return self.base;
        }
        match self.edited.get(number - 1) {
            Some(set) => set,
            None => self.base,
        }
    }

    /// Takes the sets that were made.
    fn take(&mut self, ledger: &mut Ledger) -> Result<(), AllocError> {
        self.edited.append(&mut ledger.made)?;
        Ok(())
    }
}

/// Makes the code of a node.
fn rebuild(
    task: &Task,
    ledger: &Ledger,
    number: usize,
    draft: &mut Draft,
) -> Result<bool, AllocError> {
    draft.take(task.code.as_slice())?;
    for node in ledger.path(number)?.as_slice() {
        if !draft.follow(ledger.changes_of(node))? {
            return Ok(false);
        }
    }
    Ok(true)
}

/// Tries the candidates of a node.
fn expand(
    task: &Task,
    sets: &Sets,
    ledger: &mut Ledger,
    bench: &mut Bench,
    number: usize,
) -> Result<(), AllocError> {
    let Some(node) = ledger.node(number) else {
        return Ok(());
    };
    match task.subject(sets.get(node.set)) {
        Some(subject) => expand_in(task, &subject, ledger, bench, number, node),
        None => Ok(()),
    }
}

/// Tries the candidates of a node whose routine is there, and has a fault.
fn expand_in(
    task: &Task,
    subject: &Subject,
    ledger: &mut Ledger,
    bench: &mut Bench,
    number: usize,
    node: Node,
) -> Result<(), AllocError> {
    bench.reading.read(subject, bench.draft.code.as_slice())?;
    let Some(fault) = bench.reading.fault else {
        return Ok(());
    };
    gather(task, subject, bench)?;
    let path = ledger.path(number)?;
    let code = bench.draft.code.as_slice();
    let here = Here {
        number,
        node,
        path: path.as_slice(),
        fault,
        strangeness: task.usual.strangeness(subject.sort, code),
        mismatches: mismatches(code),
        empties: empties(code),
    };
    try_all(task, subject, &here, ledger, bench)
}

/// Lists the candidates of the node that was read.
fn gather(task: &Task, subject: &Subject, bench: &mut Bench) -> Result<(), AllocError> {
    bench.list.clear();
    let draft = &bench.draft;
    let (code, touched) = (draft.code.as_slice(), draft.touched.as_slice());
    match Scene::of(task.alloc, subject, code, &bench.reading, touched)? {
        Some(scene) => add_all(task.alloc, &scene, &mut bench.list),
        None => Ok(()),
    }
}

/// Tries the candidates in their order; where there are more than tries are left, the cheapest.
fn try_all(
    task: &Task,
    subject: &Subject,
    here: &Here,
    ledger: &mut Ledger,
    bench: &mut Bench,
) -> Result<(), AllocError> {
    let list = &bench.list.candidates;
    let (count, length) = (list.as_slice().len(), bench.draft.code.len());
    if ledger.is_narrow() && here.node.edits == 0 {
        ledger.bind(probe(task, subject, here, bench)?);
    }
    let by_cost = ledger.lacks_tries(count, length);
    let places = order_of(task.alloc, &bench.list.candidates, by_cost)?;
    for place in places.iter() {
        if !try_at(task, subject, here, ledger, bench, *place) {
            break;
        }
    }
    Ok(())
}

/// Tries the candidate at a place, if it may be among the cheapest; whether one behind it may be
/// tried then.
fn try_at(
    task: &Task,
    subject: &Subject,
    here: &Here,
    ledger: &mut Ledger,
    bench: &mut Bench,
    place: usize,
) -> bool {
    let Some(candidate) = bench.list.candidates.as_slice().get(place).copied() else {
        return false;
    };
    if !ledger.counts(least_cost(here, &candidate)) {
        return true;
    }
    let read = match candidate.manner {
        Manner::Line => task.size,
        _ => bench.draft.code.len(),
    };
    let is_left = ledger.uses_try(read);
    if is_left {
        try_candidate(task, subject, here, ledger, bench, candidate);
    }
    is_left
}

/// What a solution costs which is one of the cheapest candidates, if one of them is.
fn probe(
    task: &Task,
    subject: &Subject,
    here: &Here,
    bench: &mut Bench,
) -> Result<u32, AllocError> {
    let places = order_of(task.alloc, &bench.list.candidates, true)?;
    for place in places.iter().take(PROBES) {
        if let Some(cost) = probe_at(task, subject, here, bench, *place)? {
            return Ok(cost);
        }
    }
    Ok(u32::MAX)
}

/// What the candidate at a place costs, if it is a solution, and no edit of lines.
fn probe_at(
    task: &Task,
    subject: &Subject,
    here: &Here,
    bench: &mut Bench,
    place: usize,
) -> Result<Option<u32>, AllocError> {
    let Some(candidate) = bench.list.candidates.as_slice().get(place).copied() else {
        return Ok(None);
    };
    if candidate.manner == Manner::Line || !make(subject, here, bench, &candidate)? {
        return Ok(None);
    }
    match bench.next.fault {
        Some(_) => Ok(None),
        None => Ok(Some(cost_of(task, subject, here, &bench.tried(candidate)))),
    }
}

/// The places of candidates, in their order or by what they cost.
fn order_of(alloc: Global, list: &Candidates, by_cost: bool) -> Result<Vec<usize>, AllocError> {
    let mut places = Vec::new(alloc);
    for place in 0..list.as_slice().len() {
        places.push(place)?;
    }
    if by_cost {
        places.sort_by_key(|place| cost_at(list, *place))?;
    }
    Ok(places)
}

/// What the candidate at a place costs.
fn cost_at(list: &Candidates, place: usize) -> u32 {
    match list.as_slice().get(place) {
        Some(candidate) => candidate.cost,
        None => 0,
    }
}

/// What a node costs at least that a candidate leads to.
fn least_cost(here: &Here, candidate: &Candidate) -> u32 {
    let rebate = rebate_on(here, candidate);
    let cost = candidate.cost.saturating_add(alone(here, rebate));
    let cost = cost.saturating_sub(MOST_LESS).saturating_sub(rebate);
    here.node.cost.saturating_add(cost.max(LEAST))
}

/// What a candidate costs more, where it completes nothing that was done before.
fn alone(here: &Here, rebate: u32) -> u32 {
    if here.node.edits > 0 && rebate == 0 {
        ALONE
    } else {
        0
    }
}

/// Tries a candidate.
fn try_candidate(
    task: &Task,
    subject: &Subject,
    here: &Here,
    ledger: &mut Ledger,
    bench: &mut Bench,
    candidate: Candidate,
) {
    if candidate.manner == Manner::Line {
        let changes = bench.list.candidates.changes_of(&candidate);
        let code = bench.draft.code.as_slice();
        let tried = Tried {
            candidate,
            changes,
            code,
        };
        try_line(task, subject, here, ledger, &tried)
    } else if ledger.holds(make(subject, here, bench, &candidate)) {
        let fault = bench.next.fault;
        let tried = bench.tried(candidate);
        keep_made(task, subject, here, ledger, &tried, fault)
    }
}

/// Keeps a candidate whose code was made and read, if it leads on or mends the routine.
fn keep_made(
    task: &Task,
    subject: &Subject,
    here: &Here,
    ledger: &mut Ledger,
    tried: &Tried,
    fault: Option<Fault>,
) {
    match fault {
        Some(fault) => keep_on(task, subject, here, ledger, tried, fault),
        None => keep_solution(here, ledger, tried, cost_of(task, subject, here, tried)),
    }
}

/// Makes the code of a candidate, and reads it; or answers that it can't be made.
fn make(
    subject: &Subject,
    here: &Here,
    bench: &mut Bench,
    candidate: &Candidate,
) -> Result<bool, AllocError> {
    let changes = bench.list.candidates.changes_of(candidate);
    bench.child.take_code(bench.draft.code.as_slice())?;
    if !bench.child.apply(changes)? {
        return Ok(false);
    }
    let known = known_before(here, candidate, changes);
    let code = bench.child.code.as_slice();
    bench
        .next
        .read_behind(subject, code, &bench.reading, known)?;
    Ok(true)
}

/// Keeps a candidate that leads on to another fault, if it does and its code is new.
fn keep_on(
    task: &Task,
    subject: &Subject,
    here: &Here,
    ledger: &mut Ledger,
    tried: &Tried,
    fault: Fault,
) {
    let Some(more) = cost_on(here, tried, fault) else {
        return;
    };
    let cost = cost_of(task, subject, here, tried).saturating_add(more);
    if ledger.counts(cost) && ledger.note(key_of(tried.code, here.node.set)) {
        let number = add_node(here, ledger, tried, cost, here.node.set);
        ledger.wait(number, cost);
    }
}

/// Adds the node that a candidate leads to, of a set, and answers its number.
fn add_node(here: &Here, ledger: &mut Ledger, tried: &Tried, cost: u32, set: usize) -> usize {
    let made = made_by(&tried.candidate);
    ledger.add(Some(here.number), made, cost, set, tried.changes)
}

/// Keeps a candidate behind which there is no fault, if its code is new or costs less.
fn keep_solution(here: &Here, ledger: &mut Ledger, tried: &Tried, cost: u32) {
    let key = key_of(tried.code, here.node.set);
    if ledger.note(key) || ledger.drops_dearer(key, cost) {
        let number = add_node(here, ledger, tried, cost, here.node.set);
        ledger.solve(number, cost, key);
    }
}

/// How many positions of a node's code are read alike behind a candidate: none where loops change.
fn known_before(here: &Here, candidate: &Candidate, changes: &[Placed]) -> usize {
    let loops = match &candidate.old {
        Some(instr) => matches!(*instr, Instr::Loop(_) | Instr::End),
        None => false,
    };
    if loops || candidate.manner == Manner::Block {
        return 0;
    }
    first_changed(changes).min(here.fault.at) as usize
}

/// What is kept of a candidate for the costs of those behind it.
fn made_by(candidate: &Candidate) -> Made {
    Made {
        manner: candidate.manner,
        new: candidate.new,
        old: candidate.old,
    }
}

/// What a node costs more that a candidate leads to, if it leads on: its fault is later, or at the
/// same place with a greater rule. A deletion or replacement elsewhere may leave it as it is.
fn cost_on(here: &Here, tried: &Tried, fault: Fault) -> Option<u32> {
    let (old, changes) = (here.fault, tried.changes);
    let Some(place) = followed(changes, old.at) else {
        let behind = followed(changes, old.at.saturating_add(1));
        return match behind {
            Some(behind) if fault.at < behind => None,
            _ => Some(0),
        };
    };
    let greater = fault.rule.number() > old.rule.number();
    if fault.at > place || fault.at == place && greater {
        return Some(0);
    }
    match tried.candidate.manner {
        Manner::Delete | Manner::Replace if fault.at == place && !changes_at(changes, old.at) => {
            Some(30)
        }
        _ => None,
    }
}

/// What a node costs that a candidate leads to, with all before it.
fn cost_of(task: &Task, subject: &Subject, here: &Here, tried: &Tried) -> u32 {
    let (candidate, code) = (tried.candidate, tried.code);
    let strange = task.usual.strangeness(subject.sort, code);
    let part = match candidate.manner {
        Manner::Block | Manner::Template => 4,
        _ => 10,
    };
    let more = strange
        .saturating_sub(here.strangeness)
        .saturating_mul(part)
        / 10;
    let less = here
        .strangeness
        .saturating_sub(strange)
        .saturating_mul(part)
        / 10;
    let wrong = mismatches(code)
        .saturating_sub(here.mismatches)
        .saturating_mul(40);
    let empty = empties(code)
        .saturating_sub(here.empties)
        .saturating_mul(50);
    let rebate = rebate_on(here, &candidate);
    let cost = candidate.cost.saturating_add(more).saturating_add(wrong);
    let cost = cost
        .saturating_add(empty)
        .saturating_add(alone(here, rebate));
    let cost = cost
        .saturating_sub(less.min(MOST_LESS))
        .saturating_sub(rebate)
        .max(LEAST);
    here.node.cost.saturating_add(cost)
}

/// What a candidate costs less behind the edits of a node.
fn rebate_on(here: &Here, candidate: &Candidate) -> u32 {
    for node in here.path {
        let less = rebate(&node.made, candidate);
        if node.edits > 0 && less > 0 {
            return less;
        }
    }
    0
}

/// A number for code of a set, which few others have.
fn key_of(code: &[Instr], set: usize) -> u64 {
    let mut key = set as u64;
    for instr in code {
        key = (key.rotate_left(5) ^ form_of(instr).mixed()).wrapping_mul(0x9e37_79b9_7f4a_7c15);
    }
    key
}

/// Tries an edit of lines. It costs more where another routine has a fault then.
fn try_line(task: &Task, subject: &Subject, here: &Here, ledger: &mut Ledger, tried: &Tried) {
    match set_with(task, subject.set, tried.changes) {
        Ok(Some(set)) => try_set(task, subject, here, ledger, tried, set),
        Ok(None) => {}
        Err(AllocError) => ledger.note_lack(),
    }
}

/// The same, by the set with the edited lines.
fn try_set(
    task: &Task,
    subject: &Subject,
    here: &Here,
    ledger: &mut Ledger,
    tried: &Tried,
    set: DriverSet,
) {
    let cost = cost_of(task, subject, here, tried);
    match outcome_in(task, &set, tried.code) {
        Ok(Outcome::Absent) => {}
        Ok(Outcome::Fine) => {
            let spoils = ledger.holds(spoils_others(task, subject.set, &set));
            let more = if spoils { 120 } else { 0 };
            solve_line(here, ledger, tried, cost.saturating_add(more))
        }
        Ok(Outcome::Faulty(fault)) => keep_set(here, ledger, tried, cost, fault, set),
        Err(AllocError) => ledger.note_lack(),
    }
}

/// How the routine stands in a set with edited lines.
#[derive(Clone, Copy)]
enum Outcome {
    Absent,
    Fine,
    Faulty(Fault),
}

/// How code of the routine stands in a set.
fn outcome_in(task: &Task, set: &DriverSet, code: &[Instr]) -> Result<Outcome, AllocError> {
    let Some(subject) = task.subject(set) else {
        return Ok(Outcome::Absent);
    };
    let mut reading = Reading::new(task.alloc);
    reading.read(&subject, code)?;
    Ok(match reading.fault {
        Some(fault) => Outcome::Faulty(fault),
        None => Outcome::Fine,
    })
}

/// Keeps an edit of lines behind which there is no fault.
fn solve_line(here: &Here, ledger: &mut Ledger, tried: &Tried, cost: u32) {
    let set = ledger.next_set();
    let next = add_node(here, ledger, tried, cost, set);
    ledger.solve(next, cost, u64::MAX);
}

/// Keeps an edit of lines, with the set that it makes, if it leads on to a fault.
fn keep_set(
    here: &Here,
    ledger: &mut Ledger,
    tried: &Tried,
    cost: u32,
    fault: Fault,
    set: DriverSet,
) {
    if let Some(more) = cost_on(here, tried, fault) {
        let cost = cost.saturating_add(more);
        let number = ledger.next_set();
        ledger.keep(set);
        let next = add_node(here, ledger, tried, cost, number);
        ledger.wait(next, cost);
    }
}

/// A set with these changes of lines.
fn set_with(
    task: &Task,
    set: &DriverSet,
    changes: &[Placed],
) -> Result<Option<DriverSet>, AllocError> {
    let Ok(mut made) = set.copy(task.alloc) else {
        return Err(AllocError);
    };
    for placed in changes {
        let edit = edit_of(task, placed);
        let Some(next) = edited(task.alloc, &made, &edit)? else {
            return Ok(None);
        };
        made = next;
    }
    Ok(Some(made))
}

/// The edit that a change of the routine is.
fn edit_of(task: &Task, placed: &Placed) -> Edit {
    let Placed { at, change } = task.cut.raised(placed);
    Edit {
        driver: task.driver,
        routine: task.routine,
        at,
        change,
    }
}

/// Whether a routine but the one that is mended has a fault in a set that it hadn't in another.
fn spoils_others(task: &Task, old: &DriverSet, new: &DriverSet) -> Result<bool, AllocError> {
    for (d, driver) in new.drivers().iter().enumerate() {
        for number in 0..driver.routines.as_slice().len() {
            let place = (d.min(255) as u8, number.min(255) as u8);
            let same = place.0 == task.driver && place.1 == task.routine;
            if !same && !is_fine(task, new, place)? && is_fine(task, old, place)? {
                return Ok(true);
            }
        }
    }
    Ok(false)
}

/// Whether a routine of a set has no fault.
fn is_fine(task: &Task, set: &DriverSet, place: (u8, u8)) -> Result<bool, AllocError> {
    let Some(driver) = set.drivers().get(place.0 as usize) else {
        return Ok(true);
    };
    let Some(routine) = driver.routines.as_slice().get(place.1 as usize) else {
        return Ok(true);
    };
    match check_routine(task.alloc, set, place.0, place.1, routine) {
        Err(refusal) if refusal.rule == Rule::Memory => Err(AllocError),
        Err(_) => Ok(false),
        Ok(_certificate) => Ok(true),
    }
}

/// The edits of the best solutions.
fn found_edits(task: &Task, ledger: &Ledger) -> Result<Vec<Found>, AllocError> {
    let mut found = Vec::new(task.alloc);
    for solution in ledger.solutions().iter().take(MAX_FOUND) {
        let edits = edits_of(task, ledger, solution.node)?;
        found.push(Found {
            edits: Items::of(edits),
            cost: solution.cost,
        })?;
    }
    Ok(found)
}

/// The edits on the way to a node.
fn edits_of(task: &Task, ledger: &Ledger, number: usize) -> Result<Vec<Edit>, AllocError> {
    let mut edits = Vec::new(task.alloc);
    for node in ledger.path(number)?.as_slice() {
        add_edits(task, ledger.changes_of(node), &mut edits)?;
    }
    Ok(edits)
}

/// Adds the edits that changes of the routine are.
fn add_edits(task: &Task, changes: &[Placed], edits: &mut Vec<Edit>) -> Result<(), AllocError> {
    for placed in changes {
        edits.push(edit_of(task, placed))?;
    }
    Ok(())
}
