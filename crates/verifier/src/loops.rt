//! The loops of a routine, as the pass over it needs them at each position. One scan, of one step a
//! position: since a loop is named by the position of its `loop`, the loops round it are those
//! noted there, and only the innermost one is noted anywhere. A loop without an `end` has no body,
//! which shows at the routine's end alone: where there is one, two scans more are made.

ghost use Rattle.std.specs.Prelude.{◌≡◌, ◌<◌, ◌≤◌, ℕ, length, false, IfOk, IfSome, slice_index_or};
ghost use Rattle.std.specs.Prelude.{None};

use model::instr::Instr;
use std::alloc::{AllocError, Global};

/// The loops whose bodies hold a position. A routine is short, so its positions take two bytes.
#[derive(Clone, Copy)]
pub struct Round {
    /// The innermost.
    pub innermost: Option<u16>,
    /// How many they are.
    pub depth: u16,
}

/// What the pass has to know of the loops at a position.
#[derive(Clone, Copy)]
pub struct Place {
    /// The innermost loop that is open before it, with an `end` or without.
    pub opened: Option<u16>,
    /// It is no loop without an `end`.
    pub closed: bool,
    /// The loops whose bodies hold it.
    pub round: Round,
}

ghost use Rattle.model.specs.Set.{flow_of};
ghost use Rattle.model.specs.declared.limits.TheConstants.{MAX_INSTRUCTIONS};
ghost use Rattle.verifier.specs.Survey.{open_next, flags_next, round_next};
ghost use Rattle.verifier.specs.Survey.{AreOpen, AreFlagged, ArePlaced, AreShallow};
ghost use Rattle.verifier.specs.Survey.{round_after, ArePaired};

/// The place of each position of a routine.
pub fn survey(alloc: Global, code: &[Instr]) -> Result<Vec<Place>, AllocError>
    requires short { length code.now ≤ MAX_INSTRUCTIONS }
    ensures { IfOk result (λ places. ArePlaced code.now (length code.now) places.items) }
{
    let paired = pair(alloc, code)?;
    match paired.unclosed {
        None => Ok(paired.places),
        Some(_) => survey_unclosed(alloc, code),
    }
}

/// What the places of a routine are if each of its loops has an `end`, and a loop that has none.
#[derive(Drop)]
struct Paired {
    places: Vec<Place>,
    unclosed: Option<u16>,
}

/// Reads a routine as if each of its loops had an `end`.
fn pair(alloc: Global, code: &[Instr]) -> Result<Paired, AllocError>
    requires short { length code.now ≤ MAX_INSTRUCTIONS }
    ensures { IfOk result (λ paired. paired.unclosed ≡ None
        → ArePlaced code.now (length code.now) paired.places.items) }
{
    let mut places = Vec::with_capacity(alloc, code.len())?;
    let mut round = Round {
        innermost: None,
        depth: 0,
    };
    for at in 0..code.len() {
        let next = round_after(&code[at], at as u16, round, &places);
        let place = Place {
            opened: round.innermost,
            closed: true,
            round,
        };
        places.push(place)?;
        round = next;
    }
    Ok(Paired {
        places,
        unclosed: round.innermost,
    })
}

/// The open loops after an instruction at a position, from the places before it.
fn round_after(instr: &Instr, at: u16, round: Round, places: &[Place]) -> Round
    requires few { length places.now ≤ MAX_INSTRUCTIONS }
    requires before { IfSome round.innermost (λ q. q < length places.now) }
    requires shallow { round.depth ≤ length places.now }
    ensures { result ≡ round_after (flow_of instr.now) at round places.now }
{
    match *instr {
        Instr::Loop(_) => Round {
            innermost: Some(at),
            depth: round.depth + 1,
        },
        Instr::End => match round.innermost {
            None => round,
            Some(q) => places[q as usize].round,
        },
        _ => round,
    }
}

/// The place of each position of a routine, some loops of which may have no `end`.
fn survey_unclosed(alloc: Global, code: &[Instr]) -> Result<Vec<Place>, AllocError>
    requires short { length code.now ≤ MAX_INSTRUCTIONS }
    ensures { IfOk result (λ places. ArePlaced code.now (length code.now) places.items) }
{
    let length = code.len();
    let mut opened = vec![in alloc; None; length]?;
    let mut unclosed = vec![in alloc; false; length]?;
    scan(code, &mut opened, &mut unclosed);
    place_all(alloc, code, &opened, &unclosed)
}

/// Notes at each position the innermost loop that is open before it, and at each loop whether it is
/// still open at the end.
fn scan(code: &[Instr], opened: &mut [Option<u16>], unclosed: &mut [bool])
    requires short { length code.now ≤ MAX_INSTRUCTIONS }
    requires opened { length opened.old ≡ length code.now }
    requires unclosed { length unclosed.old ≡ length code.now }
    requires none { (q : ℕ) → q < length code.now → slice_index_or unclosed.old q false ≡ false }
    ensures opened { AreOpen code.now (length code.now) opened.new }
    ensures unclosed { AreFlagged code.now (length code.now) unclosed.new }
{
    let mut innermost = None;
    for at in 0..code.len() {
        let instr = &code[at];
        opened[at] = innermost;
        flag(instr, at, innermost, unclosed);
        innermost = open_next(instr, at as u16, innermost, opened);
    }
}

/// The innermost open loop after an instruction at a position.
fn open_next(instr: &Instr, at: u16, innermost: Option<u16>, opened: &[Option<u16>]) -> Option<u16>
    requires { IfSome innermost (λ q. q < length opened.now) }
    ensures { result ≡ open_next (flow_of instr.now) at innermost opened.now }
{
    match *instr {
        Instr::Loop(_) => Some(at),
        Instr::End => match innermost {
            None => None,
            Some(q) => opened[q as usize],
        },
        _ => innermost,
    }
}

/// Flags the loop that an instruction opens, or takes the flag from the one that it closes.
fn flag(instr: &Instr, at: usize, innermost: Option<u16>, unclosed: &mut [bool])
    requires here { at < length unclosed.old }
    requires innermost { IfSome innermost (λ q. q < length unclosed.old) }
    ensures { unclosed.new ≡ flags_next (flow_of instr.now) at innermost unclosed.old }
{
    match *instr {
        Instr::Loop(_) => unclosed[at] = true,
        Instr::End => {
            if let Some(q) = innermost {
                unclosed[q as usize] = false;
            }
        }
        _ => {}
    }
}

/// The places of a routine, from what the scan noted.
fn place_all(
    alloc: Global,
    code: &[Instr],
    opened: &[Option<u16>],
    unclosed: &[bool],
) -> Result<Vec<Place>, AllocError>
    requires short { length code.now ≤ MAX_INSTRUCTIONS }
    requires opened { AreOpen code.now (length code.now) opened.now }
    requires unclosed { AreFlagged code.now (length code.now) unclosed.now }
    ensures { IfOk result (λ places. ArePlaced code.now (length code.now) places.items) }
{
    let mut places = Vec::with_capacity(alloc, code.len())?;
    for at in 0..code.len() {
        let place = Place {
            opened: opened[at],
            closed: !unclosed[at],
            round: round_next(opened[at], unclosed, &places),
        };
        places.push(place)?;
    }
    Ok(places)
}

/// The loops whose bodies hold a position before which this loop is open, from the places before
/// it.
fn round_next(opened: Option<u16>, unclosed: &[bool], places: &[Place]) -> Round
    requires before { IfSome opened (λ q. q < length places.now) }
    requires few { length places.now ≤ MAX_INSTRUCTIONS }
    requires flagged { length places.now ≤ length unclosed.now }
    requires shallow { AreShallow places.now }
    ensures { result ≡ round_next opened unclosed.now places.now }
{
    match opened {
        None => Round {
            innermost: None,
            depth: 0,
        },
        Some(q) if unclosed[q as usize] => places[q as usize].round,
        Some(q) => Round {
            innermost: Some(q),
            depth: places[q as usize].round.depth + 1,
        },
    }
}
