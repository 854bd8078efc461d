//! Instructions that change nothing but their routine.

ghost use Rattle.std.specs.Prelude.{◌≡◌, ◌<◌, ◌++◌, ◌∷◌, [], ◌+◌, ℕ, IsSome, IsTrue, Option, false};
ghost use Rattle.std.specs.Prelude.{length, nat_eq, nat_lt, if◌then◌else◌};
ghost use Rattle.model.specs.declared.limits.TheConstants.{MAX_INSTRUCTIONS, MAX_LOOPS};
ghost use Rattle.model.specs.declared.world.OpenLoop.{OpenLoop};
ghost use Rattle.laws_slots.specs.Words.{at_label, innermost, next, with_loops, with_word};
ghost use Rattle.laws_slots.specs.Words.{WordFrame, word as word_in};
ghost use Rattle.machine_parts.specs.Turns.{turned_on};
ghost use Rattle.model.specs.Set.{Set};
ghost use Rattle.machine_parts.specs.Alone.{FitsAlone};
ghost use Rattle.laws_slots.specs.Slots.{SlotShared};
ghost use Rattle.laws_slots.specs.WordStep.{difference_at, goes_on, instruction_step, sum_at};

use crate::reading::word;
use driver_set::{Instr, Register, Turns};
use laws_slots::WordActivation;
use model::world::OpenLoop;

/// The register becomes this word.
pub fn set(r: Register, value: u64, a: &mut WordActivation)
    requires { a.old.position < MAX_INSTRUCTIONS }
    ensures { a.new ≡ next (with_word a.old r value) }
{
    a.registers[r.index()] = value;
    a.position += 1;
}

/// `clear r`: nothing may be taken from the register from now on, so the word in it stays.
pub fn clear(a: &mut WordActivation)
    requires { a.old.position < MAX_INSTRUCTIONS }
    ensures { a.new ≡ next a.old }
{
    a.position += 1;
}

/// `add r s`: r becomes the sum, modulo 2^64.
pub fn add(r: Register, s: Register, a: &mut WordActivation)
    requires { a.old.position < MAX_INSTRUCTIONS }
    ensures { a.new ≡ next (with_word a.old r (sum_at a.old r s)) }
{
    let sum = word(a, r).wrapping_add(word(a, s));
    set(r, sum, a);
}

/// `sub r s`: r becomes the difference, modulo 2^64.
pub fn subtract(r: Register, s: Register, a: &mut WordActivation)
    requires { a.old.position < MAX_INSTRUCTIONS }
    ensures { a.new ≡ next (with_word a.old r (difference_at a.old r s)) }
{
    let difference = word(a, r).wrapping_sub(word(a, s));
    set(r, difference, a);
}

/// Goes to the label where a test says so, and else to the next instruction.
pub fn jump_if(label: u16, jumps: bool, a: &mut WordActivation)
    requires { a.old.position < MAX_INSTRUCTIONS }
    ensures { a.new ≡ (if jumps then at_label a.old label else next a.old) }
{
    if jumps {
        a.position = label;
    } else {
        a.position += 1;
    }
}

/// `jz r L`: jumps if r is 0.
pub fn jump_if_zero(r: Register, label: u16, a: &mut WordActivation)
    requires { a.old.position < MAX_INSTRUCTIONS }
    ensures { a.new
        ≡ (if nat_eq (word_in a.old r) 0 then at_label a.old label else next a.old) }
{
    let jumps = word(a, r) == 0;
    jump_if(label, jumps, a);
}

/// `jlt r s L`: jumps if r is less than s.
pub fn jump_if_less(r: Register, s: Register, label: u16, a: &mut WordActivation)
    requires { a.old.position < MAX_INSTRUCTIONS }
    ensures { let jumps = nat_lt (word_in a.old r) (word_in a.old s) in
        a.new ≡ (if jumps then at_label a.old label else next a.old) }
{
    let jumps = word(a, r) < word(a, s);
    jump_if(label, jumps, a);
}

/// `loop n`: opens a loop of n turns; there is room for it.
pub fn open_loop(turns: Turns, a: &mut WordActivation)
    requires near { a.old.position < MAX_INSTRUCTIONS }
    requires room { length a.old.loops.items < MAX_LOOPS }
    ensures { let opened : OpenLoop = record { start = a.old.position + 1; turns = turns } in
        a.new ≡ next (with_loops a.old (a.old.loops.items ++ opened ∷ [])) }
{
    a.position += 1;
    a.loops.push(OpenLoop {
        start: a.position,
        turns: turns.count(),
    });
}

/// `end`: goes back to the start of the innermost loop's body, or closes the loop. One is open.
pub fn end_turn(a: &mut WordActivation)
    requires near { a.old.position < MAX_INSTRUCTIONS }
    requires open { IsSome (innermost a.old) }
    ensures { a.new ≡ turned_on a.old }
{
    let place = a.loops.len() - 1;
    let Some(innermost) = a.loops.get_mut(place) else {
        unreachable!()
    };
    if innermost.turns <= 1 {
        a.loops.truncate(place);
        a.position += 1;
        return;
    }
    innermost.turns -= 1;
    a.position = innermost.start;
}

/// Executes an instruction that changes nothing but its routine. False, and nothing has changed,
/// where it is another one.
pub fn execute(instruction: Instr, a: &mut WordActivation) -> bool
    requires near { a.old.position < MAX_INSTRUCTIONS }
    requires fits { FitsAlone a.old instruction }
    ensures goes { IsTrue result → (set : Set) (s : SlotShared) (t : ℕ) (under : Option WordFrame)
        → goes_on s a.new ≡ instruction_step set s t under a.old instruction }
    ensures same { (a.new.driver ≡ a.old.driver) × (a.new.routine ≡ a.old.routine) }
    ensures other { result ≡ false → a.new ≡ a.old }
{
    match instruction {
        Instr::Const(r, number) => set(r, u64::from(number), a),
        Instr::Move(r, s) => set(r, a.registers[s.index()], a),
        Instr::Clear(_) => clear(a),
        Instr::Add(r, s) => add(r, s, a),
        Instr::Subtract(r, s) => subtract(r, s, a),
        Instr::JumpIfZero(r, label) => jump_if_zero(r, label, a),
        Instr::JumpIfLess(r, s, label) => jump_if_less(r, s, label, a),
        Instr::Jump(label) => a.position = label,
        Instr::Loop(turns) => open_loop(turns, a),
        Instr::End => end_turn(a),
        _ => return false,
    }
    true
}
