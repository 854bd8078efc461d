//! Instructions that change nothing but their activation. Where one isn't made, its operands are
//! wrong, and nothing has changed.

ghost use Rattle.std.specs.Prelude.{◌≡◌, ◌<◌, IsTrue, false};
ghost use Rattle.model.specs.declared.limits.TheConstants.{MAX_INSTRUCTIONS};
ghost use Rattle.model.specs.declared.world.Activation.{Activation};
ghost use Rattle.checked.specs.GoingOn.{Makes, MakesAlone, SameRoutine};
ghost use Rattle.model.specs.Effect.{difference_of, end_effect, is_less_at, is_zero_at};
ghost use Rattle.model.specs.Effect.{jump_effect, loop_effect, number_effect, sum_of};
ghost use Rattle.model.specs.Set.{Set};
ghost use Rattle.model.specs.World.{at_label, innermost, next, with_register};

use checked_parts::number_in;
use driver_set::{Instr, Register, Turns};
use model::limits::MAX_LOOPS;
use model::world::{Activation, OpenLoop, Value};

/// The register becomes this value.
pub fn set(r: Register, value: Value, a: &mut Activation)
    requires { a.old.position < MAX_INSTRUCTIONS }
    ensures { a.new ≡ next (with_register a.old r value) }
{
    a.registers[r.index()] = value;
    a.position += 1;
}

/// The register becomes a number that was computed, if its operands were numbers.
fn set_number(r: Register, number: Option<u64>, a: &mut Activation) -> bool
    requires { a.old.position < MAX_INSTRUCTIONS }
    ensures { Makes a.old (λ u. number_effect u a.old r number) a.new result }
{
    match number {
        Some(number) => {
            set(r, Value::Num(number), a);
            true
        }
        None => false,
    }
}

/// The sum of two registers, modulo 2^64.
fn sum(a: &Activation, r: Register, s: Register) -> Option<u64>
    ensures { result ≡ sum_of a.now r s }
{
    let x = number_in(a.registers[r.index()])?;
    let y = number_in(a.registers[s.index()])?;
    Some(x.wrapping_add(y))
}

/// The difference of two registers, modulo 2^64.
fn difference(a: &Activation, r: Register, s: Register) -> Option<u64>
    ensures { result ≡ difference_of a.now r s }
{
    let x = number_in(a.registers[r.index()])?;
    let y = number_in(a.registers[s.index()])?;
    Some(x.wrapping_sub(y))
}

/// `add r s`: r becomes the sum.
pub fn add(r: Register, s: Register, a: &mut Activation) -> bool
    requires { a.old.position < MAX_INSTRUCTIONS }
    ensures { Makes a.old (λ u. number_effect u a.old r (sum_of a.old r s)) a.new result }
{
    let number = sum(a, r, s);
    set_number(r, number, a)
}

/// `sub r s`: r becomes the difference.
pub fn subtract(r: Register, s: Register, a: &mut Activation) -> bool
    requires { a.old.position < MAX_INSTRUCTIONS }
    ensures { Makes a.old (λ u. number_effect u a.old r (difference_of a.old r s)) a.new result }
{
    let number = difference(a, r, s);
    set_number(r, number, a)
}

/// Goes to the label.
pub fn jump(label: u16, a: &mut Activation)
    ensures { a.new ≡ at_label a.old label }
{
    a.position = label;
}

/// Goes to the label where a test says so, if its operands were numbers.
fn jump_if(label: u16, test: Option<bool>, a: &mut Activation) -> bool
    requires { a.old.position < MAX_INSTRUCTIONS }
    ensures { Makes a.old (λ u. jump_effect u a.old label test) a.new result }
{
    match test {
        Some(true) => {
            a.position = label;
            true
        }
        Some(false) => {
            a.position += 1;
            true
        }
        None => false,
    }
}

fn is_zero(a: &Activation, r: Register) -> Option<bool>
    ensures { result ≡ is_zero_at a.now r }
{
    let x = number_in(a.registers[r.index()])?;
    Some(x == 0)
}

fn is_less(a: &Activation, r: Register, s: Register) -> Option<bool>
    ensures { result ≡ is_less_at a.now r s }
{
    let x = number_in(a.registers[r.index()])?;
    let y = number_in(a.registers[s.index()])?;
    Some(x < y)
}

/// `jz r L`: jumps if r is 0.
pub fn jump_if_zero(r: Register, label: u16, a: &mut Activation) -> bool
    requires { a.old.position < MAX_INSTRUCTIONS }
    ensures { Makes a.old (λ u. jump_effect u a.old label (is_zero_at a.old r)) a.new result }
{
    let test = is_zero(a, r);
    jump_if(label, test, a)
}

/// `jlt r s L`: jumps if r is less than s.
pub fn jump_if_less(r: Register, s: Register, label: u16, a: &mut Activation) -> bool
    requires { a.old.position < MAX_INSTRUCTIONS }
    ensures { Makes a.old (λ u. jump_effect u a.old label (is_less_at a.old r s)) a.new result }
{
    let test = is_less(a, r, s);
    jump_if(label, test, a)
}

/// `loop n`: opens a loop of n turns, if there is room for it.
pub fn open_loop(turns: Turns, a: &mut Activation) -> bool
    requires { a.old.position < MAX_INSTRUCTIONS }
    ensures { Makes a.old (λ u. loop_effect u a.old turns) a.new result }
{
    if a.loops.len() >= MAX_LOOPS {
        return false;
    }
    a.position += 1;
    a.loops.push(OpenLoop {
        start: a.position,
        turns: turns.count(),
    });
    true
}

/// `end`: goes back to the start of the innermost loop's body, or closes the loop, if one is open.
pub fn end_turn(a: &mut Activation) -> bool
    requires { a.old.position < MAX_INSTRUCTIONS }
    ensures { Makes a.old (λ u. end_effect u a.old (innermost a.old)) a.new result }
{
    let place = a.loops.len().saturating_sub(1);
    let Some(innermost) = a.loops.get_mut(place) else {
        return false;
    };
    if innermost.turns <= 1 {
        a.loops.truncate(place);
        a.position += 1;
        return true;
    }
    innermost.turns -= 1;
    a.position = innermost.start;
    true
}

/// Executes an instruction that changes nothing but its activation. False, and nothing has changed,
/// where it is another one, or its operands are wrong.
pub fn execute(instruction: Instr, a: &mut Activation) -> bool
    requires { a.old.position < MAX_INSTRUCTIONS }
    ensures goes { IsTrue result → (set : Set) → MakesAlone set instruction a.old a.new }
    ensures same { SameRoutine a.old a.new }
    ensures other { result ≡ false → a.new ≡ a.old }
    ensures far { result ≡ false → (set : Set) (b : Activation)
        → MakesAlone set instruction a.old b → ⊥ }
{
    match instruction {
        Instr::Const(r, number) => set(r, Value::Num(u64::from(number)), a),
        Instr::Move(r, s) => set(r, a.registers[s.index()], a),
        Instr::Clear(r) => set(r, Value::Blank, a),
        Instr::Jump(label) => jump(label, a),
        Instr::Add(r, s) => return add(r, s, a),
        Instr::Subtract(r, s) => return subtract(r, s, a),
        Instr::JumpIfZero(r, label) => return jump_if_zero(r, label, a),
        Instr::JumpIfLess(r, s, label) => return jump_if_less(r, s, label, a),
        Instr::Loop(turns) => return open_loop(turns, a),
        Instr::End => return end_turn(a),
        _ => return false,
    }
    true
}
