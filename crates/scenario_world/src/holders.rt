//! The frames that have a packet in a register.

ghost use Rattle.std.specs.Prelude.{◌≡◌};
ghost use Rattle.std.specs.List.{list_any};
ghost use Rattle.scenario_world.specs.Expected.{frame_has, is_held, runs_with, thread_has};
ghost use Rattle.tell_audit.specs.Naming.{value_names};

use checked::{Checked, Thread};
use checked_parts::Frame;
use model::limits::REGISTERS;
use model::world::{Activation, Value};

/// Whether a frame of a routine has a packet in a register, by the numbers of the routine's driver
/// and of itself.
pub fn is_held(machine: &Checked, n: u64, driver: u64, routine: u64) -> bool
    ensures { result ≡ is_held machine.now.world n driver routine }
{
    machine
        .threads()
        .iter()
        .any(|thread| thread_has(n, driver, routine, thread))
}

fn thread_has(n: u64, driver: u64, routine: u64, thread: &Thread) -> bool
    ensures { result ≡ thread_has n driver routine thread.now }
{
    thread
        .frames()
        .iter()
        .any(|frame| frame_has(n, driver, routine, frame))
}

fn frame_has(n: u64, driver: u64, routine: u64, frame: &Frame) -> bool
    ensures { result ≡ frame_has n driver routine frame.now }
{
    match frame.activation() {
        Some(a) => runs_with(n, driver, routine, a),
        None => false,
    }
}

fn runs_with(n: u64, driver: u64, routine: u64, a: &Activation) -> bool
    ensures { result ≡ runs_with n driver routine a.now }
{
    u64::from(a.driver) == driver && u64::from(a.routine) == routine && have(n, &a.registers)
}

fn have(n: u64, registers: &[Value; REGISTERS]) -> bool
    ensures { result ≡ list_any (value_names n) registers.now }
{
    registers.iter().any(|value| names(n, *value))
}

fn names(n: u64, value: Value) -> bool
    ensures { result ≡ value_names n value }
{
    match value {
        Value::Ref(m) => m == n,
        _ => false,
    }
}
