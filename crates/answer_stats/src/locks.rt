//! How many locks a driver takes.

ghost use Rattle.std.specs.Prelude.{◌≡◌, ◌≤◌};
ghost use Rattle.answer_stats.specs.Sizes.{is_taken, locks_in, taken, takes, takes_in};

use model::instr::Instr;
use model::limits::SPIN_LOCKS;
use model::set::{Driver, Routine};

/// How many locks there are for a driver: the spin locks of a device, and behind them the system
/// cancel spin lock.
const LOCKS: usize = SPIN_LOCKS + 1;

/// How many of them the routines of a driver take.
pub(crate) fn locks_in(driver: &Driver) -> u64
    ensures count { result ≡ locks_in driver.now }
    ensures few { result ≤ 9 }
{
    let mut count = 0;
    for lock in 0..LOCKS {
        count += taken(driver, lock);
    }
    count
}

/// One where a routine of a driver takes the lock of a number, and else none.
fn taken(driver: &Driver, lock: usize) -> u64
    ensures count { result ≡ taken driver.now lock }
    ensures few { result ≤ 1 }
{
    if is_taken(driver, lock) { 1 } else { 0 }
}

/// Whether a routine of a driver takes the lock of a number.
fn is_taken(driver: &Driver, lock: usize) -> bool
    ensures { result ≡ is_taken driver.now lock }
{
    driver
        .routines
        .as_slice()
        .iter()
        .any(|routine| takes_in(lock, routine))
}

/// Whether a routine takes the lock of a number.
fn takes_in(lock: usize, routine: &Routine) -> bool
    ensures { result ≡ takes_in lock routine.now }
{
    routine
        .code
        .as_slice()
        .iter()
        .any(|instr| takes(lock, instr))
}

/// Whether an instruction takes the lock of a number.
fn takes(lock: usize, instr: &Instr) -> bool
    ensures { result ≡ takes lock instr.now }
{
    match *instr {
        Instr::Acquire(spin) => spin.index() == lock,
        Instr::AcquireCancel => lock == SPIN_LOCKS,
        _ => false,
    }
}
