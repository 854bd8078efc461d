//! What the text of a schedule says.

ghost use Rattle.std.specs.Prelude.{◌≡◌};
ghost use Rattle.pafteis.specs.Scheduled.{TellsSchedule, fault_value, schedule_value};

use crate::texts::NO_MEMORY;
use crate::worlds::DONE;
use interleave::parse::parse_schedule;
use interleave::schedule::{Schedule, ScheduleFault, ScheduleKind};
use std::alloc::Global;

/// How large a schedule is.
#[repr(C)]
#[derive(Clone, Copy)]
pub struct ScheduleValue {
    /// How many events it has.
    pub events: u64,
    /// How many threads.
    pub threads: u32,
}

/// What is wrong with the text of a schedule.
#[repr(C)]
#[derive(Clone, Copy)]
pub struct ScheduleFaultValue {
    /// The line, from 1; one past the last where none says how many threads there are.
    pub line: u64,
    /// 1 a byte or a token of no form, 2 a line of no form, 3 a number out of its range, 4 too many
    /// events.
    pub kind: u32,
}

/// Nothing is wrong.
const NO_FAULT: ScheduleFaultValue = ScheduleFaultValue { line: 0, kind: 0 };

/// The size of a schedule as a value.
fn schedule_value(schedule: &Schedule) -> ScheduleValue
    ensures { result ≡ schedule_value schedule.now }
{
    ScheduleValue {
        events: schedule.events.len() as u64,
        threads: u32::from(schedule.threads),
    }
}

/// A fault as a value; that memory ran out is none.
fn fault_value(fault: ScheduleFault) -> ScheduleFaultValue
    ensures { result ≡ fault_value fault }
{
    let ScheduleFault { line, kind } = fault;
    match kind {
        ScheduleKind::Lex => ScheduleFaultValue { line, kind: 1 },
        ScheduleKind::UnknownWord => ScheduleFaultValue { line, kind: 2 },
        ScheduleKind::OutOfRange => ScheduleFaultValue { line, kind: 3 },
        ScheduleKind::TooLong => ScheduleFaultValue { line, kind: 4 },
        ScheduleKind::Memory => NO_FAULT,
    }
}

/// The status of a text that is no schedule.
const FAULTY: u32 = 2;

/// How large the schedule is that a text lists: 0 it is told, 2 the text is faulty, and its first
/// fault is told, 3 no memory.
#[unsafe(no_mangle)]
pub extern "C" fn pafteis_schedule(
    alloc: Global,
    text: &[u8],
    schedule: &mut ScheduleValue,
    fault: &mut ScheduleFaultValue,
) -> u32
    ensures { TellsSchedule text.now schedule.old schedule.new fault.new result }
{
    match parse_schedule(alloc, text) {
        Ok(listed) => {
            *schedule = schedule_value(&listed);
            *fault = NO_FAULT;
            DONE
        }
        Err(found) => {
            *fault = fault_value(found);
            if found.kind == ScheduleKind::Memory {
                NO_MEMORY
            } else {
                FAULTY
            }
        }
    }
}
