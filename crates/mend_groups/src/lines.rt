//! Edits of lines that are no instructions: of queues, of the StartIo routine and of devices.

use absstate::Rule;
use driver_set::{Device, Driver, Instr, QueueName, Sort};
use mend_candidates::{Gathered, Scene};
use mend_changes::Change;
use mend_reading::Manner;
use model::limits::MAX_STACK;

/// Edits of lines, for a scene.
#[derive(Clone, Copy)]
pub(crate) struct Lines<'a> {
    pub(crate) scene: &'a Scene<'a>,
}

impl<'a> Lines<'a> {
    /// Adds the edits of lines that the rule may ask for.
    pub(crate) fn add_lines(&self, out: &mut Gathered) {
        let Some(driver) = self.scene.driver() else {
            return;
        };
        match self.scene.fault.rule {
            Rule::StackTooSmall | Rule::NoLower => {
                self.add_stacks(out);
                self.add_lowers(out);
            }
            Rule::Sort | Rule::CancelState => self.add_names(driver, out),
            Rule::Guard => {
                self.add_names(driver, out);
                self.add_guards(driver, out);
            }
            Rule::Malformed
            | Rule::Unreachable
            | Rule::StatesDiffer
            | Rule::WrongKind
            | Rule::DoubleCompletion
            | Rule::MarkIrpPending
            | Rule::CancelSpinLock
            | Rule::SpinLock
            | Rule::LockHeld
            | Rule::Level
            | Rule::Dropped
            | Rule::Token
            | Rule::Completion
            | Rule::TooLong
            | Rule::Memory => {}
        }
    }

    /// Adds one edit of a line.
    fn add_line(&self, out: &mut Gathered, cost: u32, change: Change) {
        let one = out.begin(Manner::Line, cost, None, None);
        out.add(one, self.scene.fault.at, change);
    }

    /// Adds the stack sizes that are wanted, from the lowest device up, as one edit.
    fn add_stacks(&self, out: &mut Gathered) {
        let mut sizes = [0_u8; 256];
        let mut count = 0_u32;
        let one = out.begin(Manner::Line, 80, None, None);
        for (number, device) in self.scene.subject.set.devices().iter().enumerate() {
            let number = number.min(255);
            sizes[number] = device.stack;
            let Some(lower) = device.lower else {
                continue;
            };
            let wanted = self.stack_wanted(device, sizes[lower as usize]);
            if device.stack < wanted && wanted as usize <= MAX_STACK {
                sizes[number] = wanted;
                out.change(self.scene.fault.at, Change::Stack(number as u8, wanted));
                count = count.saturating_add(10);
            }
        }
        if count == 0 {
            return;
        }
        let cost = one.cost.saturating_add(count);
        out.end(one.at_cost(cost));
    }

    /// The stack size that a device needs over one of a stack size: 0 where it sends nothing down.
    fn stack_wanted(&self, device: &Device, below: u8) -> u8 {
        let Some(driver) = self.scene.subject.set.drivers().get(device.driver as usize) else {
            return 0;
        };
        if does(driver, |instr| matches!(*instr, Instr::Call(..))) {
            below.saturating_add(1)
        } else if does(driver, |instr| matches!(*instr, Instr::Pass(_))) {
            below
        } else {
            0
        }
    }

    /// Adds lower devices for those of the driver that have none.
    fn add_lowers(&self, out: &mut Gathered) {
        let devices = self.scene.subject.set.devices();
        for (number, device) in devices.iter().enumerate() {
            if device.driver == self.scene.subject.driver && device.lower.is_none() {
                let number = number.min(255) as u8;
                self.add_lowers_of(number, device, out);
            }
        }
    }

    /// Adds lower devices for one that has none.
    fn add_lowers_of(&self, number: u8, device: &Device, out: &mut Gathered) {
        let devices = self.scene.subject.set.devices();
        let calls = u8::from(matches!(self.scene.bad, Instr::Call(..)));
        for lower in 0..number {
            let Some(below) = devices.get(lower as usize) else {
                continue;
            };
            if below.driver == self.scene.subject.driver {
                continue;
            }
            let used = devices.iter().any(|other| other.lower == Some(lower));
            let far = u32::from(number.saturating_sub(lower)).saturating_mul(5);
            let cost = far.saturating_add(if used { 130 } else { 80 });
            self.add_line(out, cost, Change::Lower(number, lower));
            let wanted = below.stack.saturating_add(calls);
            if device.stack < wanted && wanted as usize <= MAX_STACK {
                let cost = cost.saturating_add(40);
                let one = out.begin(Manner::Line, cost, None, None);
                out.change(self.scene.fault.at, Change::Lower(number, lower));
                out.change(self.scene.fault.at, Change::Stack(number, wanted));
                out.end(one);
            }
        }
    }

    /// Adds names of routines that no line names.
    fn add_names(&self, driver: &Driver, out: &mut Gathered) {
        for (number, routine) in driver.routines.as_slice().iter().enumerate() {
            let number = number.min(255) as u8;
            match routine.sort {
                Sort::Cancel if !is_named(driver, number) => {
                    self.add_cancels(driver, number, out);
                }
                Sort::StartIo if driver.startio.is_none() => {
                    self.add_line(out, 80, Change::StartIo(number));
                }
                Sort::Dispatch
                | Sort::StartIo
                | Sort::Dpc
                | Sort::Propagate
                | Sort::Hold
                | Sort::Cancel => {}
            }
        }
    }

    /// Adds a cancel routine for the lists that have none.
    fn add_cancels(&self, driver: &Driver, number: u8, out: &mut Gathered) {
        for (q, queue) in driver.queues.as_slice().iter().enumerate() {
            if queue.cancel.is_none() {
                let name = QueueName::Declared(q.min(255) as u8);
                self.add_line(out, 100, Change::Cancel(name, number));
            }
        }
        if driver.startio.is_some() && driver.startio_cancel.is_none() {
            self.add_line(out, 100, Change::Cancel(QueueName::DeviceQueue, number));
        }
    }

    /// Adds other guards of the driver's queues.
    fn add_guards(&self, driver: &Driver, out: &mut Gathered) {
        for (q, queue) in driver.queues.as_slice().iter().enumerate() {
            let q = q.min(255) as u8;
            for lock in self.scene.locks.as_slice() {
                if lock.index() != queue.guard.index() {
                    self.add_line(out, 200, Change::Guard(q, *lock));
                }
            }
        }
    }
}

/// Whether a driver names a routine as a cancel routine.
fn is_named(driver: &Driver, number: u8) -> bool {
    let waiting = driver.startio_cancel == Some(number);
    waiting
        || driver
            .queues
            .as_slice()
            .iter()
            .any(|queue| queue.cancel == Some(number))
}

/// Whether an instruction of a driver is of some kind.
fn does<F: Fn(&Instr) -> bool>(driver: &Driver, is_such: F) -> bool
    requires { F.IsAlwaysCallable is_such }
{
    for routine in driver.routines.as_slice() {
        if routine.code.as_slice().iter().any(|instr| is_such(instr)) {
            return true;
        }
    }
    false
}
