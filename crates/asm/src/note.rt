//! What a line adds to what was read.

ghost use Rattle.std.specs.Prelude.{◌≡◌, ◌≤◌, ◌<◌, false, true, length, OnOk};
ghost use Rattle.model.specs.declared.limits.TheConstants.{MAX_DEVICES, MAX_DRIVERS};
ghost use Rattle.model.specs.declared.limits.TheConstants.{MAX_INSTRUCTIONS, MAX_QUEUES};
ghost use Rattle.model.specs.declared.limits.TheConstants.{MAX_ROUTINES};
ghost use Rattle.asm.specs.Outline.{device_added, device_of, dpc_handled, driver_closed};
ghost use Rattle.asm.specs.Outline.{driver_opened, handled, is_among, is_known_label};
ghost use Rattle.asm.specs.Outline.{is_stack_size, label_added, noted, queue_added, routine_closed};
ghost use Rattle.asm.specs.Outline.{routine_opened, startio_handled, step_added, stepped};
ghost use Rattle.asm.specs.Outline.{IsFitting, IsOrderly};

use crate::draft::{ClosedRoutine, Draft, Place, QueueLine, StartIoLine, Step};
use crate::names::{
    Use, add, add_use, earliest, missed, number_of, number_used, push_some, used_at,
};
use asm_line::{Body, Line, UsedNames};
use model::instr::{Instr, SpinLock};
use model::set::{Device, Sort};
use model::status::Major;
use std::alloc::{AllocError, Global};
use std::mem;
use text::piece::Piece;

impl<'a> Draft<'a> {
    /// Adds what a line without a fault says; `number` is the line's.
    ///
    /// # Errors
    ///
    /// When memory runs out.
    pub fn note(&mut self, alloc: Global, number: u64, line: &Line<'a>) -> Result<(), AllocError>
        requires fitting { IsFitting self.old line.now }
        requires orderly { IsOrderly self.old }
        ensures { OnOk result (self.new ≡ noted self.old number line.now.label line.now.body) }
    {
        match &line.body {
            Body::Blank => Ok(()),
            Body::OpenDriver(name) => self.open_driver(name.again()),
            Body::CloseDriver => self.close_driver(alloc),
            Body::AddQueue(name, guard, cancel) => match guard {
                Some(guard) => self.add_queue(name.again(), *guard, used_at(number, cancel)),
                None => Ok(()),
            },
            Body::Handle(major, name) => self.handle(*major, Use::of(number, name)),
            Body::HandleStartIo(name, cancel) => {
                self.handle_startio(Use::of(number, name), used_at(number, cancel))
            }
            Body::HandleDpc(name) => self.handle_dpc(Use::of(number, name)),
            Body::OpenRoutine(name, sort) => self.open_routine(name.again(), *sort),
            Body::CloseRoutine => self.close_routine(alloc),
            Body::AddDevice(name, driver, stack, lower) => {
                let (driver, lower) = (Use::of(number, driver), used_at(number, lower));
                self.add_device(name.again(), driver, *stack, lower)
            }
            Body::Step(instr, used) => match instr {
                Some(instr) => self.step(number, &line.label, *instr, used),
                None => Ok(()),
            },
        }
    }

    /// `driver NAME`.
    fn open_driver(&mut self, name: Piece<'a>) -> Result<(), AllocError>
        requires { is_among self.old.driver_names name ≡ false }
        ensures { OnOk result (self.new ≡ driver_opened self.old name.entry) }
    {
        add(&mut self.driver_names, name)?;
        self.place = Place::InDriver;
        Ok(())
    }

    /// `endd`.
    fn close_driver(&mut self, alloc: Global) -> Result<(), AllocError>
        requires routines { length self.old.routine_names ≤ MAX_ROUTINES }
        requires queues { length self.old.queue_names ≤ MAX_QUEUES }
        ensures { OnOk result (self.new ≡ driver_closed self.old) }
    {
        let unknown = earliest(self.unknown, self.missed_in_driver());
        let routines = mem::replace(&mut self.routines, Vec::new(alloc));
        let driver = self.finished_driver(alloc, routines)?;
        self.unknown = unknown;
        self.drivers.push(driver)?;
        self.routine_names.clear();
        self.sorts.clear();
        self.calls.clear();
        self.queue_names.clear();
        self.queues.clear();
        self.queue_uses.clear();
        self.read = None;
        self.write = None;
        self.control = None;
        self.startio = None;
        self.dpc = None;
        self.place = Place::Outside;
        Ok(())
    }

    /// `queue NAME LOCK` and `queue NAME LOCK ROUTINE`.
    fn add_queue(
        &mut self,
        name: Piece<'a>,
        guard: SpinLock,
        cancel: Option<Use<'a>>,
    ) -> Result<(), AllocError>
        requires { is_among self.old.queue_names name ≡ false }
        ensures { OnOk result (self.new ≡ queue_added self.old name.entry guard cancel.entry) }
    {
        add(&mut self.queue_names, name)?;
        self.queues.push(QueueLine { guard, cancel })?;
        Ok(())
    }

    /// `dispatch MAJOR ROUTINE`.
    fn handle(&mut self, major: Major, used: Use<'a>) -> Result<(), AllocError>
        ensures { OnOk result (self.new ≡ handled self.old used.entry major) }
    {
        match major {
            Major::Read => self.read = Some(used),
            Major::Write => self.write = Some(used),
            Major::Control => self.control = Some(used),
        }
        Ok(())
    }

    /// `startio ROUTINE` and `startio ROUTINE CANCEL`.
    fn handle_startio(
        &mut self,
        routine: Use<'a>,
        cancel: Option<Use<'a>>,
    ) -> Result<(), AllocError>
        ensures { OnOk result (self.new ≡ startio_handled self.old routine.entry cancel.entry) }
    {
        self.startio = Some(StartIoLine { routine, cancel });
        Ok(())
    }

    /// `dpc ROUTINE`.
    fn handle_dpc(&mut self, used: Use<'a>) -> Result<(), AllocError>
        ensures { OnOk result (self.new ≡ dpc_handled self.old used.entry) }
    {
        self.dpc = Some(used);
        Ok(())
    }

    /// `routine NAME SORT`.
    fn open_routine(&mut self, name: Piece<'a>, sort: Sort) -> Result<(), AllocError>
        requires { is_among self.old.routine_names name ≡ false }
        ensures { OnOk result (self.new ≡ routine_opened self.old name.entry sort) }
    {
        add(&mut self.routine_names, name)?;
        self.sorts.push(sort)?;
        self.sort = sort;
        self.place = Place::InRoutine;
        Ok(())
    }

    /// `endr`.
    fn close_routine(&mut self, alloc: Global) -> Result<(), AllocError>
        ensures { OnOk result (self.new ≡ routine_closed self.old) }
    {
        let closed = self
            .steps
            .take_linked(alloc, &self.labels, &self.positions, self.unknown)?;
        self.unknown = closed.missed;
        self.routines.push(ClosedRoutine {
            sort: self.sort,
            code: closed.code,
        })?;
        self.labels.clear();
        self.positions.clear();
        self.place = Place::InDriver;
        Ok(())
    }

    /// `device NAME DRIVER STACK` and `device NAME DRIVER STACK LOWER`.
    fn add_device(
        &mut self,
        name: Piece<'a>,
        driver: Use<'a>,
        stack: u64,
        lower: Option<Use<'a>>,
    ) -> Result<(), AllocError>
        requires fresh { is_among self.old.device_names name ≡ false }
        requires few_drivers { length self.old.driver_names ≤ MAX_DRIVERS }
        requires few_devices { length self.old.device_names ≤ MAX_DEVICES }
        requires stack { is_stack_size stack ≡ true }
        ensures { OnOk result
            (self.new ≡ device_added self.old name.entry driver.entry stack lower.entry) }
    {
        let device = self.device_of(&driver.name, stack, &lower);
        push_some(&mut self.devices, device)?;
        let missed_driver = missed(&self.driver_names, &Some(driver));
        let missed_lower = missed(&self.device_names, &lower);
        self.unknown = earliest(self.unknown, earliest(missed_driver, missed_lower));
        add(&mut self.device_names, name)
    }

    /// A device of the driver with this name, if there is one before it.
    fn device_of(&self, driver: &Piece<'a>, stack: u64, lower: &Option<Use<'a>>) -> Option<Device>
        requires few_drivers { length self.now.driver_names ≤ MAX_DRIVERS }
        requires few_devices { length self.now.device_names ≤ MAX_DEVICES }
        requires stack { is_stack_size stack ≡ true }
        ensures { result ≡ device_of self.now driver.now stack lower.now }
    {
        let number = number_of(&self.driver_names, driver)?;
        Some(Device {
            driver: number,
            stack: stack as u8,
            lower: number_used(&self.device_names, lower),
        })
    }

    /// An instruction with its label, and the names that it uses.
    fn step(
        &mut self,
        number: u64,
        label: &Option<Piece<'a>>,
        instr: Instr,
        used: &UsedNames<'a>,
    ) -> Result<(), AllocError>
        requires fresh { is_known_label self.old.labels label.now ≡ false }
        requires room { length self.old.steps < MAX_INSTRUCTIONS }
        ensures { OnOk result (self.new ≡ stepped self.old number label.now instr used.now) }
    {
        self.add_label(label)?;
        self.add_step(number, instr, used)
    }

    /// An instruction, and the names that it uses.
    fn add_step(
        &mut self,
        number: u64,
        instr: Instr,
        used: &UsedNames<'a>,
    ) -> Result<(), AllocError>
        ensures { OnOk result (self.new ≡ step_added self.old number instr used.now) }
    {
        let call = add_use(&mut self.calls, number, &used.routine)?;
        let queue = add_use(&mut self.queue_uses, number, &used.queue)?;
        self.steps.push(Step {
            instr,
            label: used_at(number, &used.label),
            call,
            queue,
        })?;
        Ok(())
    }

    /// A label, if there is one, which is new: it stands for the position of the next instruction.
    fn add_label(&mut self, label: &Option<Piece<'a>>) -> Result<(), AllocError>
        requires fresh { is_known_label self.old.labels label.now ≡ false }
        requires room { length self.old.steps < MAX_INSTRUCTIONS }
        ensures { OnOk result (self.new ≡ label_added self.old label.now) }
    {
        match label {
            Some(label) => {
                add(&mut self.labels, label.again())?;
                self.positions.push(self.steps.len() as u16)?;
                Ok(())
            }
            None => Ok(()),
        }
    }
}
