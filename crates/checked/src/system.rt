//! The I/O system of a run, and what an event does to it.

ghost use Rattle.std.specs.Prelude.{◌≡◌, ◌<◌, ◌≤◌, IfOk, slice_get};
ghost use Rattle.checked.specs.GoingOn.{WorldGoes, WorldGoesNoFurther};
ghost use Rattle.checked.specs.Step.{ended, event_now, step_now};
ghost use Rattle.model.specs.Events.{cancel_on, irql_of};
ghost use Rattle.model.specs.View.{due_at, packet_at, thread_at};
ghost use Rattle.model.specs.World.{opening};

use crate::thread::Thread;
use checked_parts::activation::entered;
use checked_parts::{Frame, Shared, cancelling};
use driver_set::{DriverSet, device_of, driver_of};
use irql_locks::irql_of;
use model::event::{Event, Place, Reply};
use model::status::Major;
use model::view::{PacketView, ThreadView};
use model::world::{CancelStep, Irql, Value};
use std::alloc::{AllocError, Global};
use std::marker::Model;

/// The threads with their frames, and what they share. Contracts see a world.
#[derive(Drop)]
pub struct System {
    thread_list: Vec<Thread>,
    shared: Shared,
}

impl Model for System {
    ghost use Rattle.model.specs.World.{World};

    ghost Value = { World };

    ghost view = { λ w. record { threads = w.thread_list.items; shared = w.shared } };
}

impl System {
    /// So many devices and idle threads, before the first event. All memory that a run ever needs
    /// is taken here: an error where some of it is refused.
    pub fn new(alloc: Global, devices: usize, threads: u8) -> Result<System, AllocError>
        ensures { IfOk result (λ w. w ≡ opening devices threads) }
    {
        let mut thread_list = Vec::with_capacity(alloc, threads as usize)?;
        for _thread in 0..threads {
            thread_list.push(Thread::idle())?;
        }
        let shared = Shared::new(alloc, devices)?;
        Ok(System {
            thread_list,
            shared,
        })
    }

    /// The threads, by their numbers.
    pub fn threads(&self) -> &[Thread]
        ensures { result.now ≡ self.now.threads }
    {
        self.thread_list.as_slice()
    }

    /// What the threads share.
    pub fn shared(&self) -> &Shared
        ensures { result.now ≡ self.now.shared }
    {
        &self.shared
    }

    /// What an event does, and its reply. After a bug check or a wrong operand nothing has changed.
    pub fn perform(&mut self, set: &DriverSet, event: &Event) -> Reply
        ensures { record { world = self.new; reply = result }
            ≡ event_now set.now self.old event.now }
    {
        match *event {
            Event::Issue {
                thread,
                device,
                major,
                argument,
            } => self.issue(set, thread, device, major, argument),
            Event::Cancel {
                thread,
                packet,
                level,
            } => self.cancel(thread, packet, level),
            Event::Interrupt { device } => self.interrupt(set, device),
            Event::Dpc { thread, device } => self.begin_dpc(set, thread, device),
            Event::StartIo { thread, device } => self.begin_startio(set, thread, device),
            Event::Step { thread } => self.step(set, thread),
        }
    }

    /// What there is to tell of a thread, if there is one of this number.
    pub fn thread(&self, number: u8) -> Option<ThreadView>
        ensures { result ≡ thread_at self.now number }
    {
        match self.thread_list.get(number as usize) {
            Some(thread) => Some(thread.view()),
            None => None,
        }
    }

    /// What there is to tell of the packet of a number.
    pub fn packet(&self, number: u64) -> PacketView
        ensures { result ≡ packet_at self.now number }
    {
        self.shared.packet(number)
    }

    /// Whether the start list of a device has a packet, and whether its DPC is queued.
    pub fn due(&self, device: u8) -> (bool, bool)
        ensures { result ≡ due_at self.now device }
    {
        self.shared.due(device)
    }

    /// A new packet is sent to a device by an idle thread.
    fn issue(
        &mut self,
        set: &DriverSet,
        thread: u8,
        device: u8,
        major: Major,
        argument: u64,
    ) -> Reply
        ensures { let event = Event.Issue thread device major argument in
            record { world = self.new; reply = result } ≡ event_now set.now self.old event }
    {
        let idle = match self.thread_list.get(thread as usize) {
            Some(caller) => caller.is_idle(),
            None => return Reply::Refused,
        };
        let Some(target) = device_of(set, device) else {
            return Reply::Refused;
        };
        if !idle || !self.shared.can_issue() {
            return Reply::Refused;
        }
        let routine = set.handler(target.driver, major);
        let packet = self.shared.issue(device, target, major, argument);
        let root = entered(target.driver, routine, device, Value::Ref(packet));
        self.thread_list[thread as usize].begin(Irql::Passive, Frame::routine(root));
        Reply::Started(packet)
    }

    /// IoCancelIrp begins for a packet, on an idle thread at a level.
    fn cancel(&mut self, thread: u8, packet: u64, level: u8) -> Reply
        ensures { let on = slice_get self.old.threads thread in
            record { world = self.new; reply = result }
            ≡ ended (cancel_on self.old thread packet (irql_of level) on) }
    {
        let idle = match self.thread_list.get(thread as usize) {
            Some(canceller) => canceller.is_idle(),
            None => return Reply::Refused,
        };
        let Some(level) = irql_of(level) else {
            return Reply::Refused;
        };
        if !idle || !self.shared.is_issued(packet) {
            return Reply::Refused;
        }
        if self.shared.is_gone(packet) {
            return Reply::Finished;
        }
        let root = Frame::over(cancelling(packet, CancelStep::Acquire));
        self.thread_list[thread as usize].begin(level, root);
        Reply::Started(packet)
    }

    /// A device interrupts: its DPC is queued.
    fn interrupt(&mut self, set: &DriverSet, device: u8) -> Reply
        ensures { let event = Event.Interrupt device in
            record { world = self.new; reply = result } ≡ event_now set.now self.old event }
    {
        if set.dpc(device).is_none() {
            return Reply::Refused;
        }
        if self.shared.is_queued(device) {
            return Reply::Idle;
        }
        self.shared.set_queued(device, true);
        Reply::Stepped
    }

    /// The DPC of a device is taken off, and its routine begins on an idle thread.
    fn begin_dpc(&mut self, set: &DriverSet, thread: u8, device: u8) -> Reply
        ensures { let event = Event.Dpc thread device in
            record { world = self.new; reply = result } ≡ event_now set.now self.old event }
    {
        let idle = match self.thread_list.get(thread as usize) {
            Some(runner) => runner.is_idle(),
            None => return Reply::Refused,
        };
        let Some(routine) = set.dpc(device) else {
            return Reply::Refused;
        };
        if !idle {
            return Reply::Refused;
        }
        if !self.shared.is_queued(device) {
            return Reply::Idle;
        }
        self.shared.set_queued(device, false);
        let root = entered(driver_of(set, device), routine, device, Value::Blank);
        self.thread_list[thread as usize].begin(Irql::Dispatch, Frame::routine(root));
        Reply::Stepped
    }

    /// The StartIo routine of a device begins on an idle thread, for the first packet of its start
    /// list.
    fn begin_startio(&mut self, set: &DriverSet, thread: u8, device: u8) -> Reply
        ensures { let event = Event.StartIo thread device in
            record { world = self.new; reply = result } ≡ event_now set.now self.old event }
    {
        let idle = match self.thread_list.get(thread as usize) {
            Some(runner) => runner.is_idle(),
            None => return Reply::Refused,
        };
        let Some(routine) = set.startio(device) else {
            return Reply::Refused;
        };
        if !idle {
            return Reply::Refused;
        }
        let Some(start) = self.shared.start_of(device) else {
            return Reply::Refused;
        };
        let Some(n) = start.first_to_start() else {
            return Reply::Idle;
        };
        self.shared.start_io(device);
        let root = entered(driver_of(set, device), routine, device, Value::Ref(n));
        self.thread_list[thread as usize].begin(Irql::Dispatch, Frame::routine(root));
        Reply::Started(n)
    }

    /// Lets the routine on the top of a thread go on by itself for at most so many steps, up to a
    /// place, if one is given, and answers how many. Fewer only where it is there, or there is no
    /// such thread, or no routine that can go on on its top.
    pub fn go_on(
        &mut self,
        set: &DriverSet,
        thread: u8,
        count: usize,
        until: &Option<Place>,
    ) -> usize
        ensures few { result ≤ count }
        ensures goes { WorldGoes until.now set.now self.old thread result self.new }
        ensures far { result < count → WorldGoesNoFurther until.now set.now self.new thread }
    {
        let Some(runner) = self.thread_list.get_mut(thread as usize) else {
            return 0;
        };
        runner.go_on(set, count, until)
    }

    /// A step of a thread's top frame.
    fn step(&mut self, set: &DriverSet, thread: u8) -> Reply
        ensures { let stepped = slice_get self.old.threads thread in
            record { world = self.new; reply = result } ≡ step_now set.now self.old thread stepped }
    {
        match self.thread_list.get_mut(thread as usize) {
            Some(stepped) => stepped.step(set, &mut self.shared, thread),
            None => Reply::Refused,
        }
    }
}
