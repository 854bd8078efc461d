//! The world of a run, and what an event does to it.

ghost use Rattle.std.specs.Prelude.{◌≡◌, ◌≤◌, ◌<◌, ℕ, IfOk, Some, option_map, slice_get};
ghost use Rattle.model.specs.declared.limits.TheConstants.{MAX_DEVICES};
ghost use Rattle.model.specs.Events.{irql_of as irql_of_level};
ghost use Rattle.model.specs.Set.{dpc_of, startio_of};
ghost use Rattle.model.specs.View.{due_view};
ghost use Rattle.laws_slots.specs.WordsDone.{WordEventDone, IssueDone};
ghost use Rattle.laws_slots.specs.WordsFit.{WordEventFits};
ghost use Rattle.laws_slots.specs.ShownSlots.{meant_shared};
ghost use Rattle.laws_slots.specs.Slots.{packet_at};
ghost use Rattle.laws_slots.specs.ShownWords.{words_at};
ghost use Rattle.laws_slots.specs.WordViews.{word_thread_at};
ghost use Rattle.laws_slots.specs.WordEvents.{cancel_word, dpc_word, interrupt_word, opening_words};
ghost use Rattle.laws_slots.specs.WordEvents.{startio_word};
ghost use Rattle.laws_slots.specs.WordStep.{word_step};
ghost use Rattle.model.specs.declared.event.Reply.TheVariants.{Stepped};
ghost use Rattle.machine_parts.specs.Left.{frame_over};
ghost use Rattle.laws_slots.specs.Words.{WordRoutine, entered};
ghost use Rattle.machine.specs.GoingOn.{after, reply_after};
ghost use Rattle.machine.specs.Threads.{stepped_on};

use crate::thread::Thread;
use driver_set::{DriverSet, device_of, driver_of};
use irql_locks::irql_of;
use machine_parts::{Managing, Over, Shared};
use model::event::{Event, Reply};
use model::limits::REGISTERS;
use model::status::Major;
use model::view::ThreadView;
use model::world::{CancelStep, Irql};
use std::alloc::{AllocError, Global};
use std::marker::Model;

/// The threads with their frames, and what they share. Contracts see a world of words.
#[derive(Drop)]
pub struct Slots {
    thread_list: Vec<Thread>,
    shared: Shared,
}

impl Model for Slots {
    ghost use Rattle.laws_slots.specs.Words.{WordWorld};

    ghost Value = { WordWorld };

    ghost view = { λ w. record { threads = w.thread_list.items; shared = w.shared } };
}

/// A routine that begins, with the key that it is handed.
#[inline]
fn routine_of(driver: u8, routine: u8, device: u8, key: u64) -> Over
    ensures { frame_over result ≡ WordRoutine (entered driver routine device key) }
{
    Over::Routine {
        driver,
        routine,
        device,
        key,
    }
}

impl Slots {
    /// So many devices and idle threads, before the first event. All memory that a run ever needs
    /// is taken here: an error where some of it is refused.
    pub fn new(alloc: Global, devices: usize, threads: u8) -> Result<Slots, AllocError>
        requires { devices ≤ MAX_DEVICES }
        ensures { IfOk result (λ w. w ≡ opening_words devices threads 0) }
    {
        let mut thread_list = Vec::with_capacity(alloc, threads as usize)?;
        for _thread in 0..threads {
            thread_list.push(Thread::idle())?;
        }
        let shared = Shared::new(alloc, devices)?;
        Ok(Slots {
            thread_list,
            shared,
        })
    }

    /// Carries an event out, which finds what it looks for, and answers its reply.
    pub fn apply(&mut self, set: &DriverSet, event: &Event) -> Reply
        requires { WordEventFits set.now self.old event.now }
        ensures { WordEventDone set.now self.old event.now
            (record { world = self.new; reply = result }) }
    {
        match *event {
            Event::Issue {
                thread,
                device,
                major,
                argument,
            } => self.issue(set, thread, device, major, argument),
            Event::Cancel {
                thread,
                packet,
                level,
            } => self.cancel(thread, packet, level),
            Event::Interrupt { device } => self.interrupt(set, device),
            Event::Dpc { thread, device } => self.begin_dpc(set, thread, device),
            Event::StartIo { thread, device } => self.begin_startio(set, thread, device),
            Event::Step { thread } => self.step(set, thread),
        }
    }

    /// A step of a thread's top frame.
    pub fn step(&mut self, set: &DriverSet, thread: u8) -> Reply
        requires { WordEventFits set.now self.old (Event.Step thread) }
        ensures { record { world = self.new; reply = result }
            ≡ word_step set.now self.old thread }
    {
        self.step_on(set, thread)
    }

    /// Lets the routine on the top of a thread go on by itself for at most so many steps, and
    /// answers how many: each changes that routine alone, and replies that the thread stepped.
    pub fn go_on(&mut self, set: &DriverSet, thread: u8, count: usize) -> usize
        requires { (k : ℕ)
            → WordEventFits set.now (after set.now self.old thread k) (Event.Step thread) }
        ensures few { result ≤ count }
        ensures world { self.new ≡ after set.now self.old thread result }
        ensures replies { (k : ℕ) → k < result
            → reply_after set.now self.old thread k ≡ Stepped }
    {
        let Some(runner) = self.thread_list.get_mut(thread as usize) else {
            return 0;
        };
        runner.go_on(set, &self.shared, thread, count)
    }

    /// A step of a thread where it stands.
    fn step_on(&mut self, set: &DriverSet, thread: u8) -> Reply
        requires { WordEventFits set.now self.old (Event.Step thread) }
        ensures { let on = slice_get self.old.threads thread in
            record { world = self.new; reply = result }
            ≡ stepped_on set.now self.old thread on }
    {
        match self.thread_list.get_mut(thread as usize) {
            Some(stepped) => stepped.step(set, &mut self.shared, thread),
            None => Reply::Refused,
        }
    }

    /// What there is to tell of a thread, if there is one of this number.
    pub fn thread(&self, number: u8) -> Option<ThreadView>
        ensures { result ≡ word_thread_at self.now number }
    {
        match self.thread_list.get(number as usize) {
            Some(thread) => Some(thread.view(&self.shared)),
            None => None,
        }
    }

    /// What the threads share, to be looked at.
    pub fn shared(&self) -> &Shared
        ensures { result.now ≡ self.now.shared }
    {
        &self.shared
    }

    /// Whether the start list of a device has a packet, and whether its DPC is queued.
    pub fn due(&self, device: u8) -> (bool, bool)
        ensures { result ≡ due_view (meant_shared self.now.shared) device }
    {
        self.shared.due(device)
    }

    /// The words in the registers of the routine on the top of a thread, if one stands there.
    pub fn words(&self, thread: u8) -> Option<&[u64; REGISTERS]>
        ensures { option_map (λ words. words.now) result ≡ words_at self.now thread }
    {
        match self.thread_list.get(thread as usize) {
            Some(runner) => runner.words(),
            None => None,
        }
    }

    /// The number of the packet in a slot that has one.
    pub fn number(&self, slot: u64) -> Option<u64>
        ensures { result ≡ option_map (λ packet. packet.number) (packet_at self.now.shared slot) }
    {
        let number = self.shared.named(slot);
        if self.shared.is_there(slot, number) {
            Some(number)
        } else {
            None
        }
    }

    /// A new packet is sent to a device by an idle thread.
    fn issue(
        &mut self,
        set: &DriverSet,
        thread: u8,
        device: u8,
        major: Major,
        argument: u64,
    ) -> Reply
        ensures { let caller = slice_get self.old.threads thread in
            let target = slice_get set.now.devices device in
            IssueDone set.now self.old thread device major argument caller target
            (record { world = self.new; reply = result }) }
    {
        let idle = match self.thread_list.get(thread as usize) {
            Some(caller) => caller.is_idle(),
            None => return Reply::Refused,
        };
        let Some(target) = device_of(set, device) else {
            return Reply::Refused;
        };
        if !idle || !self.shared.can_issue() {
            return Reply::Refused;
        }
        let routine = set.handler(target.driver, major);
        let packet = self.shared.issued();
        let key = self.shared.issue(device, major, argument, target.stack);
        let root = routine_of(target.driver, routine, device, key);
        self.thread_list[thread as usize].begin(Irql::Passive, root);
        Reply::Started(packet)
    }

    /// IoCancelIrp begins for a packet, on an idle thread at a level.
    fn cancel(&mut self, thread: u8, packet: u64, level: u8) -> Reply
        ensures { let on = slice_get self.old.threads thread in
            record { world = self.new; reply = result }
            ≡ cancel_word self.old thread packet (irql_of_level level) on }
    {
        let idle = match self.thread_list.get(thread as usize) {
            Some(canceller) => canceller.is_idle(),
            None => return Reply::Refused,
        };
        let Some(level) = irql_of(level) else {
            return Reply::Refused;
        };
        if !idle || !self.shared.is_issued(packet) {
            return Reply::Refused;
        }
        let Some(key) = self.shared.find(packet) else {
            return Reply::Finished;
        };
        let cancels = Managing::Cancels {
            key,
            number: packet,
            next: CancelStep::Acquire,
        };
        self.thread_list[thread as usize].begin(level, Over::Manager(cancels));
        Reply::Started(packet)
    }

    /// A device interrupts: its DPC is queued.
    fn interrupt(&mut self, set: &DriverSet, device: u8) -> Reply
        ensures { record { world = self.new; reply = result }
            ≡ interrupt_word self.old device (dpc_of set.now device) }
    {
        if set.dpc(device).is_none() {
            return Reply::Refused;
        }
        if self.shared.is_queued(device) {
            return Reply::Idle;
        }
        self.shared.set_queued(device, true);
        Reply::Stepped
    }

    /// The DPC of a device is taken off, and its routine begins on an idle thread.
    fn begin_dpc(&mut self, set: &DriverSet, thread: u8, device: u8) -> Reply
        ensures { let on = slice_get self.old.threads thread in
            record { world = self.new; reply = result }
            ≡ dpc_word set.now self.old thread device on (dpc_of set.now device) }
    {
        let idle = match self.thread_list.get(thread as usize) {
            Some(runner) => runner.is_idle(),
            None => return Reply::Refused,
        };
        let Some(routine) = set.dpc(device) else {
            return Reply::Refused;
        };
        if !idle {
            return Reply::Refused;
        }
        if !self.shared.is_queued(device) {
            return Reply::Idle;
        }
        self.shared.set_queued(device, false);
        let root = routine_of(driver_of(set, device), routine, device, 0);
        self.thread_list[thread as usize].begin(Irql::Dispatch, root);
        Reply::Stepped
    }

    /// A device's StartIo routine begins on an idle thread, for the first packet of its start list.
    fn begin_startio(&mut self, set: &DriverSet, thread: u8, device: u8) -> Reply
        ensures { let on = slice_get self.old.threads thread in
            record { world = self.new; reply = result }
            ≡ startio_word set.now self.old thread device on (startio_of set.now device) }
    {
        let idle = match self.thread_list.get(thread as usize) {
            Some(runner) => runner.is_idle(),
            None => return Reply::Refused,
        };
        let Some(routine) = set.startio(device) else {
            return Reply::Refused;
        };
        if !idle {
            return Reply::Refused;
        }
        if !self.shared.has_device(device) {
            return Reply::Refused;
        }
        let Some(key) = self.shared.first_to_start(device) else {
            return Reply::Idle;
        };
        let packet = self.shared.named(key);
        let _key = self.shared.start_io(device);
        let root = routine_of(driver_of(set, device), routine, device, key);
        self.thread_list[thread as usize].begin(Irql::Dispatch, root);
        Reply::Started(packet)
    }
}
