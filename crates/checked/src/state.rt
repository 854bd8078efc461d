//! What a machine holds beside the set that it runs.

ghost use Rattle.std.specs.Prelude.{◌≡◌, ◌<◌, ◌≤◌, false, length, IfOk};
ghost use Rattle.checked.specs.GoingOn.{GoesNoFurther, GoesUpTo};
ghost use Rattle.checked.specs.Step.{machine_of, state_now};
ghost use Rattle.model.specs.Machine.{AppliesWhole};
ghost use Rattle.model.specs.Sound.{IsSound};
ghost use Rattle.model.specs.View.{due_at, packet_at, thread_at};
ghost use Rattle.model.specs.World.{opening};

use crate::system::System;
use crate::thread::Thread;
use checked_parts::Shared;
use driver_set::DriverSet;
use irql_locks::owning_tells;
use laws_runs::the_past_tells_of_the_world;
use model::event::{Event, Place, Reply};
use model::memory::OutOfMemory;
use model::view::{PacketView, ThreadView};
use std::alloc::Global;
use std::marker::Model;

/// The state of a run: its world, and whether it has stopped. Whose machine it is holds the driver
/// set.
#[derive(Drop)]
pub struct State {
    current: System,
    halted: bool,
}

impl Model for State {
    ghost use Rattle.checked.specs.Step.{State};

    ghost Value = { State };

    ghost view = { λ s. record { world = s.current; stopped = s.halted } };
}

impl State {
    /// Before the first event, on so many threads. All memory that a run ever needs is taken here.
    pub fn new(alloc: Global, set: &DriverSet, threads: u8) -> Result<State, OutOfMemory>
        ensures state { let first = opening (length set.now.devices) threads in
            IfOk result (λ state. state ≡ record { world = first; stopped = false }) }
        ensures sound { IsSound set.now }
    {
        match System::new(alloc, set.devices().len(), threads) {
            Ok(current) => Ok(State {
                current,
                halted: false,
            }),
            Err(_refused) => Err(OutOfMemory),
        }
    }

    /// Applies an event, and answers as the run of the set does that this state shows. After a bug
    /// check or a wrong operand it has stopped, and refuses every event.
    pub fn apply(&mut self, set: &DriverSet, event: &Event) -> Reply
        requires { IsSound set.now }
        ensures { let before = machine_of set.now self.old in
            AppliesWhole before event.now (machine_of set.now self.new) result }
    {
        the_past_tells_of_the_world();
        owning_tells();
        self.advance(set, event)
    }

    /// Lets the routine on the top of a thread go on by itself for at most so many steps, up to a
    /// place, if one is given, and answers how many. Fewer only where it is there or can't go on,
    /// and none after the run has stopped.
    pub fn go_on(
        &mut self,
        set: &DriverSet,
        thread: u8,
        count: usize,
        until: &Option<Place>,
    ) -> usize
        requires { IsSound set.now }
        ensures few { result ≤ count }
        ensures goes { GoesUpTo until.now thread (machine_of set.now self.old) result
            (machine_of set.now self.new) }
        ensures far { result < count
            → GoesNoFurther until.now thread (machine_of set.now self.new) }
    {
        if self.halted {
            return 0;
        }
        the_past_tells_of_the_world();
        owning_tells();
        self.current.go_on(set, thread, count, until)
    }

    /// The same by what the state holds, and not by the trace of its run.
    fn advance(&mut self, set: &DriverSet, event: &Event) -> Reply
        ensures { record { state = self.new; reply = result }
            ≡ state_now set.now self.old event.now }
    {
        if self.halted {
            return Reply::Refused;
        }
        let reply = self.current.perform(set, event);
        self.halted = matches!(reply, Reply::Bug(_) | Reply::Wrong(_));
        reply
    }

    /// Whether it has stopped, at a bug check or a wrong operand.
    pub fn stopped(&self) -> bool
        ensures { result ≡ self.now.stopped }
    {
        self.halted
    }

    /// The threads, by their numbers.
    pub fn threads(&self) -> &[Thread]
        ensures { result.now ≡ self.now.world.threads }
    {
        self.current.threads()
    }

    /// What the threads share.
    pub fn shared(&self) -> &Shared
        ensures { result.now ≡ self.now.world.shared }
    {
        self.current.shared()
    }

    /// What there is to tell of a thread, if there is one of this number.
    pub fn thread(&self, number: u8) -> Option<ThreadView>
        ensures { result ≡ thread_at self.now.world number }
    {
        self.current.thread(number)
    }

    /// What there is to tell of the packet of a number.
    pub fn packet(&self, number: u64) -> PacketView
        ensures { result ≡ packet_at self.now.world number }
    {
        self.current.packet(number)
    }

    /// What is due of a device: whether its start list has a packet, so that its StartIo routine
    /// has to begin, and whether its DPC is queued. Neither where there is no such device.
    pub fn due(&self, device: u8) -> (bool, bool)
        ensures { result ≡ due_at self.now.world device }
    {
        self.current.due(device)
    }
}
