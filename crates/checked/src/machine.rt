//! The reference machine.

ghost use Rattle.std.specs.Prelude.{◌≡◌, ◌<◌, ◌≤◌, [], None, Some, IfOk, IfErr};
ghost use Rattle.checked.specs.GoingOn.{GoesNoFurther, GoesOn, GoesUpTo};
ghost use Rattle.model.specs.declared.limits.TheConstants.{MAX_THREADS};
ghost use Rattle.model.specs.Machine.{ShowsWhole, AppliesWhole};
ghost use Rattle.model.specs.Sound.{IsSound};
ghost use Rattle.model.specs.Typable.{IsTypable};
ghost use Rattle.model.specs.View.{due_at, packet_at, thread_at};
ghost use Rattle.laws_runs.specs.Rules.{KeepsTheRules};

use crate::state::State;
use crate::thread::Thread;
use checked_parts::Shared;
use driver_set::DriverSet;
use laws_runs::accepted_runs_keep_the_rules;
use model::event::{Event, Place, Reply};
use model::memory::OutOfMemory;
use model::view::{PacketView, ThreadView};
use std::alloc::Global;
use std::marker::Model;

/// A machine that runs a driver set, event by event, with every test.
#[derive(Drop)]
pub struct Checked {
    driver_set: DriverSet,
    state: State,
}

impl Model for Checked {
    ghost use Rattle.model.specs.Machine.{Machine};
    ghost use Rattle.model.specs.Sound.{IsSound};
    ghost use Rattle.checked.specs.Step.{machine_of};

    ghost Value = { Machine };

    ghost view = { λ c. machine_of c.driver_set c.state };

    ghost invariant = { λ c. IsSound c.driver_set };
}

impl Checked {
    /// A machine that runs the set on so many threads, 1 to 64, before the first event. All memory
    /// that it ever needs is taken here: the set comes back where some of it is refused.
    pub fn new(
        alloc: Global,
        set: DriverSet,
        threads: u8,
    ) -> Result<Checked, (DriverSet, OutOfMemory)>
        requires some { 1 ≤ threads }
        requires few { threads ≤ MAX_THREADS }
        ensures set { IfOk result (λ machine. machine.set ≡ set) }
        ensures sound { IfOk result (λ machine. IsSound machine.set) }
        ensures shows { IfOk result (λ machine. ShowsWhole machine threads []) }
        ensures back { IfErr result (λ refused. refused.0 ≡ set) }
    {
        match State::new(alloc, &set, threads) {
            Ok(state) => Ok(Checked {
                driver_set: set,
                state,
            }),
            Err(refused) => Err((set, refused)),
        }
    }

    /// Applies an event, and answers as the run does that this machine shows. After a bug check or
    /// a wrong operand it has stopped, and refuses every event.
    pub fn apply(&mut self, event: &Event) -> Reply
        ensures { AppliesWhole self.old event.now self.new result }
    {
        self.state.apply(&self.driver_set, event)
    }

    /// Lets the routine on the top of a thread make steps by itself, at most `count`, and answers
    /// how many it made: the machine is then as after so many steps of the thread, each of which
    /// replies that it stepped. It makes fewer only where no other step is like that: it ends
    /// before the first instruction that may change anything but its activation, or whose operands
    /// are wrong; it makes none where no routine stands on the top, or where the machine has
    /// stopped.
    pub fn go_on(&mut self, thread: u8, count: usize) -> usize
        ensures few { result ≤ count }
        ensures goes { GoesOn thread self.old result self.new }
        ensures far { result < count → GoesNoFurther None thread self.new }
    {
        self.state.go_on(&self.driver_set, thread, count, &None)
    }

    /// The same up to a place: it makes no step of the instruction there, and fewer than `count`
    /// also where the routine has come to it.
    pub fn go_up_to(&mut self, thread: u8, count: usize, place: Place) -> usize
        ensures few { result ≤ count }
        ensures goes { GoesOn thread self.old result self.new }
        ensures short { GoesUpTo (Some place) thread self.old result self.new }
        ensures far { result < count → GoesNoFurther (Some place) thread self.new }
    {
        self.state
            .go_on(&self.driver_set, thread, count, &Some(place))
    }

    /// Whether it has stopped, at a bug check or a wrong operand.
    pub fn stopped(&self) -> bool
        ensures { result ≡ self.now.stopped }
    {
        self.state.stopped()
    }

    /// The set that it runs.
    pub fn set(&self) -> &DriverSet
        ensures { result.now ≡ self.now.set }
    {
        &self.driver_set
    }

    /// The threads, by their numbers.
    pub fn threads(&self) -> &[Thread]
        ensures { result.now ≡ self.now.world.threads }
    {
        self.state.threads()
    }

    /// What the threads share.
    pub fn shared(&self) -> &Shared
        ensures { result.now ≡ self.now.world.shared }
    {
        self.state.shared()
    }

    /// What there is to tell of a thread, if there is one of this number.
    pub fn thread(&self, number: u8) -> Option<ThreadView>
        ensures { result ≡ thread_at self.now.world number }
    {
        self.state.thread(number)
    }

    /// What there is to tell of the packet of a number.
    pub fn packet(&self, number: u64) -> PacketView
        ensures { result ≡ packet_at self.now.world number }
    {
        self.state.packet(number)
    }

    /// What is due of a device: whether its start list has a packet, so that its StartIo routine
    /// has to begin, and whether its DPC is queued. Neither where there is no such device.
    pub fn due(&self, device: u8) -> (bool, bool)
        ensures { result ≡ due_at self.now.world device }
    {
        self.state.due(device)
    }

    /// The machine after these events over so many threads, 1 to 64. Where the set is typable, as
    /// an accepted one is, its run keeps the rules: among them that no operand is of a wrong kind,
    /// that locks and levels are kept, and that each activation is within its certificate. The set
    /// comes back where memory is refused.
    pub fn run(
        alloc: Global,
        set: DriverSet,
        threads: u8,
        events: &[Event],
    ) -> Result<Checked, (DriverSet, OutOfMemory)>
        requires some { 1 ≤ threads }
        requires few { threads ≤ MAX_THREADS }
        ensures set { IfOk result (λ machine. machine.set ≡ set) }
        ensures shows { IfOk result (λ machine. ShowsWhole machine threads events.now) }
        ensures rules { IfOk result (λ machine. IsTypable set → KeepsTheRules set threads
            events.now) }
        ensures back { IfErr result (λ refused. refused.0 ≡ set) }
    {
        accepted_runs_keep_the_rules();
        let mut machine = match Checked::new(alloc, set, threads) {
            Ok(machine) => machine,
            Err(refused) => return Err(refused),
        };
        for event in events {
            let _reply = machine.apply(event);
        }
        Ok(machine)
    }
}
