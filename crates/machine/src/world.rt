//! The world of an accepted driver set.

ghost use Rattle.std.specs.Prelude.{◌≡◌, ◌≢◌, ◌≤◌, ◌<◌, List, [], IfOk, IfErr, option_map};
ghost use Rattle.machine.specs.Read.{cells_at, field_at, owner_at};
ghost use Rattle.machine.specs.Registers.{LendsWords};
ghost use Rattle.machine.specs.Runs.{GoesOn, RestKept, RulesKept, StepsThreads, TellsOf};
ghost use Rattle.machine.specs.Slots.{HasSlots, number_at};
ghost use Rattle.machine.specs.Steps.{MakesSteps, Stepping};
ghost use Rattle.model.specs.declared.event.Event.{Event};
ghost use Rattle.model.specs.declared.event.Event.TheVariants.{Step};
ghost use Rattle.model.specs.declared.event.Reply.TheVariants.{Stepped};
ghost use Rattle.model.specs.declared.limits.TheConstants.{MAX_THREADS};
ghost use Rattle.model.specs.Machine.{Applies, Shows};
ghost use Rattle.model.specs.View.{due_at, packet_at, thread_at};
ghost use Rattle.laws_runs.specs.Rules.{KeepsTheRules};
ghost use Rattle.laws_runs.specs.Rest.{ComesToRest};

use crate::Slots;
use driver_set::DriverSet;
use laws_runs::{accepted_runs_come_to_rest, accepted_runs_keep_the_rules};
use laws_slots::{
    free_words_mean_the_beginning, slots_show_what_they_mean, word_events_fit,
    word_events_show_runs, words_mean_what_they_show, words_show_what_they_mean,
    words_tell_as_slots, words_tell_registers,
};
use model::event::{Event, Lock, Reply};
use model::instr::Field;
use model::limits::REGISTERS;
use model::memory::OutOfMemory;
use model::view::{PacketView, ThreadView};
use model::world::Cells;
use std::alloc::Global;
use std::marker::Model;
use verifier::Accepted;

/// Fewer steps than these are made one by one: in so few a routine seldom goes on by itself for
/// long enough to be worth the look.
const ENOUGH_STEPS: usize = 16;

/// Steps of a thread that were made one after another.
#[derive(Clone, Copy)]
pub struct Steps {
    /// How many were made.
    pub made: usize,
    /// The reply to the last of them; `Stepped` where none was made.
    pub last: Reply,
}

/// The world of a run of an accepted driver set: its threads, packets and devices. Contracts see
/// what it shows of them.
#[derive(Drop)]
pub struct World {
    accepted: Accepted,
    slots: Slots,
}

impl Model for World {
    ghost use Rattle.machine.specs.Runs.{IsMeant};
    ghost use Rattle.model.specs.Shown.{Shown};
    ghost use Rattle.model.specs.Sound.{IsSound};
    ghost use Rattle.model.specs.Typable.{IsTypable};
    ghost use Rattle.laws_slots.specs.ShownWords.{shown_words};

    ghost Value = { Shown };

    ghost view = { λ w. shown_words w.accepted w.slots };

    ghost invariant = { λ w. IsTypable w.accepted
        × (IsSound w.accepted × IsMeant w.accepted w.slots) };
}

impl World {
    /// The world before the first event, with so many threads, 1 to 64. All memory that it ever
    /// needs is taken here: the set comes back where some of it is refused.
    pub fn new(
        alloc: Global,
        accepted: Accepted,
        threads: u8,
    ) -> Result<World, (Accepted, OutOfMemory)>
        requires some { 1 ≤ threads }
        requires few { threads ≤ MAX_THREADS }
        ensures set { IfOk result (λ world. world.set ≡ accepted) }
        ensures shows { IfOk result (λ world. Shows world threads []) }
        ensures rules { IfOk result (λ world. (events : List Event)
            → KeepsTheRules accepted threads events) }
        ensures rests { IfOk result (λ world. (events : List Event)
            → ComesToRest accepted threads events) }
        ensures back { IfErr result (λ refused. refused.0 ≡ accepted) }
    {
        accepted_runs_keep_the_rules();
        accepted_runs_come_to_rest();
        free_words_mean_the_beginning();
        words_show_what_they_mean();
        let devices = accepted.set().devices().len();
        match Slots::new(alloc, devices, threads) {
            Ok(slots) => Ok(World { accepted, slots }),
            Err(_refused) => Err((accepted, OutOfMemory)),
        }
    }

    /// The set.
    pub fn set(&self) -> &DriverSet
        ensures { result.now ≡ self.now.set }
    {
        self.accepted.set()
    }

    /// Applies an event: a world that showed a run shows that run with the event added, and answers
    /// as it does. The run keeps the rules: no bug check, no wrong operand, no activation past its
    /// certificate; it comes to rest; and a step of a thread that it has is not refused.
    pub fn apply(&mut self, event: &Event) -> Reply
        ensures applies { Applies self.old event.now self.new result }
        ensures rules { RulesKept self.old event.now }
        ensures rests { RestKept self.old event.now }
        ensures goes_on { GoesOn self.old result }
        ensures steps { StepsThreads self.old event.now result }
    {
        accepted_runs_keep_the_rules();
        accepted_runs_come_to_rest();
        word_events_fit();
        word_events_show_runs();
        words_show_what_they_mean();
        words_mean_what_they_show();
        self.slots.apply(self.accepted.set(), event)
    }

    /// Makes steps of a thread, at most `count`: it ends after the first that replies otherwise
    /// than that the thread stepped. A world that showed a run shows that run with these steps
    /// added. As with `apply`, it goes on; and no step of a thread that it has is refused.
    pub fn steps(&mut self, thread: u8, count: usize) -> Steps
        ensures few { result.made ≤ count }
        ensures none { result.made ≡ 0 → result.last ≡ Stepped }
        ensures makes { MakesSteps self.old thread result.made self.new result.last }
        ensures all { result.made < count → result.last ≢ Stepped }
        ensures goes_on { GoesOn self.old result.last }
        ensures steps { StepsThreads self.old (Step thread) result.last }
    {
        let event = Event::Step { thread };
        let mut made = 0;
        while made < count {
            let last = self.apply(&event);
            made += 1;
            if !matches!(last, Reply::Stepped) {
                return Steps { made, last };
            }
            made += self.go_on(thread, count - made);
        }
        Steps {
            made,
            last: Reply::Stepped,
        }
    }

    /// Lets the routine on the top of a thread go on by itself for at most so many steps, and
    /// answers how many were made.
    fn go_on(&mut self, thread: u8, count: usize) -> usize
        ensures few { result ≤ count }
        ensures steps { Stepping self.old thread result self.new }
    {
        if count < ENOUGH_STEPS {
            return 0;
        }
        word_events_fit();
        word_events_show_runs();
        words_show_what_they_mean();
        words_mean_what_they_show();
        self.slots.go_on(self.accepted.set(), thread, count)
    }

    /// What there is to tell of a thread, if there is one of this number.
    pub fn thread(&self, number: u8) -> Option<ThreadView>
        ensures { TellsOf self.now (λ w. thread_at w number) result }
    {
        accepted_runs_keep_the_rules();
        words_show_what_they_mean();
        words_mean_what_they_show();
        slots_show_what_they_mean();
        words_tell_as_slots();
        self.slots.thread(number)
    }

    /// The words in the registers of the routine on the top of a thread: None unless there is such
    /// a thread, and a routine stands there. A word doesn't say what it is: a number stands for
    /// itself, a status as its 32-bit value, and a packet as the slot in which it stands, whose
    /// packet `number` tells. Where no instruction may take anything from a register, its word may
    /// be any.
    pub fn words(&self, thread: u8) -> Option<&[u64; REGISTERS]>
        ensures { LendsWords self.now thread (option_map (λ words. words.now) result) }
    {
        accepted_runs_keep_the_rules();
        words_show_what_they_mean();
        words_mean_what_they_show();
        words_tell_registers();
        self.slots.words(thread)
    }

    /// The number of the live packet in a slot. None where the slot has none. Each live packet
    /// stands in one slot, whoever has it, and in no other.
    pub fn number(&self, slot: u64) -> Option<u64>
        ensures number { result ≡ number_at self.now slot }
        ensures slots { HasSlots self.now }
    {
        words_show_what_they_mean();
        words_mean_what_they_show();
        self.slots.number(slot)
    }

    /// What there is to tell of the packet of a number.
    pub fn packet(&self, number: u64) -> PacketView
        ensures { TellsOf self.now (λ w. packet_at w number) result }
    {
        words_show_what_they_mean();
        words_mean_what_they_show();
        slots_show_what_they_mean();
        words_tell_as_slots();
        self.slots.shared().packet(number)
    }

    /// A field of the packet of a number, its major function and its argument those of its current
    /// location. None where no packet of this number is live.
    pub fn field(&self, number: u64, field: Field) -> Option<u64>
        ensures { TellsOf self.now (λ w. field_at w number field) result }
    {
        words_show_what_they_mean();
        self.slots.shared().field(number, field)
    }

    /// The number cells of a device, if there is one of this number.
    pub fn cells(&self, device: u8) -> Option<Cells>
        ensures { TellsOf self.now (λ w. cells_at w device) result }
    {
        words_show_what_they_mean();
        self.slots.shared().cells(device)
    }

    /// The thread that owns a lock, if there is such a lock: none while it is free.
    pub fn owner(&self, lock: Lock) -> Option<Option<u8>>
        ensures { TellsOf self.now (λ w. owner_at w lock) result }
    {
        words_show_what_they_mean();
        self.slots.shared().owner(lock)
    }

    /// What is due of a device: whether its start list has a packet, so that its StartIo routine
    /// has to begin, and whether its DPC is queued. Neither where there is no such device.
    pub fn due(&self, device: u8) -> (bool, bool)
        ensures { TellsOf self.now (λ w. due_at w device) result }
    {
        words_show_what_they_mean();
        words_mean_what_they_show();
        slots_show_what_they_mean();
        words_tell_as_slots();
        self.slots.due(device)
    }
}
