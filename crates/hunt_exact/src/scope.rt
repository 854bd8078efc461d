//! What is searched.

ghost use Rattle.std.specs.Prelude.{◌≡◌, ◌≤◌};
ghost use Rattle.model.specs.declared.limits.TheConstants.{MAX_THREADS};

use driver_set::DriverSet;
use hunt_facts::facts::Facts;
use model::event::Event;
use std::marker::Model;

/// What is searched: the runs of a set on so many threads, 1 to `MAX_THREADS`, whose events are
/// some of these, and which issue so many packets at most in all.
#[derive(Drop)]
pub(crate) struct Scope {
    driver_set: DriverSet,
    thread_count: u8,
    packet_count: u64,
    move_list: Vec<Event>,
    known: Facts,
}

impl Model for Scope {
    ghost use Rattle.std.specs.Prelude.{◌≤◌};
    ghost use Rattle.hunt_exact.specs.Within.{Scope};
    ghost use Rattle.model.specs.declared.limits.TheConstants.{MAX_THREADS};

    ghost Value = { Scope };

    ghost view = { λ s. record {
      set = s.driver_set;
      threads = s.thread_count;
      packets = s.packet_count;
      moves = s.move_list.items;
    } };

    ghost invariant = { λ s. (1 ≤ s.thread_count) × (s.thread_count ≤ MAX_THREADS) };
}

impl Scope {
    /// The runs of a set on so many threads, with these events and so many packets.
    pub(crate) fn of(
        set: DriverSet,
        threads: u8,
        packets: u64,
        moves: Vec<Event>,
        known: Facts,
    ) -> Scope
        requires some { 1 ≤ threads }
        requires few { threads ≤ MAX_THREADS }
        ensures { result ≡ record {
          set = set;
          threads = threads;
          packets = packets;
          moves = moves.items;
        } }
    {
        Scope {
            driver_set: set,
            thread_count: threads,
            packet_count: packets,
            move_list: moves,
            known,
        }
    }

    /// The set.
    pub(crate) fn set(&self) -> &DriverSet
        ensures { result.now ≡ self.now.set }
    {
        &self.driver_set
    }

    /// How many threads there are.
    pub(crate) fn threads(&self) -> u8
        ensures threads { result ≡ self.now.threads }
        ensures some { 1 ≤ result }
        ensures few { result ≤ MAX_THREADS }
    {
        self.thread_count
    }

    /// How many packets may be issued in all.
    pub(crate) fn packets(&self) -> u64
        ensures { result ≡ self.now.packets }
    {
        self.packet_count
    }

    /// The events that are tried.
    pub(crate) fn moves(&self) -> &[Event]
        ensures { result.now ≡ self.now.moves }
    {
        self.move_list.as_slice()
    }

    /// What is known of the set.
    pub(crate) fn facts(&self) -> &Facts {
        &self.known
    }
}
