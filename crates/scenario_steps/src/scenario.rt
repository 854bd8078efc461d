//! What a scenario is.

use crate::steps::Steps;
use model::status::Major;
use scenario_expected::expectation::Expectation;
use scenario_names::names::Spot;

/// Threads of a run, what happens, and what is expected of it.
#[derive(Drop)]
pub struct Scenario {
    /// How many threads the run has, 1 to `MAX_THREADS`.
    pub threads: u8,
    /// At most `MAX_STEPS` steps, in order.
    pub steps: Steps,
}

/// Steps of a scenario, at most.
pub const MAX_STEPS: usize = 65_536;

/// Worlds that are met where threads run in every interleaving, at most; where a line doesn't say.
pub const MAX_WORLDS: u64 = 1_000_000;

pub const USUAL_WORLDS: u64 = 100_000;

/// A step.
#[derive(Clone, Copy)]
pub struct Step {
    /// The number of its line, counted from 1.
    pub line: u64,
    /// Whether it may be refused, or find nothing to do.
    pub may: bool,
    pub action: Action,
}

/// What a step does. A packet is named by the number of the step that issues it, among those that
/// issue one, counted from 0.
#[derive(Clone, Copy)]
pub enum Action {
    /// A request arrives.
    Issue {
        thread: u8,
        device: u8,
        major: Major,
        argument: u64,
    },
    /// IoCancelIrp is called for a packet, at a level.
    Cancel {
        thread: u8,
        packet: u16,
        level: u8,
    },
    /// A device interrupts.
    Interrupt(u8),
    /// The DPC of a device begins.
    Dpc {
        thread: u8,
        device: u8,
    },
    /// The StartIo routine of a device begins.
    StartIo {
        thread: u8,
        device: u8,
    },
    /// A thread makes so many steps, at most 1,000,000.
    Steps {
        thread: u8,
        count: u64,
    },
    /// A thread makes steps until it is idle or waits.
    Run(u8),
    /// A thread makes steps until its next one is that of an instruction.
    RunTo {
        thread: u8,
        spot: Spot,
    },
    /// A thread makes steps until its next one releases this spin lock of its device.
    RunToRelease {
        thread: u8,
        lock: u8,
    },
    /// The threads make steps in turn, until each is idle or waits.
    RunAll,
    /// These of the threads, by their numbers, make steps until each is idle or waits, in every
    /// interleaving: so many worlds are met at most.
    Together {
        threads: [bool; 64],
        worlds: u64,
    },
    /// Nothing happens, and something is expected.
    Expect(Expectation),
}
