//! A queue of commands, one call after another. What a command is called, and that each is taken
//! once and in order, is said by contracts; no clause says that one is put, or taken, where it can.

ghost use Rattle.std.specs.Prelude.{◌≡◌};
ghost use Rattle.intake.specs.Ends.{AreTakersOf};

use crate::served::{last_submitter, queue_of};
use crate::sets::{READ, core_of};
use hostcore::Core;
use intake::{Intake, Submitter, Taker};
use std::alloc::Global;
use std::process::Abort;
use std::sync::Wait;
use tests_vectors::ONE_READ_TEXT;

/// A queue with its one submitter and its one taker, beside the core that its commands are for.
#[derive(Drop)]
struct Market {
    core: Core,
    intake: Intake,
    submitter: Submitter,
    taker: Taker,
    ghost puts: { submitter.queue ≡ intake },
    ghost takes: { taker.queue ≡ intake },
}

/// What is done with a queue, or asked of it.
enum Step {
    Put,
    Take,
    Close,
    IsClosed,
}

/// The last of the takers.
fn last_taker<R: Abort>(rt: &R, intake: &Intake, takers: &mut Vec<Taker>) -> Taker
    requires all { AreTakersOf intake.now takers.old.items }
    ensures queue { result.queue ≡ intake.now }
{
    match takers.pop() {
        Some(last) => last,
        None => panic!(rt; "a taker"),
    }
}

impl Market {
    /// A queue with room for two commands.
    fn open<R: Abort>(rt: &R, alloc: Global) -> Market {
        let core = core_of(rt, alloc, ONE_READ_TEXT, 1, 1);
        let (intake, mut submitters, mut takers) = queue_of(rt, alloc, 2, 1, 1);
        let submitter = last_submitter(rt, &intake, &mut submitters);
        let taker = last_taker(rt, &intake, &mut takers);
        Market {
            core,
            intake,
            submitter,
            taker,
        }
    }

    /// Whether a step can be done, or is so.
    fn does<R: Wait>(&mut self, rt: &R, step: &Step) -> bool {
        match step {
            Step::Put => self.puts(rt),
            Step::Take => self.takes(rt),
            Step::Close => {
                self.intake.close();
                true
            }
            Step::IsClosed => self.intake.closed(),
        }
    }

    /// Whether a command is put.
    fn puts<R: Wait>(&mut self, rt: &R) -> bool {
        match self.submitter.submit(rt, &self.intake, READ) {
            Ok(ticket) => {
                self.core.abandon(ticket);
                true
            }
            Err(_command) => false,
        }
    }

    /// Whether a command is taken.
    fn takes<R: Wait>(&mut self, rt: &R) -> bool {
        match self.taker.take(rt, &self.intake) {
            Some(taken) => {
                let _command = taken.give_up();
                true
            }
            None => false,
        }
    }
}

/// What is done with the queue in turn, each with whether it can be.
static STEPS: [(Step, bool); 22] = [
    (Step::Take, false),
    (Step::Put, true),
    (Step::Put, true),
    (Step::Put, false),
    (Step::Take, true),
    (Step::Put, true),
    (Step::Put, false),
    (Step::Take, true),
    (Step::Take, true),
    (Step::Take, false),
    (Step::IsClosed, false),
    (Step::Put, true),
    (Step::Put, true),
    (Step::Close, true),
    (Step::IsClosed, true),
    (Step::Put, false),
    (Step::Take, true),
    (Step::Put, false),
    (Step::Take, true),
    (Step::Take, false),
    (Step::Put, false),
    (Step::IsClosed, true),
];

/// A full queue hands a command back. A closed queue hands commands back, and what was put before
/// is taken.
#[test]
fn a_full_or_closed_queue_hands_commands_back(rt: HostRuntime) {
    let mut market = Market::open(&rt, rt.alloc());
    for (step, is_done) in STEPS.iter() {
        assert!(rt; market.does(&rt, step) == *is_done);
    }
}
