//! The rule of the queue: what each pass knows, and what each step does to that.

use crossbeam_queue::protocol::{Join, Lesson, Outcome, Protocol, Split};
use crossbeam_queue::{Pass, RuledArrayQueue};
use hostcore::Queued;
use std::collections::LinkedList;

/// What the pass of a submitter or a taker knows. No value of it is made.
pub struct Hand {
    /// Its number among the passes of the queue.
    pub number: u64,
    /// Of the pass with number 0: how many passes there are.
    pub passes: u64,
    /// Its shares of the queue.
    pub shares: u64,
    /// The commands that were put with it.
    pub put: LinkedList<Queued>,
    /// The commands that were taken with it.
    pub taken: LinkedList<Queued>,
}

/// The rule of the queue.
pub struct Fair;

impl Protocol<Queued, Hand> for Fair {
    ghost use Rattle.intake.specs.Rule.{IsFair, first_hand};

    ghost holds = { IsFair };

    ghost first = { first_hand };
}

/// Cuts the pass of one more submitter or taker off.
pub struct Cut;

impl Split<Hand> for Cut {
    ghost use Rattle.intake.specs.Rule.{cut_from, cut_off};

    ghost left = { cut_from };

    ghost right = { cut_off };
}

impl Join<Hand> for Cut {
    ghost use Rattle.intake.specs.Rule.{joined, spent};

    ghost both = { joined };

    ghost spent = { spent };
}

/// A command is put.
pub struct Puts;

impl Outcome<Queued, Hand> for Puts {
    ghost use Rattle.intake.specs.Rule.{Put};

    ghost then = { Put };
}

impl Lesson<Queued, Hand> for Puts {
    ghost fact = { λ v items. Unit {0} };
}

/// A command is taken.
pub struct Takes;

impl Outcome<Queued, Hand> for Takes {
    ghost use Rattle.intake.specs.Rule.{Take};

    ghost then = { Take };
}

impl Lesson<Queued, Hand> for Takes {
    ghost use Rattle.intake.specs.Rule.{Adds};

    ghost fact = { Adds };
}

/// The queue of commands.
pub type Line = RuledArrayQueue<Queued, Hand, Fair>;

/// What one submitter or taker knows of it.
pub type Known = Pass<Queued, Hand>;
