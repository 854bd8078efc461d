//! The events of a schedule, a byte for most of them.

ghost use Rattle.std.specs.Prelude.{◌≡◌, nat_eq, false, ◌+◌, ◌^◌, ◌<◌, ◌≤◌, ◌++◌, ◌∷◌, [], length};
ghost use Rattle.std.specs.Prelude.{replicate, is_ok, IfSome, MatchOption, OnOk, if◌then◌else◌};
ghost use Rattle.model.specs.declared.event.Event.TheVariants.{Step};
ghost use Rattle.interleave.specs.Events.{listed, marks};

use crate::kept::{Kept, is_kept};
use crate::read::Repeated;
use model::event::Event;
use std::alloc::{AllocError, Global};
use std::marker::Model;

/// The events of a schedule, in order. Contracts see the list of them. A step is a byte, the number
/// of its thread; all others are kept beside the bytes, each with how often it happens, and have a
/// mark among the bytes.
#[derive(Drop)]
pub struct Events {
    bytes: Vec<u8>,
    others: Vec<Kept>,
    count: usize,
}

/// The byte that stands for the next of the others, and for no step.
const MARK: u8 = 255;

/// The most steps of a line that are kept as bytes; more of them are one of the others.
const FEW: usize = 32;

/// The most equal bytes in a row that are taken one by one; more of them are taken as a run.
const SHORT: usize = 8;

impl Model for Events {
    ghost use Rattle.std.specs.Prelude.{◌≡◌, List, length};
    ghost use Rattle.model.specs.declared.event.Event.{Event};
    ghost use Rattle.interleave.specs.Events.{listed, marks};

    ghost Value = { List Event };

    ghost view = { λ events. listed events.bytes.items events.others.items };

    ghost invariant = { λ events. (events.count ≡ length (listed events.bytes.items
        events.others.items)) × (marks events.bytes.items ≡ length events.others.items) };
}

impl Events {
    /// No events.
    pub fn new(alloc: Global) -> Events
        ensures { result ≡ [] }
    {
        Events {
            bytes: Vec::new(alloc),
            others: Vec::new(alloc),
            count: 0,
        }
    }

    /// How many events there are.
    pub fn len(&self) -> usize
        ensures { result ≡ length self.now }
    {
        self.count
    }

    /// Adds an event as many times as it happens.
    ///
    /// # Errors
    ///
    /// When memory runs out.
    pub fn push(&mut self, repeated: Repeated) -> Result<(), AllocError>
        requires { length self.old + repeated.count < 2 ^ 64 }
        ensures { OnOk result (self.new ≡ self.old ++ replicate repeated.count repeated.event) }
    {
        if is_kept(&repeated) {
            return self.push_kept(Kept::of(repeated));
        }
        let event = repeated.event;
        for _ in 0..repeated.count {
            self.push_kept(Kept::of(Repeated { event, count: 1 }))?;
        }
        Ok(())
    }

    /// Adds an event as many times as it happens.
    ///
    /// # Errors
    ///
    /// When memory runs out.
    pub(crate) fn push_kept(&mut self, kept: Kept) -> Result<(), AllocError>
        requires { length self.old + kept.count < 2 ^ 64 }
        ensures { OnOk result (self.new ≡ self.old ++ replicate kept.count kept.event) }
    {
        let count = kept.count();
        add(&mut self.bytes, &mut self.others, kept)?;
        self.count += count;
        Ok(())
    }

    /// Adds one step of a thread.
    ///
    /// # Errors
    ///
    /// When memory runs out.
    #[inline]
    pub(crate) fn push_step(&mut self, thread: u8) -> Result<(), AllocError>
        requires thread { thread < 255 }
        requires fits { length self.old + 1 < 2 ^ 64 }
        ensures { OnOk result (self.new ≡ self.old ++ Step thread ∷ []) }
    {
        self.bytes.push(thread)?;
        self.count += 1;
        Ok(())
    }

    /// All events, to be taken in their order.
    pub fn upcoming(&self) -> Upcoming<'_>
        ensures { result ≡ self.now }
    {
        Upcoming {
            bytes: self.bytes.as_slice(),
            others: self.others.as_slice(),
        }
    }
}

/// Adds an event as many times as it happens; where memory runs out, nothing.
fn add(bytes: &mut Vec<u8>, others: &mut Vec<Kept>, kept: Kept) -> Result<(), AllocError>
    requires { marks bytes.old.items ≡ length others.old.items }
    ensures marked { marks bytes.new.items ≡ length others.new.items }
    ensures listed { listed bytes.new.items others.new.items
        ≡ listed bytes.old.items others.old.items
        ++ replicate (if is_ok result then kept.count else 0) kept.event }
{
    match stepped(&kept) {
        Some(thread) => push_copies(bytes, thread, kept.count()),
        None => push_other(bytes, others, kept),
    }
}

/// The thread of steps that are kept as bytes.
fn stepped(kept: &Kept) -> Option<u8>
    ensures { IfSome result (λ thread. (nat_eq thread 255 ≡ false)
        × (kept.now.event ≡ Step thread) × (kept.now.count ≤ 32)) }
{
    match kept.event() {
        Event::Step { thread } if thread < MARK && kept.count() <= FEW => Some(thread),
        _ => None,
    }
}

/// Adds a byte so many times.
fn push_copies(bytes: &mut Vec<u8>, byte: u8, count: usize) -> Result<(), AllocError>
    requires { count ≤ 32 }
    ensures { bytes.new.items ≡ bytes.old.items
        ++ replicate (if is_ok result then count else 0) byte }
{
    if count == 1 {
        bytes.push(byte)?;
        return Ok(());
    }
    bytes.resize(bytes.len() + count, byte)
}

/// Adds one of the others, and its mark.
fn push_other(bytes: &mut Vec<u8>, others: &mut Vec<Kept>, kept: Kept) -> Result<(), AllocError>
    ensures bytes { bytes.new.items ≡ (if is_ok result then bytes.old.items ++ 255 ∷ []
        else bytes.old.items) }
    ensures others { others.new.items ≡ (if is_ok result then others.old.items ++ kept ∷ []
        else others.old.items) }
{
    others.push(kept)?;
    if let Err(refused) = bytes.push(MARK) {
        let _back = others.pop();
        return Err(refused.into());
    }
    Ok(())
}

/// Events that are still to come, in order.
#[derive(Drop)]
pub struct Upcoming<'a> {
    bytes: &'a [u8],
    others: &'a [Kept],
}

impl<'a> Model for Upcoming<'a> {
    ghost use Rattle.std.specs.Prelude.{List};
    ghost use Rattle.model.specs.declared.event.Event.{Event};
    ghost use Rattle.interleave.specs.Events.{listed};

    ghost Value = { List Event };

    ghost view = { λ u. listed u.bytes.now u.others.now };
}

impl Upcoming<'_> {
    /// Takes the next event, if it is one that happens once: a step that is kept as a byte, where
    /// no long run of equal bytes begins, or one of the others.
    #[inline]
    pub fn next_single(&mut self) -> Option<Event>
        ensures { MatchOption result (self.new ≡ self.old)
            (λ event. self.old ≡ event ∷ self.new) }
    {
        let (byte, bytes) = self.bytes.split_first()?;
        let thread = *byte;
        if thread == MARK {
            let (next, others) = self.others.split_first()?;
            if next.count() != 1 {
                return None;
            }
            self.bytes = bytes;
            self.others = others;
            return Some(next.event());
        }
        if bytes.first() == Some(byte) && bytes.get(SHORT - 1) == Some(byte) {
            return None;
        }
        self.bytes = bytes;
        Some(Event::Step { thread })
    }

    /// Takes the next event and some of those that follow and are equal to it, if there is one:
    /// steps of one thread that are kept as bytes, or one of the others as often as it happens.
    pub fn next_run(&mut self) -> Option<Repeated>
        ensures { MatchOption result (self.old ≡ []) (λ run. (1 ≤ run.count)
            × (self.old ≡ replicate run.count run.event ++ self.new)) }
    {
        while let Some((byte, bytes)) = self.bytes.split_first() {
            let thread = *byte;
            if thread != MARK {
                let (again, rest) = split_run(thread, bytes);
                self.bytes = rest;
                let event = Event::Step { thread };
                return Some(Repeated {
                    event,
                    count: again + 1,
                });
            }
            self.bytes = bytes;
            if let Some((next, others)) = self.others.split_first() {
                self.others = others;
                let count = next.count();
                if count > 0 {
                    return Some(Repeated {
                        event: next.event(),
                        count,
                    });
                }
            }
        }
        None
    }
}

/// How often a byte stands at the head of these, and what stands after that.
fn split_run(byte: u8, bytes: &[u8]) -> (usize, &[u8])
    ensures equal { bytes.now ≡ replicate result.0 byte ++ result.1.now }
    ensures few { result.0 ≤ length bytes.now }
{
    for (i, next) in bytes.iter().enumerate() {
        if *next != byte {
            return (i, &bytes[i..]);
        }
    }
    (bytes.len(), &[])
}
