//! What became of a register that is blank where something is wanted of it, and which loops make a
//! count.

use crate::place::Scene;
use model::instr::Instr;
use model::set::Guard;
use std::alloc::Global;
use verifier_names::{add_lock, spin_number};
use verifier_reasons::{
    Act, Case, Fact, Locking, Plain, Queueing, Sending, Waiting, act_of, blank_register, is_held,
    lock_meant,
};
use words::Words;

/// Adds where the register went blank of which an instruction wants something, and why, where it
/// did so on the path there.
pub(crate) fn add_blanking(words: &mut Words, scene: &Scene<'_>, case: &Case<'_>) {
    if let Some(register) = blank_register(case.instr, case.state()) {
        words.add("r");
        words.add_number(register.index() as u64);
        match case.last_so(&Fact::Full(register)) {
            None => words.add(" was never set on this path\n"),
            Some(at) => {
                words.add(" went blank");
                words.add(why_blank(case.code.get(at as usize)));
                add_end(words, scene, " ", at)
            }
        }
    }
}

/// Adds words and the position that they are about.
fn add_end(words: &mut Words, scene: &Scene<'_>, before: &str, at: u16) {
    words.add(before);
    scene.add_position(words, at);
    words.add("\n")
}

/// Adds words on the position where something was so, or others where it never was.
fn add_since(words: &mut Words, scene: &Scene<'_>, at: Option<u16>, since: &str, never: &str) {
    match at {
        Some(at) => add_end(words, scene, since, at),
        None => words.add(never),
    }
}

/// Adds where the lock was acquired or released that a rule is about.
pub(crate) fn add_lock_history(words: &mut Words, scene: &Scene<'_>, case: &Case<'_>) {
    if let Some(lock) = lock_meant(case) {
        add_lock(words, spin_number(&lock));
        if is_held(case.state(), &lock) {
            let at = case.last_so(&Fact::Unheld(lock));
            let never = " was held when the routine was called\n";
            add_since(words, scene, at, " was acquired ", never)
        } else {
            let at = case.last_so(&Fact::Held(lock));
            add_since(
                words,
                scene,
                at,
                " was released ",
                " wasn't acquired on this path\n",
            )
        }
    }
}

/// Adds what became of the token of the busy device, where there was one.
pub(crate) fn add_token(words: &mut Words, scene: &Scene<'_>, case: &Case<'_>) {
    if case.state().token {
        let at = case.last_so(&Fact::NoToken);
        let never = "the routine was called with the token\n";
        add_since(words, scene, at, "the token was taken ", never)
    } else {
        let at = case.last_so(&Fact::Token);
        add_since(words, scene, at, "the token was spent ", "")
    }
}

/// Why an instruction left a register blank, if there is one.
fn why_blank(instr: Option<&Instr>) -> &'static str {
    let Some(instr) = instr else {
        return "";
    };
    match act_of(instr) {
        Act::Send(Sending::Complete) => ", since its packet was completed,",
        Act::Send(Sending::Pass | Sending::Call(_)) => ", since its packet was sent down,",
        Act::Queue(Queueing::Insert(_)) => ", since its packet was put into the queue,",
        Act::Queue(Queueing::Disarm) => ", since its packet is the cancel routine's,",
        Act::Device(Waiting::Start) => ", since its packet was started,",
        Act::Device(Waiting::Begin) => ", since its packet was made the current one,",
        Act::Lock(Locking::Release(Guard::DeviceLock(_))) =>
            ", since its packet was let go with the guard of its queue,",
        Act::Plain(Plain::Move(_)) => ", since what it had was moved to another register,",
        Act::Plain(Plain::Clear) => ", since it was cleared,",
        Act::Queue(Queueing::Remove(_) | Queueing::Unlink(_) | Queueing::Arm(_))
        | Act::Device(Waiting::Take | Waiting::Next | Waiting::Dequeue)
        | Act::Lock(Locking::Acquire(_) | Locking::Release(Guard::CancelLock))
        | Act::Plain(Plain::Number | Plain::Loop(_) | Plain::End)
        | Act::Look
        | Act::Mark(_)
        | Act::Return(_) => "",
    }
}

/// Adds the loops up to a position, with how often the body of each counts.
pub(crate) fn add_loops(
    alloc: Global,
    words: &mut Words,
    scene: &Scene<'_>,
    code: &[Instr],
    last: u16,
) {
    let mut open: Vec<u64> = Vec::new(alloc);
    let mut at: u16 = 0;
    for instr in code {
        if at <= last {
            add_loop(words, scene, &mut open, instr, at);
        }
        at = at.saturating_add(1);
    }
}

/// Adds an instruction, if it begins a loop, with how often the loop's body counts. The bodies of
/// the loops round it count so often.
fn add_loop(words: &mut Words, scene: &Scene<'_>, open: &mut Vec<u64>, instr: &Instr, at: u16) {
    match act_of(instr) {
        Act::Plain(Plain::Loop(turns)) => {
            let around = open.last().copied().unwrap_or(1);
            let times = around.saturating_mul(turns as u64);
            if open.push(times).is_err() {
                words.lacks = true;
            }
            words.add("  ");
            words.add_number(times);
            add_end(words, scene, " times the body of the loop ", at)
        }
        Act::Plain(Plain::End) => {
            let _ = open.pop();
        }
        Act::Plain(Plain::Number | Plain::Move(_) | Plain::Clear)
        | Act::Look
        | Act::Mark(_)
        | Act::Lock(_)
        | Act::Queue(_)
        | Act::Device(_)
        | Act::Send(_)
        | Act::Return(_) => {}
    }
}
