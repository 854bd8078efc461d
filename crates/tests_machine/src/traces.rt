//! Each row by the machine of accepted sets, by the lines of its replies.

use crate::rows::{ROWS, Row};
use asm::assemble;
use interleave::parse::parse_schedule;
use interleave::read::Repeated;
use interleave::schedule::Schedule;
use machine::World;
use model::event::{Event, Reply};
use report::event_number::EventNumber;
use report::lines::Lines;
use std::alloc::{AllocError, Global};
use std::process::Abort;
use std::test::Fail;
use verifier::verify;

/// How the steps of a thread that follow one another are made.
#[derive(Clone, Copy)]
enum Pace {
    /// As any other event, one by one.
    EventByEvent,
    /// All at once.
    StepsAtOnce,
}

#[test]
fn accepted_sets_run(rt: HostRuntime) -> Result<(), Fail> {
    let alloc = rt.alloc();
    for row in ROWS.iter() {
        let name = row.name;
        for pace in [Pace::EventByEvent, Pace::StepsAtOnce] {
            let replies = replies_of(&rt, alloc, row, pace)?;
            let expected = expected_of(alloc, row)?;
            let told = lines_of(alloc, replies.as_slice())?;
            let said = lines_of(alloc, expected.as_slice())?;
            assert!(rt; told.bytes() == said.bytes(), "{name}");
        }
    }
    Ok(())
}

/// What a world of the row's set answers to the row's events.
fn replies_of<R: Abort>(
    rt: &R,
    alloc: Global,
    row: &Row,
    pace: Pace,
) -> Result<Vec<Reply>, AllocError> {
    let set = assemble(alloc, row.set).ok().expect(rt, row.name);
    let accepted = verify(alloc, set).ok().expect(rt, row.name);
    let Ok(schedule) = parse_schedule(alloc, row.schedule.as_bytes()) else {
        panic!(rt; "a schedule")
    };
    let mut world = World::new(alloc, accepted, schedule.threads)
        .ok()
        .expect(rt, row.name);
    run_all(alloc, &mut world, &schedule, pace)
}

/// The replies to all events of a schedule.
fn run_all(
    alloc: Global,
    world: &mut World,
    schedule: &Schedule,
    pace: Pace,
) -> Result<Vec<Reply>, AllocError> {
    let mut replies = Vec::new(alloc);
    let mut upcoming = schedule.events.upcoming();
    for _ in 0..schedule.events.len() {
        let Some(Repeated { event, count }) = upcoming.next_run() else {
            break;
        };
        match (pace, event) {
            (Pace::StepsAtOnce, Event::Step { thread }) => {
                step_on(world, thread, count, &mut replies)?;
            }
            _ => apply_often(world, &event, count, &mut replies)?,
        }
    }
    Ok(replies)
}

/// An event happens so often.
fn apply_often(
    world: &mut World,
    event: &Event,
    count: usize,
    replies: &mut Vec<Reply>,
) -> Result<(), AllocError> {
    for _ in 0..count {
        replies.push(world.apply(event))?;
    }
    Ok(())
}

/// A thread steps so often. Where it stops to step by itself, the steps that are left are asked for
/// again.
fn step_on(
    world: &mut World,
    thread: u8,
    count: usize,
    replies: &mut Vec<Reply>,
) -> Result<(), AllocError> {
    let mut left = count;
    for _ in 0..count {
        if left == 0 {
            break;
        }
        let steps = world.steps(thread, left);
        push_often(replies, Reply::Stepped, steps.made.saturating_sub(1))?;
        replies.push(steps.last)?;
        left -= steps.made;
    }
    Ok(())
}

/// The same reply so often.
fn push_often(replies: &mut Vec<Reply>, reply: Reply, count: usize) -> Result<(), AllocError> {
    for _ in 0..count {
        replies.push(reply)?;
    }
    Ok(())
}

/// What a row expects, reply by reply.
fn expected_of(alloc: Global, row: &Row) -> Result<Vec<Reply>, AllocError> {
    let mut expected = Vec::new(alloc);
    for (count, reply) in row.replies.iter() {
        push_often(&mut expected, *reply, *count)?;
    }
    Ok(expected)
}

/// The lines of these replies, as far as one block holds them.
fn lines_of(alloc: Global, replies: &[Reply]) -> Result<Lines, AllocError> {
    let mut lines = Lines::new(alloc)?;
    let mut number = EventNumber::first();
    for reply in replies {
        if !lines.has_room() {
            break;
        }
        lines.reply(&mut number, reply);
        number.advance();
    }
    Ok(lines)
}
