//! The `device` and `queue` lines that a rule is about.

use crate::place::Scene;
use asm_line::{Body, read_line};
use driver_set::DriverSet;
use model::abs::Rule;
use model::instr::Instr;
use model::set::{Device, QueueName};
use text::{Spot, add_line, line_at};
use verifier_reasons::{Case, list_of};
use words::Words;

/// Adds the line of the first device of the case's driver that breaks its rule on devices, and that
/// of the device under it.
pub(crate) fn add_devices(words: &mut Words, scene: &Scene<'_>, case: &Case<'_>) {
    for (number, device) in case.set.devices().iter().enumerate() {
        if device.driver == case.driver && breaks(case.rule, case.set, device, case.instr) {
            add_line_of(words, scene, "the device", Sought::Device(number));
            return add_lower(words, scene, case, device);
        }
    }
}

/// Adds the line of the device under one, and how many stack locations that has and needs.
fn add_lower(words: &mut Words, scene: &Scene<'_>, case: &Case<'_>, device: &Device) {
    if let Some(lower) = device.lower {
        add_line_of(words, scene, "under it", Sought::Device(lower as usize));
        add_sizes(words, case.set, device.stack, lower, case.instr);
    }
}

/// Adds how many stack locations a device over another one has, and how many it needs.
fn add_sizes(words: &mut Words, set: &DriverSet, stack: u8, lower: u8, instr: &Instr) {
    let under = match set.devices().get(lower as usize) {
        Some(under) => under.stack,
        None => 0,
    };
    words.add("stack size: ");
    words.add_number(stack as u64);
    words.add(" is written, ");
    words.add_number(needed(under, instr) as u64);
    words.add(" is needed: ");
    words.add_number(under as u64);
    words.add(if is_call(instr) {
        " for the device under it, and one for itself\n"
    } else {
        " for the device under it\n"
    })
}

/// Adds the line of the queue that an instruction touches, which names its lock.
pub(crate) fn add_queue_line(words: &mut Words, scene: &Scene<'_>, case: &Case<'_>) {
    if let Some(QueueName::Declared(number)) = list_of(case.instr) {
        let sought = Sought::Queue(case.driver as usize, number as usize);
        add_line_of(words, scene, "the queue", sought)
    }
}

/// Whether a device breaks a rule on devices where its driver sends a packet down.
fn breaks(rule: Rule, set: &DriverSet, device: &Device, instr: &Instr) -> bool {
    let Some(lower) = device.lower else {
        return rule == Rule::NoLower;
    };
    match set.devices().get(lower as usize) {
        Some(under) => rule == Rule::StackTooSmall && device.stack < needed(under.stack, instr),
        None => false,
    }
}

/// The stack locations that a packet needs: those of the device under it, and its own where it is
/// sent down with `call`.
fn needed(under: u8, instr: &Instr) -> u8 {
    if is_call(instr) {
        under.saturating_add(1)
    } else {
        under
    }
}

/// Whether an instruction sends a packet down in a location of its own.
fn is_call(instr: &Instr) -> bool {
    matches!(instr, Instr::Call(..))
}

/// A line that is sought among those of a text's drivers, queues and devices.
#[derive(Clone, Copy)]
enum Sought {
    /// That of the device before which so many others stand.
    Device(usize),
    /// That of a queue, by the drivers before its own, and the queues before it there.
    Queue(usize, usize),
    /// The line that was read last is the one.
    Found,
    /// There is none.
    Missing,
}

/// Adds a line that is sought, where it is found.
fn add_line_of(words: &mut Words, scene: &Scene<'_>, title: &str, sought: Sought) {
    if let Some(line) = line_of(scene, sought) {
        words.add(title);
        words.add(", line ");
        words.add_number(line.number);
        words.add(": ");
        let done = add_line(&mut words.text, scene.others.bytes(), line);
        words.note(done);
        words.add("\n")
    }
}

/// Where a line stands that is sought.
fn line_of(scene: &Scene<'_>, sought: Sought) -> Option<Spot> {
    let mut left = sought;
    for spot in scene.outline.as_slice() {
        left = behind(left, line_at(scene.others.bytes(), *spot));
        if matches!(left, Sought::Found) {
            return Some(*spot);
        }
    }
    None
}

/// What is sought behind a line.
fn behind(sought: Sought, raw: Option<&[u8]>) -> Sought {
    let Some(raw) = raw else {
        return Sought::Missing;
    };
    let Ok(line) = read_line(raw) else {
        return sought;
    };
    match line.body {
        Body::AddDevice(..) => behind_device(sought),
        Body::AddQueue(..) => behind_queue(sought),
        Body::CloseDriver => behind_driver(sought),
        _ => sought,
    }
}

/// What is sought behind the line of a device.
fn behind_device(sought: Sought) -> Sought {
    match sought {
        Sought::Device(0) => Sought::Found,
        Sought::Device(before) => Sought::Device(before.saturating_sub(1)),
        other => other,
    }
}

/// What is sought behind the line of a queue.
fn behind_queue(sought: Sought) -> Sought {
    match sought {
        Sought::Queue(0, 0) => Sought::Found,
        Sought::Queue(0, before) => Sought::Queue(0, before.saturating_sub(1)),
        other => other,
    }
}

/// What is sought behind the end of a driver.
fn behind_driver(sought: Sought) -> Sought {
    match sought {
        Sought::Queue(0, _) => Sought::Missing,
        Sought::Queue(drivers, before) => Sought::Queue(drivers.saturating_sub(1), before),
        other => other,
    }
}
