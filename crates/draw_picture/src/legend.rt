//! What the lines, shades and signs of a picture mean.

use crate::layout::MARGIN;
use crate::picture::add_sign;
use crate::style::{class_of_hold, class_of_state};
use crate::svg::{Point, add_line, add_rectangle, add_shape, add_text, at};
use draw_lanes::hold::Hold;
use draw_lanes::lane::State;
use draw_lanes::sign::Sign;
use words::Words;

/// The height of an item, and how many stand in a column.
const ITEM: u32 = 17;

const ITEMS: u32 = 8;
/// Where the words of an item begin.
const SAMPLE: u32 = 42;
/// From one column to the next.
const COLUMN: u32 = 222;

/// What is shown of an item.
#[derive(Clone, Copy)]
enum Sample {
    Line(Hold),
    Lasts(State),
    Sign(Sign),
    /// A line that goes on.
    Open,
}

/// How high a legend is.
pub(crate) fn height_of_legend() -> u32 {
    ITEM * ITEMS
}

/// An item, by its number: what is shown of it, and its words. The first column has what holds a
/// packet, the second one what lasts and what happens to locks, the third one what happens to
/// packets.
fn item_of(number: u32) -> (Sample, &'static str) {
    match number / ITEMS {
        0 => holding_item(number),
        1 => lasting_item(number),
        _ => packet_item(number),
    }
}

/// One of the first column.
fn holding_item(number: u32) -> (Sample, &'static str) {
    match number {
        0 => (Sample::Line(Hold::Routine), "packet, held by a routine"),
        1 => (Sample::Line(Hold::Manager), "completed by I/O manager"),
        2 => (Sample::Line(Hold::Queue), "in a queue"),
        3 => (Sample::Line(Hold::Start), "in a StartIo list"),
        4 => (Sample::Line(Hold::Slot), "in a current slot"),
        5 => (Sample::Line(Hold::Nobody), "held by nobody"),
        6 => (Sample::Open, "lives on at the end"),
        _ => (Sample::Sign(Sign::TopsOut), "tops out"),
    }
}

/// One of the second column.
fn lasting_item(number: u32) -> (Sample, &'static str) {
    match number {
        8 => (Sample::Lasts(State::Busy), "thread with frames"),
        9 => (Sample::Lasts(State::Waits), "waits for a lock"),
        10 => (Sample::Lasts(State::Owns(0)), "owns the lock named there"),
        11 => (Sample::Lasts(State::Queued), "the DPC is queued"),
        12 => (Sample::Sign(Sign::Acquire), "lock acquired"),
        13 => (Sample::Sign(Sign::Release), "lock released"),
        14 => (Sample::Sign(Sign::Interrupt), "interrupt"),
        _ => (Sample::Sign(Sign::Acts), "other step of a thread"),
    }
}

/// One of the third column.
fn packet_item(number: u32) -> (Sample, &'static str) {
    match number {
        16 => (Sample::Sign(Sign::Mark), "IoMarkIrpPending"),
        17 => (Sample::Sign(Sign::Complete), "IoCompleteRequest"),
        18 => (Sample::Sign(Sign::Arm), "cancel routine set"),
        19 => (Sample::Sign(Sign::Disarm), "cancel routine cleared"),
        20 => (Sample::Sign(Sign::Cancel), "IoCancelIrp"),
        21 => (Sample::Sign(Sign::Flag), "Irp->Cancel set"),
        22 => (Sample::Sign(Sign::Refused), "event refused"),
        _ => (Sample::Sign(Sign::Stop), "bug check, the run stops"),
    }
}

/// Adds the legend, from a height on.
pub(crate) fn add_legend(words: &mut Words, top: u32) {
    for number in 0..ITEMS * 3 {
        add_item(words, top, number);
    }
}

/// Adds an item, by its number.
fn add_item(words: &mut Words, top: u32, number: u32) {
    let (sample, text) = item_of(number);
    let x = MARGIN.saturating_add((number / ITEMS).saturating_mul(COLUMN));
    let y = top.saturating_add((number % ITEMS) * ITEM);
    add_sample(words, sample, at(x, y));
    let start = at(x.saturating_add(SAMPLE), y.saturating_add(11));
    add_text(words, "", start, text.as_bytes())
}

/// Adds what is shown of an item.
fn add_sample(words: &mut Words, sample: Sample, corner: Point) {
    let (x, y) = (corner.x, corner.y.saturating_add(7));
    match sample {
        Sample::Line(hold) => {
            let end = at(x.saturating_add(34), y);
            add_line(words, class_of_hold(hold), at(x, y), end)
        }
        Sample::Lasts(state) => {
            let corner = at(x.saturating_add(4), corner.y.saturating_add(1));
            let width = match state {
                State::Busy | State::Waits => 26,
                State::Owns(_) => 4,
                State::Queued => 6,
            };
            add_rectangle(words, class_of_state(state), corner, width, 12)
        }
        Sample::Sign(sign) => add_sign(words, sign, at(x.saturating_add(17), y)),
        Sample::Open => {
            let middle = at(x.saturating_add(17), y);
            add_line(words, "goes", at(middle.x, corner.y), middle);
            add_shape(words, "black", middle, "m-3-3h6l-3 7z")
        }
    }
}
