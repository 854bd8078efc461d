//! The picture of a run.

use crate::layout::{LINE, Layout, MARGIN, WORDS};
use crate::legend::{add_legend, height_of_legend};
use crate::lines::{Lines, MOST_LINES};
use crate::style::{STYLE, class_of_hold, class_of_state};
use crate::svg::{
    Point, add_attribute, add_circle, add_line, add_rectangle, add_shape, add_text, add_upward, at,
    close_text, open_text,
};
use draw_lanes::drawing::{Drawing, MOST_ROWS, Move, Stand};
use draw_lanes::lane::{Lane, Post, Span, State, TRACKS};
use draw_lanes::row::{Repeat, Row};
use draw_lanes::sign::Sign;
use words::Words;

/// The second line of what is said at the top of the events that are folded.
const FOLDED: &[u8] = b"go on with a completion or a wait, find nothing to do, or repeat rows. \
\"+3\" at a row says how many.";

/// Where a packet's line begins that is drawn next.
#[derive(Clone, Copy)]
struct Begun {
    stand: Stand,
    row: usize,
}

/// Adds the whole picture.
pub fn add_picture(words: &mut Words, drawing: &Drawing) {
    match Layout::of(drawing) {
        Ok(layout) => add_parts(words, drawing, &layout),
        Err(_) => words.lacks = true,
    }
}

/// Adds the parts of a picture, those behind others first.
fn add_parts(words: &mut Words, drawing: &Drawing, layout: &Layout) {
    open(words, drawing, layout);
    add_head(words, drawing, layout);
    add_stripes(words, drawing, layout);
    add_lanes(words, drawing, layout);
    add_spans(words, drawing, layout, true);
    add_spans(words, drawing, layout, false);
    add_moves(words, drawing, layout);
    for (number, row) in drawing.rows.iter().enumerate() {
        add_sign_of(words, drawing, layout, number, row);
        add_row(words, layout, number, row);
    }
    add_band(words, drawing, layout);
    add_foot(words, drawing, layout);
    words.add("</svg>\n")
}

/// Opens the picture, with its size, its title and its style.
fn open(words: &mut Words, drawing: &Drawing, layout: &Layout) {
    let width = layout.width;
    let height = layout
        .bottom
        .saturating_add(height_of_legend())
        .saturating_add(40);
    words.add("<?xml version=\"1.0\" encoding=\"UTF-8\"?>\n");
    words.add("<svg xmlns=\"http://www.w3.org/2000/svg\"");
    add_attribute(words, " width", width);
    add_attribute(words, " height", height);
    words.add(" viewBox=\"0 0 ");
    words.add_number(u64::from(width));
    words.add(" ");
    words.add_number(u64::from(height));
    words.add("\">\n<title>");
    add_title(words, drawing);
    words.add("</title>\n");
    words.add(STYLE);
    add_rectangle(words, "paper", at(0, 0), width, height)
}

/// Adds the words of the title.
fn add_title(words: &mut Words, drawing: &Drawing) {
    words.add("A run of ");
    words.add_number(drawing.events);
    words.add(" events on ");
    words.add_number(drawing.threads as u64);
    words.add(if drawing.threads == 1 {
        " thread"
    } else {
        " threads"
    })
}

/// Adds the shade of every other row.
fn add_stripes(words: &mut Words, drawing: &Drawing, layout: &Layout) {
    let width = layout.width.saturating_sub(MARGIN);
    for (number, _row) in drawing.rows.iter().enumerate() {
        if number % 2 == 0 {
            let corner = at(MARGIN / 2, layout.top(number).saturating_sub(2));
            add_rectangle(words, "zebra", corner, width, layout.height(number));
        }
    }
}

/// Adds the lanes and their names.
fn add_lanes(words: &mut Words, drawing: &Drawing, layout: &Layout) {
    for (number, lane) in drawing.lanes.iter().enumerate() {
        add_lane(words, layout, number, lane);
    }
}

/// Adds the words at the top, and the names of the columns.
fn add_head(words: &mut Words, drawing: &Drawing, layout: &Layout) {
    open_text(words, "title", at(MARGIN, 26));
    add_title(words, drawing);
    close_text(words, b"");
    open_text(words, "small", at(MARGIN, 43));
    add_counts(words, drawing);
    close_text(words, b"");
    add_text(words, "small", at(MARGIN, 56), FOLDED);
    let line = layout.head.saturating_sub(6);
    add_text(words, "small end", at(layout.folds, line), b"event");
    add_text(words, "small", at(layout.place, line), b"where (line)");
    add_text(words, "small", at(layout.words, line), b"what happens");
    add_line(
        words,
        "rule",
        at(MARGIN / 2, layout.head),
        at(layout.width.saturating_sub(MARGIN / 2), layout.head),
    )
}

/// Adds how many events are drawn, and how many are folded.
fn add_counts(words: &mut Words, drawing: &Drawing) {
    let drawn = drawing.drawn() as u64;
    words.add("Time goes downwards. ");
    words.add_number(drawn);
    words.add(" of the events are drawn, at most ");
    words.add_number(MOST_ROWS as u64);
    words.add(". ");
    words.add_number(drawing.events.saturating_sub(drawn));
    words.add(" are folded: they step in registers or cells,")
}

/// Adds what lasts from row to row: that threads have frames, or all else.
fn add_spans(words: &mut Words, drawing: &Drawing, layout: &Layout, busy: bool) {
    for span in drawing.spans.iter() {
        if matches!(span.state, State::Busy) == busy {
            add_span(words, drawing, layout, *span);
        }
    }
}

/// Adds the lines of the packets.
fn add_moves(words: &mut Words, drawing: &Drawing, layout: &Layout) {
    let mut begun: Vec<Option<Begun>> = Vec::new(drawing.alloc);
    for step in drawing.moves.iter() {
        if step.packet >= begun.len() {
            if begun.push(None).is_err() {
                words.lacks = true;
            }
        }
        let before = begun.get(step.packet).copied().flatten();
        add_move(words, drawing, layout, *step, before);
        if let Some(line) = begun.get_mut(step.packet) {
            *line = begun_at(*step);
        }
    }
    for line in begun.iter() {
        add_open_end(words, drawing, layout, *line);
    }
}

/// Adds the line of a packet up to where it goes, and the connector to its new lane.
fn add_move(
    words: &mut Words,
    drawing: &Drawing,
    layout: &Layout,
    step: Move,
    before: Option<Begun>,
) {
    let y = layout.middle(step.row);
    if let Some(before) = before {
        let x = line_of(drawing, layout, before.stand);
        let class = class_of_hold(before.stand.hold);
        add_line(words, class, at(x, layout.middle(before.row)), at(x, y));
    }
    if let Some(stand) = step.to {
        let end = at(line_of(drawing, layout, stand), y);
        add_arrival(
            words,
            drawing,
            layout,
            step.packet,
            Arrival { before, stand, end },
        )
    }
}

/// Where the line of a packet comes to in a row, and where it was before.
#[derive(Clone, Copy)]
struct Arrival {
    before: Option<Begun>,
    stand: Stand,
    end: Point,
}

/// Adds the connector of a packet to its new lane, and its number there.
fn add_arrival(
    words: &mut Words,
    drawing: &Drawing,
    layout: &Layout,
    packet: usize,
    arrival: Arrival,
) {
    let Arrival { before, stand, end } = arrival;
    match before {
        Some(before) if before.stand.lane == stand.lane => return,
        Some(before) => add_connector(words, line_of(drawing, layout, before.stand), end),
        None => {}
    }
    let start = at(end.x.saturating_add(5), end.y.saturating_add(10));
    open_text(words, "packet", start);
    words.add_number(packet as u64);
    close_text(words, b"")
}

/// Adds the line of a packet that goes on where the picture ends, if there is one.
fn add_open_end(words: &mut Words, drawing: &Drawing, layout: &Layout, line: Option<Begun>) {
    let Some(line) = line else {
        return;
    };
    let x = line_of(drawing, layout, line.stand);
    let class = class_of_hold(line.stand.hold);
    let end = layout.end().saturating_sub(5);
    add_line(words, class, at(x, layout.middle(line.row)), at(x, end));
    add_shape(words, "black", at(x, end), "m-3-3h6l-3 7z")
}

/// Where the line of a packet is.
fn line_of(drawing: &Drawing, layout: &Layout, stand: Stand) -> u32 {
    layout.track(drawing.lanes.as_slice(), stand.lane, stand.track)
}

/// Adds the sign of a row, and where that is on a packet's line, that the thread acts.
fn add_sign_of(words: &mut Words, drawing: &Drawing, layout: &Layout, number: usize, row: &Row) {
    let Some(spot) = row.spot else {
        return;
    };
    if let (Some(lane), Some(_)) = (row.acts, spot.track) {
        let x = layout.left(lane).saturating_add(8);
        add_sign(words, Sign::Acts, at(x, layout.middle(number)));
    }
    add_sign(
        words,
        row.sign,
        layout.spot(drawing.lanes.as_slice(), number, spot),
    )
}

/// Adds the band that stands for events that there was no room for.
fn add_band(words: &mut Words, drawing: &Drawing, layout: &Layout) {
    let Some(top) = layout.band else {
        return;
    };
    let width = layout.width.saturating_sub(MARGIN);
    add_rectangle(
        words,
        "queued",
        at(MARGIN / 2, top.saturating_add(2)),
        width,
        18,
    );
    open_text(words, "", at(MARGIN, top.saturating_add(15)));
    words.add("Here ");
    words.add_number(drawing.left_out);
    words.add(" more events of interest are folded: ");
    words.add_number(MOST_ROWS as u64);
    close_text(words, b" are drawn at most.")
}

/// Adds what stands below the rows: a note where there is something to say, and the legend.
fn add_foot(words: &mut Words, drawing: &Drawing, layout: &Layout) {
    let top = layout.bottom;
    let right = layout.width.saturating_sub(MARGIN / 2);
    add_line(words, "rule", at(MARGIN / 2, top), at(right, top));
    open_text(words, "small", at(MARGIN, top.saturating_add(15)));
    add_note(words, drawing);
    close_text(words, b"");
    add_legend(words, top.saturating_add(22))
}

/// Adds how many events are folded behind the last row, and that packets share a line if they do.
fn add_note(words: &mut Words, drawing: &Drawing) {
    if drawing.folded > 0 {
        words.add("+");
        words.add_number(drawing.folded);
        words.add(" events are folded behind the last row. ")
    }
    if drawing.lanes.iter().any(|lane| lane.is_crowded()) {
        words.add("A lane has ");
        words.add_number(TRACKS as u64);
        words.add(" lines at most: all further packets share the last.")
    }
}

/// Where the line begins that a move draws next.
fn begun_at(step: Move) -> Option<Begun> {
    match step.to {
        Some(stand) => Some(Begun {
            stand,
            row: step.row,
        }),
        None => None,
    }
}

/// Adds a lane and its name.
fn add_lane(words: &mut Words, layout: &Layout, number: usize, lane: &Lane) {
    let width = layout.lane_width(number);
    if width == 0 {
        return;
    }
    let (left, end) = (layout.left(number), layout.end());
    let middle = left.saturating_add(if matches!(lane.post, Post::Thread(_)) {
        8
    } else {
        10
    });
    let foot = layout.head.saturating_sub(6);
    add_upward(
        words,
        "",
        at(middle.saturating_add(4), foot),
        lane.name.as_bytes(),
    );
    add_line(words, "side", at(left, layout.head), at(left, end));
    let right = left.saturating_add(width);
    add_line(words, "side", at(right, layout.head), at(right, end));
    if matches!(lane.post, Post::Thread(_)) {
        add_line(words, "life", at(middle, layout.head), at(middle, end))
    }
}

/// Adds what lasts in a lane.
fn add_span(words: &mut Words, drawing: &Drawing, layout: &Layout, span: Span) {
    let top = layout.middle(span.from);
    let end = match span.to {
        Some(row) => layout.middle(row),
        None => layout.end(),
    };
    let height = end.saturating_sub(top);
    let (left, width) = (layout.left(span.lane), layout.lane_width(span.lane));
    let lanes = drawing.lanes.as_slice();
    let (corner, width) = match span.state {
        State::Busy => (left.saturating_add(3), width.saturating_sub(6)),
        State::Waits => {
            let bars = layout.bar(lanes, span.lane, 0);
            (
                left.saturating_add(4),
                bars.saturating_sub(left).saturating_sub(4),
            )
        }
        State::Owns(lock) => (
            layout.bar(lanes, span.lane, bar_of(lanes, span.lane, lock)),
            4,
        ),
        State::Queued => (left.saturating_add(7), 6),
    };
    add_rectangle(
        words,
        class_of_state(span.state),
        at(corner, top),
        width,
        height,
    );
    if let State::Owns(lock) = span.state {
        add_lock_name(words, drawing, layout, span, lock)
    }
}

/// Which bar of a lane is that of a lock.
fn bar_of(lanes: &[Lane], lane: usize, lock: usize) -> usize {
    match lanes.get(lane) {
        Some(lane) => lane.bars().iter().position(|bar| *bar == lock).unwrap_or(0),
        None => 0,
    }
}

/// Adds the name of a lock beside the begin of its bar, behind all bars of the lane.
fn add_lock_name(words: &mut Words, drawing: &Drawing, layout: &Layout, span: Span, lock: usize) {
    let lanes = drawing.lanes.as_slice();
    let (Some(lane), Some(named)) = (lanes.get(span.lane), drawing.locks.get(lock)) else {
        return;
    };
    let x = layout.bar(lanes, span.lane, lane.bars().len());
    let y = layout.middle(span.from).saturating_add(3);
    add_text(words, "lock", at(x, y), named.name.as_bytes())
}

/// Adds a connector, with a point at its end.
fn add_connector(words: &mut Words, from: u32, to: Point) {
    add_line(words, "goes", at(from, to.y), to);
    let point = if from < to.x {
        "m0 0l-7-3v6z"
    } else {
        "m0 0l7-3v6z"
    };
    add_shape(words, "black", to, point)
}

/// Adds a sign.
pub(crate) fn add_sign(words: &mut Words, sign: Sign, middle: Point) {
    add_circles(words, sign, middle);
    let path = path_of(sign);
    if !path.is_empty() {
        add_shape(words, class_of(sign), middle, path);
    }
    if sign == Sign::Stop {
        add_shape(words, "white", middle, "m-3-3l6 6m0-6l-6 6")
    }
}

/// Adds the circles of a sign.
fn add_circles(words: &mut Words, sign: Sign, middle: Point) {
    match sign {
        Sign::Acts => add_circle(words, "black", middle, 3),
        Sign::TopsOut => {
            add_circle(words, "hollow", middle, 5);
            add_circle(words, "black", middle, 3)
        }
        Sign::Flag => add_circle(words, "hollow", middle, 5),
        Sign::Refused => add_circle(words, "hollow", middle, 4),
        _ => {}
    }
}

/// The class of the shape of a sign.
fn class_of(sign: Sign) -> &'static str {
    match sign {
        Sign::Mark | Sign::Arm | Sign::Disarm | Sign::Release => "hollow",
        Sign::Cancel | Sign::Flag => "cross",
        Sign::Refused => "goes",
        Sign::Stop => "stop",
        _ => "black",
    }
}

/// The path of the shape of a sign, where it has one.
fn path_of(sign: Sign) -> &'static str {
    match sign {
        Sign::Acts | Sign::TopsOut => "",
        Sign::Mark => "m0-5l5 5l-5 5l-5-5z",
        Sign::Complete => "m-4-4h8v8h-8z",
        Sign::Cancel => "m-4-4l8 8m0-8l-8 8",
        Sign::Flag => "m-3-3l6 6m0-6l-6 6",
        Sign::Arm => "m0-5l5 9h-10z",
        Sign::Disarm => "m0 5l5-9h-10z",
        Sign::Acquire => "m-4-5l9 5l-9 5z",
        Sign::Release => "m-4-5l9 5l-9 5z",
        Sign::Interrupt => "m2-7l-6 8h4l-2 6l6-8h-4z",
        Sign::Refused => "m-3 3l6-6",
        Sign::Stop => "m-3-7h6l4 4v6l-4 4h-6l-4-4v-6z",
    }
}

/// Adds the number of a row, how many are folded before it, and its words.
fn add_row(words: &mut Words, layout: &Layout, number: usize, row: &Row) {
    let line = layout.top(number).saturating_add(11);
    add_number(words, layout, line, row);
    if let Some(repeat) = row.repeat {
        return add_repeat(words, at(layout.words, line), repeat);
    }
    add_text(words, "place", at(layout.place, line), row.place.as_bytes());
    let class = if row.sign == Sign::Stop { "bad" } else { "" };
    let mut lines = Lines::of(row.words.as_bytes());
    let mut y = line;
    for _line in 0..MOST_LINES {
        if let Some(part) = lines.next(WORDS) {
            add_text(words, class, at(layout.words, y), part);
            y = y.saturating_add(LINE);
        }
    }
}

/// Adds how many rows come again, and how many times.
fn add_repeat(words: &mut Words, start: Point, repeat: Repeat) {
    open_text(words, "small", start);
    words.add(".. the same ");
    if repeat.rows != 1 {
        words.add_number(repeat.rows as u64);
        words.add(" ")
    }
    words.add(if repeat.rows == 1 { "row " } else { "rows " });
    words.add_number(repeat.times);
    close_text(words, b" times more")
}

/// Adds the number of a row, unless it stands for several events, and how many are folded.
fn add_number(words: &mut Words, layout: &Layout, line: u32, row: &Row) {
    if row.repeat.is_none() {
        open_text(words, "end", at(layout.numbers, line));
        words.add_number(row.number);
        close_text(words, b"");
    }
    if row.folded > 0 {
        open_text(words, "fold", at(layout.folds, line.saturating_sub(8)));
        words.add("+");
        words.add_number(row.folded);
        close_text(words, b"")
    }
}
