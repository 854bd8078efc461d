//! Where things stand in a picture: the lanes from left to right, the rows from top to bottom.

use crate::lines::count_lines;
use crate::svg::{Point, at};
use draw_lanes::drawing::Drawing;
use draw_lanes::lane::{Lane, Post};
use draw_lanes::lock::NamedLock;
use draw_lanes::row::Spot;
use std::alloc::AllocError;

/// The margin round the picture.
pub(crate) const MARGIN: u32 = 12;
/// Ten letters of a font of fixed width are no wider than this.
const TEN_LETTERS: u32 = 62;
/// From one line of words to the next.
pub(crate) const LINE: u32 = 12;
/// What a row has above and below its lines.
const ROOM: u32 = 7;
/// From one track of a lane to the next.
const TRACK: u32 = 22;
/// From one bar of a lock to the next, and the width of a letter of its name.
const BAR: u32 = 6;

const SMALL_LETTER: u32 = 5;
/// What a lane has at the left of its first track: of a thread, and else.
const LEFT: u32 = 20;

const LIST_LEFT: u32 = 10;
/// Letters of a line of words, at most.
pub(crate) const WORDS: usize = 60;
/// Letters of a lane's name and of a place, at least and at most: a name of the set has 32 at most.
const SHORT: usize = 12;

const LONG: usize = 66;
/// The width that the words at the top and the legend need.
const NARROWEST: u32 = 680;
/// The height of the words at the top.
const TITLE: u32 = 66;
/// The height of the band that stands for what is folded where there is no more room.
const BAND: u32 = 30;

/// Where things stand.
#[derive(Drop)]
pub(crate) struct Layout {
    /// Where the numbers of events end.
    pub(crate) numbers: u32,
    /// Where the counts of folded events end.
    pub(crate) folds: u32,
    /// Where each lane begins, and where the last one ends.
    lefts: Vec<u32>,
    /// Where places and words begin.
    pub(crate) place: u32,
    pub(crate) words: u32,
    /// How wide the picture is.
    pub(crate) width: u32,
    /// Where the names of the lanes end.
    pub(crate) head: u32,
    /// Where each row begins.
    tops: Vec<u32>,
    /// Where the band begins for what is folded, if there is one.
    pub(crate) band: Option<u32>,
    /// Where the rows end.
    pub(crate) bottom: u32,
}

impl Layout {
    /// That of a run.
    pub(crate) fn of(drawing: &Drawing) -> Result<Layout, AllocError> {
        let digits = width_of_letters(count_digits(drawing.events));
        let numbers = MARGIN.saturating_add(digits).max(30);
        let folds = numbers.saturating_add(digits).saturating_add(10).max(46);
        let mut layout = Layout {
            numbers,
            folds,
            lefts: Vec::new(drawing.alloc),
            place: 0,
            words: 0,
            width: 0,
            head: head_of(drawing),
            tops: Vec::new(drawing.alloc),
            band: None,
            bottom: 0,
        };
        layout.place_lanes(drawing)?;
        layout.place_rows(drawing)?;
        Ok(layout)
    }

    /// Places the lanes, and the words at their right.
    fn place_lanes(&mut self, drawing: &Drawing) -> Result<(), AllocError> {
        let mut left = self.folds.saturating_add(8);
        for lane in drawing.lanes.iter() {
            self.lefts.push(left)?;
            let locks = locks_width(lane, drawing.locks.as_slice());
            left = left.saturating_add(width_of(lane)).saturating_add(locks);
        }
        self.lefts.push(left)?;
        self.place = left.saturating_add(10);
        self.words = self
            .place
            .saturating_add(width_of_letters(longest_place(drawing)));
        let width = self.words.saturating_add(width_of_letters(WORDS as u32));
        self.width = width.saturating_add(MARGIN).max(NARROWEST);
        Ok(())
    }

    /// Places the rows, and the band where some are left out.
    fn place_rows(&mut self, drawing: &Drawing) -> Result<(), AllocError> {
        let mut top = self.head.saturating_add(4);
        for (number, row) in drawing.rows.iter().enumerate() {
            if drawing.is_behind_gap(number) {
                self.band = Some(top);
                top = top.saturating_add(BAND);
            }
            self.tops.push(top)?;
            let lines = count_lines(row.words.as_bytes(), WORDS);
            top = top
                .saturating_add(lines.saturating_mul(LINE))
                .saturating_add(ROOM);
        }
        if drawing.left_out > 0 && self.band.is_none() {
            self.band = Some(top);
            top = top.saturating_add(BAND);
        }
        self.bottom = top.saturating_add(10);
        Ok(())
    }

    /// Where a row begins.
    pub(crate) fn top(&self, row: usize) -> u32 {
        match self.tops.get(row) {
            Some(top) => *top,
            None => self.bottom,
        }
    }

    /// Where the row behind one begins.
    pub(crate) fn height(&self, row: usize) -> u32 {
        let end = match self.tops.get(row.saturating_add(1)) {
            Some(top) => *top,
            None => self.bottom,
        };
        end.saturating_sub(self.top(row))
    }

    /// The height at which the connectors and signs of a row stand.
    pub(crate) fn middle(&self, row: usize) -> u32 {
        self.top(row).saturating_add(7)
    }

    /// Where what lasts is cut off: at the band, or where the rows end.
    pub(crate) fn end(&self) -> u32 {
        match self.band {
            Some(top) => top,
            None => self.bottom,
        }
    }

    /// Where a lane begins.
    pub(crate) fn left(&self, lane: usize) -> u32 {
        match self.lefts.get(lane) {
            Some(left) => *left,
            None => self.place,
        }
    }

    /// How wide a lane is.
    pub(crate) fn lane_width(&self, lane: usize) -> u32 {
        self.left(lane.saturating_add(1))
            .saturating_sub(self.left(lane))
    }

    /// Where the line of a track of a lane is.
    pub(crate) fn track(&self, lanes: &[Lane], lane: usize, track: usize) -> u32 {
        let left = match lanes.get(lane) {
            Some(
                Lane {
                    post: Post::Thread(_),
                    ..
                },
            ) => LEFT,
            _ => LIST_LEFT,
        };
        self.left(lane)
            .saturating_add(left)
            .saturating_add(tracks_width(track))
    }

    /// Where the bar of a lock is in the lane of a thread: behind the tracks.
    pub(crate) fn bar(&self, lanes: &[Lane], lane: usize, bar: usize) -> u32 {
        let tracks = match lanes.get(lane) {
            Some(lane) => lane.tracks(),
            None => 0,
        };
        self.track(lanes, lane, tracks)
            .saturating_add(bars_width(bar))
    }

    /// Where a sign stands in a row.
    pub(crate) fn spot(&self, lanes: &[Lane], row: usize, spot: Spot) -> Point {
        let x = match spot.track {
            Some(track) => self.track(lanes, spot.lane, track),
            None => self.left(spot.lane).saturating_add(8),
        };
        at(x, self.middle(row))
    }
}

/// The width of so many letters.
fn width_of_letters(letters: u32) -> u32 {
    letters.min(1_000) * TEN_LETTERS / 10
}

/// The width of so many tracks.
fn tracks_width(tracks: usize) -> u32 {
    (tracks.min(1_000) as u32) * TRACK
}

/// The width of so many bars of locks.
fn bars_width(bars: usize) -> u32 {
    (bars.min(1_000) as u32) * BAR
}

/// The width of the bars of a lane's locks and of their names.
fn locks_width(lane: &Lane, locks: &[NamedLock]) -> u32 {
    let mut longest = 0;
    for lock in lane.bars() {
        if let Some(named) = locks.get(*lock) {
            longest = longest.max(named.name.len());
        }
    }
    bars_width(lane.bars().len()).saturating_add((longest.min(LONG) as u32) * SMALL_LETTER)
}

/// The width of a lane: that of its tracks, and what is at their left and right, if it is shown.
fn width_of(lane: &Lane) -> u32 {
    if !lane.is_shown() {
        return 0;
    }
    let tracks = tracks_width(lane.tracks());
    match lane.post {
        Post::Thread(_) => (LEFT + 8).saturating_add(tracks),
        Post::Device(_) => 20,
        _ => LIST_LEFT.saturating_add(tracks.max(12)),
    }
}

/// Where the names of the lanes end, below the words at the top.
fn head_of(drawing: &Drawing) -> u32 {
    let mut longest = SHORT;
    for lane in drawing.lanes.iter() {
        if lane.is_shown() {
            longest = longest.max(lane.name.len());
        }
    }
    (TITLE + 10).saturating_add(width_of_letters(longest.min(LONG) as u32))
}

/// How many letters the longest place has, and one more; the name of the column has its room too.
fn longest_place(drawing: &Drawing) -> u32 {
    let mut longest = SHORT + 2;
    for row in drawing.rows.iter() {
        longest = longest.max(row.place.len());
    }
    longest.min(LONG) as u32 + 1
}

/// How many decimal digits a number has.
fn count_digits(number: u64) -> u32 {
    let mut left = number;
    let mut digits = 1u32;
    for _digit in 0..19 {
        left /= 10;
        if left > 0 {
            digits = digits.saturating_add(1);
        }
    }
    digits
}
