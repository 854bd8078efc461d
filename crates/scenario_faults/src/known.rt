//! What the lines of a scenario may name.

use interleave::schedule::ScheduleKind;
use interleave_texts::faulty::{FaultyLine, tokens_of};
use scenario_names::names::Names;
use scenario_names::operands::{device_of, queue_of};
use std::alloc::{AllocError, Global};
use text::PlacedLines;
use text::class::is;
use text::number::{Numeral, number};
use text::piece::Piece;
use text_faults::fit::Fit;

/// The names of a driver text, and the packets that lines before one issue.
#[derive(Drop)]
pub(crate) struct Known<'a> {
    pub(crate) names: &'a Names<'a>,
    pub(crate) packets: Vec<Piece<'a>>,
    /// The device that the line names behind `of`.
    pub(crate) device: Option<u8>,
}

/// The device that a line names behind `of`, if it does.
pub(crate) fn device_on(names: &Names<'_>, line: &FaultyLine<'_>) -> Option<u8> {
    let mut behind = false;
    for token in line.tokens.iter() {
        if behind {
            return device_of(names.devices.as_slice(), token.bytes()).ok();
        }
        behind = is(token.bytes(), b"of");
    }
    None
}

/// The packets that the lines of a text before that of a number issue.
pub(crate) fn packets_before<'a>(
    alloc: Global,
    text: &'a [u8],
    line: u64,
) -> Result<Vec<Piece<'a>>, AllocError> {
    let mut packets = Vec::new(alloc);
    let mut left = PlacedLines::of(text);
    while let Some(raw) = left.next() {
        if left.spot().number >= line {
            break;
        }
        if let Some(packet) = issued_in(alloc, raw)? {
            packets.push(packet)?;
        }
    }
    Ok(packets)
}

/// The packet that a line issues.
fn issued_in<'a>(alloc: Global, line: &'a [u8]) -> Result<Option<Piece<'a>>, AllocError> {
    let tokens = tokens_of(alloc, line)?;
    let mut place: usize = 0;
    for token in tokens.iter() {
        if is(token.bytes(), b"=") {
            let before = place.saturating_sub(1);
            return Ok(tokens.get(before).map(|name| name.again()));
        }
        place = place.saturating_add(1);
    }
    Ok(None)
}

impl Known<'_> {
    /// Whether a token names a device, or is the number of one.
    pub(crate) fn fit_device(&self, token: &[u8]) -> Fit {
        let names = self.names;
        match number(token) {
            Numeral::Other => Fit::if_so(is_among(token, names.devices.as_slice())),
            numeral => Fit::within(numeral, 0, u8::MAX as u64),
        }
    }

    /// Whether it is the number of an instruction's line.
    pub(crate) fn fit_line(&self, token: &[u8]) -> Fit {
        match number(token) {
            Numeral::Number(number) => Fit::if_so(self.names.on_line(number).is_some()),
            Numeral::TooLarge => Fit::OutOfRange,
            Numeral::Other => Fit::Other,
        }
    }

    /// Whether it names a queue of the line's device.
    pub(crate) fn fit_queue(&self, token: &[u8]) -> Fit {
        let Some(device) = self.device else {
            return Fit::Fits;
        };
        match queue_of(self.names, device, token) {
            Ok(_) => Fit::Fits,
            Err(ScheduleKind::OutOfRange) => Fit::OutOfRange,
            Err(_) => Fit::Other,
        }
    }

    /// Whether it names a packet.
    pub(crate) fn has_packet(&self, token: &[u8]) -> bool {
        is_among(token, self.packets.as_slice())
    }

    /// Whether it names an instruction by its label.
    pub(crate) fn has_spot(&self, token: &[u8]) -> bool {
        match token.iter().position(|byte| *byte == b':') {
            Some(colon) => {
                let routine = token.get(..colon).unwrap_or(&[]);
                let label = token.get(colon.saturating_add(1)..).unwrap_or(&[]);
                self.names.labelled(routine, label).is_some()
            }
            None => false,
        }
    }
}

/// Whether a token is one of some names.
fn is_among(token: &[u8], names: &[Piece<'_>]) -> bool {
    for name in names {
        if is(token, name.bytes()) {
            return true;
        }
    }
    false
}
