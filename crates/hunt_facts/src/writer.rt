//! What writes the key of a world: numbers, packets and threads.

use crate::sorting::add_sorted;
use checked::Checked;
use checked_parts::Shared;
use std::alloc::{AllocError, Global};

/// The least number that stands behind a byte of its own.
const LONG: u64 = 255;

/// What writes a key, with room that is used again for the next one.
#[derive(Drop)]
pub struct Writer {
    bytes: Vec<u8>,
    /// The packets that were met, in that order: a packet's name is its place.
    names: Vec<u64>,
    /// The threads, in the order in which they are written.
    order: Vec<u8>,
    /// A growth was refused, so that something is missing.
    is_short: bool,
}

impl Writer {
    /// No key yet.
    pub fn new(alloc: Global) -> Writer {
        Writer {
            bytes: Vec::new(alloc),
            names: Vec::new(alloc),
            order: Vec::new(alloc),
            is_short: false,
        }
    }

    /// The bytes of the key.
    pub fn bytes(&self) -> &[u8] {
        self.bytes.as_slice()
    }

    /// Begins the key of the world of a machine.
    pub(crate) fn begin(&mut self, machine: &Checked) -> Result<(), AllocError> {
        self.bytes.clear();
        self.names.clear();
        self.order.clear();
        self.is_short = false;
        add_sorted(&mut self.order, machine)
    }

    /// Ends it, if nothing is missing.
    pub(crate) fn finish(&self) -> Result<(), AllocError> {
        if self.is_short {
            return Err(AllocError);
        }
        Ok(())
    }

    /// How many threads there are.
    pub(crate) fn threads(&self) -> usize {
        self.order.len()
    }

    /// The thread that is written at a place.
    pub(crate) fn thread(&self, place: usize) -> u8 {
        self.order.get(place).copied().unwrap_or(0)
    }

    /// How many packets were met.
    pub(crate) fn packets_met(&self) -> usize {
        self.names.len()
    }

    /// The packet of a name.
    pub(crate) fn packet_named(&self, name: usize) -> u64 {
        self.names.get(name).copied().unwrap_or(0)
    }

    /// Adds a byte.
    fn byte(&mut self, byte: u8) {
        if self.bytes.push(byte).is_err() {
            self.is_short = true;
        }
    }

    /// Adds a number.
    pub(crate) fn number(&mut self, number: u64) {
        if number < LONG {
            self.byte(number as u8);
            return;
        }
        self.byte(LONG as u8);
        if self.bytes.extend_from_slice(&number.to_le_bytes()).is_err() {
            self.is_short = true;
        }
    }

    /// Adds a number, if it matters.
    pub(crate) fn number_if(&mut self, matters: bool, number: u64) {
        if matters {
            self.number(number);
        }
    }

    /// Adds numbers.
    pub(crate) fn numbers(&mut self, numbers: &[u64]) {
        for number in numbers {
            self.number(*number);
        }
    }

    /// The name of a live packet.
    pub(crate) fn name(&mut self, n: u64) -> usize {
        if let Some(place) = self.names.iter().position(|name| *name == n) {
            return place;
        }
        let place = self.names.len();
        if self.names.push(n).is_err() {
            self.is_short = true;
        }
        place
    }

    /// Adds a packet that something names. All that have topped out are alike.
    pub(crate) fn packet(&mut self, shared: &Shared, n: u64) {
        if shared.live_packet(n).is_none() {
            self.byte(0);
            return;
        }
        let name = self.name(n) as u64;
        self.number(name.saturating_add(1));
    }

    /// Adds the owner of a lock.
    pub(crate) fn owner(&mut self, owner: Option<Option<u8>>) {
        let Some(Some(thread)) = owner else {
            self.byte(0);
            return;
        };
        match self.order.iter().position(|other| *other == thread) {
            Some(place) => self.number((place as u64).saturating_add(1)),
            None => self.number(LONG),
        }
    }
}
