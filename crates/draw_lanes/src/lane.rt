//! The lanes of a picture: threads, and devices with their lists.

use checked::Checked;
use std::alloc::{AllocError, Global};
use tell_names::{Book, add_number};
use words::Words;

/// Packets that a lane shows side by side, at most. Further ones share its last track.
pub const TRACKS: usize = 8;

/// What a lane is for.
#[derive(Clone, Copy, PartialEq, Eq)]
pub enum Post {
    Thread(u8),
    /// A device itself: whether its DPC is queued.
    Device(u8),
    Queue(u8, u8),
    StartList(u8),
    DeviceQueue(u8),
    Slot(u8),
    /// Packets that no thread and no list has any more.
    Nobody,
}

/// What lasts from one row to another in a lane.
#[derive(Clone, Copy, PartialEq, Eq)]
pub enum State {
    /// The thread has frames.
    Busy,
    /// It waits for a lock.
    Waits,
    /// It owns a lock, by its place among those of the picture.
    Owns(usize),
    /// The DPC of the device is queued.
    Queued,
}

/// A state of a lane, from a row to another one.
#[derive(Clone, Copy)]
pub struct Span {
    pub lane: usize,
    pub state: State,
    pub from: usize,
    /// None where it lasts to the end of the picture.
    pub to: Option<usize>,
}

impl Span {
    /// Whether it began before a row, and lasts up to it at least.
    pub(crate) fn lasts_into(&self, row: usize) -> bool {
        let lasts = match self.to {
            Some(end) => end >= row,
            None => true,
        };
        self.from < row && lasts
    }
}

/// A lane.
#[derive(Drop)]
pub struct Lane {
    pub post: Post,
    pub name: String,
    /// Whether it is shown where no packet ever is in it.
    stays: bool,
    /// How many packets are in each of its tracks.
    tracks: Vec<u32>,
    /// Whether packets ever shared the last one.
    crowded: bool,
    /// The locks that have a bar in it, by their places among those of the picture.
    bars: Vec<usize>,
}

impl Lane {
    /// Whether it is shown.
    pub fn is_shown(&self) -> bool {
        self.stays || !self.tracks.is_empty()
    }

    /// How many tracks it needs.
    pub fn tracks(&self) -> usize {
        self.tracks.len()
    }

    /// Whether packets ever shared its last track.
    pub fn is_crowded(&self) -> bool {
        self.crowded
    }

    /// The locks that have a bar in it, from left to right.
    pub fn bars(&self) -> &[usize] {
        self.bars.as_slice()
    }

    /// Gives a lock a bar in it, unless it has one.
    pub(crate) fn add_bar(&mut self, lock: usize) -> Result<(), AllocError> {
        if !self.bars.contains(&lock) {
            self.bars.push(lock)?;
        }
        Ok(())
    }

    /// Puts a packet into the first free track, and answers which that is. Where none is free the
    /// packet shares the last one.
    pub fn enter(&mut self) -> Result<usize, AllocError> {
        let free = self.tracks.iter().position(|packets| *packets == 0);
        let track = match free {
            Some(track) => track,
            None if self.tracks.len() < TRACKS => {
                self.tracks.push(0)?;
                self.tracks.len().saturating_sub(1)
            }
            None => {
                self.crowded = true;
                TRACKS - 1
            }
        };
        if let Some(packets) = self.tracks.get_mut(track) {
            *packets = packets.saturating_add(1);
        }
        Ok(track)
    }

    /// Takes a packet out of a track.
    pub fn leave(&mut self, track: usize) {
        if let Some(packets) = self.tracks.get_mut(track) {
            *packets = packets.saturating_sub(1);
        }
    }
}

/// Adds a lane without packets.
fn add_lane(
    lanes: &mut Vec<Lane>,
    alloc: Global,
    post: Post,
    name: String,
    stays: bool,
) -> Result<(), AllocError> {
    lanes.push(Lane {
        post,
        name,
        stays,
        tracks: Vec::new(alloc),
        crowded: false,
        bars: Vec::new(alloc),
    })?;
    Ok(())
}

/// The lanes of a machine: those of its threads, of its devices with their lists, and the last for
/// packets that nobody has.
pub fn lanes_of(
    alloc: Global,
    machine: &Checked,
    book: &Book<'_>,
) -> Result<Vec<Lane>, AllocError> {
    let mut lanes = Vec::new(alloc);
    add_lanes(&mut lanes, alloc, machine, book)?;
    Ok(lanes)
}

/// Adds the lanes of a machine.
fn add_lanes(
    lanes: &mut Vec<Lane>,
    alloc: Global,
    machine: &Checked,
    book: &Book<'_>,
) -> Result<(), AllocError> {
    for thread in 0..machine.threads().len().min(255) as u8 {
        add_thread(lanes, alloc, thread)?;
    }
    add_devices(lanes, alloc, machine, book)?;
    let nobody = String::from_str(alloc, "nobody")?;
    add_lane(lanes, alloc, Post::Nobody, nobody, false)
}

/// Adds the lane of a thread.
fn add_thread(lanes: &mut Vec<Lane>, alloc: Global, thread: u8) -> Result<(), AllocError> {
    let mut name = Words::new(alloc);
    name.add("thread ");
    add_number(&mut name, u64::from(thread));
    add_lane(lanes, alloc, Post::Thread(thread), name.finish()?, true)
}

/// Adds the lanes of all devices.
fn add_devices(
    lanes: &mut Vec<Lane>,
    alloc: Global,
    machine: &Checked,
    book: &Book<'_>,
) -> Result<(), AllocError> {
    for device in 0..machine.set().devices().len().min(255) as u8 {
        add_device(lanes, alloc, machine, book, device)?;
    }
    Ok(())
}

/// Adds the lanes of a device: its own, those of its queues, and those of what it has for StartIo,
/// which are shown where it has such a routine.
fn add_device(
    lanes: &mut Vec<Lane>,
    alloc: Global,
    machine: &Checked,
    book: &Book<'_>,
    device: u8,
) -> Result<(), AllocError> {
    add_called(lanes, alloc, book, device, Post::Device(device), true)?;
    let Some(its) = machine.set().devices().get(device as usize) else {
        return Ok(());
    };
    let Some(driver) = machine.set().drivers().get(its.driver as usize) else {
        return Ok(());
    };
    for queue in 0..driver.queues.as_slice().len().min(255) as u8 {
        add_queue(lanes, alloc, book, device, its.driver, queue)?;
    }
    let starts = driver.startio.is_some();
    add_called(lanes, alloc, book, device, Post::StartList(device), starts)?;
    add_called(
        lanes,
        alloc,
        book,
        device,
        Post::DeviceQueue(device),
        starts,
    )?;
    add_called(lanes, alloc, book, device, Post::Slot(device), starts)
}

/// Adds the lane of a queue of a device.
fn add_queue(
    lanes: &mut Vec<Lane>,
    alloc: Global,
    book: &Book<'_>,
    device: u8,
    driver: u8,
    queue: u8,
) -> Result<(), AllocError> {
    let mut name = Words::new(alloc);
    book.add_device(&mut name, device);
    name.add(".");
    book.add_queue(&mut name, driver, queue);
    add_lane(
        lanes,
        alloc,
        Post::Queue(device, queue),
        name.finish()?,
        true,
    )
}

/// Adds another lane of a device, which is called by the device's name and what it is for.
fn add_called(
    lanes: &mut Vec<Lane>,
    alloc: Global,
    book: &Book<'_>,
    device: u8,
    post: Post,
    stays: bool,
) -> Result<(), AllocError> {
    let mut name = Words::new(alloc);
    book.add_device(&mut name, device);
    name.add(match post {
        Post::StartList(_) => " start list",
        Post::DeviceQueue(_) => " device queue",
        Post::Slot(_) => " slot",
        _ => "",
    });
    add_lane(lanes, alloc, post, name.finish()?, stays)
}
