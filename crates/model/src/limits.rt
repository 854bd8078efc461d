//! The limits of a driver set and of a run. All of them are this project's own.

/// Drivers of a set, at most.
pub const MAX_DRIVERS: usize = 8;
/// Devices of a set, at most.
pub const MAX_DEVICES: usize = 16;
/// Routines of a driver, at most.
pub const MAX_ROUTINES: usize = 32;
/// Queues of a driver, at most.
pub const MAX_QUEUES: usize = 4;
/// Instructions of a routine, at most.
pub const MAX_INSTRUCTIONS: usize = 1024;
/// Registers of an activation.
pub const REGISTERS: usize = 16;
/// Spin locks of a device.
pub const SPIN_LOCKS: usize = 8;
/// Number cells of a device, and as many paged ones.
pub const CELLS: usize = 16;
/// Turns of a loop, at most; it has at least one.
pub const MAX_TURNS: u16 = 1000;
/// Loops round a position, at most.
pub const MAX_LOOPS: usize = 4;
/// The certificate of a routine, at most.
pub const MAX_CERTIFICATE: u64 = 1_000_000;
/// Stack locations of a packet, at most: a device's stack size is 1 to this.
pub const MAX_STACK: usize = 16;
/// Frames on a thread, at most.
pub const MAX_FRAMES: usize = 32;
/// Packets that are issued and have not topped out, at most.
pub const MAX_LIVE_PACKETS: usize = 4096;
/// Entries of a list of packets (a queue, a start list), at most. A packet may stand there twice.
pub const MAX_ENTRIES: usize = 4_096;
/// Threads of a run, at most; it has at least one.
pub const MAX_THREADS: usize = 64;
/// Packets ever issued in a run, at most.
pub const MAX_ISSUED: u64 = 18_446_744_073_709_551_615;
/// Entries of a history, at most.
pub const MAX_HISTORY: usize = 1_000_000;
/// Names of one submitter's commands, at most.
pub const MAX_NAMES: u64 = 18_446_744_073_709_551_615;

/// The number of the routine that serves a major function for which a driver names none: it
/// completes the packet with STATUS_INVALID_DEVICE_REQUEST and returns that.
pub const DEFAULT_ROUTINE: u8 = 255;
