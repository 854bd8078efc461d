//! What the threads of a run share.

ghost use Rattle.std.specs.Prelude.{◌≡◌, ◌≤◌, [], IfOk, IsSome, IsTrue, Some, nat_lt, option_map};
ghost use Rattle.std.specs.Prelude.{replicate};
ghost use Rattle.model.specs.declared.limits.TheConstants.{MAX_QUEUES, MAX_STACK};
ghost use Rattle.model.specs.Queues.{StartState, idle, without_first_to_start};

use crate::Runner;
use devqueue::{DeviceQueue, Guarded};
use driver_set::Device;
use iomgr::PacketTable;
use irp::Packet;
use irql_locks::LockTable;
use model::event::Lock;
use model::limits::{CELLS, MAX_QUEUES};
use model::status::Major;
use model::view::{LiveView, PacketView};
use model::world::{Cells, Irql, Value};
use std::alloc::{AllocError, Global};
use std::marker::Model;

mod cancelling;
mod cells;
mod completion;
mod forwarding;
pub mod locks;
mod queues;
mod starting;
mod touching;

/// The packets, the locks, and by device its cells, its queues, what it has for StartIo, and
/// whether its DPC is queued.
#[derive(Drop)]
pub struct Shared {
    packet_table: PacketTable,
    lock_table: LockTable,
    cell_list: Vec<Cells>,
    queue_list: Vec<[Guarded; MAX_QUEUES]>,
    start_list: Vec<DeviceQueue>,
    dpc_list: Vec<bool>,
}

impl Model for Shared {
    ghost use Rattle.model.specs.World.{Shared};

    ghost Value = { Shared };

    ghost view = { λ s. record {
      packets = s.packet_table.live.packets;
      issued = s.packet_table.issued;
      locks = s.lock_table;
      cells = s.cell_list.items;
      queues = s.queue_list.items;
      starts = s.start_list.items;
      dpcs = s.dpc_list.items;
    } };
}

/// The queues of so many devices, all empty.
fn empty_queues(alloc: Global, devices: usize) -> Result<Vec<[Guarded; MAX_QUEUES]>, AllocError>
    ensures { IfOk result (λ queues. queues.items ≡ replicate devices (replicate MAX_QUEUES [])) }
{
    let mut queues = Vec::with_capacity(alloc, devices)?;
    for _device in 0..devices {
        queues.push([
            Guarded::new(alloc)?,
            Guarded::new(alloc)?,
            Guarded::new(alloc)?,
            Guarded::new(alloc)?,
        ])?;
    }
    Ok(queues)
}

/// What so many devices have for StartIo: they are idle.
fn idle_devices(alloc: Global, devices: usize) -> Result<Vec<DeviceQueue>, AllocError>
    ensures { IfOk result (λ starts. starts.items ≡ replicate devices idle) }
{
    let mut starts = Vec::with_capacity(alloc, devices)?;
    for _device in 0..devices {
        starts.push(DeviceQueue::new(alloc)?)?;
    }
    Ok(starts)
}

impl Shared {
    ghost use Rattle.model.specs.Events.{can_issue, with_new_packet};
    ghost use Rattle.model.specs.World.{unused, owner_of, packet_in, packet_of, start_of};
    ghost use Rattle.model.specs.World.{with_start, is_queued, with_dpc};
    ghost use Rattle.checked_parts.specs.Left.{is_gone, is_raised};
    ghost use Rattle.model.specs.View.{packet_view, due_view};

    /// What is there before the first event, for so many devices. An error where memory is refused;
    /// all that is ever needed is taken here.
    pub fn new(alloc: Global, devices: usize) -> Result<Shared, AllocError>
        ensures { IfOk result (λ s. s ≡ unused devices) }
    {
        let blank = Cells {
            plain: [0; CELLS],
            paged: [0; CELLS],
        };
        Ok(Shared {
            packet_table: PacketTable::new(alloc)?,
            lock_table: LockTable::new(alloc, devices)?,
            cell_list: vec![in alloc; blank; devices]?,
            queue_list: empty_queues(alloc, devices)?,
            start_list: idle_devices(alloc, devices)?,
            dpc_list: vec![in alloc; false; devices]?,
        })
    }

    /// Whether one more packet may be issued.
    pub fn can_issue(&self) -> bool
        ensures { result ≡ can_issue self.now }
    {
        self.packet_table.can_issue()
    }

    /// Issues a packet to the device of a number, of a stack size of 1 to 16, and answers its
    /// number.
    pub fn issue(&mut self, number: u8, device: Device, major: Major, argument: u64) -> u64
        requires room { IsTrue (can_issue self.old) }
        requires stack { device.stack ≤ MAX_STACK }
        ensures number { result ≡ self.old.issued }
        ensures added { self.new ≡ with_new_packet self.old number device major argument }
    {
        let packet = self.packet_table.issued();
        let _key = self
            .packet_table
            .issue(number, major, argument, device.stack);
        packet
    }

    /// Whether the DPC of a device is queued.
    pub fn is_queued(&self, device: u8) -> bool
        ensures { result ≡ is_queued self.now device }
    {
        match self.dpc_list.get(device as usize) {
            Some(queued) => *queued,
            None => false,
        }
    }

    /// Queues the DPC of a device, or takes it off.
    pub fn set_queued(&mut self, device: u8, queued: bool)
        ensures { self.new ≡ with_dpc self.old device queued }
    {
        if let Some(dpc) = self.dpc_list.get_mut(device as usize) {
            *dpc = queued;
        }
    }

    /// What a device has for StartIo, if there is such a device.
    pub fn start_of(&self, device: u8) -> Option<&DeviceQueue>
        ensures { option_map (λ start. start.now) result ≡ start_of self.now device }
    {
        self.start_list.get(device as usize)
    }

    /// The StartIo routine of a device begins: the first packet of its start list is taken off.
    pub fn start_io(&mut self, device: u8)
        requires { IsSome (start_of self.old device) }
        ensures { (start : StartState) → start_of self.old device ≡ Some start
            → self.new ≡ with_start self.old device (without_first_to_start start) }
    {
        let _packet = self.start_list[device as usize].start_io();
    }

    /// Whether a thread is at DISPATCH_LEVEL.
    fn is_raised(&self, runner: Runner) -> bool
        ensures { result ≡ is_raised self.now runner }
    {
        self.lock_table.level(runner.thread, runner.root) == Irql::Dispatch
    }

    /// The packet that a value refers to: one that was issued, live or not.
    fn packet_in(&self, value: Value) -> Option<u64>
        ensures { result ≡ packet_in self.now value }
    {
        self.packet_table.packet_in(value)
    }

    /// Whether a packet of this number was issued.
    pub fn is_issued(&self, n: u64) -> bool
        ensures { result ≡ nat_lt n self.now.issued }
    {
        n < self.packet_table.issued()
    }

    /// Whether a packet was issued and isn't live: it has topped out.
    pub fn is_gone(&self, n: u64) -> bool
        ensures { result ≡ is_gone self.now n }
    {
        self.is_issued(n) && self.packet_table.find(n).is_none()
    }

    /// How many packets were ever issued.
    pub fn issued(&self) -> u64
        ensures { result ≡ self.now.issued }
    {
        self.packet_table.issued()
    }

    /// The live packet of a number.
    pub fn live_packet(&self, n: u64) -> Option<&Packet>
        ensures { option_map (λ p. p.now) result ≡ packet_of self.now n }
    {
        self.packet_table.live_packet(n)
    }

    /// The queues, by device and by their numbers.
    pub fn queues(&self) -> &[[Guarded; MAX_QUEUES]]
        ensures { result.now ≡ self.now.queues }
    {
        self.queue_list.as_slice()
    }

    /// What devices have for StartIo, by their numbers.
    pub fn starts(&self) -> &[DeviceQueue]
        ensures { result.now ≡ self.now.starts }
    {
        self.start_list.as_slice()
    }

    /// The owner of a lock, if there is such a lock: none while it is free.
    pub fn owner(&self, lock: Lock) -> Option<Option<u8>>
        ensures { result ≡ owner_of self.now.locks lock }
    {
        self.lock_table.owner(lock)
    }

    /// What there is to tell of the packet of a number.
    pub fn packet(&self, n: u64) -> PacketView
        ensures { result ≡ packet_view self.now n }
    {
        match self.packet_table.live_packet(n) {
            Some(packet) => PacketView::Live(LiveView {
                depth: packet.depth(),
                cancel: packet.is_cancelled(),
                marks: packet.marks(),
                armer: packet.armer(),
            }),
            None if self.is_issued(n) => PacketView::Topped,
            None => PacketView::Never,
        }
    }

    /// Whether the start list of a device has a packet, and whether its DPC is queued.
    pub fn due(&self, device: u8) -> (bool, bool)
        ensures { result ≡ due_view self.now device }
    {
        let starts = match self.start_of(device) {
            Some(start) => start.first_to_start().is_some(),
            None => false,
        };
        (starts, self.is_queued(device))
    }
}
