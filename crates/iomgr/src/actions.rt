//! What drivers and the I/O manager do to the packet of a key.

ghost use Rattle.std.specs.Prelude.{◌≡◌, ◌<◌, false, length, true};

use crate::packet_table::{Key, PacketTable};
use model::status::Status;
use model::world::{Armer, Completion};

impl PacketTable {
    ghost use Rattle.model.specs.World.{cancelled, completed, mark_current, sent_down, shared_with};
    ghost use Rattle.model.specs.World.{with_armer, with_info};
    ghost use Rattle.iomgr.specs.Slots.{Holds, packet_at, with_packet_at};

    /// Sets IoStatus.Information.
    pub fn set_info(&mut self, key: Key, info: u64)
        requires { Holds self.old.live key }
        ensures { let packet = packet_at self.old.live key in
            self.new ≡ with_packet_at self.old key (with_info packet info) }
    {
        self.live.packet_mut(key.slot()).set_info(info);
    }

    /// Sets IoStatus.Status, for a machine that doesn't keep whether the I/O manager has the
    /// packet.
    pub fn set_status(&mut self, key: Key, status: Status)
        requires { Holds self.old.live key }
        ensures { let packet = packet_at self.old.live key in
            self.new ≡ with_packet_at self.old key (record packet { status = status }) }
    {
        self.live.packet_mut(key.slot()).set_status(status);
    }

    /// IoMarkIrpPending: marks the current location.
    pub fn mark(&mut self, key: Key)
        requires { Holds self.old.live key }
        ensures { let packet = packet_at self.old.live key in
            self.new ≡ with_packet_at self.old key (mark_current packet) }
    {
        self.live.packet_mut(key.slot()).mark();
    }

    /// IoSkipCurrentIrpStackLocation and IoCallDriver: the lower device is asked in the current
    /// location.
    pub fn share(&mut self, key: Key, device: u8)
        requires { Holds self.old.live key }
        ensures { let packet = packet_at self.old.live key in
            self.new ≡ with_packet_at self.old key (shared_with packet device) }
    {
        self.live.packet_mut(key.slot()).share(device);
    }

    /// IoCopyCurrentIrpStackLocationToNext, IoSetCompletionRoutine and IoCallDriver: the lower
    /// device is asked the same in the next location, which becomes current.
    pub fn send_down(&mut self, key: Key, device: u8, completion: Option<Completion>)
        requires held { Holds self.old.live key }
        requires room { let packet = packet_at self.old.live key in
            packet.depth < length packet.locations.items }
        ensures { let packet = packet_at self.old.live key in
            self.new ≡ with_packet_at self.old key (sent_down packet device completion) }
    {
        self.live.packet_mut(key.slot()).down(device, completion);
    }

    /// IoCompleteRequest: the I/O manager has the packet, with its final status.
    pub fn complete(&mut self, key: Key, status: Status)
        requires { Holds self.old.live key }
        ensures { let packet = packet_at self.old.live key in
            self.new ≡ with_packet_at self.old key (completed packet status) }
    {
        self.live.packet_mut(key.slot()).complete(status);
    }

    /// The I/O manager lends the packet to a completion routine that may hold it.
    pub fn lend(&mut self, key: Key)
        requires { Holds self.old.live key }
        ensures { let packet = packet_at self.old.live key in
            self.new ≡ with_packet_at self.old key (record packet { completing = false }) }
    {
        self.live.packet_mut(key.slot()).lend();
    }

    /// The I/O manager has the packet again, and goes on with its completion.
    pub fn give_back(&mut self, key: Key)
        requires { Holds self.old.live key }
        ensures { let packet = packet_at self.old.live key in
            self.new ≡ with_packet_at self.old key (record packet { completing = true }) }
    {
        self.live.packet_mut(key.slot()).give_back();
    }

    /// IoCancelIrp: the packet is to be cancelled.
    pub fn cancel(&mut self, key: Key)
        requires { Holds self.old.live key }
        ensures { let packet = packet_at self.old.live key in
            self.new ≡ with_packet_at self.old key (cancelled packet) }
    {
        self.live.packet_mut(key.slot()).cancel();
    }

    /// IoSetCancelRoutine: the cancel word becomes this one, and what it was is answered.
    pub fn exchange(&mut self, key: Key, armer: Option<Armer>) -> Option<Armer>
        requires { Holds self.old.live key }
        ensures word { result ≡ (packet_at self.old.live key).armer }
        ensures packet { let packet = packet_at self.old.live key in
            self.new ≡ with_packet_at self.old key (with_armer packet armer) }
    {
        self.live.packet_mut(key.slot()).exchange(armer)
    }
}
