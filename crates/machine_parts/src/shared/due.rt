//! What is due of devices.

ghost use Rattle.std.specs.Prelude.{◌≡◌};

use super::Shared;

impl Shared {
    ghost use Rattle.laws_slots.specs.SlotEvents.{slot_queued, with_slot_dpc};
    ghost use Rattle.machine_parts.specs.Devices.{slot_due};

    /// Whether the DPC of a device is queued.
    pub fn is_queued(&self, device: u8) -> bool
        ensures { result ≡ slot_queued self.now device }
    {
        match self.dpc_list.get(device as usize) {
            Some(queued) => *queued,
            None => false,
        }
    }

    /// Queues the DPC of a device, or takes it off.
    pub fn set_queued(&mut self, device: u8, queued: bool)
        ensures { self.new ≡ with_slot_dpc self.old device queued }
    {
        if let Some(dpc) = self.dpc_list.get_mut(device as usize) {
            *dpc = queued;
        }
    }

    /// Whether the start list of a device has a packet, and whether its DPC is queued.
    pub fn due(&self, device: u8) -> (bool, bool)
        ensures { result ≡ slot_due self.now device }
    {
        let starts = self.has_device(device) && self.first_to_start(device).is_some();
        (starts, self.is_queued(device))
    }
}
