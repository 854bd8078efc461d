//! The queues of devices, and what devices have for StartIo.

ghost use Rattle.std.specs.Prelude.{◌≡◌, IsTrue};

use crate::same::{Same, same_all};
use devqueue::{DeviceQueue, Guarded};
use model::limits::MAX_QUEUES;

impl Same for Guarded {
    fn same(&self, other: &Guarded) -> bool {
        if self.len() != other.len() {
            return false;
        }
        for place in 0..self.len() {
            if self.entry(place) != other.entry(place) {
                return false;
            }
        }
        true
    }
}

impl Same for [Guarded; MAX_QUEUES] {
    fn same(&self, other: &[Guarded; MAX_QUEUES]) -> bool {
        same_all(self.as_slice(), other.as_slice())
    }
}

impl Same for DeviceQueue {
    fn same(&self, other: &DeviceQueue) -> bool {
        self.is_busy() == other.is_busy()
            && self.current() == other.current()
            && self.start_list().same(other.start_list())
            && self.waiting().same(other.waiting())
    }
}
