//! Packets that the I/O manager lends to completion routines that may hold them.

ghost use Rattle.std.specs.Prelude.{◌≡◌};

use crate::packet_table::PacketTable;

impl PacketTable {
    ghost use Rattle.iomgr.specs.Hold.{lent, lent_by};
    ghost use Rattle.iomgr.specs.Slots.{table_in};

    /// Lends the packet of a number to a completion routine that may hold it: `walk` told of it.
    pub fn lend_to_routine(&mut self, n: u64)
        ensures slots { self.new ≡ lent_by self.old n }
        ensures packets { table_in self.new ≡ lent (table_in self.old) n }
    {
        if let Some(key) = self.find(n) {
            self.lend(key);
        }
    }
}
