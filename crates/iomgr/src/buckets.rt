//! The search for the live packet of a number.
//!
//! The slot of a live packet is in the bucket of its number's remainder. As numbers count up,
//! packets that are live together mostly have a bucket of their own each.

ghost use Rattle.std.specs.Prelude.{◌≡◌, ◌<◌, ◌^◌, ℕ, IfNone, IfOk, IfSome, false, length, true};
ghost use Rattle.model.specs.Queues.{is_linked};
ghost use Rattle.model.specs.declared.limits.TheConstants.{MAX_LIVE_PACKETS};
ghost use Rattle.devqueue.specs.Lists.{entries_of};
ghost use Rattle.iomgr.specs.Buckets.{AreEmpty, bucket_of, has_number};
ghost use Rattle.iomgr.specs.Slots.{lies_at};

use crate::packet_list::PacketList;
use devqueue::Links;
use model::limits::MAX_LIVE_PACKETS;
use std::alloc::{AllocError, Global};

/// So many empty buckets for as many slots. An error where memory for them is refused.
pub fn empty_buckets(alloc: Global, count: usize) -> Result<Links, AllocError>
    requires { count < 2 ^ 31 }
    ensures { IfOk result (AreEmpty count) }
{
    Links::new(alloc, count, count)
}

/// The bucket of a number.
pub fn bucket_of(n: u64) -> usize
    ensures bucket { result ≡ bucket_of n }
    ensures low { result < MAX_LIVE_PACKETS }
{
    (n % MAX_LIVE_PACKETS as u64) as usize
}

/// The slot in the bucket of a number whose packet has that number: none where the bucket has no
/// such slot.
pub fn slot_of(buckets: &Links, live: &PacketList, n: u64) -> Option<usize>
    requires { length buckets.now.lists ≡ MAX_LIVE_PACKETS }
    ensures found { IfSome result (λ slot. has_number (lies_at live.now slot) n ≡ true) }
    ensures missing { IfNone result ((slot : ℕ)
        → is_linked (entries_of buckets.now (bucket_of n)) slot ≡ true
        → has_number (lies_at live.now slot) n ≡ false) }
{
    buckets.slots_stand_once();
    let mut next = buckets.front(bucket_of(n));
    while let Some(slot) = next {
        if has_number(live, slot, n) {
            return Some(slot);
        }
        next = buckets.next(slot);
    }
    None
}

/// Whether the packet of a number lies in a slot.
fn has_number(live: &PacketList, slot: usize, n: u64) -> bool
    ensures { result ≡ has_number (lies_at live.now slot) n }
{
    match live.in_slot(slot) {
        Some(packet) => packet.number() == n,
        None => false,
    }
}
