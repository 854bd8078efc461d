//! The seats of the first threads of a core, one for each worker.

ghost use Rattle.std.specs.Prelude.{◌≡◌, ◌<◌, ◌≤◌, ℕ, [], None, Some, length, slice_get};
ghost use Rattle.std.specs.List.{range_with_len};
ghost use Rattle.std.specs.Vec.{vec_capacity};
ghost use Rattle.intake.specs.declared.limits.TheConstants.{MAX_TAKERS};
ghost use Rattle.workers.specs.Kept.{AreBack, AreGiven, counts_of};

use arrayvec::ArrayVec;
use hostcore::{Core, Seat};

/// Gives out the seats of the first so many threads, in order.
pub fn give_out(core: &mut Core, seats: &mut Vec<Seat>, count: usize)
    requires few { count ≤ MAX_TAKERS }
    requires empty { seats.old.items ≡ [] }
    requires room { count ≤ vec_capacity seats.old }
    requires free { (i : ℕ) → i < count → slice_get core.old.seats i ≡ Some None }
    ensures seats { seats.new.items ≡ range_with_len 0 count }
    ensures given { AreGiven count core.old core.new }
{
    for thread in 0..count as u8 {
        let Some(seat) = core.seat(thread) else {
            unreachable!()
        };
        seats.push_reserved(seat);
    }
}

/// Gives the seats of the first threads back, and answers how many entries each has counted.
pub fn give_back(core: &mut Core, mut seats: Vec<Seat>) -> ArrayVec<u64, 64>
    requires few { length seats.items ≤ MAX_TAKERS }
    requires seats { seats.items ≡ range_with_len 0 (length seats.items) }
    requires core { length seats.items ≤ length core.old.seats }
    ensures counts { result.items ≡ counts_of core.old (length seats.items) }
    ensures back { AreBack (length seats.items) core.old core.new }
{
    let mut counts = ArrayVec::new();
    while !seats.is_empty() {
        let seat = seats.remove(0);
        counts.push(core.give_back(seat));
    }
    seats.destroy_empty();
    counts
}
