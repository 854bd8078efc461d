//! A driver set written back as a driver text.

ghost use Rattle.std.specs.Prelude.{◌≡◌, IfOk, string_bytes};
ghost use Rattle.asm.specs.Reading.{IsNamed};
ghost use Rattle.asm_line.specs.Listing.{listing};

use asm_line::listing;
use driver_set::DriverSet;
use model::memory::OutOfMemory;
use std::alloc::Global;

/// The listing of a set, which is a text that names it. Names aren't part of a set: drivers are
/// called `d0`, routines `f0`, queues `q0` and devices `v0` and so on, and an instruction that is
/// jumped to has the label `a` and its position.
///
/// # Errors
///
/// When memory runs out.
#[tactic(auto, using(crate::proofs::Listed::Named::listing_named))]
pub fn disassemble(alloc: Global, set: &DriverSet) -> Result<String, OutOfMemory>
    ensures text { IfOk result (λ text. string_bytes text ≡ listing set.now) }
    ensures named { IfOk result (λ text. IsNamed (string_bytes text) set.now) }
{
    // a set is sound, which its lists tell
    let _drivers = set.drivers();
    let text = listing(alloc, set)?;
    Ok(text)
}
