//! How often an instruction is executed at most, from the certificate's sums up to it.

ghost use Rattle.std.specs.Prelude.{◌≡◌, ◌<◌, ◌≤◌, ◌+◌, ◌-◌, ◌*◌, length, Some};
ghost use Rattle.std.specs.Prelude.{slice_get, slice_index_or};
ghost use Rattle.model.specs.declared.limits.TheConstants.{MAX_CERTIFICATE, MAX_TURNS};
ghost use Rattle.model.specs.Certificate.{turns_at};
ghost use Rattle.model.specs.Loops.{turns_of};
ghost use Rattle.verifier.specs.Survey.{ArePlaced};
ghost use Rattle.verifier.specs.Pass.{AreSums};

use crate::loops::Place;
use model::instr::Instr;

/// The product of the turns of the loops whose bodies hold a position. The product for the
/// innermost of them is what the certificate grew by there.
pub fn turns_at(code: &[Instr], places: &[Place], sums: &[u32], at: usize) -> u32
    requires within { at < length code.now }
    requires placed { ArePlaced code.now (length code.now) places.now }
    requires summed { AreSums code.now at sums.now }
    ensures turns { result ≡ turns_at code.now at }
    ensures few { result ≤ MAX_TURNS * MAX_CERTIFICATE }
{
    match places[at].round.innermost {
        None => 1,
        Some(q) => turns_within(code, sums, q as usize),
    }
}

/// How often the body of the loop at a position is executed at most, from the sums before the loop
/// and after it.
fn turns_within(code: &[Instr], sums: &[u32], q: usize) -> u32
    requires within { q < length code.now }
    requires summed { q + 1 < length sums.now }
    requires grown { slice_index_or sums.now q 0 ≤ slice_index_or sums.now (q + 1) 0 }
    requires short { slice_index_or sums.now (q + 1) 0 ≤ MAX_CERTIFICATE }
    ensures turns { result
        ≡ turns_of (slice_get code.now q)
        * (slice_index_or sums.now (q + 1) 0 - slice_index_or sums.now q 0) }
    ensures few { result ≤ MAX_TURNS * MAX_CERTIFICATE }
{
    turns_of(&code[q]) * (sums[q + 1] - sums[q])
}

/// The turns of a loop.
fn turns_of(instr: &Instr) -> u32
    ensures turns { result ≡ turns_of (Some instr.now) }
    ensures few { result ≤ MAX_TURNS }
{
    match *instr {
        Instr::Loop(turns) => turns.count() as u32,
        _ => 1,
    }
}
