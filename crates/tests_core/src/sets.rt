//! The sets of the tests, and cores of them.

ghost use Rattle.std.specs.Prelude.{◌≡◌, ◌≤◌, None, replicate};
ghost use Rattle.model.specs.declared.limits.TheConstants.{MAX_HISTORY, MAX_THREADS};

use asm::assemble;
use hostcore::Core;
use model::history::Command;
use model::status::Major;
use std::alloc::Global;
use std::process::Abort;
use verifier::verify;

/// A driver that completes each read at once, after it had a lock.
pub(crate) const LOCKS: &[u8] =
    b"driver d\ndispatch READ f\nroutine f dispatch\nacquire l0\nrelease l0\n\
      complete r0 SUCCESS\nret SUCCESS\nendr\nendd\ndevice v d 1\n";

/// A driver that completes each read and each write at once, after it had two locks: a read takes
/// them in one order, and a write in the other.
pub(crate) const CROSSES: &[u8] = b"driver pair\ndispatch READ on_read\ndispatch WRITE on_write\n\
      routine on_read dispatch\nacquire l0\nacquire l1\nrelease l1\nrelease l0\n\
      complete r0 SUCCESS\nret SUCCESS\nendr\n\
      routine on_write dispatch\nacquire l1\nacquire l0\nrelease l0\nrelease l1\n\
      complete r0 SUCCESS\nret SUCCESS\nendr\nendd\ndevice disk pair 1\n";

/// A read of device 0.
pub(crate) const READ: Command = Command::Request {
    device: 0,
    major: Major::Read,
    argument: 0,
};

/// An idle core of a set, with ample memory.
pub(crate) fn core_of<R: Abort>(rt: &R, alloc: Global, text: &[u8], threads: u8, log: usize) -> Core
    requires some { 1 ≤ threads }
    requires few { threads ≤ MAX_THREADS }
    requires short { log ≤ MAX_HISTORY }
    ensures threads { result.threads ≡ threads }
    ensures free { result.seats ≡ replicate threads None }
{
    let set = assemble(alloc, text).ok().expect(rt, "a set");
    let accepted = verify(alloc, set).ok().expect(rt, "an accepted set");
    Core::new(alloc, accepted, threads, log)
        .ok()
        .expect(rt, "memory")
}
