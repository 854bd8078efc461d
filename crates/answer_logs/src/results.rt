//! What is found in several files.

ghost use Rattle.std.specs.Prelude.{◌≡◌, ◌+◌, ◌<◌, ◌^◌};
ghost use Rattle.drvhost_files.specs.Kept.{OnlyReads};
ghost use Rattle.drvhost_files.specs.Ready.{CanOpen, CanOpenMany};
ghost use Rattle.answer_logs.specs.Found.{ReadsAll, ReadsOne};

use crate::finding::{ReadFile, fault_in, found_in};
use crate::found::Found;
use drvhost_devices::fault::Fault;
use drvhost_devices::logging::Logging;
use drvhost_devices::transfer::read_whole;
use drvhost_files::files::Files;
use std::alloc::{AllocError, Global};

/// Looks at each of these files, in order.
pub(crate) fn read_all<F: Files>(
    alloc: Global,
    logging: Logging,
    names: &[String],
    files: &mut F,
) -> Result<Found, AllocError>
    requires files { CanOpenMany F.Files files.old }
    ensures reads { ReadsAll logging (F.supply files.old) names.now (F.opened files.old)
        (F.opened files.new) (F.failures files.old) (F.failures files.new) result }
    ensures kept { OnlyReads F.Files files.old files.new }
{
    let mut all = Found::new(alloc);
    for name in names {
        let found = found_of(alloc, logging, name.as_str(), files)?;
        all.add(found)?;
    }
    Ok(all)
}

/// Looks at the file of a name.
fn found_of<F: Files>(
    alloc: Global,
    logging: Logging,
    name: &str,
    files: &mut F,
) -> Result<Found, AllocError>
    requires files { CanOpen F.Files 1 files.old }
    ensures reads { ReadsOne logging name.now (F.supply files.old name.now)
        (F.failures files.old) (F.failures files.new) result }
    ensures opened { F.opened files.new ≡ F.opened files.old + 1 }
    ensures kept { OnlyReads F.Files files.old files.new }
{
    let mut file = files.open(name);
    let read = read_whole(alloc, &mut file);
    files.close(file);
    match read {
        Ok(bytes) => {
            let read = ReadFile {
                name,
                bytes: bytes.as_slice(),
            };
            found_in(alloc, logging, read)
        }
        Err(Fault::Read) => fault_in(alloc, name, "Unreadable", "", None),
        Err(_) => Err(AllocError),
    }
}
