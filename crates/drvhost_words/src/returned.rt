//! Files that are handed back, if they were opened.

ghost use Rattle.std.specs.Prelude.{◌≡◌, ◌+◌, ◌<◌, ◌^◌};
ghost use Rattle.drvhost_files.specs.Files.{failures_of};
ghost use Rattle.drvhost_words.specs.Returned.{StoresIf, count_of};

use drvhost_devices::device::{Sink, Source};
use drvhost_files::files::Files;

/// Takes two files back that were opened to be read, the second if it was.
pub(crate) fn close_both<F: Files>(files: &mut F, file: F::File, input: Option<F::File>)
    requires room { F.opened files.old + 2 < 2 ^ 64 }
    requires few { F.failures files.old + F.File.failures file
        + failures_of F.File.failures input < 2 ^ 64 }
    ensures opened { F.opened files.new ≡ F.opened files.old + 1 + count_of input }
    ensures failures { F.failures files.new
        ≡ F.failures files.old + F.File.failures file + failures_of F.File.failures input }
    ensures created { F.created files.new ≡ F.created files.old }
    ensures unwritten { F.unwritten files.new ≡ F.unwritten files.old }
    ensures supply { F.supply files.new ≡ F.supply files.old }
{
    files.close(file);
    if let Some(input) = input {
        files.close(input);
    }
}

/// Takes the file of a name back that was opened to be written to, if it was.
pub(crate) fn keep_if_opened<F: Files>(files: &mut F, name: &str, target: Option<F::Target>)
    requires room { F.created files.old + 1 < 2 ^ 64 }
    requires few { F.unwritten files.old + failures_of F.Target.failures target < 2 ^ 64 }
    ensures opened { F.opened files.new ≡ F.opened files.old }
    ensures failures { F.failures files.new ≡ F.failures files.old }
    ensures created { F.created files.new ≡ F.created files.old + count_of target }
    ensures unwritten { F.unwritten files.new
        ≡ F.unwritten files.old + failures_of F.Target.failures target }
    ensures stores { StoresIf F.Target.contents (F.supply files.old) (F.supply files.new) name.now
        target }
{
    if let Some(target) = target {
        files.keep(name, target);
    }
}
