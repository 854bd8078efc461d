//! The image of a driver set, whatever its file is.

ghost use Rattle.std.specs.Prelude.{◌≡◌, ◌+◌, ◌⊎◌, [], IfOk};
ghost use Rattle.drvhost_devices.specs.Device.{Bytes, CanCount};
ghost use Rattle.drvhost_devices.specs.Ends.{AnswersOver, IsRewriteOf, TakesImage};
ghost use Rattle.drvhost_devices.specs.Fault.{Goes, ReadsImage, reads_failed, status_of};
ghost use Rattle.drvhost_devices.specs.Fault.{writes_failed};
ghost use Rattle.drvhost_devices.specs.Ready.{CanAnswer};

use answer::as_text::{Text, ended};
use answer::content::Given;
use answer::deliver::answer_to;
use answer::judged::Unjudged;
use answer::set::OnAnySet;
use drvhost_devices::device::{Sink, Source};
use drvhost_devices::fault::{End, Fault, finish, no_memory};
use drvhost_devices::reading::set_of;
use drvhost_devices::told::Told;
use drvhost_devices::transfer::{read_whole, write_bytes};
use image::{DriverSet, encode};
use model::memory::OutOfMemory;
use report::lines::Lines;
use std::alloc::{AllocError, Global};

/// The job of writing the image of a set, in the second edition.
#[derive(Clone, Copy)]
pub struct Rewriting;

impl OnAnySet<Text> for Rewriting {
    ghost use Rattle.drvhost_devices.specs.Answer.{IsRewritten};

    ghost right = { λ _ _ _ _. IsRewritten };

    fn on(
        &self,
        _form: &Text,
        alloc: Global,
        _given: &Given<'_>,
        set: &DriverSet,
    ) -> Result<Told, AllocError> {
        let _sound = set.drivers();
        match encode(alloc, set) {
            Ok(bytes) => Ok(ended(alloc, End::Complete, bytes)),
            Err(OutOfMemory) => Err(AllocError),
        }
    }
}

/// The image of the set that bytes name, in the second edition.
///
/// # Errors
///
/// When memory runs out.
pub fn rewritten(alloc: Global, bytes: &[u8]) -> Result<Told, AllocError>
    ensures { IfOk result (IsRewriteOf (Bytes bytes.now)) }
{
    let unjudged = Unjudged {
        job: Rewriting,
        form: Text,
    };
    Ok(answer_to(&unjudged, alloc, "", bytes)?)
}

/// Writes the image of a driver set, in the second edition, whether or not the set is accepted. The
/// answer is the exit status: 0 where it was written, 2 where the set's text or its image is faulty
/// or a read or a write failed, 3 where memory ran out. Faults are told on the error writer.
/// Nothing is done with the writer before the whole image stands in memory.
pub fn rewrite<S: Source, O: Sink, E: Sink>(
    alloc: Global,
    set: &mut S,
    out: &mut O,
    err: &mut E,
) -> u8
    requires { CanAnswer O.Sink E.Sink (S.failures set.old) out.old err.old }
    ensures answers { AnswersOver O.Sink E.Sink (IsRewriteOf (S.supply set.old))
        (S.failures set.old) (S.failures set.new) out.old out.new err.old err.new result }
    ensures touched { (out.new ≡ out.old)
        ⊎ TakesImage (S.supply set.old) (O.contents out.old) (O.contents out.new) result }
{
    match Lines::new(alloc) {
        Ok(mut lines) => {
            let end = rewrite_set(alloc, set, out);
            finish(end, &mut lines, err)
        }
        Err(AllocError) => no_memory(err),
    }
}

/// Writes the image of the set that the bytes of a source name, once it stands whole.
fn rewrite_set<S: Source, O: Sink>(alloc: Global, set: &mut S, out: &mut O) -> Result<End, Fault>
    requires set { CanCount (S.failures set.old) }
    requires out { CanCount (O.failures out.old) }
    ensures goes { Goes (IsRewriteOf (S.supply set.old)) (O.contents out.old) (O.contents out.new)
        [] [] result }
    ensures reads { S.failures set.new ≡ S.failures set.old + reads_failed result }
    ensures writes { O.failures out.new ≡ O.failures out.old + writes_failed result }
    ensures touched { (out.new ≡ out.old)
        ⊎ TakesImage (S.supply set.old) (O.contents out.old) (O.contents out.new)
        (status_of result) }
{
    let image = image_of(alloc, set)?;
    write_bytes(image.as_slice(), out)?;
    Ok(End::Complete)
}

/// The image of the set that the bytes of a source name.
fn image_of<S: Source>(alloc: Global, source: &mut S) -> Result<Vec<u8>, Fault>
    requires { CanCount (S.failures source.old) }
    ensures image { ReadsImage (S.supply source.old) result }
    ensures reads { S.failures source.new ≡ S.failures source.old + reads_failed result }
    ensures unwritten { writes_failed result ≡ 0 }
{
    let bytes = read_whole(alloc, source)?;
    let set = set_of(alloc, bytes.as_slice())?;
    let _sound = set.drivers();
    let image = encode(alloc, &set)?;
    Ok(image)
}
