//! Large answers, made once: the library keeps one behind a handle until it is freed.

ghost use Rattle.std.specs.Prelude.{◌≡◌};
ghost use Rattle.drvhost_devices.specs.Device.{Bytes};
ghost use Rattle.drvhost_devices.specs.Ends.{IsListOf, IsTraceOf};
ghost use Rattle.answer_hunts.specs.Hunt.{IsHuntOf};
ghost use Rattle.answer_mends.specs.Mend.{IsMendOf};
ghost use Rattle.drvhost_devices.specs.declared.figure.Figure.TheVariants.{Picture};
ghost use Rattle.answer_explain.specs.Explained.{IsExplainedOf};
ghost use Rattle.answer_views.specs.Told.{IsDrawOf, IsTellOf};
ghost use Rattle.pafteis.specs.Called.{extent_named, verification_named};
ghost use Rattle.pafteis.specs.Keeping.{Frees, KeepsIf, KeepsRight, KeepsTold, ReadsPiece};
ghost use Rattle.pafteis.specs.Seeking.{asked_named, reach_named};
ghost use Rattle.pafteis.specs.Shown.{telling_named};

use crate::seeking::{HuntValue, asked_of, reach_of};
use crate::shown::telling_of;
use crate::texts::{NO_MEMORY, extent_of, verification_of, wrong};
use crate::worlds::{DONE, NO_WORLD};
use drvhost_devices::told::Told;
use model::memory::OutOfMemory;
use pafteis_parts::answers::{self, Run, run_as};
use pafteis_world::keeping;
use pafteis_world::kept::Kept;
use std::alloc::Global;

/// Keeps what `pafteis_explain` answers.
#[unsafe(no_mangle)]
pub extern "C" fn pafteis_answer_explain(
    alloc: Global,
    set: &[u8],
    extent: u32,
    answer: &mut Kept,
    needed: &mut usize,
) -> u32
    ensures { KeepsIf (λ e. IsExplainedOf e (Bytes set.now)) (extent_named extent) answer.old
        answer.new needed.new result }
{
    match extent_of(extent) {
        Some(extent) => keep(alloc, answers::explain(alloc, extent, set), answer, needed),
        None => wrong(needed),
    }
}

/// Keeps what `pafteis_trace` answers.
#[unsafe(no_mangle)]
pub extern "C" fn pafteis_answer_trace(
    alloc: Global,
    set: &[u8],
    schedule: &[u8],
    flags: u32,
    answer: &mut Kept,
    needed: &mut usize,
) -> u32
    ensures { KeepsIf (λ v. IsTraceOf v (Bytes set.now) (Bytes schedule.now))
        (verification_named flags) answer.old answer.new needed.new result }
{
    match verification_of(flags) {
        Some(verification) => {
            let told = run_as(alloc, set, schedule, Run::Trace(verification));
            keep(alloc, told, answer, needed)
        }
        None => wrong(needed),
    }
}

/// Keeps what `pafteis_tell` answers.
#[unsafe(no_mangle)]
pub extern "C" fn pafteis_answer_tell(
    alloc: Global,
    set: &[u8],
    schedule: &[u8],
    flags: u32,
    answer: &mut Kept,
    needed: &mut usize,
) -> u32
    ensures { KeepsIf (λ t. IsTellOf t.verification t.manner (Bytes set.now) (Bytes schedule.now))
        (telling_named flags) answer.old answer.new needed.new result }
{
    match telling_of(flags) {
        Some(telling) => {
            let told = run_as(alloc, set, schedule, Run::Tell(telling));
            keep(alloc, told, answer, needed)
        }
        None => wrong(needed),
    }
}

/// Keeps what `pafteis_draw` answers.
#[unsafe(no_mangle)]
pub extern "C" fn pafteis_answer_draw(
    alloc: Global,
    set: &[u8],
    schedule: &[u8],
    flags: u32,
    answer: &mut Kept,
    needed: &mut usize,
) -> u32
    ensures { KeepsIf (λ v. IsDrawOf v Picture (Bytes set.now) (Bytes schedule.now))
        (verification_named flags) answer.old answer.new needed.new result }
{
    match verification_of(flags) {
        Some(verification) => {
            let told = run_as(alloc, set, schedule, Run::Draw(verification));
            keep(alloc, told, answer, needed)
        }
        None => wrong(needed),
    }
}

/// Keeps what `pafteis_hunt` answers.
#[unsafe(no_mangle)]
pub extern "C" fn pafteis_answer_hunt(
    alloc: Global,
    set: &[u8],
    asked: &HuntValue,
    answer: &mut Kept,
    needed: &mut usize,
) -> u32
    ensures { KeepsIf (λ bounds. IsHuntOf bounds (Bytes set.now)) (reach_named asked.now)
        answer.old answer.new needed.new result }
{
    match reach_of(asked) {
        Some(reach) => keep(alloc, answers::hunt(alloc, reach, set), answer, needed),
        None => wrong(needed),
    }
}

/// Keeps what `pafteis_mend` answers.
#[unsafe(no_mangle)]
pub extern "C" fn pafteis_answer_mend(
    alloc: Global,
    set: &[u8],
    tries: u64,
    answer: &mut Kept,
    needed: &mut usize,
) -> u32
    ensures { KeepsIf (λ asked. IsMendOf asked (Bytes set.now)) (asked_named tries) answer.old
        answer.new needed.new result }
{
    match asked_of(tries) {
        Some(asked) => keep(alloc, answers::mend(alloc, asked, set), answer, needed),
        None => wrong(needed),
    }
}

/// Keeps what `pafteis_list` answers.
#[unsafe(no_mangle)]
pub extern "C" fn pafteis_answer_list(
    alloc: Global,
    set: &[u8],
    answer: &mut Kept,
    needed: &mut usize,
) -> u32
    ensures { KeepsRight (IsListOf (Bytes set.now)) answer.old answer.new needed.new result }
{
    keep(alloc, answers::list(alloc, set), answer, needed)
}

/// Puts a piece of an answer into a buffer, from a byte on, as much as has room there; 5 where no
/// answer is kept.
#[unsafe(no_mangle)]
pub extern "C" fn pafteis_answer_read(
    alloc: Global,
    answer: &mut Kept,
    from: usize,
    buffer: &mut [u8],
    read: &mut usize,
) -> u32
    ensures { ReadsPiece from answer.old answer.new buffer.old buffer.new read.old read.new result }
{
    match keeping::read(alloc, answer, from, buffer) {
        Some(count) => {
            *read = count;
            DONE
        }
        None => NO_WORLD,
    }
}

/// Frees an answer; 5 where none is kept, as where it was freed before.
#[unsafe(no_mangle)]
pub extern "C" fn pafteis_answer_free(alloc: Global, answer: &mut Kept) -> u32
    ensures { Frees answer.old answer.new result }
{
    if keeping::free(alloc, answer) {
        DONE
    } else {
        NO_WORLD
    }
}

/// Keeps an answer behind a handle, and says how many bytes it has.
fn keep(
    alloc: Global,
    told: Result<Told, OutOfMemory>,
    answer: &mut Kept,
    needed: &mut usize,
) -> u32
    ensures { KeepsTold told answer.old answer.new needed.new result }
{
    let Ok(told) = told else {
        return none(needed);
    };
    let status = u32::from(told.status());
    let Ok(bytes) = told.into_bytes() else {
        return none(needed);
    };
    let length = bytes.len();
    if keeping::keep(alloc, bytes, answer) {
        *needed = length;
        status
    } else {
        none(needed)
    }
}

/// Memory was refused.
fn none(needed: &mut usize) -> u32
    ensures status { result ≡ NO_MEMORY }
    ensures needed { needed.new ≡ 0 }
{
    *needed = 0;
    NO_MEMORY
}
