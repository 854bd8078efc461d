//! Whole inputs and outputs, over devices that move some bytes a call.

ghost use Rattle.std.specs.Prelude.{◌≡◌, ◌+◌, ◌++◌, ◌⊎◌, [], IfErr, IfOk, OnErr, OnOk, vec_len};
ghost use Rattle.report.specs.Lines.{HasRoom};
ghost use Rattle.drvhost_devices.specs.Device.{Adds, CanCount, Counts, Holds, TakesBeginning};
ghost use Rattle.drvhost_devices.specs.Device.{Writes};
ghost use Rattle.drvhost_devices.specs.Fault.{reads_failed, writes_failed};

use crate::device::{Failed, Sink, Source};
use crate::fault::Fault;
use report::lines::Lines;
use std::alloc::{AllocError, Global};

/// Bytes read a call, at most.
const BLOCK: usize = 4_096;

/// The bytes of a source, up to its end.
pub fn read_whole<S: Source>(alloc: Global, source: &mut S) -> Result<Vec<u8>, Fault>
    requires { CanCount (S.failures source.old) }
    ensures bytes { IfOk result (λ bytes. Holds (S.supply source.old) bytes.items) }
    ensures fault { IfErr result (λ fault. (fault ≡ Fault.Read) ⊎ (fault ≡ Fault.Memory)) }
    ensures reads { S.failures source.new ≡ S.failures source.old + reads_failed result }
{
    let mut bytes = Vec::new(alloc);
    let mut block = zeros(alloc, BLOCK)?;
    for _ in 0..u64::MAX {
        let Ok(count) = source.read(&mut block) else {
            return Err(Fault::Read);
        };
        if count == 0 {
            return Ok(bytes);
        }
        bytes.extend_from_slice(&block[..count])?;
    }
    // So many bytes have no memory.
    Err(Fault::Memory)
}

fn zeros(alloc: Global, count: usize) -> Result<Vec<u8>, AllocError>
    ensures { IfOk result (λ bytes. vec_len bytes ≡ count) }
{
    vec![in alloc; 0; count]
}

/// Makes room for one line more: lines that have gathered are written where they fill their room.
#[inline]
pub fn make_room<K: Sink>(lines: &mut Lines, sink: &mut K) -> Result<(), Fault>
    requires { CanCount (K.failures sink.old) }
    ensures room { OnOk result (HasRoom lines.new) }
    ensures written { OnOk result
        (Adds (K.contents sink.old) (K.contents sink.new) lines.old lines.new []) }
    ensures broken { OnErr result
        (TakesBeginning (K.contents sink.old) (K.contents sink.new) lines.old) }
    ensures fault { IfErr result (λ fault. fault ≡ Fault.Write) }
    ensures writes { K.failures sink.new ≡ K.failures sink.old + writes_failed result }
{
    if lines.has_room() {
        return Ok(());
    }
    write_lines(lines, sink)
}

/// Writes the lines that have gathered to a sink, and forgets them.
pub fn write_lines<K: Sink>(lines: &mut Lines, sink: &mut K) -> Result<(), Fault>
    requires { CanCount (K.failures sink.old) }
    ensures forgotten { OnOk result (lines.new ≡ []) }
    ensures written { Writes (K.contents sink.old) result (K.contents sink.new) lines.old }
    ensures fault { IfErr result (λ fault. fault ≡ Fault.Write) }
    ensures writes { K.failures sink.new ≡ K.failures sink.old + writes_failed result }
{
    write_bytes(lines.bytes(), sink)?;
    lines.clear();
    Ok(())
}

/// Writes the lines that have gathered, and words behind them, and forgets the lines.
pub fn write_words<K: Sink>(lines: &mut Lines, words: &[u8], out: &mut K) -> Result<(), Fault>
    requires { CanCount (K.failures out.old) }
    ensures forgotten { OnOk result (lines.new ≡ []) }
    ensures written { Writes (K.contents out.old) result (K.contents out.new)
        (lines.old ++ words.now) }
    ensures fault { IfErr result (λ fault. fault ≡ Fault.Write) }
    ensures writes { K.failures out.new ≡ K.failures out.old + writes_failed result }
{
    write_lines(lines, out)?;
    write_bytes(words, out)
}

/// Writes all the bytes to a sink.
pub fn write_bytes<K: Sink>(bytes: &[u8], sink: &mut K) -> Result<(), Fault>
    requires { CanCount (K.failures sink.old) }
    ensures written { Writes (K.contents sink.old) result (K.contents sink.new) bytes.now }
    ensures fault { IfErr result (λ fault. fault ≡ Fault.Write) }
    ensures writes { K.failures sink.new ≡ K.failures sink.old + writes_failed result }
{
    match write_whole(sink, bytes) {
        Ok(()) => Ok(()),
        Err(Failed) => Err(Fault::Write),
    }
}

/// Writes all the bytes to a sink, as it takes them.
pub fn write_whole<K: Sink>(sink: &mut K, bytes: &[u8]) -> Result<(), Failed>
    requires { CanCount (K.failures sink.old) }
    ensures written { Writes (K.contents sink.old) result (K.contents sink.new) bytes.now }
    ensures counted { Counts (K.failures sink.old) result (K.failures sink.new) }
{
    let mut rest = bytes;
    while !rest.is_empty() {
        let count = sink.write(rest)?;
        let (_written, after) = rest.split_at(count);
        rest = after;
    }
    Ok(())
}
