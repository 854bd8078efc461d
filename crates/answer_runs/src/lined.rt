//! The lines of a trace in any form, as an observer of its run adds them.

ghost use Rattle.std.specs.Prelude.{◌≡◌, ◌+◌, ◌++◌, ◌⊎◌, ◌<◌, ◌^◌, [], IfErr, OnErr, OnOk};
ghost use Rattle.std.specs.Prelude.{replicate};
ghost use Rattle.interleave.specs.Listing.{IsWithinLimits};
ghost use Rattle.model.specs.Run.{begun};
ghost use Rattle.drvhost_devices.specs.Answer.{shown_replies};
ghost use Rattle.drvhost_devices.specs.Device.{Adds, CanCount, TakesBeginning};
ghost use Rattle.drvhost_devices.specs.Fault.{writes_failed};
ghost use Rattle.answer_runs.specs.Repeats.{told_by};
ghost use Rattle.answer_runs.specs.Lined.{Lines, LinesBreak};
ghost use Rattle.answer_runs.specs.Traced.{Breaks, IsTraceBy, Streams, lines_by};

use crate::follow::is_last;
use crate::reply_lines::ReplyLines;
use crate::running::{Machine, Replies};
use crate::watching::{Observer, Taken, observe};
use drvhost_devices::device::Sink;
use drvhost_devices::fault::{End, Fault};
use drvhost_devices::transfer::write_bytes;
use interleave::schedule::Schedule;
use model::event::{Event, Reply};

/// The lines of a run's replies, which gather before they are written.
#[derive(Drop)]
pub(crate) struct LineWriter<'a, L, O> {
    pub(crate) page: &'a mut L,
    pub(crate) out: &'a mut O,
}

impl<'a, M: Machine, L: ReplyLines, O: Sink> Observer<M> for LineWriter<'a, L, O> {
    ghost tells = { Lines L.ReplyLines O.Sink };

    ghost breaks = { LinesBreak L.ReplyLines O.Sink };

    #[inline(always)]
    fn watch(&mut self, machine: &mut M, event: &Event, count: usize) -> Result<Taken, Fault> {
        if count == 1 {
            let reply = machine.answer(event);
            add_replies(self.page, &reply, 1, self.out)?;
            return Ok(Taken {
                count: 1,
                ended: is_last(&reply),
            });
        }
        let replies = machine.repeat(event, count);
        add_told(self.page, &replies, self.out)?;
        Ok(Taken {
            count: replies.stepped + replies.times,
            ended: is_last(&replies.last),
        })
    }
}

/// Runs the events of a schedule, up to one that stops the run, and writes their lines, behind none
/// on a page. Lines that fill their room are written on the way.
pub(crate) fn follow<L: ReplyLines, M: Machine, O: Sink>(
    page: &mut L,
    machine: &mut M,
    schedule: &Schedule,
    out: &mut O,
) -> Result<End, Fault>
    requires begun { M.shows machine.old schedule.now.threads [] }
    requires limits { IsWithinLimits schedule.now }
    requires first { L.number page.old ≡ 0 }
    requires empty { L.gathered page.old ≡ [] }
    requires out { CanCount (O.failures out.old) }
    ensures streams { Streams (IsTraceBy L.lacks L.line (shown_replies (M.set_of machine.old)
        (begun (M.set_of machine.old) schedule.now.threads) schedule.now.events))
        (O.contents out.old) (O.contents out.new) result }
    ensures fault { IfErr result (λ fault. (fault ≡ Fault.Write) ⊎ (fault ≡ Fault.Memory)) }
    ensures writes { O.failures out.new ≡ O.failures out.old + writes_failed result }
{
    let mut writer = LineWriter { page, out };
    write_run(machine, schedule, &mut writer)
}

/// Writes the lines of the run of a schedule, up to a bug check or a wrong operand.
#[inline(always)]
fn write_run<M: Machine, L: ReplyLines, O: Sink>(
    machine: &mut M,
    schedule: &Schedule,
    writer: &mut LineWriter<'_, L, O>,
) -> Result<End, Fault>
    requires begun { M.shows machine.old schedule.now.threads [] }
    requires limits { IsWithinLimits schedule.now }
    requires first { L.number writer.old.page.now ≡ 0 }
    requires empty { L.gathered writer.old.page.now ≡ [] }
    requires out { CanCount (O.failures writer.old.out.now) }
    ensures same_page { writer.new.page.ghost_name ≡ writer.old.page.ghost_name }
    ensures same_out { writer.new.out.ghost_name ≡ writer.old.out.ghost_name }
    ensures streams { Streams (IsTraceBy L.lacks L.line (shown_replies (M.set_of machine.old)
        (begun (M.set_of machine.old) schedule.now.threads) schedule.now.events))
        (O.contents writer.old.out.now) (O.contents writer.new.out.now) result }
    ensures fault { IfErr result (λ fault. (fault ≡ Fault.Write) ⊎ (fault ≡ Fault.Memory)) }
    ensures writes { O.failures writer.new.out.now
        ≡ O.failures writer.old.out.now + writes_failed result }
{
    let end = observe(machine, schedule, writer)?;
    write_bytes(writer.page.bytes(), writer.out)?;
    Ok(end)
}

/// Adds the lines of the replies to an event that happened several times in a row.
#[inline]
fn add_told<L: ReplyLines, O: Sink>(
    page: &mut L,
    replies: &Replies,
    out: &mut O,
) -> Result<(), Fault>
    requires numbers { L.number page.old + replies.now.stepped + replies.now.times < 2 ^ 64 }
    requires out { CanCount (O.failures out.old) }
    ensures number { OnOk result (L.number page.new
        ≡ L.number page.old + (replies.now.stepped + replies.now.times)) }
    ensures added { OnOk result (Adds (O.contents out.old) (O.contents out.new)
        (L.gathered page.old) (L.gathered page.new)
        (lines_by L.line (L.number page.old) (told_by replies.now))) }
    ensures broken { OnErr result (TakesBeginning (O.contents out.old) (O.contents out.new)
        (L.gathered page.old ++ lines_by L.line (L.number page.old) (told_by replies.now))) }
    ensures fault { IfErr result (Breaks L.lacks) }
    ensures writes { O.failures out.new ≡ O.failures out.old + writes_failed result }
{
    add_replies(page, &Reply::Stepped, replies.stepped, out)?;
    add_replies(page, &replies.last, replies.times, out)?;
    Ok(())
}

/// Adds the lines of so many events in a row that have the same reply.
#[inline]
fn add_replies<L: ReplyLines, O: Sink>(
    page: &mut L,
    reply: &Reply,
    count: usize,
    out: &mut O,
) -> Result<(), Fault>
    requires numbers { L.number page.old + count < 2 ^ 64 }
    requires out { CanCount (O.failures out.old) }
    ensures number { OnOk result (L.number page.new ≡ L.number page.old + count) }
    ensures added { OnOk result (Adds (O.contents out.old) (O.contents out.new)
        (L.gathered page.old) (L.gathered page.new)
        (lines_by L.line (L.number page.old) (replicate count reply.now))) }
    ensures broken { OnErr result (TakesBeginning (O.contents out.old) (O.contents out.new)
        (L.gathered page.old ++ lines_by L.line (L.number page.old) (replicate count reply.now))) }
    ensures fault { IfErr result (Breaks L.lacks) }
    ensures writes { O.failures out.new ≡ O.failures out.old + writes_failed result }
{
    let mut left = count as u64;
    while left > 0 {
        make_room(page, out)?;
        let told = page.put(reply, left)?;
        left -= told;
    }
    Ok(())
}

/// Makes room for one line more: lines that have gathered are written where they fill their room.
#[inline]
fn make_room<L: ReplyLines, O: Sink>(page: &mut L, out: &mut O) -> Result<(), Fault>
    requires { CanCount (O.failures out.old) }
    ensures number { L.number page.new ≡ L.number page.old }
    ensures room { OnOk result (L.has_room page.new) }
    ensures written { OnOk result (Adds (O.contents out.old) (O.contents out.new)
        (L.gathered page.old) (L.gathered page.new) []) }
    ensures broken { OnErr result
        (TakesBeginning (O.contents out.old) (O.contents out.new) (L.gathered page.old)) }
    ensures fault { IfErr result (λ fault. fault ≡ Fault.Write) }
    ensures writes { O.failures out.new ≡ O.failures out.old + writes_failed result }
{
    if !page.is_full() {
        return Ok(());
    }
    write_bytes(page.bytes(), out)?;
    page.clear();
    Ok(())
}
