//! What is read before workers serve a script.

ghost use Rattle.std.specs.Prelude.{◌≡◌, ◌≢◌, ◌+◌, ◌++◌, ◌≤◌, ◌⊎◌, Err, IfErr, IfOk, OnOk, length};
ghost use Rattle.interleave_texts.specs.declared.script_parse.TheConstants.{MAX_COMMANDS};
ghost use Rattle.drvhost_devices.specs.Device.{CanCount, Says};
ghost use Rattle.drvhost_devices.specs.Ends.{HoldsRun};
ghost use Rattle.drvhost_devices.specs.Fault.{ReadsScript, reads_failed, writes_failed};
ghost use Rattle.report.specs.Lines.{HasRoom};
ghost use Rattle.report.specs.Verdict.{refusal_line};
ghost use Rattle.answer_runs.specs.Hosting.{IsBlank};
ghost use Rattle.answer_runs.specs.Readiness.{IsReady, IsReadyOf, warnings_in};

use crate::page::Page;
use drvhost_devices::device::{Sink, Source};
use drvhost_devices::fault::{Fault, of_script, say};
use drvhost_devices::transfer::read_whole;
use drvhost_devices::verification::Verification;
use interleave_texts::script_parse::parse_script;
use model::abs::{Refusal, Rule};
use model::history::Command;
use report::lines::Lines;
use std::alloc::Global;
use verifier::{Accepted, verify};

/// An accepted set with the commands that are served on it.
#[derive(Drop)]
pub(crate) struct Ready {
    pub(crate) accepted: Accepted,
    pub(crate) commands: Vec<Command>,
    /// What is told of the set before the workers start: a line for each driver that takes its
    /// locks in a cycle.
    pub(crate) warnings: Vec<u8>,
}

/// Reads a set and, where it is accepted, a script, and makes the warnings of the set. The line of
/// a refusal gathers.
pub(crate) fn get_ready<S: Source, P: Source>(
    alloc: Global,
    set: &mut S,
    script: &mut P,
    page: &mut Page,
) -> Result<Option<Ready>, Fault>
    requires set { CanCount (S.failures set.old) }
    requires script { CanCount (P.failures script.old) }
    requires blank { IsBlank page.old }
    ensures unread { (script.new ≡ script.old)
        ⊎ HoldsRun Verification.Required (S.supply set.old) }
    ensures ready { IsReady (S.supply set.old) (P.supply script.old) page.new result }
    ensures reads { S.failures set.new + P.failures script.new
        ≡ S.failures set.old + P.failures script.old + reads_failed result }
    ensures writes { writes_failed result ≡ 0 }
{
    let set = page.read_set(alloc, set)?;
    match verify(alloc, set) {
        Ok(accepted) => Ok(Some(with_script(alloc, accepted, script, page)?)),
        Err((_set, refusal)) => {
            refuse(&refusal, &mut page.lines)?;
            Ok(None)
        }
    }
}

/// An accepted set with the script that a source has, and its warnings.
fn with_script<P: Source>(
    alloc: Global,
    accepted: Accepted,
    script: &mut P,
    page: &Page,
) -> Result<Ready, Fault>
    requires script { CanCount (P.failures script.old) }
    ensures ready { IfOk result (IsReadyOf accepted (P.supply script.old)) }
    ensures fault { IfErr result (λ fault. ReadsScript (P.supply script.old) (Err fault)) }
    ensures reads { P.failures script.new ≡ P.failures script.old + reads_failed result }
    ensures writes { writes_failed result ≡ 0 }
{
    let commands = read_script(alloc, script)?;
    let warnings = page.warnings(alloc, &accepted)?;
    Ok(Ready {
        accepted,
        commands,
        warnings,
    })
}

/// Tells the warnings of a set that is served.
pub(crate) fn warn<E: Sink>(ready: &Result<Option<Ready>, Fault>, err: &mut E)
    requires { CanCount (E.failures err.old) }
    ensures { Says (E.failures err.old) (E.failures err.new) (E.contents err.old)
        (E.contents err.new) (warnings_in ready.now) }
{
    if let Ok(Some(ready)) = ready {
        tell_warnings(ready.warnings.as_slice(), err);
    }
}

/// Tells warnings, if there are any.
fn tell_warnings<E: Sink>(warnings: &[u8], err: &mut E)
    requires { CanCount (E.failures err.old) }
    ensures { Says (E.failures err.old) (E.failures err.new) (E.contents err.old)
        (E.contents err.new) warnings.now }
{
    if !warnings.is_empty() {
        say(err, warnings);
    }
}

/// The commands that the text of a source lists.
fn read_script<P: Source>(alloc: Global, source: &mut P) -> Result<Vec<Command>, Fault>
    requires { CanCount (P.failures source.old) }
    ensures script { ReadsScript (P.supply source.old) result }
    ensures short { IfOk result (λ commands. length commands.items ≤ MAX_COMMANDS) }
    ensures reads { P.failures source.new ≡ P.failures source.old + reads_failed result }
{
    let text = read_whole(alloc, source)?;
    match parse_script(alloc, text.as_slice()) {
        Ok(commands) => Ok(commands),
        Err(fault) => Err(of_script(fault)),
    }
}

/// Adds the line of a refusal; one for want of memory is no verdict.
fn refuse(refusal: &Refusal, lines: &mut Lines) -> Result<(), Fault>
    requires { HasRoom lines.old }
    ensures refused { OnOk result ((refusal.now.rule ≢ Rule.Memory)
        × (lines.new ≡ lines.old ++ refusal_line refusal.now)) }
    ensures memory { IfErr result (λ fault. fault ≡ Fault.Memory) }
{
    if refusal.rule == Rule::Memory {
        return Err(Fault::Memory);
    }
    lines.refusal(refusal);
    Ok(())
}
