//! Laws of pending returns. Nothing runs here.

ghost use Rattle.tell_uses.specs.GoingOn.{GoingOnKeepsLedgers};
ghost use Rattle.tell_uses.specs.Pending.{AcceptedRunsShowNoDisagreement, AgreementTells};

use laws_runs::pending_returns_agree;

/// No use of a stack location disagrees exactly where pending agreement holds of the trace.
pub fn agreement_tells()
    ensures { AgreementTells }
{}

/// Of a run of an accepted set the list of uses that disagree is empty.
pub fn accepted_runs_show_no_disagreement()
    ensures { AcceptedRunsShowNoDisagreement }
{
    pending_returns_agree();
}

/// Steps of a thread that change nothing but the activation on its top leave a ledger that tells a
/// run as it is: it tells the run with them added too.
pub fn going_on_keeps_ledgers()
    ensures { GoingOnKeepsLedgers }
{}
