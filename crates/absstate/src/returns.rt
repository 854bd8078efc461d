//! What a return breaks: the duty to the packet, what is left behind, and the form of the sort.

ghost use Rattle.std.specs.Prelude.{◌≡◌};
ghost use Rattle.std.specs.List.{list_any};
ghost use Rattle.model.specs.LocalRule.{kind_of, is_given_down, is_settled};
ghost use Rattle.model.specs.Kinds.{is_kept, is_lower};
ghost use Rattle.model.specs.LocalRule.{is_fresh, is_taken_back, lent_fault, gives_back};
ghost use Rattle.model.specs.LocalRule.{is_dropped};
ghost use Rattle.model.specs.LocalRule.{status_fault, duty_fault, form_fault, settled_fault};
ghost use Rattle.model.specs.LocalRule.{left_packet, kept_fault, return_fault};

use crate::fault::{
    broken_if, holds_spin_lock, is_new, is_packet, is_pending, is_view, least, unless,
};
use crate::state::kind;
use model::abs::{Abs, Duty, Kind, Rule, Settled};
use model::instr::{Register, Return};
use model::set::Sort;
use model::status::Status;

/// A return keeps the duty to the packet, leaves no lock, no packet and no token behind, and has
/// its sort's form.
pub fn return_fault(state: &Abs, form: &Return, sort: Sort) -> Option<Rule>
    ensures { result ≡ return_fault state.now form.now sort }
{
    let sorted = least(form_fault(sort, form), settled_fault(sort, state, form));
    let kept = kept_fault(state, gives_back(sort, form));
    least(duty_fault(state, form), least(kept, sorted))
}

/// The duty to the packet says which status is returned.
fn duty_fault(state: &Abs, form: &Return) -> Option<Rule>
    ensures { result ≡ duty_fault state.now form.now }
{
    match *form {
        Return::WithStatus(status) => status_fault(state.duty, status),
        Return::Lower(register) => lower_fault(state, register),
        Return::Continue | Return::Stop | Return::Void => None,
    }
}

/// STATUS_PENDING is returned exactly where the packet was marked, and no status of its own where
/// it was given down.
fn status_fault(duty: Duty, status: Status) -> Option<Rule>
    ensures { result ≡ status_fault duty status }
{
    match duty {
        Duty::Pending => broken_if(!is_pending(status), Rule::MarkIrpPending),
        Duty::GivenDown => Some(Rule::MarkIrpPending),
        Duty::Fresh | Duty::Finished | Duty::NoDuty => {
            broken_if(is_pending(status), Rule::MarkIrpPending)
        }
    }
}

/// What the lower driver returned is returned where the packet was given down.
fn lower_fault(state: &Abs, register: Register) -> Option<Rule>
    ensures { result ≡ duty_fault state.now (Return.Lower register) }
{
    let other = broken_if(!is_lower(kind(state, register)), Rule::WrongKind);
    least(
        other,
        broken_if(!is_given_down(state.duty), Rule::MarkIrpPending),
    )
}

fn is_lower(kind: Kind) -> bool
    ensures { result ≡ is_lower kind }
{
    matches!(kind, Kind::Lower)
}

fn is_given_down(duty: Duty) -> bool
    ensures { result ≡ is_given_down duty }
{
    matches!(duty, Duty::GivenDown)
}

/// Each sort has its forms.
fn form_fault(sort: Sort, form: &Return) -> Option<Rule>
    ensures { result ≡ form_fault sort form.now }
{
    let fits = match sort {
        Sort::Dispatch => matches!(*form, Return::WithStatus(_) | Return::Lower(_)),
        Sort::StartIo | Sort::Dpc | Sort::Cancel => matches!(*form, Return::Void),
        Sort::Propagate => matches!(*form, Return::Continue),
        Sort::Hold => matches!(*form, Return::Continue | Return::Stop),
    };
    unless(fits, Rule::Sort)
}

/// A completion routine has carried the mark up, or does with the packet that it was lent what it
/// returns.
fn settled_fault(sort: Sort, state: &Abs, form: &Return) -> Option<Rule>
    ensures { result ≡ settled_fault sort state.now form.now }
{
    match sort {
        Sort::Dispatch | Sort::StartIo | Sort::Dpc | Sort::Cancel => None,
        Sort::Propagate => broken_if(!is_settled(state.settled), Rule::Completion),
        Sort::Hold => lent_fault(state.duty, form),
    }
}

/// One that was lent the packet lets its completion go on where it has done nothing with it, and
/// stops it where it has taken the packet back.
fn lent_fault(duty: Duty, form: &Return) -> Option<Rule>
    ensures { result ≡ lent_fault duty form.now }
{
    match *form {
        Return::Continue => unless(is_fresh(duty), Rule::Completion),
        Return::Stop => unless(is_taken_back(duty), Rule::Completion),
        Return::WithStatus(_) | Return::Lower(_) | Return::Void => None,
    }
}

fn is_fresh(duty: Duty) -> bool
    ensures { result ≡ is_fresh duty }
{
    matches!(duty, Duty::Fresh)
}

fn is_taken_back(duty: Duty) -> bool
    ensures { result ≡ is_taken_back duty }
{
    matches!(duty, Duty::Pending)
}

/// Whether a routine gives the packet back that it was lent.
fn gives_back(sort: Sort, form: &Return) -> bool
    ensures { result ≡ gives_back sort form.now }
{
    matches!((sort, *form), (Sort::Hold, Return::Continue))
}

fn is_settled(settled: Settled) -> bool
    ensures { result ≡ is_settled settled }
{
    matches!(settled, Settled::Settled)
}

/// A routine that returns keeps no lock, no packet in a register but one that it gives back, and no
/// token.
fn kept_fault(state: &Abs, back: bool) -> Option<Rule>
    ensures { result ≡ kept_fault state.now back }
{
    let spin = broken_if(holds_spin_lock(state), Rule::SpinLock);
    let token = broken_if(state.token, Rule::Token);
    least(
        broken_if(state.cancel, Rule::CancelSpinLock),
        least(spin, least(left_fault(state, back), token)),
    )
}

fn left_fault(state: &Abs, back: bool) -> Option<Rule>
    ensures { result ≡ left_packet state.now back }
{
    broken_if(is_any_dropped(&state.kinds, back), Rule::Dropped)
}

fn is_any_dropped(kinds: &[Kind], back: bool) -> bool
    ensures { result ≡ list_any (is_dropped back) kinds.now }
{
    kinds.iter().any(|kind| is_dropped(back, *kind))
}

fn is_dropped(back: bool, kind: Kind) -> bool
    ensures { result ≡ is_dropped back kind }
{
    is_kept(kind) && !(back && is_new(kind))
}

/// A packet that a routine may not leave in a register: any but one on its way up.
fn is_kept(kind: Kind) -> bool
    ensures { result ≡ is_kept kind }
{
    is_packet(kind) && !is_view(kind)
}
