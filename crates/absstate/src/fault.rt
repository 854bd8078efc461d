//! What an instruction demands of its registers and of the locks: for each demand the rule that is
//! broken, if it is.

ghost use Rattle.std.specs.Prelude.{◌≡◌, if◌then◌else◌};
ghost use Rattle.std.specs.List.{list_any};
ghost use Rattle.model.specs.LocalRule.{least_of, broken_if, unless, demanded, any_packet};
ghost use Rattle.model.specs.Kinds.{is_packet, is_view, is_new};
ghost use Rattle.model.specs.LocalRule.{needs_mark, is_open, is_completion, is_pending};
ghost use Rattle.model.specs.LocalRule.{kind_of, holds_spin_lock, holds_lock};
ghost use Rattle.model.specs.LocalRule.{free_kind, number_kind, level_fault};
ghost use Rattle.model.specs.LocalRule.{mark_fault, look_fault, complete_kind};
ghost use Rattle.model.specs.LocalRule.{completion_sort_fault, completion_fault};

use crate::state::kind;
use model::abs::{Abs, Kind, Rule, Settled};
use model::instr::Register;
use model::set::Sort;
use model::status::Status;

/// The rule of the least number, of two that are broken or not.
pub fn least(one: Option<Rule>, other: Option<Rule>) -> Option<Rule>
    ensures { result ≡ least_of one other }
{
    match (one, other) {
        (Some(first), Some(second)) if second.number() < first.number() => other,
        (Some(_), _) => one,
        (None, _) => other,
    }
}

pub fn broken_if(broken: bool, rule: Rule) -> Option<Rule>
    ensures { result ≡ broken_if broken rule }
{
    if broken { Some(rule) } else { None }
}

pub fn unless(kept: bool, rule: Rule) -> Option<Rule>
    ensures { result ≡ unless kept rule }
{
    if kept { None } else { Some(rule) }
}

/// The packets that an instruction wants: which kinds it takes.
#[derive(Clone, Copy)]
pub struct Wanted {
    new: bool,
    own: bool,
    view: bool,
    /// One of a list with a cancel routine.
    queued: bool,
}

impl Wanted {
    /// Any packet.
    pub const ANY: Wanted = Wanted {
        new: true,
        own: true,
        view: true,
        queued: true,
    };
    /// One that the routine was handed and has done nothing with.
    pub const NEW: Wanted = Wanted {
        new: true,
        own: false,
        view: false,
        queued: false,
    };
    /// One that it owns.
    pub const OWN: Wanted = Wanted {
        new: false,
        own: true,
        view: false,
        queued: false,
    };
    /// One that it was handed, or that it owns.
    pub const NEW_OR_OWN: Wanted = Wanted {
        new: true,
        own: true,
        view: false,
        queued: false,
    };
    /// One that it was handed, or that is on its way up.
    pub const NEW_OR_VIEW: Wanted = Wanted {
        new: true,
        own: false,
        view: true,
        queued: false,
    };
    /// One that is on its way up.
    pub const VIEW: Wanted = Wanted {
        new: false,
        own: false,
        view: true,
        queued: false,
    };
}

/// A register has to hold a packet of a wanted kind.
pub fn demanded(wanted: Wanted, kind: Kind) -> Option<Rule>
    ensures { result
        ≡ demanded
        (record { new = wanted.new; own = wanted.own; view = wanted.view; queued = wanted.queued })
        kind }
{
    match kind {
        Kind::Blank | Kind::Num | Kind::Lower => Some(Rule::WrongKind),
        Kind::New => unless(wanted.new, another(wanted.queued, wanted.own)),
        Kind::Own => unless(wanted.own, another(wanted.queued, wanted.new)),
        Kind::Queued(_, _) => unless(wanted.queued, Rule::CancelState),
        Kind::View => unless(wanted.view, Rule::Completion),
    }
}

/// What an unwanted packet breaks that the routine may complete: the rule on cancellation, where
/// one of a list is wanted, and the rule on marks, where it would be wanted but for its mark.
fn another(listed: bool, but_for_its_mark: bool) -> Rule
    ensures { result ≡ (if listed then Rule.CancelState
        else if but_for_its_mark then Rule.MarkIrpPending else Rule.Completion) }
{
    if listed {
        Rule::CancelState
    } else if but_for_its_mark {
        Rule::MarkIrpPending
    } else {
        Rule::Completion
    }
}

pub fn is_packet(kind: Kind) -> bool
    ensures { result ≡ is_packet kind }
{
    !matches!(kind, Kind::Blank | Kind::Num | Kind::Lower)
}

pub fn is_view(kind: Kind) -> bool
    ensures { result ≡ is_view kind }
{
    matches!(kind, Kind::View)
}

/// Whether the routine has done nothing with a packet that it was handed.
pub fn is_new(kind: Kind) -> bool
    ensures { result ≡ is_new kind }
{
    matches!(kind, Kind::New)
}

/// A register that holds a packet can't be written over.
pub fn free_fault(state: &Abs, register: Register) -> Option<Rule>
    ensures { result ≡ free_kind (kind_of state.now register) }
{
    broken_if(is_packet(kind(state, register)), Rule::Dropped)
}

/// An operand has to be a number.
pub fn number_fault(state: &Abs, register: Register) -> Option<Rule>
    ensures { result ≡ number_kind (kind_of state.now register) }
{
    match kind(state, register) {
        Kind::Num => None,
        _ => Some(Rule::WrongKind),
    }
}

/// An operand has to be any packet.
pub fn packet_fault(state: &Abs, register: Register) -> Option<Rule>
    ensures { result ≡ demanded any_packet (kind_of state.now register) }
{
    demanded(Wanted::ANY, kind(state, register))
}

/// Paged cells are used below DISPATCH_LEVEL alone.
pub fn level_fault(state: &Abs, sort: Sort) -> Option<Rule>
    ensures { result ≡ level_fault state.now sort }
{
    match sort {
        Sort::Dispatch => broken_if(holds_lock(state), Rule::Level),
        Sort::StartIo | Sort::Dpc | Sort::Propagate | Sort::Hold | Sort::Cancel => {
            Some(Rule::Level)
        }
    }
}

pub fn holds_spin_lock(state: &Abs) -> bool
    ensures { result ≡ holds_spin_lock state.now }
{
    is_any(&state.locks)
}

fn is_any(flags: &[bool]) -> bool
    ensures { result ≡ list_any (λ flag. flag) flags.now }
{
    flags.iter().any(|flag| *flag)
}

pub fn holds_lock(state: &Abs) -> bool
    ensures { result ≡ holds_lock state.now }
{
    state.cancel || holds_spin_lock(state)
}

/// A mark wants a packet that the routine was handed, or in a completion routine one whose mark has
/// to be carried up.
pub fn mark_fault(settled: Settled, kind: Kind) -> Option<Rule>
    ensures { result ≡ mark_fault settled kind }
{
    let unasked = is_view(kind) && !needs_mark(settled);
    least(
        demanded(Wanted::NEW_OR_VIEW, kind),
        broken_if(unasked, Rule::Completion),
    )
}

fn needs_mark(settled: Settled) -> bool
    ensures { result ≡ needs_mark settled }
{
    matches!(settled, Settled::NeedMark)
}

/// `ifpending` wants a packet on its way up that wasn't looked at.
pub fn look_fault(settled: Settled, kind: Kind) -> Option<Rule>
    ensures { result ≡ look_fault settled kind }
{
    let again = is_view(kind) && !is_open(settled);
    least(
        demanded(Wanted::VIEW, kind),
        broken_if(again, Rule::Completion),
    )
}

fn is_open(settled: Settled) -> bool
    ensures { result ≡ is_open settled }
{
    matches!(settled, Settled::Open)
}

/// A completion wants a packet that the routine was handed or owns, a final status, no lock, and no
/// completion routine.
pub fn complete_fault(state: &Abs, register: Register, status: Status, sort: Sort) -> Option<Rule>
    ensures { result
        ≡ least_of (complete_kind (kind_of state.now register))
        (completion_fault state.now status sort) }
{
    least(
        completed_kind_fault(kind(state, register)),
        completion_fault(state, status, sort),
    )
}

/// Where the register is blank, the packet was completed or handed on before.
fn completed_kind_fault(kind: Kind) -> Option<Rule>
    ensures { result ≡ complete_kind kind }
{
    match kind {
        Kind::Blank => Some(Rule::DoubleCompletion),
        _ => demanded(Wanted::NEW_OR_OWN, kind),
    }
}

fn completion_fault(state: &Abs, status: Status, sort: Sort) -> Option<Rule>
    ensures { result ≡ completion_fault state.now status sort }
{
    let held = broken_if(holds_lock(state), Rule::LockHeld);
    least(
        broken_if(is_pending(status), Rule::MarkIrpPending),
        least(held, completion_sort_fault(sort)),
    )
}

pub fn is_pending(status: Status) -> bool
    ensures { result ≡ is_pending status }
{
    matches!(status, Status::Pending)
}

/// A completion routine doesn't complete.
fn completion_sort_fault(sort: Sort) -> Option<Rule>
    ensures { result ≡ completion_sort_fault sort }
{
    broken_if(is_completion(sort), Rule::Completion)
}

fn is_completion(sort: Sort) -> bool
    ensures { result ≡ is_completion sort }
{
    match sort {
        Sort::Dispatch | Sort::StartIo | Sort::Dpc | Sort::Cancel => false,
        Sort::Propagate | Sort::Hold => true,
    }
}
