//! The rules on pending marks and on what a routine returns, in words.

use crate::acts::{Act, Marking, Sending, Waiting, act_of};
use crate::case::Case;
use model::abs::{Duty, Kind};
use model::instr::Return;
use model::set::Sort;
use verifier_names::{About, Lesson, sent_down};

/// The rule on pending marks.
pub(crate) fn of_marks(case: &Case<'_>) -> Lesson {
    let source = "Static Driver Verifier, MarkIrpPending; IoMarkIrpPending";
    match act_of(case.instr) {
        Act::Mark(Marking::Mark) => Lesson::of(
            "the packet was marked before",
            source,
            "take it out: a packet is marked once",
        ),
        Act::Send(Sending::Pass) => passed_marked(case, source),
        Act::Send(Sending::Complete) => Lesson::of(
            "no packet is completed with STATUS_PENDING",
            source,
            "complete it with its final status",
        ),
        Act::Return(returned) => of_returned(case, &returned),
        Act::Device(Waiting::Begin) => Lesson::about(
            "the packet wasn't marked and started, and the routine has no token of a busy device",
            source,
            "`mark $R` and `start $R` instead",
            About::register(case.register()),
        ),
        Act::Mark(Marking::Look)
        | Act::Send(Sending::Call(_))
        | Act::Device(Waiting::Start | Waiting::Take | Waiting::Next | Waiting::Dequeue)
        | Act::Plain(_)
        | Act::Look
        | Act::Lock(_)
        | Act::Queue(_) => Lesson::about(
            "the packet wasn't marked before it is kept or started",
            source,
            "`mark $R` before it",
            About::register(case.register()),
        ),
    }
}

/// The rule on what a routine returns.
fn of_returned(case: &Case<'_>, returned: &Return) -> Lesson {
    if fits(case.sort, returned) {
        of_status(case, returned)
    } else {
        of_form(case)
    }
}

/// A marked packet is passed on.
fn passed_marked(case: &Case<'_>, source: &'static str) -> Lesson {
    if !matches!(case.sort, Sort::Dispatch) {
        return sent_down(case.sort);
    }
    let mend = if case.state().duty == Duty::Pending {
        "`call` it and `ret PENDING`, or don't mark it"
    } else {
        "`call` it"
    };
    Lesson::of(
        "a marked packet is passed on in the same stack location",
        source,
        mend,
    )
}

/// The rule on the status that a dispatch routine returns.
fn of_status(case: &Case<'_>, returned: &Return) -> Lesson {
    let source = "Static Driver Verifier, MarkIrpPending; \"Returning STATUS_PENDING\"";
    match case.state().duty {
        Duty::Pending => Lesson::of(
            "the packet was marked, so another status than STATUS_PENDING is wrong",
            source,
            "`ret PENDING`",
        ),
        Duty::GivenDown => owed_lower(
            case,
            "the packet was sent down unmarked, so the lower driver's status is returned",
            source,
        ),
        Duty::Fresh | Duty::Finished | Duty::NoDuty if matches!(returned, Return::Lower(_)) => {
            Lesson::of(
                "a lower driver's status is returned for a packet that wasn't sent down",
                source,
                "return the status that the packet is completed with",
            )
        }
        Duty::Fresh => Lesson::of(
            "STATUS_PENDING is returned for a packet that wasn't marked",
            source,
            "`mark` the packet and put it into a queue first, or complete it and return its status",
        ),
        Duty::Finished | Duty::NoDuty => Lesson::of(
            "STATUS_PENDING is returned for a packet that was completed and not marked",
            source,
            "`mark` the packet before it is completed, or return the status of its completion",
        ),
    }
}

/// The lower driver's status is owed: in the register that has it, where one has.
fn owed_lower(case: &Case<'_>, why: &'static str, source: &'static str) -> Lesson {
    let kinds = &case.state().kinds;
    match kinds.iter().position(|kind| *kind == Kind::Lower) {
        Some(number) => { Lesson::about(why, source, "`ret lower $R`", About::register(number)) }
        None => Lesson::of(
            why,
            source,
            "keep what `pass` or `call` left in its register, and `ret lower` with that",
        ),
    }
}

/// `ret lower` is given a register without the status that a lower driver returned.
pub(crate) fn no_lower(case: &Case<'_>) -> Lesson {
    if !matches!(case.sort, Sort::Dispatch) {
        return of_form(case);
    }
    let source = "the Driver Kit on IoCallDriver";
    let why = "`ret lower` takes the status that a lower driver returned, and it isn't there";
    match case.state().duty {
        Duty::Pending => Lesson::of(
            "the packet was marked, so STATUS_PENDING is returned, and no lower driver's status \
             is left",
            source,
            "`ret PENDING`",
        ),
        Duty::GivenDown => owed_lower(case, why, source),
        Duty::Finished => Lesson::of(
            why,
            source,
            "return the status that the packet was completed with",
        ),
        Duty::Fresh | Duty::NoDuty => Lesson::of(
            why,
            source,
            "`pass` or `call` the packet first, and name the register that it was in",
        ),
    }
}

/// Whether a routine of a sort returns in this form.
fn fits(sort: Sort, form: &Return) -> bool {
    match sort {
        Sort::Dispatch => matches!(form, Return::WithStatus(_) | Return::Lower(_)),
        Sort::Propagate => matches!(form, Return::Continue),
        Sort::Hold => matches!(form, Return::Continue | Return::Stop),
        Sort::StartIo | Sort::Dpc | Sort::Cancel => matches!(form, Return::Void),
    }
}

/// A return has the form of another sort.
pub(crate) fn of_form(case: &Case<'_>) -> Lesson {
    let source = "the Driver Kit on each sort of routine";
    match case.sort {
        Sort::Dispatch => returned_status(case, source),
        Sort::Propagate => Lesson::of(
            "a completion routine returns whether the completion goes on, and this one lets it",
            source,
            "`ret continue`",
        ),
        Sort::Hold => Lesson::of(
            "a completion routine returns whether the completion goes on",
            source,
            if case.state().duty == Duty::Pending {
                "`ret stop`, since the packet was marked"
            } else {
                "`ret continue`, since the packet wasn't marked"
            },
        ),
        Sort::StartIo => Lesson::of("a StartIo routine returns nothing", source, "`ret void`"),
        Sort::Dpc => Lesson::of("a DPC routine returns nothing", source, "`ret void`"),
        Sort::Cancel => Lesson::of("a cancel routine returns nothing", source, "`ret void`"),
    }
}

/// The status that a dispatch routine returns in place of another form.
fn returned_status(case: &Case<'_>, source: &'static str) -> Lesson {
    let why = "a dispatch routine returns a status";
    match case.state().duty {
        Duty::Pending => Lesson::of(why, source, "`ret PENDING`, since the packet was marked"),
        Duty::GivenDown => owed_lower(case, why, source),
        Duty::Fresh | Duty::Finished | Duty::NoDuty => Lesson::of(
            why,
            source,
            "`ret` with the status that the packet is completed with",
        ),
    }
}

/// Whether a hold routine returns in a form that isn't its sort's while it still has the packet
/// that it was lent.
pub(crate) fn is_lent_still(case: &Case<'_>, form: &Return) -> bool {
    let lent = case.state().kinds.iter().any(|kind| *kind == Kind::New);
    matches!(case.sort, Sort::Hold) && lent && !fits(case.sort, form)
}
