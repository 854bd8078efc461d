//! Events of a run that is told, applied one by one: what is seen of each.

ghost use Rattle.std.specs.Prelude.{◌≡◌, IfOk, IsTrue, OnOk, false, true};
ghost use Rattle.answer_views.specs.Seen.{GoesUnseen, HappensBefore, Sees, is_stepped};
ghost use Rattle.answer_views.specs.Told.{is_left_out};
ghost use Rattle.model.specs.declared.event.Reply.TheVariants.{Stepped};
ghost use Rattle.tell_uses.specs.Acting.{acting_in};
ghost use Rattle.tell_uses.specs.Plain.{is_plain};

use checked::Checked;
use drvhost_devices::manner::Detail;
use model::event::{Event, Reply};
use std::alloc::{AllocError, Global};
use tell_changes::Moment;
use tell_uses::acts::{UseStep, use_step_of};
use tell_uses::computing::computes;
use tell_uses::ledger::Ledger;
use tell_uses::plain::{is_plain, plain_steps_keep_ledgers, plain_steps_step_or_stay};
use tell_words::Happened;

/// What is seen of a run that is told: its last event, and a ledger of uses.
#[derive(Drop)]
pub(crate) struct Sight {
    alloc: Global,
    pub(crate) ledger: Ledger,
    pub(crate) happened: Happened,
}

/// Whether an event needs no look at it before it is applied: in quiet a plain step, and usually
/// one that only computes. Nothing is told of it where it steps, and nothing has changed where it
/// doesn't.
pub(crate) fn goes_unseen(machine: &Checked, event: &Event, detail: Detail) -> bool
    ensures { IsTrue result → GoesUnseen detail machine.now event.now }
{
    match detail {
        Detail::Quiet => is_plain(machine, event),
        Detail::Usual => computes(machine, event),
        Detail::Every => false,
    }
}

impl Sight {
    /// What is seen before the first event.
    pub(crate) fn of(alloc: Global, ledger: Ledger) -> Sight
        ensures { result.ledger ≡ ledger }
    {
        Sight {
            alloc,
            ledger,
            happened: Happened {
                event: Event::Interrupt { device: 0 },
                moment: Moment::nothing(),
                step: UseStep::Nothing,
                reply: Reply::Idle,
            },
        }
    }

    /// Applies an event and notes it in the ledger, and puts down what is seen of it. It answers
    /// whether the event is passed over: nothing is told of it, and nothing noted for the audit.
    pub(crate) fn see(
        &mut self,
        machine: &mut Checked,
        event: &Event,
        unseen: bool,
        detail: Detail,
    ) -> Result<bool, AllocError>
        requires { IsTrue unseen → GoesUnseen detail machine.old event.now }
        ensures sees { OnOk result (Sees machine.old event.now machine.new self.old self.new) }
        ensures seen { IfOk result (λ passed. passed ≡ false
            → HappensBefore machine.old event.now self.new.happened) }
        ensures passed { IfOk result (λ passed. IsTrue passed
            → (is_left_out detail (acting_in machine.old.set machine.old.world event.now) Stepped
            ≡ true) × (self.new.happened.reply ≡ Stepped)) }
    {
        if unseen {
            return self.see_after(machine, event, detail);
        }
        self.happened.event = *event;
        look_before(machine, event, detail, &mut self.happened.moment);
        self.happened.step = use_step_of(machine, event, &self.happened.moment.acting);
        self.happened.reply = machine.apply(event);
        self.ledger.note(
            self.alloc,
            self.happened.step,
            event,
            &self.happened.reply,
            machine,
        )?;
        Ok(is_passed(detail, self.happened.step, &self.happened.reply))
    }

    /// The same of a plain step of which nothing is told. Where it steps it is passed over, and the
    /// ledger stays as it is. Else nothing has changed but that the run may have stopped, and the
    /// frame that acted is looked up then.
    fn see_after(
        &mut self,
        machine: &mut Checked,
        event: &Event,
        detail: Detail,
    ) -> Result<bool, AllocError>
        requires { is_plain machine.old.set machine.old.world event.now ≡ true }
        ensures sees { OnOk result (Sees machine.old event.now machine.new self.old self.new) }
        ensures seen { IfOk result (λ passed. passed ≡ false
            → HappensBefore machine.old event.now self.new.happened) }
        ensures passed { IfOk result (λ passed. IsTrue passed
            → self.new.happened.reply ≡ Stepped) }
    {
        plain_steps_keep_ledgers();
        plain_steps_step_or_stay();
        self.happened.reply = machine.apply(event);
        if is_stepped(&self.happened.reply) {
            return Ok(true);
        }
        self.ledger.note(
            self.alloc,
            UseStep::Nothing,
            event,
            &self.happened.reply,
            machine,
        )?;
        self.happened.event = *event;
        look_before(machine, event, detail, &mut self.happened.moment);
        self.happened.step = UseStep::Nothing;
        Ok(false)
    }
}

/// Looks at what an event is before it: in quiet without the packet, since no words are told there
/// on a step that leaves its frame where it stands.
#[inline]
fn look_before(machine: &Checked, event: &Event, detail: Detail, moment: &mut Moment)
    ensures { moment.new.acting ≡ acting_in machine.now.set machine.now.world event.now }
{
    moment.look(machine, event);
    match detail {
        Detail::Every | Detail::Usual => moment.look_at_packet(machine),
        Detail::Quiet => {}
    }
}

/// Whether a reply says that a step was made.
fn is_stepped(reply: &Reply) -> bool
    ensures { result ≡ is_stepped reply.now }
{
    matches!(reply, Reply::Stepped)
}

/// Whether an event is passed over: nothing is told of it, and nothing noted for the audit.
fn is_passed(detail: Detail, step: UseStep, reply: &Reply) -> bool
    ensures { IsTrue result → (detail ≡ Detail.Quiet) × (reply.now ≡ Stepped) }
{
    let opens = matches!(step, UseStep::Issue(_) | UseStep::Call(_));
    match (detail, reply) {
        (Detail::Quiet, Reply::Stepped) => !opens,
        (
            Detail::Quiet,
            Reply::Started(_)
            | Reply::Finished
            | Reply::Topped { .. }
            | Reply::Waited
            | Reply::Idle
            | Reply::Refused
            | Reply::Bug(_)
            | Reply::Wrong(_),
        )
        | (Detail::Usual | Detail::Every, _) => false,
    }
}
