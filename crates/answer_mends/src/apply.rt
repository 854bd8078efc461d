//! A mend of a driver set's text, applied.

ghost use Rattle.std.specs.Prelude.{◌≡◌, ◌≤◌, ◌+◌, ◌++◌, ◌⊎◌, [], IfOk, OnOk, string_bytes};
ghost use Rattle.model.specs.Typable.{IsFirstFault, at_start};
ghost use Rattle.drvhost_devices.specs.Answer.{ended, is_image};
ghost use Rattle.drvhost_devices.specs.Device.{CanCount, Says};
ghost use Rattle.drvhost_devices.specs.Ends.{Answers};
ghost use Rattle.drvhost_devices.specs.Fault.{Goes, reads_failed, status_of, writes_failed};
ghost use Rattle.drvhost_devices.specs.Ready.{CanAnswer};
ghost use Rattle.answer_mends.specs.Apply.{IsApply, IsAppliedTo, IsApplyOf, LeavesFor, Shows};
ghost use Rattle.answer_mends.specs.Apply.{Takes, TakesMade, applied_line, applied_of, first_sure};
ghost use Rattle.answer_mends.specs.Apply.{left_text, numbered, place_left, rule_left};
ghost use Rattle.answer_mends.specs.Apply.{unapplied_line, wanted_of};

use crate::judged_offers::{Offer, is_sure, make_offers};
use crate::judging::{Extent, verdict};
use crate::reply::{end_of, nothing, text_of, told};
use drvhost_devices::device::{Sink, Source};
use drvhost_devices::fault::{End, Fault, finish, no_memory};
use drvhost_devices::reading::{begins_image, set_of};
use drvhost_devices::transfer::{read_whole, write_bytes};
use drvhost_devices::wanted::Wanted;
use image::DriverSet;
use model::abs::{Refusal, Rule};
use model::items::Items;
use report::lines::Lines;
use std::alloc::{AllocError, Global};
use verifier::verify;

/// How mends are looked for, and which of them is applied.
#[derive(Clone, Copy)]
pub struct ApplyOptions {
    /// How often a mend is tried of each faulty routine.
    pub tries: u64,
    /// Which of the mends that are found is applied.
    pub wanted: Wanted,
}

/// Writes mends of the text of a driver set as [`MendsText`](crate::mend::MendsText) tells them, and
/// which of them is applied; and then the text that this one makes to the target. The answer is the
/// exit status: 0 where the set is accepted already or the whole text is mended so, 1 where a part
/// of it is or nothing is applied, as with an image; 2 where the set's text or its image is faulty
/// or a read or a write failed, 3 where memory ran out. Nothing is done with the target before its
/// whole text stands in memory and the diff was written.
pub fn apply<S: Source, O: Sink, W: Sink, E: Sink>(
    alloc: Global,
    asked: ApplyOptions,
    set: &mut S,
    out: &mut O,
    target: &mut W,
    err: &mut E,
) -> u8
    requires devices { CanAnswer O.Sink E.Sink (S.failures set.old) out.old err.old }
    requires target { CanCount (W.failures target.old) }
    ensures answers { Answers (IsApplyOf asked (S.supply set.old))
        (S.failures set.old) (S.failures set.new)
        (W.failures target.old + O.failures out.old) (W.failures target.new + O.failures out.new)
        (O.contents out.old) (O.contents out.new)
        (Says (E.failures err.old) (E.failures err.new) (E.contents err.old) (E.contents err.new))
        result }
    ensures touched { ((target.new ≡ target.old)
        × LeavesFor asked (S.supply set.old) (O.contents out.old) (O.contents out.new) result)
        ⊎ TakesMade asked (S.supply set.old) (O.contents out.old) (O.contents out.new)
        (W.contents target.old) (W.contents target.new) result }
    ensures few { W.failures target.new ≤ W.failures target.old + 1 }
{
    match Lines::new(alloc) {
        Ok(mut lines) => {
            let end = apply_source(alloc, asked, set, out, target);
            finish(end, &mut lines, err)
        }
        Err(AllocError) => no_memory(err),
    }
}

/// Applies a mend of the text that a source has.
fn apply_source<S: Source, O: Sink, W: Sink>(
    alloc: Global,
    asked: ApplyOptions,
    set: &mut S,
    out: &mut O,
    target: &mut W,
) -> Result<End, Fault>
    requires set { CanCount (S.failures set.old) }
    requires out { CanCount (O.failures out.old) }
    requires target { CanCount (W.failures target.old) }
    ensures goes { Goes (IsApplyOf asked (S.supply set.old)) (O.contents out.old)
        (O.contents out.new) [] [] result }
    ensures reads { S.failures set.new ≡ S.failures set.old + reads_failed result }
    ensures writes { W.failures target.new + O.failures out.new
        ≡ W.failures target.old + O.failures out.old + writes_failed result }
    ensures touched { ((target.new ≡ target.old)
        × LeavesFor asked (S.supply set.old) (O.contents out.old) (O.contents out.new)
        (status_of result))
        ⊎ TakesMade asked (S.supply set.old) (O.contents out.old) (O.contents out.new)
        (W.contents target.old) (W.contents target.new) (status_of result) }
    ensures few { W.failures target.new ≤ W.failures target.old + 1 }
{
    let bytes = read_whole(alloc, set)?;
    let bytes = bytes.as_slice();
    let set = set_of(alloc, bytes)?;
    let applying = applying_on(alloc, asked, bytes, set)?;
    put(&applying, out, target)
}

/// What is answered, and how the job ends.
#[derive(Drop)]
struct Reply {
    end: End,
    text: Vec<u8>,
}

/// What is answered, and the text that is written then, if one is.
#[derive(Drop)]
struct Applying {
    reply: Reply,
    made: Option<Items<u8>>,
}

/// Writes what is answered, and then the text.
fn put<O: Sink, W: Sink>(applying: &Applying, out: &mut O, target: &mut W) -> Result<End, Fault>
    requires out { CanCount (O.failures out.old) }
    requires target { CanCount (W.failures target.old) }
    ensures shown { Shows applying.now.reply.end applying.now.reply.text.items (O.contents out.old)
        (O.contents out.new) result }
    ensures taken { Takes (target.new ≡ target.old) (O.contents out.old) (O.contents out.new)
        (W.contents target.old) (W.contents target.new) applying.now.reply.text.items
        applying.now.made result }
    ensures writes { W.failures target.new + O.failures out.new
        ≡ W.failures target.old + O.failures out.old + writes_failed result }
    ensures few { W.failures target.new ≤ W.failures target.old + 1 }
{
    write_bytes(applying.reply.text.as_slice(), out)?;
    if let Some(made) = &applying.made {
        write_bytes(made.as_slice(), target)?;
    }
    Ok(applying.reply.end)
}

/// What is answered on the set that the bytes of a file name.
fn applying_on(
    alloc: Global,
    asked: ApplyOptions,
    bytes: &[u8],
    set: DriverSet,
) -> Result<Applying, AllocError>
    ensures { IfOk result
        (λ applying. IsApply asked bytes.now applying.made set
        (ended applying.reply.end applying.reply.text.items)) }
{
    match verify(alloc, set) {
        Ok(_accepted) => Ok(Applying {
            reply: Reply {
                end: End::Complete,
                text: nothing(alloc)?,
            },
            made: None,
        }),
        Err((set, refusal)) => {
            let text = text_of(alloc, bytes, &set)?;
            applying_on_refused(alloc, asked, bytes, text.as_slice(), &set, &refusal)
        }
    }
}

/// What is answered on a refused set: its text, or the listing of an image, is mended.
fn applying_on_refused(
    alloc: Global,
    asked: ApplyOptions,
    bytes: &[u8],
    text: &[u8],
    set: &DriverSet,
    refusal: &Refusal,
) -> Result<Applying, AllocError>
    requires { (refusal.now ≡ at_start Rule.Memory) ⊎ IsFirstFault set.now refusal.now }
    ensures { IfOk result (λ applying. IsAppliedTo asked (is_image bytes.now) text.now set.now
        applying.made
        (ended applying.reply.end applying.reply.text.items)) }
{
    verdict(refusal)?;
    let offers = make_offers(alloc, asked.tries, text, set, refusal)?;
    let mut answer = told(alloc, asked.tries, refusal, offers.as_slice())?;
    let image = begins_image(bytes);
    match applied_of(image, asked.wanted, offers) {
        Some(applied) => {
            add_applied(alloc, &mut answer, applied.number, applied.extent)?;
            Ok(Applying {
                reply: Reply {
                    end: end_of(applied.extent.is_whole()),
                    text: answer,
                },
                made: Some(applied.made),
            })
        }
        None => {
            answer.extend_from_slice(unapplied_line(image))?;
            Ok(Applying {
                reply: Reply {
                    end: End::Stopped,
                    text: answer,
                },
                made: None,
            })
        }
    }
}

/// An offer that is applied, by its number.
#[derive(Drop)]
struct Applied {
    number: u64,
    extent: Extent,
    /// What its diff makes of the text.
    made: Items<u8>,
}

/// The offer that is applied: the one that is wanted, but none to an image.
fn applied_of(image: bool, wanted: Wanted, offers: Vec<Offer>) -> Option<Applied>
    ensures { result ≡ applied_of image (wanted_of wanted offers.items) }
{
    if image {
        None
    } else {
        wanted_of(wanted, offers)
    }
}

/// The offer that is wanted, if it is there.
fn wanted_of(wanted: Wanted, offers: Vec<Offer>) -> Option<Applied>
    ensures { result ≡ wanted_of wanted offers.items }
{
    match wanted {
        Wanted::Sure => first_sure(offers),
        Wanted::Number(number) => numbered(number, offers),
    }
}

/// The first offer, if it is sure.
fn first_sure(offers: Vec<Offer>) -> Option<Applied>
    ensures { result ≡ first_sure offers.items }
{
    let first = offers.first()?;
    if is_sure(first.words.as_bytes()) {
        return numbered(1, offers);
    }
    None
}

/// The offer of a number.
fn numbered(number: u64, offers: Vec<Offer>) -> Option<Applied>
    ensures { result ≡ numbered number offers.items }
{
    let place = number.checked_sub(1)? as usize;
    let mut offers = offers;
    if place >= offers.len() {
        return None;
    }
    let Offer { extent, made, .. } = offers.swap_remove(place);
    Some(Applied {
        number,
        extent,
        made,
    })
}

/// Adds which offer is applied, and of a part why the set is still refused.
fn add_applied(
    alloc: Global,
    text: &mut Vec<u8>,
    number: u64,
    extent: Extent,
) -> Result<(), AllocError>
    ensures { OnOk result (text.new.items ≡ text.old.items ++ applied_line number extent) }
{
    let mut line = String::new(alloc);
    write!(line, "applied mend {number}")?;
    add_left(&mut line, extent)?;
    text.extend_from_slice(line.as_bytes())?;
    Ok(())
}

/// Adds what is left where so much is mended.
fn add_left(line: &mut String, extent: Extent) -> Result<(), AllocError>
    ensures { OnOk result (string_bytes line.new ≡ string_bytes line.old ++ left_text extent) }
{
    match extent {
        Extent::Whole => line.push_str("\n"),
        Extent::Part(left) => add_fault_left(line, left),
    }
}

/// Adds the first fault of a set of which a part was mended.
fn add_fault_left(line: &mut String, left: Refusal) -> Result<(), AllocError>
    ensures { OnOk result
        (string_bytes line.new ≡ string_bytes line.old ++ (rule_left left.rule ++ place_left left)) }
{
    add_rule(line, left.rule)?;
    add_place(line, left)
}

/// Adds the rule that is broken then.
fn add_rule(line: &mut String, rule: Rule) -> Result<(), AllocError>
    ensures { OnOk result (string_bytes line.new ≡ string_bytes line.old ++ rule_left rule) }
{
    line.push_str(" of a part: still refused by ")?;
    line.push_str(rule.as_str())
}

/// Adds where it is.
fn add_place(line: &mut String, left: Refusal) -> Result<(), AllocError>
    ensures { OnOk result (string_bytes line.new ≡ string_bytes line.old ++ place_left left) }
{
    let (driver, routine, at) = (left.driver, left.routine, left.at);
    write!(line, " driver {driver} routine {routine} at {at}\n")
}

/// That none is applied.
fn unapplied_line(image: bool) -> &'static [u8]
    ensures { result.now ≡ unapplied_line image }
{
    if image {
        b"none applied: an image has no lines, and `list` writes its text\n"
    } else {
        b"none applied: only a sure one is, or the one that --nth names\n"
    }
}
