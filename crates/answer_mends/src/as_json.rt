//! Mends of a driver set's text, as a line of JSON.

ghost use Rattle.std.specs.Prelude.{◌≡◌, ◌++◌, ◌∷◌, OnOk, codes};
ghost use Rattle.json.specs.Json.{array};
ghost use Rattle.json.specs.Token.{key};
ghost use Rattle.json.specs.Tree.{items_tokens, json_tokens};
ghost use Rattle.answer_mends.specs.Json.{extent_name, left_json, offer_json, offers_json};
ghost use Rattle.answer_mends.specs.Json.{sentences_json, standing_name};

use crate::judged_offers::{Offer, any_whole, is_sure, make_offers};
use crate::judging::Extent;
use crate::mend::MendOptions;
use crate::reply::{end_of, text_of};
use answer::as_json::{Json, line_of};
use answer::as_text::ended;
use answer::form::Form;
use drvhost_devices::fault::End;
use drvhost_devices::told::Told;
use image::DriverSet;
use json::Writer;
use model::abs::Refusal;
use report_json::fault::InputFault;
use report_json::member::{begin, put_number, put_text};
use report_json::to_json::ToJson;
use report_json::verdict::put_place;
use std::alloc::{AllocError, Global};
use verifier::Accepted;

/// The name of the shape of mends, and its edition.
const FORMAT: &str = "pafteis.mends/1";

/// Verdicts as mends, in JSON, as [`MendsText`](crate::mend::MendsText) tells them.
#[derive(Clone, Copy)]
pub struct MendsJson {
    pub asked: MendOptions,
}

impl Form for MendsJson {
    ghost use Rattle.std.specs.Prelude.{◌≡◌, codes};
    ghost use Rattle.report_json.specs.declared.fault.InputFault.{InputFault};
    ghost use Rattle.drvhost_devices.specs.Answer.{faulty, is_image};
    ghost use Rattle.drvhost_devices.specs.declared.fault.End.TheVariants.{Complete};
    ghost use Rattle.answer.specs.Told.{IsFaultIn, IsUnopenedJson, ended_line, fault_answer};
    ghost use Rattle.answer_mends.specs.Json.{IsMendedJson, nothing_json};
    ghost use Rattle.answer_mends.specs.Mend.{text_of};

    ghost is_unopened = { λ _ name. IsUnopenedJson name };

    ghost is_unread = { λ _ _ answer. answer ≡ faulty (codes "read failed\n") };

    ghost is_faulty = { λ _ name bytes answer.
        (fault : InputFault) × IsFaultIn bytes fault × (answer ≡ fault_answer name fault) };

    ghost is_refused = { λ mends name bytes set.
        IsMendedJson mends.asked name (text_of (is_image bytes) bytes set) set };

    ghost is_accepted = { λ mends name _ _ answer.
        answer ≡ ended_line Complete (nothing_json name mends.asked.tries) };

    fn unopened(&self, alloc: Global, name: &str) -> Result<Told, AllocError> {
        Json.unopened(alloc, name)
    }

    fn unread(&self, alloc: Global, name: &str) -> Result<Told, AllocError> {
        Json.unread(alloc, name)
    }

    fn faulty(
        &self,
        alloc: Global,
        name: &str,
        bytes: &[u8],
        fault: InputFault,
    ) -> Result<Told, AllocError> {
        Json.faulty(alloc, name, bytes, fault)
    }

    fn refused(
        &self,
        alloc: Global,
        name: &str,
        bytes: &[u8],
        set: &DriverSet,
        refusal: &Refusal,
    ) -> Result<Told, AllocError> {
        let tries = self.asked.tries;
        let text = text_of(alloc, bytes, set)?;
        let offers = make_offers(alloc, tries, text.as_slice(), set, refusal)?;
        let told = Mends {
            file: name,
            refusal: *refusal,
            tries,
            offers: offers.as_slice(),
        };
        let end = end_of(any_whole(told.offers));
        Ok(ended(alloc, end, line_of(alloc, &told)?))
    }

    fn accepted(
        &self,
        alloc: Global,
        name: &str,
        _bytes: &[u8],
        _accepted: &Accepted,
    ) -> Result<Told, AllocError> {
        let told = Nothing {
            file: name,
            tries: self.asked.tries,
        };
        Ok(ended(alloc, End::Complete, line_of(alloc, &told)?))
    }
}

/// That the set of a file is accepted, so that there is nothing to mend.
#[derive(Clone, Copy)]
struct Nothing<'a> {
    file: &'a str,
    tries: u64,
}

impl ToJson for Nothing<'_> {
    ghost use Rattle.answer_mends.specs.Json.{nothing_json};
    ghost use Rattle.answer_mends.specs.Nesting.{nothing_nests};

    ghost json = { λ told. nothing_json told.file.now told.tries };

    fn write(&self, out: &mut Writer) -> Result<(), AllocError> {
        begin(out, FORMAT, self.file)?;
        put_number(out, "tries", self.tries)?;
        put_text(out, "verdict", "accepted")?;
        out.end_object()
    }

    ghost nests = { λ told. nothing_nests told.file.now told.tries };
}

/// That the set of a file is refused, and what is offered.
#[derive(Clone, Copy)]
struct Mends<'a> {
    file: &'a str,
    refusal: Refusal,
    tries: u64,
    offers: &'a [Offer],
}

impl ToJson for Mends<'_> {
    ghost use Rattle.answer_mends.specs.Json.{mends_json};
    ghost use Rattle.answer_mends.specs.Nesting.{mends_nest};

    ghost json = { λ told. mends_json told.file.now told.tries told.refusal told.offers.now };

    fn write(&self, out: &mut Writer) -> Result<(), AllocError> {
        begin(out, FORMAT, self.file)?;
        put_number(out, "tries", self.tries)?;
        put_text(out, "verdict", "refused")?;
        put_place(out, self.refusal)?;
        out.key("offers")?;
        out.begin_array()?;
        write_offers(out, self.offers)?;
        out.end_object()
    }

    ghost nests = { λ told. mends_nest told.file.now told.tries told.refusal told.offers.now };
}

/// Writes offers, to the end of the array.
fn write_offers(out: &mut Writer, offers: &[Offer]) -> Result<(), AllocError>
    ensures before { out.new.before ≡ out.old.before }
    ensures tokens { OnOk result
        (out.new.tokens ≡ out.old.tokens ++ items_tokens (offers_json offers.now)) }
{
    for offer in offers {
        write_offer(out, offer)?;
    }
    out.end_array()
}

/// Writes an offer.
fn write_offer(out: &mut Writer, offer: &Offer) -> Result<(), AllocError>
    ensures before { out.new.before ≡ out.old.before }
    ensures tokens { OnOk result
        (out.new.tokens ≡ out.old.tokens ++ json_tokens (offer_json offer.now)) }
{
    out.begin_object()?;
    put_text(out, "mends", extent_name(offer.extent))?;
    put_left(out, offer.extent)?;
    put_text(out, "standing", standing_name(offer.words.as_bytes()))?;
    put_sentences(out, offer.sentences.as_slice())?;
    put_text(out, "diff", offer.diff.as_str())?;
    out.end_object()
}

/// How much an offer mends.
fn extent_name(extent: Extent) -> &'static str
    ensures { result.now ≡ extent_name extent }
{
    match extent {
        Extent::Whole => "whole",
        Extent::Part(_) => "part",
    }
}

/// How sure an offer is, by the words on it.
fn standing_name(words: &[u8]) -> &'static str
    ensures { result.now ≡ standing_name words.now }
{
    if is_sure(words) { "sure" } else { "guess" }
}

/// Adds why the set is still refused.
fn put_left(out: &mut Writer, extent: Extent) -> Result<(), AllocError>
    ensures before { out.new.before ≡ out.old.before }
    ensures tokens { OnOk result
        (out.new.tokens ≡ out.old.tokens ++ key (codes "left") ∷ json_tokens (left_json extent)) }
{
    out.key("left")?;
    match extent {
        Extent::Whole => out.null(),
        Extent::Part(left) => write_left(out, left),
    }
}

/// Writes a first fault that is left.
fn write_left(out: &mut Writer, left: Refusal) -> Result<(), AllocError>
    ensures before { out.new.before ≡ out.old.before }
    ensures tokens { OnOk result
        (out.new.tokens ≡ out.old.tokens ++ json_tokens (left_json (Extent.Part left))) }
{
    out.begin_object()?;
    put_place(out, left)?;
    out.end_object()
}

/// Adds sentences.
fn put_sentences(out: &mut Writer, sentences: &[String]) -> Result<(), AllocError>
    ensures before { out.new.before ≡ out.old.before }
    ensures tokens { OnOk result (out.new.tokens ≡ out.old.tokens
        ++ key (codes "sentences") ∷ json_tokens (array (sentences_json sentences.now))) }
{
    out.key("sentences")?;
    out.begin_array()?;
    write_sentences(out, sentences)
}

/// Writes sentences, to the end of the array.
fn write_sentences(out: &mut Writer, sentences: &[String]) -> Result<(), AllocError>
    ensures before { out.new.before ≡ out.old.before }
    ensures tokens { OnOk result
        (out.new.tokens ≡ out.old.tokens ++ items_tokens (sentences_json sentences.now)) }
{
    for sentence in sentences {
        out.string(sentence.as_str())?;
    }
    out.end_array()
}
