//! The listing of a set: a text that names the same set, with names of its own.

ghost use Rattle.std.specs.Prelude.{IfOk};
ghost use Rattle.drvhost_devices.specs.Device.{Bytes};
ghost use Rattle.drvhost_devices.specs.Ends.{IsListOf};

use crate::as_json::{Json, line_of};
use crate::as_text::{Text, ended};
use crate::content::Given;
use crate::deliver::answer_to;
use crate::judged::Unjudged;
use crate::set::OnAnySet;
use asm_line::listing;
use drvhost_devices::fault::End;
use drvhost_devices::told::Told;
use image::DriverSet;
use json::Writer;
use report_json::member::{begin, put_text};
use report_json::to_json::ToJson;
use std::alloc::{AllocError, Global};

/// The name of the shape of a listing, and its edition.
const FORMAT: &str = "pafteis.listing/1";

/// The job of listing a set.
#[derive(Clone, Copy)]
pub struct Listing;

impl OnAnySet<Text> for Listing {
    ghost use Rattle.drvhost_devices.specs.Answer.{IsListing};

    ghost right = { λ _ _ _ _. IsListing };

    fn on(
        &self,
        _form: &Text,
        alloc: Global,
        _given: &Given<'_>,
        set: &DriverSet,
    ) -> Result<Told, AllocError> {
        let text = listing(alloc, set)?;
        Ok(ended(alloc, End::Complete, text.into_bytes()))
    }
}

impl OnAnySet<Json> for Listing {
    ghost use Rattle.answer.specs.Listing.{IsListingJson};

    ghost right = { λ _ _ name _. IsListingJson name };

    fn on(
        &self,
        _form: &Json,
        alloc: Global,
        given: &Given<'_>,
        set: &DriverSet,
    ) -> Result<Told, AllocError> {
        let text = listing(alloc, set)?;
        let told = Listed {
            file: given.name,
            text: text.as_str(),
        };
        Ok(ended(alloc, End::Complete, line_of(alloc, &told)?))
    }
}

/// The listing of the set of a file.
#[derive(Clone, Copy)]
struct Listed<'a> {
    file: &'a str,
    text: &'a str,
}

impl ToJson for Listed<'_> {
    ghost use Rattle.answer.specs.Listing.{listing_json, listing_nests};

    ghost json = { λ told. listing_json told.file.now told.text.now };

    fn write(&self, out: &mut Writer) -> Result<(), AllocError> {
        begin(out, FORMAT, self.file)?;
        put_text(out, "text", self.text)?;
        out.end_object()
    }

    ghost nests = { λ told. listing_nests told.file.now told.text.now };
}

/// The listing of the set that bytes name.
///
/// # Errors
///
/// When memory runs out.
pub fn list(alloc: Global, bytes: &[u8]) -> Result<Told, AllocError>
    ensures { IfOk result (IsListOf (Bytes bytes.now)) }
{
    let unjudged = Unjudged {
        job: Listing,
        form: Text,
    };
    Ok(answer_to(&unjudged, alloc, "", bytes)?)
}
