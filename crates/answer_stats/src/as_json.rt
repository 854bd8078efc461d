//! What is told of an accepted set, as a line of JSON.

ghost use Rattle.std.specs.Prelude.{◌≡◌, ◌++◌, ◌∷◌, OnOk, codes};
ghost use Rattle.json.specs.Token.{key};
ghost use Rattle.json.specs.Tree.{items_tokens, json_tokens};
ghost use Rattle.answer_stats.specs.Json.{code_length, routine_json, routines_json, sizes_json};

use crate::order::write_orders;
use crate::sizes::{Sizes, input_name, sizes_of};
use crate::stats::Statistics;
use answer::as_json::{Json, line_of};
use answer::as_text::ended;
use answer::certified::certified_routines;
use answer::content::Given;
use answer::names::routine_names;
use answer::set::OnSet;
use drvhost_devices::fault::End;
use drvhost_devices::told::Told;
use image::DriverSet;
use json::Writer;
use report_json::member::{begin, put_number, put_text};
use report_json::to_json::ToJson;
use report_json::told::put_optional;
use report_json::verdict::{CertifiedRoutine, put_routine};
use std::alloc::{AllocError, Global};
use verifier::Accepted;
use verifier_orders::{LockOrder, orders_of};

/// The name of the shape of what is told, and its edition.
const FORMAT: &str = "pafteis.stats/1";

impl OnSet<Json> for Statistics {
    ghost use Rattle.answer_stats.specs.Json.{IsStatsJson};

    ghost right = { λ _ _ name. IsStatsJson name };

    fn on(
        &self,
        _form: &Json,
        alloc: Global,
        given: &Given<'_>,
        accepted: &Accepted,
    ) -> Result<Told, AllocError> {
        let names = routine_names(alloc, given.bytes)?;
        let routines = certified_routines(alloc, accepted, names)?;
        let orders = orders_of(alloc, accepted)?;
        let set = accepted.set();
        let told = Stats {
            file: given.name,
            set,
            routines: routines.as_slice(),
            orders: orders.as_slice(),
            sizes: sizes_of(given.bytes, set),
        };
        Ok(ended(alloc, End::Complete, line_of(alloc, &told)?))
    }
}

/// What is told of the set of a file.
#[derive(Clone, Copy)]
struct Stats<'a> {
    file: &'a str,
    set: &'a DriverSet,
    routines: &'a [CertifiedRoutine],
    orders: &'a [LockOrder],
    sizes: Sizes,
}

impl ToJson for Stats<'_> {
    ghost use Rattle.answer_stats.specs.Json.{stats_json};
    ghost use Rattle.answer_stats.specs.Nesting.{stats_nests};

    ghost json = { λ told. stats_json told.file.now told.set.now told.routines.now told.orders.now
        told.sizes };

    fn write(&self, out: &mut Writer) -> Result<(), AllocError> {
        begin(out, FORMAT, self.file)?;
        out.key("routines")?;
        out.begin_array()?;
        write_routines(out, self.set, self.routines)?;
        out.key("orders")?;
        out.begin_array()?;
        write_orders(out, self.orders)?;
        put_sizes(out, &self.sizes)?;
        out.end_object()
    }

    ghost nests = { λ told. stats_nests told.file.now told.set.now told.routines.now told.orders.now
        told.sizes };
}

/// Writes routines of a set, to the end of the array.
fn write_routines(
    out: &mut Writer,
    set: &DriverSet,
    routines: &[CertifiedRoutine],
) -> Result<(), AllocError>
    ensures before { out.new.before ≡ out.old.before }
    ensures tokens { OnOk result
        (out.new.tokens ≡ out.old.tokens ++ items_tokens (routines_json set.now routines.now)) }
{
    for routine in routines {
        write_routine(out, set, routine)?;
    }
    out.end_array()
}

/// Writes a routine of a set.
fn write_routine(
    out: &mut Writer,
    set: &DriverSet,
    routine: &CertifiedRoutine,
) -> Result<(), AllocError>
    ensures before { out.new.before ≡ out.old.before }
    ensures tokens { OnOk result
        (out.new.tokens ≡ out.old.tokens ++ json_tokens (routine_json set.now routine.now)) }
{
    out.begin_object()?;
    put_routine(out, routine)?;
    let length = code_length(set, routine.driver, routine.routine);
    put_optional(out, "instructions", length)?;
    out.end_object()
}

/// How many instructions a routine of a driver of a set has, if it is there.
fn code_length(set: &DriverSet, driver: u8, routine: u8) -> Option<u64>
    ensures { result ≡ code_length set.now driver routine }
{
    let driver = set.drivers().get(driver as usize)?;
    let routine = driver.routines.as_slice().get(routine as usize)?;
    Some(routine.code.as_slice().len() as u64)
}

/// Adds sizes.
fn put_sizes(out: &mut Writer, sizes: &Sizes) -> Result<(), AllocError>
    ensures before { out.new.before ≡ out.old.before }
    ensures tokens { OnOk result (out.new.tokens
        ≡ out.old.tokens ++ key (codes "sizes") ∷ json_tokens (sizes_json sizes.now)) }
{
    out.key("sizes")?;
    out.begin_object()?;
    put_number(out, "drivers", sizes.drivers)?;
    put_number(out, "devices", sizes.devices)?;
    put_number(out, "routines", sizes.routines)?;
    put_number(out, "instructions", sizes.instructions)?;
    put_number(out, "locks", sizes.locks)?;
    put_text(out, "input", input_name(sizes.input))?;
    put_number(out, "bytes", sizes.bytes)?;
    out.end_object()
}
