//! What is told of an accepted set: its routines, the orders of its locks and its sizes.

ghost use Rattle.std.specs.Prelude.{◌≡◌, ◌++◌, false, IfOk, string_bytes};
ghost use Rattle.answer_stats.specs.Stats.{AreWordsOn, size_line, sizes_text};

use crate::sizes::{Sizes, input_name, sizes_of};
use answer::as_text::{Text, ended};
use answer::content::Given;
use answer::form::Form;
use answer::origin::origin_of;
use answer::set::OnSet;
use drvhost_devices::fault::End;
use drvhost_devices::told::Told;
use std::alloc::{AllocError, Global};
use verifier::Accepted;
use verifier_warnings::{lock_orders, warnings};
use words::Words;

/// The job of telling what there is in a set that is accepted. As text that is what `check` says of
/// it, with a line for each routine and its certificate; a line for each driver that takes locks,
/// with their order; a warning of each driver that takes them in a cycle; and its sizes, a line
/// each.
#[derive(Clone, Copy)]
pub struct Statistics;

impl OnSet<Text> for Statistics {
    ghost use Rattle.answer_stats.specs.Stats.{IsStatsText};

    ghost right = { λ _ _ _. IsStatsText };

    fn on(
        &self,
        form: &Text,
        alloc: Global,
        given: &Given<'_>,
        accepted: &Accepted,
    ) -> Result<Told, AllocError> {
        let words = words_on(alloc, given.bytes, accepted)?;
        let told = form.accepted(alloc, given.name, given.bytes, accepted)?;
        let mut text = Vec::new(alloc);
        text.extend_from_slice(told.output())?;
        text.extend_from_slice(words.as_bytes())?;
        Ok(ended(alloc, End::Complete, text))
    }
}

/// The lines behind those of the routines of the set that bytes are.
fn words_on(alloc: Global, bytes: &[u8], accepted: &Accepted) -> Result<String, AllocError>
    ensures { IfOk result (λ words. AreWordsOn bytes.now accepted.now (string_bytes words)) }
{
    let orders = lock_orders(alloc, origin_of(bytes), accepted)?;
    let warned = warnings(alloc, origin_of(bytes), accepted)?;
    let sizes = sizes_of(bytes, accepted.set());
    let mut words = Words::new(alloc);
    words.add(orders.as_str());
    words.add(warned.as_str());
    add_sizes(&mut words, &sizes);
    words.finish()
}

/// Adds the lines of sizes.
fn add_sizes(words: &mut Words, sizes: &Sizes)
    ensures { words.new.lacks ≡ false → (words.old.lacks ≡ false)
        × (string_bytes words.new.text ≡ string_bytes words.old.text ++ sizes_text sizes.now) }
{
    add_size(words, "drivers", sizes.drivers);
    add_size(words, "devices", sizes.devices);
    add_size(words, "routines", sizes.routines);
    add_size(words, "instructions", sizes.instructions);
    add_size(words, "locks", sizes.locks);
    words.add(input_name(sizes.input));
    add_size(words, " bytes", sizes.bytes)
}

/// Adds the line of a size by its name.
fn add_size(words: &mut Words, name: &str, size: u64)
    ensures { words.new.lacks ≡ false → (words.old.lacks ≡ false)
        × (string_bytes words.new.text ≡ string_bytes words.old.text ++ size_line name.now size) }
{
    words.add(name);
    words.add(" ");
    words.add_number(size);
    words.add("\n")
}
