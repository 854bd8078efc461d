//! A test that was played.

ghost use Rattle.std.specs.Prelude.{◌≡◌, ◌++◌, IfOk, false, string_bytes};
ghost use Rattle.drvhost_tests.specs.Reports.{all_answers, answer_lines};

use crate::written::{Place, add_lines};
use drvhost_devices::told::Told;
use std::alloc::{AllocError, Global};
use std::marker::Model;
use words::Words;

/// A test: the name of its file, and what was answered to it. Contracts see it as these.
#[derive(Drop)]
pub(crate) struct Case<'t> {
    file: &'t str,
    told: &'t Told,
}

impl<'t> Model for Case<'t> {
    ghost use Rattle.drvhost_tests.specs.Test.{Test};

    ghost Value = { Test };

    ghost view = { λ case. record { name = case.file.now; answer = case.told.now } };
}

impl<'t> Case<'t> {
    /// The test of a file, to which this was answered.
    pub(crate) fn of(file: &'t str, told: &'t Told) -> Case<'t>
        ensures { result ≡ record { name = file.now; answer = told.now } }
    {
        Case { file, told }
    }

    /// The name of its file.
    pub(crate) fn name(&self) -> &'t str
        ensures { result.now ≡ self.now.name }
    {
        self.file
    }

    /// What was answered to it.
    pub(crate) fn told(&self) -> &'t Told
        ensures { result.now ≡ self.now.answer }
    {
        self.told
    }
}

/// Adds all lines of an answer as a place has them, each behind these words.
pub(crate) fn add_answer(words: &mut Words, place: Place, before: &str, told: &Told)
    ensures { words.new.lacks ≡ false → (words.old.lacks ≡ false)
        × (string_bytes words.new.text
        ≡ string_bytes words.old.text ++ answer_lines place before.now told.now) }
{
    add_lines(words, place, before, told.output());
    add_lines(words, place, before, told.told());
}

/// The answers to tests as one.
pub(crate) fn all_answers(alloc: Global, cases: &[Case<'_>]) -> Result<Told, AllocError>
    ensures { IfOk result (λ whole. whole ≡ all_answers cases.now) }
{
    let mut whole = Told::of(0, Vec::new(alloc), Vec::new(alloc));
    for case in cases {
        whole.add(case.told())?;
    }
    Ok(whole)
}
