//! A job on the set of a file, which has to be accepted or needn't be: what keeps the job from it is
//! said here, once.

ghost use Rattle.std.specs.Prelude.{IfOk};
ghost use Rattle.answer.specs.Judged.{IsFound, IsOfSet};

use crate::content::{Content, Given, Named};
use crate::form::Form;
use crate::job::Job;
use crate::reading::said_in;
use crate::set::{OnAnySet, OnSet};
use drvhost_devices::told::Told;
use image::DriverSet;
use model::abs::Rule;
use std::alloc::{AllocError, Global};
use verifier::verify;

/// What comes of the file of a set.
#[derive(Drop)]
enum Found<'a> {
    /// It was read, and names this set.
    Set(Given<'a>, DriverSet),
    /// It names none, and this is the answer.
    Kept(Told),
}

/// The set that a file names, or the answer where it names none.
fn found_in<'a, F: Form>(form: &F, alloc: Global, file: &Named<'a>) -> Result<Found<'a>, AllocError>
    ensures { IfOk result (IsFound F.Form form.now file.now) }
{
    let name = file.name;
    match file.content {
        Content::Whole(bytes) => match said_in(alloc, bytes)? {
            Ok(set) => Ok(Found::Set(Given { name, bytes }, set)),
            Err(fault) => Ok(Found::Kept(form.faulty(alloc, name, bytes, fault)?)),
        },
        Content::Unread => Ok(Found::Kept(form.unread(alloc, name)?)),
        Content::Unopened => Ok(Found::Kept(form.unopened(alloc, name)?)),
    }
}

/// A job on a set that has to be accepted, and the form in which it is said.
#[derive(Drop)]
pub struct Judged<J, F> {
    pub job: J,
    pub form: F,
}

impl<F: Form, J: OnSet<F>> Job for Judged<J, F> {
    ghost use Rattle.answer.specs.Judged.{IsOfContent, IsOfSet};

    ghost right = { λ judged set. IsOfContent F.Form judged.form set.name.now
        (IsOfSet F.Form judged.form set.name.now
        (J.right judged.job judged.form set.name.now)) set.content };

    fn answer(&self, alloc: Global, set: &Named<'_>) -> Result<Told, AllocError> {
        match found_in(&self.form, alloc, set)? {
            Found::Set(given, found) => self.of_set(alloc, &given, found),
            Found::Kept(told) => Ok(told),
        }
    }
}

impl<F: Form, J: OnSet<F>> Judged<J, F> {
    /// The answer for the set that the bytes of a file name.
    fn of_set(&self, alloc: Global, given: &Given<'_>, set: DriverSet) -> Result<Told, AllocError>
        ensures { IfOk result (IsOfSet F.Form self.now.form given.now.name.now
            (J.right self.now.job self.now.form given.now.name.now) given.now.bytes.now set) }
    {
        match verify(alloc, set) {
            Ok(accepted) => self.job.on(&self.form, alloc, given, &accepted),
            Err((set, refusal)) => {
                if refusal.rule == Rule::Memory {
                    return Err(AllocError);
                }
                self.form
                    .refused(alloc, given.name, given.bytes, &set, &refusal)
            }
        }
    }
}

/// A job on a set that needn't be accepted, and the form in which it is said.
#[derive(Drop)]
pub struct Unjudged<J, F> {
    pub job: J,
    pub form: F,
}

impl<F: Form, J: OnAnySet<F>> Job for Unjudged<J, F> {
    ghost use Rattle.answer.specs.Judged.{IsOfContent};

    ghost right = { λ unjudged set. IsOfContent F.Form unjudged.form set.name.now
        (J.right unjudged.job unjudged.form set.name.now) set.content };

    fn answer(&self, alloc: Global, set: &Named<'_>) -> Result<Told, AllocError> {
        match found_in(&self.form, alloc, set)? {
            Found::Set(given, found) => self.job.on(&self.form, alloc, &given, &found),
            Found::Kept(told) => Ok(told),
        }
    }
}
