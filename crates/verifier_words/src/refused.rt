//! A refusal in parts: what is known where a path arrives, and why the rule is broken.

use crate::place::Scene;
use crate::state::add_state;
use crate::telling::{add_reasons, routine_of, scene_of};
use driver_set::DriverSet;
use model::abs::{Abs, Refusal, Rule};
use std::alloc::{AllocError, Global};
use verifier_evidence::Evidence;
use verifier_names::{Names, Origin, of_set};
use words::Words;

/// A routine that is refused, as its text has it, if there is one: what words on its refusal are
/// made with.
#[derive(Drop)]
pub struct RefusedRoutine<'a> {
    scene: Option<Scene<'a>>,
}

impl<'a> RefusedRoutine<'a> {
    /// The routine of a refusal.
    ///
    /// # Errors
    ///
    /// When memory runs out.
    pub fn of(
        alloc: Global,
        origin: Origin<'a>,
        set: &DriverSet,
        refusal: &Refusal,
    ) -> Result<RefusedRoutine<'a>, AllocError> {
        let scene = match routine_of(set, refusal) {
            Some(routine) => Some(scene_of(alloc, origin, set, refusal, routine)?),
            None => None,
        };
        Ok(RefusedRoutine { scene })
    }

    /// What is known in a state, in one line.
    ///
    /// # Errors
    ///
    /// When memory runs out.
    pub fn known(&self, alloc: Global, state: &Abs) -> Result<String, AllocError> {
        let mut words = Words::new(alloc);
        if let Some(scene) = &self.scene {
            add_state(&mut words, scene.names(), state);
        }
        let lines = words.finish()?;
        in_one_line(alloc, lines.as_str())
    }

    /// Why the rule is broken, where that is written, and how to mend it, in lines.
    ///
    /// # Errors
    ///
    /// When memory runs out.
    pub fn why(
        &self,
        alloc: Global,
        set: &DriverSet,
        evidence: &Evidence,
    ) -> Result<String, AllocError> {
        let mut words = Words::new(alloc);
        if let Some(scene) = &self.scene {
            if let Some(routine) = routine_of(set, &scene.refusal) {
                add_reasons(alloc, &mut words, scene, set, routine, evidence);
            }
        }
        words.finish()
    }
}

/// Why a rule is broken that is about a whole set, likewise.
///
/// # Errors
///
/// When memory runs out.
pub fn set_refused(alloc: Global, rule: Rule) -> Result<String, AllocError> {
    let mut words = Words::new(alloc);
    of_set(rule).add(&mut words, Names::Listed);
    words.finish()
}

/// Lines in one, each without the blanks round it.
fn in_one_line(alloc: Global, lines: &str) -> Result<String, AllocError> {
    let mut words = Words::new(alloc);
    for (number, part) in lines.trim_end().split('\n').enumerate() {
        words.add(if number > 0 { "; " } else { "" });
        words.add(part.trim());
    }
    words.finish()
}
