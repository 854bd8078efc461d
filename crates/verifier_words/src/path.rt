//! Paths in words.

use crate::place::Scene;
use verifier_evidence::{Path, Step};
use words::Words;

/// Adds the positions of a path from its start to its place, with their lines. A step that doesn't
/// lead to the next position is a jump.
pub(crate) fn add_path(words: &mut Words, scene: &Scene<'_>, path: &Path) {
    let mut before: Option<u16> = None;
    for step in path.before.as_slice() {
        add_step(words, scene, before, step);
        before = Some(step.at);
    }
    add_step(words, scene, before, &path.last)
}

/// Adds a step of a path.
fn add_step(words: &mut Words, scene: &Scene<'_>, before: Option<u16>, step: &Step) {
    let sign = if is_jump(before, step.at) {
        "  -> "
    } else {
        "     "
    };
    words.add(sign);
    scene.add_position(words, step.at);
    words.add("\n")
}

/// Whether a position isn't the one after another.
fn is_jump(before: Option<u16>, at: u16) -> bool {
    match before {
        Some(before) => before.saturating_add(1) != at,
        None => false,
    }
}
