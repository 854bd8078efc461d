//! All candidates for a fault.

use crate::blocks::Blocks;
use crate::lines::Lines;
use crate::templates::Templates;
use crate::ways::Ways;
use mend_candidates::{Gathered, Scene};
use std::alloc::{AllocError, Global};

/// Adds all candidates for the fault of a scene, in order.
///
/// # Errors
///
/// When memory runs out.
pub fn add_all(alloc: Global, scene: &Scene, out: &mut Gathered) -> Result<(), AllocError> {
    scene.add_singles(alloc, out);
    Blocks { scene }.add_blocks(out);
    Templates { scene }.add_templates(alloc, out);
    Lines { scene }.add_lines(out);
    Ways { scene }.add_ways(out);
    out.finish()
}
