//! The lines on which the instructions of a routine stand, where memory is ample.

use asm_places::instruction_lines;
use std::alloc::Global;
use tests_vectors::ONE_READ_TEXT;

/// Whether the instructions of a routine of `ONE_READ_TEXT` stand on these lines.
fn are_lines(alloc: Global, routine: u8, lines: &[u64]) -> bool {
    match instruction_lines(alloc, ONE_READ_TEXT, 0, routine) {
        Ok(found) => found.as_slice() == lines,
        Err(_) => false,
    }
}

#[test]
fn instructions_stand_on_lines(rt: HostRuntime) {
    assert!(rt; are_lines(rt.alloc(), 0, &[4, 5]));
    assert!(rt; are_lines(rt.alloc(), 1, &[]));
}
