//! A law of where instructions stand. Nothing runs here: it is the contract of a function that does
//! nothing.

ghost use Rattle.asm_places.specs.Standing.{OneLineEach};

/// No two lines are that of the instruction of a position of a routine of a driver.
pub fn one_line_each()
    ensures { OneLineEach }
{}
