//! Laws of what a text names, in the words of a text's reader. Nothing runs here: each law is the
//! contract of a function that does nothing.

ghost use Rattle.asm.specs.Laws.{FaultIsFirst, NamedIsFaultless, SetIsOfItsLines};

/// The fault that is given is that of the first line that has one, with the least kind that it has,
/// or that the text ends too early; and only where there is none of these, the first use of a name
/// that nothing has.
#[tactic(auto, using(crate::proofs::Declared::First::fault_is_first))]
pub fn fault_is_first()
    ensures { FaultIsFirst }
{}

/// A text that names a set has no fault of any kind.
pub fn named_is_faultless()
    ensures { NamedIsFaultless }
{}

/// The set that a text names is that of its lines: each routine has the instructions on its lines,
/// in order, with the numbers of what they name.
#[tactic(auto, using(crate::proofs::Declared::First::set_is_of_its_lines))]
pub fn set_is_of_its_lines()
    ensures { SetIsOfItsLines }
{}
