//! An instruction's form: its number, its word and its operands, and what is built of them. Nothing
//! runs here: each law is the contract of a function that does nothing.

ghost use Rattle.model.specs.InstructionForm.{FormsAreInverse, FormsTellEditions};

/// What an instruction says is what it is built of.
#[tactic(auto, using(crate::proofs::InstructionForm::forms_are_inverse))]
pub fn forms_are_inverse()
    ensures { FormsAreInverse }
{}

/// The forms tell the edition that an instruction is of.
#[tactic(auto, using(crate::proofs::InstructionForm::forms_tell_editions))]
pub fn forms_tell_editions()
    ensures { FormsTellEditions }
{}
