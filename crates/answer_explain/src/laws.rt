//! Laws of the answers, over their definitions alone. Nothing runs here.

ghost use Rattle.answer_explain.specs.Laws.{CheckIsOne, ListIsOne, RewriteIsOne, RewritingIsStable};
ghost use Rattle.answer_explain.specs.Laws.{TraceIsOne};
ghost use Rattle.answer_explain.specs.Quoting.{WordsAreRead};

use image::laws::{bytes_spell_one, fault_is_one, images_are_faultless};
use verifier::laws::first_fault_is_one;

/// For the bytes of their files `check`, `trace`, `list` and `rewrite` have one right answer each
/// at most.
pub fn answer_is_one()
    ensures check { CheckIsOne }
    ensures trace { TraceIsOne }
    ensures list { ListIsOne }
    ensures rewrite { RewriteIsOne }
{
    first_fault_is_one();
    bytes_spell_one();
    images_are_faultless();
    fault_is_one();
}

/// A second rewrite of what was written gives the same bytes.
pub fn rewriting_is_stable()
    ensures { RewritingIsStable }
{
    bytes_spell_one();
    images_are_faultless();
}

/// A shell reads the word by which a command names a file as its name, behind the folder where the
/// command runs if that would be an option.
pub fn words_are_read()
    ensures { WordsAreRead }
{}
