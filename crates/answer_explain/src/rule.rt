//! A rule in words, and the warning on the order of locks.

ghost use Rattle.std.specs.Prelude.{◌≡◌, ◌++◌, IfOk};
ghost use Rattle.drvhost_devices.specs.Answer.{IsRuleExplained, ended};
ghost use Rattle.answer_explain.specs.Explained.{IsLockOrderExplained};

use crate::joining::joined;
use answer::as_text::ended;
use drvhost_devices::fault::End;
use drvhost_devices::told::Told;
use model::abs::Rule;
use std::alloc::{AllocError, Global};
use verifier_names::{lock_order_words, rule_words};

/// A rule by its number and name, and then what it says, with an example.
///
/// # Errors
///
/// When memory runs out.
pub fn explain_rule(alloc: Global, rule: Rule) -> Result<Told, AllocError>
    ensures { IfOk result (IsRuleExplained rule) }
{
    let words = rule_words(alloc, rule)?;
    Ok(page(alloc, rule.as_str(), words.as_str())?)
}

/// The warning on the order of locks by its name, and then what it says, with an example.
///
/// # Errors
///
/// When memory runs out.
pub fn explain_lock_order(alloc: Global) -> Result<Told, AllocError>
    ensures { IfOk result IsLockOrderExplained }
{
    let words = lock_order_words(alloc)?;
    Ok(page(alloc, "LockOrder", words.as_str())?)
}

/// A page: a name, with words behind it.
fn page(alloc: Global, name: &str, words: &str) -> Result<Told, AllocError>
    ensures { IfOk result (λ page. page ≡ ended End.Complete (name.now ++ words.now)) }
{
    let text = joined(alloc, name.as_bytes(), words.as_bytes())?;
    Ok(ended(alloc, End::Complete, text))
}
