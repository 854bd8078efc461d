//! Rules by their words.

ghost use Rattle.std.specs.Prelude.{◌≡◌, IfNone, IfSome};
ghost use Rattle.model.specs.Words.{rule_word};
ghost use Rattle.report.specs.Rule.{IsRuleWord, rule_name};

use model::abs::Rule;

/// The rule of a word such as `V12` or `CancelState`, if there is one.
pub fn rule_named(word: &str) -> Option<Rule>
    ensures some { IfSome result (IsRuleWord word.now) }
    ensures none { IfNone result ((rule : Rule) → IsRuleWord word.now rule → ⊥) }
{
    match rule_of_number(word) {
        Some(rule) => Some(rule),
        None => rule_of_name(word),
    }
}

/// The rule of a number such as `V12`.
fn rule_of_number(word: &str) -> Option<Rule>
    ensures some { IfSome result (λ rule. word.now ≡ rule_word rule) }
    ensures none { IfNone result ((rule : Rule) → word.now ≡ rule_word rule → ⊥) }
{
    match word {
        "V1" => Some(Rule::Malformed),
        "V2" => Some(Rule::Unreachable),
        "V3" => Some(Rule::StatesDiffer),
        "V4" => Some(Rule::WrongKind),
        "V5" => Some(Rule::DoubleCompletion),
        "V6" => Some(Rule::MarkIrpPending),
        "V7" => Some(Rule::CancelSpinLock),
        "V8" => Some(Rule::SpinLock),
        "V9" => Some(Rule::LockHeld),
        "V10" => Some(Rule::Level),
        "V11" => Some(Rule::Guard),
        "V12" => Some(Rule::CancelState),
        "V13" => Some(Rule::Dropped),
        "V14" => Some(Rule::Token),
        "V15" => Some(Rule::Sort),
        "V16" => Some(Rule::Completion),
        "V17" => Some(Rule::StackTooSmall),
        "V18" => Some(Rule::NoLower),
        "V19" => Some(Rule::TooLong),
        "V20" => Some(Rule::Memory),
        _ => None,
    }
}

/// The rule of a name such as `CancelState`.
fn rule_of_name(word: &str) -> Option<Rule>
    ensures some { IfSome result (λ rule. word.now ≡ rule_name rule) }
    ensures none { IfNone result ((rule : Rule) → word.now ≡ rule_name rule → ⊥) }
{
    match word {
        "Malformed" => Some(Rule::Malformed),
        "Unreachable" => Some(Rule::Unreachable),
        "StatesDiffer" => Some(Rule::StatesDiffer),
        "WrongKind" => Some(Rule::WrongKind),
        "DoubleCompletion" => Some(Rule::DoubleCompletion),
        "MarkIrpPending" => Some(Rule::MarkIrpPending),
        "CancelSpinLock" => Some(Rule::CancelSpinLock),
        "SpinLock" => Some(Rule::SpinLock),
        "LockHeld" => Some(Rule::LockHeld),
        "Level" => Some(Rule::Level),
        "Guard" => Some(Rule::Guard),
        "CancelState" => Some(Rule::CancelState),
        "Dropped" => Some(Rule::Dropped),
        "Token" => Some(Rule::Token),
        "Sort" => Some(Rule::Sort),
        "Completion" => Some(Rule::Completion),
        "StackTooSmall" => Some(Rule::StackTooSmall),
        "NoLower" => Some(Rule::NoLower),
        "TooLong" => Some(Rule::TooLong),
        "Memory" => Some(Rule::Memory),
        _ => None,
    }
}
