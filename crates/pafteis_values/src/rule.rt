//! A rule by its number.

ghost use Rattle.std.specs.Prelude.{◌≡◌};
ghost use Rattle.pafteis_values.specs.Rule.{rule_named};

use model::abs::Rule;

/// The rule of a number, 1 to 20.
pub fn rule_of(number: u32) -> Option<Rule>
    ensures { result ≡ rule_named number }
{
    match number {
        1 => Some(Rule::Malformed),
        2 => Some(Rule::Unreachable),
        3 => Some(Rule::StatesDiffer),
        4 => Some(Rule::WrongKind),
        5 => Some(Rule::DoubleCompletion),
        6 => Some(Rule::MarkIrpPending),
        7 => Some(Rule::CancelSpinLock),
        8 => Some(Rule::SpinLock),
        9 => Some(Rule::LockHeld),
        10 => Some(Rule::Level),
        11 => Some(Rule::Guard),
        12 => Some(Rule::CancelState),
        13 => Some(Rule::Dropped),
        14 => Some(Rule::Token),
        15 => Some(Rule::Sort),
        16 => Some(Rule::Completion),
        17 => Some(Rule::StackTooSmall),
        18 => Some(Rule::NoLower),
        19 => Some(Rule::TooLong),
        20 => Some(Rule::Memory),
        _ => None,
    }
}
