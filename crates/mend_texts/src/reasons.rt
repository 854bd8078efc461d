//! What a mend is for, in words.

use model::abs::Rule;

/// What is so behind a mend of a broken rule.
pub fn reason(rule: Rule) -> &'static str {
    match rule {
        Rule::Malformed => "the routine is whole: it ends by a ret, and loops are closed",
        Rule::Unreachable => "a path leads to each instruction",
        Rule::StatesDiffer => "on all paths that meet here the same holds",
        Rule::WrongKind => "the register holds what is used of it",
        Rule::DoubleCompletion => "the packet is completed once",
        Rule::MarkIrpPending => "the pending mark and the status agree",
        Rule::CancelSpinLock => {
            "the system cancel spin lock is taken once, and given back on every path"
        }
        Rule::SpinLock => "the lock is taken once, and given back on every path",
        Rule::LockHeld => "no lock is held while the packet is completed",
        Rule::Level => "paged cells are used at PASSIVE_LEVEL alone",
        Rule::Guard => "the lock that guards the list is held where it is touched",
        Rule::CancelState => "the packet is the routine's own where it is used",
        Rule::Dropped => "the packet isn't lost",
        Rule::Token => "the busy device goes on: it is begun or started once",
        Rule::Sort => "a routine of this sort may do it",
        Rule::Completion => "the completion routine carries the pending mark up",
        Rule::StackTooSmall => "the device has stack locations for what is under it",
        Rule::NoLower => "there is a device to send the packet to",
        Rule::TooLong => "an activation ends within a million instructions",
        Rule::Memory => "there is memory",
    }
}
