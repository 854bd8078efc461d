//! The words of status values, bug checks, sorts and rules, as every line shows them.

ghost use Rattle.std.specs.Prelude.{◌≡◌};
ghost use Rattle.model.specs.Words.{bug_check_text, rule_text, sort_text, status_text};

use crate::abs::Rule;
use crate::event::BugCheck;
use crate::set::Sort;
use crate::status::Status;

impl Status {
    /// The status value: `0x` and eight hexadecimal digits in upper case.
    pub fn as_str(self) -> &'static str
        ensures { result.now ≡ status_text self }
    {
        match self {
            Status::Success => "0x00000000",
            Status::Pending => "0x00000103",
            Status::Busy => "0x80000011",
            Status::Unsuccessful => "0xC0000001",
            Status::InvalidParameter => "0xC000000D",
            Status::InvalidDeviceRequest => "0xC0000010",
            Status::Cancelled => "0xC0000120",
        }
    }
}

impl BugCheck {
    /// Its number in the bug check reference: `0x` and two hexadecimal digits in upper case.
    pub fn as_str(self) -> &'static str
        ensures { result.now ≡ bug_check_text self }
    {
        match self {
            BugCheck::IrqlNotLessOrEqual => "0x0A",
            BugCheck::SpinLockAlreadyOwned => "0x0F",
            BugCheck::SpinLockNotOwned => "0x10",
            BugCheck::NoMoreIrpStackLocations => "0x35",
            BugCheck::MultipleIrpCompleteRequests => "0x44",
            BugCheck::CancelStateInCompletedIrp => "0x48",
        }
    }
}

impl Sort {
    /// Its word, as a text names it: `dispatch`, `startio` and so on.
    pub fn as_str(self) -> &'static str
        ensures { result.now ≡ sort_text self }
    {
        match self {
            Sort::Dispatch => "dispatch",
            Sort::StartIo => "startio",
            Sort::Dpc => "dpc",
            Sort::Propagate => "propagate",
            Sort::Hold => "hold",
            Sort::Cancel => "cancel",
        }
    }
}

impl Rule {
    /// Its number and its name: `V1 Malformed` to `V20 Memory`.
    pub fn as_str(self) -> &'static str
        ensures { result.now ≡ rule_text self }
    {
        match self {
            Rule::Malformed => "V1 Malformed",
            Rule::Unreachable => "V2 Unreachable",
            Rule::StatesDiffer => "V3 StatesDiffer",
            Rule::WrongKind => "V4 WrongKind",
            Rule::DoubleCompletion => "V5 DoubleCompletion",
            Rule::MarkIrpPending => "V6 MarkIrpPending",
            Rule::CancelSpinLock => "V7 CancelSpinLock",
            Rule::SpinLock => "V8 SpinLock",
            Rule::LockHeld => "V9 LockHeld",
            Rule::Level => "V10 Level",
            Rule::Guard => "V11 Guard",
            Rule::CancelState => "V12 CancelState",
            Rule::Dropped => "V13 Dropped",
            Rule::Token => "V14 Token",
            Rule::Sort => "V15 Sort",
            Rule::Completion => "V16 Completion",
            Rule::StackTooSmall => "V17 StackTooSmall",
            Rule::NoLower => "V18 NoLower",
            Rule::TooLong => "V19 TooLong",
            Rule::Memory => "V20 Memory",
        }
    }
}
