//! The names of rules, status values and bug checks.

ghost use Rattle.std.specs.Prelude.{◌≡◌, option_map};
ghost use Rattle.pafteis_values.specs.Constants.{bug_check_named, rule_named, status_named};

use crate::rule::rule_of;

/// A rule by its number, 1 to 20, such as `V11 Guard`.
pub fn rule_name(number: u32) -> Option<&'static str>
    ensures { option_map (λ name. name.now) result ≡ rule_named number }
{
    match rule_of(number) {
        Some(rule) => Some(rule.as_str()),
        None => None,
    }
}

/// A status value, such as `STATUS_CANCELLED`.
pub fn status_name(value: u32) -> Option<&'static str>
    ensures { option_map (λ name. name.now) result ≡ status_named value }
{
    match value {
        0x0000_0000 => Some("STATUS_SUCCESS"),
        0x0000_0103 => Some("STATUS_PENDING"),
        0x8000_0011 => Some("STATUS_DEVICE_BUSY"),
        0xC000_0001 => Some("STATUS_UNSUCCESSFUL"),
        0xC000_000D => Some("STATUS_INVALID_PARAMETER"),
        0xC000_0010 => Some("STATUS_INVALID_DEVICE_REQUEST"),
        0xC000_0120 => Some("STATUS_CANCELLED"),
        _ => None,
    }
}

/// A bug check by its number, such as `MULTIPLE_IRP_COMPLETE_REQUESTS`.
pub fn bug_check_name(number: u32) -> Option<&'static str>
    ensures { option_map (λ name. name.now) result ≡ bug_check_named number }
{
    match number {
        0x0A => Some("IRQL_NOT_LESS_OR_EQUAL"),
        0x0F => Some("SPIN_LOCK_ALREADY_OWNED"),
        0x10 => Some("SPIN_LOCK_NOT_OWNED"),
        0x35 => Some("NO_MORE_IRP_STACK_LOCATIONS"),
        0x44 => Some("MULTIPLE_IRP_COMPLETE_REQUESTS"),
        0x48 => Some("CANCEL_STATE_IN_COMPLETED_IRP"),
        _ => None,
    }
}
