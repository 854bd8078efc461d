//! What a value in a register is.

ghost use Rattle.std.specs.Prelude.{◌≡◌};
ghost use Rattle.model.specs.World.{number_in as number_in_of, status_in as status_in_of};

use model::status::Status;
use model::world::Value;

/// The number that a value is.
pub fn number_in(value: Value) -> Option<u64>
    ensures { result ≡ number_in_of value }
{
    match value {
        Value::Num(number) => Some(number),
        _ => None,
    }
}

/// The status that a value is.
pub fn status_in(value: Value) -> Option<Status>
    ensures { result ≡ status_in_of value }
{
    match value {
        Value::Status(status) => Some(status),
        _ => None,
    }
}
