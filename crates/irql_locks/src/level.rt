//! Levels by number.

ghost use Rattle.std.specs.Prelude.{◌≡◌};
ghost use Rattle.model.specs.Events.{irql_of};

use model::world::Irql;

/// The level of a number.
pub fn irql_of(level: u8) -> Option<Irql>
    ensures { result ≡ irql_of level }
{
    match level {
        0 => Some(Irql::Passive),
        1 => Some(Irql::Apc),
        2 => Some(Irql::Dispatch),
        _ => None,
    }
}
