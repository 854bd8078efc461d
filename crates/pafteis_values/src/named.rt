//! What a driver text names.

ghost use Rattle.std.specs.Prelude.{◌≡◌};
ghost use Rattle.asm_places.specs.Source.{body_on};
ghost use Rattle.pafteis_values.specs.Named.{met, name_in, next};

use asm_line::{Body, read_line};
use text::cut::Lines;
use text::piece::Piece;

/// What a driver has by number.
#[derive(Clone, Copy)]
pub enum Part {
    Routine,
    Queue,
}

/// Whose name is sought in the lines that are left.
#[derive(Clone, Copy)]
pub enum Sought {
    /// The driver before which so many others begin.
    Driver(u8),
    /// The device before which so many others stand.
    Device(u8),
    /// Of the driver before which so many others begin, the part before which so many of its sort
    /// stand.
    Of(u8, Part, u8),
    /// Of the driver that has begun, such a part.
    Here(Part, u8),
    /// Nothing: the driver has ended without it.
    Nothing,
}

/// What comes of a line.
#[derive(Drop)]
enum Found<'a> {
    /// It has the name.
    Name(Piece<'a>),
    /// The name is sought in those behind it.
    Further(Sought),
}

/// The name that is sought where a line names something with so many others before it: its own
/// where there are none, or this is sought further.
fn next<'a>(name: &Piece<'a>, before: u8, further: Sought) -> Found<'a>
    ensures { result ≡ next name.now before further }
{
    if before == 0 {
        Found::Name(name.again())
    } else {
        Found::Further(further)
    }
}

/// What comes of a line that says this.
fn met<'a>(sought: Sought, body: &Body<'a>) -> Found<'a>
    ensures { result ≡ met sought body.now }
{
    match (sought, body) {
        (Sought::Driver(before), Body::OpenDriver(name)) => {
            next(name, before, Sought::Driver(before.saturating_sub(1)))
        }
        (Sought::Device(before), Body::AddDevice(name, _, _, _)) => {
            next(name, before, Sought::Device(before.saturating_sub(1)))
        }
        (Sought::Of(0, part, number), Body::OpenDriver(_)) => {
            Found::Further(Sought::Here(part, number))
        }
        (Sought::Of(before, part, number), Body::OpenDriver(_)) => {
            Found::Further(Sought::Of(before - 1, part, number))
        }
        (Sought::Here(Part::Routine, before), Body::OpenRoutine(name, _)) => {
            let further = Sought::Here(Part::Routine, before.saturating_sub(1));
            next(name, before, further)
        }
        (Sought::Here(Part::Queue, before), Body::AddQueue(name, _, _)) => {
            let further = Sought::Here(Part::Queue, before.saturating_sub(1));
            next(name, before, further)
        }
        (Sought::Here(_, _), Body::CloseDriver) => Found::Further(Sought::Nothing),
        _ => Found::Further(sought),
    }
}

/// What comes of a line; one of no form names nothing.
fn met_on<'a>(sought: Sought, raw: &'a [u8]) -> Found<'a>
    ensures { result ≡ met sought (body_on raw.now) }
{
    match read_line(raw) {
        Ok(line) => met(sought, &line.body),
        Err(_) => Found::Further(sought),
    }
}

/// The name of what is sought in a text, where it has that.
pub fn name_in<'a>(text: &'a [u8], sought: Sought) -> Option<Piece<'a>>
    ensures { result ≡ name_in text.now sought }
{
    let mut left = Lines::of(text);
    let mut now = sought;
    while let Some(raw) = left.next() {
        match met_on(now, raw) {
            Found::Name(name) => return Some(name),
            Found::Further(further) => now = further,
        }
    }
    None
}
