//! The names that a text gives to things of one kind, within the reach of a line.

use crate::faulty::FaultyLine;
use crate::operand::Operand;
use crate::scope::Opened;
use std::alloc::{AllocError, Global};
use text::class::{is, label_name};
use text::cut::Lines;
use text::piece::Piece;
use text::token::Tokens;
use text::{PlacedLines, Spot};

/// What has a name.
#[derive(Clone, Copy)]
pub(crate) enum Thing {
    Driver,
    Device,
    Routine,
    Queue,
    Label,
}

/// A name, and the line that gives it.
#[derive(Drop)]
pub(crate) struct Given<'a> {
    /// The number of that line.
    pub(crate) number: u64,
    pub(crate) line: Piece<'a>,
    pub(crate) name: Piece<'a>,
}

impl Thing {
    /// What an operand names, if it names something.
    pub(crate) fn of(operand: Operand) -> Option<Thing> {
        match operand {
            Operand::Driver => Some(Thing::Driver),
            Operand::LowerDevice => Some(Thing::Device),
            Operand::Routine => Some(Thing::Routine),
            Operand::Queue => Some(Thing::Queue),
            Operand::Label => Some(Thing::Label),
            _ => None,
        }
    }

    /// What a line gives a name to by its first word, if it gives one.
    pub(crate) fn begun_by(word: &[u8]) -> Option<Thing> {
        if is(word, b"driver") {
            Some(Thing::Driver)
        } else if is(word, b"device") {
            Some(Thing::Device)
        } else if is(word, b"routine") {
            Some(Thing::Routine)
        } else if is(word, b"queue") {
            Some(Thing::Queue)
        } else {
            None
        }
    }

    /// It in a word.
    pub(crate) fn word(self) -> &'static str {
        match self {
            Thing::Driver => "driver",
            Thing::Device => "device",
            Thing::Routine => "routine",
            Thing::Queue => "queue",
            Thing::Label => "label",
        }
    }

    /// Where such names are known together, in words.
    pub(crate) fn reach(self) -> &'static str {
        match self {
            Thing::Driver | Thing::Device => "before this line",
            Thing::Routine | Thing::Queue => "of this driver",
            Thing::Label => "of this routine",
        }
    }

    /// Whether a line may say something of such things, by its first byte: one that names a routine
    /// or a queue, or ends a driver, begins with a blank or as its word does.
    fn may_concern(self, raw: &[u8]) -> bool {
        match self {
            Thing::Label => true,
            _ => matches!(raw.first(), Some(b'\t' | b'\r' | b' ' | b'e' | b'q' | b'r')),
        }
    }

    /// What a line says of such things, where they are known up to a line with a word.
    fn said_by<'a>(self, raw: &'a [u8], closing: &[u8]) -> Said<'a> {
        if !self.may_concern(raw) {
            return Said::Nothing;
        }
        let mut tokens = Tokens::of(raw);
        let Some(first) = tokens.next() else {
            return Said::Nothing;
        };
        if is(first, closing) {
            return Said::End;
        }
        let name = match self {
            Thing::Label => label_name(first),
            _ if is(first, self.word().as_bytes()) => tokens.next(),
            _ => None,
        };
        match name {
            Some(name) => Said::Name(Piece::of(name)),
            None => Said::Nothing,
        }
    }
}

/// What a line says of things of a kind.
enum Said<'a> {
    /// Nothing.
    Nothing,
    /// It gives a name to one.
    Name(Piece<'a>),
    /// Their names aren't known behind it.
    End,
}

/// The names of such things that a line may use, in order: of drivers and devices those before it,
/// of others those from where what is open began up to its end.
pub(crate) fn names_of<'a>(
    alloc: Global,
    thing: Thing,
    line: &FaultyLine<'a>,
) -> Result<Vec<Given<'a>>, AllocError> {
    let scope = &line.scope;
    match thing {
        Thing::Driver => again(alloc, scope.drivers.as_slice()),
        Thing::Device => again(alloc, scope.devices.as_slice()),
        Thing::Routine | Thing::Queue => {
            names_from(
                alloc,
                thing,
                line.text,
                begin_of(line.text, &scope.driver),
                b"endd",
            )
        }
        Thing::Label => names_from(
            alloc,
            thing,
            line.text,
            begin_of(line.text, &scope.routine),
            b"endr",
        ),
    }
}

/// Where what is open began; the first line where nothing is.
fn begin_of(text: &[u8], opened: &Option<Opened<'_>>) -> Spot {
    match opened {
        Some(opened) => opened.spot,
        None => PlacedLines::of(text).end(),
    }
}

/// The same names once more.
fn again<'a>(alloc: Global, names: &[Given<'a>]) -> Result<Vec<Given<'a>>, AllocError> {
    let mut all = Vec::new(alloc);
    for given in names {
        all.push(Given {
            number: given.number,
            line: given.line.again(),
            name: given.name.again(),
        })?;
    }
    Ok(all)
}

/// The names that lines give to such things, from one on up to one with a word.
fn names_from<'a>(
    alloc: Global,
    thing: Thing,
    text: &'a [u8],
    first: Spot,
    closing: &[u8],
) -> Result<Vec<Given<'a>>, AllocError> {
    let mut names = Vec::new(alloc);
    let mut left = Lines::of(text.get(first.start..).unwrap_or(&[]));
    let mut number = first.number;
    while let Some(raw) = left.next() {
        match thing.said_by(raw, closing) {
            Said::Nothing => {}
            Said::Name(name) => names.push(Given {
                number,
                line: Piece::of(raw),
                name,
            })?,
            Said::End => break,
        }
        number = number.saturating_add(1);
    }
    Ok(names)
}
