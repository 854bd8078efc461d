//! How an edit shifts the labels of a routine.

ghost use Rattle.std.specs.Prelude.{◌≡◌};
ghost use Rattle.mend_changes.specs.Edited.{closed, opened};

use crate::edit::Landing;

/// How the positions of a routine shift.
#[derive(Clone, Copy)]
pub enum Shift {
    /// An instruction is put before that at a position.
    Opened(u16, Landing),
    /// The one at a position is taken out.
    Closed(u16),
    /// The one at the first position is put before that at the second.
    Moved(u16, u16, Landing),
}

impl Shift {
    ghost use Rattle.mend_changes.specs.Edited.{shifted};

    /// Where a label is behind it.
    pub fn of(self, label: u16) -> u16
        ensures { result ≡ shifted self label }
    {
        match self {
            Shift::Opened(at, landing) => opened(at, landing, label),
            Shift::Closed(at) => closed(at, label),
            Shift::Moved(from, to, landing) => {
                opened(closed(from, to), landing, closed(from, label))
            }
        }
    }
}

/// A label behind an insertion.
fn opened(at: u16, landing: Landing, label: u16) -> u16
    ensures { result ≡ opened at landing label }
{
    let stays = match landing {
        Landing::Kept => label < at,
        Landing::Taken => label <= at,
    };
    if stays || label == u16::MAX {
        label
    } else {
        label + 1
    }
}

/// A label behind a deletion.
fn closed(at: u16, label: u16) -> u16
    ensures { result ≡ closed at label }
{
    if at < label { label - 1 } else { label }
}
