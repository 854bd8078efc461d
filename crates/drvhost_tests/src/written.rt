//! Bytes as a report has them.

ghost use Rattle.std.specs.Prelude.{◌≡◌, ◌++◌, false, map, option_map, string_bytes};
ghost use Rattle.text.specs.Cut.{lines_of};
ghost use Rattle.drvhost_tests.specs.Written.{is_plain, lines_written, mark_for, mark_in};
ghost use Rattle.drvhost_tests.specs.Written.{marks_of, written, written_byte};

use percent_encoding::percent_encode_byte;
use text::cut::Lines;
use words::Words;

/// Where bytes stand in a report.
#[derive(Clone, Copy)]
pub(crate) enum Place {
    /// In the description of a test point of TAP.
    Description,
    /// In a comment of TAP.
    Comment,
    /// In an attribute or a text of XML.
    Xml,
}

/// What is written in place of a byte that means something where it stands.
#[derive(Clone, Copy)]
pub(crate) struct Mark {
    pub(crate) byte: u8,
    pub(crate) text: &'static str,
}

/// In a description `#` begins a directive, and `\` takes its meaning from what stands behind it.
const IN_DESCRIPTION: [Mark; 2] = [
    Mark {
        byte: b'#',
        text: "\\#",
    },
    Mark {
        byte: b'\\',
        text: "\\\\",
    },
];

/// In XML markup is written as its entities.
const IN_XML: [Mark; 4] = [
    Mark {
        byte: b'"',
        text: "&quot;",
    },
    Mark {
        byte: b'&',
        text: "&amp;",
    },
    Mark {
        byte: b'<',
        text: "&lt;",
    },
    Mark {
        byte: b'>',
        text: "&gt;",
    },
];

/// The table of a place.
fn marks_of(place: Place) -> &'static [Mark]
    ensures { map mark_for result.now ≡ marks_of place }
{
    match place {
        Place::Description => &IN_DESCRIPTION,
        Place::Comment => &[],
        Place::Xml => &IN_XML,
    }
}

/// What a table has for a byte.
fn mark_in(marks: &[Mark], byte: u8) -> Option<&'static str>
    ensures { option_map (λ mark. mark.now) result ≡ mark_in (map mark_for marks.now) byte }
{
    for mark in marks {
        if byte == mark.byte {
            return Some(mark.text);
        }
    }
    None
}

/// Whether a byte without a mark stands for itself.
fn is_plain(byte: u8) -> bool
    ensures { result ≡ is_plain byte }
{
    matches!(byte, b' '..=b'~') && byte != b'%'
}

/// Adds bytes as a place has them.
pub(crate) fn add_written(words: &mut Words, place: Place, bytes: &[u8])
    ensures { words.new.lacks ≡ false → (words.old.lacks ≡ false)
        × (string_bytes words.new.text
        ≡ string_bytes words.old.text ++ written place bytes.now) }
{
    for byte in bytes {
        add_byte(words, place, *byte);
    }
}

/// Adds one of them.
fn add_byte(words: &mut Words, place: Place, byte: u8)
    ensures { words.new.lacks ≡ false → (words.old.lacks ≡ false)
        × (string_bytes words.new.text
        ≡ string_bytes words.old.text ++ written_byte place byte) }
{
    match mark_in(marks_of(place), byte) {
        Some(mark) => words.add(mark),
        None if is_plain(byte) => {
            let done = words.text.push(byte as char);
            words.note(done)
        }
        None => words.add(percent_encode_byte(byte)),
    }
}

/// Adds the lines of a text as a place has them, each behind these words.
pub(crate) fn add_lines(words: &mut Words, place: Place, before: &str, text: &[u8])
    ensures { words.new.lacks ≡ false → (words.old.lacks ≡ false)
        × (string_bytes words.new.text
        ≡ string_bytes words.old.text ++ lines_written place before.now (lines_of text.now)) }
{
    let mut left = Lines::of(text);
    while let Some(line) = left.next() {
        words.add(before);
        add_written(words, place, line);
        words.add("\n");
    }
}
