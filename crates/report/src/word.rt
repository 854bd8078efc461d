//! Replies of one word.

ghost use Rattle.std.specs.Prelude.{◌≡◌, ◌↔◌, IsTrue, length, take};
ghost use Rattle.report.specs.Word.{word_of, word_text};

use model::event::Reply;

/// Bytes of what follows the number in a line, at most.
pub(crate) const LONGEST_TEXT: usize = 12;

/// A reply of one word.
#[derive(Clone, Copy)]
pub enum Word {
    Stepped,
    Finished,
    Waited,
    Idle,
    Refused,
}

impl Word {
    /// The word that a reply is, where it is one.
    #[inline]
    pub fn of(reply: &Reply) -> Option<Word>
        ensures { result ≡ word_of reply.now }
    {
        match *reply {
            Reply::Stepped => Some(Word::Stepped),
            Reply::Finished => Some(Word::Finished),
            Reply::Waited => Some(Word::Waited),
            Reply::Idle => Some(Word::Idle),
            Reply::Refused => Some(Word::Refused),
            Reply::Started(_) | Reply::Topped { .. } | Reply::Bug(_) | Reply::Wrong(_) => None,
        }
    }

    /// Whether it is this word.
    #[inline]
    pub fn is(self, other: Word) -> bool
        ensures { IsTrue result ↔ (self ≡ other) }
    {
        matches!(
            (self, other),
            (Word::Stepped, Word::Stepped)
                | (Word::Finished, Word::Finished)
                | (Word::Waited, Word::Waited)
                | (Word::Idle, Word::Idle)
                | (Word::Refused, Word::Refused)
        )
    }

    /// What follows the number in the line of such a reply, and room.
    #[inline]
    pub(crate) fn text(self) -> [u8; LONGEST_TEXT]
        ensures { take (length (word_text self)) result ≡ word_text self }
    {
        match self {
            Word::Stepped => *b" stepped\n   ",
            Word::Finished => *b" finished\n  ",
            Word::Waited => *b" waited\n    ",
            Word::Idle => *b" idle\n      ",
            Word::Refused => *b" refused\n   ",
        }
    }

    /// How many bytes that has.
    #[inline]
    pub(crate) fn length(self) -> usize
        ensures { result ≡ length (word_text self) }
    {
        match self {
            Word::Idle => 6,
            Word::Waited => 8,
            Word::Stepped | Word::Refused => 9,
            Word::Finished => 10,
        }
    }
}
