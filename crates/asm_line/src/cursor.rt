//! The operands of a line, read one after another.

ghost use Rattle.std.specs.Prelude.{◌≡◌, ◌≤◌, ◌<◌, IfSome, option_map};
ghost use Rattle.model.specs.declared.limits.TheConstants.{CELLS, MAX_TURNS, REGISTERS, SPIN_LOCKS};
ghost use Rattle.asm_line.specs.Cursor.{beginning, called, capped, cell, cell_of, constant};
ghost use Rattle.asm_line.specs.Cursor.{constant_of, field, label, lock_of, major, name, name_of};
ghost use Rattle.asm_line.specs.Cursor.{number, numbered, optional_name, paged_cell, queue, ranged};
ghost use Rattle.asm_line.specs.Cursor.{register, register_of, returned, returned_by, sort};
ghost use Rattle.asm_line.specs.Cursor.{spin_lock, status, token, turns, turns_of, Reads};

use crate::line::UsedNames;
use crate::words::{field_of, sort_of, status_of};
use model::instr::{Cell, Field, Register, Return, SpinLock, Turns};
use model::set::Sort;
use model::status::{Major, Status};
use text::class::{is, is_name};
use text::major::major_of;
use text::number::{Numeral, number, numbered};
use text::piece::Piece;
use text::token::Tokens;

/// A place in a line: the tokens behind it, and what was noted of those before it. Each call reads
/// the next operand, or answers `None` where it is of another form.
#[derive(Drop)]
pub struct Cursor<'a> {
    pub tokens: Tokens<'a>,
    /// No number was out of the range of its operand. Another number stands in for one that is,
    /// since an operand behind it may be of no form, which is the lesser fault.
    pub in_range: bool,
    pub used: UsedNames<'a>,
}

impl<'a> Cursor<'a> {
    /// Before the first operand.
    pub fn of(tokens: Tokens<'a>) -> Cursor<'a>
        ensures { result ≡ beginning tokens.entry }
    {
        Cursor {
            tokens,
            in_range: true,
            used: UsedNames {
                label: None,
                routine: None,
                queue: None,
            },
        }
    }

    /// The next token.
    fn token(&mut self) -> Option<&'a [u8]>
        ensures { Reads (option_map (λ token. token.now) result) self.new (token self.old) }
    {
        self.tokens.next()
    }

    /// A major function.
    pub fn major(&mut self) -> Option<Major>
        ensures { Reads result self.new (major self.old) }
    {
        major_of(self.token()?)
    }

    /// A field of a packet.
    pub fn field(&mut self) -> Option<Field>
        ensures { Reads result self.new (field self.old) }
    {
        field_of(self.token()?)
    }

    /// A sort of routine.
    pub fn sort(&mut self) -> Option<Sort>
        ensures { Reads result self.new (sort self.old) }
    {
        sort_of(self.token()?)
    }

    /// A status.
    pub fn status(&mut self) -> Option<Status>
        ensures { Reads result self.new (status self.old) }
    {
        status_of(self.token()?)
    }

    /// A name.
    pub fn name(&mut self) -> Option<Piece<'a>>
        ensures { Reads result self.new (name self.old) }
    {
        name_of(self.token()?)
    }

    /// A name, or nothing where no token is left.
    pub fn optional_name(&mut self) -> Option<Option<Piece<'a>>>
        ensures { Reads result self.new (optional_name self.old) }
    {
        match self.tokens.next() {
            Some(token) => Some(Some(name_of(token)?)),
            None => Some(None),
        }
    }

    /// A label, by its name.
    pub fn label(&mut self) -> Option<u16>
        ensures { Reads result self.new (label self.old) }
    {
        self.used.label = Some(self.name()?);
        Some(0)
    }

    /// The routine that a `call` sets, by its name, if there is one.
    pub fn called(&mut self) -> Option<Option<u8>>
        ensures { Reads result self.new (called self.old) }
    {
        self.used.routine = self.optional_name()?;
        Some(None)
    }

    /// A queue, by its name.
    pub fn queue(&mut self) -> Option<u8>
        ensures { Reads result self.new (queue self.old) }
    {
        self.used.queue = Some(self.name()?);
        Some(0)
    }

    /// A number: decimal, or hexadecimal after `0x`.
    pub fn number(&mut self) -> Option<u64>
        ensures { Reads result self.new (number self.old) }
    {
        capped(number(self.token()?))
    }

    /// A letter and a decimal number.
    fn numbered(&mut self, letter: u8) -> Option<u64>
        ensures { Reads result self.new (numbered letter self.old) }
    {
        capped(numbered(letter, self.token()?))
    }

    /// A register.
    pub fn register(&mut self) -> Option<Register>
        ensures read { Reads result self.new (register self.old) }
        ensures within { IfSome result (λ register. register < REGISTERS) }
    {
        match register_of(self.numbered(b'r')?) {
            Some(register) => Some(register),
            None => {
                self.in_range = false;
                Some(Register::FIRST)
            }
        }
    }

    /// A spin lock of the device.
    pub fn spin_lock(&mut self) -> Option<SpinLock>
        ensures read { Reads result self.new (spin_lock self.old) }
        ensures within { IfSome result (λ lock. lock < SPIN_LOCKS) }
    {
        match lock_of(self.numbered(b'l')?) {
            Some(lock) => Some(lock),
            None => {
                self.in_range = false;
                SpinLock::of(0)
            }
        }
    }

    /// A number cell of the device.
    pub fn cell(&mut self) -> Option<Cell>
        ensures read { Reads result self.new (cell self.old) }
        ensures within { IfSome result (λ cell. cell < CELLS) }
    {
        let number = self.numbered(b'c')?;
        self.cell_or_first(number)
    }

    /// A paged cell of the device.
    pub fn paged_cell(&mut self) -> Option<Cell>
        ensures read { Reads result self.new (paged_cell self.old) }
        ensures within { IfSome result (λ cell. cell < CELLS) }
    {
        let number = self.numbered(b'p')?;
        self.cell_or_first(number)
    }

    /// The cell of a number; the first one stands in for one out of range.
    fn cell_or_first(&mut self, number: u64) -> Option<Cell>
        ensures read { Reads result self.new (ranged 0 (cell_of number) self.old) }
        ensures within { IfSome result (λ cell. cell < CELLS) }
    {
        match cell_of(number) {
            Some(cell) => Some(cell),
            None => {
                self.in_range = false;
                Cell::of(0)
            }
        }
    }

    /// A constant.
    pub fn constant(&mut self) -> Option<u32>
        ensures { Reads result self.new (constant self.old) }
    {
        match constant_of(self.number()?) {
            Some(constant) => Some(constant),
            None => {
                self.in_range = false;
                Some(0)
            }
        }
    }

    /// A count of turns.
    pub fn turns(&mut self) -> Option<Turns>
        ensures read { Reads result self.new (turns self.old) }
        ensures within { IfSome result (λ turns. (1 ≤ turns) × (turns ≤ MAX_TURNS)) }
    {
        match turns_of(self.number()?) {
            Some(turns) => Some(turns),
            None => {
                self.in_range = false;
                Turns::of(1)
            }
        }
    }

    /// What `ret` returns: a lower driver's status, the word to continue or to stop, nothing, or a
    /// status of its own.
    pub fn returned(&mut self) -> Option<Return>
        ensures { Reads result self.new (returned self.old) }
    {
        let word = self.token()?;
        if is(word, b"lower") {
            Some(Return::Lower(self.register()?))
        } else if is(word, b"continue") {
            Some(Return::Continue)
        } else if is(word, b"stop") {
            Some(Return::Stop)
        } else if is(word, b"void") {
            Some(Return::Void)
        } else {
            Some(Return::WithStatus(status_of(word)?))
        }
    }
}

/// A name.
fn name_of<'a>(token: &'a [u8]) -> Option<Piece<'a>>
    ensures { result ≡ name_of token.now }
{
    if is_name(token) {
        Some(Piece::of(token))
    } else {
        None
    }
}

/// A number of a token; one that has more than 64 bits is as far out of range as the largest that
/// has not.
fn capped(number: Numeral) -> Option<u64>
    ensures { result ≡ capped number }
{
    match number {
        Numeral::Other => None,
        Numeral::TooLarge => Some(u64::MAX),
        Numeral::Number(number) => Some(number),
    }
}

/// The register of a number.
fn register_of(number: u64) -> Option<Register>
    ensures { result ≡ register_of number }
{
    Register::of(u8::try_from(number).ok()?)
}

/// The spin lock of a number.
fn lock_of(number: u64) -> Option<SpinLock>
    ensures { result ≡ lock_of number }
{
    SpinLock::of(u8::try_from(number).ok()?)
}

/// The cell of a number.
fn cell_of(number: u64) -> Option<Cell>
    ensures { result ≡ cell_of number }
{
    Cell::of(u8::try_from(number).ok()?)
}

/// The number as a constant, which has 32 bits.
fn constant_of(number: u64) -> Option<u32>
    ensures { result ≡ constant_of number }
{
    u32::try_from(number).ok()
}

/// The count of turns, if a loop may have it.
fn turns_of(number: u64) -> Option<Turns>
    ensures { result ≡ turns_of number }
{
    Turns::of(u16::try_from(number).ok()?)
}
