//! The operands of a line in its usual form: each stands after one space.

ghost use Rattle.std.specs.Prelude.{◌≡◌, ◌<◌, ◌≤◌, ◌++◌, ◌∷◌, [], IfSome, None, if◌then◌else◌};
ghost use Rattle.model.specs.declared.limits.TheConstants.{CELLS, MAX_TURNS, REGISTERS, SPIN_LOCKS};
ghost use Rattle.model.specs.Sound.{FormFits};
ghost use Rattle.asm_line.specs.Cursor.{called, cell, constant, field, label, paged_cell, queue};
ghost use Rattle.asm_line.specs.Cursor.{register, returned, spin_lock, turns};
ghost use Rattle.asm_line.specs.Usual.{same, with_label, with_queue, with_routine, HasOne, HasTwo};
ghost use Rattle.asm_line.specs.Usual.{Takes, TakesName, TakesStatus};

use model::instr::{Cell, Field, Register, Return, SpinLock, Turns};
use model::status::Status;
use std::marker::Model;
use text::class::is_name;
use text::head::{after_word, number_at_head, short_number, word_at_head};
use text::piece::Piece;

/// The bytes of a line behind its word that are not read yet. What an operand is read from begins
/// with one space, and reading stops where the operand does.
#[derive(Drop)]
pub struct Operands<'a> {
    rest: &'a [u8],
}

impl<'a> Model for Operands<'a> {
    ghost use Rattle.std.specs.Prelude.{List, ℕ};

    ghost Value = { List ℕ };

    ghost view = { λ operands. operands.rest.now };
}

impl<'a> Operands<'a> {
    /// Takes a register.
    #[tactic(auto, using(crate::proofs::Plain::register_taken))]
    pub fn register(&mut self) -> Option<Register>
        ensures read { IfSome result (λ r. Takes register same self.old r self.new) }
        ensures within { IfSome result (λ r. r < REGISTERS) }
    {
        let found = short_number(after_word(self.rest, b" r")?)?;
        let register = Register::of(found.number as u8)?;
        self.rest = found.rest;
        Some(register)
    }

    /// Takes a spin lock of the device.
    #[tactic(auto, using(crate::proofs::Plain::spin_lock_taken))]
    pub fn spin_lock(&mut self) -> Option<SpinLock>
        ensures read { IfSome result (λ l. Takes spin_lock same self.old l self.new) }
        ensures within { IfSome result (λ l. l < SPIN_LOCKS) }
    {
        let found = short_number(after_word(self.rest, b" l")?)?;
        let lock = SpinLock::of(found.number as u8)?;
        self.rest = found.rest;
        Some(lock)
    }

    /// Takes a number cell of the device.
    #[tactic(auto, using(crate::proofs::Plain::cell_taken))]
    pub fn cell(&mut self) -> Option<Cell>
        ensures read { IfSome result (λ c. Takes cell same self.old c self.new) }
        ensures within { IfSome result (λ c. c < CELLS) }
    {
        let found = short_number(after_word(self.rest, b" c")?)?;
        let cell = Cell::of(found.number as u8)?;
        self.rest = found.rest;
        Some(cell)
    }

    /// Takes a paged cell of the device.
    #[tactic(auto, using(crate::proofs::Plain::paged_cell_taken))]
    pub fn paged_cell(&mut self) -> Option<Cell>
        ensures read { IfSome result (λ c. Takes paged_cell same self.old c self.new) }
        ensures within { IfSome result (λ c. c < CELLS) }
    {
        let found = short_number(after_word(self.rest, b" p")?)?;
        let cell = Cell::of(found.number as u8)?;
        self.rest = found.rest;
        Some(cell)
    }

    /// Takes a constant in decimal digits.
    #[tactic(auto, using(crate::proofs::Plain::constant_taken))]
    pub fn constant(&mut self) -> Option<u32>
        ensures read { IfSome result (λ n. Takes constant same self.old n self.new) }
    {
        let found = number_at_head(after_word(self.rest, b" ")?)?;
        if found.number > 0xffff_ffff {
            return None;
        }
        self.rest = found.rest;
        Some(found.number as u32)
    }

    /// Takes a count of turns in decimal digits.
    #[tactic(auto, using(crate::proofs::Plain::turns_taken))]
    pub fn turns(&mut self) -> Option<Turns>
        ensures read { IfSome result (λ n. Takes turns same self.old n self.new) }
        ensures within { IfSome result (λ n. (1 ≤ n) × (n ≤ MAX_TURNS)) }
    {
        let found = number_at_head(after_word(self.rest, b" ")?)?;
        if found.number > 0xffff {
            return None;
        }
        let turns = Turns::of(found.number as u16)?;
        self.rest = found.rest;
        Some(turns)
    }

    /// Takes a name.
    #[tactic(auto, using(crate::proofs::Plain::name_taken))]
    fn name(&mut self) -> Option<Piece<'a>>
        ensures { IfSome result (λ name. TakesName self.old name self.new) }
    {
        let found = word_at_head(after_word(self.rest, b" ")?);
        if !is_name(found.word) {
            return None;
        }
        self.rest = found.rest;
        Some(Piece::of(found.word))
    }

    /// Takes the name of a label.
    #[tactic(auto, using(crate::proofs::Plain::label_taken))]
    pub fn label(&mut self) -> Option<Piece<'a>>
        ensures { IfSome result (λ name. Takes label (with_label name) self.old 0 self.new) }
    {
        self.name()
    }

    /// Takes the name of a queue.
    #[tactic(auto, using(crate::proofs::Plain::queue_taken))]
    pub fn queue(&mut self) -> Option<Piece<'a>>
        ensures { IfSome result (λ name. Takes queue (with_queue name) self.old 0 self.new) }
    {
        self.name()
    }

    /// Takes the name of the routine that a `call` sets.
    #[tactic(auto, using(crate::proofs::Plain::called_taken))]
    pub fn called(&mut self) -> Option<Piece<'a>>
        ensures { IfSome result (λ name. Takes called (with_routine name) self.old None self.new) }
    {
        self.name()
    }

    /// Takes a status.
    pub fn status(&mut self) -> Option<Status>
        ensures { IfSome result (λ s. TakesStatus self.old s self.new) }
    {
        if self.passes(b" SUCCESS") {
            return Some(Status::Success);
        }
        if self.passes(b" PENDING") {
            return Some(Status::Pending);
        }
        if self.passes(b" BUSY") {
            return Some(Status::Busy);
        }
        if self.passes(b" UNSUCCESSFUL") {
            return Some(Status::Unsuccessful);
        }
        if self.passes(b" INVALID_PARAMETER") {
            return Some(Status::InvalidParameter);
        }
        if self.passes(b" INVALID_DEVICE_REQUEST") {
            return Some(Status::InvalidDeviceRequest);
        }
        if self.passes(b" CANCELLED") {
            return Some(Status::Cancelled);
        }
        None
    }

    /// Takes a field of a packet.
    #[tactic(auto, using(crate::proofs::Plain::field_taken))]
    pub fn field(&mut self) -> Option<Field>
        ensures { IfSome result (λ f. Takes field same self.old f self.new) }
    {
        if self.passes(b" MAJOR") {
            return Some(Field::Major);
        }
        if self.passes(b" ARG") {
            return Some(Field::Argument);
        }
        if self.passes(b" INFO") {
            return Some(Field::Info);
        }
        None
    }

    /// Takes what `ret` returns, but for the status of a lower driver.
    #[tactic(auto, using(crate::proofs::Plain::returns_continue, crate::proofs::Plain::returns_stop, crate::proofs::Plain::returns_void, crate::proofs::Plain::returned_status))]
    pub fn returned(&mut self) -> Option<Return>
        ensures read { IfSome result (λ r. Takes returned same self.old r self.new) }
        ensures fits { IfSome result FormFits }
    {
        if self.passes(b" continue") {
            return Some(Return::Continue);
        }
        if self.passes(b" stop") {
            return Some(Return::Stop);
        }
        if self.passes(b" void") {
            return Some(Return::Void);
        }
        Some(Return::WithStatus(self.status()?))
    }

    /// Takes this word, if what is left begins with it, and says whether it did.
    #[inline(always)]
    fn passes(&mut self, word: &[u8]) -> bool
        ensures { self.old ≡ (if result then word.now else []) ++ self.new }
    {
        match after_word(self.rest, word) {
            Some(rest) => {
                self.rest = rest;
                true
            }
            None => false,
        }
    }

    /// Sees that nothing stands behind the operands that were read.
    pub fn end(&self) -> Option<()>
        ensures { IfSome result (λ _. self.now ≡ []) }
    {
        if self.rest.is_empty() { Some(()) } else { None }
    }
}

/// The operands behind this word, if the bytes begin with it.
#[inline(always)]
pub fn behind<'a>(bytes: &'a [u8], word: &[u8]) -> Option<Operands<'a>>
    ensures { IfSome result (λ rest. bytes.now ≡ word.now ++ rest) }
{
    Some(Operands {
        rest: after_word(bytes, word)?,
    })
}

/// The register behind this word, if nothing else stands there.
#[inline(always)]
#[tactic(auto, using(crate::proofs::Plain::has_one))]
pub fn register_behind(bytes: &[u8], word: &[u8]) -> Option<Register>
    ensures read { IfSome result (HasOne register word.now bytes.now) }
    ensures within { IfSome result (λ r. r < REGISTERS) }
{
    let mut at = behind(bytes, word)?;
    let register = at.register()?;
    at.end()?;
    Some(register)
}

/// The two registers behind this word, if nothing else stands there.
#[inline(always)]
#[tactic(auto, using(crate::proofs::Plain::has_two))]
pub fn registers_behind(bytes: &[u8], word: &[u8]) -> Option<(Register, Register)>
    ensures read { IfSome result (λ two.
        HasTwo register register same word.now bytes.now two.0 two.1) }
    ensures within { IfSome result (λ two. (two.0 < REGISTERS) × (two.1 < REGISTERS)) }
{
    let mut at = behind(bytes, word)?;
    let register = at.register()?;
    let other = at.register()?;
    at.end()?;
    Some((register, other))
}

/// The register and the label behind this word, if nothing else stands there.
#[inline(always)]
#[tactic(auto, using(crate::proofs::Plain::has_two))]
pub fn register_label_behind<'a>(bytes: &'a [u8], word: &[u8]) -> Option<(Register, Piece<'a>)>
    ensures read { IfSome result (λ two.
        HasTwo register label (with_label two.1) word.now bytes.now two.0 0) }
    ensures within { IfSome result (λ two. two.0 < REGISTERS) }
{
    let mut at = behind(bytes, word)?;
    let register = at.register()?;
    let label = at.label()?;
    at.end()?;
    Some((register, label))
}

/// The register and the queue behind this word, if nothing else stands there.
#[inline(always)]
#[tactic(auto, using(crate::proofs::Plain::has_two))]
pub fn register_queue_behind<'a>(bytes: &'a [u8], word: &[u8]) -> Option<(Register, Piece<'a>)>
    ensures read { IfSome result (λ two.
        HasTwo register queue (with_queue two.1) word.now bytes.now two.0 0) }
    ensures within { IfSome result (λ two. two.0 < REGISTERS) }
{
    let mut at = behind(bytes, word)?;
    let register = at.register()?;
    let queue = at.queue()?;
    at.end()?;
    Some((register, queue))
}
