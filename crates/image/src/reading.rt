//! Bytes read as an image.

ghost use Rattle.std.specs.Prelude.{◌≡◌, ◌⊎◌, ℕ, List, [], ◌∷◌, false, Ok};
ghost use Rattle.std.specs.Prelude.{IfErr, IfOk, MatchResult};
ghost use Rattle.image.specs.Reading.{all_at, at_most, below, byte_at, cell_in, count_at};
ghost use Rattle.image.specs.Reading.{device_at, driver_at, edition_had, edition_in, field_in};
ghost use Rattle.image.specs.Reading.{in_forms, instruction_at, instruction_in, leaves, letter};
ghost use Rattle.image.specs.Reading.{letters_at, lock_in, none_or_below, one, queue_at};
ghost use Rattle.image.specs.Reading.{register_in, return_in, routine_at, set_in, sort_in};
ghost use Rattle.image.specs.Reading.{stack_in, status_in, turns_in, unused, used_from, using};
ghost use Rattle.image.specs.Reading.{waiting_in, word_at, Gives, IsFaultOf, Read};
ghost use Rattle.image.specs.Spelling.{Spells};
ghost use Rattle.image.specs.declared.fault.ImageFault.TheVariants.{Memory};
ghost use Rattle.model.specs.InstructionForm.{AReturn, SecondAlone, cell_forms, packet_forms};
ghost use Rattle.model.specs.InstructionForm.{queue_forms};
ghost use Rattle.model.specs.declared.instr.Instr.TheVariants.{Dequeue, Ret};
ghost use Rattle.model.specs.Set.{Set};
ghost use Rattle.model.specs.Sound.{IsSound};

use crate::edition::Edition;
use crate::fault::ImageFault;
use crate::word::{NONE, Word};
use driver_set::DriverSet;
use model::instr::{Cell, Field, Instr, Register, Return, SpinLock, Turns};
use model::items::Items;
use model::limits::{
    MAX_DEVICES, MAX_DRIVERS, MAX_INSTRUCTIONS, MAX_QUEUES, MAX_ROUTINES, MAX_STACK,
};
use model::set::{Device, Driver, Queue, Routine, Sort};
use model::status::Status;
use std::alloc::Global;

/// What an instruction may be and may name: the edition of the image, and how many routines and
/// queues its driver has, and positions its routine.
#[derive(Clone, Copy)]
pub struct Scope {
    pub edition: Edition,
    pub routines: u16,
    pub queues: u16,
    pub positions: u16,
}

/// What a routine is read in: the edition of the image, and how many routines and queues its driver
/// has.
#[derive(Clone, Copy)]
pub struct Owner {
    pub edition: Edition,
    pub routines: u16,
    pub queues: u16,
}

/// A part of an image, of which several stand one behind another.
trait Part: Drop {
    /// What it is read in.
    type Within;

    // The one of a number that bytes begin with, or their fault.
    ghost at: { Self.Within → ℕ → List ℕ → Read Self };

    /// The one of a number that the bytes begin with.
    fn read<'a>(
        alloc: Global,
        within: &Self::Within,
        number: u16,
        bytes: &'a [u8],
    ) -> Result<(Self, &'a [u8]), ImageFault>
        ensures { Gives (λ x. (x.0, x.1.now)) result (at within.now number bytes.now) };
}

/// The register of a number.
fn register(number: u8) -> Result<Register, ImageFault>
    ensures { result ≡ register_in number }
{
    Register::of(number).ok_or(ImageFault::OverLimit)
}

/// The cell of a number.
fn cell(number: u8) -> Result<Cell, ImageFault>
    ensures { result ≡ cell_in number }
{
    Cell::of(number).ok_or(ImageFault::OverLimit)
}

/// The spin lock of a number.
fn lock(number: u8) -> Result<SpinLock, ImageFault>
    ensures { result ≡ lock_in number }
{
    SpinLock::of(number).ok_or(ImageFault::OverLimit)
}

/// So many turns of a loop.
fn turns(number: u32) -> Result<Turns, ImageFault>
    ensures { result ≡ turns_in number }
{
    if number > u16::MAX as u32 {
        return Err(ImageFault::OverLimit);
    }
    Turns::of(number as u16).ok_or(ImageFault::OverLimit)
}

/// The number of one of so many positions.
fn label(positions: u16, number: u32) -> Result<u16, ImageFault>
    ensures { result ≡ below positions number }
{
    if number < positions as u32 {
        Ok(number as u16)
    } else {
        Err(ImageFault::OverLimit)
    }
}

/// The number of one of so many things.
fn below(count: u16, number: u8) -> Result<u8, ImageFault>
    ensures { result ≡ below count number }
{
    if (number as u16) < count {
        Ok(number)
    } else {
        Err(ImageFault::OverLimit)
    }
}

/// The number of one of so many things, or none.
fn none_or_below(count: u16, number: u8) -> Result<Option<u8>, ImageFault>
    ensures { result ≡ none_or_below count number }
{
    if number == NONE {
        return Ok(None);
    }
    Ok(Some(below(count, number)?))
}

/// The edition of the last of the first four bytes.
fn edition(digit: u8) -> Result<Edition, ImageFault>
    ensures { result ≡ edition_in digit }
{
    match digit {
        0x31 => Ok(Edition::Former),
        0x32 => Ok(Edition::Current),
        _ => Err(ImageFault::Magic),
    }
}

/// The cancel routine of a device queue, or none; in the first edition a byte that must be zero.
fn waiting(edition: Edition, routines: u16, number: u8) -> Result<Option<u8>, ImageFault>
    ensures { result ≡ waiting_in edition routines number }
{
    match edition {
        Edition::Former if number == 0 => Ok(None),
        Edition::Former => Err(ImageFault::BadOpcode),
        Edition::Current => none_or_below(routines, number),
    }
}

/// The sort of a number.
fn sort(number: u8) -> Result<Sort, ImageFault>
    ensures { result ≡ sort_in number }
{
    match number {
        0 => Ok(Sort::Dispatch),
        1 => Ok(Sort::StartIo),
        2 => Ok(Sort::Dpc),
        3 => Ok(Sort::Cancel),
        4 => Ok(Sort::Propagate),
        5 => Ok(Sort::Hold),
        _ => Err(ImageFault::BadOpcode),
    }
}

/// The status of a number.
fn status(number: u8) -> Result<Status, ImageFault>
    ensures { result ≡ status_in number }
{
    match number {
        0 => Ok(Status::Success),
        1 => Ok(Status::Pending),
        2 => Ok(Status::Busy),
        3 => Ok(Status::Unsuccessful),
        4 => Ok(Status::InvalidParameter),
        5 => Ok(Status::InvalidDeviceRequest),
        6 => Ok(Status::Cancelled),
        _ => Err(ImageFault::OverLimit),
    }
}

/// The field of a number.
fn field(number: u8) -> Result<Field, ImageFault>
    ensures { result ≡ field_in number }
{
    match number {
        0 => Ok(Field::Major),
        1 => Ok(Field::Argument),
        2 => Ok(Field::Info),
        _ => Err(ImageFault::OverLimit),
    }
}

impl Word {
    /// Whether all that is unused is zero, where the first `used` operands of one byte are used,
    /// and the last four bytes if it is `wide`.
    fn leaves(&self, used: u8, wide: bool) -> bool
        ensures { result ≡ leaves used wide self.now }
    {
        (0 < used || self.first == 0)
            && (1 < used || self.second == 0)
            && (2 < used || self.third == 0)
            && (wide || self.last == 0)
    }

    /// What `ret` returns, by its form.
    fn returned(&self) -> Result<Instr, ImageFault>
        ensures { result ≡ using (used_from (AReturn ∷ []) 0 self.now) false self.now
            (one (λ form. Ret form) (return_in self.now.first self.now.second)) }
    {
        let used = match self.first {
            0 | 1 => 2,
            2 | 3 | 4 => 1,
            _ => return Err(ImageFault::BadOpcode),
        };
        if !self.leaves(used, false) {
            return Err(ImageFault::BadOpcode);
        }
        Ok(Instr::Ret(match self.first {
            0 => Return::WithStatus(status(self.second)?),
            1 => Return::Lower(register(self.second)?),
            2 => Return::Continue,
            3 => Return::Stop,
            _ => Return::Void,
        }))
    }
}

/// The instruction that a word spells.
fn instruction(scope: &Scope, word: &Word) -> Result<Instr, ImageFault>
    ensures { result ≡ instruction_in scope.now word.now }
{
    match word.number {
        1 if word.leaves(1, true) => Ok(Instr::Const(register(word.first)?, word.last)),
        2 if word.leaves(2, false) => Ok(Instr::Move(
            register(word.first)?,
            register(word.second)?,
        )),
        3 if word.leaves(1, false) => Ok(Instr::Clear(register(word.first)?)),
        4 if word.leaves(2, false) => Ok(Instr::Add(register(word.first)?, register(word.second)?)),
        5 if word.leaves(2, false) => Ok(Instr::Subtract(
            register(word.first)?,
            register(word.second)?,
        )),
        6 if word.leaves(1, true) => Ok(Instr::JumpIfZero(
            register(word.first)?,
            label(scope.positions, word.last)?,
        )),
        7 if word.leaves(2, true) => Ok(Instr::JumpIfLess(
            register(word.first)?,
            register(word.second)?,
            label(scope.positions, word.last)?,
        )),
        8 if word.leaves(0, true) => Ok(Instr::Jump(label(scope.positions, word.last)?)),
        9 if word.leaves(0, true) => Ok(Instr::Loop(turns(word.last)?)),
        1..=9 => Err(ImageFault::BadOpcode),
        _ => on_cells(scope, word),
    }
}

/// What is done with the device's cells and a packet's fields, its locks and queues, or packets.
fn on_cells(scope: &Scope, word: &Word) -> Result<Instr, ImageFault>
    ensures { result ≡ in_forms cell_forms scope.now word.now }
{
    match word.number {
        10 if word.leaves(0, false) => Ok(Instr::End),
        11 if word.leaves(2, false) => Ok(Instr::Load(register(word.first)?, cell(word.second)?)),
        12 if word.leaves(2, false) => Ok(Instr::Store(cell(word.first)?, register(word.second)?)),
        13 if word.leaves(2, false) => Ok(Instr::LoadPaged(
            register(word.first)?,
            cell(word.second)?,
        )),
        14 if word.leaves(2, false) => Ok(Instr::StorePaged(
            cell(word.first)?,
            register(word.second)?,
        )),
        15 if word.leaves(3, false) => Ok(Instr::Get(
            register(word.first)?,
            register(word.second)?,
            field(word.third)?,
        )),
        16 if word.leaves(2, false) => Ok(Instr::Put(
            register(word.first)?,
            register(word.second)?,
        )),
        17 if word.leaves(1, false) => Ok(Instr::Mark(register(word.first)?)),
        10..=17 => Err(ImageFault::BadOpcode),
        _ => on_queues(scope, word),
    }
}

/// What is done with the device's locks and queues, or with packets.
fn on_queues(scope: &Scope, word: &Word) -> Result<Instr, ImageFault>
    ensures { result ≡ in_forms queue_forms scope.now word.now }
{
    match word.number {
        18 if word.leaves(1, false) => Ok(Instr::Acquire(lock(word.first)?)),
        19 if word.leaves(1, false) => Ok(Instr::Release(lock(word.first)?)),
        20 if word.leaves(0, false) => Ok(Instr::AcquireCancel),
        21 if word.leaves(0, false) => Ok(Instr::ReleaseCancel),
        22 if word.leaves(2, false) => Ok(Instr::Insert(
            register(word.first)?,
            below(scope.queues, word.second)?,
        )),
        23 if word.leaves(2, true) => Ok(Instr::Remove(
            register(word.first)?,
            below(scope.queues, word.second)?,
            label(scope.positions, word.last)?,
        )),
        24 if word.leaves(2, false) => Ok(Instr::Unlink(
            register(word.first)?,
            below(scope.queues, word.second)?,
        )),
        25 if word.leaves(2, false) => Ok(Instr::Arm(
            register(word.first)?,
            below(scope.queues, word.second)?,
        )),
        26 if word.leaves(1, true) => Ok(Instr::Disarm(
            register(word.first)?,
            label(scope.positions, word.last)?,
        )),
        18..=26 => Err(ImageFault::BadOpcode),
        _ => on_packets(scope, word),
    }
}

/// `dequeue`, which the first edition doesn't have.
fn dequeue(edition: Edition, word: &Word) -> Result<Instr, ImageFault>
    ensures { result ≡ edition_had edition SecondAlone
        (using 1 false word.now (one Dequeue (register_in word.now.first))) }
{
    match edition {
        Edition::Current if word.leaves(1, false) => Ok(Instr::Dequeue(register(word.first)?)),
        _ => Err(ImageFault::BadOpcode),
    }
}

/// What is done with packets.
fn on_packets(scope: &Scope, word: &Word) -> Result<Instr, ImageFault>
    ensures { result ≡ in_forms packet_forms scope.now word.now }
{
    match word.number {
        27 if word.leaves(1, true) => Ok(Instr::IfCancel(
            register(word.first)?,
            label(scope.positions, word.last)?,
        )),
        28 if word.leaves(1, false) => Ok(Instr::Start(register(word.first)?)),
        29 if word.leaves(1, true) => Ok(Instr::Take(
            register(word.first)?,
            label(scope.positions, word.last)?,
        )),
        30 if word.leaves(1, false) => Ok(Instr::Begin(register(word.first)?)),
        31 if word.leaves(0, false) => Ok(Instr::Next),
        32 if word.leaves(1, false) => Ok(Instr::Pass(register(word.first)?)),
        33 if word.leaves(2, false) => Ok(Instr::Call(
            register(word.first)?,
            none_or_below(scope.routines, word.second)?,
        )),
        34 if word.leaves(2, false) => Ok(Instr::Complete(
            register(word.first)?,
            status(word.second)?,
        )),
        35 if word.leaves(1, true) => Ok(Instr::IfPending(
            register(word.first)?,
            label(scope.positions, word.last)?,
        )),
        36 => word.returned(),
        37 => dequeue(scope.edition, word),
        _ => Err(ImageFault::BadOpcode),
    }
}

/// A byte, and what stands behind it. What is read below is answered likewise.
fn byte(bytes: &[u8]) -> Result<(u8, &[u8]), ImageFault>
    ensures { Gives (λ x. (x.0, x.1.now)) result (byte_at (λ n. Ok n) bytes.now) }
{
    match bytes {
        [byte, rest @ ..] => Ok((*byte, rest)),
        [] => Err(ImageFault::Truncated),
    }
}

/// A count of at most so many.
fn count_of(most: usize, bytes: &[u8]) -> Result<(u16, &[u8]), ImageFault>
    ensures { Gives (λ x. (x.0, x.1.now)) result (byte_at (at_most most) bytes.now) }
{
    let (count, rest) = byte(bytes)?;
    if count as usize <= most {
        Ok((count as u16, rest))
    } else {
        Err(ImageFault::OverLimit)
    }
}

/// The number of one of so many things.
fn below_of(count: u16, bytes: &[u8]) -> Result<(u8, &[u8]), ImageFault>
    ensures { Gives (λ x. (x.0, x.1.now)) result (byte_at (below count) bytes.now) }
{
    let (number, rest) = byte(bytes)?;
    Ok((below(count, number)?, rest))
}

/// The number of one of so many things, or none.
fn name_of(count: u16, bytes: &[u8]) -> Result<(Option<u8>, &[u8]), ImageFault>
    ensures { Gives (λ x. (x.0, x.1.now)) result (byte_at (none_or_below count) bytes.now) }
{
    let (number, rest) = byte(bytes)?;
    Ok((none_or_below(count, number)?, rest))
}

/// A sort of routine.
fn sort_of(bytes: &[u8]) -> Result<(Sort, &[u8]), ImageFault>
    ensures { Gives (λ x. (x.0, x.1.now)) result (byte_at sort_in bytes.now) }
{
    let (number, rest) = byte(bytes)?;
    Ok((sort(number)?, rest))
}

/// A byte that must be zero.
fn zero_of(bytes: &[u8]) -> Result<&[u8], ImageFault>
    ensures { Gives (λ rest. (0, rest.now)) result (byte_at unused bytes.now) }
{
    match byte(bytes)? {
        (0, rest) => Ok(rest),
        _ => Err(ImageFault::BadOpcode),
    }
}

/// The cancel routine of the device queue of a driver with so many routines, or none.
fn waiting_of(
    edition: Edition,
    routines: u16,
    bytes: &[u8],
) -> Result<(Option<u8>, &[u8]), ImageFault>
    ensures { Gives (λ x. (x.0, x.1.now)) result
        (byte_at (waiting_in edition routines) bytes.now) }
{
    let (number, rest) = byte(bytes)?;
    Ok((waiting(edition, routines, number)?, rest))
}

/// The edition.
fn edition_of(bytes: &[u8]) -> Result<(Edition, &[u8]), ImageFault>
    ensures { Gives (λ x. (x.0, x.1.now)) result (byte_at edition_in bytes.now) }
{
    let (digit, rest) = byte(bytes)?;
    Ok((edition(digit)?, rest))
}

/// A letter of the first four bytes.
fn letter_of(wanted: u8, bytes: &[u8]) -> Result<&[u8], ImageFault>
    ensures { Gives (λ rest. (wanted, rest.now)) result (byte_at (letter wanted) bytes.now) }
{
    let (letter, rest) = byte(bytes)?;
    if letter == wanted {
        Ok(rest)
    } else {
        Err(ImageFault::Magic)
    }
}

/// A stack size.
fn stack_of(bytes: &[u8]) -> Result<(u8, &[u8]), ImageFault>
    ensures { Gives (λ x. (x.0, x.1.now)) result (byte_at stack_in bytes.now) }
{
    let (size, rest) = byte(bytes)?;
    if 1 <= size && size as usize <= MAX_STACK {
        Ok((size, rest))
    } else {
        Err(ImageFault::OverLimit)
    }
}

/// The count of a routine's instructions.
fn code_count(bytes: &[u8]) -> Result<(u16, &[u8]), ImageFault>
    ensures { Gives (λ x. (x.0, x.1.now)) result (count_at bytes.now) }
{
    if bytes.len() < 2 {
        return Err(ImageFault::Truncated);
    }
    let (front, rest) = bytes.split_at(2);
    let count = u16::from_le_bytes([front[0], front[1]]);
    if count as usize <= MAX_INSTRUCTIONS {
        Ok((count, rest))
    } else {
        Err(ImageFault::OverLimit)
    }
}

/// A word.
fn word_of(bytes: &[u8]) -> Result<(Word, &[u8]), ImageFault>
    ensures { Gives (λ x. (x.0, x.1.now)) result (word_at bytes.now) }
{
    if bytes.len() < 8 {
        return Err(ImageFault::Truncated);
    }
    let (front, rest) = bytes.split_at(8);
    let word = Word {
        number: front[0],
        first: front[1],
        second: front[2],
        third: front[3],
        last: u32::from_le_bytes([front[4], front[5], front[6], front[7]]),
    };
    Ok((word, rest))
}

/// The first four bytes, which tell the edition.
#[tactic(auto, unfolding(crate::specs::Reading::letters_at))]
fn letters_of(bytes: &[u8]) -> Result<(Edition, &[u8]), ImageFault>
    ensures { Gives (λ x. (x.0, x.1.now)) result (letters_at bytes.now) }
{
    let rest = letter_of(0x44, bytes)?;
    let rest = letter_of(0x56, rest)?;
    let rest = letter_of(0x42, rest)?;
    edition_of(rest)
}

/// So many parts of one kind, one behind another.
fn all_of<'a, P: Part>(
    alloc: Global,
    within: &P::Within,
    count: u16,
    bytes: &'a [u8],
) -> Result<(Vec<P>, &'a [u8]), ImageFault>
    ensures { Gives (λ x. (x.0.items, x.1.now)) result
        (all_at (P.at within.now) 0 count bytes.now) }
{
    let mut all = Vec::new(alloc);
    let mut rest = bytes;
    for number in 0..count {
        let (one, after) = match P::read(alloc, within, number, rest) {
            Ok(found) => found,
            Err(fault) => return Err(fault),
        };
        all.push(one)?;
        rest = after;
    }
    Ok((all, rest))
}

/// In the scope of its routine.
impl Part for Instr {
    type Within = Scope;

    ghost at = { λ scope _. instruction_at scope };

    fn read<'a>(
        _alloc: Global,
        scope: &Scope,
        _number: u16,
        bytes: &'a [u8],
    ) -> Result<(Instr, &'a [u8]), ImageFault> {
        let (word, rest) = word_of(bytes)?;
        Ok((instruction(scope, &word)?, rest))
    }
}

/// In a driver with so many routines.
impl Part for Queue {
    type Within = u16;

    ghost at = { λ routines _. queue_at routines };

    #[tactic(auto, unfolding(crate::specs::Reading::queue_at))]
    fn read<'a>(
        _alloc: Global,
        routines: &u16,
        _number: u16,
        bytes: &'a [u8],
    ) -> Result<(Queue, &'a [u8]), ImageFault> {
        let (guard, rest) = byte(bytes)?;
        let guard = lock(guard)?;
        let (cancel, rest) = name_of(*routines, rest)?;
        Ok((Queue { guard, cancel }, rest))
    }
}

/// In its driver.
impl Part for Routine {
    type Within = Owner;

    ghost at = { λ owner _. routine_at owner.edition owner.routines owner.queues };

    #[tactic(auto, unfolding(crate::specs::Reading::routine_at))]
    fn read<'a>(
        alloc: Global,
        owner: &Owner,
        _number: u16,
        bytes: &'a [u8],
    ) -> Result<(Routine, &'a [u8]), ImageFault> {
        let (sort, rest) = sort_of(bytes)?;
        let rest = zero_of(rest)?;
        let (positions, rest) = code_count(rest)?;
        let scope = Scope {
            edition: owner.edition,
            routines: owner.routines,
            queues: owner.queues,
            positions,
        };
        let (code, rest) = all_of(alloc, &scope, positions, rest)?;
        Ok((
            Routine {
                sort,
                code: Items::of(code),
            },
            rest,
        ))
    }
}

/// In an image of an edition.
impl Part for Driver {
    type Within = Edition;

    ghost at = { λ edition _. driver_at edition };

    #[tactic(auto, unfolding(crate::specs::Reading::driver_at))]
    fn read<'a>(
        alloc: Global,
        edition: &Edition,
        _number: u16,
        bytes: &'a [u8],
    ) -> Result<(Driver, &'a [u8]), ImageFault> {
        let (routine_count, rest) = count_of(MAX_ROUTINES, bytes)?;
        let (queue_count, rest) = count_of(MAX_QUEUES, rest)?;
        let (read, rest) = name_of(routine_count, rest)?;
        let (write, rest) = name_of(routine_count, rest)?;
        let (control, rest) = name_of(routine_count, rest)?;
        let (startio, rest) = name_of(routine_count, rest)?;
        let (dpc, rest) = name_of(routine_count, rest)?;
        let (startio_cancel, rest) = waiting_of(*edition, routine_count, rest)?;
        let owner = Owner {
            edition: *edition,
            routines: routine_count,
            queues: queue_count,
        };
        let (queues, rest) = all_of(alloc, &routine_count, queue_count, rest)?;
        let (routines, rest) = all_of(alloc, &owner, routine_count, rest)?;
        let driver = Driver {
            routines: Items::of(routines),
            queues: Items::of(queues),
            read,
            write,
            control,
            startio,
            startio_cancel,
            dpc,
        };
        Ok((driver, rest))
    }
}

/// In a set with so many drivers.
impl Part for Device {
    type Within = u16;

    ghost at = { device_at };

    #[tactic(auto, unfolding(crate::specs::Reading::device_at))]
    fn read<'a>(
        _alloc: Global,
        drivers: &u16,
        number: u16,
        bytes: &'a [u8],
    ) -> Result<(Device, &'a [u8]), ImageFault> {
        let (driver, rest) = below_of(*drivers, bytes)?;
        let (stack, rest) = stack_of(rest)?;
        let (lower, rest) = name_of(number, rest)?;
        let rest = zero_of(rest)?;
        Ok((
            Device {
                driver,
                stack,
                lower,
            },
            rest,
        ))
    }
}

/// The drivers and devices that the fields name, which are all of the bytes.
#[tactic(auto, unfolding(crate::specs::Reading::set_at))]
fn fields_of(alloc: Global, bytes: &[u8]) -> Result<(Vec<Driver>, Vec<Device>), ImageFault>
    ensures { Gives (λ x. record { drivers = x.0.items; devices = x.1.items }) result
        (set_in bytes.now) }
{
    let (edition, rest) = letters_of(bytes)?;
    let (driver_count, rest) = count_of(MAX_DRIVERS, rest)?;
    let (device_count, rest) = count_of(MAX_DEVICES, rest)?;
    let rest = zero_of(rest)?;
    let rest = zero_of(rest)?;
    let (drivers, rest) = all_of(alloc, &edition, driver_count, rest)?;
    let (devices, rest) = all_of(alloc, &driver_count, device_count, rest)?;
    if !rest.is_empty() {
        return Err(ImageFault::Trailing);
    }
    Ok((drivers, devices))
}

/// The set that the bytes spell, or their first fault.
fn read(alloc: Global, bytes: &[u8]) -> Result<DriverSet, ImageFault>
    ensures { MatchResult result (λ set. set_in bytes.now ≡ Ok set)
        (λ fault. (fault ≡ Memory) ⊎ IsFaultOf bytes.now fault) }
{
    let (drivers, devices) = fields_of(alloc, bytes)?;
    match DriverSet::of(drivers, devices) {
        Ok(set) => Ok(set),
        Err(_) => Err(ImageFault::OverLimit),
    }
}

/// The driver set whose image the bytes are, of either edition.
///
/// # Errors
///
/// The first fault of bytes that are no image. Any bytes may be answered by `Memory`, which is told
/// where a growth was refused.
pub fn decode(alloc: Global, bytes: &[u8]) -> Result<DriverSet, ImageFault>
    ensures spelled { IfOk result (λ set. Spells bytes.now set) }
    ensures read { (set : Set) → IsSound set → Spells bytes.now set
        → MatchResult result (λ found. found ≡ set) (λ fault. fault ≡ Memory) }
    ensures first { IfErr result (λ fault. (fault ≡ Memory) ⊎ IsFaultOf bytes.now fault) }
{
    read(alloc, bytes)
}
