//! What a register has: a word, which the instruction that reads it takes for a number, a status or
//! the key of a packet.

ghost use Rattle.std.specs.Prelude.{◌≡◌};
ghost use Rattle.laws_slots.specs.Words.{status_of_word, word as word_in};

use driver_set::Register;
use laws_slots::WordActivation;
use model::status::Status;

/// The word in a register.
pub fn word(a: &WordActivation, r: Register) -> u64
    ensures { result ≡ word_in a.now r }
{
    a.registers[r.index()]
}

/// The status that a word is the 32-bit value of; `Success` where it is none's.
pub fn status_of(word: u64) -> Status
    ensures { result ≡ status_of_word word }
{
    match word {
        0x0000_0103 => Status::Pending,
        0x8000_0011 => Status::Busy,
        0xC000_0001 => Status::Unsuccessful,
        0xC000_000D => Status::InvalidParameter,
        0xC000_0010 => Status::InvalidDeviceRequest,
        0xC000_0120 => Status::Cancelled,
        _ => Status::Success,
    }
}

/// The status in a register.
pub fn status(a: &WordActivation, r: Register) -> Status
    ensures { result ≡ status_of_word (word_in a.now r) }
{
    status_of(word(a, r))
}
