//! A verdict as the header has it.

ghost use Rattle.std.specs.Prelude.{◌≡◌};
ghost use Rattle.pafteis_values.specs.Verdict.{image_value, refusal_value, status_number};
ghost use Rattle.pafteis_values.specs.Verdict.{text_value, verdict_value};

use asm::{AsmFault, AsmKind};
use image::ImageFault;
use model::abs::Refusal;

/// The verdict on what a text or an image says.
#[derive(Clone, Copy)]
pub enum Verdict {
    /// The set is accepted.
    Accepted,
    /// The set is refused, for its first fault.
    Refused(Refusal),
    /// The text is faulty, by its first fault.
    Text(AsmFault),
    /// The image is faulty, by its first fault.
    Image(ImageFault),
    /// A growth was refused.
    NoMemory,
}

/// Why there is no set, or why it is refused. Fields that tell nothing are 0.
#[repr(C)]
#[derive(Clone, Copy)]
pub struct VerdictValue {
    /// The line of a faulty text, from 1.
    pub line: u64,
    /// The number of the rule that is broken, 1 to 19.
    pub rule: u32,
    /// The place where it is broken.
    pub driver: u32,
    pub routine: u32,
    pub position: u32,
    /// The number of the fault of a text, 1 to 7.
    pub text_fault: u32,
    /// The number of the fault of an image, 1 to 5.
    pub image_fault: u32,
}

/// Nothing to tell.
pub const NOTHING: VerdictValue = VerdictValue {
    line: 0,
    rule: 0,
    driver: 0,
    routine: 0,
    position: 0,
    text_fault: 0,
    image_fault: 0,
};

impl Verdict {
    /// The status of a call that answers so: 0 accepted, 1 refused, 2 faulty, 3 no memory.
    pub fn status(self) -> u32
        ensures { result ≡ status_number self }
    {
        match self {
            Verdict::Accepted => 0,
            Verdict::Refused(_) => 1,
            Verdict::Text(_) | Verdict::Image(_) => 2,
            Verdict::NoMemory => 3,
        }
    }

    /// What it tells, as a value.
    pub fn value(self) -> VerdictValue
        ensures { result ≡ verdict_value self }
    {
        match self {
            Verdict::Accepted | Verdict::NoMemory => NOTHING,
            Verdict::Refused(refusal) => refusal_value(refusal),
            Verdict::Text(fault) => text_value(fault),
            Verdict::Image(fault) => image_value(fault),
        }
    }
}

fn refusal_value(refusal: Refusal) -> VerdictValue
    ensures { result ≡ refusal_value refusal }
{
    VerdictValue {
        line: 0,
        rule: u32::from(refusal.rule.number()),
        driver: u32::from(refusal.driver),
        routine: u32::from(refusal.routine),
        position: u32::from(refusal.at),
        text_fault: 0,
        image_fault: 0,
    }
}

fn text_value(fault: AsmFault) -> VerdictValue
    ensures { result ≡ text_value fault }
{
    let text_fault = match fault.kind {
        AsmKind::Lex => 1,
        AsmKind::UnknownWord => 2,
        AsmKind::DuplicateName => 3,
        AsmKind::UnknownName => 4,
        AsmKind::OutOfRange => 5,
        AsmKind::Unclosed => 6,
        AsmKind::OverLimit => 7,
        AsmKind::Memory => 8,
    };
    VerdictValue {
        line: fault.line,
        rule: 0,
        driver: 0,
        routine: 0,
        position: 0,
        text_fault,
        image_fault: 0,
    }
}

fn image_value(fault: ImageFault) -> VerdictValue
    ensures { result ≡ image_value fault }
{
    let image_fault = match fault {
        ImageFault::Magic => 1,
        ImageFault::Truncated => 2,
        ImageFault::Trailing => 3,
        ImageFault::BadOpcode => 4,
        ImageFault::OverLimit => 5,
        ImageFault::Memory => 6,
    };
    VerdictValue {
        line: 0,
        rule: 0,
        driver: 0,
        routine: 0,
        position: 0,
        text_fault: 0,
        image_fault,
    }
}
