//! The words of a driver text.

ghost use Rattle.std.specs.Prelude.{◌≡◌};
ghost use Rattle.asm_line.specs.Words.{field_of, field_text, sort_of, status_of, status_text};

use model::instr::Field;
use model::set::Sort;
use model::status::Status;
use text::class::is;

/// The status that the token names.
pub fn status_of(token: &[u8]) -> Option<Status>
    ensures { result ≡ status_of token.now }
{
    if is(token, b"SUCCESS") {
        Some(Status::Success)
    } else if is(token, b"PENDING") {
        Some(Status::Pending)
    } else if is(token, b"BUSY") {
        Some(Status::Busy)
    } else if is(token, b"UNSUCCESSFUL") {
        Some(Status::Unsuccessful)
    } else if is(token, b"INVALID_PARAMETER") {
        Some(Status::InvalidParameter)
    } else if is(token, b"INVALID_DEVICE_REQUEST") {
        Some(Status::InvalidDeviceRequest)
    } else if is(token, b"CANCELLED") {
        Some(Status::Cancelled)
    } else {
        None
    }
}

/// The field of a packet that the token names.
pub fn field_of(token: &[u8]) -> Option<Field>
    ensures { result ≡ field_of token.now }
{
    if is(token, b"MAJOR") {
        Some(Field::Major)
    } else if is(token, b"ARG") {
        Some(Field::Argument)
    } else if is(token, b"INFO") {
        Some(Field::Info)
    } else {
        None
    }
}

/// The sort of routine that the token names.
pub fn sort_of(token: &[u8]) -> Option<Sort>
    ensures { result ≡ sort_of token.now }
{
    if is(token, b"dispatch") {
        Some(Sort::Dispatch)
    } else if is(token, b"startio") {
        Some(Sort::StartIo)
    } else if is(token, b"dpc") {
        Some(Sort::Dpc)
    } else if is(token, b"propagate") {
        Some(Sort::Propagate)
    } else if is(token, b"hold") {
        Some(Sort::Hold)
    } else if is(token, b"cancel") {
        Some(Sort::Cancel)
    } else {
        None
    }
}

/// The word of a status.
pub fn status_text(status: Status) -> &'static str
    ensures { result.now ≡ status_text status }
{
    match status {
        Status::Success => "SUCCESS",
        Status::Pending => "PENDING",
        Status::Busy => "BUSY",
        Status::Unsuccessful => "UNSUCCESSFUL",
        Status::InvalidParameter => "INVALID_PARAMETER",
        Status::InvalidDeviceRequest => "INVALID_DEVICE_REQUEST",
        Status::Cancelled => "CANCELLED",
    }
}

/// The word of a field of a packet.
pub fn field_text(field: Field) -> &'static str
    ensures { result.now ≡ field_text field }
{
    match field {
        Field::Major => "MAJOR",
        Field::Argument => "ARG",
        Field::Info => "INFO",
    }
}
