//! Lines in their usual form, read in one pass: most lines of a scenario have it.

ghost use Rattle.std.specs.Prelude.{◌≡◌, [], IfSome, List, None, Some, ℕ};
ghost use Rattle.scenario_text.specs.Line.{dpc_line, interrupt_line, request_line, run_line};
ghost use Rattle.scenario_text.specs.Usual.{Reads, SaysUsually, TakesArgument, TakesDevice};
ghost use Rattle.scenario_text.specs.Usual.{TakesMajor, TakesPacket, TakesStatus, TakesThread};
ghost use Rattle.scenario_text.specs.Usual.{begins_another, expects, is_issued_name};
ghost use Rattle.scenario_text.specs.Usual.{is_packet_name};

use model::status::{Major, Status};
use scenario_names::issued::Issued;
use scenario_names::names::Names;
use scenario_names::operands::{device_of, packet_of, status_named};
use scenario_steps::steps::Usual;
use text::class::{is, is_name, is_word};
use text::head::{Numbered, after_word, number_at_head, short_number, word_at_head};
use text::major::major_of;
use text::piece::Piece;

/// What a line in its usual form says.
#[derive(Drop)]
pub(crate) struct SaidUsually<'a> {
    /// The name of the packet that it issues.
    pub(crate) name: Option<Piece<'a>>,
    pub(crate) usual: Usual,
}

/// What a line says, if it has the usual form: a word and its operands, or what issues a packet,
/// each after one space, where the number of a thread is below 100, a device is named, and an
/// argument is a small decimal number. The packets are those that were issued before it.
pub(crate) fn usual_line<'a>(
    names: &Names<'_>,
    packets: &Issued<'_>,
    line: &'a [u8],
) -> Option<SaidUsually<'a>>
    ensures { IfSome result (SaysUsually names.now packets.now line.now) }
{
    match nameless_line(names, packets, line) {
        Some(usual) => Some(SaidUsually { name: None, usual }),
        None => issuing_line(names, line),
    }
}

/// What a line does, if it has the usual form and issues no packet.
fn nameless_line(names: &Names<'_>, packets: &Issued<'_>, line: &[u8]) -> Option<Usual>
    ensures { IfSome result (λ usual. SaysUsually names.now packets.now line.now
        (record { name = None; usual = usual })) }
{
    if let Some(operands) = after_word(line, b"run") {
        return run(names, operands);
    }
    if let Some(operands) = after_word(line, b"dpc") {
        return dpc(names, operands);
    }
    if let Some(operands) = after_word(line, b"interrupt") {
        return interrupt(names, operands);
    }
    if let Some(operands) = after_word(line, b"expect") {
        return expect(names, packets, operands);
    }
    None
}

/// `NAME = issue T DEVICE MAJOR ARGUMENT`.
fn issuing_line<'a>(names: &Names<'_>, line: &'a [u8]) -> Option<SaidUsually<'a>>
    ensures { IfSome result (λ said. (packets : List (List ℕ))
        → SaysUsually names.now packets line.now said) }
{
    let found = word_at_head(line);
    if !is_issued_name(found.word) {
        return None;
    }
    let operands = after_word(found.rest, b" = issue")?;
    let usual = request(names, operands)?;
    Some(SaidUsually {
        name: Some(Piece::of(found.word)),
        usual,
    })
}

/// Whether a name is a packet's wherever a line begins with it.
fn is_issued_name(word: &[u8]) -> bool
    ensures { result ≡ is_issued_name word.now }
{
    is_name(word) && !begins_another(word)
}

/// Whether a line that issues no packet may begin with a word.
fn begins_another(word: &[u8]) -> bool
    ensures { result ≡ begins_another word.now }
{
    is(word, b"run")
        || is(word, b"dpc")
        || is(word, b"interrupt")
        || is(word, b"expect")
        || is(word, b"step")
        || is(word, b"cancel")
        || is(word, b"startio")
        || is(word, b"together")
        || is(word, b"may")
        || is(word, b"repeat")
        || is(word, b"end")
}

/// `T DEVICE MAJOR ARGUMENT`.
#[tactic(auto, using(crate::proofs::Usual::request_read))]
fn request(names: &Names<'_>, operands: &[u8]) -> Option<Usual>
    ensures { IfSome result (Reads (request_line names.now) Some operands.now) }
{
    let found = thread_at_head(operands)?;
    let (device, rest) = device_at_head(names, found.rest)?;
    let (major, rest) = major_at_head(rest)?;
    let argument = argument_alone(rest)?;
    Some(Usual::Request {
        thread: found.number as u8,
        device,
        major,
        argument,
    })
}

/// `T`.
#[tactic(auto, using(crate::proofs::Usual::run_read))]
fn run(names: &Names<'_>, operands: &[u8]) -> Option<Usual>
    ensures { IfSome result (Reads (run_line names.now) (λ _. None) operands.now) }
{
    let found = thread_at_head(operands)?;
    at_end(found.rest)?;
    Some(Usual::Running(found.number as u8))
}

/// `T DEVICE`.
#[tactic(auto, using(crate::proofs::Usual::dpc_read))]
fn dpc(names: &Names<'_>, operands: &[u8]) -> Option<Usual>
    ensures { IfSome result (Reads (dpc_line names.now) (λ _. None) operands.now) }
{
    let found = thread_at_head(operands)?;
    let (device, rest) = device_at_head(names, found.rest)?;
    at_end(rest)?;
    Some(Usual::Deferred {
        thread: found.number as u8,
        device,
    })
}

/// `DEVICE`.
#[tactic(auto, using(crate::proofs::Usual::interrupt_read))]
fn interrupt(names: &Names<'_>, operands: &[u8]) -> Option<Usual>
    ensures { IfSome result (Reads (interrupt_line names.now) (λ _. None) operands.now) }
{
    let (device, rest) = device_at_head(names, operands)?;
    at_end(rest)?;
    Some(Usual::Interruption(device))
}

/// `PACKET topped STATUS`.
#[tactic(auto, using(crate::proofs::Usual::expect_read))]
fn expect(names: &Names<'_>, packets: &Issued<'_>, operands: &[u8]) -> Option<Usual>
    ensures { IfSome result (Reads (expects names.now packets.now) (λ _. None) operands.now) }
{
    let (packet, rest) = packet_at_head(packets, operands)?;
    let rest = after_word(rest, b" topped")?;
    let status = status_alone(rest)?;
    Some(Usual::ToppedAs { packet, status })
}

/// The number of a thread that stands after a space, and what stands behind it.
#[tactic(auto, using(crate::proofs::Usual::thread_taken))]
fn thread_at_head(bytes: &[u8]) -> Option<Numbered<'_>>
    ensures { IfSome result (λ found. TakesThread bytes.now found.number found.rest.now) }
{
    let (space, rest) = bytes.split_first()?;
    if *space != b' ' {
        return None;
    }
    let found = short_number(rest)?;
    Some(found)
}

/// The device whose name stands after a space, and what stands behind it.
#[tactic(auto, using(crate::proofs::Usual::device_taken))]
fn device_at_head<'a>(names: &Names<'_>, bytes: &'a [u8]) -> Option<(u8, &'a [u8])>
    ensures { IfSome result (λ found. TakesDevice names.now.devices bytes.now found.0 found.1.now) }
{
    let (space, more) = bytes.split_first()?;
    let found = word_at_head(more);
    if *space != b' ' || !is_name(found.word) {
        return None;
    }
    match device_of(names.devices.as_slice(), found.word) {
        Ok(device) => Some((device, found.rest)),
        Err(_) => None,
    }
}

/// The major function whose word stands after a space, and what stands behind it.
#[tactic(auto, using(crate::proofs::Usual::major_taken))]
fn major_at_head(bytes: &[u8]) -> Option<(Major, &[u8])>
    ensures { IfSome result (λ found. TakesMajor bytes.now found.0 found.1.now) }
{
    let (space, more) = bytes.split_first()?;
    let found = word_at_head(more);
    if *space != b' ' || !is_word(found.word) {
        return None;
    }
    let major = major_of(found.word)?;
    Some((major, found.rest))
}

/// The argument that stands after a space, and nothing behind it, if it is small.
#[tactic(auto, using(crate::proofs::Usual::argument_taken))]
fn argument_alone(bytes: &[u8]) -> Option<u32>
    ensures { IfSome result (TakesArgument bytes.now) }
{
    let (space, rest) = bytes.split_first()?;
    if *space != b' ' {
        return None;
    }
    let found = number_at_head(rest)?;
    at_end(found.rest)?;
    if found.number > u64::from(u32::MAX) {
        return None;
    }
    Some(found.number as u32)
}

/// Nothing, if nothing stands there.
fn at_end(rest: &[u8]) -> Option<()>
    ensures { IfSome result (λ _. rest.now ≡ []) }
{
    match rest.split_first() {
        Some(_) => None,
        None => Some(()),
    }
}

/// The packet whose name stands after a space, and what stands behind it.
fn packet_at_head<'a>(packets: &Issued<'_>, bytes: &'a [u8]) -> Option<(u16, &'a [u8])>
    ensures { IfSome result (λ found. TakesPacket packets.now bytes.now found.0 found.1.now) }
{
    let (space, more) = bytes.split_first()?;
    let found = word_at_head(more);
    if *space != b' ' || !is_packet_name(found.word) {
        return None;
    }
    match packet_of(packets, found.word) {
        Ok(packet) => Some((packet, found.rest)),
        Err(_) => None,
    }
}

/// Whether a name is a packet's wherever something is expected of it.
fn is_packet_name(word: &[u8]) -> bool
    ensures { result ≡ is_packet_name word.now }
{
    is_name(word) && !(is(word, b"thread") || is(word, b"bug") || is(word, b"refused"))
}

/// The status whose word stands after a space, and nothing behind it.
#[tactic(auto, using(crate::proofs::Usual::status_taken))]
fn status_alone(bytes: &[u8]) -> Option<Status>
    ensures { IfSome result (TakesStatus bytes.now) }
{
    let (space, word) = bytes.split_first()?;
    if *space != b' ' || !is_word(word) {
        return None;
    }
    let status = status_named(word)?;
    Some(status)
}
