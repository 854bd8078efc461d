//! One line read by its form.

ghost use Rattle.std.specs.Prelude.{◌≡◌, ◌∷◌, Err, IfOk, IfSome, MatchResult, None, Ok};
ghost use Rattle.std.specs.Prelude.{option_and_then, option_map};
ghost use Rattle.std.specs.List.{list_all};
ghost use Rattle.std.specs.Option.{ok_or};
ghost use Rattle.text.specs.Class.{is_token};
ghost use Rattle.text.specs.Cut.{tokens_of};
ghost use Rattle.asm_line.specs.Cursor.{Reads};
ghost use Rattle.asm_line.specs.Line.{body, body_of, labelled, line_of, queue, read_line, step};
ghost use Rattle.asm_line.specs.Line.{BodyFits};
ghost use Rattle.asm_line.specs.Plain.{blank_line};
ghost use Rattle.asm_line.specs.declared.line.LineFault.{LineFault};

use crate::cursor::Cursor;
use crate::instruction::instruction;
use crate::line::{Body, Line, LineFault};
use text::class::{MAX_NAME, is, label_name};
use text::cut::is_clean;
use text::piece::Piece;
use text::token::Tokens;

/// A line that a comment begins, by the test of its bytes alone: it says nothing, if they may all
/// stand in it.
///
/// # Errors
///
/// `Lex` where a byte is of no form.
pub fn comment_line(raw: &[u8]) -> Option<Result<(), LineFault>>
    ensures { IfSome result (λ answer. MatchResult answer (λ _. read_line raw.now ≡ Ok blank_line)
        (λ fault. read_line raw.now ≡ Err fault)) }
{
    if *raw.first()? != b';' {
        return None;
    }
    if is_clean(raw) {
        Some(Ok(()))
    } else {
        Some(Err(LineFault::Lex))
    }
}

/// The line of these bytes.
///
/// # Errors
///
/// `Lex` where a byte or token is of no form, `UnknownWord` where the line is of none.
pub fn read_exactly<'a>(raw: &'a [u8]) -> Result<Line<'a>, LineFault>
    ensures line { result ≡ read_line raw.now }
    ensures fits { IfOk result (λ line. BodyFits line.body) }
{
    let line = line_of(Tokens::of(raw));
    if is_clean(raw) && is_of_form(raw, &line) {
        line
    } else {
        Err(LineFault::Lex)
    }
}

/// Whether each token is of a form, where this was read of them. The tokens of a line are, but for
/// one that is too long for a name; so they needn't be looked at again.
fn is_of_form(raw: &[u8], line: &Result<Line<'_>, LineFault>) -> bool
    requires { line.now ≡ ok_or (line_of (tokens_of raw.now)) LineFault.UnknownWord }
    ensures { result ≡ list_all is_token (tokens_of raw.now) }
{
    match line {
        Ok(_) if raw.len() <= MAX_NAME => true,
        _ => Tokens::of(raw).are_of_form(),
    }
}

/// The line that the tokens are, of which the first may be a label; without a token it is blank.
fn line_of<'a>(mut tokens: Tokens<'a>) -> Result<Line<'a>, LineFault>
    ensures line { result ≡ ok_or (line_of tokens.entry) LineFault.UnknownWord }
    ensures fits { IfOk result (λ line. BodyFits line.body) }
{
    let Some(first) = tokens.next() else {
        return Ok(Line {
            label: None,
            body: Body::Blank,
        });
    };
    let line = match label_name(first) {
        Some(label) => labelled(label, tokens),
        None => unlabelled(first, tokens),
    };
    line.ok_or(LineFault::UnknownWord)
}

/// A line without a label, whose first word this is.
fn unlabelled<'a>(word: &[u8], tokens: Tokens<'a>) -> Option<Line<'a>>
    ensures line { result
        ≡ option_map (λ b. record { label = None; body = b }) (body_of (word.now ∷ tokens.entry)) }
    ensures fits { IfSome result (λ line. BodyFits line.body) }
{
    Some(Line {
        label: None,
        body: body_of(word, tokens)?,
    })
}

/// A line with this label, which only an instruction may have.
fn labelled<'a>(label: &'a [u8], mut tokens: Tokens<'a>) -> Option<Line<'a>>
    ensures line { result ≡ option_and_then (labelled label.now) (body_of tokens.entry) }
    ensures fits { IfSome result (λ line. BodyFits line.body) }
{
    let word = tokens.next()?;
    let body = body_of(word, tokens)?;
    match body {
        Body::Step(_, _) => Some(Line {
            label: Some(Piece::of(label)),
            body,
        }),
        _ => None,
    }
}

/// What the first word of a line and all tokens behind it say.
fn body_of<'a>(word: &[u8], tokens: Tokens<'a>) -> Option<Body<'a>>
    ensures body { result ≡ body_of (word.now ∷ tokens.entry) }
    ensures fits { IfSome result BodyFits }
{
    let mut at = Cursor::of(tokens);
    let body = body(word, &mut at)?;
    if at.tokens.next().is_some() {
        None
    } else {
        Some(body)
    }
}

/// What the first word of a line and the tokens behind it say, as far as they are read.
fn body<'a>(word: &[u8], at: &mut Cursor<'a>) -> Option<Body<'a>>
    ensures read { Reads result at.new (body word.now at.old) }
    ensures fits { IfSome result BodyFits }
{
    if is(word, b"driver") {
        return Some(Body::OpenDriver(at.name()?));
    }
    if is(word, b"endd") {
        return Some(Body::CloseDriver);
    }
    if is(word, b"queue") {
        return queue(at);
    }
    if is(word, b"dispatch") {
        return Some(Body::Handle(at.major()?, at.name()?));
    }
    if is(word, b"startio") {
        return Some(Body::HandleStartIo(at.name()?, at.optional_name()?));
    }
    if is(word, b"dpc") {
        return Some(Body::HandleDpc(at.name()?));
    }
    if is(word, b"routine") {
        return Some(Body::OpenRoutine(at.name()?, at.sort()?));
    }
    if is(word, b"endr") {
        return Some(Body::CloseRoutine);
    }
    if is(word, b"device") {
        let (name, driver) = (at.name()?, at.name()?);
        let (stack, lower) = (at.number()?, at.optional_name()?);
        return Some(Body::AddDevice(name, driver, stack, lower));
    }
    step(word, at)
}

/// `queue NAME LOCK` and `queue NAME LOCK ROUTINE`.
fn queue<'a>(at: &mut Cursor<'a>) -> Option<Body<'a>>
    ensures read { Reads result at.new (queue at.old) }
    ensures fits { IfSome result BodyFits }
{
    let (name, lock) = (at.name()?, at.spin_lock()?);
    let guard = if at.in_range { Some(lock) } else { None };
    let cancel = at.optional_name()?;
    Some(Body::AddQueue(name, guard, cancel))
}

/// An instruction, and the names that it uses.
fn step<'a>(word: &[u8], at: &mut Cursor<'a>) -> Option<Body<'a>>
    ensures read { Reads result at.new (step word.now at.old) }
    ensures fits { IfSome result BodyFits }
{
    let instr = instruction(word, at)?;
    let instr = if at.in_range { Some(instr) } else { None };
    Some(Body::Step(instr, at.used.again()))
}
