//! The lines of instructions: a word, and what stands behind it.

ghost use Rattle.std.specs.Prelude.{◌≡◌, ◌++◌, ◌∷◌, [], take, OnOk, string_bytes};
ghost use Rattle.asm_line.specs.ListedWords.{instruction_text, place_words, register};
ghost use Rattle.asm_line.specs.ListedWords.{returned_words, spaced, token_words, word_text};

use crate::{field_text, status_text};
use model::instr::{Instr, Register, Return};
use std::alloc::AllocError;

/// What stands at a place behind the word of an instruction: nothing, a word, or letters and a
/// number.
#[derive(Clone, Copy)]
pub enum Token {
    Nothing,
    Spelled(&'static str),
    Lettered(&'static str, u32),
}

impl Token {
    /// Adds a space and it, or nothing.
    fn write(&self, text: &mut String) -> Result<(), AllocError>
        ensures { OnOk result (string_bytes text.new
            ≡ string_bytes text.old ++ spaced (token_words self.now)) }
    {
        match *self {
            Token::Nothing => Ok(()),
            Token::Spelled(word) => write!(text, " {word}"),
            Token::Lettered(letters, number) => write!(text, " {letters}{number}"),
        }
    }
}

/// Adds an instruction and the end of its line.
#[tactic(auto, using(crate::proofs::Written::places_written))]
pub(crate) fn write_instruction(text: &mut String, instr: Instr) -> Result<(), AllocError>
    ensures { OnOk result (string_bytes text.new
        ≡ string_bytes text.old ++ instruction_text instr) }
{
    text.push_str(word_of(&instr))?;
    let first = first_of(&instr);
    first.write(text)?;
    let second = second_of(&instr);
    second.write(text)?;
    let third = third_of(&instr);
    third.write(text)?;
    text.push_str("\n")?;
    Ok(())
}

/// The word of an instruction.
fn word_of(instr: &Instr) -> &'static str
    ensures { result.now ≡ word_text instr.now }
{
    match *instr {
        Instr::Const(..) => "const",
        Instr::Move(..) => "mov",
        Instr::Clear(_) => "clear",
        Instr::Add(..) => "add",
        Instr::Subtract(..) => "sub",
        Instr::JumpIfZero(..) => "jz",
        Instr::JumpIfLess(..) => "jlt",
        Instr::Jump(_) => "jmp",
        Instr::Loop(_) => "loop",
        Instr::End => "end",
        Instr::Load(..) => "load",
        Instr::Store(..) => "store",
        Instr::LoadPaged(..) => "loadp",
        Instr::StorePaged(..) => "storep",
        Instr::Get(..) => "get",
        Instr::Put(..) => "put",
        Instr::Mark(_) => "mark",
        Instr::Acquire(_) => "acquire",
        Instr::Release(_) => "release",
        Instr::AcquireCancel => "acqc",
        Instr::ReleaseCancel => "relc",
        Instr::Insert(..) => "insert",
        Instr::Remove(..) => "remove",
        Instr::Unlink(..) => "unlink",
        Instr::Arm(..) => "arm",
        Instr::Disarm(..) => "disarm",
        Instr::IfCancel(..) => "ifcancel",
        Instr::Start(_) => "start",
        Instr::Take(..) => "take",
        Instr::Begin(_) => "begin",
        Instr::Next => "next",
        Instr::Dequeue(_) => "dequeue",
        Instr::Pass(_) => "pass",
        Instr::Call(..) => "call",
        Instr::Complete(..) => "complete",
        Instr::IfPending(..) => "ifpending",
        Instr::Ret(_) => "ret",
    }
}

/// A register.
fn register(r: Register) -> Token
    ensures { token_words result ≡ register r ∷ [] }
{
    Token::Lettered("r", r.index() as u32)
}

/// What stands first behind the word.
fn first_of(instr: &Instr) -> Token
    ensures { token_words result ≡ place_words 1 instr.now }
{
    match *instr {
        Instr::Const(r, _)
        | Instr::Move(r, _)
        | Instr::Clear(r)
        | Instr::Add(r, _)
        | Instr::Subtract(r, _)
        | Instr::JumpIfZero(r, _)
        | Instr::JumpIfLess(r, _, _)
        | Instr::Load(r, _)
        | Instr::LoadPaged(r, _)
        | Instr::Get(r, _, _)
        | Instr::Put(r, _)
        | Instr::Mark(r)
        | Instr::Insert(r, _)
        | Instr::Remove(r, _, _)
        | Instr::Unlink(r, _)
        | Instr::Arm(r, _)
        | Instr::Disarm(r, _)
        | Instr::IfCancel(r, _)
        | Instr::Start(r)
        | Instr::Take(r, _)
        | Instr::Begin(r)
        | Instr::Dequeue(r)
        | Instr::Pass(r)
        | Instr::Call(r, _)
        | Instr::Complete(r, _)
        | Instr::IfPending(r, _) => register(r),
        Instr::Store(cell, _) => Token::Lettered("c", cell.index() as u32),
        Instr::StorePaged(cell, _) => Token::Lettered("p", cell.index() as u32),
        Instr::Acquire(lock) | Instr::Release(lock) => Token::Lettered("l", lock.index() as u32),
        Instr::Jump(to) => Token::Lettered("a", to as u32),
        Instr::Loop(turns) => Token::Lettered("", turns.count() as u32),
        Instr::Ret(form) => returned(form),
        Instr::End | Instr::AcquireCancel | Instr::ReleaseCancel | Instr::Next => Token::Nothing,
    }
}

/// What stands first behind `ret`.
fn returned(form: Return) -> Token
    ensures { token_words result ≡ take 1 (returned_words form) }
{
    match form {
        Return::WithStatus(status) => Token::Spelled(status_text(status)),
        Return::Lower(_) => Token::Spelled("lower"),
        Return::Continue => Token::Spelled("continue"),
        Return::Stop => Token::Spelled("stop"),
        Return::Void => Token::Spelled("void"),
    }
}

/// What stands behind that.
fn second_of(instr: &Instr) -> Token
    ensures { token_words result ≡ place_words 2 instr.now }
{
    match *instr {
        Instr::Const(_, number) => Token::Lettered("", number),
        Instr::Move(_, r)
        | Instr::Add(_, r)
        | Instr::Subtract(_, r)
        | Instr::JumpIfLess(_, r, _)
        | Instr::Store(_, r)
        | Instr::StorePaged(_, r)
        | Instr::Get(_, r, _)
        | Instr::Put(_, r)
        | Instr::Ret(Return::Lower(r)) => register(r),
        Instr::JumpIfZero(_, to)
        | Instr::Disarm(_, to)
        | Instr::IfCancel(_, to)
        | Instr::Take(_, to)
        | Instr::IfPending(_, to) => Token::Lettered("a", to as u32),
        Instr::Load(_, cell) => Token::Lettered("c", cell.index() as u32),
        Instr::LoadPaged(_, cell) => Token::Lettered("p", cell.index() as u32),
        Instr::Insert(_, queue)
        | Instr::Remove(_, queue, _)
        | Instr::Unlink(_, queue)
        | Instr::Arm(_, queue) => Token::Lettered("q", queue as u32),
        Instr::Call(_, Some(routine)) => Token::Lettered("f", routine as u32),
        Instr::Complete(_, status) => Token::Spelled(status_text(status)),
        Instr::Clear(_)
        | Instr::Jump(_)
        | Instr::Loop(_)
        | Instr::End
        | Instr::Mark(_)
        | Instr::Acquire(_)
        | Instr::Release(_)
        | Instr::AcquireCancel
        | Instr::ReleaseCancel
        | Instr::Start(_)
        | Instr::Begin(_)
        | Instr::Next
        | Instr::Dequeue(_)
        | Instr::Pass(_)
        | Instr::Call(_, None)
        | Instr::Ret(Return::WithStatus(_) | Return::Continue | Return::Stop | Return::Void) =>
            Token::Nothing,
    }
}

/// What stands behind both.
fn third_of(instr: &Instr) -> Token
    ensures { token_words result ≡ place_words 3 instr.now }
{
    match *instr {
        Instr::Get(_, _, field) => Token::Spelled(field_text(field)),
        Instr::JumpIfLess(_, _, to) | Instr::Remove(_, _, to) => Token::Lettered("a", to as u32),
        Instr::Const(..)
        | Instr::Move(..)
        | Instr::Clear(_)
        | Instr::Add(..)
        | Instr::Subtract(..)
        | Instr::JumpIfZero(..)
        | Instr::Jump(_)
        | Instr::Loop(_)
        | Instr::End
        | Instr::Load(..)
        | Instr::Store(..)
        | Instr::LoadPaged(..)
        | Instr::StorePaged(..)
        | Instr::Put(..)
        | Instr::Mark(_)
        | Instr::Acquire(_)
        | Instr::Release(_)
        | Instr::AcquireCancel
        | Instr::ReleaseCancel
        | Instr::Insert(..)
        | Instr::Unlink(..)
        | Instr::Arm(..)
        | Instr::Disarm(..)
        | Instr::IfCancel(..)
        | Instr::Start(_)
        | Instr::Take(..)
        | Instr::Begin(_)
        | Instr::Next
        | Instr::Dequeue(_)
        | Instr::Pass(_)
        | Instr::Call(..)
        | Instr::Complete(..)
        | Instr::IfPending(..)
        | Instr::Ret(_) => Token::Nothing,
    }
}
