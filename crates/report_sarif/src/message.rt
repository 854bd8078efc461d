//! The texts of messages: a brace in one begins or ends a placeholder, and a square bracket a link,
//! unless it is escaped.

ghost use Rattle.std.specs.Prelude.{◌≡◌, ◌++◌, IfOk, OnOk, chars, string_bytes};
ghost use Rattle.report_sarif.specs.Message.{all_marked, escape_in, is_brace, is_of_link};
ghost use Rattle.report_sarif.specs.Message.{mark_before, mark_of_link, marked, message_of};

use std::alloc::{AllocError, Global};

/// How a message is written: as plain text (3.11.3), or in Markdown (3.11.4).
#[derive(Clone, Copy)]
pub enum Form {
    Plain,
    Markdown,
}

/// The message that shows a text (3.11.5, 3.11.6).
pub(crate) fn message_of(alloc: Global, form: Form, text: &str) -> Result<String, AllocError>
    ensures { IfOk result (λ message. string_bytes message ≡ message_of form text.now) }
{
    let letters = letters_of(alloc, text)?;
    all_marked(alloc, form, letters.as_slice())
}

/// The characters of a text.
fn letters_of(alloc: Global, text: &str) -> Result<Vec<char>, AllocError>
    ensures { IfOk result (λ letters. letters.items ≡ chars text.now) }
{
    text.chars().collect(alloc)
}

/// Characters of a message, each behind its mark.
fn all_marked(alloc: Global, form: Form, letters: &[char]) -> Result<String, AllocError>
    ensures { IfOk result (λ message. string_bytes message ≡ all_marked form letters.now) }
{
    let mut message = String::new(alloc);
    for letter in letters {
        add_marked(&mut message, mark_before(form, *letter), *letter)?;
    }
    Ok(message)
}

/// Adds a character behind its mark, if it has one.
fn add_marked(message: &mut String, mark: Option<char>, letter: char) -> Result<(), AllocError>
    ensures { OnOk result
        (string_bytes message.new ≡ string_bytes message.old ++ marked mark letter) }
{
    if let Some(mark) = mark {
        message.push(mark)?;
        return message.push(letter);
    }
    message.push(letter)
}

/// The mark that is put before a character, which stands for itself then.
fn mark_before(form: Form, letter: char) -> Option<char>
    ensures { result ≡ mark_before form letter }
{
    if is_brace(letter) {
        return Some(letter);
    }
    mark_of_link(form, letter)
}

/// The mark before a character that is none of a placeholder.
fn mark_of_link(form: Form, letter: char) -> Option<char>
    ensures { result ≡ mark_of_link form letter }
{
    if is_of_link(letter) {
        return escape_in(form);
    }
    None
}

/// The mark before a character of a link: in Markdown the page is no place for one.
fn escape_in(form: Form) -> Option<char>
    ensures { result ≡ escape_in form }
{
    match form {
        Form::Plain => Some('\\'),
        Form::Markdown => None,
    }
}

/// Whether a character begins or ends a placeholder.
fn is_brace(letter: char) -> bool
    ensures { result ≡ is_brace letter }
{
    matches!(letter, '{' | '}')
}

/// Whether a character begins or ends the text of a link, or escapes one that does.
fn is_of_link(letter: char) -> bool
    ensures { result ≡ is_of_link letter }
{
    matches!(letter, '[' | '\\' | ']')
}
