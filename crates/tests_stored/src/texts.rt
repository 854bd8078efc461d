//! A text of a group, which is written into a file of its own.

use std::alloc::{AllocError, Global};
use std::fs::{self, Files};
use std::io::{self, Write};

/// A text, as far as its lines were read: the name of its file, which is empty where there is none;
/// its bytes; its base, of which it may have lines; and how many lines of that were passed.
#[derive(Drop)]
pub(crate) struct Text {
    name: String,
    bytes: Vec<u8>,
    base: Vec<u8>,
    passed: usize,
}

impl Text {
    /// No text.
    pub(crate) fn none(alloc: Global) -> Text {
        Text {
            name: String::new(alloc),
            bytes: Vec::new(alloc),
            base: Vec::new(alloc),
            passed: 0,
        }
    }

    /// A text without a line.
    pub(crate) fn of(alloc: Global, name: &str, base: Vec<u8>) -> Result<Text, AllocError> {
        Ok(Text {
            name: String::from_str(alloc, name)?,
            bytes: Vec::new(alloc),
            base,
            passed: 0,
        })
    }

    /// Adds what a line of the group says: a line, the last line that no line feed ends, bytes,
    /// lines of the base, that such are left out, or a line so many times.
    pub(crate) fn add(&mut self, alloc: Global, line: &str) -> io::Result<()> {
        let Some((mark, rest)) = line.split_at_checked(1) else {
            return Ok(());
        };
        match mark {
            "|" => write!(self.bytes, "{rest}\n"),
            "!" => write!(self.bytes, "{rest}"),
            "x" => self.add_bytes(alloc, rest),
            "=" => self.copy(number_of(rest)),
            "~" => self.leave_out(number_of(rest)),
            "*" => self.repeat(rest),
            _ => Ok(()),
        }
    }

    /// Adds bytes, of which each is spelled by two digits.
    fn add_bytes(&mut self, alloc: Global, digits: &str) -> io::Result<()> {
        if let Ok(bytes) = hex::decode(alloc, digits.as_bytes()) {
            self.bytes.extend_from_slice(bytes.as_slice())?;
        }
        Ok(())
    }

    /// Adds the next lines of the base, so many.
    fn copy(&mut self, count: usize) -> io::Result<()> {
        let lines = self.base.as_slice().split(|byte: &u8| *byte == b'\n');
        for line in lines.skip(self.passed).take(count) {
            self.bytes.extend_from_slice(line)?;
            self.bytes.push(b'\n')?;
        }
        self.leave_out(count)
    }

    /// Passes the next lines of the base, so many.
    fn leave_out(&mut self, count: usize) -> io::Result<()> {
        self.passed = self.passed.saturating_add(count);
        Ok(())
    }

    /// Adds a line so many times: that number stands before it.
    fn repeat(&mut self, counted: &str) -> io::Result<()> {
        let Some((count, line)) = counted.split_once(' ') else {
            return Ok(());
        };
        for number in 0..number_of(count) {
            self.add_numbered(line, number)?;
        }
        Ok(())
    }

    /// Adds a line, with a number where `#` stands in it.
    fn add_numbered(&mut self, line: &str, number: usize) -> io::Result<()> {
        match line.split_once('#') {
            Some((before, behind)) => write!(self.bytes, "{before}{number}{behind}\n"),
            None => write!(self.bytes, "{line}\n"),
        }
    }

    /// Writes its file, in the folder that its name begins with; then it is none.
    pub(crate) fn write<R: Files>(&mut self, rt: &R) -> io::Result<()> {
        if self.name.is_empty() {
            return Ok(());
        }
        let name = self.name.as_str();
        if let Some((folder, _)) = name.rsplit_once('/') {
            fs::create_dir_all(rt, folder)?;
        }
        fs::write(rt, name, self.bytes.as_slice())?;
        self.name.clear();
        Ok(())
    }
}

/// The number that a word spells, or 0.
fn number_of(word: &str) -> usize {
    word.parse().unwrap_or(0)
}
