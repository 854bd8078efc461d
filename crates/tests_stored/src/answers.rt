//! What the program answers to a command line, and where that differs from what is stored.

use drvhost_devices::device::Writer;
use drvhost_devices::surroundings::PLAIN;
use drvhost_files::files::Disk;
use drvhost_words::program::{Setting, answer};
use md5::{Digest, Md5};
use report_progress::progress::Silent;
use std::alloc::{AllocError, Global};
use std::io::{self, Write};
use std::sync::Wait;
use std::thread::Threads;

/// What stands before the number of lines and the digest of an answer that is stored so.
const DIGEST: &[u8] = b"digest ";

/// What the program answers: what goes out, with what the error writer is told behind a line of
/// its own; and a line with the exit status, and how many files were opened, and how many reads of
/// them failed.
#[derive(Drop)]
pub(crate) struct Answer {
    pub(crate) said: Vec<u8>,
    end: Vec<u8>,
}

impl Answer {
    /// The answer as it has to be stored, where something is stored so.
    pub(crate) fn beside(&self, alloc: Global, stored: &[u8]) -> io::Result<Vec<u8>> {
        let mut lines = Vec::new(alloc);
        if stored.starts_with(DIGEST) {
            write_digest(self.said.as_slice(), &mut lines)?;
        } else {
            lines.extend_from_slice(self.said.as_slice())?;
        }
        lines.extend_from_slice(self.end.as_slice())?;
        Ok(lines)
    }
}

/// What the program answers to these words, over the files of a system.
pub(crate) fn answer_of<R: Threads + Wait + Sync>(
    rt: &R,
    system: &HostRuntime,
    words: &str,
) -> io::Result<Answer> {
    let alloc = system.alloc();
    let words = command_line_of(alloc, words)?;
    let mut files = Disk::new(system);
    let mut lines = Writer::new(Vec::<u8>::new(alloc));
    let mut told = Writer::new(Vec::<u8>::new(alloc));
    let setting = Setting {
        alloc,
        surroundings: PLAIN,
    };
    let status = answer(
        &(rt, Silent),
        setting,
        Ok(words),
        &mut files,
        &mut lines,
        &mut told,
    );
    let mut said = lines.into_inner();
    add_told(told.into_inner().as_slice(), &mut said)?;
    let mut end = Vec::new(alloc);
    write_end(status, &files, &mut end)?;
    Ok(Answer { said, end })
}

/// Adds what the error writer was told, if anything, and a line before it.
fn add_told(told: &[u8], said: &mut Vec<u8>) -> Result<(), AllocError> {
    if told.is_empty() {
        return Ok(());
    }
    said.extend_from_slice(b"told:\n")?;
    said.extend_from_slice(told)
}

/// Writes the last line of an answer.
fn write_end<W: Write>(status: u8, files: &Disk<'_>, out: &mut W) -> io::Result<()> {
    let opened = files.opened();
    write!(out, "status {status}, opened {opened}")?;
    match files.failures() {
        0 => out.write_all(b"\n"),
        failures => write!(out, ", failed reads {failures}\n"),
    }
}

/// The words of a command line, the program's own name first.
fn command_line_of(alloc: Global, words: &str) -> Result<Vec<String>, AllocError> {
    let mut given = Vec::new(alloc);
    given.push(String::from_str(alloc, "drvhost")?)?;
    for word in words.split(' ') {
        given.push(String::from_str(alloc, word)?)?;
    }
    Ok(given)
}

/// Writes how many lines were said, and their digest.
fn write_digest<W: Write>(said: &[u8], out: &mut W) -> io::Result<()> {
    let lines = said.iter().filter(|byte| **byte == b'\n').count();
    let digest = u128::from_be_bytes(Md5::digest(said));
    write!(out, "digest {lines} {digest:032x}\n")
}

/// Writes the first line that is stored otherwise than it is answered, and what is answered.
pub(crate) fn tell_difference<W: Write>(
    stored: &[u8],
    answered: &[u8],
    out: &mut W,
) -> io::Result<()> {
    let mut others = answered.split(|byte: &u8| *byte == b'\n');
    for line in stored.split(|byte: &u8| *byte == b'\n') {
        let other = others.next().unwrap_or(b"");
        if line != other {
            return write_both(line, other, out);
        }
    }
    Ok(())
}

/// Writes a line that is stored, and one that is answered.
fn write_both<W: Write>(stored: &[u8], answered: &[u8], out: &mut W) -> io::Result<()> {
    out.write_all(b"stored: ")?;
    out.write_all(stored)?;
    out.write_all(b"\nanswered: ")?;
    out.write_all(answered)?;
    out.write_all(b"\n")
}
