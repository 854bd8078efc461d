//! The standard input as a file.

use std::fs::{File, Files};
use std::io::{self, Input, Read};

/// The name of the standard input, where a file is to be read. A file of that name is `./-`.
pub(crate) const STANDARD_INPUT: &str = "-";

/// What a name opens to be read.
#[derive(Drop)]
pub enum Opened<F, I> {
    /// The file of that name.
    File(F),
    /// The standard input.
    Standard(I),
}

impl<F: Read, I: Read> Read for Opened<F, I> {
    fn read(&mut self, buf: &mut [u8]) -> io::Result<usize> {
        match self {
            Opened::File(file) => file.read(buf),
            Opened::Standard(input) => input.read(buf),
        }
    }
}

/// Opens what a name stands for, if it can be opened.
pub(crate) fn open<R: Files + Input>(system: &R, name: &str) -> Option<Opened<R::File, R::Reader>> {
    if name == STANDARD_INPUT {
        return Some(Opened::Standard(system.reader()));
    }
    match File::open(system, name) {
        Ok(file) => Some(Opened::File(file)),
        Err(_) => None,
    }
}
