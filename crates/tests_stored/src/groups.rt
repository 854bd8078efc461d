//! A group of cases: the lines of its file, which are gone through once.

use crate::answers::{answer_of, tell_difference};
use crate::texts::Text;
use std::alloc::Global;
use std::fs::{self, Files};
use std::io::{self, Write};
use std::sync::Wait;
use std::thread::Threads;

/// What stands before the name of a case.
const CASE: &str = "# ";

/// What stands before the name of a text.
const TEXT: &str = "-- ";

/// What stands between the name of a text and that of its base.
const BASE: &str = " of ";

/// The base that is what the last answer said.
const ANSWER: &str = "$";

/// What stands before the words of a command line.
const PROMPT: &str = "$ ";

/// What the last line of an answer begins with, and what else it has.
const END: &str = "status ";

const OPENED: &str = ", opened ";

/// A group, as far as its lines were read: its name, that of its case, the text that is read, the
/// words of the run whose answer is read, what is stored of that, what the last run said, and how
/// many answers there were.
#[derive(Drop)]
struct Group<'t> {
    name: &'t str,
    case: &'t str,
    text: Text,
    words: Option<&'t str>,
    stored: Vec<u8>,
    said: Vec<u8>,
    answers: u64,
}

/// Goes through a group: writes its texts, tells each answer that differs, and how many answers
/// there are.
pub(crate) fn go_through<R: Threads + Wait + Sync, W: Write>(
    rt: &R,
    system: &HostRuntime,
    name: &str,
    out: &mut W,
) -> io::Result<()> {
    let alloc = system.alloc();
    let path = format!(in alloc; "runs/{name}.txt")?;
    let lines = fs::read_to_string(system, path.as_str())?;
    fs::create_dir_all(system, name)?;
    go_through_lines(rt, system, name, lines.as_str(), out)
}

/// Goes through the lines of a group, likewise. Its name and its lines live as long as each other.
fn go_through_lines<'t, R: Threads + Wait + Sync, W: Write>(
    rt: &R,
    system: &HostRuntime,
    name: &'t str,
    lines: &'t str,
    out: &mut W,
) -> io::Result<()> {
    let mut group: Group<'t> = Group::of(system.alloc(), name);
    for line in lines.lines() {
        group.take(rt, system, line, out)?;
    }
    group.text.write(system)?;
    write!(out, "{name}: {} answers\n", group.answers)
}

/// Whether a line is the last of an answer.
fn is_end(line: &str) -> bool {
    line.starts_with(END) && line.contains(OPENED)
}

impl<'t> Group<'t> {
    /// A group of which no line was read.
    fn of(alloc: Global, name: &'t str) -> Group<'t> {
        Group {
            name,
            case: "",
            text: Text::none(alloc),
            words: None,
            stored: Vec::new(alloc),
            said: Vec::new(alloc),
            answers: 0,
        }
    }

    /// Takes the next line.
    fn take<R: Threads + Wait + Sync, W: Write>(
        &mut self,
        rt: &R,
        system: &HostRuntime,
        line: &'t str,
        out: &mut W,
    ) -> io::Result<()> {
        let Some(words) = self.words else {
            return self.take_asked(system, line);
        };
        self.stored.extend_from_slice(line.as_bytes())?;
        self.stored.push(b'\n')?;
        if is_end(line) {
            self.words = None;
            return self.compare(rt, system, words, out);
        }
        Ok(())
    }

    /// Takes a line that is none of an answer.
    fn take_asked(&mut self, system: &HostRuntime, line: &'t str) -> io::Result<()> {
        if let Some(case) = line.strip_prefix(CASE) {
            self.case = case;
        } else if let Some(words) = line.strip_prefix(PROMPT) {
            self.text.write(system)?;
            self.words = Some(words);
        } else if let Some(name) = line.strip_prefix(TEXT) {
            self.text.write(system)?;
            self.begin_text(system, name)?;
        } else {
            self.text.add(system.alloc(), line)?;
        }
        Ok(())
    }

    /// Begins the text of a name, behind which that of its base may stand.
    fn begin_text(&mut self, system: &HostRuntime, name: &str) -> io::Result<()> {
        let alloc = system.alloc();
        let (name, base) = match name.split_once(BASE) {
            Some((name, base)) => (name, self.base_of(system, base)?),
            None => (name, Vec::new(alloc)),
        };
        self.text = Text::of(alloc, name, base)?;
        Ok(())
    }

    /// The bytes of a base: of a file, or of what the last answer said.
    fn base_of(&self, system: &HostRuntime, base: &str) -> io::Result<Vec<u8>> {
        if base == ANSWER {
            return Ok(Vec::from_slice(system.alloc(), self.said.as_slice())?);
        }
        fs::read(system, base)
    }

    /// Compares what is stored with what the program answers to these words.
    fn compare<R: Threads + Wait + Sync, W: Write>(
        &mut self,
        rt: &R,
        system: &HostRuntime,
        words: &str,
        out: &mut W,
    ) -> io::Result<()> {
        let answer = answer_of(rt, system, words)?;
        let answered = answer.beside(system.alloc(), self.stored.as_slice())?;
        if answered.as_slice() != self.stored.as_slice() {
            write!(
                out,
                "differs: {}: {}: {PROMPT}{words}\n",
                self.name, self.case
            )?;
            tell_difference(self.stored.as_slice(), answered.as_slice(), out)?;
        }
        self.stored.clear();
        self.said = answer.said;
        self.answers = self.answers.saturating_add(1);
        Ok(())
    }
}
