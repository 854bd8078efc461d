//! The difference of two texts, as `diff -u` writes it.

use crate::line::line_size;
use crate::step::Step;
use text::add_bytes;
use words::Words;

/// How many lines that stay are shown round those that don't.
const CONTEXT: usize = 3;

/// Lines of the two texts, counted.
#[derive(Clone, Copy)]
struct Counts {
    old: usize,
    new: usize,
}

impl Counts {
    /// With the lines of one more step.
    fn and(self, step: &Step) -> Counts {
        match step {
            Step::Keep => Counts {
                old: self.old.saturating_add(1),
                new: self.new.saturating_add(1),
            },
            Step::Delete => Counts {
                old: self.old.saturating_add(1),
                new: self.new,
            },
            Step::Insert(_) => Counts {
                old: self.old,
                new: self.new.saturating_add(1),
            },
        }
    }
}

/// Adds the difference of a text and what the steps make of it, as hunks of a unified diff. Where
/// no LF ends the text, none ends its last line, unless that is followed by others or taken out.
pub fn diff(words: &mut Words, text: &[u8], steps: &[Step]) {
    let mut left = text;
    let mut passed = Counts { old: 0, new: 0 };
    let mut shown = false;
    for (place, step) in steps.iter().enumerate() {
        let here = is_shown(steps, place);
        if here && !shown {
            add_head(words, passed, shown_from(steps, place));
        }
        let (line, later) = cut(step, left);
        if here {
            add_step(words, step, line, place + 1 < steps.len())
        }
        left = later;
        passed = passed.and(step);
        shown = here;
    }
}

/// Whether a step is shown: it changes something, or one near it does.
fn is_shown(steps: &[Step], place: usize) -> bool {
    let first = place.saturating_sub(CONTEXT);
    let end = place.saturating_add(CONTEXT + 1).min(steps.len());
    let window = steps.get(first..end).unwrap_or_default();
    window.iter().any(|step| !matches!(step, Step::Keep))
}

/// The lines of the hunk that begins at a step.
fn shown_from(steps: &[Step], place: usize) -> Counts {
    let mut counts = Counts { old: 0, new: 0 };
    for (later, step) in steps.iter().enumerate().skip(place) {
        if !is_shown(steps, later) {
            break;
        }
        counts = counts.and(step);
    }
    counts
}

/// Adds the head of a hunk of so many lines, behind so many others: how many of each text it has,
/// and the number of the first of them.
fn add_head(words: &mut Words, passed: Counts, counts: Counts) {
    words.add("@@ -");
    add_range(words, passed.old, counts.old);
    words.add(" +");
    add_range(words, passed.new, counts.new);
    words.add(" @@\n")
}

/// Adds a range of so many lines, behind so many others. An empty one has the number of the line
/// before it.
fn add_range(words: &mut Words, passed: usize, count: usize) {
    let first = if count == 0 {
        passed
    } else {
        passed.saturating_add(1)
    };
    words.add_number(first as u64);
    words.add(",");
    words.add_number(count as u64)
}

/// The line of a step, and what it leaves of a text. A line that is put in has no LF yet.
fn cut<'a>(step: &'a Step, text: &'a [u8]) -> (&'a [u8], &'a [u8]) {
    match step {
        Step::Insert(line) => (line.as_slice(), text),
        Step::Keep | Step::Delete => text.split_at(line_size(text)),
    }
}

/// Adds the line of a step behind its sign. A last line that no LF ends is taken out and put in
/// with one where it stays and others follow.
fn add_step(words: &mut Words, step: &Step, line: &[u8], others_follow: bool) {
    match step {
        Step::Insert(_) => add_line(words, "+", line),
        Step::Delete => add_old(words, "-", line),
        Step::Keep if others_follow && !line.ends_with(b"\n") => {
            add_old(words, "-", line);
            add_line(words, "+", line)
        }
        Step::Keep => add_old(words, " ", line),
    }
}

/// Adds a line of the text behind a sign, and a remark behind one that no LF ends.
fn add_old(words: &mut Words, sign: &str, line: &[u8]) {
    match line.strip_suffix(b"\n".as_slice()) {
        Some(line) => add_line(words, sign, line),
        None => {
            add_line(words, sign, line);
            words.add("\\ No newline at end of file\n")
        }
    }
}

/// Adds a line behind a sign.
fn add_line(words: &mut Words, sign: &str, line: &[u8]) {
    words.add(sign);
    let done = add_bytes(&mut words.text, line);
    words.note(done);
    words.add("\n")
}
