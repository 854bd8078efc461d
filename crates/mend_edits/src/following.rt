//! What a unified diff makes of a text.

ghost use Rattle.std.specs.Prelude.{◌≡◌, ◌+◌, ◌++◌, IfOk, IfSome, OnOk, Some, drop};
ghost use Rattle.mend_edits.specs.Diff.{at_start, behind, bytes_of, finished, is_bare};
ghost use Rattle.mend_edits.specs.Diff.{is_between, is_remark, kept, kept_times, line_behind};
ghost use Rattle.mend_edits.specs.Diff.{line_followed, made_by, opened, passed_end, put, shown};
ghost use Rattle.mend_edits.specs.Diff.{taken};

use crate::head::{Head, head_in};
use crate::line::line_size;
use crate::patching::write_line;
use model::items::Items;
use std::alloc::{AllocError, Global};
use std::marker::Model;
use text::cut::Lines;

/// Why a diff was not followed to its end.
#[derive(Drop)]
enum Broken {
    /// It isn't one of this text.
    Misfit,
    /// A growth was refused.
    Memory,
}

impl From<AllocError> for Broken {
    ghost use Rattle.mend_edits.specs.declared.following.Broken.TheVariants.{Memory};

    ghost from_gives = { λ _ broken. broken ≡ Memory };

    fn from(_refused: AllocError) -> Broken {
        Broken::Memory
    }
}

/// What a unified diff makes of a text: the bytes behind its `---` and `+++` lines, where they are
/// a diff of this text. Where no LF ends the text, none ends its last line, unless the diff puts it
/// in anew with one.
///
/// # Errors
///
/// When memory runs out.
pub fn made_by(alloc: Global, diff: &[u8], text: &[u8]) -> Result<Option<Items<u8>>, AllocError>
    ensures { IfOk result (λ made. IfSome made (λ bytes. made_by diff.now text.now ≡ Some bytes)) }
{
    match follow(alloc, diff, text) {
        Ok(made) => Ok(Some(made)),
        Err(Broken::Misfit) => Ok(None),
        Err(Broken::Memory) => Err(AllocError),
    }
}

/// Follows a diff of a text to its end.
fn follow(alloc: Global, diff: &[u8], text: &[u8]) -> Result<Items<u8>, Broken>
    ensures { IfOk result (λ bytes. made_by diff.now text.now ≡ Some bytes) }
{
    let mut progress = Progress::at_start(alloc, text);
    let mut left = Lines::of(diff);
    let mut later = Lines::of(diff);
    let _first = later.next();
    while let Some(line) = left.next() {
        let bare = take_remark(&mut later);
        progress.follow_line(line, bare)?;
    }
    progress.finish()
}

/// Takes the next line, if there is one: whether it is a remark, which says that no LF ends the
/// line before it.
fn take_remark(lines: &mut Lines<'_>) -> bool
    ensures remark { result ≡ is_bare lines.old }
    ensures left { lines.new ≡ drop 1 lines.old }
{
    match lines.next() {
        Some(line) => is_remark(line),
        None => false,
    }
}

/// Whether a line of a diff is a remark.
fn is_remark(line: &[u8]) -> bool
    ensures { result ≡ is_remark line.now }
{
    match line.first() {
        Some(byte) => *byte == b'\\',
        None => false,
    }
}

/// How far a diff has been followed.
#[derive(Drop)]
struct Progress<'a> {
    left: &'a [u8],
    passed: u64,
    written: Vec<u8>,
    made: u64,
    to_take: u64,
    to_put: u64,
}

impl<'a> Model for Progress<'a> {
    ghost use Rattle.mend_edits.specs.Diff as told;

    ghost Value = { told.Progress };

    ghost view = { λ p. record {
      left = p.left.now;
      passed = p.passed;
      written = p.written.items;
      made = p.made;
      old = p.to_take;
      new = p.to_put;
    } };
}

impl<'a> Progress<'a> {
    /// Nothing of the text has been passed.
    fn at_start(alloc: Global, text: &'a [u8]) -> Progress<'a>
        ensures { result ≡ at_start text.now }
    {
        Progress {
            left: text,
            passed: 0,
            written: Vec::new(alloc),
            made: 0,
            to_take: 0,
            to_put: 0,
        }
    }

    /// Follows a line of the diff, bare where a remark stands behind it; a remark is passed.
    fn follow_line(&mut self, line: &[u8], bare: bool) -> Result<(), Broken>
        ensures { OnOk result (line_followed line.now bare (Some self.old) ≡ Some self.new) }
    {
        if is_remark(line) {
            return Ok(());
        }
        if !self.is_between() {
            return self.show(line, bare);
        }
        match head_in(line) {
            Some(head) => self.open(head),
            None => Err(Broken::Misfit),
        }
    }

    /// Whether every line of the hunk was shown, or there is none.
    fn is_between(&self) -> bool
        ensures { result ≡ is_between self.now }
    {
        self.to_take == 0 && self.to_put == 0
    }

    /// Begins a hunk.
    fn open(&mut self, head: Head) -> Result<(), Broken>
        ensures { OnOk result (opened (Some head) self.old ≡ Some self.new) }
    {
        let before = head.old.before();
        self.keep(before.saturating_sub(self.passed))?;
        if self.passed != before || self.made != head.new.before() {
            return Err(Broken::Misfit);
        }
        self.to_take = head.old.count;
        self.to_put = head.new.count;
        Ok(())
    }

    /// So many lines stay.
    fn keep(&mut self, count: u64) -> Result<(), Broken>
        ensures { OnOk result (kept_times count (Some self.old) ≡ Some self.new) }
    {
        let mut left = count;
        while left > 0 {
            self.keep_one()?;
            left -= 1;
        }
        Ok(())
    }

    /// The next line stays.
    fn keep_one(&mut self) -> Result<(), Broken>
        ensures { OnOk result (kept (Some self.old) ≡ Some self.new) }
    {
        let size = line_size(self.left);
        if size == 0 {
            return Err(Broken::Misfit);
        }
        let (line, left) = self.left.split_at(size);
        self.left = left;
        self.passed = one_more(self.passed)?;
        self.written.extend_from_slice(line)?;
        self.made = one_more(self.made)?;
        Ok(())
    }

    /// Follows a line of a hunk.
    fn show(&mut self, line: &[u8], bare: bool) -> Result<(), Broken>
        ensures { OnOk result (shown line.now bare self.old ≡ Some self.new) }
    {
        let Some((sign, line)) = line.split_first() else {
            return Err(Broken::Misfit);
        };
        match *sign {
            b' ' => {
                self.take(line, bare)?;
                self.put(line, bare)
            }
            b'-' => self.take(line, bare),
            b'+' => self.put(line, bare),
            _ => Err(Broken::Misfit),
        }
    }

    /// Passes a line of the text that the hunk shows.
    fn take(&mut self, line: &[u8], bare: bool) -> Result<(), Broken>
        ensures { OnOk result (taken line.now bare self.old ≡ Some self.new) }
    {
        match line_behind(line, bare, self.left) {
            Some(left) if self.to_take > 0 => {
                self.left = left;
                self.passed = one_more(self.passed)?;
                self.to_take -= 1;
                Ok(())
            }
            _ => Err(Broken::Misfit),
        }
    }

    /// Makes a line that the hunk shows.
    fn put(&mut self, line: &[u8], bare: bool) -> Result<(), Broken>
        ensures { OnOk result (put line.now bare (Some self.old) ≡ Some self.new) }
    {
        if self.to_put == 0 {
            return Err(Broken::Misfit);
        }
        write_shown(&mut self.written, line, bare)?;
        self.made = one_more(self.made)?;
        self.to_put -= 1;
        Ok(())
    }

    /// What was made, with what is left of the text.
    fn finish(self) -> Result<Items<u8>, Broken>
        ensures { IfOk result (λ bytes. finished (Some self.entry) ≡ Some bytes) }
    {
        if !self.is_between() {
            return Err(Broken::Misfit);
        }
        let Progress {
            left,
            mut written,
            ..
        } = self;
        written.extend_from_slice(left)?;
        Ok(Items::of(written))
    }
}

/// What stands behind a line, where it is the next of a text; of a bare one nothing.
fn line_behind<'a>(line: &[u8], bare: bool, text: &'a [u8]) -> Option<&'a [u8]>
    ensures { IfSome result (λ left. line_behind line.now bare text.now ≡ Some left.now) }
{
    end_behind(bare, behind(line, text)?)
}

/// What stands behind these bytes, where a text begins with them.
fn behind<'a>(bytes: &[u8], text: &'a [u8]) -> Option<&'a [u8]>
    ensures { IfSome result (λ left. behind bytes.now text.now ≡ Some left.now) }
{
    text.strip_prefix(bytes)
}

/// What stands behind the LF that ends a line; of a bare one nothing, where it ends the text.
fn end_behind(bare: bool, text: &[u8]) -> Option<&[u8]>
    ensures { IfSome result (λ left. passed_end bare text.now ≡ Some left.now) }
{
    match text.split_first() {
        Some((byte, left)) if !bare && *byte == b'\n' => Some(left),
        None if bare => Some(text),
        _ => None,
    }
}

/// Adds a line with its LF, unless it is bare.
fn write_shown(bytes: &mut Vec<u8>, line: &[u8], bare: bool) -> Result<(), AllocError>
    ensures { OnOk result (bytes.new.items ≡ bytes.old.items ++ bytes_of line.now bare) }
{
    if !bare {
        return write_line(bytes, line);
    }
    bytes.extend_from_slice(line)?;
    Ok(())
}

/// One more, where that has 64 bits.
fn one_more(count: u64) -> Result<u64, Broken>
    ensures { IfOk result (λ more. more ≡ count + 1) }
{
    count.checked_add(1).ok_or(Broken::Misfit)
}
