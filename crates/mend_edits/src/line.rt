//! The next line of a text, with what ends it.

ghost use Rattle.std.specs.Prelude.{◌≡◌, ◌≤◌, ◌<◌, IfSome, length, nat_eq};
ghost use Rattle.std.specs.List.{position};
ghost use Rattle.mend_edits.specs.Diff.{line_size};

/// How many bytes the next line of a text has, its LF among them. The last one may have none.
pub(crate) fn line_size(text: &[u8]) -> usize
    ensures size { result ≡ line_size text.now }
    ensures within { result ≤ length text.now }
{
    match end_in(text) {
        Some(end) => end + 1,
        None => text.len(),
    }
}

/// Where the first LF of a text stands.
fn end_in(text: &[u8]) -> Option<usize>
    ensures first { result ≡ position (λ b. nat_eq b 10) text.now }
    ensures within { IfSome result (λ end. end < length text.now) }
{
    text.iter().position(|byte| *byte == b'\n')
}
