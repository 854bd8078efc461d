//! How a text opens: the line that says how many threads there are.

ghost use Rattle.std.specs.Prelude.{◌≡◌, ◌+◌, ◌<◌, ◌≤◌, ◌^◌, Err, IfOk, IfSome, MatchResult, Ok};
ghost use Rattle.std.specs.Prelude.{length};
ghost use Rattle.interleave.specs.Line.{opening_line};
ghost use Rattle.interleave.specs.Listing.{start};
ghost use Rattle.model.specs.declared.limits.TheConstants.{MAX_THREADS};
ghost use Rattle.text.specs.Cut.{lines_of};

use crate::left::Left;
use crate::read::opening_line;
use crate::schedule::{ScheduleFault, ScheduleKind};

/// What the first line with a token says, its number, and what stands behind it.
#[derive(Drop)]
pub struct Opening<'a> {
    /// How many threads there are, 1 to `MAX_THREADS`.
    pub threads: u8,
    pub line: u64,
    pub rest: &'a [u8],
}

/// How a text opens.
///
/// # Errors
///
/// What is wrong with its first line with a token, or that it has none.
pub fn opening_of(text: &[u8]) -> Result<Opening<'_>, ScheduleFault>
    ensures threads { IfOk result (λ o. (1 ≤ o.threads) × (o.threads ≤ MAX_THREADS)) }
    ensures few { IfOk result (λ o. o.line + length (lines_of o.rest.now) < 2 ^ 63) }
    ensures opens { MatchResult result
        (λ o. start 1 (lines_of text.now)
        ≡ Ok (record { threads = o.threads; line = o.line; rest = lines_of o.rest.now }))
        (λ fault. start 1 (lines_of text.now) ≡ Err fault) }
{
    let mut left = Left::of(text);
    let mut line: u64 = 1;
    while let Some(raw) = left.next() {
        match threads_on(raw) {
            Ok(Some(threads)) => {
                let rest = left.rest();
                return Ok(Opening {
                    threads,
                    line,
                    rest,
                });
            }
            Ok(None) => {}
            Err(kind) => return Err(ScheduleFault { line, kind }),
        }
        line += 1;
    }
    Err(ScheduleFault {
        line,
        kind: ScheduleKind::UnknownWord,
    })
}

/// The number of threads that a line gives, which a run may have.
fn threads_on(line: &[u8]) -> Result<Option<u8>, ScheduleKind>
    ensures line { result ≡ opening_line line.now }
    ensures bounds { IfOk result
        (λ threads. IfSome threads (λ k. (1 ≤ k) × (k ≤ MAX_THREADS))) }
{
    opening_line(line)
}
