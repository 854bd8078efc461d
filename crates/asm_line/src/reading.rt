//! One line, by its usual form first.

ghost use Rattle.std.specs.Prelude.{◌≡◌, IfOk};
ghost use Rattle.asm_line.specs.Line.{read_line, BodyFits};

use crate::quick::{named_line, plain_line, unnamed};
use crate::{Line, LineFault, read_exactly};

/// The line of these bytes.
///
/// # Errors
///
/// `Lex` where a byte or token is of no form, `UnknownWord` where the line is of none.
pub fn read_line<'a>(raw: &'a [u8]) -> Result<Line<'a>, LineFault>
    ensures line { result ≡ read_line raw.now }
    ensures fits { IfOk result (λ line. BodyFits line.body) }
{
    match plain_line(raw) {
        Some(instr) => Ok(Line {
            label: None,
            body: unnamed(instr),
        }),
        None => read_other_line(raw),
    }
}

/// The same, where `plain_line` has read the line in vain.
///
/// # Errors
///
/// Those of `read_line`.
pub fn read_other_line<'a>(raw: &'a [u8]) -> Result<Line<'a>, LineFault>
    ensures line { result ≡ read_line raw.now }
    ensures fits { IfOk result (λ line. BodyFits line.body) }
{
    match named_line(raw) {
        Some(line) => Ok(line),
        None => read_exactly(raw),
    }
}
