//! The members of an object.

ghost use Rattle.std.specs.Prelude.{◌≡◌, ◌++◌, ◌∷◌, [], OnOk, codes, decimal};
ghost use Rattle.json.specs.Token.{begin_object, key, number, string};

use json::Writer;
use std::alloc::AllocError;

/// Adds a member that is a number.
pub fn put_number(out: &mut Writer, name: &str, value: u64) -> Result<(), AllocError>
    ensures before { out.new.before ≡ out.old.before }
    ensures tokens { OnOk result
        (out.new.tokens ≡ out.old.tokens ++ key name.now ∷ number (decimal value) ∷ []) }
{
    out.key(name)?;
    out.u64(value)?;
    Ok(())
}

/// Adds a member that is a text.
pub fn put_text(out: &mut Writer, name: &str, text: &str) -> Result<(), AllocError>
    ensures before { out.new.before ≡ out.old.before }
    ensures tokens { OnOk result
        (out.new.tokens ≡ out.old.tokens ++ key name.now ∷ string text.now ∷ []) }
{
    out.key(name)?;
    out.string(text)?;
    Ok(())
}

/// Adds a member that is a number which may be more than readers of JSON keep: it is a text.
pub(crate) fn put_long(out: &mut Writer, name: &str, value: u64) -> Result<(), AllocError>
    ensures before { out.new.before ≡ out.old.before }
    ensures tokens { OnOk result
        (out.new.tokens ≡ out.old.tokens ++ key name.now ∷ string (decimal value) ∷ []) }
{
    out.key(name)?;
    out.quoted_u64(value)
}

/// Begins an object by the name of its shape, and the file that it is about.
pub fn begin(out: &mut Writer, format: &str, file: &str) -> Result<(), AllocError>
    ensures before { out.new.before ≡ out.old.before }
    ensures tokens { OnOk result (out.new.tokens ≡ out.old.tokens
        ++ begin_object ∷ key (codes "format") ∷ string format.now
        ∷ key (codes "file") ∷ string file.now ∷ []) }
{
    out.begin_object()?;
    put_text(out, "format", format)?;
    put_text(out, "file", file)
}
