//! Names, what they number, and the lines that use them.

ghost use Rattle.std.specs.Prelude.{◌≡◌, ◌≤◌, ◌^◌, ◌++◌, [], ◌∷◌, false, length, IfOk, OnOk, Some};
ghost use Rattle.std.specs.Prelude.{option_to_list};
ghost use Rattle.asm.specs.NameTable.{is_among, number_of};
ghost use Rattle.asm.specs.Uses.{earliest, is_known_label, missed, number_used, use_place};
ghost use Rattle.asm.specs.Uses.{used_at};

use indexmap::IndexSet;
use std::alloc::AllocError;
use text::piece::Piece;

/// A line that uses a name: its number and the name.
#[derive(Drop)]
pub struct Use<'a> {
    pub line: u64,
    pub name: Piece<'a>,
}

impl<'a> Use<'a> {
    /// The use of this name in this line.
    pub fn of(line: u64, name: &Piece<'a>) -> Use<'a>
        ensures { result ≡ record { line = line; name = name.now } }
    {
        Use {
            line,
            name: name.again(),
        }
    }
}

/// Whether the name is one of these.
pub fn is_among(names: &IndexSet<Piece<'_>>, name: &Piece<'_>) -> bool
    ensures { result ≡ is_among names.now.keys name.now }
{
    names.contains(name)
}

/// Whether there is a label and it is one of these.
pub fn is_known(labels: &IndexSet<Piece<'_>>, label: &Option<Piece<'_>>) -> bool
    ensures { result ≡ is_known_label labels.now.keys label.now }
{
    match label {
        Some(label) => is_among(labels, label),
        None => false,
    }
}

/// What the name is the number of.
pub fn number_of(names: &IndexSet<Piece<'_>>, name: &Piece<'_>) -> Option<u8>
    requires { length names.now.keys ≤ 2 ^ 8 }
    ensures { result ≡ number_of names.now.keys name.now }
{
    let number = names.get_index_of(name)?;
    Some(number as u8)
}

/// What the name that is used, if one is, is the number of.
pub fn number_used(names: &IndexSet<Piece<'_>>, used: &Option<Use<'_>>) -> Option<u8>
    requires { length names.now.keys ≤ 2 ^ 8 }
    ensures { result ≡ number_used names.now.keys used.now }
{
    match used {
        Some(used) => number_of(names, &used.name),
        None => None,
    }
}

/// The use of a name in a line, if there is one.
pub fn used_at<'a>(line: u64, name: &Option<Piece<'a>>) -> Option<Use<'a>>
    ensures { result ≡ used_at line name.now }
{
    match name {
        Some(name) => Some(Use::of(line, name)),
        None => None,
    }
}

/// The line of a use of a name that isn't among these.
pub fn missed(names: &IndexSet<Piece<'_>>, used: &Option<Use<'_>>) -> Option<u64>
    ensures { result ≡ missed names.now.keys used.now }
{
    match used {
        Some(used) => missed_use(names, used),
        None => None,
    }
}

/// The line of this use of a name, if it isn't among these.
pub fn missed_use(names: &IndexSet<Piece<'_>>, used: &Use<'_>) -> Option<u64>
    ensures { result ≡ missed names.now.keys (Some used.now) }
{
    if is_among(names, &used.name) {
        None
    } else {
        Some(used.line)
    }
}

/// The lesser of two lines.
pub fn earliest(first: Option<u64>, second: Option<u64>) -> Option<u64>
    ensures { result ≡ earliest first second }
{
    match (first, second) {
        (Some(first), Some(second)) => Some(first.min(second)),
        (Some(first), None) => Some(first),
        (None, second) => second,
    }
}

/// Adds a name that is new.
pub fn add<'a>(names: &mut IndexSet<Piece<'a>>, name: Piece<'a>) -> Result<(), AllocError>
    requires { is_among names.old.keys name ≡ false }
    ensures { OnOk result (names.new.keys ≡ names.old.keys ++ name.entry ∷ []) }
{
    names.insert(name)?;
    Ok(())
}

/// Adds the use of a name in a line, if there is one, and answers its place.
pub fn add_use<'a>(
    uses: &mut Vec<Use<'a>>,
    line: u64,
    name: &Option<Piece<'a>>,
) -> Result<Option<usize>, AllocError>
    ensures uses { OnOk result
        (uses.new.items ≡ uses.old.items ++ option_to_list (used_at line name.now)) }
    ensures place { IfOk result
        (λ place. place ≡ use_place (length uses.old.items) name.now) }
{
    let Some(name) = name else {
        return Ok(None);
    };
    let place = uses.len();
    uses.push(Use::of(line, name))?;
    Ok(Some(place))
}

/// Adds what there is.
pub fn push_some<T: Drop>(items: &mut Vec<T>, item: Option<T>) -> Result<(), AllocError>
    ensures { OnOk result (items.new.items ≡ items.old.items ++ option_to_list item) }
{
    match item {
        Some(item) => {
            items.push(item)?;
            Ok(())
        }
        None => Ok(()),
    }
}
