//! What routines are named for.

ghost use Rattle.std.specs.Prelude.{◌≡◌, ◌≤◌, length};
ghost use Rattle.model.specs.declared.limits.TheConstants.{MAX_ROUTINES};
ghost use Rattle.asm.specs.NameTable.{number_for, routine_named, serves};

use crate::names::number_of;
use indexmap::IndexSet;
use model::set::Sort;
use text::piece::Piece;

/// What a routine is named for.
#[derive(Clone, Copy)]
pub enum Role {
    /// To serve a major function.
    Handler,
    /// To be set by a `call`.
    Completion,
    /// To begin the packets of a device one after another.
    StartIo,
    /// To be queued by an interrupt.
    Dpc,
    /// To be called for a packet of a queue or of the device queue, which is cancelled.
    Cancel,
}

/// Whether routines of this sort are for this role.
fn serves(role: Role, sort: Sort) -> bool
    ensures { result ≡ serves role sort }
{
    match (role, sort) {
        (Role::Handler, Sort::Dispatch) => true,
        (Role::Completion, Sort::Propagate | Sort::Hold) => true,
        (Role::StartIo, Sort::StartIo) => true,
        (Role::Dpc, Sort::Dpc) => true,
        (Role::Cancel, Sort::Cancel) => true,
        _ => false,
    }
}

/// The number of the routine with this name, if its sort is for the role.
pub fn routine_named(
    names: &IndexSet<Piece<'_>>,
    sorts: &[Sort],
    role: Role,
    name: &Piece<'_>,
) -> Option<u8>
    requires { length names.now.keys ≤ MAX_ROUTINES }
    ensures { result ≡ routine_named names.now.keys sorts.now role name.now }
{
    let number = number_of(names, name)?;
    number_for(role, number, sorts.get(number as usize).copied())
}

/// The number, if there is a sort and it is for the role.
fn number_for(role: Role, number: u8, sort: Option<Sort>) -> Option<u8>
    ensures { result ≡ number_for role number sort }
{
    match sort {
        Some(sort) => {
            if serves(role, sort) {
                Some(number)
            } else {
                None
            }
        }
        None => None,
    }
}
