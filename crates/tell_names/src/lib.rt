//! What a told run is told with: the names and the lines of a text, values in words, what an
//! instruction did to registers and cells, and which operand of it is wrong.
#![tactic(auto)]

mod blanks;
mod book;
mod locks;
mod named;
mod values;
mod wrong;

pub use blanks::{blank, blanks_before_change, blanks_behind};
pub use book::{Book, Place};
pub use locks::lock_named;
pub use named::{
    CellKind, add_bug, add_cell, add_lock, add_number, add_packet, add_top_out, add_value,
    major_name, register_name, status_name,
};
pub use values::{add_alone, add_got, add_loaded, add_stored, top_activation, value_at};
pub use wrong::add_wrong;
