//! Edits of driver sets: what each of them makes of a set.
#![tactic(auto)]

pub mod apply;
pub mod code;
pub mod edit;
pub mod shift;

pub use apply::{edited, edited_by};
pub use code::{edit_code, with_label};
pub use edit::{Change, Edit, Landing};
pub use shift::Shift;
