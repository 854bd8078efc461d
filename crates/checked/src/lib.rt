//! The reference machine: it runs any driver set event by event with every test, and stops at the
//! first bug check or wrong operand.
#![tactic(auto)]

ghost use Rattle.checked.specs.SameWorlds.{SameWorldsGoOnAlike};

mod frame;
mod local;
pub mod machine;
mod reply;
mod routine;
mod running;
mod state;
mod system;
mod thread;

use irql_locks::owning_tells;
use laws_runs::the_past_tells_of_the_world;
pub use machine::Checked;
pub use reply::says_unchanged;
pub use state::State;
pub use thread::Thread;

/// Of any set: two runs that have led to one world, and of which both or neither have stopped, lead
/// to one world by an event too, and both answer the same.
pub fn same_worlds_go_on_alike()
    ensures { SameWorldsGoOnAlike }
{
    the_past_tells_of_the_world();
    owning_tells();
}
