//! Many events, applied in one call.

ghost use Rattle.std.specs.Prelude.{◌≡◌, ◌≤◌, length};
ghost use Rattle.pafteis_world.specs.Batch.{AppliesFirst, DrivesFirst, Ended};

use crate::handle::Handle;
use machine::World;
use pafteis_values::event::{EventValue, event_of};
use pafteis_values::reply::{ReplyValue, reply_shown};
use std::alloc::Global;
use std::mem::replace;

/// Applies the events that values name, one after the other, and puts each reply at the place of
/// its event. It ends at the last, where there is no more room, or before a value that names no
/// event. The answer is how many were applied; nothing where there is no world.
pub fn apply_all(
    alloc: Global,
    handle: &mut Handle,
    events: &[EventValue],
    replies: &mut [ReplyValue],
) -> Option<usize>
    ensures { DrivesFirst events.now handle.old replies.old replies.new result handle.new }
{
    let mut world = replace(handle, Handle::empty()).into_world(alloc)?;
    let count = apply_first(&mut world, events, replies);
    *handle = Handle::of(world);
    Some(count)
}

/// The same with a world.
fn apply_first(world: &mut World, events: &[EventValue], replies: &mut [ReplyValue]) -> usize
    ensures applies { AppliesFirst events.now world.old replies.old replies.new result world.new }
    ensures ended { Ended events.now replies.old result }
{
    let room = events.len().min(replies.len());
    let mut count = 0;
    while count < room {
        let Some(event) = event_of(&events[count]) else {
            return count;
        };
        replies[count] = reply_shown(world.apply(&event));
        count += 1;
    }
    count
}
