//! A world behind a handle: made, driven by events, looked at and freed. What a world does and
//! tells is what `machine::World` does and tells; a handle with no world answers none.

ghost use Rattle.std.specs.Prelude.{◌≡◌, ◌≤◌, false, option_map};
ghost use Rattle.model.specs.declared.limits.TheConstants.{MAX_THREADS};
ghost use Rattle.model.specs.View.{due_at, packet_at, thread_at};
ghost use Rattle.pafteis_world.specs.Driven.{Drives, Opens, OpensEmpty, StepsOn, Tells, world_in};
ghost use Rattle.pafteis_world.specs.Judged.{IsJudged};

use crate::admitting::admit;
use crate::handle::Handle;
use machine::World;
use machine::world::Steps;
use model::event::{Event, Reply};
use model::view::{PacketView, ThreadView};
use pafteis_values::verdict::Verdict;
use std::alloc::Global;
use std::mem::replace;

/// Makes the world of the set that the bytes of a text or of an image name, with so many threads,
/// where that set is accepted. All memory that it ever needs is taken here. The handle has it then,
/// and is as it was else. A world that it had before isn't freed.
pub fn open(alloc: Global, bytes: &[u8], threads: u8, handle: &mut Handle) -> Verdict
    requires some { 1 ≤ threads }
    requires few { threads ≤ MAX_THREADS }
    ensures judged { IsJudged bytes.now result }
    ensures opens { Opens bytes.now threads result handle.old handle.new }
{
    let accepted = match admit(alloc, bytes) {
        Ok(accepted) => accepted,
        Err(verdict) => return verdict,
    };
    let Ok(world) = World::new(alloc, accepted, threads) else {
        return Verdict::NoMemory;
    };
    match Box::new(alloc, world) {
        Ok(world) => {
            *handle = Handle::of(world);
            Verdict::Accepted
        }
        Err(_refused) => Verdict::NoMemory,
    }
}

/// The same for a handle that has no world; nothing is done where it has one.
pub fn open_empty(alloc: Global, bytes: &[u8], threads: u8, handle: &mut Handle) -> Option<Verdict>
    requires some { 1 ≤ threads }
    requires few { threads ≤ MAX_THREADS }
    ensures { OpensEmpty bytes.now threads result handle.old handle.new }
{
    if stands(alloc, handle) {
        return None;
    }
    Some(open(alloc, bytes, threads, handle))
}

/// Takes the world out of a handle, which is empty then.
pub(crate) fn taken(alloc: Global, handle: &mut Handle) -> Option<Box<World>>
    ensures { (option_map (λ world. world.value) result ≡ world_in handle.old)
        × (handle.new.live ≡ false) }
{
    replace(handle, Handle::empty()).into_world(alloc)
}

/// Applies an event.
pub fn apply(alloc: Global, handle: &mut Handle, event: &Event) -> Option<Reply>
    ensures { Drives event.now handle.old result handle.new }
{
    let mut world = taken(alloc, handle)?;
    let reply = world.apply(event);
    *handle = Handle::of(world);
    Some(reply)
}

/// Makes steps of a thread, at most `count`: it ends after the first that replies otherwise than
/// that the thread stepped.
pub fn steps(alloc: Global, handle: &mut Handle, thread: u8, count: usize) -> Option<Steps>
    ensures { StepsOn thread count handle.old result handle.new }
{
    let mut world = taken(alloc, handle)?;
    let steps = world.steps(thread, count);
    *handle = Handle::of(world);
    Some(steps)
}

/// What there is to tell of a thread.
pub fn thread(alloc: Global, handle: &mut Handle, number: u8) -> Option<Option<ThreadView>>
    ensures { Tells (λ w. thread_at w number) handle.old result handle.new }
{
    let world = taken(alloc, handle)?;
    let told = world.thread(number);
    *handle = Handle::of(world);
    Some(told)
}

/// What there is to tell of a packet.
pub fn packet(alloc: Global, handle: &mut Handle, number: u64) -> Option<PacketView>
    ensures { Tells (λ w. packet_at w number) handle.old result handle.new }
{
    let world = taken(alloc, handle)?;
    let told = world.packet(number);
    *handle = Handle::of(world);
    Some(told)
}

/// What is due of a device: StartIo, and its DPC.
pub fn due(alloc: Global, handle: &mut Handle, device: u8) -> Option<(bool, bool)>
    ensures { Tells (λ w. due_at w device) handle.old result handle.new }
{
    let world = taken(alloc, handle)?;
    let told = world.due(device);
    *handle = Handle::of(world);
    Some(told)
}

/// Whether a handle has a world, which stays there.
pub fn stands(alloc: Global, handle: &mut Handle) -> bool
    ensures same { world_in handle.new ≡ world_in handle.old }
    ensures live { handle.new.live ≡ handle.old.live }
    ensures is { result ≡ handle.old.live }
{
    match taken(alloc, handle) {
        Some(world) => {
            *handle = Handle::of(world);
            true
        }
        None => false,
    }
}

/// Frees the world of a handle, which is empty then, and answers whether there was one.
pub fn close(alloc: Global, handle: &mut Handle) -> bool
    ensures empty { handle.new.live ≡ false }
    ensures was { result ≡ handle.old.live }
{
    taken(alloc, handle).is_some()
}
