//! A world behind a handle.

ghost use Rattle.std.specs.Prelude.{◌≡◌, true, false};
ghost use Rattle.model.specs.View.{due_at, packet_at, thread_at};
ghost use Rattle.pafteis.specs.Driving.{Applies, AppliesAll, Closes, MayHave, Opens, Steps};
ghost use Rattle.pafteis.specs.Driving.{TellsAll, TellsIf};
ghost use Rattle.pafteis_values.specs.View.{due_value, packet_value, thread_value};

use crate::texts::WRONG_ARGUMENT;
use model::limits::MAX_THREADS;
use pafteis_values::event::{EventValue, event_of};
use pafteis_values::reply::{ReplyValue, reply_shown};
use pafteis_values::verdict::{NOTHING, VerdictValue};
use pafteis_values::view::{
    DueValue, PacketValue, ThreadValue, due_value, packet_value, thread_value,
};
use pafteis_world::handle::Handle;
use pafteis_world::{batch, driving};
use std::alloc::Global;

/// The status where what was asked was done.
pub const DONE: u32 = 0;
/// The status where a handle has no world.
pub const NO_WORLD: u32 = 5;
/// The status where a handle that is to have a new world has one.
pub const HAS_WORLD: u32 = 6;

/// Whether a world may have so many threads.
pub(crate) fn may_have(threads: u8) -> bool
    ensures some { result ≡ true → MayHave threads }
    ensures none { result ≡ false → MayHave threads → ⊥ }
{
    threads > 0 && threads as usize <= MAX_THREADS
}

/// Makes the world of the set that a text or an image names, with 1 to 64 threads: 0 it stands, 1
/// the set is refused, 2 faulty, 3 no memory, 4 no such number of threads, 6 the handle has a
/// world.
#[unsafe(no_mangle)]
pub extern "C" fn pafteis_world_new(
    alloc: Global,
    set: &[u8],
    threads: u8,
    world: &mut Handle,
    verdict: &mut VerdictValue,
) -> u32
    ensures { Opens set.now threads world.old world.new verdict.new result }
{
    *verdict = NOTHING;
    if !may_have(threads) {
        return WRONG_ARGUMENT;
    }
    match driving::open_empty(alloc, set, threads, world) {
        Some(judged) => {
            *verdict = judged.value();
            judged.status()
        }
        None => HAS_WORLD,
    }
}

/// Applies an event.
#[unsafe(no_mangle)]
pub extern "C" fn pafteis_world_apply(
    alloc: Global,
    world: &mut Handle,
    event: &EventValue,
    reply: &mut ReplyValue,
) -> u32
    ensures { Applies event.now world.old world.new reply.old reply.new result }
{
    let Some(event) = event_of(event) else {
        return WRONG_ARGUMENT;
    };
    match driving::apply(alloc, world, &event) {
        Some(replied) => {
            *reply = reply_shown(replied);
            DONE
        }
        None => NO_WORLD,
    }
}

/// Applies the events that values name, one after the other, and puts each reply at the place of
/// its event, up to the last, where there is no more room, or before a value that names no event,
/// which is answered by 4. How many were applied is told: none where there is no world.
#[unsafe(no_mangle)]
pub extern "C" fn pafteis_world_apply_all(
    alloc: Global,
    world: &mut Handle,
    events: &[EventValue],
    replies: &mut [ReplyValue],
    applied: &mut usize,
) -> u32
    ensures { AppliesAll events.now world.old world.new replies.old replies.new applied.new result }
{
    match batch::apply_all(alloc, world, events, replies) {
        Some(count) => {
            *applied = count;
            if count < events.len() && count < replies.len() {
                WRONG_ARGUMENT
            } else {
                DONE
            }
        }
        None => {
            *applied = 0;
            NO_WORLD
        }
    }
}

/// Makes steps of a thread, at most `count`, up to the first that replies otherwise than that it
/// stepped.
#[unsafe(no_mangle)]
pub extern "C" fn pafteis_world_steps(
    alloc: Global,
    world: &mut Handle,
    thread: u8,
    count: usize,
    made: &mut usize,
    reply: &mut ReplyValue,
) -> u32
    ensures { Steps thread count world.old world.new made.old made.new reply.old reply.new result }
{
    match driving::steps(alloc, world, thread, count) {
        Some(steps) => {
            *made = steps.made;
            *reply = reply_shown(steps.last);
            DONE
        }
        None => NO_WORLD,
    }
}

/// Tells of a thread; 4 where there is none of this number.
#[unsafe(no_mangle)]
pub extern "C" fn pafteis_world_thread(
    alloc: Global,
    world: &mut Handle,
    number: u8,
    thread: &mut ThreadValue,
) -> u32
    ensures { TellsIf (λ w. thread_at w number) thread_value world.old world.new thread.old
        thread.new result }
{
    match driving::thread(alloc, world, number) {
        Some(Some(told)) => {
            *thread = thread_value(&told);
            DONE
        }
        Some(None) => WRONG_ARGUMENT,
        None => NO_WORLD,
    }
}

/// Tells of a packet.
#[unsafe(no_mangle)]
pub extern "C" fn pafteis_world_packet(
    alloc: Global,
    world: &mut Handle,
    number: u64,
    packet: &mut PacketValue,
) -> u32
    ensures { TellsAll (λ w. packet_at w number) packet_value world.old world.new packet.old
        packet.new result }
{
    match driving::packet(alloc, world, number) {
        Some(told) => {
            *packet = packet_value(&told);
            DONE
        }
        None => NO_WORLD,
    }
}

/// Tells what is due of a device: nothing where there is none of this number.
#[unsafe(no_mangle)]
pub extern "C" fn pafteis_world_due(
    alloc: Global,
    world: &mut Handle,
    device: u8,
    due: &mut DueValue,
) -> u32
    ensures { TellsAll (λ w. due_at w device) due_value world.old world.new due.old due.new result }
{
    match driving::due(alloc, world, device) {
        Some(told) => {
            *due = due_value(told);
            DONE
        }
        None => NO_WORLD,
    }
}

/// Frees a world; 5 where there is none, as where it was freed before.
#[unsafe(no_mangle)]
pub extern "C" fn pafteis_world_free(alloc: Global, world: &mut Handle) -> u32
    ensures { Closes world.old world.new result }
{
    if driving::close(alloc, world) {
        DONE
    } else {
        NO_WORLD
    }
}
