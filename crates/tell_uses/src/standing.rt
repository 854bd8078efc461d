//! What stands before an event: the thread that it is about, the frames there, the instruction of
//! the top one, and the packets that values refer to.

ghost use Rattle.std.specs.Prelude.{◌≡◌, option_map};
ghost use Rattle.model.specs.Effect.{top_of};
ghost use Rattle.model.specs.Run.{frames_on, thread_of};
ghost use Rattle.model.specs.Set.{instruction_at};
ghost use Rattle.model.specs.World.{packet_in};

use checked::Checked;
use checked_parts::Frame;
use driver_set::{DriverSet, Instr};
use model::event::Event;
use model::world::{Activation, Value};

/// The thread that an event is about.
pub fn thread_of(event: &Event) -> Option<u8>
    ensures { result ≡ thread_of event.now }
{
    match *event {
        Event::Issue { thread, .. }
        | Event::Cancel { thread, .. }
        | Event::Dpc { thread, .. }
        | Event::StartIo { thread, .. }
        | Event::Step { thread } => Some(thread),
        Event::Interrupt { .. } => None,
    }
}

/// The frames of a thread: none where there is no such thread.
pub fn frames_on(machine: &Checked, thread: usize) -> &[Frame]
    ensures { result.now ≡ frames_on machine.now.world thread }
{
    match machine.threads().get(thread) {
        Some(its) => its.frames(),
        None => &[],
    }
}

/// The frame on the top of a thread.
pub fn top_frame(machine: &Checked, thread: u8) -> Option<&Frame>
    ensures { option_map (λ frame. frame.now) result
        ≡ top_of (frames_on machine.now.world thread) }
{
    frames_on(machine, thread as usize).last()
}

/// The instruction at which a routine stands.
pub fn instruction_at(set: &DriverSet, a: &Activation) -> Option<Instr>
    ensures { result ≡ instruction_at set.now a.now.driver a.now.routine a.now.position }
{
    set.instruction(a.driver, a.routine, a.position)
}

/// The packet that a value refers to: one that was issued.
pub fn packet_in(machine: &Checked, value: Value) -> Option<u64>
    ensures { result ≡ packet_in machine.now.world.shared value }
{
    match value {
        Value::Ref(n) if machine.shared().is_issued(n) => Some(n),
        _ => None,
    }
}
