//! The cancel routines of packets: drivers set them, and IoCancelIrp calls them.

ghost use Rattle.std.specs.Prelude.{◌≡◌, ◌<◌, List, [], None};
ghost use Rattle.model.specs.declared.event.Lock.TheVariants.{SystemCancel};
ghost use Rattle.model.specs.declared.limits.TheConstants.{MAX_INSTRUCTIONS};
ghost use Rattle.model.specs.declared.world.Frame.{Frame};
ghost use Rattle.model.specs.declared.world.Frame.TheVariants.{Cancel as CancelFrame};

use super::Shared;
use super::locks::lock_bug;
use crate::activation::cancelled_by;
use crate::{Ran, Runner, cancelling, packet_bug, wrong_at};
use driver_set::{DriverSet, QueueName, Register};
use model::event::{BugCheck, Lock, Reply};
use model::world::{Activation, Armer, CancelStep, Canceller};

impl Shared {
    ghost use Rattle.checked_parts.specs.Frames.{cancels_next};
    ghost use Rattle.checked_parts.specs.Ran.{left_of, Leaves};
    ghost use Rattle.checked_parts.specs.Left.{frame_now, judged};
    ghost use Rattle.irql_locks.specs.Owns.{owns};
    ghost use Rattle.model.specs.Effect.{arm_effect, disarm_effect, cancel_ends};
    ghost use Rattle.model.specs.Set.{Set, cancel_routine_of};
    ghost use Rattle.model.specs.World.{packet_in, register, with_locks, with_owner};

    /// `arm r q`: IoSetCancelRoutine with the cancel routine of a queue.
    pub fn arm(&mut self, set: &DriverSet, r: Register, q: u8, a: &mut Activation) -> Ran
        requires { a.old.position < MAX_INSTRUCTIONS }
        ensures { let named = packet_in self.old (register a.old r) in
            let cancel = cancel_routine_of set.now a.old.driver q in
            Leaves self.old a.old (arm_effect self.old a.old q named cancel) self.new a.new result }
    {
        let Some(n) = self.packet_in(a.registers[r.index()]) else {
            return Ran::Stays(wrong_at(a));
        };
        if set.cancel_routine(a.driver, q).is_none() {
            return Ran::Stays(wrong_at(a));
        }
        let Some(key) = self.packet_table.find(n) else {
            return Ran::Stays(packet_bug(BugCheck::IrqlNotLessOrEqual, n));
        };
        let word = Armer {
            device: a.device,
            queue: QueueName::Declared(q),
        };
        let _before = self.packet_table.exchange(key, Some(word));
        a.position += 1;
        Ran::Stays(Reply::Stepped)
    }

    /// `disarm r L`: IoSetCancelRoutine with none; jumps where none was set.
    pub fn disarm(&mut self, r: Register, label: u16, a: &mut Activation) -> Ran
        requires { a.old.position < MAX_INSTRUCTIONS }
        ensures { let named = packet_in self.old (register a.old r) in
            Leaves self.old a.old (disarm_effect self.old a.old label named) self.new a.new result }
    {
        let Some(n) = self.packet_in(a.registers[r.index()]) else {
            return Ran::Stays(wrong_at(a));
        };
        let Some(key) = self.packet_table.find(n) else {
            return Ran::Stays(packet_bug(BugCheck::IrqlNotLessOrEqual, n));
        };
        let was = self.packet_table.exchange(key, None);
        if was.is_none() {
            a.position = label;
            return Ran::Stays(Reply::Stepped);
        }
        a.position += 1;
        Ran::Stays(Reply::Stepped)
    }

    /// A step of IoCancelIrp.
    pub fn cancel(&mut self, set: &DriverSet, runner: Runner, canceller: Canceller) -> Ran
        ensures { (below : List Frame)
            → left_of self.new (CancelFrame canceller) result
            ≡ frame_now set.now self.old runner below (CancelFrame canceller) }
    {
        let Canceller { packet: n, next } = canceller;
        match next {
            CancelStep::Acquire => self.acquire_cancel(runner, n),
            CancelStep::SetFlag => self.set_cancel(runner, n),
            CancelStep::Exchange => self.call_cancel(set, runner, n),
        }
    }

    /// Whether a thread owns the system cancel spin lock.
    fn owns_cancel(&self, runner: Runner) -> bool
        ensures { result ≡ owns self.now.locks runner.thread SystemCancel }
    {
        self.lock_table.owner(Lock::SystemCancel) == Some(Some(runner.thread))
    }

    /// The first step: it acquires the system cancel spin lock, or waits for its owner.
    fn acquire_cancel(&mut self, runner: Runner, n: u64) -> Ran
        ensures { (set : Set) (below : List Frame)
            → left_of self.new (cancels_next n CancelStep.Acquire) result
            ≡ frame_now set self.old runner below (cancels_next n CancelStep.Acquire) }
    {
        if self.owns_cancel(runner) {
            return Ran::Stays(lock_bug(BugCheck::SpinLockAlreadyOwned, Lock::SystemCancel));
        }
        if !self.lock_table.acquire(Lock::SystemCancel, runner.thread) {
            return Ran::Stays(Reply::Waited);
        }
        Ran::Becomes(cancelling(n, CancelStep::SetFlag))
    }

    /// The second step: it sets the packet's cancel flag, if the packet is live.
    fn set_cancel(&mut self, runner: Runner, n: u64) -> Ran
        ensures { (set : Set) (below : List Frame)
            → left_of self.new (cancels_next n CancelStep.SetFlag) result
            ≡ frame_now set self.old runner below (cancels_next n CancelStep.SetFlag) }
    {
        let Some(key) = self.packet_table.find(n) else {
            return self.end_cancel(runner);
        };
        self.packet_table.cancel(key);
        Ran::Becomes(cancelling(n, CancelStep::Exchange))
    }

    /// The third step: it exchanges the packet's cancel routine with none, if the packet is live.
    /// The one that was set begins in the place of IoCancelIrp, with the lock held.
    fn call_cancel(&mut self, set: &DriverSet, runner: Runner, n: u64) -> Ran
        ensures { (below : List Frame)
            → left_of self.new (cancels_next n CancelStep.Exchange) result
            ≡ frame_now set.now self.old runner below (cancels_next n CancelStep.Exchange) }
    {
        let Some(key) = self.packet_table.find(n) else {
            return self.end_cancel(runner);
        };
        let called = match self.packet_table.packet(key).armer() {
            Some(armer) => cancelled_by(set, armer, n),
            None => None,
        };
        if called.is_none() && !self.owns_cancel(runner) {
            return Ran::Stays(lock_bug(BugCheck::SpinLockNotOwned, Lock::SystemCancel));
        }
        let _was = self.packet_table.exchange(key, None);
        match called {
            Some(over) => Ran::Becomes(over),
            None => self.free_cancel(),
        }
    }

    /// It ends where there is no packet: it releases the system cancel spin lock.
    fn end_cancel(&mut self, runner: Runner) -> Ran
        ensures { (f : Frame) → left_of self.new f result
            ≡ judged self.old runner f (cancel_ends self.old []) }
    {
        if !self.owns_cancel(runner) {
            return Ran::Stays(lock_bug(BugCheck::SpinLockNotOwned, Lock::SystemCancel));
        }
        self.free_cancel()
    }

    /// The system cancel spin lock is released, and IoCancelIrp has ended.
    fn free_cancel(&mut self) -> Ran
        ensures lock { let locks = with_owner self.old.locks SystemCancel None in
            self.new ≡ with_locks self.old locks }
        ensures ran { result ≡ Ran.Gone Reply.Stepped }
    {
        self.lock_table.release(Lock::SystemCancel);
        Ran::Gone(Reply::Stepped)
    }
}
