//! The lines of the replies of a run, as a form has them gather before they are written.

ghost use Rattle.std.specs.Prelude.{◌≡◌, ◌+◌, ◌++◌, ◌<◌, ◌≤◌, ◌^◌, ℕ, List, [], IfOk, OnErr, OnOk};
ghost use Rattle.std.specs.Prelude.{false, replicate};
ghost use Rattle.model.specs.declared.event.Reply.{Reply};
ghost use Rattle.answer_runs.specs.Traced.{lines_by};

use model::event::Reply;
use std::alloc::AllocError;

/// Lines of the replies of a run, one for each event, by its number.
pub trait ReplyLines {
    // The line of the reply to the event of a number.
    ghost line: { ℕ → Reply → List ℕ };

    // Memory may run out while lines gather.
    ghost lacks: { Type 0 };

    // The number of the event that comes next.
    ghost number: { Self → ℕ };

    // The lines that have gathered.
    ghost gathered: { Self → List ℕ };

    // There is room for one line more.
    ghost has_room: { Self → Type 0 };

    /// Whether what has gathered has to be written before more is added.
    fn is_full(&self) -> bool
        ensures { result ≡ false → has_room self.now };

    /// The bytes of the lines.
    fn bytes(&self) -> &[u8]
        ensures { result.now ≡ gathered self.now };

    /// Forgets the lines.
    fn clear(&mut self)
        ensures number { number self.new ≡ number self.old }
        ensures gathered { gathered self.new ≡ [] }
        ensures room { has_room self.new };

    /// Adds the lines of the first of so many events that come next and all have this reply. Answers
    /// of how many: of one at least.
    ///
    /// # Errors
    ///
    /// When memory runs out.
    fn put(&mut self, reply: &Reply, count: u64) -> Result<u64, AllocError>
        requires some { 1 ≤ count }
        requires numbers { number self.old + count < 2 ^ 64 }
        requires room { has_room self.old }
        ensures some { IfOk result (λ told. 1 ≤ told) }
        ensures few { IfOk result (λ told. told ≤ count) }
        ensures number { IfOk result (λ told. number self.new ≡ number self.old + told) }
        ensures added { IfOk result (λ told. gathered self.new
            ≡ gathered self.old ++ lines_by line (number self.old) (replicate told reply.now)) }
        ensures lacks { OnErr result lacks };
}
