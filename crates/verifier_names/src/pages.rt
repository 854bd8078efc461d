//! Each rule on a page of its own: what it says, where that is written, a short text that it
//! refuses, beside the same one mended, and the hunt that shows it. docs/RULES.md has the same.

use model::abs::Rule;
use std::alloc::{AllocError, Global};
use words::Words;

/// All rules, by their numbers: as many as the last one's says.
pub const RULES: [Rule; Rule::Memory as usize] = [
    Rule::Malformed,
    Rule::Unreachable,
    Rule::StatesDiffer,
    Rule::WrongKind,
    Rule::DoubleCompletion,
    Rule::MarkIrpPending,
    Rule::CancelSpinLock,
    Rule::SpinLock,
    Rule::LockHeld,
    Rule::Level,
    Rule::Guard,
    Rule::CancelState,
    Rule::Dropped,
    Rule::Token,
    Rule::Sort,
    Rule::Completion,
    Rule::StackTooSmall,
    Rule::NoLower,
    Rule::TooLong,
    Rule::Memory,
];

/// A short text that a rule refuses, and the same one mended: lines behind `-` stand in the first
/// alone, and lines behind `+` in the second alone.
#[derive(Clone, Copy)]
struct Example {
    text: &'static str,
    mend: &'static str,
}

/// One of the two texts of an example.
#[derive(Clone, Copy)]
enum Side {
    Refused,
    Mended,
}

impl Side {
    /// What this text has of a line of the example, if it has it.
    fn shown(self, line: &str) -> Option<&str> {
        let (own, other) = match self {
            Side::Refused => ("-", "+"),
            Side::Mended => ("+", "-"),
        };
        if line.starts_with(other) {
            return None;
        }
        Some(line.strip_prefix(own).unwrap_or(line))
    }
}

/// What a rule says, where that is written, an example of it, where a text can be one, and what a
/// hunt takes that finds a run which shows it, where there is one.
#[derive(Clone, Copy)]
struct Page {
    says: &'static str,
    source: &'static str,
    example: Option<Example>,
    shown_by: Option<&'static str>,
}

/// What a hunt takes where the refused text itself shows it.
const FIRST_TEXT: &str = "FILE, with the first of these texts in FILE";

/// What is said above the text of an example, and above the same one mended.
#[derive(Clone, Copy)]
struct Titles {
    refused: &'static str,
    mended: &'static str,
}

static REFUSAL: Titles = Titles {
    refused: "this is refused",
    mended: "this is accepted",
};

static WARNING: Titles = Titles {
    refused: "this is accepted, with a warning",
    mended: "this is accepted, without one",
};

/// The page of a rule.
fn page_of(rule: Rule) -> &'static Page {
    match rule {
        Rule::Malformed => &MALFORMED,
        Rule::Unreachable => &UNREACHABLE,
        Rule::StatesDiffer => &STATES_DIFFER,
        Rule::WrongKind => &WRONG_KIND,
        Rule::DoubleCompletion => &DOUBLE_COMPLETION,
        Rule::MarkIrpPending => &MARK_IRP_PENDING,
        Rule::CancelSpinLock => &CANCEL_SPIN_LOCK,
        Rule::SpinLock => &SPIN_LOCK,
        Rule::LockHeld => &LOCK_HELD,
        Rule::Level => &LEVEL,
        Rule::Guard => &GUARD,
        Rule::CancelState => &CANCEL_STATE,
        Rule::Dropped => &DROPPED,
        Rule::Token => &TOKEN,
        Rule::Sort => &SORT,
        Rule::Completion => &COMPLETION,
        Rule::StackTooSmall => &STACK_TOO_SMALL,
        Rule::NoLower => &NO_LOWER,
        Rule::TooLong => &TOO_LONG,
        Rule::Memory => &MEMORY,
    }
}

/// What is told of a rule behind its name: its page in words.
///
/// # Errors
///
/// When memory runs out.
pub fn rule_words(alloc: Global, rule: Rule) -> Result<String, AllocError> {
    page_words(alloc, page_of(rule), &REFUSAL)
}

/// What is told of the warning `LockOrder` behind its name, likewise.
///
/// # Errors
///
/// When memory runs out.
pub fn lock_order_words(alloc: Global) -> Result<String, AllocError> {
    page_words(alloc, &LOCK_ORDER, &WARNING)
}

/// A page in words, with these above the texts of its example.
fn page_words(alloc: Global, page: &Page, titles: &Titles) -> Result<String, AllocError> {
    let mut words = Words::new(alloc);
    add_between(&mut words, "\n", page.says, "\nsee: ");
    add_between(&mut words, "", page.source, "\n");
    if let Some(example) = &page.example {
        add_example(&mut words, example, titles);
    }
    if let Some(hunted) = page.shown_by {
        add_between(&mut words, "\nshow it: drvhost hunt ", hunted, "\n");
    }
    words.finish()
}

/// Adds both texts of an example, with these above them.
fn add_example(words: &mut Words, example: &Example, titles: &Titles) {
    add_between(words, "\n", titles.refused, ":\n\n");
    add_side(words, example.text, Side::Refused);
    add_between(words, "\nmend it: ", example.mend, "\n");
    add_between(words, "", titles.mended, ":\n\n");
    add_side(words, example.text, Side::Mended);
}

/// Adds a text between two others.
fn add_between(words: &mut Words, before: &str, text: &str, behind: &str) {
    words.add(before);
    words.add(text);
    words.add(behind);
}

/// Adds one of the two texts of an example.
fn add_side(words: &mut Words, text: &str, side: Side) {
    for line in text.lines() {
        if let Some(shown) = side.shown(line) {
            add_between(words, "", shown, "\n");
        }
    }
}

static MALFORMED: Page = Page {
    says: "A set has a device. A routine has instructions, the last of which is a `ret`; a jump
leads forward, and not into or out of a loop's body; each `loop` has its `end`, and
at most four are nested.",
    source: "nothing of the Kit: it is what makes a certificate possible",
    example: Some(Example {
        text: "driver d
dpc f
routine f dpc
const r0 0
+ret void
endr
endd
device v d 1
",
        mend: "end it with a `ret`",
    }),
    shown_by: Some(FIRST_TEXT),
};

static UNREACHABLE: Page = Page {
    says: "A path leads to each instruction.",
    source: "nothing of the Kit: what no path reaches was meant for a path that is not there",
    example: Some(Example {
        text: "driver d
routine f dpc
-ret void
ret void
endr
endd
device v d 1
",
        mend: "take it out, or jump there",
    }),
    shown_by: None,
};

static STATES_DIFFER: Page = Page {
    says: "Where two paths meet, the verifier knows the same on both: the same kinds of
registers, the same locks, the same that is still owed. At an `end` the same is known
as at its `loop`.",
    source: "nothing of the Kit. A packet that is completed on one of two paths alone is told so",
    example: Some(Example {
        text: "driver d
routine f dpc
load r0 c0
jz r0 on
const r1 1
+clear r1
on: ret void
endr
endd
device v d 1
",
        mend: "clear `r1` before the paths meet, or set it on both of them",
    }),
    shown_by: None,
};

static WRONG_KIND: Page = Page {
    says: "An operand has the kind that the instruction takes: a number, a packet, or a lower
driver's status. A register whose packet was completed or given away is blank.",
    source: "touching a packet after IoCompleteRequest, IoCallDriver or IoStartPacket; in a run, \
        bug check 0x0A for a packet that topped out, and `wrong` for a register that has no such \
        thing",
    example: Some(Example {
        text: "driver d
dpc f
routine f dpc
+const r0 1
store c0 r0
ret void
endr
endd
device v d 1
",
        mend: "set the register first",
    }),
    shown_by: Some(FIRST_TEXT),
};

static DOUBLE_COMPLETION: Page = Page {
    says: "What is completed is a packet, and not one that was completed or given away already.",
    source: "Static Driver Verifier, DoubleCompletion; IoCompleteRequest; bug check 0x44",
    example: Some(Example {
        text: "driver d
dispatch READ f
routine f dispatch
-complete r0 SUCCESS
complete r0 SUCCESS
ret SUCCESS
endr
endd
device v d 1
",
        mend: "complete it once",
    }),
    shown_by: Some(FIRST_TEXT),
};

static MARK_IRP_PENDING: Page = Page {
    says: "A dispatch routine returns STATUS_PENDING exactly if it marked its packet; what the
lower driver returned exactly if it sent the packet down without a mark; another
status only where it did neither. No packet is completed with STATUS_PENDING. A
packet that is put into a queue, or started, was marked; one that is passed on in the
same location was not, nor is one marked twice.",
    source: "Static Driver Verifier, MarkIrpPending; the Driver Kit, IoMarkIrpPending and \
        \"Returning STATUS_PENDING\"",
    example: Some(Example {
        text: "driver d
dispatch READ f
routine f dispatch
+mark r0
complete r0 SUCCESS
ret PENDING
endr
endd
device v d 1
",
        mend: "mark it before it is completed, or return the status",
    }),
    shown_by: Some(FIRST_TEXT),
};

static CANCEL_SPIN_LOCK: Page = Page {
    says: "The system cancel spin lock (`acqc`, `relc`) is acquired where it is not held,
released where it is, and not kept at a return. A cancel routine begins with it held,
and releases it.",
    source: "Static Driver Verifier, CancelSpinLock; IoAcquireCancelSpinLock, \
        IoReleaseCancelSpinLock; bug checks 0x0F and 0x10",
    example: Some(Example {
        text: "driver d
dpc f
routine f dpc
+acqc
relc
ret void
endr
endd
device v d 1
",
        mend: "acquire it first, or leave it alone",
    }),
    shown_by: Some(FIRST_TEXT),
};

static SPIN_LOCK: Page = Page {
    says: "A spin lock (`l0` to `l7`) is acquired where it is not held, released where it is,
and not kept at a return.",
    source: "Static Driver Verifier, SpinLock; KeAcquireSpinLock, KeReleaseSpinLock; bug checks \
        0x0F and 0x10",
    example: Some(Example {
        text: "driver d
dpc f
routine f dpc
acquire l0
+release l0
ret void
endr
endd
device v d 1
",
        mend: "release it on each path",
    }),
    shown_by: Some(FIRST_TEXT),
};

static LOCK_HELD: Page = Page {
    says: "No packet is completed or sent down while a lock is held.",
    source: "the Driver Kit on IoCompleteRequest and on spin locks: completion routines of the \
        drivers above, or the lower driver, may come back to the lock",
    example: Some(Example {
        text: "driver d
routine f dispatch
acquire l0
+release l0
complete r0 SUCCESS
-release l0
ret SUCCESS
endr
endd
device v d 1
",
        mend: "release the lock first",
    }),
    shown_by: None,
};

static LEVEL: Page = Page {
    says: "A paged cell (`p0` to `p15`) is touched by a dispatch routine alone, while it holds
no lock. All others may run at DISPATCH_LEVEL.",
    source: "the Driver Kit on IRQL; bug check 0x0A",
    example: Some(Example {
        text: "driver d
dpc f
routine f dpc
-loadp r0 p0
+load r0 c0
ret void
endr
endd
device v d 1
",
        mend: "use a cell that is not paged, or touch it in a dispatch routine before the lock",
    }),
    shown_by: Some(FIRST_TEXT),
};

static GUARD: Page = Page {
    says: "`insert`, `remove`, `unlink` and `arm` stand where the lock of their queue is held.
Where the device queue has a cancel routine, `start`, `next` and `dequeue` stand where
the system cancel spin lock is held. A guard is not released while a register has a
packet that may still be cancelled behind its back: one that is listed, or taken off
and not disarmed, or one that is being cancelled and stands in the device queue.",
    source: "the Driver Kit on driver-managed IRP queues and their spin locks",
    example: Some(Example {
        text: "driver d
queue q l0
routine f dispatch
mark r0
+acquire l0
insert r0 q
+release l0
ret PENDING
endr
endd
device v d 1
",
        mend: "acquire the lock round it",
    }),
    shown_by: Some("examples/guide/step-5-wrong.drv"),
};

static CANCEL_STATE: Page = Page {
    says: "A packet of a queue with a cancel routine is the routine's own, to be completed or
moved, only when that is settled: after `unlink` by one who listed it or by the
cancel routine, after `dequeue` by the cancel routine of the device queue, or after a
`disarm` that found the cancel routine still set. A second packet of such a queue is
not taken while a register names it.",
    source: "the Driver Kit on IoSetCancelRoutine and on cancel routines: who gets NULL leaves the \
        packet to the cancel routine; bug checks 0x44, 0x48 and 0x0A",
    example: Some(Example {
        text: "driver d
queue q l0 f
routine f cancel
relc
+acquire l0
+unlink r0 q
+release l0
complete r0 CANCELLED
ret void
endr
endd
device v d 1
",
        mend: "let the cancel routine take its packet off the queue, under the queue's lock",
    }),
    shown_by: Some("examples/race.drv"),
};

static DROPPED: Page = Page {
    says: "No packet is lost: at a return no register has one, and none is written over.",
    source: "the Driver Kit on dispatch routines: a packet is completed, passed on, or marked \
        pending and kept",
    example: Some(Example {
        text: "driver d
dispatch READ f
routine f dispatch
+complete r0 SUCCESS
ret SUCCESS
endr
endd
device v d 1
",
        mend: "complete it",
    }),
    shown_by: Some(FIRST_TEXT),
};

static TOKEN: Page = Page {
    says: "A busy device has one token: a StartIo routine begins with it, and a DPC routine gets
it by `take`. Who has it begins a packet (`begin`) or starts the next one (`next`)
before it returns, once. Who has none does neither, and who has it takes no second
one.",
    source: "IoStartPacket, IoStartNextPacket and StartIo routines: a device that is left busy \
        starts no packet any more",
    example: Some(Example {
        text: "driver d
routine f startio
+next
complete r0 SUCCESS
ret void
endr
endd
device v d 1
",
        mend: "start the `next` packet, before the completion or after it",
    }),
    shown_by: Some("--stuck examples/stuck.drv"),
};

static SORT: Page = Page {
    says: "Each sort of routine has its forms of return: `ret STATUS` and `ret lower` for
dispatch, `ret continue` for propagate and hold, `ret stop` for hold, `ret void` for
the others. `take` is for DPC routines, `pass` and `call` for dispatch routines,
`start` for drivers that have a StartIo routine, `dequeue` for those whose device
queue has a cancel routine. Each cancel routine is that of exactly one queue or
`startio` line; another one is told at its first position.",
    source: "the Driver Kit on each sort of routine",
    example: Some(Example {
        text: "driver d
dispatch READ f
routine f dispatch
complete r0 SUCCESS
-ret void
+ret SUCCESS
endr
endd
device v d 1
",
        mend: "return as the sort does",
    }),
    shown_by: Some(FIRST_TEXT),
};

static COMPLETION: Page = Page {
    says: "A completion routine neither completes nor sends down. One that lets the completion
go on (`propagate`) looks at PendingReturned, once, and marks the packet exactly
where it is set. One that may hold its packet (`hold`) marks it before it keeps it,
returns `ret stop` then, and `ret continue` where it did nothing. A packet that was
not marked is not sent down with a `hold` routine.",
    source: "the Driver Kit on IoCompletion routines, IoMarkIrpPending and \
        STATUS_MORE_PROCESSING_REQUIRED",
    example: Some(Example {
        text: "driver d
routine f propagate
+ifpending r0 set
+ret continue
+set: mark r0
ret continue
endr
endd
device v d 1
",
        mend: "carry the mark up",
    }),
    shown_by: Some("examples/forgets.drv"),
};

static STACK_TOO_SMALL: Page = Page {
    says: "Where a driver calls (`call`), each of its devices has at least one stack location
more than the device under it; where it passes on (`pass`), at least as many.",
    source: "the Driver Kit on I/O stack locations and StackSize; bug check 0x35",
    example: Some(Example {
        text: "driver disk
endd
driver filter
dispatch READ f
routine f dispatch
call r0
ret lower r0
endr
endd
device low disk 1
-device up filter 1 low
+device up filter 2 low
",
        mend: "give the device one location for itself and those of the lower one",
    }),
    shown_by: Some(FIRST_TEXT),
};

static NO_LOWER: Page = Page {
    says: "Where a driver passes on or calls, each of its devices stands over another one.",
    source: "the Driver Kit on IoCallDriver; a run stops there with `wrong`",
    example: Some(Example {
        text: "-driver d
+driver disk
+endd
+driver filter
dispatch READ f
routine f dispatch
pass r0
ret lower r0
endr
endd
-device v d 1
+device low disk 1
+device up filter 1 low
",
        mend: "name the lower device, which has a driver of its own",
    }),
    shown_by: Some(FIRST_TEXT),
};

static TOO_LONG: Page = Page {
    says: "A routine's certificate, how many instructions it executes at most, is at most
1,000,000. Each instruction counts as often as the turns of the loops round it,
multiplied. What is told is the position at which the sum passes that.",
    source: "nothing of the Kit by number: what takes long belongs to several activations",
    example: Some(Example {
        text: "driver d
routine f dpc
loop 1000
-loop 1000
+loop 100
end
end
ret void
endr
endd
device v d 1
",
        mend: "take fewer turns",
    }),
    shown_by: None,
};

static MEMORY: Page = Page {
    says: "The verifier found no memory. The program tells it as `out of memory` on standard
error, with status 3, and says nothing of the set. No text mends it.",
    source: "nothing of the Kit: it is no fault of the set",
    example: None,
    shown_by: None,
};

static LOCK_ORDER: Page = Page {
    says: "Each driver takes its locks in one order: its spin locks and the system cancel spin
lock stand in an order, and none of them is acquired while a later one is held. Else
threads that run its routines for one device may wait for each other for ever. This
is a warning and no rule of the verdict: a set whose driver takes them in a cycle is
accepted all the same, since a cycle needn't ever be a ring of threads.",
    source: "the Driver Kit on preventing deadlocks while using spin locks; Driver Verifier, \
        Deadlock Detection; bug check 0xC4",
    example: Some(Example {
        text: "driver d
dispatch READ f
dispatch WRITE g
routine f dispatch
acquire l0
acquire l1
release l1
release l0
complete r0 SUCCESS
ret SUCCESS
endr
routine g dispatch
+acquire l0
acquire l1
-acquire l0
+release l1
release l0
-release l1
complete r0 SUCCESS
ret SUCCESS
endr
endd
device v d 1
",
        mend: "acquire them in one order in both routines",
    }),
    shown_by: Some(FIRST_TEXT),
};
