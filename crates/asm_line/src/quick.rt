//! Lines of instructions in their usual form, read in one pass: most lines of a driver text have
//! it.

ghost use Rattle.std.specs.Prelude.{◌≡◌, IfSome, None, Ok, Some};
ghost use Rattle.model.specs.Sound.{queue_named};
ghost use Rattle.asm_line.specs.Line.{read_line, BodyFits};
ghost use Rattle.asm_line.specs.Plain.{plain_line, unnamed};
ghost use Rattle.asm_line.specs.Usual.{with_label, with_queue, with_routine, ReadsStep};
ghost use Rattle.asm_line.specs.declared.line.Body.TheVariants.{Step};

use crate::operands::{
    behind, register_behind, register_label_behind, register_queue_behind, registers_behind,
};
use crate::{Body, Line, UsedNames};
use model::instr::{Instr, Return};
use text::class::is_name;
use text::head::{after_word, word_at_head};
use text::piece::Piece;

/// The instruction of a line in the usual form, if the line has no label and uses no name: a word
/// and its operands, each after one space, with numbers in decimal digits and in range, and nothing
/// behind them.
#[tactic(auto, using(crate::proofs::Plain::unlabelled_line))]
pub fn plain_line(raw: &[u8]) -> Option<Instr>
    ensures line { IfSome result (λ i. read_line raw.now ≡ Ok (plain_line i)) }
    ensures fits { IfSome result (λ i. BodyFits (plain_line i).body) }
{
    let instr = plain(raw)?;
    Some(instr)
}

/// The line of these bytes, if it has the usual form, and a label or an instruction that uses a
/// name.
#[tactic(auto, using(crate::proofs::Plain::unlabelled_line))]
pub fn named_line<'a>(raw: &'a [u8]) -> Option<Line<'a>>
    ensures line { IfSome result (λ line. read_line raw.now ≡ Ok line) }
    ensures fits { IfSome result (λ line. BodyFits line.body) }
{
    if !matches!(*raw.first()?, b'a'..=b'z' | b'_') {
        return None;
    }
    match naming(raw) {
        Some(body) => Some(Line { label: None, body }),
        None => labelled(raw),
    }
}

/// A step that has a label.
#[tactic(auto, using(crate::proofs::Plain::labelled_line))]
fn labelled<'a>(raw: &'a [u8]) -> Option<Line<'a>>
    ensures line { IfSome result (λ line. read_line raw.now ≡ Ok line) }
    ensures fits { IfSome result (λ line. BodyFits line.body) }
{
    let label = word_at_head(raw);
    if !is_name(label.word) {
        return None;
    }
    let body = step(after_word(label.rest, b": ")?)?;
    Some(Line {
        label: Some(Piece::of(label.word)),
        body,
    })
}

/// What an instruction's word and its operands say.
fn step<'a>(bytes: &'a [u8]) -> Option<Body<'a>>
    ensures read { IfSome result (ReadsStep bytes.now) }
    ensures fits { IfSome result BodyFits }
{
    match plain(bytes) {
        Some(instr) => Some(unnamed(instr)),
        None => naming(bytes),
    }
}

/// An instruction that uses no name. Inlined, since its answer would go through memory.
#[inline(always)]
fn plain(bytes: &[u8]) -> Option<Instr>
    ensures read { IfSome result (λ i. ReadsStep bytes.now (Step (Some i) unnamed)) }
    ensures fits { IfSome result (λ i. BodyFits (Step (Some i) unnamed)) }
{
    match *bytes.first()? {
        b'a' => read_add_or_acquire(bytes),
        b'b' => read_begin(bytes),
        b'c' => read_const_clear_complete_call(bytes),
        b'd' => read_dequeue(bytes),
        b'e' => read_end(bytes),
        b'g' => read_get(bytes),
        b'l' => read_loop_or_load(bytes),
        b'm' => read_mov_or_mark(bytes),
        b'n' => read_next(bytes),
        b'p' => read_put_or_pass(bytes),
        b'r' => read_ret_or_release(bytes),
        b's' => read_store_sub_or_start(bytes),
        _ => None,
    }
}

/// An instruction that uses a name.
fn naming<'a>(bytes: &'a [u8]) -> Option<Body<'a>>
    ensures read { IfSome result (ReadsStep bytes.now) }
    ensures fits { IfSome result BodyFits }
{
    match *bytes.first()? {
        b'a' => read_arm(bytes),
        b'c' => read_call_of_routine(bytes),
        b'd' => read_disarm(bytes),
        b'i' => read_insert_or_if(bytes),
        b'j' => read_jump(bytes),
        b'r' => read_remove(bytes),
        b't' => read_take(bytes),
        b'u' => read_unlink(bytes),
        _ => None,
    }
}

/// `add`, `acquire` or `acqc`.
fn read_add_or_acquire(bytes: &[u8]) -> Option<Instr>
    ensures read { IfSome result (λ i. ReadsStep bytes.now (Step (Some i) unnamed)) }
    ensures fits { IfSome result (λ i. BodyFits (Step (Some i) unnamed)) }
{
    if let Some(two) = registers_behind(bytes, b"add") {
        return Some(Instr::Add(two.0, two.1));
    }
    if let Some(mut at) = behind(bytes, b"acquire") {
        let lock = at.spin_lock()?;
        at.end()?;
        return Some(Instr::Acquire(lock));
    }
    if let Some(at) = behind(bytes, b"acqc") {
        at.end()?;
        return Some(Instr::AcquireCancel);
    }
    None
}

/// `begin`.
fn read_begin(bytes: &[u8]) -> Option<Instr>
    ensures read { IfSome result (λ i. ReadsStep bytes.now (Step (Some i) unnamed)) }
    ensures fits { IfSome result (λ i. BodyFits (Step (Some i) unnamed)) }
{
    if let Some(register) = register_behind(bytes, b"begin") {
        return Some(Instr::Begin(register));
    }
    None
}

/// `const`, `clear`, `complete`, or a `call` that sets no routine.
fn read_const_clear_complete_call(bytes: &[u8]) -> Option<Instr>
    ensures read { IfSome result (λ i. ReadsStep bytes.now (Step (Some i) unnamed)) }
    ensures fits { IfSome result (λ i. BodyFits (Step (Some i) unnamed)) }
{
    if let Some(mut at) = behind(bytes, b"const") {
        let register = at.register()?;
        let constant = at.constant()?;
        at.end()?;
        return Some(Instr::Const(register, constant));
    }
    if let Some(register) = register_behind(bytes, b"clear") {
        return Some(Instr::Clear(register));
    }
    if let Some(mut at) = behind(bytes, b"complete") {
        let register = at.register()?;
        let status = at.status()?;
        at.end()?;
        return Some(Instr::Complete(register, status));
    }
    if let Some(register) = register_behind(bytes, b"call") {
        return Some(Instr::Call(register, None));
    }
    None
}

/// `dequeue`.
fn read_dequeue(bytes: &[u8]) -> Option<Instr>
    ensures read { IfSome result (λ i. ReadsStep bytes.now (Step (Some i) unnamed)) }
    ensures fits { IfSome result (λ i. BodyFits (Step (Some i) unnamed)) }
{
    if let Some(register) = register_behind(bytes, b"dequeue") {
        return Some(Instr::Dequeue(register));
    }
    None
}

/// `end`.
fn read_end(bytes: &[u8]) -> Option<Instr>
    ensures read { IfSome result (λ i. ReadsStep bytes.now (Step (Some i) unnamed)) }
    ensures fits { IfSome result (λ i. BodyFits (Step (Some i) unnamed)) }
{
    if let Some(at) = behind(bytes, b"end") {
        at.end()?;
        return Some(Instr::End);
    }
    None
}

/// `get`.
fn read_get(bytes: &[u8]) -> Option<Instr>
    ensures read { IfSome result (λ i. ReadsStep bytes.now (Step (Some i) unnamed)) }
    ensures fits { IfSome result (λ i. BodyFits (Step (Some i) unnamed)) }
{
    if let Some(mut at) = behind(bytes, b"get") {
        let register = at.register()?;
        let other = at.register()?;
        let field = at.field()?;
        at.end()?;
        return Some(Instr::Get(register, other, field));
    }
    None
}

/// `loop`, `loadp` or `load`.
fn read_loop_or_load(bytes: &[u8]) -> Option<Instr>
    ensures read { IfSome result (λ i. ReadsStep bytes.now (Step (Some i) unnamed)) }
    ensures fits { IfSome result (λ i. BodyFits (Step (Some i) unnamed)) }
{
    if let Some(mut at) = behind(bytes, b"loop") {
        let turns = at.turns()?;
        at.end()?;
        return Some(Instr::Loop(turns));
    }
    if let Some(mut at) = behind(bytes, b"loadp") {
        let register = at.register()?;
        let cell = at.paged_cell()?;
        at.end()?;
        return Some(Instr::LoadPaged(register, cell));
    }
    if let Some(mut at) = behind(bytes, b"load") {
        let register = at.register()?;
        let cell = at.cell()?;
        at.end()?;
        return Some(Instr::Load(register, cell));
    }
    None
}

/// `mov` or `mark`.
fn read_mov_or_mark(bytes: &[u8]) -> Option<Instr>
    ensures read { IfSome result (λ i. ReadsStep bytes.now (Step (Some i) unnamed)) }
    ensures fits { IfSome result (λ i. BodyFits (Step (Some i) unnamed)) }
{
    if let Some(two) = registers_behind(bytes, b"mov") {
        return Some(Instr::Move(two.0, two.1));
    }
    if let Some(register) = register_behind(bytes, b"mark") {
        return Some(Instr::Mark(register));
    }
    None
}

/// `next`.
fn read_next(bytes: &[u8]) -> Option<Instr>
    ensures read { IfSome result (λ i. ReadsStep bytes.now (Step (Some i) unnamed)) }
    ensures fits { IfSome result (λ i. BodyFits (Step (Some i) unnamed)) }
{
    if let Some(at) = behind(bytes, b"next") {
        at.end()?;
        return Some(Instr::Next);
    }
    None
}

/// `put` or `pass`.
fn read_put_or_pass(bytes: &[u8]) -> Option<Instr>
    ensures read { IfSome result (λ i. ReadsStep bytes.now (Step (Some i) unnamed)) }
    ensures fits { IfSome result (λ i. BodyFits (Step (Some i) unnamed)) }
{
    if let Some(two) = registers_behind(bytes, b"put") {
        return Some(Instr::Put(two.0, two.1));
    }
    if let Some(register) = register_behind(bytes, b"pass") {
        return Some(Instr::Pass(register));
    }
    None
}

/// `ret`, `release` or `relc`.
fn read_ret_or_release(bytes: &[u8]) -> Option<Instr>
    ensures read { IfSome result (λ i. ReadsStep bytes.now (Step (Some i) unnamed)) }
    ensures fits { IfSome result (λ i. BodyFits (Step (Some i) unnamed)) }
{
    if let Some(register) = register_behind(bytes, b"ret lower") {
        return Some(Instr::Ret(Return::Lower(register)));
    }
    if let Some(mut at) = behind(bytes, b"ret") {
        let returned = at.returned()?;
        at.end()?;
        return Some(Instr::Ret(returned));
    }
    if let Some(mut at) = behind(bytes, b"release") {
        let lock = at.spin_lock()?;
        at.end()?;
        return Some(Instr::Release(lock));
    }
    if let Some(at) = behind(bytes, b"relc") {
        at.end()?;
        return Some(Instr::ReleaseCancel);
    }
    None
}

/// `store`, `storep`, `sub` or `start`.
fn read_store_sub_or_start(bytes: &[u8]) -> Option<Instr>
    ensures read { IfSome result (λ i. ReadsStep bytes.now (Step (Some i) unnamed)) }
    ensures fits { IfSome result (λ i. BodyFits (Step (Some i) unnamed)) }
{
    if let Some(mut at) = behind(bytes, b"storep") {
        let cell = at.paged_cell()?;
        let register = at.register()?;
        at.end()?;
        return Some(Instr::StorePaged(cell, register));
    }
    if let Some(two) = registers_behind(bytes, b"sub") {
        return Some(Instr::Subtract(two.0, two.1));
    }
    if let Some(register) = register_behind(bytes, b"start") {
        return Some(Instr::Start(register));
    }
    if let Some(mut at) = behind(bytes, b"store") {
        let cell = at.cell()?;
        let register = at.register()?;
        at.end()?;
        return Some(Instr::Store(cell, register));
    }
    None
}

/// `arm`.
fn read_arm<'a>(bytes: &'a [u8]) -> Option<Body<'a>>
    ensures read { IfSome result (ReadsStep bytes.now) }
    ensures fits { IfSome result BodyFits }
{
    if let Some(two) = register_queue_behind(bytes, b"arm") {
        return Some(queued(Instr::Arm(two.0, 0), two.1));
    }
    None
}

/// A `call` that sets a routine.
fn read_call_of_routine<'a>(bytes: &'a [u8]) -> Option<Body<'a>>
    ensures read { IfSome result (ReadsStep bytes.now) }
    ensures fits { IfSome result BodyFits }
{
    if let Some(mut at) = behind(bytes, b"call") {
        let register = at.register()?;
        let routine = at.called()?;
        at.end()?;
        return Some(calling(Instr::Call(register, None), routine));
    }
    None
}

/// `disarm`.
fn read_disarm<'a>(bytes: &'a [u8]) -> Option<Body<'a>>
    ensures read { IfSome result (ReadsStep bytes.now) }
    ensures fits { IfSome result BodyFits }
{
    if let Some(two) = register_label_behind(bytes, b"disarm") {
        return Some(jump(Instr::Disarm(two.0, 0), two.1));
    }
    None
}

/// `insert`, `ifcancel` or `ifpending`.
fn read_insert_or_if<'a>(bytes: &'a [u8]) -> Option<Body<'a>>
    ensures read { IfSome result (ReadsStep bytes.now) }
    ensures fits { IfSome result BodyFits }
{
    if let Some(two) = register_queue_behind(bytes, b"insert") {
        return Some(queued(Instr::Insert(two.0, 0), two.1));
    }
    if let Some(two) = register_label_behind(bytes, b"ifcancel") {
        return Some(jump(Instr::IfCancel(two.0, 0), two.1));
    }
    if let Some(two) = register_label_behind(bytes, b"ifpending") {
        return Some(jump(Instr::IfPending(two.0, 0), two.1));
    }
    None
}

/// `jz`, `jlt` or `jmp`.
fn read_jump<'a>(bytes: &'a [u8]) -> Option<Body<'a>>
    ensures read { IfSome result (ReadsStep bytes.now) }
    ensures fits { IfSome result BodyFits }
{
    if let Some(two) = register_label_behind(bytes, b"jz") {
        return Some(jump(Instr::JumpIfZero(two.0, 0), two.1));
    }
    if let Some(mut at) = behind(bytes, b"jlt") {
        let register = at.register()?;
        let other = at.register()?;
        let label = at.label()?;
        at.end()?;
        return Some(jump(Instr::JumpIfLess(register, other, 0), label));
    }
    if let Some(mut at) = behind(bytes, b"jmp") {
        let label = at.label()?;
        at.end()?;
        return Some(jump(Instr::Jump(0), label));
    }
    None
}

/// `remove`.
fn read_remove<'a>(bytes: &'a [u8]) -> Option<Body<'a>>
    ensures read { IfSome result (ReadsStep bytes.now) }
    ensures fits { IfSome result BodyFits }
{
    if let Some(mut at) = behind(bytes, b"remove") {
        let register = at.register()?;
        let queue = at.queue()?;
        let label = at.label()?;
        at.end()?;
        return Some(removing(Instr::Remove(register, 0, 0), queue, label));
    }
    None
}

/// `take`.
fn read_take<'a>(bytes: &'a [u8]) -> Option<Body<'a>>
    ensures read { IfSome result (ReadsStep bytes.now) }
    ensures fits { IfSome result BodyFits }
{
    if let Some(two) = register_label_behind(bytes, b"take") {
        return Some(jump(Instr::Take(two.0, 0), two.1));
    }
    None
}

/// `unlink`.
fn read_unlink<'a>(bytes: &'a [u8]) -> Option<Body<'a>>
    ensures read { IfSome result (ReadsStep bytes.now) }
    ensures fits { IfSome result BodyFits }
{
    if let Some(two) = register_queue_behind(bytes, b"unlink") {
        return Some(queued(Instr::Unlink(two.0, 0), two.1));
    }
    None
}

/// A step that uses no name.
pub fn unnamed<'a>(instr: Instr) -> Body<'a>
    ensures { result ≡ Step (Some instr) unnamed }
{
    Body::Step(
        Some(instr),
        UsedNames {
            label: None,
            routine: None,
            queue: None,
        },
    )
}

/// An instruction that jumps to a label.
fn jump<'a>(instr: Instr, label: Piece<'a>) -> Body<'a>
    ensures { result ≡ Step (Some instr) (with_label label.entry unnamed) }
{
    Body::Step(
        Some(instr),
        UsedNames {
            label: Some(label),
            routine: None,
            queue: None,
        },
    )
}

/// An instruction that touches a queue.
fn queued<'a>(instr: Instr, queue: Piece<'a>) -> Body<'a>
    ensures { result ≡ Step (Some instr) (with_queue queue.entry unnamed) }
{
    Body::Step(
        Some(instr),
        UsedNames {
            label: None,
            routine: None,
            queue: Some(queue),
        },
    )
}

/// An instruction that touches a queue, and jumps to a label.
fn removing<'a>(instr: Instr, queue: Piece<'a>, label: Piece<'a>) -> Body<'a>
    ensures { result ≡ Step (Some instr) (with_label label.entry (with_queue queue.entry unnamed)) }
{
    Body::Step(
        Some(instr),
        UsedNames {
            label: Some(label),
            routine: None,
            queue: Some(queue),
        },
    )
}

/// An instruction that sets a routine.
fn calling<'a>(instr: Instr, routine: Piece<'a>) -> Body<'a>
    ensures { result ≡ Step (Some instr) (with_routine routine.entry unnamed) }
{
    Body::Step(
        Some(instr),
        UsedNames {
            label: None,
            routine: Some(routine),
            queue: None,
        },
    )
}
