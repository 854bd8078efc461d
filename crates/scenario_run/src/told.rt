//! What the replies of a run told, as far as a scenario asks for it.

ghost use Rattle.std.specs.Prelude.{◌<◌, ◌≡◌, ◌∷◌, [], IsTrue, List, OnOk, replicate, vec_len};
ghost use Rattle.std.specs.List.{list_any};
ghost use Rattle.std.specs.Vec.{vec_capacity};
ghost use Rattle.model.specs.declared.event.Reply.{Reply};
ghost use Rattle.model.specs.declared.event.Reply.TheVariants.{Stepped};
ghost use Rattle.model.specs.History.{top_out_of};
ghost use Rattle.model.specs.Words.{bug_check_code};
ghost use Rattle.scenario_run.specs.Alike.{TellAlike};
ghost use Rattle.scenario_run.specs.Holding.{is_bug};
ghost use Rattle.scenario_run.specs.Told.{Adds, AddsBug, AreTold, HasRoom, bug_told};
ghost use Rattle.scenario_run.specs.Walking.{replied};

use crate::tops::{make_room, note_top, same_tops, top_at};
use crate::walking::Walked;
use indexmap::IndexMap;
use model::event::{BugCheck, Reply};
use model::history::TopOut;
use std::alloc::{AllocError, Global};

/// What the replies of a run told.
#[derive(Drop)]
pub struct Told {
    /// The last reply.
    pub last: Option<Reply>,
    /// The numbers of bug checks.
    pub bugs: Vec<u8>,
    /// How packets have topped out, by their numbers.
    pub tops: IndexMap<u64, TopOut>,
}

impl Told {
    /// By no reply.
    #[tactic(auto, using(crate::proofs::Topping::tops_none))]
    pub(crate) fn new(alloc: Global) -> Told
        ensures { AreTold result [] }
    {
        Told {
            last: None,
            bugs: Vec::new(alloc),
            tops: IndexMap::new(alloc),
        }
    }

    /// Makes room for what one more reply tells.
    pub(crate) fn make_room(&mut self) -> Result<(), AllocError>
        ensures room { OnOk result (HasRoom self.new) }
        ensures same { (told : List Reply) → AreTold self.old told → AreTold self.new told }
    {
        self.bugs.reserve(1)?;
        make_room(&mut self.tops, 1)
    }

    /// Makes room for how so many packets more top out.
    pub(crate) fn make_room_for(&mut self, packets: usize) -> Result<(), AllocError>
        ensures { (told : List Reply) → AreTold self.old told → AreTold self.new told }
    {
        make_room(&mut self.tops, packets)
    }

    /// Notes a reply more.
    pub(crate) fn note(&mut self, reply: &Reply)
        requires { HasRoom self.old }
        ensures { Adds self.old (reply.now ∷ []) self.new }
    {
        self.last = Some(*reply);
        note_bug(&mut self.bugs, reply);
        note_top(&mut self.tops, reply);
    }

    /// Notes the replies to steps of a thread.
    #[tactic(auto, using(crate::proofs::Telling::told_behind))]
    pub(crate) fn note_walk(&mut self, walked: &Walked)
        requires { HasRoom self.old }
        ensures { Adds self.old (replied walked.now.made walked.now.last) self.new }
    {
        self.note_steps(walked.made);
        if let Some(reply) = &walked.last {
            self.note(reply);
        }
    }

    /// Notes that a thread stepped, so many times more.
    fn note_steps(&mut self, count: usize)
        requires { HasRoom self.old }
        ensures adds { Adds self.old (replicate count Stepped) self.new }
        ensures room { HasRoom self.new }
    {
        if count > 0 {
            self.last = Some(Reply::Stepped);
        }
    }

    /// Whether a bug check has this number.
    pub(crate) fn has_bug(&self, number: u8) -> bool
        ensures { (told : List Reply) → AreTold self.now told
            → result ≡ list_any (is_bug number) told }
    {
        self.bugs.as_slice().contains(&number)
    }

    /// How the packet of a number has topped out, if it has.
    pub(crate) fn top_out(&self, number: u64) -> Option<TopOut>
        ensures { (told : List Reply) → AreTold self.now told → result ≡ top_out_of told number }
    {
        top_at(&self.tops, number)
    }

    /// Whether it is what the replies of another run told, as far as both may go on.
    #[tactic(auto, using(crate::proofs::Alike::told_alike))]
    pub(crate) fn is_alike(&self, other: &Told) -> bool
        ensures { IsTrue result → (told others : List Reply)
            → AreTold self.now told → AreTold other.now others → TellAlike told others }
    {
        if !self.bugs.is_empty() {
            return false;
        }
        if !other.bugs.is_empty() {
            return false;
        }
        let same = same_tops(&self.tops, &other.tops);
        same
    }
}

/// Notes the number of a bug check where a reply tells one.
fn note_bug(bugs: &mut Vec<u8>, reply: &Reply)
    requires { vec_len bugs.old < vec_capacity bugs.old }
    ensures { AddsBug bugs.old.items reply.now bugs.new.items }
{
    let Some(number) = bug_of(reply) else {
        return;
    };
    bugs.push_reserved(number);
}

/// The number of the bug check that a reply tells, if it does.
fn bug_of(reply: &Reply) -> Option<u8>
    ensures { result ≡ bug_told reply.now }
{
    match reply {
        Reply::Bug(bug) => Some(code_of(bug.check)),
        _ => None,
    }
}

/// The number of a bug check in the bug check reference.
fn code_of(check: BugCheck) -> u8
    ensures { result ≡ bug_check_code check }
{
    match check {
        BugCheck::IrqlNotLessOrEqual => 0x0A,
        BugCheck::SpinLockAlreadyOwned => 0x0F,
        BugCheck::SpinLockNotOwned => 0x10,
        BugCheck::NoMoreIrpStackLocations => 0x35,
        BugCheck::MultipleIrpCompleteRequests => 0x44,
        BugCheck::CancelStateInCompletedIrp => 0x48,
    }
}
