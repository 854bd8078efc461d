//! Files whose driver sets are judged where they are read.

ghost use Rattle.std.specs.Prelude.{◌≡◌, ◌+◌, ◌<◌, ◌^◌, IfOk, OnErr, length};
ghost use denote.Param.Send.{IsSync};
ghost use Rattle.drvhost_files.specs.Reading.{AreAnswered, Opens};
ghost use Rattle.drvhost_many.specs.Held.{IsToldOf};

use crate::file::answer_held;
use cli::job::Judging;
use drvhost_devices::told::Told;
use drvhost_files::files::{Disk, Files};
use drvhost_files::reading::{Answered, Answering, Held, Way};
use std::alloc::{AllocError, Global};
use std::thread::Threads;

/// Files by their names, whose sets are judged where they are read.
pub trait JudgedFiles: Files {
    /// Reads the files of these names, each whole, by so many jobs at once, and judges the set of
    /// each where it was read: what is told of each, in order, with its name.
    ///
    /// # Errors
    ///
    /// When memory runs out before one is opened.
    fn judge_each<'n, T: Threads + Sync>(
        &mut self,
        rt: &T,
        way: Way,
        judging: Judging,
        names: &'n [String],
    ) -> Result<Vec<Answered<'n, Told>>, AllocError>
        requires shared { IsSync T.row }
        requires room { Self.opened self.old + length names.now < 2 ^ 64 }
        requires few { Self.failures self.old + length names.now < 2 ^ 64 }
        ensures read { Opens (length names.now) (Self.opened self.old) (Self.opened self.new)
            (Self.failures self.old) (Self.failures self.new)
            (λ opened reads. IfOk result (λ answered. AreAnswered way.is_told
            (Self.supply self.old) (IsToldOf judging) names.now opened reads answered.items)) }
        ensures unopened { OnErr result (Self.opened self.new ≡ Self.opened self.old) }
        ensures unread { OnErr result (Self.failures self.new ≡ Self.failures self.old) }
        ensures created { Self.created self.new ≡ Self.created self.old }
        ensures unwritten { Self.unwritten self.new ≡ Self.unwritten self.old }
        ensures supply { Self.supply self.new ≡ Self.supply self.old };
}

impl JudgedFiles for Disk<'_> {
    fn judge_each<'n, T: Threads + Sync>(
        &mut self,
        rt: &T,
        way: Way,
        judging: Judging,
        names: &'n [String],
    ) -> Result<Vec<Answered<'n, Told>>, AllocError> {
        let judge = Judge {
            alloc: way.alloc,
            judging,
        };
        self.answer_each(rt, way, names, &judge)
    }
}

/// What judges the set of a file that was read.
#[derive(Clone, Copy)]
struct Judge {
    alloc: Global,
    judging: Judging,
}

impl Answering for Judge {
    ghost use Rattle.drvhost_many.specs.Held.{IsToldOf};

    type Answer = Told;

    ghost answers = { λ judge held told. IsToldOf judge.judging held told };

    fn answer(&self, held: &Held<'_>) -> Result<Told, AllocError> {
        answer_held(self.alloc, self.judging, held)
    }
}
