//! The lines of a verdict.

ghost use Rattle.std.specs.Prelude.{◌≡◌, ◌++◌};
ghost use Rattle.report.specs.Lines.{HasRoom};
ghost use Rattle.report.specs.Verdict.{accepted_line, certificate_line, refusal_line};

use crate::lines::Lines;
use model::abs::Refusal;
use model::set::Sort;

impl Lines {
    /// Adds the first line for an accepted set. A line for each of its routines follows.
    pub fn accepted(&mut self)
        requires { HasRoom self.old }
        ensures { self.new ≡ self.old ++ accepted_line }
    {
        self.text(b"accepted\n");
    }

    /// Adds the line of a routine of an accepted set: where it stands, its sort, and its
    /// certificate, which is how many instructions an activation of it executes at most.
    pub fn certificate(&mut self, driver: u8, routine: u8, sort: Sort, certificate: u32)
        requires { HasRoom self.old }
        ensures { self.new ≡ self.old ++ certificate_line driver routine sort certificate }
    {
        self.text(b"driver ");
        self.number(driver as u64);
        self.text(b" routine ");
        self.number(routine as u64);
        self.text(b" ");
        self.text(sort.as_str().as_bytes());
        self.text(b" certificate ");
        self.number(certificate as u64);
        self.text(b"\n");
    }

    /// Adds the one line for a refused set: the rule that it breaks, and where.
    pub fn refusal(&mut self, refusal: &Refusal)
        requires { HasRoom self.old }
        ensures { self.new ≡ self.old ++ refusal_line refusal.now }
    {
        let Refusal {
            driver,
            routine,
            at,
            rule,
        } = *refusal;
        self.text(b"refused ");
        self.text(rule.as_str().as_bytes());
        self.text(b" driver ");
        self.number(driver as u64);
        self.text(b" routine ");
        self.number(routine as u64);
        self.text(b" at ");
        self.number(at as u64);
        self.text(b"\n");
    }
}
