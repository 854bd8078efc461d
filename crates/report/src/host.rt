//! The lines of a host's run: commands that no worker took, and the verdict on its history.

ghost use Rattle.std.specs.Prelude.{◌≡◌, ◌++◌};
ghost use Rattle.report.specs.Host.{agrees_line, left_line};
ghost use Rattle.report.specs.Lines.{HasRoom};

use crate::event_number::EventNumber;
use crate::lines::Lines;

impl Lines {
    /// Adds the line of the command of a number that no worker took: the number, and that it is
    /// left.
    pub fn left(&mut self, number: &EventNumber)
        requires { HasRoom self.old }
        ensures { self.new ≡ self.old ++ left_line number.now }
    {
        self.event_number(number);
        self.text(b" left\n");
    }

    /// Adds the line of a history of so many entries that the replay of its events agrees with.
    pub fn agrees(&mut self, entries: usize)
        requires { HasRoom self.old }
        ensures { self.new ≡ self.old ++ agrees_line entries }
    {
        self.text(b"history ");
        self.number(entries as u64);
        self.text(b" agrees\n");
    }
}
