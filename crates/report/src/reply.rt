//! The lines of a trace.

ghost use Rattle.std.specs.Prelude.{◌≡◌, ◌+◌, ◌≤◌, ◌++◌, ◌∷◌, [], codes, decimal, length};
ghost use Rattle.model.specs.Words.{bug_check_text};
ghost use Rattle.report.specs.Lines.{HasRoom};
ghost use Rattle.report.specs.Line.{line_of};
ghost use Rattle.report.specs.Reply.{of_device_text, reply_line, subject_words};

use crate::event_number::EventNumber;
use crate::lines::{Lines, ROOM};
use crate::word::Word;
use model::event::{Bug, Lock, OfDevice, Place, Reply, Subject};
use model::status::Status;

/// Bytes of what a bug check is about, at most.
const LONGEST_SUBJECT: usize = 70;

/// Bytes of a spin lock or a cell of a device, at most.
const LONGEST_OF_DEVICE: usize = 60;

impl Lines {
    /// Adds the line of the event of a number: the number, and what the run answered.
    #[inline]
    pub fn reply(&mut self, number: &mut EventNumber, reply: &Reply)
        requires { HasRoom self.old }
        ensures line { self.new ≡ self.old ++ reply_line number.old reply.now }
        ensures number { number.new ≡ number.old }
    {
        match *reply {
            Reply::Stepped => self.one_word(number, Word::Stepped),
            Reply::Finished => self.one_word(number, Word::Finished),
            Reply::Waited => self.one_word(number, Word::Waited),
            Reply::Idle => self.one_word(number, Word::Idle),
            Reply::Refused => self.one_word(number, Word::Refused),
            Reply::Started(packet) => self.started(number, packet),
            Reply::Topped {
                packet,
                status,
                info,
            } => self.topped(number, packet, status, info),
            Reply::Bug(bug) => self.bug(number, bug),
            Reply::Wrong(place) => self.wrong(number, place),
        }
    }

    fn started(&mut self, number: &EventNumber, packet: u64)
        requires { HasRoom self.old }
        ensures { self.new ≡ self.old ++ reply_line number.now (Reply.Started packet) }
    {
        self.event_number(number);
        self.text(b" started ");
        self.number(packet);
        self.text(b"\n");
    }

    fn topped(&mut self, number: &EventNumber, packet: u64, status: Status, info: u64)
        requires { HasRoom self.old }
        ensures { self.new ≡ self.old ++ reply_line number.now (Reply.Topped packet status info) }
    {
        self.event_number(number);
        self.text(b" topped ");
        self.number(packet);
        self.text(b" ");
        self.text(status.as_str().as_bytes());
        self.text(b" ");
        self.number(info);
        self.text(b"\n");
    }

    fn wrong(&mut self, number: &EventNumber, place: Place)
        requires { HasRoom self.old }
        ensures { self.new ≡ self.old ++ reply_line number.now (Reply.Wrong place) }
    {
        self.event_number(number);
        self.text(b" wrong ");
        self.number(place.driver as u64);
        self.text(b".");
        self.number(place.routine as u64);
        self.text(b".");
        self.number(place.position as u64);
        self.text(b"\n");
    }

    fn bug(&mut self, number: &EventNumber, bug: Bug)
        requires { HasRoom self.old }
        ensures { self.new ≡ self.old ++ reply_line number.now (Reply.Bug bug) }
    {
        self.event_number(number);
        self.text(b" bug ");
        self.text(bug.check.as_str().as_bytes());
        self.text(b" ");
        self.subject(bug.subject);
    }

    /// Adds what a bug check is about, to the line's end.
    fn subject(&mut self, subject: Subject)
        requires { length self.old + LONGEST_SUBJECT ≤ ROOM }
        ensures { self.new ≡ self.old ++ line_of (subject_words subject) }
    {
        match subject {
            Subject::Packet(packet) => {
                self.text(b"packet ");
                self.number(packet);
                self.text(b"\n");
            }
            Subject::Lock(Lock::SystemCancel) => self.text(b"lock cancel\n"),
            Subject::Lock(Lock::Spin(lock)) => self.of_device(b"lock ", lock),
            Subject::Cell(cell) => self.of_device(b"cell ", cell),
        }
    }

    /// Adds a spin lock or a cell of a device, to the line's end.
    fn of_device(&mut self, sort: &[u8], thing: OfDevice)
        requires { length self.old + length sort.now + LONGEST_OF_DEVICE ≤ ROOM }
        ensures { self.new ≡ self.old ++ (sort.now ++ (of_device_text thing ++ 10 ∷ [])) }
    {
        self.text(sort);
        self.number(thing.device as u64);
        self.text(b".");
        self.number(thing.number as u64);
        self.text(b"\n");
    }
}
