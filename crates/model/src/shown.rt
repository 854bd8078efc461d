//! Refusals, replies and outcomes as they show themselves: a verdict's line without its first word,
//! the line of a trace without its number, and of a command what it came to.

use crate::abs::{Refusal, Rule};
use crate::event::{Bug, BugCheck, Lock, OfDevice, Place, Reply, Subject};
use crate::history::{Outcome, TopOut};
use crate::status::Status;
use std::error::Error;
use std::fmt;
use std::fmt::Display;

impl Display for Status {
    /// `0x` and eight hexadecimal digits.
    fn fmt<W: fmt::Write>(&self, f: &mut fmt::Formatter<W>) -> fmt::Result {
        f.write_str(self.as_str())
    }
}

impl Display for BugCheck {
    /// `0x` and two hexadecimal digits.
    fn fmt<W: fmt::Write>(&self, f: &mut fmt::Formatter<W>) -> fmt::Result {
        f.write_str(self.as_str())
    }
}

impl Display for Rule {
    /// Its number and its name, such as `V11 Guard`.
    fn fmt<W: fmt::Write>(&self, f: &mut fmt::Formatter<W>) -> fmt::Result {
        f.write_str(self.as_str())
    }
}

impl Display for Refusal {
    /// The rule and the place, such as `V11 Guard driver 0 routine 2 at 2`.
    fn fmt<W: fmt::Write>(&self, f: &mut fmt::Formatter<W>) -> fmt::Result {
        let Refusal {
            driver,
            routine,
            at,
            rule,
        } = *self;
        write!(f, "{rule} driver {driver} routine {routine} at {at}")
    }
}

impl Error for Refusal {}

impl Display for OfDevice {
    /// The device and the number, such as `0.1`.
    fn fmt<W: fmt::Write>(&self, f: &mut fmt::Formatter<W>) -> fmt::Result {
        write!(f, "{}.{}", self.device, self.number)
    }
}

impl Display for Subject {
    /// Its sort and its number, such as `packet 7`, `lock cancel` or `cell 0.3`.
    fn fmt<W: fmt::Write>(&self, f: &mut fmt::Formatter<W>) -> fmt::Result {
        match *self {
            Subject::Packet(packet) => write!(f, "packet {packet}"),
            Subject::Lock(Lock::SystemCancel) => write!(f, "lock cancel"),
            Subject::Lock(Lock::Spin(lock)) => write!(f, "lock {lock}"),
            Subject::Cell(cell) => write!(f, "cell {cell}"),
        }
    }
}

impl Display for Bug {
    /// Its number and what it is about, such as `0x44 packet 7`.
    fn fmt<W: fmt::Write>(&self, f: &mut fmt::Formatter<W>) -> fmt::Result {
        write!(f, "{} {}", self.check, self.subject)
    }
}

impl Display for Place {
    /// Driver, routine and position, such as `0.2.5`.
    fn fmt<W: fmt::Write>(&self, f: &mut fmt::Formatter<W>) -> fmt::Result {
        write!(f, "{}.{}.{}", self.driver, self.routine, self.position)
    }
}

impl Display for Reply {
    /// Its word and what it tells, such as `topped 7 0x00000000 42`.
    fn fmt<W: fmt::Write>(&self, f: &mut fmt::Formatter<W>) -> fmt::Result {
        match *self {
            Reply::Started(packet) => write!(f, "started {packet}"),
            Reply::Stepped => write!(f, "stepped"),
            Reply::Finished => write!(f, "finished"),
            Reply::Topped {
                packet,
                status,
                info,
            } => write!(f, "topped {packet} {status} {info}"),
            Reply::Waited => write!(f, "waited"),
            Reply::Idle => write!(f, "idle"),
            Reply::Refused => write!(f, "refused"),
            Reply::Bug(bug) => write!(f, "bug {bug}"),
            Reply::Wrong(place) => write!(f, "wrong {place}"),
        }
    }
}

impl Display for TopOut {
    /// As the reply of the step with which the packet topped out.
    fn fmt<W: fmt::Write>(&self, f: &mut fmt::Formatter<W>) -> fmt::Result {
        let TopOut {
            packet,
            status,
            info,
        } = *self;
        write!(f, "topped {packet} {status} {info}")
    }
}

impl Display for Outcome {
    /// The reply, and behind a comma how its packet topped out, such as
    /// `started 0, topped 0 0x00000000 2`.
    fn fmt<W: fmt::Write>(&self, f: &mut fmt::Formatter<W>) -> fmt::Result {
        write!(f, "{}", self.reply)?;
        match self.topped {
            Some(topped) => write!(f, ", {topped}"),
            None => Ok(()),
        }
    }
}
