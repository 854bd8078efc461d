//! Refusals, replies and outcomes show themselves as the programs write them.

use model::abs::{Refusal, Rule};
use model::event::{Bug, BugCheck, Lock, OfDevice, Place, Reply, Subject};
use model::history::{Outcome, TopOut};
use model::status::Status;
use std::alloc::{AllocError, Global};
use std::test::Fail;

const LOCK: OfDevice = OfDevice {
    device: 15,
    number: 7,
};

/// Each kind of reply.
static REPLIES: [Reply; 12] = [
    Reply::Started(18_446_744_073_709_551_615),
    Reply::Stepped,
    Reply::Finished,
    Reply::Topped {
        packet: 3,
        status: Status::Cancelled,
        info: 512,
    },
    Reply::Waited,
    Reply::Idle,
    Reply::Refused,
    Reply::Bug(Bug {
        check: BugCheck::MultipleIrpCompleteRequests,
        subject: Subject::Packet(0),
    }),
    Reply::Bug(Bug {
        check: BugCheck::SpinLockNotOwned,
        subject: Subject::Lock(Lock::SystemCancel),
    }),
    Reply::Bug(Bug {
        check: BugCheck::SpinLockAlreadyOwned,
        subject: Subject::Lock(Lock::Spin(LOCK)),
    }),
    Reply::Bug(Bug {
        check: BugCheck::IrqlNotLessOrEqual,
        subject: Subject::Cell(LOCK),
    }),
    Reply::Wrong(Place {
        driver: 7,
        routine: 31,
        position: 1_023,
    }),
];

const REFUSAL: Refusal = Refusal {
    driver: 7,
    routine: 255,
    at: 1_023,
    rule: Rule::CancelState,
};

const OUTCOME: Outcome = Outcome {
    reply: Reply::Started(9),
    topped: Some(TopOut {
        packet: 9,
        status: Status::Success,
        info: 2,
    }),
};

/// Their words in a trace, those of the refusal, and those of the outcome.
const WORDS: &str = "started 18446744073709551615\nstepped\nfinished\ntopped 3 0xC0000120 512\n\
     waited\nidle\nrefused\nbug 0x44 packet 0\nbug 0x10 lock cancel\nbug 0x0F lock 15.7\n\
     bug 0x0A cell 15.7\nwrong 7.31.1023\nV12 CancelState driver 7 routine 255 at 1023\n\
     started 9, topped 9 0x00000000 2\n";

/// The replies, each on a line.
fn replies_shown(alloc: Global) -> Result<String, AllocError> {
    let mut shown = String::new(alloc);
    for reply in REPLIES.iter() {
        let line = format!(in alloc; "{reply}\n")?;
        shown.push_str(line.as_str())?;
    }
    Ok(shown)
}

#[test]
fn values_show_themselves(rt: HostRuntime) -> Result<(), Fail> {
    let mut shown = replies_shown(rt.alloc())?;
    let last = format!(in rt.alloc(); "{REFUSAL}\n{OUTCOME}\n")?;
    shown.push_str(last.as_str())?;
    assert!(rt; shown.as_str() == WORDS, "{shown}");
    Ok(())
}
