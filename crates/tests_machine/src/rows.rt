//! The rows: sets, what happens to them, and what is answered. The replies come from outside.

use crate::sets::{LOOPS, MARKS, STACKS, STARTS, SUBTRACTS};
use model::event::Reply;
use model::status::Status;
use tests_vectors::{ONE_READ_TEXT, QUEUED};

/// A run of an accepted set.
pub(crate) struct Row {
    pub(crate) name: &'static str,
    pub(crate) set: &'static [u8],
    pub(crate) schedule: &'static str,
    /// The replies, each with how often it follows on itself.
    pub(crate) replies: &'static [(usize, Reply)],
}

/// The first packet has topped out.
const TOPPED: Reply = Reply::Topped {
    packet: 0,
    status: Status::Success,
    info: 0,
};

/// It was cancelled.
const CANCELLED: Reply = Reply::Topped {
    packet: 0,
    status: Status::Cancelled,
    info: 0,
};

/// It was answered with one less than zero.
const BELOW_ZERO: Reply = Reply::Topped {
    packet: 0,
    status: Status::Success,
    info: u64::MAX,
};

/// A row in which a cancel is on its way to a packet that the DPC routine is about to take out of
/// its queue: what happens then, and what is answered to that.
macro_rules! cancel_on_its_way {
    ($name:literal, $then:literal, [$($reply:expr),+ $(,)?]) => {
        Row {
            name: $name,
            set: QUEUED,
            schedule: concat!(
                "threads 3\n\
                 issue 0 0 READ 5\n\
                 step 0 7\n\
                 interrupt 0\n\
                 dpc 1 0\n\
                 cancel 2 0 0\n\
                 step 2 2\n",
                $then
            ),
            replies: &[
                (1, Reply::Started(0)),
                (6, Reply::Stepped),
                (1, Reply::Finished),
                (2, Reply::Stepped),
                (1, Reply::Started(0)),
                (2, Reply::Stepped),
                $($reply),+
            ],
        }
    };
}

pub(crate) static ROWS: [Row; 12] = [
    Row {
        name: "a packet completes at once, and the thread is idle",
        set: ONE_READ_TEXT,
        schedule: "threads 1\n\
            issue 0 0 READ 7\n\
            step 0 4\n",
        replies: &[
            (1, Reply::Started(0)),
            (1, Reply::Stepped),
            (1, TOPPED),
            (1, Reply::Finished),
            (1, Reply::Idle),
        ],
    },
    Row {
        name: "a later packet has a number of its own",
        set: ONE_READ_TEXT,
        schedule: "threads 2\n\
            issue 0 0 READ 0\n\
            step 0 3\n\
            issue 0 0 READ 0\n\
            cancel 1 0 0\n",
        replies: &[
            (1, Reply::Started(0)),
            (1, Reply::Stepped),
            (1, TOPPED),
            (1, Reply::Finished),
            (1, Reply::Started(1)),
            (1, Reply::Finished),
        ],
    },
    Row {
        name: "a cancel before the completion routine runs",
        set: ONE_READ_TEXT,
        schedule: "threads 2\n\
            issue 0 0 READ 0\n\
            cancel 1 0 0\n\
            step 0 3\n\
            issue 0 0 READ 0\n\
            step 1 2\n",
        replies: &[
            (2, Reply::Started(0)),
            (1, Reply::Stepped),
            (1, TOPPED),
            (1, Reply::Finished),
            (1, Reply::Started(1)),
            (1, Reply::Stepped),
            (1, Reply::Finished),
        ],
    },
    Row {
        name: "a packet goes down a stack, is queued, and completes by a DPC",
        set: STACKS,
        schedule: "threads 2\n\
            issue 0 3 READ 0\n\
            step 0 6\n\
            interrupt 1\n\
            dpc 1 1\n\
            step 1 7\n\
            step 0 3\n",
        replies: &[
            (1, Reply::Started(0)),
            (13, Reply::Stepped),
            (1, TOPPED),
            (1, Reply::Finished),
            (2, Reply::Stepped),
            (1, Reply::Finished),
        ],
    },
    cancel_on_its_way!(
        "a cancel meets a packet in its queue",
        "step 1 3\n\
            step 2\n\
            step 1 4\n",
        [
            (3, Reply::Stepped),
            (1, Reply::Finished),
            (2, Reply::Stepped),
            (1, TOPPED),
            (1, Reply::Finished),
        ]
    ),
    cancel_on_its_way!(
        "a cancel wins against the DPC",
        "step 1 2\n\
            step 2\n\
            step 1\n\
            step 2 2\n\
            step 1 2\n\
            step 2 6\n",
        [
            (5, Reply::Stepped),
            (1, Reply::Waited),
            (1, Reply::Stepped),
            (1, Reply::Finished),
            (4, Reply::Stepped),
            (1, CANCELLED),
            (1, Reply::Finished),
        ]
    ),
    Row {
        name: "a packet is held above and completed by the DPC",
        set: STACKS,
        schedule: "threads 2\n\
            issue 0 1 WRITE 0\n\
            step 0 8\n\
            interrupt 1\n\
            dpc 1 1\n\
            step 1 6\n\
            step 0 3\n",
        replies: &[
            (1, Reply::Started(0)),
            (14, Reply::Stepped),
            (1, TOPPED),
            (1, Reply::Finished),
            (2, Reply::Stepped),
            (1, Reply::Finished),
        ],
    },
    Row {
        name: "a loop",
        set: LOOPS,
        schedule: "threads 1\n\
            issue 0 0 READ 0\n\
            step 0 8\n",
        replies: &[
            (1, Reply::Started(0)),
            (6, Reply::Stepped),
            (1, TOPPED),
            (1, Reply::Finished),
        ],
    },
    Row {
        name: "a number below zero",
        set: SUBTRACTS,
        schedule: "threads 1\n\
            issue 0 0 READ 0\n\
            step 0 7\n",
        replies: &[
            (1, Reply::Started(0)),
            (5, Reply::Stepped),
            (1, BELOW_ZERO),
            (1, Reply::Finished),
        ],
    },
    Row {
        name: "a packet that a lower driver marked",
        set: MARKS,
        schedule: "threads 1\n\
            issue 0 1 READ 0\n\
            step 0 7\n",
        replies: &[
            (1, Reply::Started(0)),
            (4, Reply::Stepped),
            (1, TOPPED),
            (1, Reply::Stepped),
            (1, Reply::Finished),
        ],
    },
    Row {
        name: "a mark that a completion routine hands on",
        set: MARKS,
        schedule: "threads 1\n\
            issue 0 2 READ 0\n\
            step 0 10\n",
        replies: &[
            (1, Reply::Started(0)),
            (7, Reply::Stepped),
            (1, TOPPED),
            (1, Reply::Stepped),
            (1, Reply::Finished),
        ],
    },
    Row {
        name: "StartIo begins packets one by one",
        set: STARTS,
        schedule: "threads 1\n\
            issue 0 0 READ 1\n\
            step 0 3\n\
            issue 0 0 READ 2\n\
            step 0 3\n\
            startio 0 0\n\
            step 0 2\n\
            interrupt 0\n\
            interrupt 0\n\
            dpc 0 0\n\
            step 0 5\n\
            startio 0 0\n\
            dpc 0 0\n",
        replies: &[
            (1, Reply::Started(0)),
            (2, Reply::Stepped),
            (1, Reply::Finished),
            (1, Reply::Started(1)),
            (2, Reply::Stepped),
            (1, Reply::Finished),
            (1, Reply::Started(0)),
            (1, Reply::Stepped),
            (1, Reply::Finished),
            (1, Reply::Stepped),
            (1, Reply::Idle),
            (4, Reply::Stepped),
            (1, TOPPED),
            (1, Reply::Finished),
            (1, Reply::Started(1)),
            (1, Reply::Refused),
        ],
    },
];
