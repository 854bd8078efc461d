//! A reply as the header has it.

ghost use Rattle.std.specs.Prelude.{◌≡◌};
ghost use Rattle.pafteis_values.specs.Reply.{only_kind, reply_value};

use model::event::Reply;

/// A reply: its kind, and what that tells. The other fields are 0.
#[repr(C)]
#[derive(Clone, Copy)]
pub struct ReplyValue {
    /// The number of the packet that was started or has topped out.
    pub packet: u64,
    /// IoStatus.Information of a packet that has topped out.
    pub info: u64,
    /// 1 started, 2 stepped, 3 finished, 4 topped, 5 waited, 6 idle, 7 refused; 8 a bug check and
    /// 9 a wrong operand, which no accepted set shows.
    pub kind: u32,
    /// The final status of a packet that has topped out.
    pub status: u32,
}

/// A reply that tells nothing but its kind.
fn only(kind: u32) -> ReplyValue
    ensures { result ≡ only_kind kind }
{
    ReplyValue {
        packet: 0,
        info: 0,
        kind,
        status: 0,
    }
}

/// A reply as a value.
pub fn reply_shown(reply: Reply) -> ReplyValue
    ensures { result ≡ reply_value reply }
{
    match reply {
        Reply::Started(packet) => ReplyValue { packet, ..only(1) },
        Reply::Stepped => only(2),
        Reply::Finished => only(3),
        Reply::Topped {
            packet,
            status,
            info,
        } => ReplyValue {
            packet,
            info,
            kind: 4,
            status: status.code(),
        },
        Reply::Waited => only(5),
        Reply::Idle => only(6),
        Reply::Refused => only(7),
        Reply::Bug(_) => only(8),
        Reply::Wrong(_) => only(9),
    }
}
