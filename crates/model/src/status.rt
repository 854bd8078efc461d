//! Status values and major functions of I/O request packets.

ghost use Rattle.std.specs.Prelude.{◌≡◌};

/// An NTSTATUS value that a routine may name, by the Driver Kit's constants.
#[derive(Clone, Copy, PartialEq, Eq)]
pub enum Status {
    /// STATUS_SUCCESS, 0x00000000.
    Success,
    /// STATUS_PENDING, 0x00000103.
    Pending,
    /// STATUS_DEVICE_BUSY, 0x80000011.
    Busy,
    /// STATUS_UNSUCCESSFUL, 0xC0000001.
    Unsuccessful,
    /// STATUS_INVALID_PARAMETER, 0xC000000D.
    InvalidParameter,
    /// STATUS_INVALID_DEVICE_REQUEST, 0xC0000010.
    InvalidDeviceRequest,
    /// STATUS_CANCELLED, 0xC0000120.
    Cancelled,
}

impl Status {
    ghost use Rattle.model.specs.Status.{status_code};

    /// The 32-bit value of the constant.
    pub fn code(self) -> u32
        ensures { result ≡ status_code self }
    {
        match self {
            Status::Success => 0x0000_0000,
            Status::Pending => 0x0000_0103,
            Status::Busy => 0x8000_0011,
            Status::Unsuccessful => 0xC000_0001,
            Status::InvalidParameter => 0xC000_000D,
            Status::InvalidDeviceRequest => 0xC000_0010,
            Status::Cancelled => 0xC000_0120,
        }
    }
}

/// The major function of a request.
#[derive(Clone, Copy)]
pub enum Major {
    /// IRP_MJ_READ.
    Read,
    /// IRP_MJ_WRITE.
    Write,
    /// IRP_MJ_DEVICE_CONTROL.
    Control,
}

impl Major {
    ghost use Rattle.model.specs.Status.{major_code};

    /// Its IRP_MJ number.
    pub fn code(self) -> u8
        ensures { result ≡ major_code self }
    {
        match self {
            Major::Read => 3,
            Major::Write => 4,
            Major::Control => 14,
        }
    }
}
