//! Texts and images of sets that several crates of tests read. The crate stands on nothing, so that
//! tests of either machine can have them.
#![tactic(auto)]

/// A driver whose one routine completes a read at once, and its device.
pub const ONE_READ: [u8; 40] = [
    0x44, 0x56, 0x42, 0x32, 0x01, 0x01, 0x00, 0x00, 0x01, 0x00, 0x00, 0xff, 0xff, 0xff, 0xff, 0xff,
    0x00, 0x00, 0x02, 0x00, 0x22, 0x00, 0x00, 0x00, 0x00, 0x00, 0x00, 0x00, 0x24, 0x00, 0x00, 0x00,
    0x00, 0x00, 0x00, 0x00, 0x00, 0x01, 0xff, 0x00,
];

/// The text of that set.
pub const ONE_READ_TEXT: &[u8] =
    b"driver d\ndispatch READ f\nroutine f dispatch\ncomplete r0 SUCCESS\nret SUCCESS\nendr\nendd\n\
      device v d 1\n";

/// The same set's image of the first edition.
pub const OLD_ONE_READ: [u8; 40] = [
    0x44, 0x56, 0x42, 0x31, 0x01, 0x01, 0x00, 0x00, 0x01, 0x00, 0x00, 0xff, 0xff, 0xff, 0xff, 0x00,
    0x00, 0x00, 0x02, 0x00, 0x22, 0x00, 0x00, 0x00, 0x00, 0x00, 0x00, 0x00, 0x24, 0x00, 0x00, 0x00,
    0x00, 0x00, 0x00, 0x00, 0x00, 0x01, 0xff, 0x00,
];

/// The set without drivers and devices.
pub const EMPTY: [u8; 8] = [0x44, 0x56, 0x42, 0x32, 0x00, 0x00, 0x00, 0x00];

/// A driver that queues what it is sent, with a cancel routine.
pub const QUEUED: &[u8] =
    b"driver d\nqueue q l0 gone\ndispatch READ f\ndpc g\nroutine f dispatch\nmark r0\n\
     acquire l0\ninsert r0 q\narm r0 q\nifcancel r0 was\nrelease l0\nret PENDING\n\
     was: disarm r0 lost\nunlink r0 q\nrelease l0\ncomplete r0 CANCELLED\nret PENDING\n\
     lost: release l0\nret PENDING\nendr\nroutine g dpc\nacquire l0\nremove r0 q none\n\
     disarm r0 none\nrelease l0\ncomplete r0 SUCCESS\nret void\nnone: release l0\nret void\nendr\n\
     routine gone cancel\nrelc\nacquire l0\nunlink r0 q\nrelease l0\ncomplete r0 CANCELLED\n\
     ret void\nendr\nendd\ndevice v d 1\n";

/// Two drivers that take two locks. Reads of the first take l0 under l1. Reads of the second take
/// l1 under l0, and its writes do it the other way round.
pub const BOTH_WAYS: &[u8] = b"driver one\ndispatch READ f\nroutine f dispatch\n\
     acquire l1\nacquire l0\nrelease l0\nrelease l1\ncomplete r0 SUCCESS\nret SUCCESS\nendr\nendd\n\
     driver two\ndispatch READ f\ndispatch WRITE g\nroutine f dispatch\n\
     acquire l0\nacquire l1\nrelease l1\nrelease l0\ncomplete r0 SUCCESS\nret SUCCESS\nendr\n\
     routine g dispatch\n\
     acquire l1\nacquire l0\nrelease l0\nrelease l1\ncomplete r0 SUCCESS\nret SUCCESS\nendr\nendd\n\
     device v one 1\ndevice w two 1\n";
