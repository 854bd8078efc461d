//! Images of both editions: the bytes of known sets, their beginnings, and all their changes by one
//! byte. The digests are those of what an independent program answers.

use asm::assemble;
use image::{DriverSet, ImageFault, decode, encode};
use md5::{Digest, Md5};
use model::memory::OutOfMemory;
use std::alloc::{AllocError, Global};
use std::test::Fail;
use tests_vectors::{EMPTY, OLD_ONE_READ, ONE_READ, QUEUED};

/// The digest of its image.
const QUEUED_IMAGE: [u8; 16] = [
    0xf6, 0xa6, 0x92, 0x16, 0xb0, 0x17, 0xd9, 0xfc, 0x4e, 0x2d, 0x7c, 0xb0, 0x76, 0x86, 0x23, 0x43,
];

/// A driver whose packets can be cancelled while they wait in the device queue.
const WAITING: &[u8] =
    b"driver d\ndispatch READ f\nstartio s gone\ndpc g\nroutine f dispatch\nmark r0\nacqc\n\
      ifcancel r0 was\nstart r0\nrelc\nret PENDING\nwas: relc\ncomplete r0 CANCELLED\nret PENDING\n\
      endr\nroutine s startio\nbegin r0\nret void\nendr\nroutine g dpc\ntake r0 none\nacqc\nnext\n\
      relc\ncomplete r0 SUCCESS\nret void\nnone: ret void\nendr\nroutine gone cancel\ndequeue r0\n\
      relc\ncomplete r0 CANCELLED\nret void\nendr\nendd\ndevice v d 1\n";

/// The digest of the whole image, whose bytes were put together by hand.
const WAITING_IMAGE: [u8; 16] = [
    0xf4, 0x2e, 0xb1, 0x27, 0x8c, 0xeb, 0xe5, 0x20, 0x67, 0x10, 0x0f, 0x19, 0x15, 0x38, 0x2e, 0xf6,
];

/// The digest of the numbers of the faults of all changes of one byte, 0 for none: of the byte at
/// each place, by each value.
const ONE_READ_FAULTS: [u8; 16] = [
    0x4f, 0x62, 0x98, 0x12, 0x54, 0xd4, 0x3b, 0xbb, 0x6b, 0xb2, 0x95, 0xbc, 0x63, 0xd4, 0xf0, 0xf1,
];

/// The same of `OLD_ONE_READ`.
const OLD_ONE_READ_FAULTS: [u8; 16] = [
    0x0a, 0x9c, 0x93, 0xd3, 0x00, 0xdb, 0x3b, 0x6f, 0xc4, 0xe3, 0x51, 0x72, 0xce, 0x2d, 0x3b, 0x88,
];

/// The same of the image of `QUEUED`.
const QUEUED_FAULTS: [u8; 16] = [
    0xeb, 0x47, 0xa0, 0xf4, 0x10, 0x6e, 0xd7, 0xec, 0xf5, 0x30, 0x8d, 0xf0, 0x01, 0xdb, 0xba, 0x38,
];

/// Whether bytes have this digest.
fn have_digest(bytes: &[u8], digest: &[u8; 16]) -> bool {
    Md5::digest(bytes).as_slice() == digest.as_slice()
}

/// Whether bytes are the image of a set.
fn are_image_of(alloc: Global, bytes: &[u8], set: &DriverSet) -> bool {
    match encode(alloc, set) {
        Ok(image) => image.as_slice() == bytes,
        Err(OutOfMemory) => false,
    }
}

/// Whether bytes spell a set, and are its image.
fn are_image(alloc: Global, bytes: &[u8]) -> bool {
    match decode(alloc, bytes) {
        Ok(set) => are_image_of(alloc, bytes, &set),
        Err(_) => false,
    }
}

/// The number of the fault of bytes; of an image 0, and 255 of one of the second edition that is
/// not the image of its set.
fn fault_number(alloc: Global, bytes: &[u8]) -> u8 {
    match decode(alloc, bytes) {
        Ok(set) if bytes.starts_with(b"DVB1") || are_image_of(alloc, bytes, &set) => 0,
        Ok(_) => 255,
        Err(fault) => fault as u8,
    }
}

/// The number of the fault of an image of which a byte is changed.
fn fault_of_change(alloc: Global, image: &[u8], place: usize, value: u8) -> Result<u8, AllocError> {
    let mut bytes = Vec::from_slice(alloc, image)?;
    if let Some(byte) = bytes.get_mut(place) {
        *byte = value;
    }
    Ok(fault_number(alloc, bytes.as_slice()))
}

/// The numbers of the faults of all changes of one byte of an image.
fn faults_of_changes(alloc: Global, image: &[u8]) -> Result<Vec<u8>, AllocError> {
    let mut faults = Vec::new(alloc);
    for place in 0..image.len() {
        for value in 0..=255 {
            faults.push(fault_of_change(alloc, image, place, value)?)?;
        }
    }
    Ok(faults)
}

/// Whether all changes of one byte of an image have the faults of this digest, and each of its
/// beginnings is cut off.
fn is_guarded(alloc: Global, image: &[u8], digest: &[u8; 16]) -> bool {
    for length in 0..image.len() {
        if !matches!(decode(alloc, &image[..length]), Err(ImageFault::Truncated)) {
            return false;
        }
    }
    match faults_of_changes(alloc, image) {
        Ok(faults) => have_digest(faults.as_slice(), digest),
        Err(AllocError) => false,
    }
}

/// The image of the set of a text.
fn image_of(alloc: Global, text: &[u8]) -> Option<Vec<u8>> {
    let set = assemble(alloc, text).ok()?;
    encode(alloc, &set).ok()
}

/// Whether a text's image has this digest, and is the image of the set that it spells.
fn is_known(alloc: Global, text: &[u8], digest: &[u8; 16]) -> bool {
    match image_of(alloc, text) {
        Some(image) => {
            have_digest(image.as_slice(), digest) && are_image(alloc, image.as_slice())
        }
        None => false,
    }
}

#[test]
fn known_images(rt: HostRuntime) {
    assert!(rt; are_image(rt.alloc(), EMPTY.as_slice()));
    assert!(rt; are_image(rt.alloc(), ONE_READ.as_slice()));
    assert!(rt; is_known(rt.alloc(), QUEUED, &QUEUED_IMAGE));
    assert!(rt; is_known(rt.alloc(), WAITING, &WAITING_IMAGE));
}

#[test]
fn every_beginning_and_change(rt: HostRuntime) -> Result<(), Fail> {
    assert!(rt; is_guarded(rt.alloc(), ONE_READ.as_slice(), &ONE_READ_FAULTS));
    assert!(rt; is_guarded(rt.alloc(), OLD_ONE_READ.as_slice(), &OLD_ONE_READ_FAULTS));
    let image = image_of(rt.alloc(), QUEUED).ok_or("the text is a set")?;
    assert!(rt; is_guarded(rt.alloc(), image.as_slice(), &QUEUED_FAULTS));
    Ok(())
}

/// Bytes behind the last device are told before a role of another sort.
#[test]
fn roles_come_last(rt: HostRuntime) -> Result<(), Fail> {
    let mut bytes = Vec::from_slice(rt.alloc(), ONE_READ.as_slice())?;
    bytes.push(0)?;
    for sort in 0..2 {
        if let Some(byte) = bytes.get_mut(16) {
            *byte = sort;
        }
        assert!(rt;
            matches!(
                decode(rt.alloc(), bytes.as_slice()),
                Err(ImageFault::Trailing)
            )
        );
    }
    Ok(())
}
