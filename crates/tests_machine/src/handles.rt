//! A world and the bytes of an answer behind handles, as the library for C has them.

use model::event::{Event, Reply};
use model::status::Major;
use model::view::PacketView;
use pafteis_values::verdict::Verdict;
use pafteis_world::admitting::judge;
use pafteis_world::driving::{apply, close, due, open, packet, steps, thread};
use pafteis_world::handle::Handle;
use pafteis_world::keeping::{free, keep, read};
use pafteis_world::kept::Kept;
use std::alloc::Global;
use std::fs;
use std::test::Fail;
use tests_vectors::ONE_READ_TEXT;

/// A driver that completes each read twice.
const TWICE: &[u8] = b"driver d\n\
      dispatch READ f\n\
      routine f dispatch\n\
      complete r0 SUCCESS\n\
      complete r0 SUCCESS\n\
      ret SUCCESS\n\
      endr\n\
      endd\n\
      device v d 1\n";

#[test]
fn a_read_is_done_behind_a_handle(rt: HostRuntime) -> Result<(), Fail> {
    let alloc = rt.alloc();
    let mut handle = Handle::empty();
    let opened = open(alloc, ONE_READ_TEXT, 2, &mut handle);
    assert!(rt; matches!(opened, Verdict::Accepted));
    let issue = Event::Issue {
        thread: 0,
        device: 0,
        major: Major::Read,
        argument: 7,
    };
    assert!(rt; matches!(apply(alloc, &mut handle, &issue), Some(Reply::Started(0))));
    assert!(rt; matches!(packet(alloc, &mut handle, 0), Some(PacketView::Live(_))));
    let told = thread(alloc, &mut handle, 0);
    assert!(rt; matches!(told, Some(Some(view)) if view.frames == 1));
    assert!(rt; matches!(thread(alloc, &mut handle, 2), Some(None)));
    let made = steps(alloc, &mut handle, 0, 10).expect(&rt, "a world");
    assert_eq!(rt; made.made, 2);
    assert!(rt; matches!(made.last, Reply::Topped { packet: 0, .. }));
    assert!(rt; matches!(due(alloc, &mut handle, 0), Some((false, false))));
    assert!(rt; close(alloc, &mut handle));
    assert!(rt; !close(alloc, &mut handle));
    assert!(rt; apply(alloc, &mut handle, &issue).is_none());
    Ok(())
}

#[test]
fn a_refused_set_has_no_world(rt: HostRuntime) {
    let alloc = rt.alloc();
    let mut handle = Handle::empty();
    let opened = open(alloc, TWICE, 1, &mut handle);
    assert_eq!(rt; opened.value().rule, 5);
    assert_eq!(rt; opened.value().position, 1);
    assert!(rt; !close(alloc, &mut handle));
    assert_eq!(rt; judge(alloc, b"DVB1").value().image_fault, 2);
    assert_eq!(rt; judge(alloc, b"driver d\n").value().line, 2);
}

/// Opens so many worlds, closes each, and answers whether all could be.
fn open_and_close(alloc: Global, count: u32) -> bool {
    let mut handle = Handle::empty();
    for _ in 0..count {
        let opened = open(alloc, ONE_READ_TEXT, 1, &mut handle);
        if !matches!(opened, Verdict::Accepted) || !close(alloc, &mut handle) {
            return false;
        }
    }
    true
}

/// How many pages of memory this process has, where the system tells.
fn pages(rt: &HostRuntime) -> Option<u64> {
    let told = fs::read_to_string(rt, "/proc/self/statm").ok()?;
    told.as_str().split(' ').next()?.parse().ok()
}

#[test]
fn a_closed_world_gives_its_memory_back(rt: HostRuntime) {
    let alloc = rt.alloc();
    // An allocator that looks for errors may keep some hundred megabytes before it gives any again.
    assert!(rt; open_and_close(alloc, 400));
    let before = pages(&rt);
    assert!(rt; open_and_close(alloc, 100));
    let after = pages(&rt);
    // A world has more than 300 pages of 4 KB, and a hundred that weren't freed more than 30,000.
    if let (Some(before), Some(after)) = (before, after) {
        assert!(rt; after < before.saturating_add(10_000));
    }
}

#[test]
fn kept_bytes_are_read_in_pieces(rt: HostRuntime) -> Result<(), Fail> {
    let alloc = rt.alloc();
    let mut kept = Kept::empty();
    let mut piece = [0u8; 4];
    assert!(rt; read(alloc, &mut kept, 0, &mut piece).is_none());
    let bytes = Vec::from_array(alloc, [1u8, 2, 3, 4, 5, 6]).expect(&rt, "memory");
    assert!(rt; keep(alloc, bytes, &mut kept));
    assert_eq!(rt; read(alloc, &mut kept, 0, &mut piece), Some(4));
    assert_eq!(rt; piece, [1, 2, 3, 4]);
    assert_eq!(rt; read(alloc, &mut kept, 4, &mut piece), Some(2));
    assert_eq!(rt; piece, [5, 6, 3, 4]);
    assert_eq!(rt; read(alloc, &mut kept, 6, &mut piece), Some(0));
    assert_eq!(rt; read(alloc, &mut kept, usize::MAX, &mut piece), Some(0));
    assert!(rt; free(alloc, &mut kept));
    assert!(rt; !free(alloc, &mut kept));
    assert!(rt; read(alloc, &mut kept, 0, &mut piece).is_none());
    Ok(())
}

/// Keeps so many answers in one handle, frees the last, and answers whether all could be.
fn keep_and_free(alloc: Global, count: u32) -> bool {
    let mut kept = Kept::empty();
    for _ in 0..count {
        let Ok(bytes) = Vec::from_elem(alloc, 1u8, 1 << 16) else {
            return false;
        };
        if !keep(alloc, bytes, &mut kept) {
            return false;
        }
    }
    free(alloc, &mut kept)
}

#[test]
fn freed_bytes_give_their_memory_back(rt: HostRuntime) {
    let alloc = rt.alloc();
    assert!(rt; keep_and_free(alloc, 10));
    let before = pages(&rt);
    assert!(rt; keep_and_free(alloc, 2_000));
    if let (Some(before), Some(after)) = (before, pages(&rt)) {
        assert!(rt; after < before.saturating_add(1_000));
    }
}
