//! With ample memory a run is there: of an accepted set, and of any set on the machine that tests
//! everything.

use asm::assemble;
use checked::Checked;
use image::DriverSet;
use interleave::run::run;
use machine::World;
use model::event::{Event, Reply};
use model::status::Major;
use std::alloc::Global;
use tests_vectors::ONE_READ_TEXT;
use verifier::verify;

const READ: Event = Event::Issue {
    thread: 0,
    device: 0,
    major: Major::Read,
    argument: 0,
};

const STEP: Event = Event::Step { thread: 0 };

/// The set that completes each read.
fn completing(alloc: Global) -> Option<DriverSet> {
    assemble(alloc, ONE_READ_TEXT).ok()
}

/// The world of an accepted set after a read was completed.
fn world_after_read(alloc: Global) -> Option<World> {
    let accepted = verify(alloc, completing(alloc)?).ok()?;
    run(alloc, accepted, 1, &[READ, STEP]).ok()
}

/// The machine of any set after it.
fn machine_after_read(alloc: Global) -> Option<Checked> {
    Checked::run(alloc, completing(alloc)?, 1, &[READ, STEP]).ok()
}

/// Whether a step tops the packet out.
fn tops_out(reply: Reply) -> bool {
    matches!(reply, Reply::Topped { packet: 0, .. })
}

/// Both go on behind their events.
#[test]
fn runs_go_on(rt: HostRuntime) {
    let world = world_after_read(rt.alloc());
    assert!(rt; world.is_some_and(|mut world| tops_out(world.apply(&STEP))));
    let machine = machine_after_read(rt.alloc());
    assert!(rt; machine.is_some_and(|mut machine| tops_out(machine.apply(&STEP))));
}
