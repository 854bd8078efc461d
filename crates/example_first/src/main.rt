//! A read, from a driver text to its end: rt run, in this crate's folder.
#![tactic(auto)]

use asm::assemble;
use machine::World;
use model::event::Event;
use model::status::Major;
use std::io::{Error, ErrorKind};
use verifier::verify;

const TEXT: &[u8] = b"driver echo\ndispatch READ on_read\nroutine on_read dispatch\n\
      complete r0 SUCCESS\nret SUCCESS\nendr\nendd\ndevice disk echo 1\n";

fn main(rt: HostRuntime) -> Result<(), Error> {
    let set = assemble(rt.alloc(), TEXT).map_err(|_fault| Error::from(ErrorKind::InvalidData))?;
    let accepted = verify(rt.alloc(), set).map_err(|_back| Error::from(ErrorKind::InvalidData))?;
    let made = World::new(rt.alloc(), accepted, 2);
    let mut world = made.map_err(|_back| Error::from(ErrorKind::OutOfMemory))?;
    let mut event = Event::Issue {
        thread: 0,
        device: 0,
        major: Major::Read,
        argument: 7,
    };
    for _ in 0..4 {
        println!(rt; "{}", world.apply(&event))?;
        event = Event::Step { thread: 0 };
    }
    Ok(())
}
