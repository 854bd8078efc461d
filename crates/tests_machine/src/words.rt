//! The words that a world lends of a thread's registers.

use crate::sets::SUBTRACTS;
use asm::assemble;
use machine::World;
use model::event::Event;
use model::status::Major;
use std::test::Fail;
use verifier::verify;

#[test]
fn words_are_lent_of_the_routine_on_top(rt: HostRuntime) -> Result<(), Fail> {
    let alloc = rt.alloc();
    let set = assemble(alloc, SUBTRACTS).ok().expect(&rt, "a set");
    let accepted = verify(alloc, set).ok().expect(&rt, "accepted");
    let mut world = World::new(alloc, accepted, 1).ok().expect(&rt, "a world");
    assert!(rt; world.words(0).is_none(), "of an idle thread");
    assert!(rt; world.words(200).is_none(), "of no thread");
    let issue = Event::Issue {
        thread: 0,
        device: 0,
        major: Major::Read,
        argument: 0,
    };
    let _started = world.apply(&issue);
    for _ in 0..3 {
        let _stepped = world.apply(&Event::Step { thread: 0 });
    }
    let words = world.words(0).expect(&rt, "words");
    assert!(rt; words[1] == 18_446_744_073_709_551_615, "below zero");
    assert!(rt; words[2] == 1, "a number");
    assert!(rt; world.number(words[0]) == Some(0), "the slot of the packet");
    assert!(rt; world.number(99).is_none(), "no slot");
    Ok(())
}
