//! The places that name a packet, in words.

use checked::Checked;
use model::set::QueueName;
use model::world::Armer;
use std::alloc::Global;
use tell_audit::sites::{Site, sites_of};
use tell_holders::Rights;
use tell_names::{Book, add_number};
use words::Words;

/// Adds the places that name a packet.
pub(crate) fn add_sites(
    alloc: Global,
    words: &mut Words,
    book: &Book<'_>,
    machine: &Checked,
    n: u64,
) {
    let Ok(sites) = sites_of(alloc, machine, n) else {
        words.lacks = true;
        return;
    };
    for site in sites.iter() {
        words.add("; ");
        add_site(words, book, machine, *site);
    }
}

/// Adds the place that holds a packet by right, and then all others that name it.
pub(crate) fn add_holders(
    alloc: Global,
    words: &mut Words,
    book: &Book<'_>,
    machine: &Checked,
    rights: &Rights,
    n: u64,
) {
    match rights.holders_of(alloc, machine, n) {
        Ok(holders) => {
            add_each(words, book, machine, "; held ", holders.right.as_slice());
            add_each(words, book, machine, "; named ", holders.others.as_slice())
        }
        Err(_) => words.lacks = true,
    }
}

/// Adds places, each behind these words.
fn add_each(words: &mut Words, book: &Book<'_>, machine: &Checked, before: &str, sites: &[Site]) {
    for site in sites {
        words.add(before);
        add_as_holder(words, book, machine, *site);
    }
}

/// Adds a place behind a word that says whether it holds a packet.
fn add_as_holder(words: &mut Words, book: &Book<'_>, machine: &Checked, site: Site) {
    match site {
        Site::Completing { thread, .. } => {
            words.add("while it is completed on thread ");
            add_number(words, thread as u64)
        }
        Site::CancelWord(armer) => {
            words.add("by its cancel word, of ");
            add_armer(words, book, machine, armer)
        }
        _ => add_site(words, book, machine, site),
    }
}

/// Adds a place.
fn add_site(words: &mut Words, book: &Book<'_>, machine: &Checked, site: Site) {
    match site {
        Site::Register {
            thread,
            frame,
            register,
        } => {
            words.add("in r");
            add_number(words, u64::from(register));
            words.add(" of frame ");
            add_number(words, frame as u64);
            words.add(" of thread ");
            add_number(words, thread as u64)
        }
        Site::Completing { thread, .. } => {
            words.add("completed on thread ");
            add_number(words, thread as u64)
        }
        Site::Queue { device, queue } => {
            words.add("in queue ");
            add_queue(words, book, machine, device, queue)
        }
        Site::StartList { device } => add_list(words, book, "start list", device),
        Site::DeviceQueue { device } => add_list(words, book, "device queue", device),
        Site::Slot { device } => add_list(words, book, "current slot", device),
        Site::CancelWord(armer) => {
            words.add("its cancel routine is set, of ");
            add_armer(words, book, machine, armer)
        }
    }
}

/// Adds the list that a cancel word names.
pub(crate) fn add_armer(words: &mut Words, book: &Book<'_>, machine: &Checked, armer: Armer) {
    match armer.queue {
        QueueName::Declared(queue) => add_queue(words, book, machine, armer.device, queue),
        QueueName::DeviceQueue => {
            book.add_device(words, armer.device);
            words.add("'s device queue")
        }
    }
}

/// Adds a queue of a device.
fn add_queue(words: &mut Words, book: &Book<'_>, machine: &Checked, device: u8, queue: u8) {
    book.add_device(words, device);
    words.add(".");
    if let Some(its) = machine.set().devices().get(device as usize) {
        book.add_queue(words, its.driver, queue)
    }
}

/// Adds a list of a device.
fn add_list(words: &mut Words, book: &Book<'_>, name: &str, device: u8) {
    words.add("in the ");
    words.add(name);
    words.add(" of ");
    book.add_device(words, device)
}
