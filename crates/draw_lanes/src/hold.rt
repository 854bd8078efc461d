//! Where a packet's line is: with what holds the packet.

use crate::lane::Post;
use checked::Checked;
use model::set::QueueName;
use model::world::Armer;
use std::alloc::{AllocError, Global};
use tell_audit::sites::{Site, sites_of};
use tell_holders::Rights;

/// What holds a packet.
#[derive(Clone, Copy, PartialEq, Eq)]
pub enum Hold {
    /// A routine that runs.
    Routine,
    /// The I/O manager, which completes it.
    Manager,
    /// A queue of a driver.
    Queue,
    /// A start list or a device queue.
    Start,
    /// A current slot.
    Slot,
    Nobody,
}

/// Where a packet is, and what holds it there.
#[derive(Clone, Copy)]
pub struct Stay {
    pub post: Post,
    pub hold: Hold,
}

impl Stay {
    /// With a routine on a thread, in a list of a device, or with nobody.
    fn at(post: Post) -> Stay {
        let hold = match post {
            Post::Thread(_) => Hold::Routine,
            Post::Queue(_, _) => Hold::Queue,
            Post::StartList(_) | Post::DeviceQueue(_) => Hold::Start,
            Post::Slot(_) => Hold::Slot,
            Post::Device(_) | Post::Nobody => Hold::Nobody,
        };
        Stay { post, hold }
    }

    /// At a place that names it. A cancel word is the list's whose cancel routine is set.
    fn at_site(site: Site) -> Stay {
        match site {
            Site::Register { thread, .. } => Stay::at(Post::Thread(number_of(thread))),
            Site::Completing { thread, .. } => Stay {
                post: Post::Thread(number_of(thread)),
                hold: Hold::Manager,
            },
            Site::Queue { device, queue } => Stay::at(Post::Queue(device, queue)),
            Site::StartList { device } => Stay::at(Post::StartList(device)),
            Site::DeviceQueue { device } => Stay::at(Post::DeviceQueue(device)),
            Site::Slot { device } => Stay::at(Post::Slot(device)),
            Site::CancelWord(armer) => Stay::at(post_of_armer(armer)),
        }
    }
}

/// The number of a thread, by its place.
fn number_of(thread: usize) -> u8 {
    thread.min(255) as u8
}

/// The list whose cancel routine is set.
fn post_of_armer(armer: Armer) -> Post {
    match armer.queue {
        QueueName::Declared(queue) => Post::Queue(armer.device, queue),
        QueueName::DeviceQueue => Post::DeviceQueue(armer.device),
    }
}

/// Where a live packet stays: with the place that holds it by right, where rights are known, and
/// else with the first one that names it.
///
/// # Errors
///
/// When memory runs out.
pub fn stay_of(
    alloc: Global,
    rights: &Option<Rights>,
    machine: &Checked,
    n: u64,
) -> Result<Stay, AllocError> {
    let sites = match rights {
        Some(rights) => rights.holders_of(alloc, machine, n)?.right,
        None => sites_of(alloc, machine, n)?,
    };
    Ok(match sites.first() {
        Some(site) => Stay::at_site(*site),
        None => Stay::at(Post::Nobody),
    })
}
