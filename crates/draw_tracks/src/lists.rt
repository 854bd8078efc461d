//! How many packets stand in the lists of devices.

use crate::mark::{Kind, Mark, Marks};
use checked::Checked;
use draw_lanes::lane::{Lane, Post};
use std::alloc::AllocError;

/// How many packets a list has, if a lane is for one.
fn length_of(machine: &Checked, post: Post) -> Option<usize> {
    let shared = machine.shared();
    match post {
        Post::Queue(device, queue) => Some(shared.queue(device, queue)?.len()),
        Post::StartList(device) => Some(shared.start_of(device)?.start_list().len()),
        Post::DeviceQueue(device) => Some(shared.start_of(device)?.waiting().len()),
        Post::Thread(_) | Post::Device(_) | Post::Slot(_) | Post::Nobody => None,
    }
}

/// The device of a list.
fn device_of(post: Post) -> Option<u8> {
    match post {
        Post::Queue(device, _) | Post::StartList(device) | Post::DeviceQueue(device) => {
            Some(device)
        }
        Post::Thread(_) | Post::Device(_) | Post::Slot(_) | Post::Nobody => None,
    }
}

/// Counts the packets in the lists of a device, where they are as many as they weren't.
pub(crate) fn count_lists(
    marks: &mut Marks,
    machine: &Checked,
    lanes: &[Lane],
    counts: &mut [usize],
    device: u8,
    at: u64,
) -> Result<(), AllocError> {
    for (lane, count) in lanes.iter().zip(counts.iter_mut()) {
        if device_of(lane.post) != Some(device) {
            continue;
        }
        let Some(length) = length_of(machine, lane.post) else {
            continue;
        };
        if length != *count {
            *count = length;
            marks.add(Mark {
                kind: Kind::Counts(length as u64),
                name: lane.name.as_str(),
                at,
                track: 0,
            })?;
        }
    }
    Ok(())
}
