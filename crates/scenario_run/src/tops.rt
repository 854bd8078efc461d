//! How packets have topped out.

ghost use Rattle.std.specs.Prelude.{◌<◌, ◌≤◌, ◌≡◌, IsTrue, List, OnOk, slice_get};
ghost use Rattle.indexmap.specs.IndexMap.{spare};
ghost use Rattle.model.specs.declared.event.Reply.{Reply};
ghost use Rattle.model.specs.History.{top_out_of};
ghost use Rattle.scenario_run.specs.Tops.{AddsTop, AreTops};

use indexmap::IndexMap;
use model::event::Reply;
use model::history::TopOut;
use std::alloc::AllocError;

/// Notes how a packet topped out where a reply says so, if that isn't known yet.
pub(crate) fn note_top(tops: &mut IndexMap<u64, TopOut>, reply: &Reply)
    requires { 0 < spare tops.old }
    ensures { AddsTop tops.old reply.now tops.new }
{
    let Reply::Topped {
        packet,
        status,
        info,
    } = *reply
    else {
        return;
    };
    let top = TopOut {
        packet,
        status,
        info,
    };
    if tops.contains_key(&top.packet) {
        return;
    }
    if let Ok(_none) = tops.insert(top.packet, top) {}
}

/// Makes room for so many more of them.
#[tactic(auto, using(crate::proofs::Topping::tops_same))]
pub(crate) fn make_room(tops: &mut IndexMap<u64, TopOut>, more: usize) -> Result<(), AllocError>
    ensures room { OnOk result (more ≤ spare tops.new) }
    ensures same { (told : List Reply) → AreTops tops.old told → AreTops tops.new told }
{
    tops.reserve(more)
}

/// How the packet of a number has topped out, if it has.
pub(crate) fn top_at(tops: &IndexMap<u64, TopOut>, number: u64) -> Option<TopOut>
    ensures { (told : List Reply) → AreTops tops.now told → result ≡ top_out_of told number }
{
    tops.get(&number).copied()
}

/// Whether packets topped out alike, in one order.
pub(crate) fn same_tops(ours: &IndexMap<u64, TopOut>, its: &IndexMap<u64, TopOut>) -> bool
    ensures { IsTrue result → ours.now.entries ≡ its.now.entries }
{
    if ours.len() != its.len() {
        return false;
    }
    for place in 0..ours.len() {
        if !same_entry(ours, its, place) {
            return false;
        }
    }
    true
}

/// Whether the packets at a place of that order did so.
fn same_entry(ours: &IndexMap<u64, TopOut>, its: &IndexMap<u64, TopOut>, place: usize) -> bool
    ensures { IsTrue result
        → slice_get ours.now.entries place ≡ slice_get its.now.entries place }
{
    match (ours.get_index(place), its.get_index(place)) {
        (Some((number, top)), Some((other, its_top))) => {
            *number == *other && same_top(top, its_top)
        }
        _ => false,
    }
}

/// Whether a packet topped out as another one did.
fn same_top(ours: &TopOut, its: &TopOut) -> bool
    ensures { IsTrue result → ours.now ≡ its.now }
{
    ours.packet == its.packet && ours.status == its.status && ours.info == its.info
}
