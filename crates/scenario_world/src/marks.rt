//! The mark of a packet's current location.

ghost use Rattle.std.specs.Prelude.{◌≡◌};
ghost use Rattle.scenario_world.specs.Expected.{current_mark, is_marked, is_unmarked};

use model::view::{LiveView, PacketView};

/// Whether a packet is live, and its current location is marked.
pub fn is_marked(view: &PacketView) -> bool
    ensures { result ≡ is_marked view.now }
{
    match view {
        PacketView::Live(live) => current_mark(live),
        PacketView::Never | PacketView::Topped => false,
    }
}

/// Whether it is live, and its current location isn't.
pub fn is_unmarked(view: &PacketView) -> bool
    ensures { result ≡ is_unmarked view.now }
{
    match view {
        PacketView::Live(live) => !current_mark(live),
        PacketView::Never | PacketView::Topped => false,
    }
}

/// The mark of a live packet's current location.
fn current_mark(live: &LiveView) -> bool
    ensures { result ≡ current_mark live.now }
{
    match live.marks.get(live.depth.saturating_sub(1) as usize) {
        Some(mark) => *mark,
        None => false,
    }
}
