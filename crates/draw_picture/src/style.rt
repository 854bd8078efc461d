//! What the elements of a picture look like. What differs in colour differs in its dashes, its
//! width or its lightness too, so that it can be told apart in grey.

use draw_lanes::hold::Hold;
use draw_lanes::lane::State;

/// The style sheet, and the hatching of waits.
pub(crate) const STYLE: &str = "<style>\
text{font-family:'DejaVu Sans Mono','Liberation Mono',Consolas,Menlo,monospace;font-size:10px;\
fill:#111}\n\
.title{font-size:14px;font-weight:bold}\n\
.small{fill:#333}\n\
.end{text-anchor:end}\n\
.fold{text-anchor:end;font-size:8px;fill:#555}\n\
.place{fill:#444}\n\
.bad{fill:#a00018;font-weight:bold}\n\
.packet{font-size:8px;font-weight:bold;fill:#000}\n\
.lock{font-size:8px;fill:#222}\n\
.paper{fill:#fff}\n\
.zebra{fill:#f3f3f3}\n\
.rule{stroke:#888;fill:none}\n\
.side{stroke:#c4c4c4;fill:none}\n\
.life{stroke:#999;stroke-dasharray:1 3;fill:none}\n\
.busy{fill:#fff;stroke:#666}\n\
.waits{fill:url(#hatching);stroke:#444}\n\
.owns{fill:#ddd;stroke:#222}\n\
.queued{fill:#bbb;stroke:#444}\n\
.routine{stroke:#0b3c8c;stroke-width:3;fill:none}\n\
.manager{stroke:#e08214;stroke-width:4;stroke-dasharray:7 3;fill:none}\n\
.queue{stroke:#1a8a5a;stroke-width:4;stroke-dasharray:2 2;fill:none}\n\
.start{stroke:#8a3ba8;stroke-width:4;stroke-dasharray:9 2 2 2;fill:none}\n\
.slot{stroke:#79c4e6;stroke-width:7;fill:none}\n\
.nobody{stroke:#000;stroke-width:2;stroke-dasharray:1 4;fill:none}\n\
.goes{stroke:#222;fill:none}\n\
.black{fill:#000}\n\
.hollow{fill:#fff;stroke:#000}\n\
.cross{stroke:#000;stroke-width:2;fill:none}\n\
.stop{fill:#b00020;stroke:#000}\n\
.white{stroke:#fff;stroke-width:2;fill:none}\n\
</style>\n\
<defs><pattern id=\"hatching\" width=\"6\" height=\"6\" patternUnits=\"userSpaceOnUse\">\
<path d=\"M0 0H6V6H0Z\" fill=\"#fff\"/><path d=\"M0 6L6 0M-1 1L1 -1M5 7L7 5\" stroke=\"#666\" \
stroke-width=\"1.4\"/></pattern></defs>\n";

/// The class of a packet's line, by what holds it.
pub(crate) fn class_of_hold(hold: Hold) -> &'static str {
    match hold {
        Hold::Routine => "routine",
        Hold::Manager => "manager",
        Hold::Queue => "queue",
        Hold::Start => "start",
        Hold::Slot => "slot",
        Hold::Nobody => "nobody",
    }
}

/// The class of what lasts in a lane.
pub(crate) fn class_of_state(state: State) -> &'static str {
    match state {
        State::Busy => "busy",
        State::Waits => "waits",
        State::Owns(_) => "owns",
        State::Queued => "queued",
    }
}
