//! Whether answers are in colour, by what a run of the program finds around it.

ghost use Rattle.std.specs.Prelude.{◌≡◌};
ghost use Rattle.drvhost_words.specs.Program.{settled, settled_judging, settled_way};

use cli::job::{Judging, Way};
use drvhost_devices::coloring::Coloring;
use drvhost_devices::surroundings::Surroundings;

/// How sets are judged: in colour always or never.
pub(crate) fn settled_judging(surroundings: Surroundings, judging: Judging) -> Judging
    ensures { result ≡ settled_judging surroundings judging }
{
    match judging {
        Judging::Explain(extent, coloring) => {
            Judging::Explain(extent, settled(surroundings, coloring))
        }
        Judging::Check => Judging::Check,
        Judging::CheckJson => Judging::CheckJson,
        Judging::ExplainJson(extent) => Judging::ExplainJson(extent),
    }
}

/// How a set is run, likewise.
pub(crate) fn settled_way(surroundings: Surroundings, way: Way) -> Way
    ensures { result ≡ settled_way surroundings way }
{
    match way {
        Way::Tell(verification, manner, coloring) => {
            Way::Tell(verification, manner, settled(surroundings, coloring))
        }
        Way::Trace(verification) => Way::Trace(verification),
        Way::TraceJson(verification) => Way::TraceJson(verification),
        Way::TellJson(verification, strictness) => Way::TellJson(verification, strictness),
        Way::Draw(verification, figure) => Way::Draw(verification, figure),
        Way::Schedule(verification) => Way::Schedule(verification),
    }
}

fn settled(surroundings: Surroundings, coloring: Coloring) -> Coloring
    ensures { result ≡ settled surroundings coloring }
{
    if coloring.is_painted(surroundings) {
        Coloring::Always
    } else {
        Coloring::Never
    }
}
