//! Runs that are drawn.

ghost use Rattle.std.specs.Prelude.{◌≡◌, [], IfOk, ⊤};
ghost use Rattle.interleave.specs.Listing.{IsWithinLimits};
ghost use Rattle.drvhost_devices.specs.declared.fault.Fault.TheVariants.{Memory};
ghost use Rattle.model.specs.Machine.{ShowsWhole};
ghost use Rattle.answer_views.specs.Told.{IsRunDrawn};

use answer::as_text::ended;
use answer_runs::follow::is_last;
use answer_runs::running::Machine;
use answer_runs::watching::{Observer, Taken, observe};
use checked::Checked;
use draw_picture::{Drawing, Seen, add_picture};
use draw_tracks::Tracks;
use drvhost_devices::fault::Fault;
use drvhost_devices::figure::Figure;
use drvhost_devices::told::Told;
use interleave::schedule::Schedule;
use model::event::{Event, Reply};
use std::alloc::{AllocError, Global};
use std::mem::drop;
use tell_changes::Moment;
use tell_names::Book;
use words::Words;

/// Draws the run of a machine by a schedule, up to an event that stops it: with the names and the
/// lines of a text that names its set.
pub(crate) fn draw_run(
    alloc: Global,
    source: &[u8],
    machine: &mut Checked,
    schedule: &Schedule,
    figure: Figure,
) -> Result<Told, AllocError>
    requires begun { ShowsWhole machine.old schedule.now.threads [] }
    requires limits { IsWithinLimits schedule.now }
    ensures { IfOk result
        (IsRunDrawn machine.old.set schedule.now.threads schedule.now.events) }
{
    let mut painter = Painter::of(alloc, source, machine, figure)?;
    match observe(machine, schedule, &mut painter) {
        Ok(end) => {
            let picture = painter.into_text(alloc)?;
            Ok(ended(alloc, end, picture))
        }
        Err(_fault) => {
            drop(painter);
            Err(AllocError)
        }
    }
}

/// What a run is drawn on.
#[derive(Drop)]
enum Canvas {
    Picture(Drawing),
    Tracks(Tracks),
}

impl Canvas {
    /// An empty one, by the machine before the first event and the names of its set.
    fn of(
        alloc: Global,
        figure: Figure,
        machine: &Checked,
        book: &Book<'_>,
    ) -> Result<Canvas, AllocError> {
        Ok(match figure {
            Figure::Picture => Canvas::Picture(Drawing::begin(alloc, machine, book)?),
            Figure::Tracks => Canvas::Tracks(Tracks::begin(alloc, machine, book)?),
        })
    }

    /// Adds the event of a number.
    fn add_event(
        &mut self,
        book: &Book<'_>,
        number: u64,
        seen: Seen<'_>,
    ) -> Result<(), AllocError> {
        match self {
            Canvas::Picture(drawing) => drawing.add_event(book, number, seen),
            Canvas::Tracks(tracks) => tracks.add_event(book, seen),
        }
    }

    /// The text of what was drawn.
    fn into_text(self, alloc: Global) -> Result<Vec<u8>, AllocError> {
        match self {
            Canvas::Picture(drawing) => {
                let mut picture = Words::new(alloc);
                add_picture(&mut picture, &drawing);
                drop(drawing);
                Ok(picture.finish()?.into_bytes())
            }
            Canvas::Tracks(tracks) => tracks.end(),
        }
    }
}

/// The events of a run, of which each is drawn by itself.
#[derive(Drop)]
struct Painter<'a> {
    canvas: Canvas,
    book: Book<'a>,
    number: u64,
}

impl<'a> Painter<'a> {
    /// One that has drawn nothing, by the machine before the first event, with the names and the
    /// lines of a text.
    fn of(
        alloc: Global,
        source: &'a [u8],
        machine: &Checked,
        figure: Figure,
    ) -> Result<Painter<'a>, AllocError> {
        let book = Book::of(alloc, source)?;
        match Canvas::of(alloc, figure, machine, &book) {
            Ok(canvas) => Ok(Painter {
                canvas,
                book,
                number: 0,
            }),
            Err(lacking) => {
                drop(book);
                Err(lacking)
            }
        }
    }

    /// The text of what was drawn.
    fn into_text(self, alloc: Global) -> Result<Vec<u8>, AllocError> {
        let Painter { canvas, book, .. } = self;
        drop(book);
        canvas.into_text(alloc)
    }

    /// Draws the next event: the moment before it, what the machine replied, and the machine after
    /// it.
    fn paint<'s>(
        &mut self,
        event: &'s Event,
        moment: &'s Moment,
        reply: &'s Reply,
        machine: &'s Checked,
    ) -> Result<(), AllocError> {
        let seen = Seen::of(event, moment, reply, machine);
        self.canvas.add_event(&self.book, self.number, seen)?;
        self.number = self.number.saturating_add(1);
        Ok(())
    }
}

impl<'a> Observer<Checked> for Painter<'a> {
    ghost tells = { λ start now set threads past. ⊤ };

    ghost breaks = { λ start now fault set threads past. fault ≡ Memory };

    fn watch(
        &mut self,
        machine: &mut Checked,
        event: &Event,
        _count: usize,
    ) -> Result<Taken, Fault> {
        let moment = Moment::before(machine, event);
        let reply = machine.answer(event);
        self.paint(event, &moment, &reply, machine)?;
        Ok(Taken {
            count: 1,
            ended: is_last(&reply),
        })
    }
}
