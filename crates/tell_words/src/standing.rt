//! Words that hang on the place of an instruction alone, or on whom its thread waits for: made anew
//! only where they differ from those before.

use crate::line::Happened;
use checked::Checked;
use model::event::{Event, Reply};
use model::instr::Instr;
use model::view::FrameView;
use std::alloc::{AllocError, Global};
use tell_audit::ring::waits_for;

/// Of how many places words are kept.
const KEPT: usize = 256;

/// The place of an instruction whose words hang on nothing else, but on whom its thread waits for.
#[derive(Clone, Copy)]
pub(crate) struct Standing {
    driver: u8,
    routine: u8,
    position: u16,
    /// The device whose lock it may be.
    device: u8,
    /// Whether the thread waits, and for which other.
    waits: Option<Option<u8>>,
}

impl Standing {
    /// That of an event, if its words are such: those of a step that waits for a lock, or of a
    /// routine's return, unless they name what a lower driver returned.
    pub(crate) fn of(happened: &Happened, machine: &Checked) -> Option<Standing> {
        let Event::Step { thread } = happened.event else {
            return None;
        };
        let Some(acting) = happened.moment.acting else {
            return None;
        };
        let returns = matches!(acting.instruction, Some(Instr::Ret(_)))
            && happened.moment.returned.is_none();
        let waits = match happened.reply {
            Reply::Waited => Some(waits_for(machine, thread)),
            Reply::Finished if returns => None,
            Reply::Started(_)
            | Reply::Stepped
            | Reply::Finished
            | Reply::Topped { .. }
            | Reply::Idle
            | Reply::Refused
            | Reply::Bug(_)
            | Reply::Wrong(_) => return None,
        };
        match acting.frame {
            FrameView::Routine {
                driver,
                routine,
                position,
                device,
            } => Some(Standing {
                driver,
                routine,
                position,
                device,
                waits,
            }),
            FrameView::Walk(_) | FrameView::Cancel(_) => None,
        }
    }

    /// Whether another is the same.
    fn is(self, other: Standing) -> bool {
        self.driver == other.driver
            && self.routine == other.routine
            && self.position == other.position
            && self.device == other.device
            && self.waits == other.waits
    }

    /// Where its words are kept, beside those of others that share the place.
    fn place(self) -> usize {
        let waits = match self.waits {
            Some(Some(owner)) => owner as usize + 2,
            Some(None) => 1,
            None => 0,
        };
        let routine = self.driver as usize * 64 + self.routine as usize;
        let device = self.device as usize;
        (self.position as usize + routine * 17 + waits * 31 + device * 7) % KEPT
    }
}

/// Words, and what they hang on: nothing, where none were kept yet.
#[derive(Drop)]
struct Kept {
    standing: Option<Standing>,
    words: String,
}

/// Words that are kept.
#[derive(Drop)]
pub(crate) struct KeptWords {
    words: Vec<Kept>,
}

impl KeptWords {
    /// None.
    pub(crate) fn new(alloc: Global) -> Result<KeptWords, AllocError> {
        let mut words = Vec::with_capacity(alloc, KEPT)?;
        for _place in 0..KEPT {
            words.push(Kept {
                standing: None,
                words: String::new(alloc),
            })?;
        }
        Ok(KeptWords { words })
    }

    /// Those that hang on this, if they are kept.
    pub(crate) fn get(&self, standing: Standing) -> Option<&str> {
        let kept = self.words.get(standing.place())?;
        if kept.standing?.is(standing) {
            Some(kept.words.as_str())
        } else {
            None
        }
    }

    /// Keeps those that hang on this.
    pub(crate) fn keep(&mut self, standing: Standing, words: &str) -> Result<(), AllocError> {
        let Some(kept) = self.words.get_mut(standing.place()) else {
            return Ok(());
        };
        kept.standing = None;
        kept.words.clear();
        kept.words.push_str(words)?;
        kept.standing = Some(standing);
        Ok(())
    }
}
