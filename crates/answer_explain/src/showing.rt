//! The command that looks for a run which shows what is wrong with a refused set.

ghost use Rattle.std.specs.Prelude.{◌≡◌, IfOk};
ghost use Rattle.answer_explain.specs.Explained.{hunt_line};

use crate::joining::with_words;
use crate::quoting::add_word;
use answer::content::Named;
use answer::job::Job;
use drvhost_devices::told::Told;
use std::alloc::{AllocError, Global};

/// What stands before the name of a file whose set is refused.
const HUNT: &str = "show it: drvhost hunt ";

/// A job on the set of a file. Where its exit status says that the set is refused, the command that
/// looks for a run which shows what is wrong with it stands behind its answer.
#[derive(Drop)]
pub struct WithHunt<J> {
    pub job: J,
}

impl<J: Job> Job for WithHunt<J> {
    ghost use Rattle.answer_explain.specs.Explained.{IsShownFor};

    ghost right = { λ shown file. IsShownFor file.name.now (J.right shown.job file) };

    fn answer(&self, alloc: Global, set: &Named<'_>) -> Result<Told, AllocError> {
        let told = self.job.answer(alloc, set)?;
        if told.status() != 1 {
            return Ok(told);
        }
        let command = hunt_line(alloc, set.name)?;
        Ok(with_words(alloc, told, command.as_slice())?)
    }
}

/// The command that hunts in the file of a name.
fn hunt_line(alloc: Global, name: &str) -> Result<Vec<u8>, AllocError>
    ensures { IfOk result (λ line. line.items ≡ hunt_line name.now) }
{
    let mut line = Vec::new(alloc);
    line.extend_from_slice(HUNT.as_bytes())?;
    add_word(&mut line, name.as_bytes())?;
    line.push(b'\n')?;
    Ok(line)
}
