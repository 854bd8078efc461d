//! The frames of a thread.

ghost use Rattle.std.specs.Prelude.{◌≡◌, None};
ghost use Rattle.std.specs.Borrow.{sem};
ghost use Rattle.machine_parts.specs.Left.{frame_over as frame_over_of};

use crate::activation::entered;
use crate::ran::{Managing, Over};
use laws_slots::WordActivation;
use std::marker::Model;

/// One frame of a thread: a routine that runs, or the I/O manager's. It is a struct, and no enum,
/// so that a routine is stepped where it stands.
#[derive(Drop)]
pub struct Frame {
    /// What the I/O manager does, where the frame is its.
    manager: Option<Managing>,
    /// The routine that runs, where it isn't.
    activation: WordActivation,
}

impl Model for Frame {
    ghost use Rattle.laws_slots.specs.Words.{WordFrame};
    ghost use Rattle.machine_parts.specs.Frames.{frame_of};

    ghost Value = { WordFrame };

    ghost view = { λ f. frame_of f.manager f.activation };
}

impl Default for Frame {
    fn default() -> Frame {
        Frame {
            manager: Some(Managing::Completes(0)),
            activation: entered(0, 0, 0, 0),
        }
    }
}

impl Frame {
    ghost use Rattle.laws_slots.specs.Words.{WordRoutine};
    ghost use Rattle.machine_parts.specs.Frames.{manager_of};
    ghost use Rattle.machine_parts.specs.Lending.{LendsActivation};

    /// Another frame stands in its place. What a frame of the I/O manager doesn't have stays there.
    pub fn replace(&mut self, over: Over)
        ensures { self.new ≡ frame_over_of over }
    {
        match over {
            Over::Manager(managing) => self.manager = Some(managing),
            Over::Routine {
                driver,
                routine,
                device,
                key,
            } => {
                self.manager = None;
                self.activation = entered(driver, routine, device, key);
            }
        }
    }

    /// What the I/O manager does, where the frame is its.
    pub fn manager(&self) -> Option<Managing>
        ensures { result ≡ manager_of self.now }
    {
        self.manager
    }

    /// The routine of a frame that is a routine's.
    pub fn activation(&self) -> &WordActivation
        requires { manager_of self.now ≡ None }
        ensures { self.now ≡ WordRoutine result.now }
    {
        &self.activation
    }

    /// The same, to be stepped where it stands.
    pub fn activation_mut(&mut self) -> &mut WordActivation
        requires { manager_of self.old ≡ None }
        ensures* writes_back { sem 𝓛 (LendsActivation self.entry result) }
        ensures activation { self.old ≡ WordRoutine result.now }
    {
        &mut self.activation
    }
}
