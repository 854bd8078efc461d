//! The frames of a thread.

ghost use Rattle.std.specs.Prelude.{◌≡◌, None, option_map};
ghost use Rattle.std.specs.Borrow.{sem};
ghost use Rattle.checked_parts.specs.Ran.{frame_over as frame_over_of, is_last as is_last_over};

use crate::activation::{enter, entered};
use crate::ran::Over;
use model::limits::MAX_FRAMES;
use model::view::FrameView;
use model::world::{Activation, Canceller, Value};
use std::marker::Model;

/// What the I/O manager does, where a frame is its.
#[derive(Clone, Copy)]
pub enum Managing {
    /// It completes the packet of this number.
    Completes(u64),
    /// It cancels a packet.
    Cancels(Canceller),
}

/// One frame of a thread: a routine that runs, or the I/O manager's. It is a struct, and no enum,
/// so that a routine is stepped where it stands.
#[derive(Drop)]
pub struct Frame {
    /// What the I/O manager does, where the frame is its.
    manager: Option<Managing>,
    /// The routine that runs, where it isn't.
    activation: Activation,
}

impl Model for Frame {
    ghost use Rattle.model.specs.declared.world.Frame.{Frame};
    ghost use Rattle.checked_parts.specs.Frames.{shown};

    ghost Value = { Frame };

    ghost view = { λ f. shown f.manager f.activation };
}

impl Default for Frame {
    fn default() -> Frame {
        Frame {
            manager: Some(Managing::Completes(0)),
            activation: entered(0, 0, 0, Value::Blank),
        }
    }
}

impl Frame {
    ghost use Rattle.model.specs.declared.world.Frame.TheVariants.{Routine as RoutineFrame};
    ghost use Rattle.checked_parts.specs.Frames.{activation_of, manager_of, walked_packet};
    ghost use Rattle.checked_parts.specs.Lending.{LendsActivation};
    ghost use Rattle.model.specs.View.{frame_view};

    /// The frame of a routine.
    pub fn routine(activation: Activation) -> Frame
        ensures { result ≡ RoutineFrame activation }
    {
        Frame {
            manager: None,
            activation,
        }
    }

    /// A frame that is put over another one.
    pub fn over(over: Over) -> Frame
        ensures { result ≡ frame_over_of over }
    {
        match over {
            Over::Manager(managing) => Frame {
                manager: Some(managing),
                activation: entered(0, 0, 0, Value::Blank),
            },
            Over::Routine {
                driver,
                routine,
                device,
                packet,
            } => Frame::routine(entered(driver, routine, device, Value::Ref(packet))),
        }
    }

    /// Becomes a frame that is put into the place of another one. One of the I/O manager has no use
    /// for a routine, so what stands there is left.
    pub fn replace(&mut self, over: Over)
        ensures { self.new ≡ frame_over_of over }
    {
        match over {
            Over::Manager(managing) => self.manager = Some(managing),
            Over::Routine {
                driver,
                routine,
                device,
                packet,
            } => {
                self.manager = None;
                enter(
                    &mut self.activation,
                    driver,
                    routine,
                    device,
                    Value::Ref(packet),
                );
            }
        }
    }

    /// What there is to tell of it.
    pub fn view(&self) -> FrameView
        ensures { result ≡ frame_view self.now }
    {
        match self.manager {
            Some(Managing::Completes(n)) => FrameView::Walk(n),
            Some(Managing::Cancels(canceller)) => FrameView::Cancel(canceller),
            None => FrameView::Routine {
                driver: self.activation.driver,
                routine: self.activation.routine,
                device: self.activation.device,
                position: self.activation.position,
            },
        }
    }

    /// The packet that the I/O manager completes, where the frame is of that.
    pub fn completed_packet(&self) -> Option<u64>
        ensures { result ≡ walked_packet self.now }
    {
        match self.manager? {
            Managing::Completes(n) => Some(n),
            Managing::Cancels(_) => None,
        }
    }

    /// What the I/O manager does, where the frame is its.
    pub fn manager(&self) -> Option<Managing>
        ensures { result ≡ manager_of self.now }
    {
        self.manager
    }

    /// The routine that runs, where the frame is a routine's.
    pub fn activation(&self) -> Option<&Activation>
        ensures { option_map (λ a. a.now) result ≡ activation_of self.now }
    {
        match self.manager {
            Some(_) => None,
            None => Some(&self.activation),
        }
    }

    /// The routine of a frame that is a routine's, to be stepped where it stands.
    pub fn activation_mut(&mut self) -> &mut Activation
        requires { manager_of self.old ≡ None }
        ensures* writes_back { sem 𝓛 (LendsActivation self.entry result) }
        ensures activation { self.old ≡ RoutineFrame result.now }
    {
        &mut self.activation
    }
}

/// Whether there is no room for another frame over one that stands over so many.
pub fn is_last(below: usize) -> bool
    ensures { result ≡ is_last_over below }
{
    below > MAX_FRAMES - 2
}
