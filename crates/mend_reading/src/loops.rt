//! The loops of a routine.

use crate::acts::{Act, act_of};
use driver_set::Instr;
use std::alloc::{AllocError, Global};

/// The loops round the positions of a routine.
#[derive(Drop)]
pub struct Loops {
    /// The innermost loop that is open before each position. Nothing is kept of a routine that has
    /// no loop.
    opened: Vec<Option<u16>>,
    /// Whether a loop that starts at each position has an `end`.
    closed: Vec<bool>,
}

impl Loops {
    /// Those of no routine.
    pub fn new(alloc: Global) -> Loops {
        Loops {
            opened: Vec::new(alloc),
            closed: Vec::new(alloc),
        }
    }

    /// Reads a routine.
    pub fn read(&mut self, code: &[Instr]) -> Result<(), AllocError> {
        self.opened.clear();
        self.closed.clear();
        if !has_loop(code) {
            return Ok(());
        }
        let mut innermost = None;
        for instr in code {
            self.opened.push(innermost)?;
            self.closed.push(false)?;
            innermost = self.next(instr, innermost);
        }
        Ok(())
    }

    /// The innermost open loop behind an instruction, the last that was read.
    fn next(&mut self, instr: &Instr, innermost: Option<u16>) -> Option<u16> {
        match act_of(instr) {
            Act::Loop => u16::try_from(self.opened.len().saturating_sub(1)).ok(),
            Act::End => {
                let innermost = innermost?;
                if let Some(closed) = self.closed.get_mut(innermost as usize) {
                    *closed = true;
                }
                self.opened_at(innermost as usize)
            }
            Act::Number
            | Act::Leave
            | Act::Mark
            | Act::Lock
            | Act::Waiting
            | Act::Packet
            | Act::Down => innermost,
        }
    }

    /// The innermost loop that is open before a position.
    pub fn opened_at(&self, at: usize) -> Option<u16> {
        self.opened.get(at).copied().flatten()
    }

    /// Whether the loop that starts at a position has an `end`.
    pub fn is_closed(&self, at: usize) -> bool {
        self.closed.get(at).copied().unwrap_or(false)
    }

    /// The innermost loop with an `end` round a position.
    pub fn round(&self, at: usize) -> Option<u16> {
        let mut innermost = self.opened_at(at);
        for _ in 0..self.opened.len() {
            match innermost {
                Some(start) if !self.is_closed(start as usize) => {
                    innermost = self.opened_at(start as usize);
                }
                _ => return innermost,
            }
        }
        None
    }

    /// How many loops with an `end` are round a position, and how often they turn it.
    pub fn turns(&self, code: &[Instr], at: usize) -> (usize, u64) {
        let (mut depth, mut turns) = (0_usize, 1_u64);
        let mut innermost = self.round(at);
        for _ in 0..self.opened.len() {
            let Some(start) = innermost else {
                return (depth, turns);
            };
            depth = depth.saturating_add(1);
            if let Some(Instr::Loop(count)) = code.get(start as usize) {
                turns = turns.saturating_mul(u64::from(count.count()));
            }
            innermost = self.round(start as usize);
        }
        (depth, turns)
    }
}

/// Whether a routine has a loop or an end of one.
fn has_loop(code: &[Instr]) -> bool {
    code.iter()
        .any(|instr| matches!(*instr, Instr::Loop(_) | Instr::End))
}
