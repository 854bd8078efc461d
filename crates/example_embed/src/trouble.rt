//! What can go wrong.

use asm::AsmFault;
use hostcore::LogFull;
use std::io;
use thiserror::Error;
use verifier::Refusal;

/// Why the program ends early.
#[derive(Debug, Drop, Error)]
pub enum Trouble {
    #[error(transparent)]
    Text(#[from] AsmFault),
    #[error("refused {0}")]
    Refused(Refusal),
    #[error("out of memory")]
    Memory,
    #[error("the seat of the thread is given out")]
    NoSeat,
    #[error("the history has all entries that it may have")]
    HistoryFull,
    #[error(transparent)]
    Output(#[from] io::Error),
}

impl From<LogFull> for Trouble {
    fn from(_full: LogFull) -> Trouble {
        Trouble::HistoryFull
    }
}
