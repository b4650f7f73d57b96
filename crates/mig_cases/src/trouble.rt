//! Why a line of a case can't be run: the error that every module returns, and `play` prints; and
//! the second call after a refused one.

use mig_mem::NoMemory;
use std::alloc::{AllocError, AllocFailed};

/// Why a line can't be run.
#[derive(Clone, Copy)]
pub enum Trouble {
    /// Its words aren't those of any line, or a call's conditions don't hold.
    Line,
    NoMemory,
}

pub type Done = Result<(), Trouble>;

/// Makes a call, and makes it again if it was refused. A refused call leaves what it was passed as
/// it was, so the second one returns what the first one would have returned with memory, and for
/// any other reason the same refusal.
#[macro_export]
macro_rules! again {
    ($call:expr) => {
        match $call {
            Err(_) => $call,
            done => done,
        }
    };
}

impl Trouble {
    /// Returns the words that are printed for it.
    pub fn text(self) -> &'static str {
        match self {
            Trouble::Line => "the line can't be followed",
            Trouble::NoMemory => "no memory",
        }
    }
}

impl From<AllocError> for Trouble {
    fn from(_: AllocError) -> Trouble {
        Trouble::NoMemory
    }
}

impl<T: Drop> From<AllocFailed<T>> for Trouble {
    fn from(_: AllocFailed<T>) -> Trouble {
        Trouble::NoMemory
    }
}

impl From<NoMemory> for Trouble {
    fn from(_: NoMemory) -> Trouble {
        Trouble::NoMemory
    }
}

impl From<mig_packet::NoMemory> for Trouble {
    fn from(_: mig_packet::NoMemory) -> Trouble {
        Trouble::NoMemory
    }
}
