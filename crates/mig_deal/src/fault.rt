//! Why `Deal::new` fails: an allocation was refused.

ghost use Rattle.std.specs.Prelude.{◌≡◌};

use std::alloc::{AllocError, AllocFailed};
use std::error::Error;
use std::fmt::{self, Display, Formatter};

/// An allocation was refused.
#[derive(Debug, Clone, Copy, PartialEq, Eq)]
pub struct NoMemory;

impl NoMemory {
    /// Returns the fault's number, as documents and the tool's output have it.
    pub fn number(self) -> u8
        ensures { result ≡ 60 }
    {
        60
    }
}

/// Writes the fault's number and its message.
impl Display for NoMemory {
    fn fmt<W: fmt::Write>(&self, f: &mut Formatter<W>) -> fmt::Result {
        write!(f, "{}: an allocation was refused", self.number())
    }
}

impl Error for NoMemory {}

impl From<AllocError> for NoMemory {
    fn from(_: AllocError) -> NoMemory {
        NoMemory
    }
}
