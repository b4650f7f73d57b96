//! Why a call on guest memory was refused, by name and number. Every crate above returns this
//! `NoMemory`.

ghost use Rattle.std.specs.Prelude.{◌≡◌};
ghost use Rattle.mig_mem.specs.Refusal.{fault_number, no_memory_number};

use std::alloc::{AllocError, AllocFailed};
use std::error::Error;
use std::fmt::{self, Display, Formatter};

/// Why `Table::new` was refused. `Id`, `IdTwice` and `NoPages` carry the number of the first bad
/// entry, from 0.
#[derive(Clone, Copy, Debug, PartialEq, Eq)]
pub enum TableFault {
    /// The list is empty.
    NoBlocks,
    /// There are more than 256 entries.
    TooManyBlocks,
    /// The id isn't 1 to 255 bytes, each from 0x20 to 0x7E.
    Id(usize),
    /// An earlier entry has the id.
    IdTwice(usize),
    /// The block has no page.
    NoPages(usize),
    /// All blocks together have more than 2^40 bytes.
    TooLarge,
    /// An allocation was refused.
    NoMemory,
}

impl TableFault {
    /// Returns the fault's number, as documents and the tool's output have it.
    pub fn number(self) -> u8
        ensures { result ≡ fault_number self }
    {
        match self {
            TableFault::NoBlocks => 1,
            TableFault::TooManyBlocks => 2,
            TableFault::Id(_) => 3,
            TableFault::IdTwice(_) => 4,
            TableFault::NoPages(_) => 5,
            TableFault::TooLarge => 6,
            TableFault::NoMemory => NoMemory.number(),
        }
    }
}

/// Writes the fault's number and its message.
impl Display for TableFault {
    fn fmt<W: fmt::Write>(&self, f: &mut Formatter<W>) -> fmt::Result {
        write!(f, "{}: ", self.number())?;
        match self {
            TableFault::NoBlocks => f.write_str("there is no entry"),
            TableFault::TooManyBlocks => f.write_str("there are more than 256 entries"),
            TableFault::Id(i) => write!(
                f,
                "the id of entry {i} isn't 1 to 255 bytes of 0x20 to 0x7E"
            ),
            TableFault::IdTwice(i) => write!(f, "an earlier entry has the id of entry {i}"),
            TableFault::NoPages(i) => write!(f, "entry {i} has no page"),
            TableFault::TooLarge => f.write_str("all blocks together have more than 2^40 bytes"),
            TableFault::NoMemory => f.write_str(REFUSED),
        }
    }
}

impl Error for TableFault {}

/// An allocation was refused.
#[derive(Clone, Copy, Debug, PartialEq, Eq)]
pub struct NoMemory;

impl NoMemory {
    /// Returns the fault's number, as documents and the tool's output have it.
    pub fn number(self) -> u8
        ensures { result ≡ no_memory_number }
    {
        60
    }
}

// The message of `NoMemory`.
const REFUSED: &str = "an allocation was refused";

/// Writes the fault's number and its message.
impl Display for NoMemory {
    fn fmt<W: fmt::Write>(&self, f: &mut Formatter<W>) -> fmt::Result {
        write!(f, "{}: ", self.number())?;
        f.write_str(REFUSED)
    }
}

impl Error for NoMemory {}

impl From<AllocError> for NoMemory {
    fn from(_: AllocError) -> NoMemory {
        NoMemory
    }
}

impl<T: Drop> From<AllocFailed<T>> for NoMemory {
    fn from(_: AllocFailed<T>) -> NoMemory {
        NoMemory
    }
}

impl From<NoMemory> for TableFault {
    ghost use Rattle.mig_mem.specs.declared.fault.TableFault.TheVariants.{NoMemory as fault_no_memory};

    ghost from_gives = { λ _ e. e ≡ fault_no_memory };

    fn from(_: NoMemory) -> TableFault {
        TableFault::NoMemory
    }
}
