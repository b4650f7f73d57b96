//! Why a file with mapped-ram is refused, by name and number.

ghost use Rattle.std.specs.Prelude.{◌≡◌};
ghost use Rattle.mig_mapped.specs.FaultNumber.{fault_number};

use mig_mem::NoMemory;
use std::alloc::{AllocError, AllocFailed};
use std::error::Error;
use std::fmt::{self, Display, Formatter};

/// Why bytes are no size list with mapped-ram: the first fault of the first block at fault.
#[derive(Clone, Copy, Debug, PartialEq, Eq)]
pub enum MappedFault {
    /// The id of an entry isn't 1 to 255 bytes of 0x20 to 0x7E.
    Id,
    /// An earlier entry has the id.
    IdTwice,
    /// The length of an entry is 0, or no multiple of the page size.
    Length,
    /// The size list has a 257th entry.
    TooManyBlocks,
    /// The lengths of the entries pass the total.
    SizeSum,
    /// The file ends inside a head, or before the end of a block's pages.
    Truncated,
    /// The version of a header isn't 1.
    HeaderVersion,
    /// The page size in a header isn't the guest's.
    HeaderPageSize,
    /// A block's bitmap doesn't follow its header.
    BitmapOffset,
    /// The offset of a block's pages is before the end of its bitmap, is no multiple of the page
    /// size, or is so large that a file can't have the pages.
    PagesOffset,
    /// A bit is set after that of the block's last page.
    BitmapTail,
}

impl MappedFault {
    /// Returns the fault's number, as documents and the tool's output have it.
    pub fn number(self) -> u8
        ensures { result ≡ fault_number self }
    {
        match self {
            MappedFault::Id => 21,
            MappedFault::IdTwice => 22,
            MappedFault::Length => 23,
            MappedFault::TooManyBlocks => 24,
            MappedFault::SizeSum => 25,
            MappedFault::Truncated => 34,
            MappedFault::HeaderVersion => 72,
            MappedFault::HeaderPageSize => 73,
            MappedFault::BitmapOffset => 74,
            MappedFault::PagesOffset => 75,
            MappedFault::BitmapTail => 76,
        }
    }

    // Returns the message.
    fn words(self) -> &'static str {
        match self {
            MappedFault::Id => "bad block id",
            MappedFault::IdTwice => "block id twice",
            MappedFault::Length => "bad block length",
            MappedFault::TooManyBlocks => "more than 256 blocks",
            MappedFault::SizeSum => "blocks longer than the RAM total",
            MappedFault::Truncated => "the file ends early",
            MappedFault::HeaderVersion => "the header's version isn't 1",
            MappedFault::HeaderPageSize => "the header's page size isn't the guest's",
            MappedFault::BitmapOffset => "the bitmap doesn't follow its header",
            MappedFault::PagesOffset => "bad offset of a block's pages",
            MappedFault::BitmapTail => "a bit is set after the last page's",
        }
    }
}

/// Writes the fault's number and its message.
impl Display for MappedFault {
    fn fmt<W: fmt::Write>(&self, f: &mut Formatter<W>) -> fmt::Result {
        write!(f, "{}: {}", self.number(), self.words())
    }
}

impl Error for MappedFault {}

/// Why a head wasn't taken, or a writer wasn't created.
#[derive(Clone, Copy, Debug, PartialEq, Eq)]
pub enum MappedStop {
    /// The head has this fault, or would have it. With `Truncated` the bytes end inside it.
    Fault(MappedFault),
    /// An allocation was refused.
    NoMemory,
}

impl From<NoMemory> for MappedStop {
    ghost use Rattle.mig_mapped.specs.declared.fault.MappedStop.TheVariants.{NoMemory as stop_no_memory};

    ghost from_gives = { λ _ e. e ≡ stop_no_memory };

    fn from(_: NoMemory) -> MappedStop {
        MappedStop::NoMemory
    }
}

impl From<AllocError> for MappedStop {
    ghost use Rattle.mig_mapped.specs.declared.fault.MappedStop.TheVariants.{NoMemory as stop_no_memory};

    ghost from_gives = { λ _ e. e ≡ stop_no_memory };

    fn from(_: AllocError) -> MappedStop {
        MappedStop::NoMemory
    }
}

impl<T: Drop> From<AllocFailed<T>> for MappedStop {
    ghost use Rattle.mig_mapped.specs.declared.fault.MappedStop.TheVariants.{NoMemory as stop_no_memory};

    ghost from_gives = { λ _ e. e ≡ stop_no_memory };

    fn from(_: AllocFailed<T>) -> MappedStop {
        MappedStop::NoMemory
    }
}

/// Why a load didn't take a head.
#[derive(Clone, Copy, Debug, PartialEq, Eq)]
pub enum MappedLoadFault {
    /// The head has this fault. With `Truncated` the bytes end inside it.
    Fault(MappedFault),
    /// The memory's next block has another id or another number of pages, or there is none.
    OtherTable,
    /// An allocation was refused.
    NoMemory,
}

impl From<NoMemory> for MappedLoadFault {
    ghost use Rattle.mig_mapped.specs.declared.fault.MappedLoadFault.TheVariants.{NoMemory as load_no_memory};

    ghost from_gives = { λ _ e. e ≡ load_no_memory };

    fn from(_: NoMemory) -> MappedLoadFault {
        MappedLoadFault::NoMemory
    }
}
