//! Why a stream is refused, by name and number: what `StreamReader::state` returns, and loads pass
//! on.

ghost use Rattle.std.specs.Prelude.{◌≡◌};
ghost use Rattle.mig_stream.specs.FaultNumber.{fault_number};

use std::error::Error;
use std::fmt::{self, Display, Formatter};

/// Why bytes are no stream of guest memory: the first fault of the first item at fault.
#[derive(Clone, Copy, Debug, PartialEq, Eq)]
pub enum StreamFault {
    /// The stream doesn't begin with QEMU's magic, `QEVM`.
    Magic,
    /// The version of the stream isn't 3.
    Version,
    /// Unexpected section type.
    SectionType,
    /// The section's name isn't `ram`; or a device's section that stands before RAM's pages isn't
    /// virtio-mem's early state, version 1.
    SectionName,
    /// The section's instance isn't 0.
    Instance,
    /// The section's version isn't 4.
    RamVersion,
    /// The section id of a PART or END isn't START's.
    SectionId,
    /// The footer isn't 0x7E with START's section id.
    Footer,
    /// The configuration's name is longer than 1,024 bytes.
    ConfigLength,
    /// The size list's total is 0, or above the limit.
    Total,
    /// The id of an entry isn't 1 to 255 bytes of 0x20 to 0x7E.
    Id,
    /// An earlier entry has the id.
    IdTwice,
    /// The length of an entry is 0, or no multiple of the page size; or the blocks of a virtio-mem
    /// have 0 bytes.
    Length,
    /// The size list has a 257th entry.
    TooManyBlocks,
    /// The lengths of the entries pass the total.
    SizeSum,
    /// START's first record isn't the size list, or there is a size list elsewhere.
    SizePlace,
    /// The flags of a record head aren't accepted; the fault carries them.
    Flags(u16),
    /// A page record leaves out its block's id, and no record named a block before.
    NoBlock,
    /// A page record names an id that isn't in the table.
    UnknownBlock,
    /// The offset isn't in the block, or isn't 0 at EOS or FLUSH.
    OffsetOut,
    /// The byte of a zero page record isn't 0; the fault carries the byte.
    Fill(u8),
    /// A FLUSH in a single stream.
    Flush,
    /// A main stream ends after a page record that no FLUSH follows.
    Tail,
    /// The stream ended before its end byte, or in a machine's stream before the footer of RAM's
    /// END, or the first device's section of a background snapshot.
    Truncated,
    /// A subsection of the configuration has an unknown name, or a version other than 1.
    Subsection,
    /// The configuration names the capability `mapped-ram`, whose layout of RAM's section isn't
    /// read.
    Capability,
    /// The configuration's page bits aren't those of the page size.
    PageBits,
    /// A COMMAND has a number that isn't accepted, or allows postcopy of RAM beside the capability
    /// `x-ignore-shared`.
    Command,
    /// A section, or a round of a main stream, has more page records than may wait.
    Waiting,
}

impl StreamFault {
    /// Returns the fault's number, as documents and the tool's output have it.
    pub fn number(self) -> u8
        ensures { result ≡ fault_number self }
    {
        match self {
            StreamFault::Magic => 11,
            StreamFault::Version => 12,
            StreamFault::SectionType => 13,
            StreamFault::SectionName => 14,
            StreamFault::Instance => 15,
            StreamFault::RamVersion => 16,
            StreamFault::SectionId => 17,
            StreamFault::Footer => 18,
            StreamFault::ConfigLength => 19,
            StreamFault::Total => 20,
            StreamFault::Id => 21,
            StreamFault::IdTwice => 22,
            StreamFault::Length => 23,
            StreamFault::TooManyBlocks => 24,
            StreamFault::SizeSum => 25,
            StreamFault::SizePlace => 26,
            StreamFault::Flags(_) => 27,
            StreamFault::NoBlock => 28,
            StreamFault::UnknownBlock => 29,
            StreamFault::OffsetOut => 30,
            StreamFault::Fill(_) => 31,
            StreamFault::Flush => 32,
            StreamFault::Tail => 33,
            StreamFault::Truncated => 34,
            StreamFault::Subsection => 46,
            StreamFault::Capability => 47,
            StreamFault::PageBits => 48,
            StreamFault::Command => 49,
            StreamFault::Waiting => 64,
        }
    }

    // Returns the message of a fault that carries no value.
    fn words(self) -> &'static str {
        match self {
            StreamFault::Magic => "the stream doesn't begin with QEVM",
            StreamFault::Version => "the stream's version isn't 3",
            StreamFault::SectionType => "unexpected section type",
            StreamFault::SectionName => "the section isn't ram",
            StreamFault::Instance => "the section's instance isn't 0",
            StreamFault::RamVersion => "the section's version isn't 4",
            StreamFault::SectionId => "wrong section id",
            StreamFault::Footer => "wrong footer",
            StreamFault::ConfigLength => "configuration name of more than 1,024 bytes",
            StreamFault::Total => "RAM total is 0 or above the limit",
            StreamFault::Id => "bad block id",
            StreamFault::IdTwice => "block id twice",
            StreamFault::Length => "bad block length",
            StreamFault::TooManyBlocks => "more than 256 blocks",
            StreamFault::SizeSum => "blocks longer than the RAM total",
            StreamFault::SizePlace => "RAM block list out of place",
            StreamFault::Flags(_) => "unexpected record flags",
            StreamFault::NoBlock => "page record without a block",
            StreamFault::UnknownBlock => "page record of an unknown block",
            StreamFault::OffsetOut => "bad record offset",
            StreamFault::Fill(_) => "fill byte of a zero page isn't 0",
            StreamFault::Flush => "FLUSH in a single stream",
            StreamFault::Tail => "page record after the last FLUSH",
            StreamFault::Truncated => "the stream ends early",
            StreamFault::Subsection => "unknown subsection of the configuration",
            StreamFault::Capability => "unsupported capability",
            StreamFault::PageBits => "page bits don't match the page size",
            StreamFault::Command => "unsupported COMMAND",
            StreamFault::Waiting => "too many page records wait",
        }
    }
}

/// Writes the fault's number, its message, and what it carries.
impl Display for StreamFault {
    fn fmt<W: fmt::Write>(&self, f: &mut Formatter<W>) -> fmt::Result {
        write!(f, "{}: {}", self.number(), self.words())?;
        match self {
            StreamFault::Flags(flags) => write!(f, ": {flags:#x}"),
            StreamFault::Fill(byte) => write!(f, ": {byte:#x}"),
            _ => Ok(()),
        }
    }
}

impl Error for StreamFault {}
