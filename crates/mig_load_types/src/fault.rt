//! Why a load failed, by name and number, and where: what every loader returns.

ghost use Rattle.std.specs.Prelude.{◌≡◌};
ghost use Rattle.mig_mem.specs.Refusal.{no_memory_number};
ghost use Rattle.mig_load_types.specs.LoadFaultNumber.{fault_number, in_place_fault_number};

use mig_assemble::RoundFault;
use mig_mem::NoMemory;
use mig_packet::ChannelFault;
use mig_stream::StreamFault;
use std::error::Error;
use std::fmt::{self, Display, Formatter};

/// Where a load found a fault.
#[derive(Clone, Copy, Debug, PartialEq, Eq)]
pub enum Origin {
    /// In the stream: the single stream, or the main stream of multifd.
    Main,
    /// In a channel, by its index among the channels that were passed.
    Channel(usize),
    /// In no one source: a round of all sources together, or a refused allocation.
    Round,
}

/// The fault of a load.
#[derive(Clone, Copy, Debug, PartialEq, Eq)]
pub enum Fault {
    /// The stream's fault.
    Stream(StreamFault),
    /// The channel's fault.
    Channel(ChannelFault),
    /// The round isn't lawful: 54 to 59. A refused allocation is `Fault::NoMemory`, and never
    /// `RoundFault::NoMemory` in here.
    Round(RoundFault),
    /// The channel's hello names the id of an earlier channel.
    HelloTwice,
    /// The channel continues after the main stream has ended.
    Extra,
    /// The channel has ended before the main stream.
    Short,
    /// The stream is of another table than the memory that was passed for it. Only loads in place
    /// report it.
    OtherTable,
    /// An allocation was refused.
    NoMemory,
}

impl Fault {
    /// Returns the fault's number, as documents and the tool's output have it.
    pub fn number(self) -> u8
        ensures { result ≡ fault_number self }
    {
        match self {
            Fault::Stream(fault) => fault.number(),
            Fault::Channel(fault) => fault.number(),
            Fault::Round(fault) => fault.number(),
            Fault::HelloTwice => 51,
            Fault::Extra => 52,
            Fault::Short => 53,
            Fault::OtherTable => 63,
            Fault::NoMemory => NoMemory.number(),
        }
    }
}

/// Why a load ended before its sources did.
#[derive(Clone, Copy, Debug, PartialEq, Eq)]
pub struct LoadFault {
    /// How many rounds were counted before it: the number of its round, from 0.
    pub round: u64,
    /// Where the fault is.
    pub source: Origin,
    /// The fault.
    pub fault: Fault,
}

impl Display for Origin {
    fn fmt<W: fmt::Write>(&self, f: &mut Formatter<W>) -> fmt::Result {
        match self {
            Origin::Main => f.write_str("the stream"),
            Origin::Channel(channel) => write!(f, "channel {channel}"),
            Origin::Round => f.write_str("the round"),
        }
    }
}

/// Writes the fault's number and its message.
impl Display for Fault {
    fn fmt<W: fmt::Write>(&self, f: &mut Formatter<W>) -> fmt::Result {
        match self {
            Fault::Stream(fault) => Display::fmt(fault, f),
            Fault::Channel(fault) => Display::fmt(fault, f),
            Fault::Round(fault) => Display::fmt(fault, f),
            Fault::NoMemory => Display::fmt(&NoMemory, f),
            Fault::HelloTwice => write!(f, "{}: hello id of an earlier channel", self.number()),
            Fault::Extra => write!(
                f,
                "{}: the channel continues after the main stream",
                self.number()
            ),
            Fault::Short => write!(
                f,
                "{}: the channel ends before the main stream",
                self.number()
            ),
            Fault::OtherTable => write!(f, "{}: stream of another table", self.number()),
        }
    }
}

impl Error for Fault {}

/// Writes where the fault is, and its message.
impl Display for LoadFault {
    fn fmt<W: fmt::Write>(&self, f: &mut Formatter<W>) -> fmt::Result {
        write!(
            f,
            "round {}, in {}: {}",
            self.round, self.source, self.fault
        )
    }
}

impl Error for LoadFault {}

/// Why a piece wasn't loaded: no memory, with the state after it.
#[derive(Clone, Copy, Debug, PartialEq, Eq)]
pub enum FeedFault {
    /// An allocation was refused, and nothing has changed: the piece can be fed again.
    NoMemory,
    /// The piece was taken, and the guest's memory couldn't be allocated: `settle` tries again, and
    /// the next piece may be fed too.
    NoGuestMemory,
}

impl FeedFault {
    /// Returns the fault's number, as documents and the tool's output have it: for each variant
    /// that of `Fault::NoMemory`.
    pub fn number(self) -> u8
        ensures { result ≡ no_memory_number }
    {
        match self {
            FeedFault::NoMemory | FeedFault::NoGuestMemory => NoMemory.number(),
        }
    }
}

/// Writes the fault's number and its message.
impl Display for FeedFault {
    fn fmt<W: fmt::Write>(&self, f: &mut Formatter<W>) -> fmt::Result {
        match self {
            FeedFault::NoMemory => Display::fmt(&NoMemory, f),
            FeedFault::NoGuestMemory => write!(f, "{}: no memory for the guest", self.number()),
        }
    }
}

impl Error for FeedFault {}

/// Why a piece wasn't loaded into the memory that it was passed with. After `OtherTable` nothing
/// has changed. After `NoMemory` the load has failed for good.
#[derive(Clone, Copy, Debug, PartialEq, Eq)]
pub enum InPlaceFault {
    /// The memory is of another table than the load.
    OtherTable,
    /// An allocation was refused.
    NoMemory,
}

impl InPlaceFault {
    /// Returns the fault's number, as documents and the tool's output have it.
    pub fn number(self) -> u8
        ensures { result ≡ in_place_fault_number self }
    {
        match self {
            InPlaceFault::OtherTable => 63,
            InPlaceFault::NoMemory => NoMemory.number(),
        }
    }
}

/// Writes the fault's number and its message.
impl Display for InPlaceFault {
    fn fmt<W: fmt::Write>(&self, f: &mut Formatter<W>) -> fmt::Result {
        match self {
            InPlaceFault::OtherTable => write!(f, "{}: memory of another table", self.number()),
            InPlaceFault::NoMemory => Display::fmt(&NoMemory, f),
        }
    }
}

impl Error for InPlaceFault {}
