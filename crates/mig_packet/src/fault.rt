//! Why a channel is refused, by name and number. Readers of hellos, packets and channels return
//! these faults, and loads pass them on.

ghost use Rattle.std.specs.Prelude.{◌≡◌};
ghost use Rattle.mig_packet.specs.FaultNumber.{fault_number, no_memory_number};

use std::alloc::{AllocError, AllocFailed};
use std::error::Error;
use std::fmt::{self, Display, Formatter};

/// Why bytes are no channel of packets: the first fault of the first faulty item, or how the
/// channel was cut.
#[derive(Clone, Copy, Debug, PartialEq, Eq)]
pub enum ChannelFault {
    /// The hello doesn't begin with 0x11223344, QEMU's `MULTIFD_MAGIC`.
    HelloMagic,
    /// The version of the hello isn't 1, QEMU's `MULTIFD_VERSION`.
    HelloVersion,
    /// The hello's UUID isn't the one that was passed.
    HelloUuid,
    /// The hello's channel id isn't below the number of channels.
    HelloId,
    /// The packet doesn't begin with 0x11223344.
    PacketMagic,
    /// The version of the packet isn't 1.
    PacketVersion,
    /// The flags of the packet are neither none nor `MULTIFD_FLAG_SYNC`; the fault carries them.
    PacketFlags(u32),
    /// The packet has more normal and zero pages than a packet may have.
    PageCount,
    /// The packet has normal pages, and its `next_packet_size` isn't their number times the page
    /// size.
    PacketSize,
    /// The channel ended inside the hello or a packet.
    Truncated,
    /// The channel ended after a packet without SYNC.
    Unsynced,
    /// The packet and those of its round before it are more than may wait.
    Waiting,
}

impl ChannelFault {
    /// Returns the fault's number, as documents and the tool's output have it.
    pub fn number(self) -> u8
        ensures { result ≡ fault_number self }
    {
        match self {
            ChannelFault::HelloMagic => 35,
            ChannelFault::HelloVersion => 36,
            ChannelFault::HelloUuid => 37,
            ChannelFault::HelloId => 38,
            ChannelFault::PacketMagic => 39,
            ChannelFault::PacketVersion => 40,
            ChannelFault::PacketFlags(_) => 41,
            ChannelFault::PageCount => 42,
            ChannelFault::PacketSize => 43,
            ChannelFault::Truncated => 44,
            ChannelFault::Unsynced => 45,
            ChannelFault::Waiting => 65,
        }
    }

    // Returns the fault's message.
    fn words(self) -> &'static str {
        match self {
            ChannelFault::HelloMagic => "bad hello magic",
            ChannelFault::HelloVersion => "bad hello version",
            ChannelFault::HelloUuid => "hello of another UUID",
            ChannelFault::HelloId => "hello id out of range",
            ChannelFault::PacketMagic => "bad packet magic",
            ChannelFault::PacketVersion => "bad packet version",
            ChannelFault::PacketFlags(_) => "unexpected packet flags",
            ChannelFault::PageCount => "too many pages in a packet",
            ChannelFault::PacketSize => "wrong next_packet_size",
            ChannelFault::Truncated => "the channel ends inside a hello or packet",
            ChannelFault::Unsynced => "the channel ends without SYNC",
            ChannelFault::Waiting => "too many pages and packets wait",
        }
    }
}

/// Writes the fault's number and its message.
impl Display for ChannelFault {
    fn fmt<W: fmt::Write>(&self, f: &mut Formatter<W>) -> fmt::Result {
        write!(f, "{}: {}", self.number(), self.words())?;
        match self {
            ChannelFault::PacketFlags(flags) => write!(f, ": {flags:#x}"),
            _ => Ok(()),
        }
    }
}

impl Error for ChannelFault {}

/// An allocation was refused.
#[derive(Clone, Copy, Debug, PartialEq, Eq)]
pub struct NoMemory;

impl NoMemory {
    /// Returns the fault's number, as documents and the tool's output have it.
    pub fn number(self) -> u8
        ensures { result ≡ no_memory_number }
    {
        60
    }
}

/// Writes the fault's number and its message.
impl Display for NoMemory {
    fn fmt<W: fmt::Write>(&self, f: &mut Formatter<W>) -> fmt::Result {
        write!(f, "{}: an allocation was refused", self.number())
    }
}

impl Error for NoMemory {}

impl From<AllocError> for NoMemory {
    fn from(_: AllocError) -> NoMemory {
        NoMemory
    }
}

impl<T: Drop> From<AllocFailed<T>> for NoMemory {
    fn from(_: AllocFailed<T>) -> NoMemory {
        NoMemory
    }
}
