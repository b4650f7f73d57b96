//! Why a sender can't be created, or a round can't be sent, by name and number.

ghost use Rattle.std.specs.Prelude.{◌≡◌};
ghost use Rattle.mig_send.specs.SendFaultNumber.{fault_number};

use mig_mem::NoMemory;
use std::error::Error;
use std::fmt::{self, Display, Formatter};

/// Why a sender was not created, or a round not sent.
#[derive(Clone, Copy, Debug, PartialEq, Eq)]
pub enum SendFault {
    /// There is no channel, or there are more than 255.
    Channels,
    /// The batch limit is 0, or above the pages that a packet has room for.
    Limit,
    /// The image or the dirty set is of another table than the sender's.
    OtherTable,
    /// An allocation was refused, or a `MultiSender` has numbered more than 2^63 packets.
    NoMemory,
}

impl SendFault {
    /// Returns the fault's number, as documents and the tool's output have it.
    pub fn number(self) -> u8
        ensures { result ≡ fault_number self }
    {
        match self {
            SendFault::Channels => 61,
            SendFault::Limit => 62,
            SendFault::OtherTable => 63,
            SendFault::NoMemory => NoMemory.number(),
        }
    }
}

impl From<NoMemory> for SendFault {
    ghost use Rattle.mig_send.specs.declared.fault.SendFault.TheVariants.{NoMemory as fault_no_memory};

    ghost from_gives = { λ _ e. e ≡ fault_no_memory };

    fn from(_: NoMemory) -> SendFault {
        SendFault::NoMemory
    }
}

/// Writes the fault's number and its message.
impl Display for SendFault {
    fn fmt<W: fmt::Write>(&self, f: &mut Formatter<W>) -> fmt::Result {
        match self {
            SendFault::Channels => write!(f, "{}: no channel, or more than 255", self.number()),
            SendFault::Limit => write!(
                f,
                "{}: batch limit is 0 or above the pages of a packet",
                self.number()
            ),
            SendFault::OtherTable => write!(
                f,
                "{}: memory or dirty set of another table",
                self.number()
            ),
            SendFault::NoMemory => Display::fmt(&NoMemory, f),
        }
    }
}

impl Error for SendFault {}
