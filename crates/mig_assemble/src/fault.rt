//! Why `Target::round` refuses a round, by name and number.

ghost use Rattle.std.specs.Prelude.{◌≡◌};
ghost use Rattle.mig_assemble.specs.RoundFaultNumber.{fault_number};

use mig_mem::{NoMemory, Place};
use std::error::Error;
use std::fmt::{self, Display, Formatter};

/// Why a round is not lawful: the first that applies, in this order.
#[derive(Clone, Copy, Debug, PartialEq, Eq)]
pub enum RoundFault {
    /// The least packet number below the round's base.
    Foreign(u64),
    /// The least packet number that occurs twice.
    Doubled(u64),
    /// The least packet number that is missing: there must be each of as many numbers as packets,
    /// from the base on, once.
    Missing(u64),
    /// The packet with this number names no block of the table. It is the least number of a packet
    /// with a misplaced page.
    UnknownBlock(u64),
    /// The packet with this number names a block, and its offset with this index is not of a page
    /// of that block. They are the least number of a packet with a misplaced page, and the first
    /// such index. The normal pages count first.
    Offset(u64, usize),
    /// The least place that occurs twice, among the page records and the packets' pages together.
    DoublePage(Place),
    /// An allocation was refused.
    NoMemory,
}

impl RoundFault {
    /// Returns the fault's number, as documents and the tool's output have it.
    pub fn number(self) -> u8
        ensures { result ≡ fault_number self }
    {
        match self {
            RoundFault::Foreign(_) => 54,
            RoundFault::Doubled(_) => 55,
            RoundFault::Missing(_) => 56,
            RoundFault::UnknownBlock(_) => 57,
            RoundFault::Offset(_, _) => 58,
            RoundFault::DoublePage(_) => 59,
            RoundFault::NoMemory => NoMemory.number(),
        }
    }
}

impl From<NoMemory> for RoundFault {
    ghost use Rattle.mig_assemble.specs.declared.fault.RoundFault.TheVariants.{NoMemory as fault_no_memory};

    ghost from_gives = { λ _ e. e ≡ fault_no_memory };

    fn from(_: NoMemory) -> RoundFault {
        RoundFault::NoMemory
    }
}

/// Writes the fault's number and its message.
impl Display for RoundFault {
    fn fmt<W: fmt::Write>(&self, f: &mut Formatter<W>) -> fmt::Result {
        if let RoundFault::NoMemory = self {
            return Display::fmt(&NoMemory, f);
        }
        write!(f, "{}: ", self.number())?;
        match self {
            RoundFault::Foreign(number) => write!(f, "packet {number} is of an earlier round"),
            RoundFault::Doubled(number) => write!(f, "packet {number} comes twice"),
            RoundFault::Missing(number) => write!(f, "packet {number} is missing"),
            RoundFault::UnknownBlock(number) => write!(f, "packet {number} names an unknown block"),
            RoundFault::Offset(number, i) => write!(
                f,
                "offset {i} of packet {number} is outside its block"
            ),
            RoundFault::DoublePage(place) => write!(
                f,
                "page {} of block {} comes twice",
                place.page, place.block
            ),
            RoundFault::NoMemory => Ok(()),
        }
    }
}

impl Error for RoundFault {}
