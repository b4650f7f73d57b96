//! The pump, for callers with a reader for each source: it reads one source to its end, and feeds a
//! session what it reads.

ghost use Rattle.std.specs.Prelude.{ℕ, ◌≡◌, ◌≢◌, ◌+◌, ◌*◌, ◌<◌, ◌≤◌, ◌^◌, List, length, IsFalse, IfOk};
ghost use Rattle.mig_answer.specs.declared.verdict.Verdict.TheVariants.{Running as running};
ghost use Rattle.mig_session.specs.PumpFaultNumber.{pump_fault_number};
ghost use Rattle.mig_session.specs.Session.{answer_in, KeepsRounds};
ghost use Rattle.mig_sources.specs.Sources.{HasSource, count_of};
ghost use Rattle.mig_session.specs.Pumping.{Explains, reads_after, HasRead, FeedsPieces};
ghost use Rattle.mig_sources.specs.Reads.{piece_limit};

use crate::{PieceReader, ReadFailed, Session, Source};
use mig_mem::NoMemory;
use std::alloc::Allocator;
use std::error::Error;
use std::fmt::{self, Display, Formatter};

/// Why a pump ended before the end of its input.
#[derive(Clone, Copy, Debug, PartialEq, Eq)]
pub enum PumpFault {
    /// The reader returned an error.
    Read,
    /// As many reads as allowed, none of which found the end.
    TooManyTurns,
    /// An allocation was refused: one of the session's, or that of the pump's buffer, before the
    /// first read.
    NoMemory,
}

impl PumpFault {
    /// Returns the fault's number, as documents and the tool's output have it.
    pub fn number(self) -> u8
        ensures { result ≡ pump_fault_number self }
    {
        match self {
            PumpFault::Read => 70,
            PumpFault::TooManyTurns => 71,
            PumpFault::NoMemory => NoMemory.number(),
        }
    }
}

/// Writes the fault's number and its message.
impl Display for PumpFault {
    fn fmt<W: fmt::Write>(&self, f: &mut Formatter<W>) -> fmt::Result {
        match self {
            PumpFault::Read => write!(f, "{}: a read failed", self.number()),
            PumpFault::TooManyTurns => write!(
                f,
                "{}: the end of the input wasn't found in as many reads as were allowed",
                self.number()
            ),
            PumpFault::NoMemory => Display::fmt(&NoMemory, f),
        }
    }
}

impl Error for PumpFault {}

impl From<NoMemory> for PumpFault {
    ghost use Rattle.mig_session.specs.declared.pumping.PumpFault.TheVariants.{NoMemory as fault_no_memory};

    ghost from_gives = { λ _ e. e ≡ fault_no_memory };

    fn from(_: NoMemory) -> PumpFault {
        PumpFault::NoMemory
    }
}

const PIECE_LIMIT: usize = 65_536;

// Allocates the buffer for a piece.
fn room<A: Allocator>(alloc: A) -> Result<Vec<u8, A>, NoMemory>
    ensures { IfOk result (λ buffer. length buffer.items ≡ piece_limit) }
{
    Ok(vec![in alloc; 0u8; PIECE_LIMIT]?)
}

/// Reads a source at most `turns` times, at most 65,536 bytes each, and feeds the session each
/// piece. At the end of the input it ends the source, and returns the number of bytes that it read.
///
/// # Errors
///
/// `PumpFault::Read`: a read failed. `PumpFault::TooManyTurns`: no read found the end.
/// `PumpFault::NoMemory`: the buffer, or an allocation of the session, was refused.
///
/// After each of them, what was read before is fed, and the source isn't ended: it can be pumped
/// on. If the session was refused an allocation, it has counted the piece and failed.
pub fn pump<A: Allocator + Copy, P: PieceReader>(
    alloc: A,
    reader: &mut P,
    session: &mut Session<A>,
    source: Source,
    turns: u64,
) -> Result<u64, PumpFault>
    requires turns { turns ≤ 2 ^ 40 }
    requires source { HasSource session.old.counts source }
    requires open { IsFalse (count_of session.old.counts source).ended }
    requires room { (count_of session.old.counts source).fed + turns * piece_limit < 2 ^ 64 }
    requires reads { (P.reads reader.old).reads + turns ≤ 2 ^ 63 }
    ensures turns { (P.reads reader.new).reads ≤ (P.reads reader.old).reads + turns }
    ensures reads { Explains turns (P.reads reader.old) (P.reads reader.new) result }
    ensures pumped { (pieces : List (List ℕ)) × (P.reads reader.new ≡ reads_after (P.reads reader.old) (length pieces) result)
        × HasRead pieces result (P.remaining reader.old) (P.remaining reader.new)
        × FeedsPieces source pieces result session.old session.new }
    ensures settled { session.old.verdict ≢ running → (answer_in session.new ≡ answer_in session.old)
        × (result ≡ Err PumpFault.NoMemory → session.new ≡ session.old) }
    ensures keeps { KeepsRounds session.old session.new }
{
    let mut buffer = room(alloc)?;
    let mut total = 0;
    for _ in 0..turns {
        match reader.read_piece(&mut buffer) {
            Ok(0) => {
                session.end(source);
                return Ok(total);
            }
            Ok(n) => {
                session.feed(source, &buffer[..n])?;
                total += n as u64;
            }
            Err(ReadFailed) => return Err(PumpFault::Read),
        }
    }
    Err(PumpFault::TooManyTurns)
}
