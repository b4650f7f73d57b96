//! Applies a round of several channels to the memory that a load builds, for relays and sessions.

ghost use Rattle.std.specs.Prelude.{ℕ, ◌≡◌, ◌+◌, ◌<◌, ◌≤◌, ◌^◌, ◌⊎◌, Option, None, Some, length, map, All, IsTrue, IsErr, OnOk, OnErr};
ghost use Rattle.mig_packet.specs.Lent.{fields};
ghost use Rattle.mig_assemble.specs.declared.fault.RoundFault.{RoundFault as RoundRefusal};
ghost use Rattle.mig_assemble.specs.declared.fault.RoundFault.TheVariants.{NoMemory as fault_no_memory};
ghost use Rattle.mig_assemble.specs.Judging.{refusal};
ghost use Rattle.mig_assemble.specs.Target.{FitsTable, pages_of_round, after_round};
ghost use Rattle.mig_answer.specs.Putting.{IsRoundError};

use mig_assemble::{Gathered, RoundFault, Target};
use mig_load_types::{Fault, LoadFault, Origin};
use mig_mem::NoMemory;
use mig_single_load::no_memory;
use mig_stream::StreamRound;
use std::alloc::Allocator;
use std::thread::Threads;

// Packets are numbered below 2^63, and at most 2^63 rounds are counted. More are refused with
// `NoMemory`. No streams in memory have that many.
const PACKET_LIMIT: u64 = 1 << 63;

const ROUND_LIMIT: u64 = 1 << 63;

// Returns whether one more round, which has the packets of `gathered`, stays within both limits.
fn has_room<A: Allocator>(target: &Target<A>, gathered: &Gathered<'_, A>) -> bool
    requires { target.now.base ≤ 2 ^ 63 }
    ensures { IsTrue result → (target.now.rounds < 2 ^ 63) × (target.now.base + length gathered.now ≤ 2 ^ 63) }
{
    target.rounds() < ROUND_LIMIT && gathered.len() as u64 <= PACKET_LIMIT - target.base()
}

/// Applies a round to memory, if it is lawful.
///
/// # Errors
///
/// `Fault::Round` with the refusal of the round, or `NoMemory`. Nothing changes.
pub fn apply<A: Allocator + Copy>(
    target: &mut Target<A>,
    round: &StreamRound<'_, A>,
    gathered: &Gathered<'_, A>,
) -> Result<(), LoadFault>
    requires fits { FitsTable target.old.memory.table round.now }
    requires page_sizes { All (λ p. p.page_size ≡ target.old.memory.table.page_size) gathered.now }
    requires packets { target.old.base ≤ 2 ^ 63 }
    ensures lawful { OnOk result (refusal target.old.memory.table target.old.base (pages_of_round round.now) (map fields gathered.now) ≡ None) }
    ensures ok { OnOk result (target.new ≡ after_round target.old round.now (map fields gathered.now)) }
    ensures few { OnOk result (target.new.base ≤ 2 ^ 63) }
    ensures refused { IsRoundError target.old.rounds (refusal target.old.memory.table target.old.base (pages_of_round round.now) (map fields gathered.now)) result }
    ensures err { OnErr result (target.new ≡ target.old) }
{
    let rounds = target.rounds();
    if !has_room(target, gathered) {
        return no_memory(rounds);
    }
    match target.round(round, gathered) {
        Ok(()) => Ok(()),
        Err(fault) => round_error(rounds, fault),
    }
}

/// Applies a round to memory, if it is lawful, as `apply` does. At most `threads` threads write the
/// pages, the caller's thread among them.
///
/// # Errors
///
/// `Fault::Round` with the refusal of the round, or `NoMemory`. Nothing changes.
pub fn apply_by<R: Threads + Sync, A: Allocator + Copy + Send>(
    rt: &R,
    threads: u64,
    target: &mut Target<A>,
    round: &StreamRound<'_, A>,
    gathered: &Gathered<'_, A>,
) -> Result<(), LoadFault>
    requires threads { 0 < threads }
    requires fits { FitsTable target.old.memory.table round.now }
    requires page_sizes { All (λ p. p.page_size ≡ target.old.memory.table.page_size) gathered.now }
    requires packets { target.old.base ≤ 2 ^ 63 }
    ensures lawful { OnOk result (refusal target.old.memory.table target.old.base (pages_of_round round.now) (map fields gathered.now) ≡ None) }
    ensures ok { OnOk result (target.new ≡ after_round target.old round.now (map fields gathered.now)) }
    ensures few { OnOk result (target.new.base ≤ 2 ^ 63) }
    ensures refused { IsRoundError target.old.rounds (refusal target.old.memory.table target.old.base (pages_of_round round.now) (map fields gathered.now)) result }
    ensures err { OnErr result (target.new ≡ target.old) }
{
    let rounds = target.rounds();
    if !has_room(target, gathered) {
        return no_memory(rounds);
    }
    match target.round_by(rt, threads, round, gathered) {
        Ok(()) => Ok(()),
        Err(fault) => round_error(rounds, fault),
    }
}

// Returns the error of a load in which `fault` refuses the round of number `round`.
fn round_error(round: u64, fault: RoundFault) -> Result<(), LoadFault>
    ensures err { IsErr result }
    ensures refused { (k : ℕ) (why : Option RoundRefusal) → round ≡ k → (fault ≡ fault_no_memory) ⊎ (why ≡ Some fault) → IsRoundError k why result }
{
    if let RoundFault::NoMemory = fault {
        return no_memory(round);
    }
    Err(LoadFault {
        round,
        source: Origin::Round,
        fault: Fault::Round(fault),
    })
}
