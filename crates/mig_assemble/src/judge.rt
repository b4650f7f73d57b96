//! Judges a complete round, for `Target::round`, before any page of it is written: as if its parts
//! arrived one after another.

ghost use Rattle.std.specs.Prelude.{◌≡◌, ◌+◌, ◌≤◌, ◌^◌, ◌⊎◌, [], map, length, None, Some, All, OnOk, IfOk, IfErr};
ghost use Rattle.mig_packet.specs.Lent.{fields};
ghost use Rattle.mig_assemble.specs.declared.fault.RoundFault.TheVariants.{NoMemory as fault_no_memory};
ghost use Rattle.mig_assemble.specs.Judging.{refusal};
ghost use Rattle.mig_assemble.specs.Target.{FitsTable, pages_of_round};
ghost use Rattle.mig_assemble.specs.Arrivals.{HasCome};
ghost use Rattle.mig_assemble.specs.AtOnce.{came_at_once, packets_of, LieEach};

use crate::places::Pages;
use crate::{Arrivals, RoundFault};
use mig_mem::NoMemory;
use mig_packet::Packet;
use mig_stream::StreamRound;
use std::alloc::Allocator;

/// A packet, and where its pages are.
#[derive(Clone, Copy)]
pub(crate) struct Placed<'a> {
    pub(crate) packet: Packet<'a>,
    pub(crate) pages: Pages,
}

// Adds all of a round to `arrivals`, which has none. Returns its packets, each with where its pages
// are.
fn arrive<'a, A: Allocator + Copy, B: Allocator>(
    alloc: A,
    arrivals: &mut Arrivals<A>,
    round: &StreamRound<B>,
    packets: &[Packet<'a>],
) -> Result<Vec<Placed<'a>, A>, NoMemory>
    requires none { HasCome arrivals.old.seen.table [] arrivals.old }
    requires fits { FitsTable arrivals.old.seen.table round.now }
    requires page_sizes { All (λ p. p.page_size ≡ arrivals.old.seen.table.page_size) packets.now }
    ensures came { OnOk result (HasCome arrivals.old.seen.table (came_at_once (pages_of_round round.now) packets.now) arrivals.new) }
    ensures placed { IfOk result (λ v. packets_of v.items ≡ packets.now) }
    ensures lie { IfOk result (λ v. LieEach arrivals.old.seen.table v.items) }
    ensures table { arrivals.new.seen.table ≡ arrivals.old.seen.table }
{
    arrivals.records(round);
    let mut placed = Vec::with_capacity(alloc, packets.len())?;
    for packet in packets {
        let pages = arrivals.packet(&packet.head())?;
        let packet = *packet;
        placed.push(Placed { packet, pages })?;
    }
    Ok(placed)
}

/// Judges a round. Returns its packets, each with where its pages are, if it is lawful. `NoMemory`
/// may be returned in place of any result, since the call allocates for each packet. `arrivals` has
/// none before and after the call.
pub(crate) fn judge<'a, A: Allocator + Copy, B: Allocator>(
    alloc: A,
    arrivals: &mut Arrivals<A>,
    base: u64,
    round: &StreamRound<B>,
    packets: &[Packet<'a>],
) -> Result<Vec<Placed<'a>, A>, RoundFault>
    requires none { HasCome arrivals.old.seen.table [] arrivals.old }
    requires fits { FitsTable arrivals.old.seen.table round.now }
    requires page_sizes { All (λ p. p.page_size ≡ arrivals.old.seen.table.page_size) packets.now }
    requires room { base + length packets.now ≤ 2 ^ 63 }
    ensures lawful { OnOk result (refusal arrivals.old.seen.table base (pages_of_round round.now) (map fields packets.now) ≡ None) }
    ensures placed { IfOk result (λ v. packets_of v.items ≡ packets.now) }
    ensures lie { IfOk result (λ v. LieEach arrivals.old.seen.table v.items) }
    ensures refused { IfErr result (λ fault. (fault ≡ fault_no_memory)
        ⊎ (refusal arrivals.old.seen.table base (pages_of_round round.now) (map fields packets.now) ≡ Some fault)) }
    ensures none { HasCome arrivals.new.seen.table [] arrivals.new }
    ensures table { arrivals.new.seen.table ≡ arrivals.old.seen.table }
{
    let Ok(placed) = arrive(alloc, arrivals, round, packets) else {
        arrivals.clear();
        return Err(RoundFault::NoMemory);
    };
    let judged = arrivals.judge(base);
    arrivals.clear();
    match judged {
        Ok(()) => Ok(placed),
        Err(fault) => Err(fault),
    }
}
