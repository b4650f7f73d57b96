//! Workers that return their packets as a list, for callers with threads of their own. Each draws
//! numbers from the deal of a round, and packs the batches that these claim. `MultiSender::round`
//! runs those of `share`, over the same loop (`sink`).
//!
//! A worker starts no thread and waits for no other. A caller that runs several of them gives each
//! a seat of its own.

ghost use Rattle.std.specs.Prelude.{◌≡◌, ◌∷◌, [], IfOk, IsOk};
ghost use Rattle.mig_send.specs.Work.{ClaimsBatches, HasWorked};
ghost use Rattle.mig_send.specs.Dealing.{WorkersMakeADealing};

use crate::Batch;
use crate::packed::{Packed, pack};
use crate::sink::{Filled, Sink, fill};
use mig_deal::{Deal, Seat, Spent};
use mig_mem::{GuestPages, NoMemory};
use mig_packet::{Gate, Step};
use std::alloc::{Allocator, Global};
use std::fmt::{self, Debug, Formatter};

/// The result of a worker: its packets in the order of their numbers, or `NoMemory`; its last
/// number, which claims no batch; and its spent seat. `Deal::close` and `Deal::end_number` take
/// that of each worker. If one is dropped, neither can be called.
#[derive(Drop)]
pub struct Worked<A: Allocator = Global> {
    pub packets: Result<Vec<Packed<A>, A>, NoMemory>,
    pub last: u64,
    pub spent: Spent,
}

impl<A: Allocator> Debug for Worked<A> {
    fn fmt<W: fmt::Write>(&self, f: &mut Formatter<W>) -> fmt::Result {
        f.debug_struct("Worked")
            .field("last", &self.last)
            .finish_non_exhaustive()
    }
}

/// Draws from `deal` until the seat's last number, and packs the batch that each number before it
/// claims: base + i claims batch i. It passes the gate after each draw, the last one too, and after
/// each packet that it made. Once an allocation was refused it draws on without packing, so that no
/// number is left out, and returns `NoMemory` in place of the packets.
pub fn work<A: Allocator + Copy, M: GuestPages, C: Allocator, D: Allocator, G: Gate>(
    alloc: A,
    deal: &Deal<D>,
    seat: Seat,
    channel: usize,
    memory: &M,
    batches: &[Batch<C>],
    gate: &G,
) -> Worked<A>
    requires own { seat.deal ≡ deal.now }
    requires dealt { ClaimsBatches deal.now (M.image memory.now).table batches.now }
    ensures { HasWorked (M.image memory.now) batches.now seat result }
{
    let mut packets = Vec::new(alloc);
    let Filled { made, last, spent } = fill(
        &mut packets,
        deal,
        seat,
        channel,
        memory,
        batches,
        gate,
    );
    Worked {
        packets: all_of(made, packets),
        last,
        spent,
    }
}

// Returns the packets, if there was memory for all of them.
fn all_of<A: Allocator>(
    made: Result<(), NoMemory>,
    packets: Vec<Packed<A>, A>,
) -> Result<Vec<Packed<A>, A>, NoMemory>
    ensures { IfOk result (λ all. IsOk made × (all ≡ packets)) }
{
    made?;
    Ok(packets)
}

impl<A: Allocator + Copy> Sink for Vec<Packed<A>, A> {
    type Entry = Packed<A>;

    ghost held = { λ packets. packets.items };

    ghost entries = { λ packet. packet ∷ [] };

    fn add<M: GuestPages, C: Allocator, G: Gate>(
        &mut self,
        memory: &M,
        batch: &Batch<C>,
        number: u64,
        channel: usize,
        gate: &G,
    ) -> Result<(), NoMemory> {
        let packed = pack(*self.allocator(), memory, batch, number)?;
        gate.pass(channel, Step::Packed(number));
        self.push(packed)?;
        Ok(())
    }
}

/// The workers' results are a dealing, under these conditions. Each worker had a seat of one deal
/// that had drawn nothing. All seats were used. All workers returned packets. The deal had as many
/// batches as there are.
///
/// Then each batch is in one worker's packets, once. Each number after the batches' is one worker's
/// last, by which its SYNC packet is numbered.
pub fn workers_make_a_dealing<A: Allocator>()
    ensures { WorkersMakeADealing A }
{}
