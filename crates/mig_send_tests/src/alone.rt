//! One worker that has a deal for itself. Tests can't prove what `work` requires of its seat, so
//! this module makes the deal and the seat.

ghost use Rattle.std.specs.Prelude.{◌≡◌, All};
ghost use Rattle.mig_send.specs.Batches.{IsBatch};

use crate::deal::room;
use crate::workers::put;
use mig_deal::Deal;
use mig_mem::{Memory, NoMemory};
use mig_packet::Gate;
use mig_send::{Batch, Packed, Worked, work};
use std::alloc::{AllocGlobal, Allocator, Global};
use std::process::Abort;

/// A worker's result, and the number after all drawn numbers.
#[derive(Drop)]
pub(crate) struct Alone<A: Allocator = Global> {
    pub packets: Result<Vec<Packed<A>, A>, NoMemory>,
    pub last: u64,
    pub next: u64,
}

/// Runs a worker with the only seat of a deal of these batches, the deal in memory of another
/// allocator.
pub(crate) fn work_alone<A: Allocator + Copy, B: Allocator, C: Allocator, G: Gate>(
    rt: &(impl AllocGlobal + Abort),
    alloc: A,
    base: u64,
    channel: usize,
    memory: &Memory<B>,
    batches: &[Batch<C>],
    gate: &G,
) -> Alone<A>
    requires { All (IsBatch memory.now.table) batches.now }
{
    assert!(rt; base <= 1 << 63);
    assert!(rt; batches.len() <= 1 << 28);
    let Ok((deal, mut seats)) = Deal::new(rt.alloc(), base, batches.len() as u64, 1) else {
        panic!(rt; "memory")
    };
    let Some(seat) = seats.pop() else {
        panic!(rt; "a seat")
    };
    seats.destroy_empty();
    let Worked {
        packets,
        last,
        spent,
    } = work(alloc, &deal, seat, channel, memory, batches, gate);
    let mut spents = room(rt, 1);
    put(&mut spents, spent);
    let next = deal.close(spents);
    Alone {
        packets,
        last,
        next,
    }
}
