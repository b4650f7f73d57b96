//! The loop of all workers (`worker`, `share`): it draws numbers from the deal of a round, and adds
//! the packets of the batches that these claim to a sink.

ghost use Rattle.std.specs.Prelude.{◌≡◌, ◌++◌, List, IsOk, OnOk};
ghost use Rattle.mig_send.specs.Batches.{IsBatch};
ghost use Rattle.mig_send.specs.Packing.{PackedBatch, IsPrefix, packed_of};
ghost use Rattle.mig_send.specs.Work.{ClaimsBatches};
ghost use Rattle.mig_send.specs.Sink.{HasFilled};

use crate::Batch;
use mig_deal::{Deal, Drawn, Seat, Spent};
use mig_mem::{GuestPages, NoMemory};
use mig_packet::{Gate, Step};
use std::alloc::Allocator;

/// Holds a worker's packets, one after another: a list of packets, or the bytes of a channel.
pub(crate) trait Sink {
    /// The type of its entries: packets, or bytes.
    type Entry;

    /// The entries that it holds.
    ghost held: { Self → List Self.Entry };

    /// The entries of one packet.
    ghost entries: { PackedBatch → List Self.Entry };

    /// Packs a batch under a number, and appends the packet. Passes the gate once it is packed.
    ///
    /// # Errors
    ///
    /// `NoMemory`: an allocation was refused. A part of the packet may have been appended.
    fn add<M: GuestPages, C: Allocator, G: Gate>(
        &mut self,
        memory: &M,
        batch: &Batch<C>,
        number: u64,
        channel: usize,
        gate: &G,
    ) -> Result<(), NoMemory>
        requires { IsBatch (M.image memory.now).table batch.now }
        ensures ok { OnOk result (held self.new ≡ held self.old ++ entries (packed_of (M.image memory.now) batch.now number)) }
        ensures prefix { IsPrefix (held self.old) (held self.new) };
}

/// The result of a worker, other than its sink: whether there was memory for all of its packets,
/// its last number, and its spent seat.
pub(crate) struct Filled {
    pub(crate) made: Result<(), NoMemory>,
    pub(crate) last: u64,
    pub(crate) spent: Spent,
}

/// Draws from `deal` until the seat's last number, and adds to the sink the packet of the batch
/// that each number before it claims: base + i claims batch i. It passes the gate after each draw,
/// the last one too. Once an allocation is refused it draws on without packing, so that no number
/// is left out.
pub(crate) fn fill<S: Sink, M: GuestPages, C: Allocator, D: Allocator, G: Gate>(
    sink: &mut S,
    deal: &Deal<D>,
    seat: Seat,
    channel: usize,
    memory: &M,
    batches: &[Batch<C>],
    gate: &G,
) -> Filled
    requires own { seat.deal ≡ deal.now }
    requires batches { ClaimsBatches deal.now (M.image memory.now).table batches.now }
    ensures { HasFilled S.entries (M.image memory.now) batches.now seat (S.held sink.old) (S.held sink.new) result }
{
    let mut seat = seat;
    let mut made = Ok(());
    'draws: loop {
        match deal.draw(seat) {
            Drawn::Work(number, next) => {
                gate.pass(channel, Step::Drawn(number));
                seat = next;
                let batch = &batches[(number - deal.base()) as usize];
                made = add_after(made, sink, memory, batch, number, channel, gate);
            }
            Drawn::Last(last, spent) => {
                gate.pass(channel, Step::Drawn(last));
                return Filled { made, last, spent };
            }
        }
    }
}

// Adds the packet of one more batch to the sink, or nothing if an allocation was refused before.
fn add_after<S: Sink, M: GuestPages, C: Allocator, G: Gate>(
    made: Result<(), NoMemory>,
    sink: &mut S,
    memory: &M,
    batch: &Batch<C>,
    number: u64,
    channel: usize,
    gate: &G,
) -> Result<(), NoMemory>
    requires { IsBatch (M.image memory.now).table batch.now }
    ensures made { OnOk result (IsOk made) }
    ensures ok { OnOk result (S.held sink.new ≡ S.held sink.old ++ S.entries (packed_of (M.image memory.now) batch.now number)) }
    ensures prefix { IsPrefix (S.held sink.old) (S.held sink.new) }
{
    made?;
    sink.add(memory, batch, number, channel, gate)
}
