//! A worker of a round on several channels: it writes the packets of its share to its channel.
//! `workers` runs one on each thread.

ghost use Rattle.std.specs.Prelude.{◌≡◌, ◌++◌, IsOk, OnOk};
ghost use Rattle.mig_send.specs.Packing.{IsPrefix};
ghost use Rattle.mig_send.specs.Work.{ClaimsBatches};
ghost use Rattle.mig_send.specs.Dealing.{sync_packet};
ghost use Rattle.mig_send.specs.Workers.{HasWritten};

use crate::Batch;
use crate::packed::{Offsets, append_packet};
use crate::sink::{Filled, Sink, fill};
use mig_deal::{Deal, Seat, Spent};
use mig_mem::{GuestPages, NoMemory};
use mig_packet::{Gate, Step, put_packet};
use std::alloc::Allocator;

/// The result of a worker: its channel's bytes, whether there was memory for all of its share, and
/// what is left of its seat.
pub(crate) struct Written<A: Allocator> {
    pub(crate) text: Vec<u8, A>,
    pub(crate) made: Result<(), NoMemory>,
    pub(crate) spent: Spent,
}

/// Draws as `work` does, and appends the packets to `text`, the bytes of the worker's channel, and
/// after them a SYNC packet. Once an allocation was refused it draws on without packing. Then a
/// part of the share may have been appended.
pub(crate) fn write_share<A: Allocator + Copy, M: GuestPages, C: Allocator, D: Allocator, G: Gate>(
    alloc: A,
    deal: &Deal<D>,
    seat: Seat,
    channel: usize,
    memory: &M,
    batches: &[Batch<C>],
    gate: &G,
    text: Vec<u8, A>,
) -> Written<A>
    requires own { seat.deal ≡ deal.now }
    requires batches { ClaimsBatches deal.now (M.image memory.now).table batches.now }
    ensures { HasWritten (M.image memory.now) batches.now seat text.items result }
{
    let offsets = Offsets::new(alloc);
    let mut sink = ChannelText { text, offsets };
    let Filled { made, last, spent } = fill(&mut sink, deal, seat, channel, memory, batches, gate);
    let ChannelText {
        mut text,
        offsets: _,
    } = sink;
    let made = end(made, &mut text, memory, last);
    Written { text, made, spent }
}

// The bytes of a channel, and the lists that packing its batches reuses.
struct ChannelText<A: Allocator> {
    text: Vec<u8, A>,
    offsets: Offsets<A>,
}

impl<A: Allocator> Sink for ChannelText<A> {
    type Entry = u8;

    ghost held = { λ sink. sink.text.items };

    ghost entries = { λ packet. packet.bytes };

    fn add<M: GuestPages, C: Allocator, G: Gate>(
        &mut self,
        memory: &M,
        batch: &Batch<C>,
        number: u64,
        channel: usize,
        gate: &G,
    ) -> Result<(), NoMemory> {
        append_packet(&mut self.text, &mut self.offsets, memory, batch, number)?;
        gate.pass(channel, Step::Packed(number));
        Ok(())
    }
}

// Appends the SYNC packet with a number, or nothing if an allocation was refused before.
fn end<A: Allocator, M: GuestPages>(
    made: Result<(), NoMemory>,
    text: &mut Vec<u8, A>,
    memory: &M,
    number: u64,
) -> Result<(), NoMemory>
    ensures made { OnOk result (IsOk made) }
    ensures ok { OnOk result (text.new.items ≡ text.old.items ++ sync_packet (M.image memory.now).table.page_size number) }
    ensures prefix { IsPrefix text.old.items text.new.items }
{
    made?;
    put_sync(text, memory, number)
}

/// Appends the SYNC packet with a number. After an `Err` a part of it may have been appended.
pub(crate) fn put_sync<A: Allocator, M: GuestPages>(
    text: &mut Vec<u8, A>,
    memory: &M,
    number: u64,
) -> Result<(), NoMemory>
    ensures ok { OnOk result (text.new.items ≡ text.old.items ++ sync_packet (M.image memory.now).table.page_size number) }
    ensures prefix { IsPrefix text.old.items text.new.items }
{
    let table = memory.table();
    // as in `pack`
    table.keeps_limits();
    let Ok(()) = put_packet(table.page_size(), text, number, true, &[], &[], &[], &[]) else {
        return Err(NoMemory);
    };
    Ok(())
}
