//! A round of a sender on several channels whose workers run on threads of the caller's. It gives
//! out a worker for each channel, takes them back once they have ended, and ends with a FLUSH.

ghost use Rattle.std.specs.Prelude.{◌≡◌, ◌<◌, ◌≤◌, ◌^◌, [], length, get_or, slice_set, IfOk, IfErr, OnOk, OnErr};
ghost use Rattle.std.specs.Arc.{arc_value};
ghost use Rattle.mig_mem.specs.PlaceSet.{IsPlaceSet};
ghost use Rattle.mig_packet.specs.PageSize.{page_limit};
ghost use Rattle.mig_send.specs.Batches.{IsCut};
ghost use Rattle.mig_send.specs.Finding.{cut_of};
ghost use Rattle.mig_send.specs.ChannelWork.{HasEnded};
ghost use Rattle.mig_send.specs.MultiRound.{HasBegun, IsBeginFault, IsDealtTo, IsDealtOut, HandsOut, IsTakenBack, TakesBack, EndsRound, handed_out};

use crate::SendFault;
use crate::channel_worker::{ChannelWorker, Hand};
use crate::finder::{Finder, count_batches};
use crate::multi::{LAST_BASE, MultiSender};
use crate::packed::Offsets;
use crate::round_work::RoundWork;
use mig_deal::{Deal, Seat, Spent};
use mig_mem::{Dirty, NoMemory, Table};
use std::alloc::{AllocFailed, Allocator, Global};
use std::fmt::{self, Debug, Formatter};
use std::marker::Model;
use std::mem;
use std::sync::Arc;

/// A round that is being sent on several channels, by workers on threads of the caller's. It has
/// the sender until the round is ended. If it is dropped, the sender is dropped too, and the
/// streams are lost.
pub struct MultiRound<A: Allocator = Global> {
    sender: MultiSender<A>,
    shared: Arc<RoundWork<A>, A>,
    // of the workers that weren't given out yet
    seats: Vec<Seat, A>,
    // of those that were given back
    spents: Vec<Spent, A>,
}

// Written out, so that a caller's proof passes a call where a value is dropped.
impl<A: Allocator> Drop for MultiRound<A> {
    fn drop(self) {
        let MultiRound {
            sender: _,
            shared: _,
            seats: _,
            spents: _,
        } = self;
    }
}

impl<A: Allocator> Model for MultiRound<A> {
    ghost use Rattle.std.specs.Arc.{arc_value};
    ghost use Rattle.mig_send.specs.MultiRound.{OpenMulti, IsOpenMulti};

    ghost Value = { OpenMulti };

    ghost view = { λ r. record { sender = r.sender; terms = arc_value r.shared; seats = r.seats.items; spents = r.spents.items } };

    ghost invariant = { λ r. IsOpenMulti (record { sender = r.sender; terms = arc_value r.shared; seats = r.seats.items; spents = r.spents.items }) };
}

impl<A: Allocator> Debug for MultiRound<A> {
    fn fmt<W: fmt::Write>(&self, f: &mut Formatter<W>) -> fmt::Result {
        f.pad("MultiRound { .. }")
    }
}

// Deals the batches of a dirty set to `seats` seats.
fn deal_out<A: Allocator + Copy>(
    alloc: A,
    base: u64,
    dirty: Dirty<A>,
    limit: usize,
    seats: usize,
) -> Result<(Arc<RoundWork<A>, A>, Vec<Seat, A>), NoMemory>
    requires base { base ≤ 2 ^ 63 }
    requires set { IsPlaceSet dirty }
    requires limit { (0 < limit) × (limit ≤ page_limit dirty.table.page_size) }
    requires seats { (0 < seats) × (seats ≤ 255) }
    ensures dealt { IfOk result (λ r. IsDealtTo base dirty.table (cut_of limit dirty.marked) seats (arc_value r.0) r.1.items) }
    ensures cut { OnOk result (IsCut limit dirty.marked (cut_of limit dirty.marked)) }
{
    let count = count_batches(&dirty, limit);
    let Ok((deal, seats)) = Deal::new(alloc, base, count, seats) else {
        return Err(NoMemory);
    };
    let work = RoundWork {
        deal,
        dirty,
        limit,
        count,
    };
    match Arc::new(alloc, work) {
        Ok(shared) => Ok((shared, seats)),
        Err(_) => Err(NoMemory),
    }
}

impl<A: Allocator + Copy> MultiSender<A> {
    /// Begins a round whose workers run on threads of the caller's: copies the dirty set, and deals
    /// out the batches of its pages. It makes no list of them, and starts no thread.
    ///
    /// # Errors
    ///
    /// The sender as it was, with:
    ///
    /// - `OtherTable`: `dirty` is of another table than the sender's.
    /// - `NoMemory`: an allocation was refused, or more than 2^63 packets were numbered.
    pub fn begin_round<C: Allocator>(
        self,
        dirty: &Dirty<C>,
    ) -> Result<MultiRound<A>, (MultiSender<A>, SendFault)>
        ensures ok { IfOk result (λ round. HasBegun dirty.now self round) }
        ensures same { IfErr result (λ e. e.0 ≡ self) }
        ensures refused { IfErr result (λ e. IsBeginFault self.main.table dirty.now.table e.1) }
    {
        if !dirty.table().same(self.main.table()) {
            return Err((self, SendFault::OtherTable));
        }
        match dirty.copy_in(self.alloc) {
            Ok(copy) => self.begin_round_with(copy),
            Err(NoMemory) => Err((self, SendFault::NoMemory)),
        }
    }

    /// Begins a round as `begin_round` does, with a dirty set that the caller gives up: the round
    /// keeps it, and copies nothing.
    ///
    /// # Errors
    ///
    /// Those of `begin_round`. The set is dropped.
    pub fn begin_round_with(
        self,
        dirty: Dirty<A>,
    ) -> Result<MultiRound<A>, (MultiSender<A>, SendFault)>
        ensures ok { IfOk result (λ round. HasBegun dirty self round) }
        ensures same { IfErr result (λ e. e.0 ≡ self) }
        ensures refused { IfErr result (λ e. IsBeginFault self.main.table dirty.table e.1) }
    {
        if !dirty.table().same(self.main.table()) {
            return Err((self, SendFault::OtherTable));
        }
        match self.dealt_out(dirty) {
            Ok((shared, seats)) => {
                let spents = Vec::new(self.alloc);
                Ok(MultiRound {
                    sender: self,
                    shared,
                    seats,
                    spents,
                })
            }
            Err(NoMemory) => Err((self, SendFault::NoMemory)),
        }
    }

    // Returns what the workers of a round share, and their seats.
    fn dealt_out(&self, dirty: Dirty<A>) -> Result<(Arc<RoundWork<A>, A>, Vec<Seat, A>), NoMemory>
        requires table { dirty.table ≡ self.now.main.table }
        requires set { IsPlaceSet dirty }
        ensures { IfOk result (λ r. IsDealtOut dirty self.now (arc_value r.0) r.1.items) }
    {
        if self.base > LAST_BASE {
            return Err(NoMemory);
        }
        deal_out(
            self.alloc,
            self.base,
            dirty,
            self.limit,
            self.channels.len(),
        )
    }

    // Takes the bytes of a channel that the round holds.
    fn take_channel(&mut self, channel: usize) -> Vec<u8, A>
        requires { channel < length self.old.channels }
        ensures text { result.items ≡ get_or self.old.channels channel [] }
        ensures rest { self.new ≡ record self.old { channels = slice_set self.old.channels channel [] } }
    {
        let alloc = self.alloc;
        mem::replace(&mut self.channels[channel], Vec::new(alloc))
    }
}

impl<A: Allocator> MultiSender<A> {
    // Sets the bytes of a channel that the round holds. Its old bytes are dropped.
    fn put_channel(&mut self, channel: usize, text: Vec<u8, A>)
        requires { channel < length self.old.channels }
        ensures { self.new ≡ record self.old { channels = slice_set self.old.channels channel text.items } }
    {
        self.channels[channel] = text;
    }
}

impl<A: Allocator + Copy> MultiRound<A> {
    /// Gives out the worker of the next channel, from channel 0 on. Its bytes begin with those of
    /// its channel that the sender wrote before and that weren't drained.
    ///
    /// # Errors
    ///
    /// `NoMemory`: an allocation was refused, or there are more than 2^63 owners of what the
    /// workers share. The round is as it was.
    pub fn worker(&mut self) -> Result<ChannelWorker<A>, NoMemory>
        requires left { 0 < length self.old.seats }
        ensures ok { IfOk result (λ worker. HandsOut self.old self.new worker) }
        ensures err { IfErr result (λ _. self.new ≡ self.old) }
    {
        let Ok(shared) = Arc::try_clone(&self.shared) else {
            return Err(NoMemory);
        };
        let limit = shared.limit();
        let room = Vec::with_capacity(*self.seats.allocator(), limit)?;
        let finder = Finder::new(&shared, limit, room);
        let channel = self.sender.channels() - self.seats.len();
        let Some(seat) = self.seats.pop() else {
            unreachable!()
        };
        let text = self.sender.take_channel(channel);
        let offsets = Offsets::new(*text.allocator());
        Ok(ChannelWorker {
            shared,
            channel,
            hand: Hand::Drawing(seat),
            text,
            offsets,
            finder,
        })
    }
}

impl<A: Allocator> MultiRound<A> {
    /// Returns the table whose pages the round sends.
    pub fn table(&self) -> &Table<A>
        ensures { result.now ≡ self.now.sender.main.table }
    {
        self.sender.main.table()
    }

    /// Returns how many channels its sender has.
    pub fn channels(&self) -> usize
        ensures { result ≡ length self.now.sender.channels }
    {
        self.sender.channels.len()
    }

    /// Returns how many workers weren't given out yet.
    pub fn workers_left(&self) -> usize
        ensures { result ≡ length self.now.seats }
    {
        self.seats.len()
    }

    /// Returns how many workers were given back: the channel of the next one to give back.
    pub fn given_back(&self) -> usize
        ensures { result ≡ length self.now.spents }
    {
        self.spents.len()
    }

    /// Takes the round back: it sends nothing, and the sender is as it was before `begin_round`. No
    /// worker was given out. A caller tests that by `workers_left`, which is then `channels`.
    pub fn take_back(self) -> MultiSender<A>
        requires { length self.seats ≡ length self.sender.channels }
        ensures { IsTakenBack self result }
    {
        let MultiRound {
            sender,
            shared: _,
            seats: _,
            spents: _,
        } = self;
        sender
    }

    /// Takes back a worker that has ended. Workers are given back in the order of their channels.
    /// Bytes that it didn't drain are the sender's again.
    ///
    /// # Errors
    ///
    /// The worker: an allocation was refused. The round is as it was.
    pub fn give_back(&mut self, worker: ChannelWorker<A>) -> Result<(), ChannelWorker<A>>
        requires own { worker.terms ≡ self.old.terms }
        requires turn { (worker.channel ≡ length self.old.spents) × (length self.old.spents < handed_out self.old) }
        requires ended { HasEnded worker.hand }
        ensures ok { OnOk result (TakesBack worker self.old self.new) }
        ensures same { OnErr result (self.new ≡ self.old) }
        ensures err { IfErr result (λ w. w ≡ worker) }
    {
        let ChannelWorker {
            shared,
            channel,
            hand,
            text,
            offsets,
            finder,
        } = worker;
        let Hand::Ended(spent) = hand else {
            unreachable!()
        };
        match self.spents.push(spent) {
            Ok(()) => {
                self.sender.put_channel(channel, text);
                Ok(())
            }
            Err(AllocFailed { value: spent }) => Err(ChannelWorker {
                shared,
                channel,
                hand: Hand::Ended(spent),
                text,
                offsets,
                finder,
            }),
        }
    }

    /// Ends the round with a FLUSH on the main stream. All workers have been given back.
    ///
    /// If all steps were passed memories of one image, the round is of that image. If not, it is of
    /// an image that has the pages which were packed, those of each batch from the memory that its
    /// step was passed (`has_sent_each` of `EndsRound`).
    ///
    /// # Errors
    ///
    /// The round, as it was: an allocation was refused.
    pub fn end_round(self) -> Result<MultiSender<A>, MultiRound<A>>
        requires all { length self.spents ≡ length self.sender.channels }
        ensures ok { IfOk result (λ sender. EndsRound self sender) }
        ensures err { IfErr result (λ round. round ≡ self) }
    {
        let MultiRound {
            mut sender,
            shared,
            seats,
            spents,
        } = self;
        let Ok(()) = sender.main.flush_part() else {
            return Err(MultiRound {
                sender,
                shared,
                seats,
                spents,
            });
        };
        sender.base += shared.len() + sender.channels.len() as u64;
        sender.rounds += 1;
        let _next = shared.deal.end_number(spents);
        Ok(sender)
    }
}
