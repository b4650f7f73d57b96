//! A send of C, of each kind: of one stream, or on several channels.

ghost use Rattle.std.specs.Prelude.{◌≡◌, ◌≢◌, ◌↔◌, IsTrue, IsSome, None, Some, IfOk, IfErr, map};
ghost use Rattle.mig_mem.specs.Bitmaps.{lent_words};
ghost use Rattle.mig_c_calls.specs.Status.{done, out_of_turn};
ghost use Rattle.mig_c_calls.specs.Sending as one;
ghost use Rattle.mig_c_calls.specs.Multi as several;
ghost use Rattle.mig_c_calls.specs.declared.send.GuestSend.TheVariants.{Several};
ghost use Rattle.mig_c_calls.specs.Multi.{place_of};
ghost use Rattle.mig_c_calls.specs.Send.{name_of, IsLong, setting_of, IsLimit, IsAsked, OpensSend, BeginsRound, BeginsPages, BeginsBitmaps, PutsPage, HandsOutWorker, IsOfRound, TakesBackWorker, EndsRound, CancelsRound, Finishes, channel_of, Drains, Peeks, Skips, Counts};

use crate::asked_send::{AskedSend, is_long, name_bytes};
use crate::sender::Sender;
use crate::sending::{HeldWorker, Multi, NamedPlace};
use crate::status::{BAD_LENGTH, BATCH_LIMIT, CHANNELS, NO_MEMORY, OUT_OF_TURN};
use mig_mem::{NoMemory, Place, Table};
use mig_packet::page_limit;
use std::alloc::Global;
use uuid::Uuid;

/// A send of a guest's memory.
#[derive(Drop)]
pub enum GuestSend {
    /// Of one stream, whose rounds are put page by page.
    One(Sender),
    /// Of a main stream and channels, whose rounds are packed by workers.
    Several(Multi),
}

// Returns whether a packet may have `limit` pages.
fn is_limit(table: &Table<Global>, limit: usize) -> bool
    ensures { IsTrue result ↔ IsLimit table.now limit }
{
    table.keeps_limits();
    limit > 0 && limit <= page_limit(table.page_size())
}

// Creates a sender of one stream.
fn made_one(alloc: Global, table: &Table<Global>, asked: &AskedSend) -> Result<Sender, NoMemory>
    requires { IsLong asked.now → ⊥ }
    ensures { IfOk result (λ s. one.Starts (name_of asked.now) (Some table.now) (Some s)) }
{
    if asked.named == 0 {
        return Sender::new(alloc, table);
    }
    Sender::new_named(alloc, table, name_bytes(asked))
}

// Creates a sender on several channels.
fn made_several(alloc: Global, table: &Table<Global>, asked: &AskedSend) -> Result<Multi, NoMemory>
    requires { IsLong asked.now → ⊥ }
    ensures { IfOk result (λ m. several.Starts (setting_of table.now asked.now) m) }
{
    let uuid = Uuid::from_bytes(asked.uuid);
    if asked.named == 0 {
        return Multi::new(alloc, table, uuid, asked.channels, asked.limit);
    }
    let name = name_bytes(asked);
    Multi::new_named(alloc, table, uuid, asked.channels, asked.limit, name)
}

// Creates a send of the kind that the number of channels asks for.
fn made(alloc: Global, table: &Table<Global>, asked: &AskedSend) -> Result<GuestSend, NoMemory>
    requires { IsLong asked.now → ⊥ }
    ensures { IfOk result (λ s. IsAsked table.now asked.now (Some s)) }
{
    if asked.channels == 0 {
        return Ok(GuestSend::One(made_one(alloc, table, asked)?));
    }
    Ok(GuestSend::Several(made_several(alloc, table, asked)?))
}

// Takes back a round on several channels, or gives the streams up.
fn cancel_several(alloc: Global, multi: &mut Multi, give_up: bool) -> u32
    ensures { CancelsRound give_up result (Several multi.old) (Several multi.new) }
{
    if give_up {
        return multi.cancel_round(alloc);
    }
    multi.take_back_round(alloc)
}

// Returns the channel of a source: none is the only stream, or the main one.
fn channel_of(source: usize) -> Option<usize>
    ensures { result ≡ channel_of source }
{
    if source == 0 {
        return None;
    }
    Some(source - 1)
}

impl GuestSend {
    /// Creates a send that has sent nothing, of `table`, which it copies. Returns the status if
    /// there is none.
    pub fn new(alloc: Global, table: &Table<Global>, asked: &AskedSend) -> Result<GuestSend, u32>
        ensures ok { IfOk result (λ s. OpensSend table.now asked.now done (Some s)) }
        ensures err { IfErr result (λ status. OpensSend table.now asked.now status None) }
        ensures refused { IfErr result (λ status. status ≢ done) }
    {
        if is_long(asked) {
            return Err(BAD_LENGTH);
        }
        if asked.channels > 255 {
            return Err(CHANNELS);
        }
        if asked.channels != 0 && !is_limit(table, asked.limit) {
            return Err(BATCH_LIMIT);
        }
        match made(alloc, table, asked) {
            Ok(send) => Ok(send),
            Err(NoMemory) => Err(NO_MEMORY),
        }
    }

    /// Begins a round: of one stream, whose pages are put, or on several channels without any.
    pub fn begin_round(&mut self, alloc: Global) -> u32
        ensures { BeginsRound result self.old self.new }
    {
        match self {
            GuestSend::One(sender) => sender.begin_round(alloc),
            GuestSend::Several(multi) => multi.begin_round(alloc, &[]),
        }
    }

    /// Begins a round on several channels of these dirty places, in any order, of which each counts
    /// once.
    pub fn begin_round_pages(&mut self, alloc: Global, places: &[NamedPlace]) -> u32
        ensures { BeginsPages (map place_of places.now) result self.old self.new }
    {
        match self {
            GuestSend::One(_) => OUT_OF_TURN,
            GuestSend::Several(multi) => multi.begin_round(alloc, places),
        }
    }

    /// Begins a round on several channels, of the pages whose bit is set in the bitmap of their
    /// block.
    pub fn begin_round_bitmaps(&mut self, alloc: Global, bitmaps: &[&[u64]]) -> u32
        ensures { BeginsBitmaps (lent_words bitmaps.now) result self.old self.new }
    {
        match self {
            GuestSend::One(_) => OUT_OF_TURN,
            GuestSend::Several(multi) => multi.begin_round_bitmaps(alloc, bitmaps),
        }
    }

    /// Puts a page into the open round of one stream.
    pub fn put_page(&mut self, place: Place, bytes: &[u8]) -> u32
        ensures { PutsPage place bytes.now result self.old self.new }
    {
        match self {
            GuestSend::One(sender) => sender.put_page(place, bytes),
            GuestSend::Several(_) => OUT_OF_TURN,
        }
    }

    /// Gives out the worker of the next channel. Returns the status, and with `DONE` the worker.
    pub fn worker(&mut self, alloc: Global) -> (u32, Option<HeldWorker>)
        ensures hands { HandsOutWorker result.0 result.1 self.old self.new }
        ensures made { result.0 ≡ done ↔ IsSome result.1 }
    {
        match self {
            GuestSend::One(_) => (OUT_OF_TURN, None),
            GuestSend::Several(multi) => multi.worker(alloc),
        }
    }

    /// Returns why there is no worker, if its handle got no memory.
    pub fn refused_worker(&self) -> u32
        ensures { HandsOutWorker result None self.now self.now }
    {
        match self {
            GuestSend::One(_) => OUT_OF_TURN,
            GuestSend::Several(multi) => multi.refused_worker(),
        }
    }

    /// Takes back a worker of the open round. Returns the status, and the worker if it isn't taken.
    pub fn give_back(&mut self, worker: HeldWorker) -> (u32, Option<HeldWorker>)
        requires { IsOfRound worker.worker self.old }
        ensures takes { TakesBackWorker result.0 worker result.1 self.old self.new }
        ensures gone { result.0 ≡ done ↔ result.1 ≡ None }
    {
        match self {
            GuestSend::One(_) => (OUT_OF_TURN, Some(worker)),
            GuestSend::Several(multi) => multi.give_back(worker),
        }
    }

    /// Ends the open round.
    pub fn end_round(&mut self, alloc: Global) -> u32
        ensures { EndsRound result self.old self.new }
    {
        match self {
            GuestSend::One(sender) => sender.end_round(alloc),
            GuestSend::Several(multi) => multi.end_round(alloc),
        }
    }

    /// Cancels the open round: it sends nothing, and the send is as before it. On several channels
    /// that is refused once a worker was given out, but the streams may be given up.
    pub fn cancel_round(&mut self, alloc: Global, give_up: bool) -> u32
        ensures { CancelsRound give_up result self.old self.new }
    {
        match self {
            GuestSend::One(sender) => sender.cancel_round(alloc),
            GuestSend::Several(multi) => cancel_several(alloc, multi, give_up),
        }
    }

    /// Ends the streams, the only or the main one with its end byte, or left open after the footer
    /// of RAM's END.
    pub fn finish(&mut self, alloc: Global, left_open: bool) -> u32
        ensures { Finishes left_open result self.old self.new }
    {
        match self {
            GuestSend::One(sender) => sender.finish(alloc, left_open),
            GuestSend::Several(multi) => multi.finish(alloc, left_open),
        }
    }

    /// Copies the next bytes of a source to the front of `out`. Returns how many.
    pub fn drain(&mut self, source: usize, out: &mut [u8]) -> usize
        ensures { Drains (channel_of source) result out.new self.old self.new }
    {
        match self {
            GuestSend::One(sender) => match channel_of(source) {
                None => sender.drain(out),
                Some(_) => 0,
            },
            GuestSend::Several(multi) => match channel_of(source) {
                None => multi.drain(out),
                Some(channel) => multi.drain_channel(channel, out),
            },
        }
    }

    /// Copies the next bytes of a source to the front of `out`, and they still wait. Returns how
    /// many.
    pub fn peek(&mut self, source: usize, out: &mut [u8]) -> usize
        ensures { Peeks (channel_of source) result out.new self.old self.new }
    {
        match self {
            GuestSend::One(sender) => match channel_of(source) {
                None => sender.peek(out),
                Some(_) => 0,
            },
            GuestSend::Several(multi) => match channel_of(source) {
                None => multi.peek(out),
                Some(channel) => multi.peek_channel(channel, out),
            },
        }
    }

    /// Counts the first bytes of a source that wait as copied out: `len` of them, or all. Returns
    /// how many.
    pub fn skip(&mut self, source: usize, len: usize) -> usize
        ensures { Skips (channel_of source) len result self.old self.new }
    {
        match self {
            GuestSend::One(sender) => match channel_of(source) {
                None => sender.skip(len),
                Some(_) => 0,
            },
            GuestSend::Several(multi) => match channel_of(source) {
                None => multi.skip(len),
                Some(channel) => multi.skip_channel(channel, len),
            },
        }
    }

    /// Returns how many bytes of a source wait to be copied out.
    pub fn waiting(&mut self, source: usize) -> usize
        ensures { Counts (channel_of source) result self.old self.new }
    {
        match self {
            GuestSend::One(sender) => match channel_of(source) {
                None => sender.waiting(),
                Some(_) => 0,
            },
            GuestSend::Several(multi) => match channel_of(source) {
                None => multi.waiting(),
                Some(channel) => multi.waiting_channel(channel),
            },
        }
    }
}
