//! The calls of a sender on several channels, and of its open round. The calls of the round's
//! workers are in `worker`.

ghost use Rattle.std.specs.Prelude.{◌≡◌, ◌≢◌, ◌+◌, ◌≤◌, ◌<◌, [], IsSome, IsTrue, ◌↔◌, true, false, IfOk, IfErr, OnOk, OnErr, None, Some, length, All, map, replicate};
ghost use Rattle.mig_mem.specs.Place.{IsPlace};
ghost use Rattle.mig_mem.specs.PlaceSet.{PlaceSet};
ghost use Rattle.mig_mem.specs.Bitmaps.{lent_words};
ghost use Rattle.mig_stream.specs.Format.{most_name_bytes};
ghost use Rattle.mig_packet.specs.PageSize.{page_limit as most_pages};
ghost use Rattle.mig_send.specs.MultiRound.{TakesBack};
ghost use Rattle.mig_c_calls.specs.Status.{done};
ghost use Rattle.mig_c_calls.specs.declared.sending.MultiState.TheVariants.{Idle, Round, Over};
ghost use Rattle.mig_c_calls.specs.Multi.{MultiSetting, Starts, place_of, set_of, ChangesMulti, BeginsRound, Deals, BeginsBitmaps, DealsBitmaps, TakesBackRound, GivesNext, HandsOutWorker, CanComeBack, TakesBackWorker, IsOfRound, EndsRound, CancelsRound, EndsStreams, Finishes, DrainsMain, PeeksMain, CountsMain, SkipsMain, RefillsMain, DrainsChannel, SkipsChannel, left_of, left_at, IsOpen, HasNothingLeft};
ghost use Rattle.mig_c_calls.specs.Front.{ShowsFront};

use crate::sending::{DealtRound, EndedStreams, HeldWorker, Multi, MultiState, NamedPlace};
use crate::status::{BAD_LENGTH, DONE, NO_MEMORY, NO_PAGE, OUT_OF_TURN};
use crate::waiting::{Waiting, copy_front, show_front, undrained};
use mig_mem::{Dirty, NoMemory, Place, Table};
use mig_send::{MultiRound, MultiSender, Sent};
use std::alloc::Global;
use std::mem;
use uuid::Uuid;

fn place_of(named: &NamedPlace) -> Place
    ensures { result ≡ place_of named.now }
{
    Place {
        block: named.block,
        page: named.page,
    }
}

// Returns whether a table has all of these places.
fn has_all(table: &Table<Global>, places: &[NamedPlace]) -> bool
    ensures { IsTrue result ↔ All (IsPlace table.now) (map place_of places.now) }
{
    for named in places {
        if !table.holds(place_of(named)) {
            return false;
        }
    }
    true
}

// Returns the set of these places, or why it can't.
fn marked(
    alloc: Global,
    table: &Table<Global>,
    places: &[NamedPlace],
) -> Result<Dirty<Global>, NoMemory>
    requires { All (IsPlace table.now) (map place_of places.now) }
    ensures { IfOk result (λ dirty. dirty ≡ set_of table.now (map place_of places.now)) }
{
    let mut dirty = Dirty::none(alloc, table)?;
    for named in places {
        dirty.mark(place_of(named))?;
    }
    Ok(dirty)
}

// Begins a round of these places.
fn dealt(alloc: Global, sender: MultiSender<Global>, places: &[NamedPlace]) -> (MultiState, u32)
    ensures { Deals (map place_of places.now) result.1 sender result.0 }
{
    if !has_all(sender.table(), places) {
        return (MultiState::Idle(sender), NO_PAGE);
    }
    let Ok(dirty) = marked(alloc, sender.table(), places) else {
        return (MultiState::Idle(sender), NO_MEMORY);
    };
    match sender.begin_round_with(dirty) {
        Ok(round) => (MultiState::Round(DealtRound { round }), DONE),
        Err((sender, _)) => (MultiState::Idle(sender), NO_MEMORY),
    }
}

// Begins a round of these places, if none is open.
fn begun(alloc: Global, state: MultiState, places: &[NamedPlace]) -> (MultiState, u32)
    ensures { BeginsRound (map place_of places.now) result.1 state result.0 }
{
    match state {
        MultiState::Idle(sender) => dealt(alloc, sender, places),
        MultiState::Round(round) => (MultiState::Round(round), OUT_OF_TURN),
        MultiState::Over(streams) => (MultiState::Over(streams), OUT_OF_TURN),
    }
}

// Begins a round of the pages that bitmaps mark.
fn dealt_bitmaps(
    alloc: Global,
    sender: MultiSender<Global>,
    bitmaps: &[&[u64]],
) -> (MultiState, u32)
    ensures { DealsBitmaps (lent_words bitmaps.now) result.1 sender result.0 }
{
    if !sender.table().has_bitmaps(bitmaps) {
        return (MultiState::Idle(sender), BAD_LENGTH);
    }
    let Ok(dirty) = Dirty::from_bitmaps(alloc, sender.table(), bitmaps) else {
        return (MultiState::Idle(sender), NO_MEMORY);
    };
    match sender.begin_round_with(dirty) {
        Ok(round) => (MultiState::Round(DealtRound { round }), DONE),
        Err((sender, _)) => (MultiState::Idle(sender), NO_MEMORY),
    }
}

// Begins a round of the pages that bitmaps mark, if none is open.
fn begun_bitmaps(alloc: Global, state: MultiState, bitmaps: &[&[u64]]) -> (MultiState, u32)
    ensures { BeginsBitmaps (lent_words bitmaps.now) result.1 state result.0 }
{
    match state {
        MultiState::Idle(sender) => dealt_bitmaps(alloc, sender, bitmaps),
        MultiState::Round(round) => (MultiState::Round(round), OUT_OF_TURN),
        MultiState::Over(streams) => (MultiState::Over(streams), OUT_OF_TURN),
    }
}

// Takes a round back, if no worker of it was given out.
fn taken_back_round(dealt: DealtRound) -> (MultiState, u32)
    ensures { TakesBackRound result.1 (Round dealt) result.0 }
{
    let DealtRound { round } = dealt;
    if round.workers_left() != round.channels() {
        return (MultiState::Round(DealtRound { round }), OUT_OF_TURN);
    }
    (MultiState::Idle(round.take_back()), DONE)
}

// Takes the open round back.
fn taken_back(state: MultiState) -> (MultiState, u32)
    ensures { TakesBackRound result.1 state result.0 }
{
    match state {
        MultiState::Round(dealt) => taken_back_round(dealt),
        MultiState::Idle(sender) => (MultiState::Idle(sender), OUT_OF_TURN),
        MultiState::Over(streams) => (MultiState::Over(streams), OUT_OF_TURN),
    }
}

// Returns the worker of the next channel, if one is left.
fn next_worker(alloc: Global, dealt: &mut DealtRound) -> Result<HeldWorker, NoMemory>
    requires { 0 < length dealt.old.round.seats }
    ensures ok { IfOk result (λ w. GivesNext dealt.old.round dealt.new.round w) }
    ensures err { OnErr result (dealt.new.round ≡ dealt.old.round) }
{
    let table = dealt.round.table().copy_in(alloc)?;
    let worker = dealt.round.worker()?;
    Ok(HeldWorker {
        worker,
        table,
        drained: Waiting::none(alloc),
    })
}

// Gives out the worker of the next channel.
fn hand_out_worker(alloc: Global, state: &mut MultiState) -> (u32, Option<HeldWorker>)
    ensures hands { HandsOutWorker result.0 state.old state.new result.1 }
    ensures made { result.0 ≡ done ↔ IsSome result.1 }
{
    let MultiState::Round(dealt) = state else {
        return (OUT_OF_TURN, None);
    };
    if dealt.round.workers_left() == 0 {
        return (OUT_OF_TURN, None);
    }
    match next_worker(alloc, dealt) {
        Ok(worker) => (DONE, Some(worker)),
        Err(NoMemory) => (NO_MEMORY, None),
    }
}

// Returns whether a worker can be given back to a round.
fn can_come_back(round: &MultiRound<Global>, worker: &HeldWorker) -> bool
    ensures { IsTrue result ↔ CanComeBack worker.now round.now }
{
    let handed = round.channels().saturating_sub(round.workers_left());
    round.given_back() < handed
        && worker.worker.channel() == round.given_back()
        && worker.worker.has_ended()
        && worker.drained.is_empty()
}

// Takes back a worker if it can be given back, or returns it.
fn given_back(dealt: &mut DealtRound, worker: HeldWorker) -> Result<(), HeldWorker>
    requires own { worker.worker.terms ≡ dealt.old.round.terms }
    requires can { CanComeBack worker dealt.old.round }
    ensures ok { OnOk result (TakesBack worker.worker dealt.old.round dealt.new.round) }
    ensures err { IfErr result (λ w. w ≡ worker) }
    ensures same { OnErr result (dealt.new.round ≡ dealt.old.round) }
{
    let HeldWorker {
        worker,
        table,
        drained,
    } = worker;
    match dealt.round.give_back(worker) {
        Ok(()) => Ok(()),
        Err(worker) => Err(HeldWorker {
            worker,
            table,
            drained,
        }),
    }
}

// Takes back a worker, or returns it if it isn't taken.
fn give_back(state: &mut MultiState, worker: HeldWorker) -> (u32, Option<HeldWorker>)
    requires { IsOfRound worker.worker state.old }
    ensures takes { TakesBackWorker result.0 worker state.old state.new result.1 }
    ensures gone { result.0 ≡ done ↔ result.1 ≡ None }
{
    let MultiState::Round(dealt) = state else {
        return (OUT_OF_TURN, Some(worker));
    };
    if !can_come_back(&dealt.round, &worker) {
        return (OUT_OF_TURN, Some(worker));
    }
    match given_back(dealt, worker) {
        Ok(()) => (DONE, None),
        Err(worker) => (NO_MEMORY, Some(worker)),
    }
}

// Ends a round.
fn ended_round(dealt: DealtRound) -> (MultiState, u32)
    ensures { EndsRound result.1 (Round dealt) result.0 }
{
    let DealtRound { round } = dealt;
    if round.given_back() != round.channels() {
        return (MultiState::Round(DealtRound { round }), OUT_OF_TURN);
    }
    match round.end_round() {
        Ok(sender) => (MultiState::Idle(sender), DONE),
        Err(round) => (MultiState::Round(DealtRound { round }), NO_MEMORY),
    }
}

// Ends the open round.
fn ended(state: MultiState) -> (MultiState, u32)
    ensures { EndsRound result.1 state result.0 }
{
    match state {
        MultiState::Round(dealt) => ended_round(dealt),
        MultiState::Idle(sender) => (MultiState::Idle(sender), OUT_OF_TURN),
        MultiState::Over(streams) => (MultiState::Over(streams), OUT_OF_TURN),
    }
}

// Returns `count` zeros.
fn zeros(alloc: Global, count: usize) -> Result<Vec<usize>, NoMemory>
    ensures { IfOk result (λ v. v.items ≡ replicate count 0) }
{
    Ok(vec![in alloc; 0usize; count]?)
}

// Ends the streams of a sender, the main stream with its end byte or left open.
fn end_streams(
    sender: MultiSender<Global>,
    left_open: bool,
) -> Result<Sent<Global>, MultiSender<Global>>
    ensures ok { IfOk result (λ sent. EndsStreams left_open sender sent) }
    ensures err { IfErr result (λ s. s ≡ sender) }
{
    if left_open {
        return sender.finish_open();
    }
    sender.finish()
}

// Ends the streams of a sender that is idle.
fn finished_sender(alloc: Global, sender: MultiSender<Global>, left_open: bool) -> (MultiState, u32)
    ensures { Finishes left_open result.1 (Idle sender) result.0 }
{
    let Ok(given) = zeros(alloc, sender.channels()) else {
        return (MultiState::Idle(sender), NO_MEMORY);
    };
    match end_streams(sender, left_open) {
        Ok(sent) => {
            let ended = EndedStreams {
                sent,
                given,
                left_open,
            };
            (MultiState::Over(ended), DONE)
        }
        Err(sender) => (MultiState::Idle(sender), NO_MEMORY),
    }
}

// Ends the streams, where no round is open.
fn finished(alloc: Global, state: MultiState, left_open: bool) -> (MultiState, u32)
    ensures { Finishes left_open result.1 state result.0 }
{
    match state {
        MultiState::Idle(sender) => finished_sender(alloc, sender, left_open),
        MultiState::Round(dealt) => (MultiState::Round(dealt), OUT_OF_TURN),
        MultiState::Over(streams) => (MultiState::Over(streams), OUT_OF_TURN),
    }
}

// Streams that are over, of which nothing is left.
fn nothing_left(alloc: Global) -> MultiState
    ensures { HasNothingLeft result }
{
    MultiState::Over(EndedStreams {
        sent: Sent {
            main: Vec::new(alloc),
            channels: Vec::new(alloc),
        },
        given: Vec::new(alloc),
        left_open: false,
    })
}

// Takes the state out of a sender, which is to get one again.
fn take_state(alloc: Global, multi: &mut Multi) -> MultiState
    ensures state { result ≡ multi.old.state }
    ensures main { multi.new.main ≡ multi.old.main }
{
    mem::replace(&mut multi.state, nothing_left(alloc))
}

// Whether a round is open.
fn is_open(state: &MultiState) -> bool
    ensures { IsTrue result ↔ IsOpen state.now }
{
    matches!(state, MultiState::Round(_))
}

// Drains the bytes that were written to the main stream, if no drained byte waits.
fn refill_main(multi: &mut Multi)
    ensures { RefillsMain multi.old multi.new }
{
    if !multi.main.is_empty() {
        return;
    }
    match &mut multi.state {
        MultiState::Idle(sender) => {
            sender.drain_main(&mut multi.main.bytes);
            multi.main.given = 0;
        }
        MultiState::Round(_) => {}
        MultiState::Over(streams) => {
            multi.main.bytes.clear();
            mem::swap(&mut multi.main.bytes, &mut streams.sent.main);
            multi.main.given = 0;
        }
    }
}

// Copies out the next bytes of the main stream.
fn drain_main(multi: &mut Multi, out: &mut [u8]) -> usize
    ensures { DrainsMain result out.new multi.old multi.new }
{
    refill_main(multi);
    multi.main.hand_out(out)
}

// Copies out the next bytes of the main stream, which still wait.
fn peek_main(multi: &mut Multi, out: &mut [u8]) -> usize
    ensures { PeeksMain result out.new multi.old multi.new }
{
    refill_main(multi);
    show_front(multi.main.waiting(), out)
}

// Returns how many bytes of the main stream wait.
fn count_main(multi: &mut Multi) -> usize
    ensures { CountsMain result multi.old multi.new }
{
    refill_main(multi);
    multi.main.waiting().len()
}

// Returns the bytes that are left of a channel of ended streams.
fn left_of(streams: &EndedStreams, channel: usize) -> &[u8]
    ensures { result.now ≡ left_of streams.now channel }
{
    if channel >= streams.sent.channels.len() {
        return &[];
    }
    let bytes = &streams.sent.channels[channel];
    if channel >= streams.given.len() {
        return bytes;
    }
    undrained(bytes, streams.given[channel])
}

// Returns the bytes that are left of a channel: none before the end.
fn left_at(state: &MultiState, channel: usize) -> &[u8]
    ensures { result.now ≡ left_at state.now channel }
{
    match state {
        MultiState::Over(streams) => left_of(streams, channel),
        _ => &[],
    }
}

// Counts the first bytes that are left of a channel of ended streams as copied out.
fn skip_ended(streams: &mut EndedStreams, channel: usize, len: usize) -> usize
    ensures { SkipsChannel channel len result (Over streams.old) (Over streams.new) }
{
    if channel >= streams.sent.channels.len() || channel >= streams.given.len() {
        return 0;
    }
    let given = streams.given[channel];
    let count = undrained(&streams.sent.channels[channel], given)
        .len()
        .min(len);
    streams.given[channel] = given + count;
    count
}

// Counts the first bytes that are left of a channel as copied out, if the streams are ended.
fn skip_channel(state: &mut MultiState, channel: usize, len: usize) -> usize
    ensures { SkipsChannel channel len result state.old state.new }
{
    match state {
        MultiState::Over(streams) => skip_ended(streams, channel, len),
        _ => 0,
    }
}

// Copies out what is left of a channel of ended streams.
fn drain_ended(streams: &mut EndedStreams, channel: usize, out: &mut [u8]) -> usize
    ensures { DrainsChannel channel result out.new (Over streams.old) (Over streams.new) }
{
    if channel >= streams.sent.channels.len() || channel >= streams.given.len() {
        return 0;
    }
    let given = streams.given[channel];
    let count = copy_front(undrained(&streams.sent.channels[channel], given), out);
    streams.given[channel] = given + count;
    count
}

// Copies out what is left of a channel, if the streams are ended.
fn drain_channel(state: &mut MultiState, channel: usize, out: &mut [u8]) -> usize
    ensures { DrainsChannel channel result out.new state.old state.new }
{
    match state {
        MultiState::Over(streams) => drain_ended(streams, channel, out),
        _ => 0,
    }
}

impl Multi {
    /// Creates a sender that has sent nothing, on `channels` channels, with at most `limit` pages
    /// in a packet. It copies the table.
    ///
    /// # Errors
    ///
    /// `NoMemory`: an allocation was refused, or `channels` or `limit` is outside its range.
    pub fn new(
        alloc: Global,
        table: &Table<Global>,
        uuid: Uuid,
        channels: usize,
        limit: usize,
    ) -> Result<Multi, NoMemory>
        ensures { IfOk result (λ m. Starts (record { table = table.now; uuid = uuid; limit = limit; channels = channels; name = None }) m) }
    {
        let Ok(sender) = MultiSender::new(alloc, table, uuid, channels, limit) else {
            return Err(NoMemory);
        };
        Ok(Multi {
            state: MultiState::Idle(sender),
            main: Waiting::none(alloc),
        })
    }

    /// Creates a sender as `new` does, whose main stream is a machine's: a configuration with the
    /// machine's `name` follows its file header.
    ///
    /// # Errors
    ///
    /// Those of `new`.
    pub fn new_named(
        alloc: Global,
        table: &Table<Global>,
        uuid: Uuid,
        channels: usize,
        limit: usize,
        name: &[u8],
    ) -> Result<Multi, NoMemory>
        requires name { length name.now ≤ most_name_bytes }
        ensures { IfOk result (λ m. Starts (record { table = table.now; uuid = uuid; limit = limit; channels = channels; name = Some name.now }) m) }
    {
        let Ok((first, sender)) = MultiSender::with_configuration(
            alloc, table, uuid, channels, limit, name,
        ) else {
            return Err(NoMemory);
        };
        Ok(Multi {
            state: MultiState::Idle(sender),
            main: Waiting {
                bytes: first,
                given: 0,
            },
        })
    }

    /// Begins a round of these dirty places, in any order, of which each counts once. Returns the
    /// status: `DONE`, `NO_MEMORY`, `NO_PAGE` or `OUT_OF_TURN`.
    pub fn begin_round(&mut self, alloc: Global, places: &[NamedPlace]) -> u32
        ensures { ChangesMulti (BeginsRound (map place_of places.now) result) self.old self.new }
    {
        let (state, status) = begun(alloc, take_state(alloc, self), places);
        self.state = state;
        status
    }

    /// Begins a round of the pages whose bit is set in the bitmap of their block. It allocates one
    /// copy of the bitmaps, which the round keeps. Returns the status: `DONE`, `NO_MEMORY`,
    /// `BAD_LENGTH` or `OUT_OF_TURN`.
    pub fn begin_round_bitmaps(&mut self, alloc: Global, bitmaps: &[&[u64]]) -> u32
        ensures { ChangesMulti (BeginsBitmaps (lent_words bitmaps.now) result) self.old self.new }
    {
        let (state, status) = begun_bitmaps(alloc, take_state(alloc, self), bitmaps);
        self.state = state;
        status
    }

    /// Takes the open round back, of which no worker was given out. Returns the status: `DONE` or
    /// `OUT_OF_TURN`.
    pub fn take_back_round(&mut self, alloc: Global) -> u32
        ensures { ChangesMulti (TakesBackRound result) self.old self.new }
    {
        let (state, status) = taken_back(take_state(alloc, self));
        self.state = state;
        status
    }

    /// Gives out the worker of the next channel. Returns the status, `DONE`, `NO_MEMORY` or
    /// `OUT_OF_TURN`, and with `DONE` the worker.
    pub fn worker(&mut self, alloc: Global) -> (u32, Option<HeldWorker>)
        ensures hands { ChangesMulti (λ was is. HandsOutWorker result.0 was is result.1) self.old self.new }
        ensures made { result.0 ≡ done ↔ IsSome result.1 }
    {
        hand_out_worker(alloc, &mut self.state)
    }

    /// Returns why there is no worker, if its handle got no memory: `OUT_OF_TURN`, or else
    /// `NO_MEMORY`.
    pub fn refused_worker(&self) -> u32
        ensures { HandsOutWorker result self.now.state self.now.state None }
    {
        let MultiState::Round(dealt) = &self.state else {
            return OUT_OF_TURN;
        };
        if dealt.round.workers_left() == 0 {
            return OUT_OF_TURN;
        }
        NO_MEMORY
    }

    /// Takes back a worker of the open round. Returns the status, `DONE`, `NO_MEMORY` or
    /// `OUT_OF_TURN`, and the worker if it isn't taken.
    pub fn give_back(&mut self, worker: HeldWorker) -> (u32, Option<HeldWorker>)
        requires { IsOfRound worker.worker self.old.state }
        ensures takes { ChangesMulti (λ was is. TakesBackWorker result.0 worker was is result.1) self.old self.new }
        ensures gone { result.0 ≡ done ↔ result.1 ≡ None }
    {
        give_back(&mut self.state, worker)
    }

    /// Ends the open round, all of whose workers were given back. Returns the status: `DONE`,
    /// `NO_MEMORY` or `OUT_OF_TURN`.
    pub fn end_round(&mut self, alloc: Global) -> u32
        ensures { ChangesMulti (EndsRound result) self.old self.new }
    {
        let (state, status) = ended(take_state(alloc, self));
        self.state = state;
        status
    }

    /// Gives up the streams in the middle of a round. What of the round was copied out can't be
    /// taken back from those who have it, so no other round can follow: the streams are over, and
    /// nothing of them is copied out any more. Workers that are out stay. Returns the status:
    /// `DONE` or `OUT_OF_TURN`.
    pub fn cancel_round(&mut self, alloc: Global) -> u32
        ensures { CancelsRound result self.old self.new }
    {
        if !is_open(&self.state) {
            return OUT_OF_TURN;
        }
        self.state = nothing_left(alloc);
        self.main = Waiting::none(alloc);
        DONE
    }

    /// Ends the streams, where no round is open: the main stream with its end byte, or left open
    /// after the footer of RAM's END, so that the caller goes on with the sections of devices and
    /// the end byte. Returns the status: `DONE`, `NO_MEMORY` or `OUT_OF_TURN`.
    pub fn finish(&mut self, alloc: Global, left_open: bool) -> u32
        ensures { ChangesMulti (Finishes left_open result) self.old self.new }
    {
        let (state, status) = finished(alloc, take_state(alloc, self), left_open);
        self.state = state;
        status
    }

    /// Copies the next bytes of the main stream to the front of `out`. Returns how many.
    pub fn drain(&mut self, out: &mut [u8]) -> usize
        ensures { DrainsMain result out.new self.old self.new }
    {
        drain_main(self, out)
    }

    /// Copies the next bytes that are left of a channel of ended streams to the front of `out`.
    /// Returns how many, or 0 before the end.
    pub fn drain_channel(&mut self, channel: usize, out: &mut [u8]) -> usize
        ensures { ChangesMulti (DrainsChannel channel result out.new) self.old self.new }
    {
        drain_channel(&mut self.state, channel, out)
    }
    /// Copies the next bytes of the main stream to the front of `out`, and they still wait. Returns
    /// how many.
    pub fn peek(&mut self, out: &mut [u8]) -> usize
        ensures { PeeksMain result out.new self.old self.new }
    {
        peek_main(self, out)
    }

    /// Copies the next bytes that are left of a channel of ended streams to the front of `out`, and
    /// they are still left. Returns how many, or 0 before the end.
    pub fn peek_channel(&self, channel: usize, out: &mut [u8]) -> usize
        ensures { ShowsFront result out.new (left_at self.now.state channel) }
    {
        show_front(left_at(&self.state, channel), out)
    }

    /// Counts the first bytes of the main stream that wait as copied out: `len` of them, or all.
    /// Returns how many.
    pub fn skip(&mut self, len: usize) -> usize
        ensures { SkipsMain len result self.old self.new }
    {
        self.main.skip(len)
    }

    /// Counts the first bytes that are left of a channel of ended streams as copied out: `len` of
    /// them, or all. Returns how many, or 0 before the end.
    pub fn skip_channel(&mut self, channel: usize, len: usize) -> usize
        ensures { ChangesMulti (SkipsChannel channel len result) self.old self.new }
    {
        skip_channel(&mut self.state, channel, len)
    }

    /// Returns how many bytes of the main stream wait to be copied out.
    pub fn waiting(&mut self) -> usize
        ensures { CountsMain result self.old self.new }
    {
        count_main(self)
    }

    /// Returns how many bytes are left of a channel of ended streams, or 0 before the end.
    pub fn waiting_channel(&self, channel: usize) -> usize
        ensures { result ≡ length (left_at self.now.state channel) }
    {
        left_at(&self.state, channel).len()
    }
}
