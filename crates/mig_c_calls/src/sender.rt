//! A sender of one stream, as it is kept between two calls: rounds are put page by page, and the
//! bytes are drained into buffers of C.

ghost use Rattle.std.specs.Prelude.{[], ◌≡◌, ◌≤◌, IfOk, None, Some, length};
ghost use Rattle.mig_stream.specs.Format.{most_name_bytes};
ghost use Rattle.mig_c_calls.specs.Sending.{Starts, Begins, Puts, EndsRound, Cancels, Finishes, FinishesOpen, FinishesAs, Changes, Adds, Drains, Refills, Hands, Peeks, Counts, Skips};

use crate::status::{BAD_LENGTH, DONE, NO_MEMORY, NO_PAGE, OUT_OF_TURN};
use crate::waiting::{copy_front, undrained};
use mig_mem::{NoMemory, Place, Table};
use mig_send::{OpenRound, SingleSender};
use std::alloc::Global;

/// The state of a sender.
#[derive(Drop)]
pub enum Sending {
    /// Between two rounds, or before the first.
    Idle(SingleSender<Global>),
    /// In a round.
    Round(OpenRound<Global>),
    /// After the end, with the bytes that weren't drained.
    Over(Vec<u8>),
    /// After RAM's END, without the end byte, with the bytes that weren't drained.
    LeftOpen(Vec<u8>),
}

/// A sender, and the bytes that were last drained of its stream.
pub struct Sender {
    /// The state of the sender.
    pub(crate) state: Sending,
    /// The bytes that were drained of the writer last.
    pub(crate) drained: Vec<u8>,
    /// How many of them were copied out to C.
    pub(crate) given: usize,
}

// Written out, so that a caller's proof passes a call where a value is dropped.
impl Drop for Sender {
    fn drop(self) {
        let Sender {
            state: _,
            drained: _,
            given: _,
        } = self;
    }
}

// Begins a round.
fn begun(state: Sending) -> (Sending, u32)
    ensures { Begins result.1 state result.0 }
{
    match state {
        Sending::Idle(sender) => match sender.begin_round() {
            Ok(round) => (Sending::Round(round), DONE),
            Err(sender) => (Sending::Idle(sender), NO_MEMORY),
        },
        Sending::Round(round) => (Sending::Round(round), OUT_OF_TURN),
        Sending::Over(text) => (Sending::Over(text), OUT_OF_TURN),
        Sending::LeftOpen(text) => (Sending::LeftOpen(text), OUT_OF_TURN),
    }
}

// Ends the open round.
fn ended(state: Sending) -> (Sending, u32)
    ensures { EndsRound result.1 state result.0 }
{
    match state {
        Sending::Round(round) => match round.end_round() {
            Ok(sender) => (Sending::Idle(sender), DONE),
            Err(round) => (Sending::Round(round), NO_MEMORY),
        },
        Sending::Idle(sender) => (Sending::Idle(sender), OUT_OF_TURN),
        Sending::Over(text) => (Sending::Over(text), OUT_OF_TURN),
        Sending::LeftOpen(text) => (Sending::LeftOpen(text), OUT_OF_TURN),
    }
}

// Cancels the open round.
fn cancelled(state: Sending) -> (Sending, u32)
    ensures { Cancels result.1 state result.0 }
{
    match state {
        Sending::Round(round) => (Sending::Idle(round.cancel()), DONE),
        Sending::Idle(sender) => (Sending::Idle(sender), OUT_OF_TURN),
        Sending::Over(text) => (Sending::Over(text), OUT_OF_TURN),
        Sending::LeftOpen(text) => (Sending::LeftOpen(text), OUT_OF_TURN),
    }
}

// Ends the stream.
fn finished(state: Sending) -> (Sending, u32)
    ensures { Finishes result.1 state result.0 }
{
    match state {
        Sending::Idle(sender) => match sender.finish() {
            Ok(text) => (Sending::Over(text), DONE),
            Err(sender) => (Sending::Idle(sender), NO_MEMORY),
        },
        Sending::Round(round) => (Sending::Round(round), OUT_OF_TURN),
        Sending::Over(text) => (Sending::Over(text), OUT_OF_TURN),
        Sending::LeftOpen(text) => (Sending::LeftOpen(text), OUT_OF_TURN),
    }
}

// Ends RAM's sections, and leaves the stream open.
fn finished_open(state: Sending) -> (Sending, u32)
    ensures { FinishesOpen result.1 state result.0 }
{
    match state {
        Sending::Idle(sender) => match sender.finish_open() {
            Ok(text) => (Sending::LeftOpen(text), DONE),
            Err(sender) => (Sending::Idle(sender), NO_MEMORY),
        },
        Sending::Round(round) => (Sending::Round(round), OUT_OF_TURN),
        Sending::Over(text) => (Sending::Over(text), OUT_OF_TURN),
        Sending::LeftOpen(text) => (Sending::LeftOpen(text), OUT_OF_TURN),
    }
}

// Ends the stream with its end byte, or leaves it open.
fn finished_as(state: Sending, left_open: bool) -> (Sending, u32)
    ensures { FinishesAs left_open result.1 state result.0 }
{
    if left_open {
        return finished_open(state);
    }
    finished(state)
}

// Takes the state out of a sender, which must get one again.
fn take_state(alloc: Global, sender: &mut Sender) -> Sending
    ensures state { result ≡ sender.old.state }
    ensures drained { sender.new.drained ≡ sender.old.drained }
    ensures given { sender.new.given ≡ sender.old.given }
{
    std::mem::replace(&mut sender.state, Sending::Over(Vec::new(alloc)))
}

// Puts a page into a round.
fn put(round: &mut OpenRound<Global>, place: Place, bytes: &[u8]) -> u32
    ensures { Adds place bytes.now result round.old round.new }
{
    if !round.table().holds(place) {
        return NO_PAGE;
    }
    if bytes.len() as u64 != round.table().page_size() {
        return BAD_LENGTH;
    }
    match round.put_page(place, bytes) {
        Ok(()) => DONE,
        Err(NoMemory) => NO_MEMORY,
    }
}

// Takes all bytes of `text` in place of those that were drained before.
fn take_text(drained: &mut Vec<u8>, text: &mut Vec<u8>)
    ensures taken { drained.new.items ≡ text.old.items }
    ensures none { text.new.items ≡ [] }
{
    drained.clear();
    std::mem::swap(drained, text);
}

// Drains the writer, if no drained byte waits.
fn refill(sender: &mut Sender)
    ensures { Refills sender.old sender.new }
{
    if sender.given < sender.drained.len() {
        return;
    }
    match &mut sender.state {
        Sending::Idle(writer) => {
            writer.drain_into(&mut sender.drained);
            sender.given = 0;
        }
        Sending::Round(_) => {}
        Sending::Over(text) => {
            take_text(&mut sender.drained, text);
            sender.given = 0;
        }
        Sending::LeftOpen(text) => {
            take_text(&mut sender.drained, text);
            sender.given = 0;
        }
    }
}

// Copies out the first bytes that wait.
fn hand_out(sender: &mut Sender, out: &mut [u8]) -> usize
    ensures { Hands result out.new sender.old sender.new }
{
    let count = copy_front(undrained(&sender.drained, sender.given), out);
    sender.given += count;
    count
}

// Drains the writer if no byte waits, and copies out the first bytes that wait.
fn drain_sender(sender: &mut Sender, out: &mut [u8]) -> usize
    ensures { Drains result out.new sender.old sender.new }
{
    refill(sender);
    hand_out(sender, out)
}

// Copies out the first bytes that wait, which still wait.
fn peek_sender(sender: &mut Sender, out: &mut [u8]) -> usize
    ensures { Peeks result out.new sender.old sender.new }
{
    refill(sender);
    copy_front(undrained(&sender.drained, sender.given), out)
}

// Counts the first bytes that wait as copied out.
fn skip_sender(sender: &mut Sender, len: usize) -> usize
    ensures { Skips len result sender.old sender.new }
{
    let skipped = undrained(&sender.drained, sender.given).len().min(len);
    sender.given += skipped;
    skipped
}

// Returns how many bytes wait.
fn count_waiting(sender: &mut Sender) -> usize
    ensures { Counts result sender.old sender.new }
{
    refill(sender);
    undrained(&sender.drained, sender.given).len()
}

impl Sender {
    /// Creates a sender of a stream without a name, of `table`, which it copies. It has sent
    /// nothing.
    pub fn new(alloc: Global, table: &Table<Global>) -> Result<Sender, NoMemory>
        ensures { IfOk result (λ s. Starts None (Some table.now) (Some s)) }
    {
        let writer = SingleSender::new(alloc, table)?;
        Ok(Sender {
            state: Sending::Idle(writer),
            drained: Vec::new(alloc),
            given: 0,
        })
    }

    /// Creates a sender of a stream with a machine's name, of `table`, which it copies. The
    /// stream's first bytes wait.
    pub fn new_named(alloc: Global, table: &Table<Global>, name: &[u8]) -> Result<Sender, NoMemory>
        requires name { length name.now ≤ most_name_bytes }
        ensures { IfOk result (λ s. Starts (Some name.now) (Some table.now) (Some s)) }
    {
        let (first, writer) = SingleSender::with_configuration(alloc, table, name)?;
        Ok(Sender {
            state: Sending::Idle(writer),
            drained: first,
            given: 0,
        })
    }

    /// Begins a round. Returns the status: `DONE`, `NO_MEMORY` or `OUT_OF_TURN`.
    pub fn begin_round(&mut self, alloc: Global) -> u32
        ensures { Changes (Begins result) self.old self.new }
    {
        let (state, status) = begun(take_state(alloc, self));
        self.state = state;
        status
    }

    /// Puts a page into the open round. Returns the status: `DONE`, or the first that applies of
    /// `OUT_OF_TURN`, `NO_PAGE`, `BAD_LENGTH` and `NO_MEMORY`.
    pub fn put_page(&mut self, place: Place, bytes: &[u8]) -> u32
        ensures { Changes (Puts place bytes.now result) self.old self.new }
    {
        match &mut self.state {
            Sending::Round(round) => put(round, place, bytes),
            _ => OUT_OF_TURN,
        }
    }

    /// Ends the open round. Returns the status: `DONE`, `NO_MEMORY` or `OUT_OF_TURN`.
    pub fn end_round(&mut self, alloc: Global) -> u32
        ensures { Changes (EndsRound result) self.old self.new }
    {
        let (state, status) = ended(take_state(alloc, self));
        self.state = state;
        status
    }

    /// Cancels the open round. Returns the status: `DONE` or `OUT_OF_TURN`.
    pub fn cancel_round(&mut self, alloc: Global) -> u32
        ensures { Changes (Cancels result) self.old self.new }
    {
        let (state, status) = cancelled(take_state(alloc, self));
        self.state = state;
        status
    }

    /// Ends the stream with its end byte, or leaves it open after the footer of RAM's END. Returns
    /// the status: `DONE`, `NO_MEMORY` or `OUT_OF_TURN`.
    pub fn finish(&mut self, alloc: Global, left_open: bool) -> u32
        ensures { Changes (FinishesAs left_open result) self.old self.new }
    {
        let (state, status) = finished_as(take_state(alloc, self), left_open);
        self.state = state;
        status
    }

    /// Copies the next bytes of the stream to the front of `out`. Returns how many.
    pub fn drain(&mut self, out: &mut [u8]) -> usize
        ensures { Drains result out.new self.old self.new }
    {
        drain_sender(self, out)
    }

    /// Copies the next bytes of the stream to the front of `out`, and they still wait. Returns how
    /// many.
    pub fn peek(&mut self, out: &mut [u8]) -> usize
        ensures { Peeks result out.new self.old self.new }
    {
        peek_sender(self, out)
    }

    /// Counts the first bytes that wait as copied out: `len` of them, or all. Returns how many.
    pub fn skip(&mut self, len: usize) -> usize
        ensures { Skips len result self.old self.new }
    {
        skip_sender(self, len)
    }

    /// Returns how many bytes of the stream wait to be copied out.
    pub fn waiting(&mut self) -> usize
        ensures { Counts result self.old self.new }
    {
        count_waiting(self)
    }
}
