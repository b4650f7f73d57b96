//! The reader of a channel that is fed in pieces. A session of `mig_session` has one for each
//! channel.
//!
//! It keeps what was read as a `Progress`. It keeps only the channel's bytes of an item that isn't
//! complete yet. It reads a piece in place, but for the bytes that complete such an item. A packet
//! that was cut is kept where its bytes were gathered. So each byte of a packet is copied once.

ghost use Rattle.std.specs.Prelude.{◌≡◌, ◌≢◌, ◌+◌, ◌<◌, ◌≤◌, ◌^◌, ◌++◌, ℕ, List, [], length, take, true};
ghost use Rattle.std.specs.Prelude.{IsTrue, IsFalse, IsOk, None, IfOk, IfSome, IfNone, OnOk, OnErr};
ghost use Rattle.mig_packet.specs.PageSize.{IsPageSize};
ghost use Rattle.mig_packet.specs.declared.state.ChannelState.TheVariants as state;
ghost use Rattle.mig_packet.specs.Progress.{first_fault};
ghost use Rattle.mig_packet.specs.Reading.{IsItem, state_at_end, settings, with_waiting};
ghost use Rattle.mig_packet.specs.Taking.{HasTaken};
ghost use Rattle.mig_packet.specs.Filling.{Fills};
ghost use Rattle.mig_packet.specs.Reader.{IsUnfinished, ReadsOn, Stands, StepsOn, Tells, nothing_yet, with_piece, over, one_taken, waiting};
ghost use Rattle.mig_packet.specs.Reader.{HasState, IsFinal, IsValidUpTo, HasHello, HasRound};

use crate::progress::Progress;
use crate::round::{PacketRound, PacketText};
use crate::{ChannelFault, ChannelState, NoMemory};
use std::alloc::{Allocator, Global};
use std::marker::Model;
use std::{fmt, mem};
use uuid::Uuid;

/// Reads a channel from pieces of its bytes. It returns the reading of all bytes fed, however they
/// were cut.
pub struct ChannelReader<A: Allocator = Global> {
    progress: Progress<A>,
    // the bytes of the item that isn't complete yet
    pending: Vec<u8, A>,
    // the state of the bytes fed, whether or not the channel has ended
    found: ChannelState,
    // how many of the bytes fed are complete items without a fault
    valid_up_to: u64,
    fed: u64,
    ended: bool,
}

// Written out, so that a caller's proof passes a call where a value is dropped.
impl<A: Allocator> Drop for ChannelReader<A> {
    fn drop(self) {
        let ChannelReader {
            progress: _,
            pending: _,
            found: _,
            valid_up_to: _,
            fed: _,
            ended: _,
        } = self;
    }
}

impl<A: Allocator> Model for ChannelReader<A> {
    ghost use Rattle.std.specs.Prelude.{◌≡◌};
    ghost use Rattle.mig_packet.specs.declared.state.ChannelState.TheVariants as state;
    ghost use Rattle.mig_packet.specs.Reader.{Reader, IsUnfinished};

    ghost Value = { Reader };

    ghost view = { λ r. record { progress = r.progress; pending = r.pending.items; found = r.found; valid_up_to = r.valid_up_to; fed = r.fed; ended = r.ended } };

    ghost invariant = { λ r. r.found ≡ state.Reading → IsUnfinished r.progress r.pending.items };
}

// Guest memory isn't printed.
impl<A: Allocator> fmt::Debug for ChannelReader<A> {
    fn fmt<W: fmt::Write>(&self, f: &mut fmt::Formatter<W>) -> fmt::Result {
        f.pad("ChannelReader { .. }")
    }
}

/// The incomplete item after a piece.
pub(crate) enum Filled<'a> {
    /// The item is complete and without a fault. These bytes of the piece are left.
    Whole(&'a [u8]),
    /// The item isn't complete yet.
    Unfinished,
    Faulty(ChannelFault),
}

// Appends the beginning of a piece until there are `len` bytes, or the piece is used up. Returns
// what is left of the piece.
fn append_up_to<'a, A: Allocator>(
    pending: &mut Vec<u8, A>,
    len: usize,
    piece: &'a [u8],
) -> Result<&'a [u8], NoMemory>
    ensures text { IfOk result (λ rest. pending.new.items ++ rest.now ≡ pending.old.items ++ piece.now) }
    ensures short { IfOk result (λ rest. length pending.new.items < len → rest.now ≡ []) }
    ensures full { IfOk result (λ rest. length pending.old.items ≤ len → length pending.new.items ≤ len) }
    ensures same { IfOk result (λ rest. len ≤ length pending.old.items → pending.new.items ≡ pending.old.items) }
    ensures kept { take (length pending.old.items) pending.new.items ≡ pending.old.items }
    ensures err { OnErr result (pending.new.items ≡ pending.old.items) }
{
    if pending.len() >= len {
        return Ok(piece);
    }
    let missing = len - pending.len();
    pending.reserve(missing)?;
    let (front, rest) = piece.split_at(missing.min(piece.len()));
    pending.extend_from_slice(front)?;
    Ok(rest)
}

// Completes the pending item from the beginning of a piece.
fn fill_up<'a, A: Allocator>(
    progress: &Progress<A>,
    pending: &mut Vec<u8, A>,
    piece: &'a [u8],
) -> Result<Filled<'a>, NoMemory>
    requires { IsUnfinished progress.now pending.old.items }
    ensures ok { IfOk result (λ filled. Fills progress.now (pending.old.items ++ piece.now) pending.new.items filled) }
    ensures kept { take (length pending.old.items) pending.new.items ≡ pending.old.items }
{
    let judged = progress.judged_len();
    let behind = append_up_to(pending, judged, piece)?;
    if pending.len() < judged {
        return Ok(Filled::Unfinished);
    }
    if let Some(fault) = progress.fault(pending) {
        return Ok(Filled::Faulty(fault));
    }
    let len = progress.item_len(pending);
    let rest = append_up_to(pending, len, behind)?;
    if pending.len() < len {
        return Ok(Filled::Unfinished);
    }
    Ok(Filled::Whole(rest))
}

// Replaces the bytes of `kept` by `bytes`, with room for `room` bytes in all. An `Err` changes
// nothing.
fn keep<A: Allocator>(kept: &mut Vec<u8, A>, bytes: &[u8], room: usize) -> Result<(), NoMemory>
    ensures ok { OnOk result (kept.new.items ≡ bytes.now) }
    ensures err { OnErr result (kept.new.items ≡ kept.old.items) }
{
    let len = kept.len();
    kept.reserve(room.saturating_sub(len))?;
    if len < bytes.len() {
        kept.extend_from_slice(&bytes[len..])?;
    }
    kept.truncate(bytes.len());
    kept.copy_from_slice(bytes);
    Ok(())
}

// Reads bytes in place, and keeps those of an item that isn't complete. Returns the state of the
// channel, and how many bytes are left. After an `Err` some items were taken.
fn read_in_place<A: Allocator + Copy>(
    progress: &mut Progress<A>,
    pending: &mut Vec<u8, A>,
    bytes: &[u8],
) -> Result<(ChannelState, usize), NoMemory>
    ensures ok { IfOk result (λ r. ReadsOn progress.old bytes.now progress.new pending.new.items r.1 r.0) }
    ensures err { OnErr result (HasTaken progress.old bytes.now progress.new) }
    ensures kept { OnErr result (pending.new.items ≡ pending.old.items) }
{
    let (rest, found) = progress.run(bytes)?;
    match found {
        ChannelState::Reading => keep(pending, rest, progress.room(rest))?,
        _ => pending.clear(),
    }
    Ok((found, rest.len()))
}

// Takes the pending packet, whose bytes stay where they are, and reads what follows it. An `Err`
// changes nothing.
fn read_after_packet<A: Allocator + Copy>(
    progress: &mut Progress<A>,
    pending: &mut Vec<u8, A>,
    rest: &[u8],
) -> Result<(ChannelState, usize), NoMemory>
    requires hello { progress.old.hello ≢ None }
    requires whole { IsItem progress.old.page_size progress.old.hello pending.old.items }
    requires faultless { first_fault progress.old pending.old.items ≡ None }
    ensures ok { IfOk result (λ r. ReadsOn progress.old (pending.old.items ++ rest.now) progress.new pending.new.items r.1 r.0) }
    ensures err { OnErr result ((progress.new ≡ progress.old) × (pending.new.items ≡ pending.old.items)) }
{
    let checkpoint = progress.checkpoint();
    let buffer = progress.buffer();
    let packet = PacketText::of(mem::replace(pending, buffer));
    if let Err(packet) = progress.take_packet(packet) {
        *pending = packet.into_bytes();
        return Err(NoMemory);
    }
    match read_in_place(progress, pending, rest) {
        Ok(read) => Ok(read),
        Err(error) => {
            if let Some(packet) = progress.undo(checkpoint) {
                *pending = packet.into_bytes();
            }
            Err(error)
        }
    }
}

// Takes the pending item, and reads what follows it. After an `Err` some items were taken.
fn read_after<A: Allocator + Copy>(
    progress: &mut Progress<A>,
    pending: &mut Vec<u8, A>,
    rest: &[u8],
) -> Result<(ChannelState, usize), NoMemory>
    requires whole { IsItem progress.old.page_size progress.old.hello pending.old.items }
    requires faultless { first_fault progress.old pending.old.items ≡ None }
    ensures ok { IfOk result (λ r. ReadsOn progress.old (pending.old.items ++ rest.now) progress.new pending.new.items r.1 r.0) }
    ensures err { OnErr result (HasTaken progress.old (pending.old.items ++ rest.now) progress.new) }
    ensures kept { OnErr result (pending.new.items ≡ pending.old.items) }
{
    if progress.hello().is_some() {
        return read_after_packet(progress, pending, rest);
    }
    progress.take(pending)?;
    read_in_place(progress, pending, rest)
}

// Reads a piece that follows the pending bytes. After an `Err` some items were taken, and bytes of
// the piece may have been appended to the pending ones.
fn read<A: Allocator + Copy>(
    progress: &mut Progress<A>,
    pending: &mut Vec<u8, A>,
    piece: &[u8],
) -> Result<(ChannelState, usize), NoMemory>
    requires { IsUnfinished progress.old pending.old.items }
    ensures ok { IfOk result (λ r. ReadsOn progress.old (pending.old.items ++ piece.now) progress.new pending.new.items r.1 r.0) }
    ensures err { OnErr result (HasTaken progress.old (pending.old.items ++ piece.now) progress.new) }
    ensures kept { OnErr result (take (length pending.old.items) pending.new.items ≡ pending.old.items) }
{
    if pending.is_empty() {
        return read_in_place(progress, pending, piece);
    }
    let left = pending.len() + piece.len();
    match fill_up(progress, pending, piece)? {
        Filled::Whole(rest) => read_after(progress, pending, rest),
        Filled::Unfinished => Ok((ChannelState::Reading, left)),
        Filled::Faulty(fault) => Ok((ChannelState::Bad(fault), left)),
    }
}

impl<A: Allocator + Copy> ChannelReader<A> {
    /// Creates a reader of one of `channels` channels under `uuid`, with pages of `page_size`
    /// bytes.
    pub fn new(alloc: A, page_size: u64, uuid: Uuid, channels: usize) -> ChannelReader<A>
        requires page_size { IsPageSize page_size }
        requires channels { (0 < channels) × (channels ≤ 255) }
        ensures stands { Stands (settings page_size uuid channels) nothing_yet result }
        ensures open { IsFalse result.ended }
        ensures fed { result.fed ≡ 0 }
    {
        ChannelReader::new_with(alloc, page_size, uuid, channels, None)
    }

    /// Creates a reader as `new` does, with a limit on what may wait: the packets of a round may
    /// count `waiting` together, one for each packet and one for each of its pages. The packet that
    /// would pass it is the fault `Waiting`. Complete rounds that wait to be taken aren't counted.
    /// `None` is no limit.
    pub fn new_with(
        alloc: A,
        page_size: u64,
        uuid: Uuid,
        channels: usize,
        waiting: Option<u64>,
    ) -> ChannelReader<A>
        requires page_size { IsPageSize page_size }
        requires channels { (0 < channels) × (channels ≤ 255) }
        ensures stands { Stands (with_waiting waiting (settings page_size uuid channels)) nothing_yet result }
        ensures open { IsFalse result.ended }
        ensures fed { result.fed ≡ 0 }
    {
        ChannelReader {
            progress: Progress::new(alloc, page_size, uuid, channels, waiting),
            pending: Vec::new(alloc),
            found: ChannelState::Reading,
            valid_up_to: 0,
            fed: 0,
            ended: false,
        }
    }

    /// Takes the next piece of the channel. After a fault its bytes are only counted, and the call
    /// never fails.
    ///
    /// # Errors
    ///
    /// `NoMemory`: an allocation was refused. Nothing changes.
    pub fn feed(&mut self, piece: &[u8]) -> Result<(), NoMemory>
        requires open { IsFalse self.old.ended }
        requires room { self.old.fed + length piece.now < 2 ^ 64 }
        ensures stands { OnOk result (StepsOn (with_piece piece.now) self.old self.new) }
        ensures settled { Tells self.old (λ given so_far. IsFinal given so_far.text → IsOk result) }
        ensures fed { OnOk result (self.new.fed ≡ self.old.fed + length piece.now) }
        ensures open { IsFalse self.new.ended }
        ensures err { OnErr result (self.new ≡ self.old) }
    {
        if !self.is_reading() {
            self.fed += piece.len() as u64;
            return Ok(());
        }
        let left = self.read_on(piece)?;
        self.fed += piece.len() as u64;
        self.valid_up_to = self.fed.saturating_sub(left as u64);
        Ok(())
    }

    // Reads on, and returns how many bytes are left. An `Err` changes nothing.
    fn read_on(&mut self, piece: &[u8]) -> Result<usize, NoMemory>
        requires { self.old.found ≡ state.Reading }
        ensures ok { IfOk result (λ left. ReadsOn self.old.progress (self.old.pending ++ piece.now) self.new.progress self.new.pending left self.new.found) }
        ensures same { OnOk result ((self.new.fed ≡ self.old.fed) × (self.new.ended ≡ self.old.ended)) }
        ensures err { OnErr result (self.new ≡ self.old) }
    {
        let checkpoint = self.progress.checkpoint();
        let len = self.pending.len();
        match read(&mut self.progress, &mut self.pending, piece) {
            Ok((found, left)) => {
                self.found = found;
                Ok(left)
            }
            Err(error) => {
                drop(self.progress.undo(checkpoint));
                self.pending.truncate(len);
                Err(error)
            }
        }
    }
}

impl<A: Allocator> ChannelReader<A> {
    fn is_reading(&self) -> bool
        ensures reading { IsTrue result → self.now.found ≡ state.Reading }
        ensures other { IsFalse result → self.now.found ≢ state.Reading }
    {
        match self.found {
            ChannelState::Reading => true,
            _ => false,
        }
    }

    /// Ends the channel. If it has no fault, it is closed from now on if it has a hello and
    /// complete rounds and nothing more, and otherwise bad. A second call changes nothing.
    pub fn end(&mut self)
        ensures value { self.new ≡ record self.old { ended = true } }
        ensures stands { StepsOn over self.old self.new }
    {
        self.ended = true;
    }

    /// Returns whether the channel was ended.
    pub fn ended(&self) -> bool
        ensures { result ≡ self.now.ended }
    {
        self.ended
    }

    /// Returns how many bytes were fed.
    pub fn fed(&self) -> u64
        ensures { result ≡ self.now.fed }
    {
        self.fed
    }

    /// Returns the state of the bytes fed: more are needed, closed, or bad.
    pub fn state(&self) -> ChannelState
        ensures { Tells self.now (λ given so_far. HasState given so_far.text so_far.ended result) }
    {
        if self.ended && self.is_reading() {
            self.state_at_end()
        } else {
            self.found
        }
    }

    /// Returns how many of the bytes fed are complete items without a fault, from the first byte
    /// on. If the channel is bad, the item at fault begins after them. Otherwise an item that isn't
    /// complete begins there, if bytes follow.
    ///
    /// A channel that was ended too early is bad as well: `Truncated` begins there, and `Unsynced`
    /// is after the last byte.
    pub fn valid_up_to(&self) -> u64
        ensures { Tells self.now (λ given so_far. IsValidUpTo given so_far.text result) }
    {
        self.valid_up_to
    }

    // Returns the state of a channel without a fault once it has ended.
    fn state_at_end(&self) -> ChannelState
        ensures { result ≡ state_at_end self.now.progress.hello self.now.pending self.now.progress.packets }
    {
        if self.progress.hello().is_none() || !self.pending.is_empty() {
            return ChannelState::Bad(ChannelFault::Truncated);
        }
        if self.progress.has_packets() {
            return ChannelState::Bad(ChannelFault::Unsynced);
        }
        ChannelState::Closed
    }

    /// Returns the channel id that the hello named. None before the hello is complete, or if the
    /// hello has a fault.
    pub fn hello_id(&self) -> Option<u8>
        ensures { Tells self.now (λ given so_far. HasHello given so_far.text result) }
    {
        self.progress.hello()
    }

    /// Takes the next complete round, in the order of the channel. It allocates nothing, and is
    /// always `Ok`.
    pub fn take_round(&mut self) -> Result<Option<PacketRound<A>>, NoMemory>
        ensures ok { IsOk result }
        ensures none { IfOk result (λ o. IfNone o (self.new ≡ self.old)) }
        ensures last { IfOk result (λ o. IfNone o (Tells self.old (λ given so_far. (i : ℕ) (round : List (List ℕ)) →
            HasRound given so_far.text i round → i < so_far.taken))) }
        ensures round { IfOk result (λ o. IfSome o (λ r. Tells self.old (λ given so_far.
            (r.page_size ≡ given.page_size) × HasRound given so_far.text so_far.taken r.packets))) }
        ensures fewer { IfOk result (λ o. IfSome o (λ r. waiting self.old ≡ waiting self.new + 1)) }
        ensures stands { IfOk result (λ o. IfSome o (λ r. StepsOn one_taken self.old self.new)) }
        ensures same { (self.new.fed ≡ self.old.fed) × (self.new.ended ≡ self.old.ended) }
    {
        Ok(self.progress.take_round())
    }
}
