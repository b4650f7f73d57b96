//! A channel that is read to its last byte, whatever round the load is at: its fault, and up to
//! where it is valid. No page of it is kept.

ghost use Rattle.std.specs.Prelude.{ℕ, ◌≡◌, ◌+◌, ◌<◌, ◌≤◌, ◌^◌, IsTrue, IsFalse, IfOk, length};
ghost use Rattle.mig_packet.specs.PageSize.{IsPageSize};
ghost use Rattle.mig_packet.specs.Reading.{Settings};
ghost use Rattle.mig_packet.specs.Reader.{IsValidUpTo};
ghost use Rattle.mig_load_types.specs.Settings.{channel_of};
ghost use Rattle.mig_answer.specs.Texts.{Text, no_text, with_piece, over};
ghost use Rattle.mig_sources.specs.Faults.{HasChannelFault};
ghost use Rattle.mig_session.specs.Scan.{Counts, ReadsOn, Scans, TellsFirstStatus, TellsHello, TellsOnly};

use crate::places::fault_of;
use mig_answer::{Status, channel_end};
use mig_load_types::{Fault, LoadSettings};
use mig_mem::NoMemory;
use mig_packet::{ChannelEvent, ChannelState, PageReader};
use std::alloc::{Allocator, Global};
use std::marker::Model;
use uuid::Uuid;

/// The scan of a channel.
#[derive(Drop)]
pub(crate) struct ChannelScan<A: Allocator = Global> {
    reader: PageReader<A>,
    // how many rounds are complete
    rounds: u64,
}

impl<A: Allocator> Model for ChannelScan<A> {
    ghost use Rattle.mig_session.specs.Scan.{Scan};

    ghost Value = { Scan };

    ghost view = { λ s. record { reader = s.reader; rounds = s.rounds } };
}

/// Counts a thing, if there is one, up to the most that is counted.
pub(crate) fn counted(counter: u64, is_one: bool) -> u64
    ensures one { IsTrue is_one → (n : ℕ) → Counts counter n → Counts result (n + 1) }
    ensures none { IsFalse is_one → result ≡ counter }
{
    if is_one {
        counter.saturating_add(1)
    } else {
        counter
    }
}

// Reads a piece to its end, or to a fault. Returns how many rounds are complete with it, where
// `rounds` were before.
fn read_all<A: Allocator>(reader: &mut PageReader<A>, rounds: u64, piece: &[u8]) -> u64
    requires open { IsFalse reader.old.ended }
    requires room { reader.old.fed + length piece.now < 2 ^ 64 }
    ensures reads { ReadsOn piece.now rounds result reader.old reader.new }
    ensures ended { reader.new.ended ≡ reader.old.ended }
{
    match reader.state() {
        ChannelState::Reading => {}
        ChannelState::Closed | ChannelState::Bad(_) => return rounds,
    }
    let mut taken = 0;
    let mut rounds = rounds;
    'items: loop {
        let (event, count) = reader.read_on(&piece[taken..]);
        taken += count;
        match event {
            ChannelEvent::More | ChannelEvent::Over => return rounds,
            ChannelEvent::Hello(_) | ChannelEvent::Head | ChannelEvent::Page(_, _) => {}
            ChannelEvent::Packet(sync) => rounds = counted(rounds, sync),
        }
    }
}

impl<A: Allocator + Copy> ChannelScan<A> {
    /// Creates the scan of a channel before its first byte.
    pub(crate) fn new(
        alloc: A,
        settings: LoadSettings,
        uuid: Uuid,
        channels: usize,
    ) -> Result<ChannelScan<A>, NoMemory>
        requires page_size { IsPageSize settings.page_size }
        ensures scans { IfOk result (λ s. Scans (channel_of settings uuid channels) no_text s) }
    {
        let page_size = settings.page_size;
        let waiting = settings.waiting;
        let Ok(reader) = PageReader::new(alloc, page_size, uuid, channels, waiting) else {
            return Err(NoMemory);
        };
        Ok(ChannelScan { reader, rounds: 0 })
    }
}

impl<A: Allocator> ChannelScan<A> {
    /// Reads a piece.
    pub(crate) fn feed(&mut self, piece: &[u8])
        requires open { IsFalse self.old.reader.ended }
        requires room { self.old.reader.fed + length piece.now < 2 ^ 64 }
        ensures { (given : Settings) (text : Text) → Scans given text self.old → Scans given (with_piece piece.now text) self.new }
    {
        self.rounds = read_all(&mut self.reader, self.rounds, piece);
    }

    /// Ends the channel.
    pub(crate) fn end(&mut self)
        ensures { (given : Settings) (text : Text) → Scans given text self.old → Scans given (over text) self.new }
    {
        self.reader.end();
    }

    /// Returns up to which byte the channel is valid.
    pub(crate) fn valid_up_to(&self) -> u64
        ensures { (given : Settings) (text : Text) → Scans given text self.now → IsValidUpTo given text.bytes result }
    {
        self.reader.valid_up_to()
    }

    /// Returns the fault of the channel's bytes.
    pub(crate) fn fault(&self) -> Option<Fault>
        ensures { (given : Settings) (text : Text) → Scans given text self.now → HasChannelFault given text result }
    {
        fault_of(channel_end(self.reader.state()))
    }

    /// Returns the id in the channel's hello, if it was read.
    pub(crate) fn hello(&self) -> Option<u8>
        ensures { TellsHello self.now result }
    {
        // shows what the bytes say
        let _state = self.reader.state();
        self.reader.hello_id()
    }

    /// Returns whether the channel has `rounds` rounds, no further one, and no fault.
    pub(crate) fn has_only(&self, rounds: u64) -> bool
        requires { rounds ≤ 2 ^ 63 }
        ensures { TellsOnly rounds self.now result }
    {
        let state = self.reader.state();
        if self.rounds != rounds {
            return false;
        }
        match fault_of(channel_end(state)) {
            Some(_) => false,
            None => true,
        }
    }

    /// Returns the channel's status at the first round.
    pub(crate) fn first_status(&self) -> Status
        ensures { TellsFirstStatus self.now result }
    {
        let end = channel_end(self.reader.state());
        if self.rounds != 0 { Status::Whole } else { end }
    }
}
