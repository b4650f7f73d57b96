//! The sender on several channels, for hypervisors: a main stream with a FLUSH for each round, and
//! channels with the rounds' packets.

ghost use Rattle.std.specs.Prelude.{◌≡◌, ◌↔◌, ◌<◌, ◌≤◌, ◌++◌, ◌∷◌, [], List, ℕ, Option, Some, None, Err, length, map, replicate, IfOk, IfErr, OnOk, OnErr, vec_len};
ghost use Rattle.std.specs.List.{range_with_len};
ghost use Rattle.mig_stream.specs.Format.{most_name_bytes};
ghost use Rattle.mig_stream.specs.Text.{file_header, configuration};
ghost use Rattle.mig_stream.specs.Written.{FlushPart, written_so_far};
ghost use Rattle.mig_stream.specs.Writer.{HasDrained};
ghost use Rattle.mig_packet.specs.PageSize.{page_limit as most_pages};
ghost use Rattle.mig_packet.specs.Hello.{written_hello};
ghost use Rattle.mig_send.specs.Sending.{AreOf, IsRoundFault};
ghost use Rattle.mig_send.specs.DealtRounds.{DealtRound, IsSending, IsMachineSending, channel_text};
ghost use Rattle.mig_send.specs.MultiSending.{Drained, nothing_drained, HasSentRounds, HasSentOne, KeepsSetting, KeepsCounts, IsRefused, texts_of, cut_texts, whole_texts, with_main, with_channel};

use crate::SendFault;
use crate::batch::cut;
use crate::workers::deal_round;
use mig_mem::{Dirty, GuestPages, NoMemory, Table};
use mig_packet::{Gate, hello, page_limit};
use mig_stream::{StreamWriter, configured_is_written};
use std::alloc::{Allocator, Global};
use std::fmt::{self, Debug, Formatter};
use std::marker::Model;
use std::mem;
use std::thread::Threads;
use uuid::Uuid;

// The highest number that a round may begin with.
pub(crate) const LAST_BASE: u64 = 1 << 63;

/// Sends the rounds of one guest on a main stream and several channels (QEMU's multifd migration,
/// without compression). Each round is dealt to as many workers as there are channels, each on a
/// thread of its own.
///
/// # Examples
///
/// Three rounds of one page each are sent on two channels. `send_page` calls `round`, and `pass_on`
/// drains the streams into the connections:
///
/// <!-- quoted from crates/mig_uses/src/by_turns.rt -->
/// ```rust
/// let made = MultiSender::new(rt.alloc(), &table, Uuid::nil(), 2, 128);
/// let mut sender = made.expect(rt, "a sender");
/// let mut guest = [0u8; PAGES * 4096];
/// for (page, byte) in [(0u64, 5u8), (2, 6), (0, 7)] {
///     let first = page.wrapping_mul(4096) as usize;
///     *guest.get_mut(first).expect(rt, "a byte") = byte;
///     send_page(rt, &mut sender, &table, &guest, page);
///     pass_on(rt, &mut sender, &mut connections);
/// }
/// let Sent { main, channels: _ } = sender.finish().ok().expect(rt, "streams");
/// ```
pub struct MultiSender<A: Allocator = Global> {
    pub(crate) alloc: A,
    pub(crate) main: StreamWriter<A>,
    uuid: Uuid,
    pub(crate) limit: usize,
    pub(crate) channels: Vec<Vec<u8, A>, A>,
    pub(crate) base: u64,
    pub(crate) rounds: u64,
}

// Written out, so that a caller's proof passes a call where a value is dropped.
impl<A: Allocator> Drop for MultiSender<A> {
    fn drop(self) {
        let MultiSender {
            alloc: _,
            main: _,
            uuid: _,
            limit: _,
            channels: _,
            base: _,
            rounds: _,
        } = self;
    }
}

impl<A: Allocator> Model for MultiSender<A> {
    ghost use Rattle.mig_send.specs.MultiSending.{MultiSending, IsMultiSending, texts_of};

    ghost Value = { MultiSending };

    ghost view = { λ s. record { main = s.main; uuid = s.uuid; limit = s.limit; channels = texts_of s.channels.items; base = s.base; rounds = s.rounds } };

    ghost invariant = { λ s. IsMultiSending (record { main = s.main; uuid = s.uuid; limit = s.limit; channels = texts_of s.channels.items; base = s.base; rounds = s.rounds }) };
}

impl<A: Allocator> Debug for MultiSender<A> {
    fn fmt<W: fmt::Write>(&self, f: &mut Formatter<W>) -> fmt::Result {
        f.pad("MultiSender { .. }")
    }
}

/// The bytes of a migration that weren't drained: the main stream's, and those of the channels,
/// channel 0 first.
#[derive(Drop)]
pub struct Sent<A: Allocator = Global> {
    pub main: Vec<u8, A>,
    pub channels: Vec<Vec<u8, A>, A>,
}

impl<A: Allocator> Debug for Sent<A> {
    fn fmt<W: fmt::Write>(&self, f: &mut Formatter<W>) -> fmt::Result {
        f.pad("Sent { .. }")
    }
}

// Returns the hellos of `channels` channels.
fn hellos<A: Allocator + Copy>(
    alloc: A,
    uuid: &Uuid,
    channels: usize,
) -> Result<Vec<Vec<u8, A>, A>, NoMemory>
    requires { channels ≤ 255 }
    ensures texts { IfOk result (λ v. texts_of v.items ≡ map (written_hello uuid.now) (range_with_len 0 channels)) }
{
    let mut texts = Vec::with_capacity(alloc, channels)?;
    'channels: for id in 0..channels {
        texts.push(Vec::from_slice(alloc, &hello(uuid, id as u8))?)?;
    }
    Ok(texts)
}

// Tests whether a sender may have `channels` channels and the batch limit `limit`.
fn test_setting<B: Allocator>(
    table: &Table<B>,
    channels: usize,
    limit: usize,
) -> Result<(), SendFault>
    ensures channels { OnOk result ((0 < channels) × (channels ≤ 255)) }
    ensures limit { OnOk result ((0 < limit) × (limit ≤ most_pages table.now.page_size)) }
    ensures refused { IfErr result (λ fault. IsRefused table.now channels limit fault) }
{
    table.keeps_limits();
    if channels == 0 || channels > 255 {
        return Err(SendFault::Channels);
    }
    if limit == 0 || limit > page_limit(table.page_size()) {
        return Err(SendFault::Limit);
    }
    Ok(())
}

// Returns the length of each channel's bytes.
fn lengths<A: Allocator>(alloc: A, texts: &[Vec<u8, A>]) -> Result<Vec<usize, A>, NoMemory>
    ensures { IfOk result (λ lens. lens.items ≡ map vec_len texts.now) }
{
    let mut lens = Vec::with_capacity(alloc, texts.len())?;
    'texts: for text in texts {
        lens.push(text.len())?;
    }
    Ok(lens)
}

// Cuts each channel's bytes to the length with its index in `lens`.
fn cut_back<A: Allocator>(channels: &mut Vec<Vec<u8, A>, A>, lens: &[usize])
    requires { length lens.now ≡ vec_len channels.old }
    ensures { texts_of channels.new.items ≡ cut_texts lens.now (texts_of channels.old.items) }
{
    'channels: for i in 0..lens.len() {
        channels[i].truncate(lens[i]);
    }
}

impl<A: Allocator + Copy> MultiSender<A> {
    /// Creates a sender on `channels` channels, with at most `limit` pages to a packet. It has sent
    /// no round yet, and each channel has its hello. It keeps a copy of the table.
    ///
    /// # Errors
    ///
    /// - `Channels`: there is no channel, or there are more than 255.
    /// - `Limit`: `limit` is 0, or above the pages that a packet has room for.
    /// - `NoMemory`: an allocation was refused.
    pub fn new<B: Allocator>(
        alloc: A,
        table: &Table<B>,
        uuid: Uuid,
        channels: usize,
        limit: usize,
    ) -> Result<MultiSender<A>, SendFault>
        ensures made { IfOk result (λ s. (s.main.table ≡ table.now) × (s.uuid ≡ uuid) × (s.limit ≡ limit) × (length s.channels ≡ channels)) }
        ensures none { IfOk result (λ s. HasSentRounds nothing_drained s []) }
        ensures refused { IfErr result (λ fault. IsRefused table.now channels limit fault) }
    {
        test_setting(table, channels, limit)?;
        let main = StreamWriter::new(alloc, table)?;
        Ok(MultiSender::of_writer(alloc, main, uuid, channels, limit)?)
    }

    /// Creates a sender whose main stream is a machine's: returns that stream's first bytes, the
    /// file header and a configuration with the machine's `name`, and the sender of what follows
    /// them. QEMU refuses a stream with another name than its own machine's.
    ///
    /// # Errors
    ///
    /// Those of `new`.
    pub fn with_configuration<B: Allocator>(
        alloc: A,
        table: &Table<B>,
        uuid: Uuid,
        channels: usize,
        limit: usize,
        name: &[u8],
    ) -> Result<(Vec<u8, A>, MultiSender<A>), SendFault>
        requires name { length name.now ≤ most_name_bytes }
        ensures first { IfOk result (λ r. r.0.items ≡ file_header ++ configuration (Some name.now)) }
        ensures made { IfOk result (λ r. (r.1.main.table ≡ table.now) × (r.1.uuid ≡ uuid) × (r.1.limit ≡ limit) × (length r.1.channels ≡ channels)) }
        ensures none { IfOk result (λ r. HasSentRounds (with_main nothing_drained file_header) r.1 []) }
        ensures refused { IfErr result (λ fault. IsRefused table.now channels limit fault) }
    {
        test_setting(table, channels, limit)?;
        let (first, main) = StreamWriter::with_configuration(alloc, table, name)?;
        let sender = MultiSender::of_writer(alloc, main, uuid, channels, limit)?;
        Ok((first, sender))
    }

    // Creates the sender whose main stream `main` writes. `main` was given no part yet.
    fn of_writer(
        alloc: A,
        main: StreamWriter<A>,
        uuid: Uuid,
        channels: usize,
        limit: usize,
    ) -> Result<MultiSender<A>, NoMemory>
        requires channels { (0 < channels) × (channels ≤ 255) }
        requires limit { (0 < limit) × (limit ≤ most_pages main.table.page_size) }
        ensures made { IfOk result (λ s. (s.main.table ≡ main.table) × (s.uuid ≡ uuid) × (s.limit ≡ limit) × (length s.channels ≡ channels)) }
        ensures none { IfOk result (λ s. (drained : List ℕ) → HasDrained drained main [] → HasSentRounds (with_main nothing_drained drained) s []) }
    {
        // Shows the prover that the table is a lawful one.
        main.table().keeps_limits();
        Ok(MultiSender {
            alloc,
            main,
            channels: hellos(alloc, &uuid, channels)?,
            uuid,
            limit,
            base: 0,
            rounds: 0,
        })
    }
}

impl<A: Allocator + Copy + Send + Sync> MultiSender<A> {
    /// Sends a round: cuts the dirty pages into batches and deals these to the workers. Each worker
    /// appends its packets, and after them a SYNC packet, to its channel. The main stream gets a
    /// FLUSH.
    ///
    /// The call returns when all workers are done. If no thread can be started, a worker runs on
    /// the caller's.
    ///
    /// # Errors
    ///
    /// - `OtherTable`: the image or `dirty` is of another table than the sender's.
    /// - `NoMemory`: an allocation was refused, or more than 2^63 packets were numbered before.
    ///
    /// Nothing changes, so the round can be sent again.
    pub fn round<
        R: Threads + Sync,
        M: GuestPages<Alloc: Sync> + Sync,
        C: Allocator,
        G: Gate + Sync,
    >(&mut self, rt: &R, image: &M, dirty: &Dirty<C>, gate: &G) -> Result<(), SendFault>
        ensures setting { KeepsSetting self.old self.new }
        ensures faults { IfErr result (λ fault. IsRoundFault fault) }
        ensures other { (result ≡ Err SendFault.OtherTable) ↔ (AreOf self.old.main.table (M.image image.now) dirty.now → ⊥) }
        ensures ok { OnOk result (HasSentOne (record { image = M.image image.now; dirty = dirty.now.marked }) self.old self.new) }
        ensures err { OnErr result (self.new ≡ self.old) }
    {
        let table = self.main.table();
        if !image.table().same(table) || !dirty.table().same(table) {
            return Err(SendFault::OtherTable);
        }
        if self.base > LAST_BASE {
            return Err(SendFault::NoMemory);
        }
        let batches = cut(self.alloc, image.table(), dirty, self.limit)?;
        let lens = lengths(self.alloc, &self.channels)?;
        let Ok(()) = deal_round(
            rt,
            self.alloc,
            self.base,
            image,
            &batches,
            &mut self.channels,
            gate,
        ) else {
            cut_back(&mut self.channels, &lens);
            return Err(SendFault::NoMemory);
        };
        let Ok(()) = self.main.flush_part() else {
            cut_back(&mut self.channels, &lens);
            return Err(SendFault::NoMemory);
        };
        self.base += (batches.len() + self.channels.len()) as u64;
        self.rounds += 1;
        Ok(())
    }
}

impl<A: Allocator> MultiSender<A> {
    /// Returns the table whose pages the sender sends.
    pub fn table(&self) -> &Table<A>
        ensures { result.now ≡ self.now.main.table }
    {
        self.main.table()
    }

    /// Returns the number of channels.
    pub fn channels(&self) -> usize
        ensures { result ≡ length self.now.channels }
    {
        self.channels.len()
    }

    /// Returns how many packets all channels have so far: the number of the next one.
    pub fn base(&self) -> u64
        ensures { result ≡ self.now.base }
    {
        self.base
    }

    /// Returns how many rounds were sent.
    pub fn rounds(&self) -> u64
        ensures { result ≡ self.now.rounds }
    {
        self.rounds
    }

    /// Moves the bytes of the main stream that were written and not drained yet into `bytes`. The
    /// buffer's old bytes are dropped, and its room is used for the bytes that are written next. It
    /// allocates nothing.
    pub fn drain_main(&mut self, bytes: &mut Vec<u8, A>)
        ensures counts { KeepsCounts self.old self.new }
        ensures all { (drained : Drained) (rounds : List DealtRound) → HasSentRounds drained self.old rounds
            → drained.main ++ bytes.new.items ≡ written_so_far self.old.main.table (replicate (length rounds) FlushPart) }
        ensures drained { (drained : Drained) (rounds : List DealtRound) → HasSentRounds drained self.old rounds
            → HasSentRounds (with_main drained bytes.new.items) self.new rounds }
    {
        self.main.drain_into(bytes);
    }

    /// Moves the bytes of a channel that were written and not drained yet into `bytes`, as
    /// `drain_main` does.
    pub fn drain_channel(&mut self, channel: usize, bytes: &mut Vec<u8, A>)
        requires { channel < length self.old.channels }
        ensures counts { KeepsCounts self.old self.new }
        ensures all { (drained : Drained) (rounds : List DealtRound) → HasSentRounds drained self.old rounds
            → drained.channel channel ++ bytes.new.items ≡ channel_text self.old.uuid rounds channel }
        ensures drained { (drained : Drained) (rounds : List DealtRound) → HasSentRounds drained self.old rounds
            → HasSentRounds (with_channel drained channel bytes.new.items) self.new rounds }
    {
        bytes.clear();
        mem::swap(&mut self.channels[channel], bytes);
    }

    /// Ends the main stream, and returns of each stream the bytes that weren't drained.
    ///
    /// # Errors
    ///
    /// The sender, as it was: an allocation was refused.
    pub fn finish(self) -> Result<Sent<A>, MultiSender<A>>
        ensures ok { IfOk result (λ sent. (drained : Drained) (rounds : List DealtRound) → HasSentRounds drained self rounds
            → IsSending self.main.table self.uuid self.limit (length self.channels) rounds (drained.main ++ sent.main.items) (whole_texts drained (texts_of sent.channels.items))) }
        ensures err { IfErr result (λ s. s ≡ self) }
    {
        let MultiSender {
            alloc,
            main,
            uuid,
            limit,
            channels,
            base,
            rounds,
        } = self;
        match main.finish() {
            Ok(main) => Ok(Sent { main, channels }),
            Err(main) => Err(MultiSender {
                alloc,
                main,
                uuid,
                limit,
                channels,
                base,
                rounds,
            }),
        }
    }

    /// Ends RAM's sections of the main stream without the stream's end byte, and returns of each
    /// stream the bytes that weren't drained. The caller then writes the sections of devices and
    /// the end byte on the main stream. The main stream is then a machine's, up to the footer of
    /// RAM's END. With a configuration after the file header, it is that of a machine of that name.
    ///
    /// # Errors
    ///
    /// The sender, as it was: an allocation was refused.
    pub fn finish_open(self) -> Result<Sent<A>, MultiSender<A>>
        ensures ok { IfOk result (λ sent. (drained : Drained) (rounds : List DealtRound) → HasSentRounds drained self rounds
            → IsMachineSending None self.main.table self.uuid self.limit (length self.channels) rounds
            (drained.main ++ sent.main.items) (whole_texts drained (texts_of sent.channels.items))) }
        ensures configured { IfOk result (λ sent. (name : Option (List ℕ)) (main : List ℕ) (drained : Drained) (rounds : List DealtRound)
            → HasSentRounds (record drained { main = file_header ++ main }) self rounds
            → IsMachineSending name self.main.table self.uuid self.limit (length self.channels) rounds
            (file_header ++ configuration name ++ main ++ sent.main.items) (whole_texts drained (texts_of sent.channels.items))) }
        ensures err { IfErr result (λ s. s ≡ self) }
    {
        configured_is_written();
        let MultiSender {
            alloc,
            main,
            uuid,
            limit,
            channels,
            base,
            rounds,
        } = self;
        match main.finish_open() {
            Ok(open) => Ok(Sent {
                main: open,
                channels,
            }),
            Err(main) => Err(MultiSender {
                alloc,
                main,
                uuid,
                limit,
                channels,
                base,
                rounds,
            }),
        }
    }
}
