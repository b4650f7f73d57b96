//! A channel of a load in place: the reader, and the state of the current round.

ghost use Rattle.std.specs.Prelude.{ℕ, ◌≡◌, ◌≢◌, ◌+◌, ◌*◌, ◌<◌, ◌≤◌, ◌^◌, List, Option, length, true, false, None, Some, IsTrue, IsFalse, IfOk, IfSome, IfNone, OnOk, OnErr, ◌/◌};
ghost use Rattle.std.specs.Option.{option_map};
ghost use Rattle.mig_mem.specs.Place.{IsPlace, place_at};
ghost use Rattle.mig_packet.specs.PageSize.{IsPageSize};
ghost use Rattle.mig_load_types.specs.Settings.{channel_of};
ghost use Rattle.mig_packet.specs.Reader.{IsValidUpTo};
ghost use Rattle.mig_packet.specs.Paging.{GivenSoFar, none_given, content_of};
ghost use Rattle.mig_mem.specs.RamTable.{RamTable};
ghost use Rattle.mig_mem.specs.Image.{Image, with_page};
ghost use Rattle.mig_answer.specs.Texts.{Text, no_text, over};
ghost use Rattle.mig_packet.specs.Reading.{Settings};
ghost use Rattle.mig_answer.specs.declared.status.Status.TheVariants.{Whole as whole};
ghost use Rattle.mig_in_place.specs.declared.main_stream.SizeList.TheVariants as size_list;
ghost use Rattle.mig_in_place.specs.Round.{KeepsSome};
ghost use Rattle.mig_mem.specs.Lent.{lent_bytes};
ghost use Rattle.mig_in_place.specs.TakenPackets.{packet_bytes, TakesPacket, IsNextPacket};
ghost use Rattle.mig_packet.specs.Packet.{is_sync, normal_count};
ghost use Rattle.mig_in_place.specs.Sources.{IsChannelOf, HoldsChannel, HasGiven, TellsChannelStatus, TellsChannelFault, TellsHello, TellsTakes, holds_back, HasRead, HasReadSome, AddsHead, WritesInto, AddsPage, channel_count};

use crate::apart::{are_pages, take_parts};
use crate::main_stream::{SizeList, fault_of, is_pending};
use crate::put::put_zeros;
use crate::round::RoundInHand;
use mig_answer::{Status, channel_end};
use mig_assemble::Pages;
use mig_load_types::{Fault, LoadSettings};
use mig_mem::{GuestTarget, NoMemory, Place};
use mig_packet::{ChannelEvent, PacketHead, PageContent, PageReader};
use std::alloc::{Allocator, Global};
use std::marker::Model;
use uuid::Uuid;

/// A channel, with its bytes so far.
#[derive(Drop)]
pub(crate) struct Channel<A: Allocator = Global> {
    reader: PageReader<A>,
    // the block of the packet that was begun, if its pages are to be written
    block: Option<usize>,
    // whether the current round is complete
    is_whole: bool,
}

// Returns whether a channel is held back, by the id of its hello if that has arrived.
fn holds_back(list: SizeList, hello: Option<u8>) -> bool
    ensures { result ≡ holds_back list hello }
{
    match (list, hello) {
        (SizeList::Awaited, Some(_)) => true,
        (SizeList::Awaited | SizeList::Complete | SizeList::Lost, _) => false,
    }
}

impl<A: Allocator> Model for Channel<A> {
    ghost use Rattle.mig_in_place.specs.Sources.{KeptChannel};

    ghost Value = { KeptChannel };

    ghost view = { λ c. record { reader = c.reader; block = c.block; is_whole = c.is_whole } };
}

impl<A: Allocator + Copy> Channel<A> {
    /// Creates a channel before its first byte.
    pub(crate) fn new(
        alloc: A,
        settings: LoadSettings,
        uuid: Uuid,
        channels: usize,
    ) -> Result<Channel<A>, NoMemory>
        requires page_size { IsPageSize settings.page_size }
        ensures holds { IfOk result (λ c. (table : RamTable) → HoldsChannel (channel_of settings uuid channels) table 0 no_text (none_given (channel_of settings uuid channels)) c) }
        ensures count { IfOk result (λ c. channel_count c ≡ record { fed = 0; ended = false }) }
    {
        let page_size = settings.page_size;
        let waiting = settings.waiting;
        let Ok(reader) = PageReader::new(alloc, page_size, uuid, channels, waiting) else {
            return Err(NoMemory);
        };
        Ok(Channel {
            reader,
            block: None,
            is_whole: false,
        })
    }
}

impl<A: Allocator> Channel<A> {
    /// Reads on in `piece`, up to the SYNC packet of the current round, or, before the size list is
    /// there, up to the hello. Adds the packets to `round`, and writes their pages. Returns how
    /// many bytes were taken.
    ///
    /// # Errors
    ///
    /// `NoMemory`: an allocation was refused. Some bytes may have been taken, and are counted.
    pub(crate) fn read<M: GuestTarget>(
        &mut self,
        list: SizeList,
        round: &mut RoundInHand<A>,
        memory: &mut M,
        piece: &[u8],
    ) -> Result<usize, NoMemory>
        requires open { IsFalse self.old.reader.ended }
        requires room { self.old.reader.fed + length piece.now < 2 ^ 64 }
        requires channel { IsChannelOf (M.image memory.old).table self.old }
        requires round { KeepsSome (M.image memory.old).table round.old }
        ensures taken { IfOk result (λ n. n ≤ length piece.now) }
        ensures read { IfOk result (λ n. HasRead list piece.now n self.old round.old (M.image memory.old) self.new round.new (M.image memory.new)) }
        ensures some { OnErr result ((n : ℕ) × (n ≤ length piece.now) × (self.new.reader.fed ≡ self.old.reader.fed + n)
            × HasReadSome list piece.now n self.old round.old (M.image memory.old) round.new (M.image memory.new)) }
        ensures waits { IfOk result (λ n. n < length piece.now → TellsTakes list self.new false) }
        ensures unknown { list ≢ size_list.Complete → self.old.block ≡ None → (round.new ≡ round.old) × (M.image memory.new ≡ M.image memory.old) × (self.new.block ≡ None) }
        ensures fed { IfOk result (λ n. self.new.reader.fed ≡ self.old.reader.fed + n) }
        ensures ended { self.new.reader.ended ≡ self.old.reader.ended }
        ensures channel { IsChannelOf (M.image memory.old).table self.new }
        ensures round { KeepsSome (M.image memory.old).table round.new }
        ensures misplaced { IsTrue round.old.has_misplaced → IsTrue round.new.has_misplaced }
        ensures kept { M.kept memory.new ≡ M.kept memory.old }
        ensures table { (M.image memory.new).table ≡ (M.image memory.old).table }
    {
        if !self.takes(list) {
            return Ok(0);
        }
        let mut taken = 0;
        'items: loop {
            let (event, count) = self.reader.read_on(&piece[taken..]);
            taken += count;
            match event {
                ChannelEvent::More | ChannelEvent::Over => return Ok(taken),
                ChannelEvent::Hello(_) => {
                    if !self.takes(list) {
                        return Ok(taken);
                    }
                }
                ChannelEvent::Head => self.begin_packet(list, round, memory)?,
                ChannelEvent::Page(offset, content) => self.put_page(
                    round, memory, offset, content,
                ),
                ChannelEvent::Packet(sync) => {
                    self.end_packet(sync);
                    if sync {
                        return Ok(taken);
                    }
                }
            }
        }
    }

    // Adds the packet whose head has arrived, and writes its pages of zeros. If the round has a
    // misplaced page, none is written.
    fn begin_packet<M: GuestTarget>(
        &mut self,
        list: SizeList,
        round: &mut RoundInHand<A>,
        memory: &mut M,
    ) -> Result<(), NoMemory>
        requires page_size { self.old.reader.given.page_size ≡ (M.image memory.old).table.page_size }
        requires table { round.old.arrivals.seen.table ≡ (M.image memory.old).table }
        requires block { self.old.block ≡ None }
        ensures adds { OnOk result (list ≡ size_list.Complete → (head : List ℕ) → option_map (λ packet. packet.0) self.old.reader.packet ≡ Some head
            → AddsHead head round.old (M.image memory.old) round.new (M.image memory.new)) }
        ensures writes { OnOk result (list ≡ size_list.Complete → (head : List ℕ) → option_map (λ packet. packet.0) self.old.reader.packet ≡ Some head
            → WritesInto (M.image memory.old).table head round.new self.new.block) }
        ensures unknown { list ≢ size_list.Complete → (self.new ≡ self.old) × (round.new ≡ round.old) }
        ensures same { list ≢ size_list.Complete → M.image memory.new ≡ M.image memory.old }
        ensures err { OnErr result ((self.new ≡ self.old) × (round.new ≡ round.old) × (M.image memory.new ≡ M.image memory.old)) }
        ensures reader { (self.new.reader ≡ self.old.reader) × (self.new.is_whole ≡ self.old.is_whole) }
        ensures round { KeepsSome (M.image memory.old).table round.old → KeepsSome (M.image memory.old).table round.new }
        ensures misplaced { IsTrue round.old.has_misplaced → IsTrue round.new.has_misplaced }
        ensures kept { M.kept memory.new ≡ M.kept memory.old }
        ensures table { (M.image memory.new).table ≡ (M.image memory.old).table }
    {
        let Some(head) = self.reader.head() else {
            return Ok(());
        };
        if list != SizeList::Complete {
            return Ok(());
        }
        let pages = round.packet(&head)?;
        if round.has_misplaced() {
            return Ok(());
        }
        match pages {
            Pages::In(block) => {
                put_zeros(memory, block, &head);
                self.block = Some(block);
            }
            Pages::Nowhere | Pages::Misplaced(_) => {}
        }
        Ok(())
    }

    // Writes a page of the packet that was begun.
    fn put_page<M: GuestTarget>(
        &self,
        round: &RoundInHand<A>,
        memory: &mut M,
        offset: u64,
        content: PageContent<'_>,
    )
        requires size { length (content_of content self.now.reader) ≡ (M.image memory.old).table.page_size }
        requires lies { IfSome self.now.block (λ b. IsPlace (M.image memory.old).table (place_at b (offset / (M.image memory.old).table.page_size))) }
        ensures written { IsFalse round.now.has_misplaced → IfSome self.now.block (λ b. M.image memory.new
            ≡ with_page (M.image memory.old) (place_at b (offset / (M.image memory.old).table.page_size)) (content_of content.entry self.now.reader)) }
        ensures same { IsTrue round.now.has_misplaced → M.image memory.new ≡ M.image memory.old }
        ensures none { IfNone self.now.block (M.image memory.new ≡ M.image memory.old) }
        ensures adds { AddsPage offset (content_of content.entry self.now.reader) self.now.block round.now (M.image memory.old) (M.image memory.new) }
        ensures kept { M.kept memory.new ≡ M.kept memory.old }
        ensures table { (M.image memory.new).table ≡ (M.image memory.old).table }
    {
        if round.has_misplaced() {
            return;
        }
        if let Some(block) = self.block {
            let table = memory.table();
            table.keeps_limits();
            let page = offset / table.page_size();
            memory.put_page(Place { block, page }, self.reader.content(content));
        }
    }

    /// Takes a packet of the current round at once: its head, and the contents of its normal pages,
    /// which others read to their places. Adds it to `round`. Returns false, and takes nothing, if
    /// the next item isn't such a packet: one without SYNC, whose pages are in a block, while no
    /// page of the round is misplaced.
    ///
    /// # Errors
    ///
    /// `NoMemory`: an allocation was refused. Nothing was taken.
    pub(crate) fn take_packet(
        &mut self,
        list: SizeList,
        round: &mut RoundInHand<A>,
        head: &[u8],
        contents: &[&[u8]],
    ) -> Result<bool, NoMemory>
        requires room { self.old.reader.fed + length head.now + length contents.now * self.old.reader.given.page_size < 2 ^ 64 }
        requires page_size { self.old.reader.given.page_size ≡ round.old.arrivals.seen.table.page_size }
        ensures took { IfOk result (λ took. IsTrue took → (list ≡ size_list.Complete) × TakesPacket head.now (lent_bytes contents.now) self.old round.old self.new round.new) }
        ensures left { IfOk result (λ took. IsFalse took → (self.new ≡ self.old) × (round.new ≡ round.old)) }
        ensures err { OnErr result ((self.new ≡ self.old) × (round.new ≡ round.old)) }
        ensures fed { IfOk result (λ took. IsTrue took → self.new.reader.fed ≡ self.old.reader.fed + length (packet_bytes head.now (lent_bytes contents.now))) }
        ensures open { IfOk result (λ took. IsTrue took → IsFalse self.new.is_whole × IsFalse self.old.reader.ended) }
        ensures count { IfOk result (λ took. IsTrue took → length contents.now ≡ normal_count head.now) }
        ensures ended { self.new.reader.ended ≡ self.old.reader.ended }
        ensures channel { (table : RamTable) → IsChannelOf table self.old → IsChannelOf table self.new }
        ensures round { KeepsSome round.old.arrivals.seen.table round.old → KeepsSome round.old.arrivals.seen.table round.new }
        ensures right { IfOk result (λ took. IsTrue took → IsFalse round.old.has_misplaced × IsFalse round.new.has_misplaced) }
    {
        let Some((view, _)) = self.next_packet(list, round, head) else {
            return Ok(false);
        };
        if !are_pages(contents, view.normal_len(), view.page_size()) {
            return Ok(false);
        }
        round.packet(&view)?;
        let sync = take_parts(&mut self.reader, head, contents);
        self.end_packet(sync);
        Ok(true)
    }

    /// Returns the head of the next item, and the block of its pages, if it is a packet that can be
    /// taken at once.
    pub(crate) fn next_packet<'h>(
        &self,
        list: SizeList,
        round: &RoundInHand<A>,
        head: &'h [u8],
    ) -> Option<(PacketHead<'h>, usize)>
        requires page_size { self.now.reader.given.page_size ≡ round.now.arrivals.seen.table.page_size }
        ensures next { IfSome result (λ found. IsNextPacket list head.now self.now round.now found.1) }
        ensures head { IfSome result (λ found. (found.0.bytes.now ≡ head.now) × (found.0.page_size ≡ self.now.reader.given.page_size) × (is_sync head.now ≡ false)) }
    {
        if list != SizeList::Complete || self.block.is_some() || !self.takes(list) {
            return None;
        }
        let view = self.reader.next_head(head)?;
        if view.sync() {
            return None;
        }
        let block = round.block_for(&view)?;
        Some((view, block))
    }

    // Ends the packet that was begun.
    fn end_packet(&mut self, sync: bool)
        ensures { self.new ≡ record self.old { block = None; is_whole = sync } }
    {
        self.block = None;
        self.is_whole = sync;
    }

    /// Returns whether bytes of the channel are taken: its current round is pending, and it isn't
    /// held back.
    pub(crate) fn takes(&self, list: SizeList) -> bool
        ensures tells { TellsTakes list self.now result }
        ensures open { IsTrue result → IsFalse self.now.is_whole }
    {
        if self.is_held_back(list) {
            return false;
        }
        is_pending(self.status())
    }

    // Returns whether the hello has arrived, while the main stream's size list may still follow.
    fn is_held_back(&self, list: SizeList) -> bool
        ensures { (hello : Option ℕ) × TellsHello self.now hello × (result ≡ holds_back list hello) }
    {
        holds_back(list, self.hello())
    }

    /// Goes on to the next round.
    pub(crate) fn advance(&mut self)
        ensures { self.new ≡ record self.old { is_whole = false } }
    {
        self.is_whole = false;
    }

    /// Ends the channel.
    pub(crate) fn end(&mut self)
        ensures holds { (given : Settings) (table : RamTable) (k : ℕ) (text : Text) (so_far : GivenSoFar) → HoldsChannel given table k text so_far self.old
            → HoldsChannel given table k (over text) so_far self.new }
        ensures value { self.new ≡ record self.old { reader = record self.old.reader { ended = true } } }
    {
        self.reader.end();
    }

    /// Returns whether the channel was ended.
    pub(crate) fn ended(&self) -> bool
        ensures { result ≡ self.now.reader.ended }
    {
        self.reader.ended()
    }

    /// Returns how many bytes were taken.
    pub(crate) fn fed(&self) -> u64
        ensures { result ≡ self.now.reader.fed }
    {
        self.reader.fed()
    }

    /// Returns up to where the channel is valid.
    pub(crate) fn valid_up_to(&self) -> u64
        ensures { (given : Settings) (text : Text) → HasGiven given text self.now → IsValidUpTo given text.bytes result }
    {
        self.reader.valid_up_to()
    }

    /// Returns the status of the channel at the current round.
    pub(crate) fn status(&self) -> Status
        ensures tells { TellsChannelStatus self.now result }
        ensures whole { IsTrue self.now.is_whole → result ≡ whole }
    {
        if self.is_whole {
            return Status::Whole;
        }
        channel_end(self.reader.state())
    }

    /// Returns the fault of the bytes taken.
    pub(crate) fn fault(&self) -> Option<Fault>
        ensures { TellsChannelFault self.now result }
    {
        fault_of(channel_end(self.reader.state()))
    }

    /// Returns the id in its hello. None before the hello is complete, and if it has a fault.
    pub(crate) fn hello(&self) -> Option<u8>
        ensures { TellsHello self.now result }
    {
        self.reader.hello_id()
    }
}
