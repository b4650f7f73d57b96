//! The reader of a channel that gives each page once its bytes have arrived. A load into memory
//! that the caller lends has one for each channel, and keeps no round.
//!
//! It keeps the head of the packet that is being read, and the first bytes of an incomplete hello,
//! head or page. A page that is complete in a piece is lent from it. All its memory is allocated
//! when it is created. `ChannelReader` keeps complete rounds instead.

ghost use Rattle.std.specs.Prelude.{◌≡◌, ◌≢◌, ◌+◌, ◌*◌, ◌<◌, ◌≤◌, ◌^◌, ◌++◌, ℕ, List, [], length, take, true};
ghost use Rattle.std.specs.Prelude.{IsTrue, IsFalse, IsSome, None, Some, IfOk, IfSome, OnOk, vec_len, vec_capacity, IfNone, Bool};
ghost use Rattle.mig_packet.specs.PageSize.{IsPageSize, head_len};
ghost use Rattle.mig_packet.specs.declared.state.ChannelState.TheVariants as state;
ghost use Rattle.mig_packet.specs.Reading.{settings, with_waiting, Settings};
ghost use Rattle.mig_packet.specs.Reader.{HasState, HasHello, IsValidUpTo};
ghost use Rattle.mig_packet.specs.Paging.{GivenSoFar, none_given, Gives, GivesOn, HolderTells, Comes, Stops, NeedsMore, LeavesLess, CopiesCutPages, HasReading, IsWhole, head_of, content_of, begun_in};
ghost use Rattle.mig_packet.specs.PagingStep.{Moves, Steps, IsTaken, IsCut, is_between, is_unsynced, closing_state};
ghost use Rattle.mig_packet.specs.PagingValid.{open_len};
ghost use Rattle.mig_packet.specs.Packet.{normal_count};
ghost use Rattle.mig_packet.specs.declared.page_reader.ChannelEvent.TheVariants as event;
ghost use Rattle.std.specs.Option.{IsSomeAnd, option_map};

use crate::format::HELLO_LEN;
use crate::front::{head_fault_within, hello_fault};
use crate::head::PacketHead;
use crate::packet::{head_len, next_room, normal_count_of, offset_of, sync_of};
use crate::{ChannelFault, ChannelState, NoMemory};
use std::alloc::{Allocator, Global};
use std::marker::Model;
use uuid::Uuid;

/// Where the content of a given page is.
#[derive(Clone, Copy, Debug)]
pub enum PageContent<'b> {
    /// In the piece, complete.
    Lent(&'b [u8]),
    /// In the reader, since a piece cut the page: until the next call of `PageReader::read_on`.
    Kept,
}

/// The result of a call of `PageReader::read_on`.
#[derive(Clone, Copy, Debug)]
pub enum ChannelEvent<'b> {
    /// The hello is complete and has no fault. It named this channel id.
    Hello(u8),
    /// The head of the next packet is complete and has no fault: `PageReader::head` returns it.
    Head,
    /// The packet's next normal page: its offset in the block, in bytes, and where its content is.
    /// `PageReader::content` returns the content.
    Page(u64, PageContent<'b>),
    /// The packet is complete: all its normal pages were given. The value says whether it ends the
    /// round.
    Packet(bool),
    /// All bytes of the piece were taken, and more are needed.
    More,
    /// The bytes taken have a fault, or the channel was ended: `PageReader::state` returns which.
    Over,
}

/// Reads a channel from pieces of its bytes, and gives each page once its bytes have arrived.
pub struct PageReader<A: Allocator = Global> {
    pub(crate) page_size: u64,
    pub(crate) uuid: Uuid,
    pub(crate) channels: usize,
    // the most that may wait in a round, and what the open one has left of it: None is no limit
    pub(crate) waiting: Option<u64>,
    pub(crate) room: Option<u64>,
    pub(crate) hello: Option<u8>,
    // whether the open round has packets
    pub(crate) has_packets: bool,
    // how many pages of the packet that was begun were given; None before its head is complete
    pub(crate) pages: Option<usize>,
    // the first bytes of the hello or the head, or the head of the packet that was begun
    pub(crate) head: Vec<u8, A>,
    // the first bytes of the next page, or the page that was given last
    pub(crate) page: Vec<u8, A>,
    // whether it is the page that was given last
    pub(crate) has_page: bool,
    // the state of the bytes taken, whether or not the channel was ended
    pub(crate) found: ChannelState,
    pub(crate) fed: u64,
    pub(crate) ended: bool,
}

// Written out, so that a caller's proof passes a call where a value is dropped.
impl<A: Allocator> Drop for PageReader<A> {
    fn drop(self) {
        let PageReader {
            page_size: _,
            uuid: _,
            channels: _,
            waiting: _,
            room: _,
            hello: _,
            has_packets: _,
            pages: _,
            head: _,
            page: _,
            has_page: _,
            found: _,
            fed: _,
            ended: _,
        } = self;
    }
}

impl<A: Allocator> Model for PageReader<A> {
    ghost use Rattle.std.specs.Prelude.{vec_capacity};
    ghost use Rattle.mig_packet.specs.Reading.{settings, with_waiting};
    ghost use Rattle.mig_packet.specs.Paging.{PageHolder, packet_in, kept_in, page_in, IsHeld};

    ghost Value = { PageHolder };

    ghost view = { λ r. record {
      given = with_waiting r.waiting (settings r.page_size r.uuid r.channels);
      hello = r.hello;
      has_packets = r.has_packets;
      room = r.room;
      packet = packet_in r.pages r.head.items;
      kept = kept_in r.pages r.has_page r.head.items r.page.items;
      page = page_in r.has_page r.page.items;
      found = r.found;
      fed = r.fed;
      ended = r.ended;
    } };

    ghost invariant = { λ r. IsHeld r.page_size r.hello r.pages r.has_page r.head.items r.page.items (vec_capacity r.head) (vec_capacity r.page) r.found };
}

// Appends the first bytes of `piece` until `kept` has `len` bytes, or the piece is used up. Returns
// how many it appended. It allocates nothing.
fn fill<A: Allocator>(kept: &mut Vec<u8, A>, len: usize, piece: &[u8]) -> usize
    requires room { len ≤ vec_capacity kept.old }
    requires short { length kept.old.items ≤ len }
    ensures taken { result ≤ length piece.now }
    ensures items { kept.new.items ≡ kept.old.items ++ take result piece.now }
    ensures len { length kept.new.items ≤ len }
    ensures all { length kept.new.items < len → result ≡ length piece.now }
    ensures capacity { vec_capacity kept.old ≤ vec_capacity kept.new }
{
    let missing = (len - kept.len()).min(piece.len());
    kept.extend_from_slice(&piece[..missing]).unwrap();
    missing
}

// Takes the rest of a page from a piece. Returns where its content is, once it is complete, and how
// many bytes were taken. `was_given` says that the kept bytes are an earlier page's.
fn take_page<'b, A: Allocator>(
    page: &mut Vec<u8, A>,
    was_given: bool,
    size: usize,
    piece: &'b [u8],
) -> (Option<PageContent<'b>>, usize)
    requires room { size ≤ vec_capacity page.old }
    requires short { length (begun_in was_given page.old.items) < size }
    ensures taken { result.1 ≤ length piece.now }
    ensures page { IsTaken result.0 (begun_in was_given page.old.items ++ take result.1 piece.now) page.new.items size }
    ensures cut { IsCut result.0 (begun_in was_given page.old.items) piece.now size }
    ensures all { IfNone result.0 (result.1 ≡ length piece.now) }
    ensures some { IfSome result.0 (λ content. 0 < result.1) }
    ensures capacity { vec_capacity page.old ≤ vec_capacity page.new }
{
    if was_given {
        page.clear();
    }
    take_begun(page, size, piece)
}

// Takes the rest of a page whose first bytes are kept.
fn take_begun<'b, A: Allocator>(
    page: &mut Vec<u8, A>,
    size: usize,
    piece: &'b [u8],
) -> (Option<PageContent<'b>>, usize)
    requires room { size ≤ vec_capacity page.old }
    requires short { length page.old.items < size }
    ensures taken { result.1 ≤ length piece.now }
    ensures page { IsTaken result.0 (page.old.items ++ take result.1 piece.now) page.new.items size }
    ensures cut { IsCut result.0 page.old.items piece.now size }
    ensures all { IfNone result.0 (result.1 ≡ length piece.now) }
    ensures some { IfSome result.0 (λ content. 0 < result.1) }
    ensures capacity { vec_capacity page.old ≤ vec_capacity page.new }
{
    if page.is_empty() && piece.len() >= size {
        return (Some(PageContent::Lent(&piece[..size])), size);
    }
    let taken = fill(page, size, piece);
    if page.len() < size {
        return (None, taken);
    }
    (Some(PageContent::Kept), taken)
}

impl<A: Allocator + Copy> PageReader<A> {
    /// Creates the reader of a channel before its first byte: one of `channels` channels of a
    /// migration under `uuid`, with pages of `page_size` bytes.
    ///
    /// The packets of a round may count `waiting` together, one for each packet and one for each of
    /// its pages. This reader keeps no packets; it judges the limit all the same, so that it
    /// reports the fault that `ChannelReader` does. `None` is no limit.
    ///
    /// # Errors
    ///
    /// `NoMemory`: the room for a head and a page could not be allocated.
    pub fn new(
        alloc: A,
        page_size: u64,
        uuid: Uuid,
        channels: usize,
        waiting: Option<u64>,
    ) -> Result<PageReader<A>, NoMemory>
        requires page_size { IsPageSize page_size }
        ensures gives { IfOk result (λ r. Gives (with_waiting waiting (settings page_size uuid channels)) [] (none_given (with_waiting waiting (settings page_size uuid channels))) r) }
        ensures open { IfOk result (λ r. IsFalse r.ended) }
        ensures fed { IfOk result (λ r. r.fed ≡ 0) }
    {
        Ok(PageReader {
            page_size,
            uuid,
            channels,
            waiting,
            room: waiting,
            hello: None,
            has_packets: false,
            pages: None,
            head: Vec::with_capacity(alloc, head_len(page_size))?,
            page: Vec::with_capacity(alloc, page_size as usize)?,
            has_page: false,
            found: ChannelState::Reading,
            fed: 0,
            ended: false,
        })
    }
}

impl<A: Allocator> PageReader<A> {
    pub(crate) fn is_reading(&self) -> bool
        ensures reading { IsTrue result → self.now.found ≡ state.Reading }
        ensures other { IsFalse result → self.now.found ≢ state.Reading }
    {
        match self.found {
            ChannelState::Reading => true,
            _ => false,
        }
    }

    /// Returns whether the channel was ended.
    pub fn ended(&self) -> bool
        ensures { result ≡ self.now.ended }
    {
        self.ended
    }

    /// Returns how many bytes were taken.
    pub fn fed(&self) -> u64
        ensures { result ≡ self.now.fed }
    {
        self.fed
    }

    /// Ends the channel: no more bytes are taken. A second call changes nothing.
    pub fn end(&mut self)
        ensures value { self.new ≡ record self.old { ended = true } }
        ensures gives { (given : Settings) (text : List ℕ) (so_far : GivenSoFar) → Gives given text so_far self.old → Gives given text so_far self.new }
    {
        self.ended = true;
    }

    /// Returns the channel id that the hello named. None before the hello is complete, or if the
    /// hello has a fault.
    pub fn hello_id(&self) -> Option<u8>
        ensures value { result ≡ self.now.hello }
        ensures hello { HolderTells self.now (λ given text so_far. HasHello given text result) }
    {
        self.hello
    }

    /// Returns the head of the packet that was begun: from `ChannelEvent::Head` until
    /// `ChannelEvent::Packet`.
    pub fn head(&self) -> Option<PacketHead<'_>>
        ensures value { option_map (λ head. head.bytes.now) result ≡ option_map (λ packet. packet.0) self.now.packet }
        ensures page_size { IfSome result (λ head. head.page_size ≡ self.now.given.page_size) }
        ensures head { HolderTells self.now (λ given text so_far. option_map (λ head. head.bytes.now) result ≡ head_of so_far.packet) }
    {
        match self.pages {
            None => None,
            Some(_) => Some(PacketHead {
                page_size: self.page_size,
                bytes: &self.head,
            }),
        }
    }

    /// Returns the content of the page that the last call of `read_on` gave.
    pub fn content<'c>(&'c self, page: PageContent<'c>) -> &'c [u8]
        ensures { result.now ≡ content_of page.entry self.now }
    {
        match page {
            PageContent::Lent(bytes) => bytes,
            PageContent::Kept => self.kept_page(),
        }
    }

    // Returns the page that was given last, if it was gathered.
    fn kept_page(&self) -> &[u8]
        ensures { result.now ≡ self.now.page }
    {
        if self.has_page { &self.page } else { &[] }
    }

    /// Reads on in `piece`, the next bytes of the channel, up to the result that it returns. Also
    /// returns how many bytes of the piece were taken: the next call continues after them. It
    /// allocates nothing.
    ///
    /// `ChannelEvent::Packet` takes no bytes. So call it until it returns `ChannelEvent::More` or
    /// `ChannelEvent::Over`, also if no byte of the piece is left.
    pub fn read_on<'b>(&mut self, piece: &'b [u8]) -> (ChannelEvent<'b>, usize)
        requires room { self.old.fed + length piece.now < 2 ^ 64 }
        ensures taken { result.1 ≤ length piece.now }
        ensures gives { GivesOn (take result.1 piece.now) result.0 self.old self.new }
        ensures comes { HolderTells self.old (λ given text so_far. Comes given.page_size result.0 so_far) }
        ensures whole { IsWhole result.0 self.new }
        ensures stops { Stops result.0 result.1 piece.now self.new }
        ensures copies { CopiesCutPages result.0 piece.now self.old }
        ensures needs { NeedsMore result.0 self.new }
        ensures less { LeavesLess result.0 result.1 piece.now self.old self.new }
        ensures fed { self.new.fed ≡ self.old.fed + result.1 }
        ensures ended { self.new.ended ≡ self.old.ended }
    {
        self.step(piece)
    }

    // Reads on, up to the result that it returns.
    fn step<'b>(&mut self, piece: &'b [u8]) -> (ChannelEvent<'b>, usize)
        requires room { self.old.fed + length piece.now < 2 ^ 64 }
        ensures { Steps result.0 result.1 piece.now self.old self.new }
    {
        if self.ended || !self.is_reading() {
            return (ChannelEvent::Over, 0);
        }
        match self.pages {
            Some(given) => self.read_packet(given, piece),
            None => self.read_item(piece),
        }
    }

    // Reads a hello or a head.
    fn read_item<'b>(&mut self, piece: &'b [u8]) -> (ChannelEvent<'b>, usize)
        requires room { self.old.fed + length piece.now < 2 ^ 64 }
        requires reading { (self.old.found ≡ state.Reading) × IsFalse self.old.ended }
        requires none_begun { self.old.packet ≡ None }
        ensures { Steps result.0 result.1 piece.now self.old self.new }
    {
        match self.hello {
            None => self.read_hello(piece),
            Some(_) => self.read_head(piece),
        }
    }

    fn read_hello<'b>(&mut self, piece: &'b [u8]) -> (ChannelEvent<'b>, usize)
        requires room { self.old.fed + length piece.now < 2 ^ 64 }
        requires reading { (self.old.found ≡ state.Reading) × IsFalse self.old.ended }
        requires none_begun { self.old.packet ≡ None }
        requires none_yet { self.old.hello ≡ None }
        ensures { Steps result.0 result.1 piece.now self.old self.new }
    {
        let taken = fill(&mut self.head, HELLO_LEN, piece);
        self.fed += taken as u64;
        if self.head.len() < HELLO_LEN {
            return (ChannelEvent::More, taken);
        }
        if let Some(fault) = hello_fault(&self.head, &self.uuid, self.channels) {
            self.found = ChannelState::Bad(fault);
            return (ChannelEvent::Over, taken);
        }
        let id = self.head[24];
        self.hello = Some(id);
        self.head.clear();
        (ChannelEvent::Hello(id), taken)
    }

    fn read_head<'b>(&mut self, piece: &'b [u8]) -> (ChannelEvent<'b>, usize)
        requires room { self.old.fed + length piece.now < 2 ^ 64 }
        requires reading { (self.old.found ≡ state.Reading) × IsFalse self.old.ended }
        requires none_begun { self.old.packet ≡ None }
        requires hello { self.old.hello ≢ None }
        ensures { Steps result.0 result.1 piece.now self.old self.new }
    {
        let len = head_len(self.page_size);
        let taken = fill(&mut self.head, len, piece);
        self.fed += taken as u64;
        if self.head.len() < len {
            return (ChannelEvent::More, taken);
        }
        if let Some(fault) = head_fault_within(self.page_size, self.room, &self.head) {
            self.found = ChannelState::Bad(fault);
            return (ChannelEvent::Over, taken);
        }
        self.pages = Some(0);
        self.page.clear();
        self.has_page = false;
        (ChannelEvent::Head, taken)
    }

    // Reads a page of the packet that was begun, of which `given` were given, or ends the packet.
    fn read_packet<'b>(&mut self, given: usize, piece: &'b [u8]) -> (ChannelEvent<'b>, usize)
        requires room { self.old.fed + length piece.now < 2 ^ 64 }
        requires reading { (self.old.found ≡ state.Reading) × IsFalse self.old.ended }
        requires begun { IsSomeAnd self.old.packet (λ packet. packet.1 ≡ given) }
        ensures { Steps result.0 result.1 piece.now self.old self.new }
    {
        if given == normal_count_of(&self.head) {
            return (self.end_packet(), 0);
        }
        self.read_page(given, piece)
    }

    fn read_page<'b>(&mut self, given: usize, piece: &'b [u8]) -> (ChannelEvent<'b>, usize)
        requires room { self.old.fed + length piece.now < 2 ^ 64 }
        requires reading { (self.old.found ≡ state.Reading) × IsFalse self.old.ended }
        requires begun { IsSomeAnd self.old.packet (λ packet. (packet.1 ≡ given) × (given < normal_count packet.0)) }
        ensures { Steps result.0 result.1 piece.now self.old self.new }
    {
        let offset = offset_of(&self.head, given);
        let size = self.page_size as usize;
        let (content, taken) = take_page(&mut self.page, self.has_page, size, piece);
        self.fed += taken as u64;
        match content {
            None => {
                self.has_page = false;
                (ChannelEvent::More, taken)
            }
            Some(PageContent::Kept) => {
                self.has_page = true;
                self.pages = Some(given + 1);
                (ChannelEvent::Page(offset, PageContent::Kept), taken)
            }
            Some(PageContent::Lent(page)) => {
                self.has_page = false;
                self.pages = Some(given + 1);
                (ChannelEvent::Page(offset, PageContent::Lent(page)), taken)
            }
        }
    }

    // Ends the packet that was begun, all of whose pages were given.
    fn end_packet<'b>(&mut self) -> ChannelEvent<'b>
        requires begun { IsSomeAnd self.old.packet (λ packet. packet.1 ≡ normal_count packet.0) }
        ensures moves { Moves result [] self.old self.new }
        ensures packet { (sync : Bool) × (result ≡ event.Packet sync) }
        ensures fed { self.new.fed ≡ self.old.fed }
    {
        let sync = sync_of(&self.head);
        self.room = next_room(self.waiting, self.room, &self.head);
        self.has_packets = !sync;
        self.pages = None;
        self.head.clear();
        ChannelEvent::Packet(sync)
    }

    /// Returns how many of the bytes taken are complete items without a fault, from the first byte
    /// on. If the channel is bad, the item at fault begins after them. Otherwise an item that isn't
    /// complete begins there, if bytes follow: the pages that were given of it don't count.
    ///
    /// A packet is complete with the last byte of its last page, before `ChannelEvent::Packet`
    /// returns it.
    pub fn valid_up_to(&self) -> u64
        ensures { HolderTells self.now (λ given text so_far. IsValidUpTo given text result) }
    {
        let front = self.fed.saturating_sub(self.open_len() as u64);
        front.saturating_sub(self.kept_len() as u64)
    }

    // Returns how many bytes were given of a packet that isn't complete.
    fn open_len(&self) -> usize
        ensures { result ≡ open_len self.now.given.page_size self.now.packet }
    {
        match self.pages {
            None => 0,
            Some(given) => self.given_len(given),
        }
    }

    // Returns how many bytes the head has, and the `given` pages that were given, of a packet that
    // isn't complete.
    fn given_len(&self, given: usize) -> usize
        requires begun { IsSomeAnd self.now.packet (λ packet. packet.1 ≡ given) }
        ensures { result ≡ open_len self.now.given.page_size self.now.packet }
    {
        if given == normal_count_of(&self.head) {
            return 0;
        }
        self.head.len() + given * self.page_size as usize
    }

    // Returns how many bytes are kept of a hello, a head or a page that isn't complete.
    fn kept_len(&self) -> usize
        ensures { result ≡ length self.now.kept }
    {
        match self.pages {
            None => self.head.len(),
            Some(_) if self.has_page => 0,
            Some(_) => self.page.len(),
        }
    }

    /// Returns the state of the bytes taken: more are needed, closed, or bad.
    pub fn state(&self) -> ChannelState
        ensures state { HolderTells self.now (λ given text so_far. HasState given text self.now.ended result) }
        ensures reading { HolderTells self.now (λ given text so_far. HasReading given text self.now.ended so_far result) }
    {
        if self.ended && self.is_reading() {
            self.state_at_end()
        } else {
            self.found
        }
    }

    // Returns the state of bytes without a fault once the channel is ended.
    fn state_at_end(&self) -> ChannelState
        ensures { result ≡ closing_state self.now }
    {
        if !self.is_between_packets() {
            return ChannelState::Bad(ChannelFault::Truncated);
        }
        if self.is_unsynced() {
            return ChannelState::Bad(ChannelFault::Unsynced);
        }
        ChannelState::Closed
    }

    // Returns whether the hello was read, and no byte of a next item.
    fn is_between_packets(&self) -> bool
        ensures { result ≡ is_between self.now.hello self.now.packet self.now.kept }
    {
        match self.pages {
            None => self.hello.is_some() && self.head.is_empty(),
            Some(i) => i == normal_count_of(&self.head),
        }
    }

    // Returns whether the round of the last packet is open.
    fn is_unsynced(&self) -> bool
        ensures { result ≡ is_unsynced self.now.has_packets self.now.packet }
    {
        match self.pages {
            None => self.has_packets,
            Some(_) => !sync_of(&self.head),
        }
    }
}
