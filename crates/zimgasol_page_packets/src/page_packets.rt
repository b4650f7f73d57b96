//! Reads a channel from pieces of its bytes, and passes on its hello and its packets of pages.

ghost use Rattle.std.specs.Prelude.{◌≡◌, ◌+◌, ◌-◌, ◌^◌, ◌<◌, ◌≤◌, ◌++◌, ℕ, min, List, [], length, take, drop, IfOk, vec_capacity};
ghost use Rattle.mig_packet.specs.PageSize.{IsPageSize};
ghost use Rattle.zimgasol_page_packets.specs.Packets.{front_len, state_len};
ghost use Rattle.zimgasol_page_packets.specs.Parted.{part_channel, with_front};
ghost use Rattle.zimgasol_page_packets.specs.Passing.{with_counts, to_come, keeps, waits, next_after};
ghost use Rattle.zimgasol_page_packets.specs.declared.page_packets.Next.TheVariants as coming;

use crate::format::{FRONT_LEN, HELLO_LEN};
use crate::front::{is_device, is_of_pages, rest_len, state_len};
use std::alloc::{AllocError, Global};
use std::marker::Model;

/// The packets of devices that were passed over.
#[derive(Clone, Copy, Debug, PartialEq, Eq)]
pub struct PassedOver {
    /// How many they are. Stops at the greatest `u64`.
    pub packets: u64,
    /// How many bytes they have together. Stops at the greatest `u64`.
    pub bytes: u64,
}

/// What the next bytes of a channel are.
#[derive(Clone, Copy, Debug, PartialEq, Eq)]
pub enum Next {
    /// This many bytes of the hello or of a packet of pages.
    Bytes(u64),
    /// The first bytes of a packet.
    Front,
    /// This many bytes of a device's state.
    State(u64),
    /// Bytes that all are passed on: they don't begin a packet, or the channel was ended.
    Rest,
}

/// A channel that is read in pieces, without the packets of devices.
///
/// It keeps the first 276 bytes of a packet at most. All other bytes are passed on from the piece
/// that they are in, without a copy, or dropped.
#[derive(Drop)]
pub struct PagePackets {
    pub(crate) page_size: u64,
    pub(crate) next: Next,
    // the first bytes of a packet, of which these were taken
    pub(crate) kept: Vec<u8>,
    pub(crate) given: usize,
    pub(crate) passed_over: PassedOver,
}

impl Model for PagePackets {
    ghost use Rattle.std.specs.Prelude.{vec_capacity, drop};
    ghost use Rattle.zimgasol_page_packets.specs.Passing.{Passing, IsPassing};

    ghost Value = { Passing };

    ghost view = { λ p. record {
      page_size = p.page_size;
      next = p.next;
      kept = drop p.given p.kept.items;
      packets = p.passed_over.packets;
      bytes = p.passed_over.bytes;
    } };

    ghost invariant = { λ p. IsPassing p.page_size p.next p.given p.kept.items (vec_capacity p.kept) };
}

// Appends the first bytes of `piece` until `kept` has `len` bytes, or the piece is used up. Returns
// how many it appended. It allocates nothing.
fn fill(kept: &mut Vec<u8>, len: usize, piece: &[u8]) -> usize
    requires room { len ≤ vec_capacity kept.old }
    requires short { length kept.old.items ≤ len }
    ensures taken { result ≤ length piece.now }
    ensures items { kept.new.items ≡ kept.old.items ++ take result piece.now }
    ensures len { length kept.new.items ≤ len }
    ensures all { length kept.new.items < len → result ≡ length piece.now }
    ensures some { length kept.old.items < len → 0 < length piece.now → 0 < result }
    ensures capacity { vec_capacity kept.old ≤ vec_capacity kept.new }
{
    let missing = (len - kept.len()).min(piece.len());
    kept.extend_from_slice(&piece[..missing]).unwrap();
    missing
}

impl PagePackets {
    /// Creates the reader of a channel before its first byte, whose pages have `page_size` bytes.
    ///
    /// # Errors
    ///
    /// `AllocError`: the room for the first bytes of a packet could not be allocated.
    pub fn new(alloc: Global, page_size: u64) -> Result<PagePackets, AllocError>
        requires page_size { IsPageSize page_size }
        ensures page_size { IfOk result (λ p. p.page_size ≡ page_size) }
        ensures to_come { IfOk result (λ p. (bytes : List ℕ) → to_come p bytes ≡ with_counts 0 0 (part_channel page_size bytes)) }
    {
        Ok(PagePackets {
            page_size,
            next: Next::Bytes(HELLO_LEN),
            kept: Vec::with_capacity(alloc, FRONT_LEN)?,
            given: 0,
            passed_over: PassedOver {
                packets: 0,
                bytes: 0,
            },
        })
    }

    /// Returns the packets that were passed over.
    pub fn passed_over(&self) -> PassedOver
        ensures packets { result.packets ≡ self.now.packets }
        ensures bytes { result.bytes ≡ self.now.bytes }
    {
        self.passed_over
    }

    // Returns whether kept bytes wait to be passed on.
    fn keeps(&self) -> bool
        ensures { result ≡ keeps self.now }
    {
        match self.next {
            Next::Front | Next::State(_) => false,
            Next::Bytes(_) | Next::Rest => self.given < self.kept.len(),
        }
    }

    /// Returns the bytes that wait to be passed on, if `piece` has the next bytes of the channel:
    /// bytes that are kept, or the first of the piece.
    pub fn waiting<'a>(&'a self, piece: &'a [u8]) -> &'a [u8]
        ensures { result.now ≡ waits self.now piece.now }
    {
        if self.keeps() {
            return &self.kept[self.given..];
        }
        match self.next {
            Next::Front | Next::State(_) => &[],
            Next::Bytes(left) => &piece[..short_of(left, piece.len())],
            Next::Rest => piece,
        }
    }

    /// Takes `len` of the bytes that wait, as passed on. Returns how many bytes of the piece these
    /// are.
    pub fn take(&mut self, len: usize) -> usize
        ensures taken { result ≤ len }
        ensures to_come { (piece more : List ℕ) → len ≤ length (waits self.old piece)
            → to_come self.old (piece ++ more) ≡ with_front (take len (waits self.old piece)) (to_come self.new (drop result piece ++ more)) }
        ensures page_size { self.new.page_size ≡ self.old.page_size }
    {
        if self.keeps() {
            self.given = self.given.saturating_add(len).min(self.kept.len());
            return 0;
        }
        match self.next {
            Next::Front | Next::State(_) => 0,
            Next::Bytes(left) => {
                self.next = Next::Bytes(left.saturating_sub(len as u64));
                len
            }
            Next::Rest => len,
        }
    }

    /// Reads on in `piece`, the next bytes of the channel, if no byte waits to be passed on.
    /// Returns how many of its bytes were kept or dropped. Call it until bytes wait, or the piece
    /// is used up.
    pub fn read_on(&mut self, piece: &[u8]) -> usize
        ensures taken { result ≤ length piece.now }
        ensures some { waits self.old piece.now ≡ [] → 0 < length piece.now → 0 < result }
        ensures to_come { (more : List ℕ) → to_come self.old (piece.now ++ more) ≡ to_come self.new (drop result piece.now ++ more) }
        ensures page_size { self.new.page_size ≡ self.old.page_size }
    {
        match self.next {
            Next::Rest => 0,
            Next::State(left) => self.pass_over(left, piece),
            Next::Front => self.read_front(piece),
            Next::Bytes(left) => {
                if left > 0 || self.keeps() {
                    return 0;
                }
                self.next = Next::Front;
                self.kept.clear();
                self.given = 0;
                self.read_front(piece)
            }
        }
    }

    // Drops the first bytes of `piece` up to the end of a device's state, of which `left` bytes are
    // left. Returns how many it dropped.
    fn pass_over(&mut self, left: u64, piece: &[u8]) -> usize
        requires state { self.old.next ≡ coming.State left }
        ensures taken { result ≤ length piece.now }
        ensures some { 0 < length piece.now → 0 < result }
        ensures to_come { (more : List ℕ) → to_come self.old (piece.now ++ more) ≡ to_come self.new (drop result piece.now ++ more) }
        ensures page_size { self.new.page_size ≡ self.old.page_size }
    {
        let len = piece.len();
        if (len as u64) < left {
            self.next = Next::State(left - len as u64);
            return len;
        }
        self.passed_over = counted(self.passed_over, &self.kept);
        self.kept.clear();
        self.next = Next::Front;
        left as usize
    }

    // Keeps the first bytes of `piece` up to the front of a packet. Returns how many it kept.
    fn read_front(&mut self, piece: &[u8]) -> usize
        requires front { self.old.next ≡ coming.Front }
        ensures taken { result ≤ length piece.now }
        ensures some { 0 < length piece.now → 0 < result }
        ensures to_come { (more : List ℕ) → to_come self.old (piece.now ++ more) ≡ to_come self.new (drop result piece.now ++ more) }
        ensures page_size { self.new.page_size ≡ self.old.page_size }
    {
        let taken = fill(&mut self.kept, FRONT_LEN, piece);
        if self.kept.len() < FRONT_LEN {
            return taken;
        }
        match next_after(self.page_size, &self.kept) {
            Next::State(0) => {
                self.passed_over = counted(self.passed_over, &self.kept);
                self.kept.clear();
            }
            next => self.next = next,
        }
        taken
    }

    /// Ends the channel: no more bytes follow. What is kept waits to be passed on.
    pub fn end(&mut self)
        ensures waits { waits self.new [] ≡ (to_come self.old []).given }
        ensures to_come { to_come self.new [] ≡ to_come self.old [] }
        ensures page_size { self.new.page_size ≡ self.old.page_size }
    {
        self.next = Next::Rest;
    }
}

// Returns the lesser of two lengths.
fn short_of(left: u64, len: usize) -> usize
    ensures { result ≡ min left len }
{
    left.min(len as u64) as usize
}

// Returns what follows the front of a packet.
fn next_after(page_size: u64, front: &[u8]) -> Next
    requires page_size { IsPageSize page_size }
    requires front { front_len ≤ length front.now }
    ensures { result ≡ next_after page_size front.now }
{
    if is_device(front) {
        return Next::State(u64::from(state_len(front)));
    }
    if is_of_pages(page_size, front) {
        return Next::Bytes(rest_len(page_size, front));
    }
    Next::Rest
}

// Counts the packet of a device that begins with `front`, with those that were passed over.
fn counted(passed_over: PassedOver, front: &[u8]) -> PassedOver
    requires front { front_len ≤ length front.now }
    ensures packets { result.packets ≡ min (passed_over.packets + 1) (2 ^ 64 - 1) }
    ensures bytes { result.bytes ≡ min (passed_over.bytes + (front_len + state_len front.now)) (2 ^ 64 - 1) }
{
    PassedOver {
        packets: passed_over.packets.saturating_add(1),
        bytes: passed_over
            .bytes
            .saturating_add(FRONT_LEN as u64 + u64::from(state_len(front))),
    }
}
