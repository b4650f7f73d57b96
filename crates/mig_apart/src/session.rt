//! The load of several channels whose pages others read to their places.

ghost use Rattle.std.specs.Prelude.{ℕ, ◌≡◌, ◌≢◌, ◌⊎◌, ◌+◌, ◌*◌, ◌<◌, ◌≤◌, ◌^◌, List, [], length, take, replicate, Ok, Err, IfOk, OnErr, IsTrue, IsFalse, ◌↔◌};
ghost use Rattle.mig_mem.specs.Image.{Image, IsImage};
ghost use Rattle.mig_mem.specs.Lent.{lent_bytes};
ghost use Rattle.mig_assemble.specs.HeadPlaces.{LieIn};
ghost use Rattle.mig_load_types.specs.declared.fault.InPlaceFault.TheVariants as in_place_fault;
ghost use Rattle.mig_load_types.specs.Settings.{for_table};
ghost use Rattle.mig_sources.specs.declared.source.Source.TheVariants as source;
ghost use Rattle.mig_sources.specs.declared.source.Source.TheVariants.{Main as main_source};
ghost use Rattle.mig_sources.specs.Sources.{HasSource, count_of, no_count, with_fed, with_end, feed_step, end_step};
ghost use Rattle.mig_answer.specs.declared.verdict.Verdict.TheVariants.{Running as running};
ghost use Rattle.mig_answer.specs.Texts.{no_texts};
ghost use Rattle.mig_in_place.specs.Sources.{counts_of};
ghost use Rattle.mig_in_place.specs.Session.{StandsFor, StepsOn, StillLacks, RunsOut, Tells, TakesBytes};
ghost use Rattle.mig_apart.specs.declared.session.Claim.TheVariants as claim;
ghost use Rattle.mig_apart.specs.Claims.{StandsFreely, TakesFreely, ClaimsLess, packet_places, IsNewClaim, ClaimsPacket, FreesPacket};

use crate::places::{all_claimed, any_claimed, claim_all, free_all};
use mig_in_place::InPlaceSession;
use mig_load_types::{InPlaceFault, LoadSettings};
use mig_mem::{Dirty, GuestTarget, NoMemory, Table};
use mig_packet::PacketHead;
use mig_sources::Source;
use std::alloc::{Allocator, Global};
use std::fmt::{self, Debug, Formatter};
use std::marker::Model;
use uuid::Uuid;

/// The answer to the head of a channel's next packet.
#[derive(Clone, Copy, Debug)]
pub enum Claim<'h> {
    /// The places of its pages are claimed, in the block with this number. The normal pages are to
    /// be read there, and those of zeros to be cleared. Then `take` takes the packet.
    Pages(PacketHead<'h>, usize),
    /// One of the places is claimed for another packet. Pass the head again once that was taken.
    Wait,
    /// These bytes aren't taken apart: pass them to `feed`, once nothing is claimed.
    Feed,
}

/// Loads a guest from a main stream and its channels into memory that is there, while others read
/// the pages of packets straight to their places. It has three bits for each page.
///
/// A thread for each channel, and one for the main stream, share it behind one lock:
///
/// - A channel's thread reads a head, and claims its places (`claim`). It reads the normal pages to
///   these places, and clears the pages of zeros, without the lock. Then it takes the packet
///   (`take`).
/// - What isn't such a packet is fed (`feed`), once nothing is claimed: hellos, SYNC packets, the
///   main stream, and bytes with a fault.
pub struct ApartSession<A: Allocator = Global> {
    load: InPlaceSession<A>,
    claimed: Dirty<A>,
}

// Written out, so that a caller's proof passes a call where a value is dropped.
impl<A: Allocator> Drop for ApartSession<A> {
    fn drop(self) {
        let ApartSession {
            load: _,
            claimed: _,
        } = self;
    }
}

impl<A: Allocator> Model for ApartSession<A> {
    ghost use Rattle.std.specs.Prelude.{◌≡◌};
    ghost use Rattle.mig_apart.specs.Claims.{ApartLoad};

    ghost Value = { ApartLoad };

    ghost view = { λ s. record { load = s.load; claimed = s.claimed } };

    ghost invariant = { λ s. s.claimed.table ≡ s.load.table };
}

/// Prints an opaque value: it holds guest memory.
impl<A: Allocator> Debug for ApartSession<A> {
    fn fmt<W: fmt::Write>(&self, f: &mut Formatter<W>) -> fmt::Result {
        f.write_str("ApartSession { .. }")
    }
}

impl<A: Allocator + Copy> ApartSession<A> {
    /// Creates a load as `InPlaceSession::new` does. Nothing is claimed.
    ///
    /// # Errors
    ///
    /// `NoMemory`: an allocation was refused.
    pub fn new<B: Allocator>(
        alloc: A,
        settings: LoadSettings,
        table: &Table<B>,
        uuid: &Uuid,
        channels: usize,
    ) -> Result<ApartSession<A>, NoMemory>
        requires channels { (1 ≤ channels) × (channels ≤ 255) }
        requires limit { settings.limit ≤ 2 ^ 40 }
        ensures stands { IfOk result (λ s. (first : Image) → IsImage first → first.table ≡ table.now → StandsFor settings uuid.now first (no_texts channels) first s.load) }
        ensures table { IfOk result (λ s. s.load.table ≡ table.now) }
        ensures counts { IfOk result (λ s. counts_of s.load.sources ≡ record { main = no_count; channels = replicate channels no_count }) }
        ensures none { IfOk result (λ s. s.claimed.marked ≡ []) }
    {
        Ok(ApartSession {
            load: InPlaceSession::new(alloc, settings, table, uuid, channels)?,
            claimed: Dirty::none(alloc, table)?,
        })
    }
}

impl<A: Allocator + Copy> ApartSession<A> {
    /// Feeds the first bytes of `piece`, the next of `source`, as `InPlaceSession::feed` does,
    /// while nothing is claimed.
    ///
    /// # Errors
    ///
    /// Those of `InPlaceSession::feed`.
    pub fn feed<M: GuestTarget>(
        &mut self,
        memory: &mut M,
        source: Source,
        piece: &[u8],
    ) -> Result<usize, InPlaceFault>
        requires none { length self.old.claimed.marked ≡ 0 }
        requires source { HasSource (counts_of self.old.load.sources) source }
        requires open { IsFalse (count_of (counts_of self.old.load.sources) source).ended }
        requires room { (count_of (counts_of self.old.load.sources) source).fed + length piece.now < 2 ^ 64 }
        ensures taken { IfOk result (λ n. n ≤ length piece.now) }
        ensures ok { IfOk result (λ n. StepsOn (feed_step source (take n piece.now)) (M.image memory.old) self.old.load (M.image memory.new) self.new.load) }
        ensures main { IfOk result (λ n. source ≡ main_source → (n ≡ 0) ⊎ (n ≡ length piece.now)) }
        ensures waits { IfOk result (λ n. n < length piece.now → (self.new.load.verdict ≢ running)
            ⊎ Tells (M.image memory.new) self.new.load (λ given uuid first texts. TakesBytes (for_table first.table given) uuid self.new.load.rounds texts source → ⊥)) }
        ensures other { (result ≡ Err in_place_fault.OtherTable) ↔ ((M.image memory.old).table ≢ self.old.load.table) }
        ensures unchanged { result ≡ Err in_place_fault.OtherTable → (self.new ≡ self.old) × (M.image memory.new ≡ M.image memory.old) }
        ensures failed { result ≡ Err in_place_fault.NoMemory → RunsOut source piece.now (M.image memory.old) self.old.load (M.image memory.new) self.new.load }
        ensures settled { self.old.load.verdict ≢ running → result ≢ Err in_place_fault.OtherTable
            → (result ≡ Ok 0) × (self.new ≡ self.old) × (M.image memory.new ≡ M.image memory.old) }
        ensures counts { IfOk result (λ n. counts_of self.new.load.sources ≡ with_fed (counts_of self.old.load.sources) source n) }
        ensures table { (self.new.load.table ≡ self.old.load.table) × ((M.image memory.new).table ≡ (M.image memory.old).table) }
        ensures rounds { self.old.load.rounds ≤ self.new.load.rounds }
        ensures none { self.new.claimed ≡ self.old.claimed }
    {
        self.load.feed(memory, source, piece)
    }

    /// Claims the places of the next packet of a channel, by its head.
    pub fn claim<'h>(&mut self, channel: usize, head: &'h [u8]) -> Claim<'h>
        requires source { HasSource (counts_of self.old.load.sources) (source.Channel channel) }
        ensures claims { ClaimsPacket head.now result self.old self.new }
        ensures load { self.new.load ≡ self.old.load }
    {
        let Some((head, block)) = self.load.next_packet(channel, head) else {
            return Claim::Feed;
        };
        if any_claimed(&self.claimed, &head, block) {
            return Claim::Wait;
        }
        claim_all(&mut self.claimed, &head, block);
        Claim::Pages(head, block)
    }

    /// Takes the packet of a channel whose places were claimed, once its pages are there: those of
    /// zeros are cleared, and the others have `contents`, in their order. Returns false, and takes
    /// nothing, if `head` isn't that of the channel's next packet, if its places aren't claimed, or
    /// if there isn't a content of the page size for each of its normal pages.
    ///
    /// # Errors
    ///
    /// `NoMemory`: an allocation was refused. Nothing was taken, and the call can be made again.
    pub fn take(
        &mut self,
        channel: usize,
        head: &[u8],
        contents: &[&[u8]],
    ) -> Result<bool, NoMemory>
        requires source { HasSource (counts_of self.old.load.sources) (source.Channel channel) }
        ensures took { IfOk result (λ took. IsTrue took → TakesFreely channel head.now (lent_bytes contents.now) self.old self.new) }
        ensures freed { IfOk result (λ took. IsTrue took → FreesPacket head.now self.old self.new) }
        ensures left { IfOk result (λ took. IsFalse took → self.new ≡ self.old) }
        ensures err { OnErr result (self.new ≡ self.old) }
        ensures table { self.new.load.table ≡ self.old.load.table }
    {
        let Some((found, block)) = self.load.next_packet(channel, head) else {
            return Ok(false);
        };
        if !all_claimed(&self.claimed, &found, block) || !self.has_room(channel, head, contents) {
            return Ok(false);
        }
        if !self.load.take_packet(channel, head, contents)? {
            return Ok(false);
        }
        free_all(&mut self.claimed, &found, block);
        Ok(true)
    }
}

impl<A: Allocator> ApartSession<A> {
    // Returns whether fewer than 2^64 bytes of a channel are taken with a packet.
    fn has_room(&self, channel: usize, head: &[u8], contents: &[&[u8]]) -> bool
        requires source { HasSource (counts_of self.now.load.sources) (source.Channel channel) }
        ensures room { IsTrue result → (count_of (counts_of self.now.load.sources) (source.Channel channel)).fed + length head.now + length contents.now * self.now.load.table.page_size < 2 ^ 64 }
    {
        let page_size = self.load.table().page_size();
        let Some(pages) = (contents.len() as u64).checked_mul(page_size) else {
            return false;
        };
        let Some(len) = pages.checked_add(head.len() as u64) else {
            return false;
        };
        len <= u64::MAX - self.load.fed(Source::Channel(channel))
    }

    /// Ends a source, all of whose bytes were taken or fed, as `InPlaceSession::end` does.
    pub fn end(&mut self, source: Source)
        requires source { HasSource (counts_of self.old.load.sources) source }
        ensures steps { (memory : Image) → StepsOn (end_step source) memory self.old.load memory self.new.load }
        ensures lacking { (memory : Image) → StillLacks (end_step source) memory self.old.load memory self.new.load }
        ensures settled { self.old.load.verdict ≢ running → (self.new.load.verdict ≡ self.old.load.verdict) × (self.new.load.rounds ≡ self.old.load.rounds) }
        ensures counts { counts_of self.new.load.sources ≡ with_end (counts_of self.old.load.sources) source }
        ensures table { self.new.load.table ≡ self.old.load.table }
        ensures claimed { self.new.claimed ≡ self.old.claimed }
    {
        self.load.end(source);
    }

    /// Returns the load: its verdict, its rounds, and what it takes.
    pub fn load(&self) -> &InPlaceSession<A>
        ensures { result.now ≡ self.now.load }
    {
        &self.load
    }

    /// Returns how many pages are claimed. `feed` is for when there is none.
    pub fn claimed(&self) -> u64
        ensures { result ≡ length self.now.claimed.marked }
    {
        self.claimed.count()
    }
}
