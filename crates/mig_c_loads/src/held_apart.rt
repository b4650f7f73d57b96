//! A load of several channels whose pages C reads straight to their places, apart from its calls.
//! Neither the blocks nor the pages are part of it: the blocks are passed to the call that feeds
//! it, and the pages to the one that takes their packet.

ghost use Rattle.std.specs.Prelude.{◌≡◌, ◌≤◌, ◌<◌, ◌+◌, ◌^◌, ◌↔◌, [], IsFalse, IfOk, IfSome, None, Some, length};
ghost use Rattle.mig_mem.specs.RamTable.{RamTable};
ghost use Rattle.mig_assemble.specs.HeadPlaces.{LieIn};
ghost use Rattle.mig_mem.specs.Lent.{mut_lent_bytes, lent_bytes};
ghost use Rattle.mig_sources.specs.Sources.{HasSource, count_of};
ghost use Rattle.mig_in_place.specs.Sources.{counts_of};
ghost use Rattle.mig_c_loads.specs.Found.{seen_of_verdict};
ghost use Rattle.mig_c_loads.specs.InPlaceSessions.{BeginsInto, FeedsMemory, FeedsBlocks, TellsTaken, TellsTakes, TellsClosedAt, TellsValidUpTo, TellsFault, TellsAllRounds, TellsMissing};
ghost use Rattle.mig_c_loads.specs.Apart.{ClaimsHead, TakesHead, FillsTaken, FeedsApart, EndsApart};
ghost use Rattle.mig_c_loads.specs.Filling.{FillsPacket};
ghost use Rattle.mig_c_loads.specs.ZeroBlocks.{AreZerosBut, filled_at_first};

use crate::claimed_pages::{ClaimedPages, list_packet};
use crate::fault::FoundFault;
use crate::filling::{fill_packet, leave_out_zeros};
use crate::lent::{LentBlocks, nothing_filled, put_back, taken_out};
use crate::seen::{closed_at, refusal, report_fault, seen_verdict, valid_up_to};
use mig_apart::{ApartSession, Claim};
use mig_c_calls::status::{
    BAD_SOURCE, DONE, IS_CLAIMED, MAX_LIMIT, NO_MEMORY, OUT_OF_TURN, RUNNING, TO_FEED,
};
use mig_load_types::{LoadSettings, RoundEnd};
use mig_marking::Fresh;
use mig_mem::{Dirty, GuestTarget, NoMemory, Table};
use mig_packet::PacketHead;
use mig_sources::Source;
use mig_stream::Frame;
use std::alloc::Global;
use std::marker::Model;
use uuid::Uuid;

/// The values that a load keeps between its calls. The table is kept next to the state, for the
/// memory that a call makes of C's blocks.
pub struct HeldApart {
    session: ApartSession<Global>,
    // Some between two calls
    table: Option<Table<Global>>,
    // the pages that may hold something else than zeros, if the blocks were zeros
    filled: Option<Dirty<Global>>,
}

// Written out, so that a caller's proof passes a call where a value is dropped.
impl Drop for HeldApart {
    fn drop(self) {
        let HeldApart {
            session: _,
            table: _,
            filled: _,
        } = self;
    }
}

impl Model for HeldApart {
    ghost use Rattle.std.specs.Prelude.{◌≡◌, Some, IfSome};
    ghost use Rattle.mig_apart.specs.Claims.{ApartLoad};
    ghost use Rattle.mig_c_loads.specs.ZeroBlocks.{Into};

    ghost Value = { Into ApartLoad };

    ghost view = { λ h. record { load = h.session; filled = h.filled } };

    ghost invariant = { λ h. (h.table ≡ Some h.session.load.table) × IfSome h.filled (λ f. f.table ≡ h.session.load.table) };
}

// Feeds a piece into a memory of the load's table. Nothing is claimed.
fn feed_memory<M: GuestTarget>(
    session: &mut ApartSession<Global>,
    memory: &mut M,
    source: Source,
    piece: &[u8],
    taken: &mut usize,
) -> u32
    requires nothing { length session.old.claimed.marked ≡ 0 }
    requires table { (M.image memory.old).table ≡ session.old.load.table }
    requires source { HasSource (counts_of session.old.load.sources) source }
    requires open { IsFalse (count_of (counts_of session.old.load.sources) source).ended }
    requires room { (count_of (counts_of session.old.load.sources) source).fed + length piece.now < 2 ^ 64 }
    requires none { taken.old ≡ 0 }
    ensures feeds { FeedsMemory source piece.now (M.image memory.old) (M.image memory.new) taken.new result session.old.load session.new.load }
    ensures table { (M.image memory.new).table ≡ (M.image memory.old).table }
    ensures claimed { session.new.claimed ≡ session.old.claimed }
{
    match session.feed(memory, source, piece) {
        Ok(count) => {
            *taken = count;
            DONE
        }
        Err(_) => NO_MEMORY,
    }
}

// Feeds a piece into C's blocks, with the load's table, which it returns.
fn feed_blocks(
    alloc: Global,
    session: &mut ApartSession<Global>,
    table: Table<Global>,
    blocks: &mut [&mut [u8]],
    source: Source,
    piece: &[u8],
    taken: &mut usize,
) -> (Table<Global>, u32)
    requires nothing { length session.old.claimed.marked ≡ 0 }
    requires table { table ≡ session.old.load.table }
    ensures table { result.0 ≡ session.new.load.table }
    ensures feeds { FeedsBlocks source piece.now (mut_lent_bytes blocks.old) (mut_lent_bytes blocks.new) taken.new result.1 session.old.load session.new.load }
    ensures claimed { session.new.claimed ≡ session.old.claimed }
{
    *taken = 0;
    let status = refusal(session.load(), blocks, source, piece.len());
    if status != DONE {
        return (table, status);
    }
    let Ok(list) = taken_out(alloc, blocks) else {
        return (table, NO_MEMORY);
    };
    let mut memory = LentBlocks {
        table,
        blocks: list,
    };
    let status = feed_memory(session, &mut memory, source, piece, taken);
    let LentBlocks {
        table,
        blocks: mut list,
    } = memory;
    put_back(&mut list, blocks);
    (table, status)
}

// Feeds a piece into C's blocks, which are zeros but for `filled`, with the load's table. It
// returns both.
fn feed_zero_blocks(
    alloc: Global,
    session: &mut ApartSession<Global>,
    table: Table<Global>,
    filled: Dirty<Global>,
    blocks: &mut [&mut [u8]],
    source: Source,
    piece: &[u8],
    taken: &mut usize,
) -> (Table<Global>, Dirty<Global>, u32)
    requires nothing { length session.old.claimed.marked ≡ 0 }
    requires table { table ≡ session.old.load.table }
    requires filled { filled.table ≡ table }
    requires zeros { AreZerosBut (Some filled) (mut_lent_bytes blocks.old) }
    ensures table { result.0 ≡ session.new.load.table }
    ensures filled { result.1.table ≡ result.0 }
    ensures zeros { AreZerosBut (Some result.1) (mut_lent_bytes blocks.new) }
    ensures feeds { FeedsBlocks source piece.now (mut_lent_bytes blocks.old) (mut_lent_bytes blocks.new) taken.new result.2 session.old.load session.new.load }
    ensures claimed { session.new.claimed ≡ session.old.claimed }
{
    *taken = 0;
    let status = refusal(session.load(), blocks, source, piece.len());
    if status != DONE {
        return (table, filled, status);
    }
    let Ok(list) = taken_out(alloc, blocks) else {
        return (table, filled, NO_MEMORY);
    };
    let memory = LentBlocks {
        table,
        blocks: list,
    };
    let mut fresh = Fresh::from_parts(memory, filled);
    let status = feed_memory(session, &mut fresh, source, piece, taken);
    let (memory, filled) = fresh.into_parts();
    let LentBlocks {
        table,
        blocks: mut list,
    } = memory;
    put_back(&mut list, blocks);
    (table, filled, status)
}

// Notes the pages of a packet that was taken, if the blocks were zeros.
fn fill(filled: &mut Option<Dirty<Global>>, head: &PacketHead<'_>, block: usize)
    requires page_size { IfSome filled.old (λ f. head.now.page_size ≡ f.table.page_size) }
    requires lies { IfSome filled.old (λ f. LieIn f.table block head.now.bytes.now) }
    ensures { (table : RamTable) → IfSome filled.old (λ f. f.table ≡ table) → FillsPacket table block head.now.bytes.now filled.old filled.new }
{
    if let Some(filled) = filled.as_mut() {
        fill_packet(filled, head, block);
    }
}

impl HeldApart {
    /// Creates a load into blocks of `table`, which it copies. No bytes were taken, and nothing is
    /// claimed. `zero_blocks` is whether the blocks are zeros.
    pub fn new(
        alloc: Global,
        table: &Table<Global>,
        uuid: &Uuid,
        channels: usize,
        frame: Frame,
        waiting: Option<u64>,
        round_end: RoundEnd,
        zero_blocks: bool,
    ) -> Result<HeldApart, NoMemory>
        requires channels { (1 ≤ channels) × (channels ≤ 255) }
        ensures begins { IfOk result (λ s. BeginsInto table.now uuid.now channels frame waiting round_end s.load.load) }
        ensures none { IfOk result (λ s. s.load.claimed.marked ≡ []) }
        ensures filled { IfOk result (λ s. s.filled ≡ filled_at_first zero_blocks table.now) }
    {
        let settings = LoadSettings {
            page_size: table.page_size(),
            limit: MAX_LIMIT,
            frame,
            waiting,
            round_end,
        };
        let session = ApartSession::new(alloc, settings, table, uuid, channels)?;
        let filled = nothing_filled(alloc, table, zero_blocks)?;
        let table = Some(table.copy_in(alloc)?);
        Ok(HeldApart {
            session,
            table,
            filled,
        })
    }

    /// Claims the places of the next packet of a channel, by its head, and reports them in `pages`.
    /// If the blocks were zeros, a page of zeros that holds nothing else isn't reported.
    pub fn claim(&mut self, channel: usize, head: &[u8], pages: &mut ClaimedPages) -> u32
        ensures claims { ClaimsHead channel head.now result pages.old pages.new self.old.filled self.old.load self.new.load }
        ensures filled { self.new.filled ≡ self.old.filled }
    {
        if !self.session.load().has(Source::Channel(channel)) {
            return BAD_SOURCE;
        }
        match self.session.claim(channel, head) {
            Claim::Pages(head, block) => {
                let table = self.session.load().table();
                table.keeps_limits();
                list_packet(&head, table.page_size(), block, pages);
                if let Some(filled) = &self.filled {
                    leave_out_zeros(filled, block, pages);
                }
                RUNNING
            }
            Claim::Wait => IS_CLAIMED,
            Claim::Feed => TO_FEED,
        }
    }

    /// Takes the packet of a channel whose places were claimed, once its pages are there.
    pub fn take(&mut self, channel: usize, head: &[u8], contents: &[&[u8]]) -> u32
        ensures takes { TakesHead channel head.now (lent_bytes contents.now) result self.old.load self.new.load }
        ensures filled { FillsTaken head.now result self.old.load self.old.filled self.new.filled }
    {
        if !self.session.load().has(Source::Channel(channel)) {
            return BAD_SOURCE;
        }
        let Some((found, block)) = self.session.load().next_packet(channel, head) else {
            return OUT_OF_TURN;
        };
        match self.session.take(channel, head, contents) {
            Ok(true) => {
                fill(&mut self.filled, &found, block);
                RUNNING
            }
            Ok(false) => OUT_OF_TURN,
            Err(NoMemory) => NO_MEMORY,
        }
    }

    /// Takes the first bytes of a piece of a source, and writes their pages into C's blocks, while
    /// nothing is claimed.
    pub fn feed(
        &mut self,
        alloc: Global,
        blocks: &mut [&mut [u8]],
        source: Source,
        piece: &[u8],
        taken: &mut usize,
    ) -> u32
        requires zeros { AreZerosBut self.old.filled (mut_lent_bytes blocks.old) }
        ensures feeds { FeedsApart source piece.now (mut_lent_bytes blocks.old) (mut_lent_bytes blocks.new) taken.new result self.old.load self.new.load }
        ensures zeros { AreZerosBut self.new.filled (mut_lent_bytes blocks.new) }
        ensures kept { self.new.filled ≡ None ↔ self.old.filled ≡ None }
    {
        if self.session.claimed() != 0 {
            *taken = 0;
            return OUT_OF_TURN;
        }
        let Some(table) = self.table.take() else {
            unreachable!();
        };
        let session = &mut self.session;
        let Some(filled) = self.filled.take() else {
            let (table, status) = feed_blocks(alloc, session, table, blocks, source, piece, taken);
            self.table = Some(table);
            return status;
        };
        let (table, filled, status) = feed_zero_blocks(
            alloc, session, table, filled, blocks, source, piece, taken,
        );
        self.table = Some(table);
        self.filled = Some(filled);
        status
    }

    /// Ends a source.
    pub fn end(&mut self, source: Source) -> u32
        ensures ends { EndsApart source result self.old.load self.new.load }
        ensures filled { self.new.filled ≡ self.old.filled }
    {
        if !self.session.load().has(source) {
            return BAD_SOURCE;
        }
        self.session.end(source);
        DONE
    }

    /// Returns how many pages are claimed.
    pub fn claimed(&self) -> u64
        ensures { result ≡ length self.now.load.claimed.marked }
    {
        self.session.claimed()
    }

    /// Returns whether bytes of a source are taken now.
    pub fn takes(&self, source: Source) -> bool
        ensures { TellsTakes source result self.now.load.load }
    {
        let load = self.session.load();
        load.has(source) && load.takes(source)
    }

    /// Returns how many bytes of a source were taken.
    pub fn fed(&self, source: Source) -> u64
        ensures { TellsTaken source result self.now.load.load }
    {
        let load = self.session.load();
        if load.has(source) {
            load.fed(source)
        } else {
            0
        }
    }

    /// Reports how many of the bytes taken the main stream has, once it is closed.
    pub fn closed_at(&self, at: &mut u64) -> u32
        ensures { TellsClosedAt result at.old at.new self.now.load.load }
    {
        closed_at(self.session.load(), at)
    }

    /// Returns whether it is known how many of the bytes taken of a source are complete items
    /// without a fault, and reports how many.
    pub fn valid_up_to(&self, source: Source, at: &mut u64) -> bool
        ensures { TellsValidUpTo source result at.old at.new self.now.load.load }
    {
        valid_up_to(self.session.load(), source, at)
    }

    /// Reports the fault of a source's own bytes, or that they have none.
    pub fn fault_of(&self, source: Source, found: &mut FoundFault) -> u32
        ensures { TellsFault source result found.old found.new self.now.load.load }
    {
        report_fault(self.session.load(), source, found)
    }

    /// Returns whether all rounds are in.
    pub fn has_all_rounds(&self) -> bool
        ensures { TellsAllRounds result self.now.load.load }
    {
        self.session.load().has_all_rounds()
    }

    /// Returns the verdict on the bytes taken, as C sees it.
    pub fn verdict(&self) -> FoundFault
        ensures { result ≡ seen_of_verdict self.now.load.load.rounds self.now.load.load.verdict }
    {
        seen_verdict(self.session.load())
    }

    /// Returns how many rounds were judged lawful.
    pub fn rounds(&self) -> u64
        ensures { result ≡ self.now.load.load.rounds }
    {
        self.session.load().rounds()
    }

    /// Returns how many pages of the blocks no record and no packet of these rounds named.
    pub fn missing(&self) -> u64
        ensures { TellsMissing result self.now.load.load }
    {
        self.session.load().missing()
    }
}
