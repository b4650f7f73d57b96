//! A load of several channels into blocks of C by whole rounds. The pages of the open round are
//! kept apart from the blocks until the round was judged: so between two calls the blocks have the
//! rounds counted, and nothing else.

ghost use Rattle.std.specs.Prelude.{◌≡◌, ◌≢◌, ◌≤◌, ◌<◌, ◌+◌, ◌^◌, ◌↔◌, IsFalse, IfOk, None, Some, length, take};
ghost use Rattle.mig_mem.specs.RamTable.{RamTable};
ghost use Rattle.mig_mem.specs.Lent.{mut_lent_bytes};
ghost use Rattle.mig_staged.specs.Staged.{staged};
ghost use Rattle.mig_answer.specs.declared.verdict.Verdict.TheVariants.{Running};
ghost use Rattle.mig_sources.specs.Sources.{HasSource, count_of, feed_step};
ghost use Rattle.mig_sources.specs.declared.source.Source.TheVariants as from_source;
ghost use Rattle.mig_in_place.specs.Sources.{counts_of};
ghost use Rattle.mig_in_place.specs.WholeRounds.{KeepsRounds};
ghost use Rattle.mig_c_calls.specs.Status.{done, no_memory};
ghost use Rattle.mig_c_loads.specs.Found.{seen_of_verdict};
ghost use Rattle.mig_c_loads.specs.InPlaceSessions.{BeginsInto, FeedsMemory, TellsTaken, TellsTakes, TellsClosedAt, TellsValidUpTo, TellsFault, TellsAllRounds, TellsMissing};
ghost use Rattle.mig_c_loads.specs.ByRounds.{HasNoRound, HasNoneOpen, FeedsKept, FeedsRounds, EndsRounds, ClaimsNone, TakesNone};
ghost use Rattle.mig_c_loads.specs.ZeroBlocks.{AreZerosBut, filled_at_first};

use crate::fault::FoundFault;
use crate::lent::{LentBlocks, nothing_filled, put_back, taken_out};
use crate::seen::{closed_at, refusal, report_fault, seen_verdict, valid_up_to};
use mig_c_calls::status::{BAD_SOURCE, DONE, MAX_LIMIT, NO_MEMORY, OUT_OF_TURN, TO_FEED};
use mig_in_place::InPlaceSession;
use mig_load_types::{LoadSettings, RoundEnd};
use mig_marking::Fresh;
use mig_mem::{Dirty, GuestTarget, NoMemory, Table};
use mig_sources::Source;
use mig_staged::{OpenPages, Staged};
use mig_stream::Frame;
use std::alloc::Global;
use std::marker::Model;
use uuid::Uuid;

/// The values that a load keeps between its calls. The table is kept next to the state, for the
/// memory that a call makes of C's blocks.
pub struct HeldRounds {
    load: InPlaceSession<Global>,
    // both Some between two calls
    table: Option<Table<Global>>,
    round: Option<OpenPages<Global>>,
    // the pages that may hold something else than zeros, if the blocks were zeros
    filled: Option<Dirty<Global>>,
}

// Written out, so that a caller's proof passes a call where a value is dropped.
impl Drop for HeldRounds {
    fn drop(self) {
        let HeldRounds {
            load: _,
            table: _,
            round: _,
            filled: _,
        } = self;
    }
}

impl Model for HeldRounds {
    ghost use Rattle.std.specs.Prelude.{◌≡◌, Some, IfSome, IsSome};
    ghost use Rattle.mig_c_loads.specs.ByRounds.{RoundsLoad};
    ghost use Rattle.mig_c_loads.specs.ZeroBlocks.{Into};

    ghost Value = { Into RoundsLoad };

    ghost view = { λ h. record { load = record { load = h.load; apart = h.round }; filled = h.filled } };

    ghost invariant = { λ h. (h.table ≡ Some h.load.table) × IsSome h.round × IfSome h.round (λ o. o.apart.table ≡ h.load.table) × IfSome h.filled (λ f. f.table ≡ h.load.table) };
}

// Feeds a piece into a memory of the load's table that keeps the open round apart.
fn feed_memory<M: GuestTarget>(
    load: &mut InPlaceSession<Global>,
    memory: &mut Staged<M, Global>,
    source: Source,
    piece: &[u8],
    taken: &mut usize,
) -> u32
    requires table { memory.old.kept.table ≡ load.old.table }
    requires source { HasSource (counts_of load.old.sources) source }
    requires open { IsFalse (count_of (counts_of load.old.sources) source).ended }
    requires room { (count_of (counts_of load.old.sources) source).fed + length piece.now < 2 ^ 64 }
    requires none { taken.old ≡ 0 }
    ensures feeds { FeedsMemory source piece.now (staged memory.old) (staged memory.new) taken.new result load.old load.new }
    ensures keeps { result ≡ done → KeepsRounds (feed_step source (take taken.new piece.now)) (staged memory.old) memory.old.kept load.old memory.new.kept load.new }
    ensures still_keeps { result ≡ no_memory → KeepsRounds (feed_step source piece.now) (staged memory.old) memory.old.kept load.old memory.new.kept load.new }
    ensures table { memory.new.kept.table ≡ memory.old.kept.table }
{
    match load.feed_rounds(memory, source, piece) {
        Ok(count) => {
            *taken = count;
            DONE
        }
        Err(_) => NO_MEMORY,
    }
}

// Feeds a piece into C's blocks, with the load's table and the open round, which it returns.
fn feed_blocks(
    alloc: Global,
    load: &mut InPlaceSession<Global>,
    table: Table<Global>,
    round: OpenPages<Global>,
    blocks: &mut [&mut [u8]],
    source: Source,
    piece: &[u8],
    taken: &mut usize,
) -> (Table<Global>, OpenPages<Global>, u32)
    requires table { table ≡ load.old.table }
    requires round { round.apart.table ≡ load.old.table }
    ensures table { result.0 ≡ load.new.table }
    ensures round { result.1.apart.table ≡ load.new.table }
    ensures feeds { FeedsRounds source piece.now (mut_lent_bytes blocks.old) (mut_lent_bytes blocks.new) taken.new result.2 (record { load = load.old; apart = Some round }) (record { load = load.new; apart = Some result.1 }) }
{
    *taken = 0;
    let status = refusal(load, blocks, source, piece.len());
    if status != DONE {
        return (table, round, status);
    }
    let Ok(list) = taken_out(alloc, blocks) else {
        return (table, round, NO_MEMORY);
    };
    let memory = LentBlocks {
        table,
        blocks: list,
    };
    let mut staged = Staged::from_parts(memory, round);
    let status = feed_memory(load, &mut staged, source, piece, taken);
    let (memory, round) = staged.into_parts();
    let LentBlocks {
        table,
        blocks: mut list,
    } = memory;
    put_back(&mut list, blocks);
    (table, round, status)
}

// Feeds a piece into C's blocks, which are zeros but for `filled`, with the load's table and the
// open round. It returns the three.
fn feed_zero_blocks(
    alloc: Global,
    load: &mut InPlaceSession<Global>,
    table: Table<Global>,
    round: OpenPages<Global>,
    filled: Dirty<Global>,
    blocks: &mut [&mut [u8]],
    source: Source,
    piece: &[u8],
    taken: &mut usize,
) -> (Table<Global>, OpenPages<Global>, Dirty<Global>, u32)
    requires table { table ≡ load.old.table }
    requires round { round.apart.table ≡ load.old.table }
    requires filled { filled.table ≡ table }
    requires zeros { AreZerosBut (Some filled) (mut_lent_bytes blocks.old) }
    ensures table { result.0 ≡ load.new.table }
    ensures round { result.1.apart.table ≡ load.new.table }
    ensures filled { result.2.table ≡ result.0 }
    ensures zeros { AreZerosBut (Some result.2) (mut_lent_bytes blocks.new) }
    ensures feeds { FeedsRounds source piece.now (mut_lent_bytes blocks.old) (mut_lent_bytes blocks.new) taken.new result.3 (record { load = load.old; apart = Some round }) (record { load = load.new; apart = Some result.1 }) }
{
    *taken = 0;
    let status = refusal(load, blocks, source, piece.len());
    if status != DONE {
        return (table, round, filled, status);
    }
    let Ok(list) = taken_out(alloc, blocks) else {
        return (table, round, filled, NO_MEMORY);
    };
    let memory = LentBlocks {
        table,
        blocks: list,
    };
    let mut staged = Staged::from_parts(Fresh::from_parts(memory, filled), round);
    let status = feed_memory(load, &mut staged, source, piece, taken);
    let (fresh, round) = staged.into_parts();
    let (memory, filled) = fresh.into_parts();
    let LentBlocks {
        table,
        blocks: mut list,
    } = memory;
    put_back(&mut list, blocks);
    (table, round, filled, status)
}

impl HeldRounds {
    /// Creates a load into blocks of `table`, which it copies. No bytes were taken, and no round is
    /// open. `zero_blocks` is whether the blocks are zeros.
    pub fn new(
        alloc: Global,
        table: &Table<Global>,
        uuid: &Uuid,
        channels: usize,
        frame: Frame,
        waiting: Option<u64>,
        round_end: RoundEnd,
        zero_blocks: bool,
    ) -> Result<HeldRounds, NoMemory>
        requires channels { (1 ≤ channels) × (channels ≤ 255) }
        ensures begins { IfOk result (λ s. BeginsInto table.now uuid.now channels frame waiting round_end s.load.load) }
        ensures alone { IfOk result (λ s. HasNoRound table.now uuid.now channels frame waiting round_end s.load.load) }
        ensures none { IfOk result (λ s. HasNoneOpen s.load.apart) }
        ensures filled { IfOk result (λ s. s.filled ≡ filled_at_first zero_blocks table.now) }
    {
        let settings = LoadSettings {
            page_size: table.page_size(),
            limit: MAX_LIMIT,
            frame,
            waiting,
            round_end,
        };
        let load = InPlaceSession::new(alloc, settings, table, uuid, channels)?;
        let round = Some(OpenPages::none(alloc, table)?);
        let filled = nothing_filled(alloc, table, zero_blocks)?;
        let table = Some(table.copy_in(alloc)?);
        Ok(HeldRounds {
            load,
            table,
            round,
            filled,
        })
    }

    /// Takes the first bytes of a piece of a source. Of the rounds that were judged lawful with
    /// them it copies the pages into C's blocks.
    pub fn feed(
        &mut self,
        alloc: Global,
        blocks: &mut [&mut [u8]],
        source: Source,
        piece: &[u8],
        taken: &mut usize,
    ) -> u32
        requires zeros { AreZerosBut self.old.filled (mut_lent_bytes blocks.old) }
        ensures feeds { FeedsRounds source piece.now (mut_lent_bytes blocks.old) (mut_lent_bytes blocks.new) taken.new result self.old.load self.new.load }
        ensures zeros { AreZerosBut self.new.filled (mut_lent_bytes blocks.new) }
        ensures kept { self.new.filled ≡ None ↔ self.old.filled ≡ None }
    {
        let Some(table) = self.table.take() else {
            unreachable!();
        };
        let Some(round) = self.round.take() else {
            unreachable!();
        };
        let load = &mut self.load;
        let Some(filled) = self.filled.take() else {
            let (table, round, status) = feed_blocks(
                alloc, load, table, round, blocks, source, piece, taken,
            );
            self.table = Some(table);
            self.round = Some(round);
            return status;
        };
        let (table, round, filled, status) = feed_zero_blocks(
            alloc, load, table, round, filled, blocks, source, piece, taken,
        );
        self.table = Some(table);
        self.round = Some(round);
        self.filled = Some(filled);
        status
    }

    /// Ends a source.
    pub fn end(&mut self, source: Source) -> u32
        ensures ends { EndsRounds source result self.old.load self.new.load }
        ensures filled { self.new.filled ≡ self.old.filled }
    {
        if !self.load.has(source) {
            return BAD_SOURCE;
        }
        self.load.end(source);
        DONE
    }

    /// Returns that a packet of a channel is to be fed, since its places can't be claimed.
    pub fn claim(&self, channel: usize) -> u32
        ensures { ClaimsNone (from_source.Channel channel) result self.now.load }
    {
        if self.load.has(Source::Channel(channel)) {
            TO_FEED
        } else {
            BAD_SOURCE
        }
    }

    /// Returns that no packet of a channel is taken, since none was claimed.
    pub fn take(&self, channel: usize) -> u32
        ensures { TakesNone (from_source.Channel channel) result self.now.load }
    {
        if self.load.has(Source::Channel(channel)) {
            OUT_OF_TURN
        } else {
            BAD_SOURCE
        }
    }

    /// Returns whether bytes of a source are taken now.
    pub fn takes(&self, source: Source) -> bool
        ensures { TellsTakes source result self.now.load.load }
    {
        self.load.has(source) && self.load.takes(source)
    }

    /// Returns how many bytes of a source were taken.
    pub fn fed(&self, source: Source) -> u64
        ensures { TellsTaken source result self.now.load.load }
    {
        if self.load.has(source) {
            self.load.fed(source)
        } else {
            0
        }
    }

    /// Reports how many of the bytes taken the main stream has, once it is closed.
    pub fn closed_at(&self, at: &mut u64) -> u32
        ensures { TellsClosedAt result at.old at.new self.now.load.load }
    {
        closed_at(&self.load, at)
    }

    /// Returns whether it is known how many of the bytes taken of a source are complete items
    /// without a fault, and reports how many.
    pub fn valid_up_to(&self, source: Source, at: &mut u64) -> bool
        ensures { TellsValidUpTo source result at.old at.new self.now.load.load }
    {
        valid_up_to(&self.load, source, at)
    }

    /// Reports the fault of a source's own bytes, or that they have none.
    pub fn fault_of(&self, source: Source, found: &mut FoundFault) -> u32
        ensures { TellsFault source result found.old found.new self.now.load.load }
    {
        report_fault(&self.load, source, found)
    }

    /// Returns whether all rounds are in.
    pub fn has_all_rounds(&self) -> bool
        ensures { TellsAllRounds result self.now.load.load }
    {
        self.load.has_all_rounds()
    }

    /// Returns the verdict on the bytes taken, as C sees it.
    pub fn verdict(&self) -> FoundFault
        ensures { result ≡ seen_of_verdict self.now.load.load.rounds self.now.load.load.verdict }
    {
        seen_verdict(&self.load)
    }

    /// Returns how many rounds were judged lawful.
    pub fn rounds(&self) -> u64
        ensures { result ≡ self.now.load.load.rounds }
    {
        self.load.rounds()
    }

    /// Returns how many pages of the blocks no record and no packet of these rounds named.
    pub fn missing(&self) -> u64
        ensures { TellsMissing result self.now.load.load }
    {
        self.load.missing()
    }
}
