//! A load of one stream into blocks of C by whole sections. The blocks aren't part of it: they are
//! passed to the call that feeds it. Its only source is the main stream.

ghost use Rattle.std.specs.Prelude.{◌≡◌, ◌≢◌, ◌<◌, ◌+◌, ◌^◌, ◌↔◌, IsFalse, IfOk, None, Some, length};
ghost use Rattle.mig_mem.specs.Lent.{mut_lent_bytes, lent_image};
ghost use Rattle.mig_c_calls.specs.Status.{done, bad_source};
ghost use Rattle.mig_c_loads.specs.OneStream.{CountsOne};
ghost use Rattle.mig_c_loads.specs.BySections.{BeginsSections, FeedsSectionsMemory, FeedsSections, EndsSections, TakesSections, TellsVerdict, TellsFaultOf, TellsClosedAt, TellsAllIn, TellsValidUpTo, TellsMissing};
ghost use Rattle.mig_sources.specs.declared.source.Source.TheVariants.{Main as main_source};
ghost use Rattle.mig_c_loads.specs.ZeroBlocks.{AreZerosBut, filled_at_first};

use crate::fault::{FoundFault, of_verdict};
use crate::lent::{LentBlocks, nothing_filled, put_back, refusal, taken_out};
use crate::one_stream::{fault_in, is_main};
use mig_c_calls::status::{BAD_SOURCE, DONE, MAX_LIMIT, NO_MEMORY, RUNNING};
use mig_load_types::{LoadSettings, RoundEnd};
use mig_marking::Fresh;
use mig_mem::{Dirty, GuestTarget, NoMemory, Table};
use mig_sections::SectionsLoad;
use mig_sources::Source;
use mig_stream::Frame;
use std::alloc::Global;
use std::marker::Model;

/// The values that a load keeps between its calls. The table is kept next to the state, for the
/// memory that a call makes of C's blocks.
pub struct HeldSections {
    state: SectionsLoad<Global>,
    // there between two calls
    table: Option<Table<Global>>,
    // the pages that may hold something else than zeros, if the blocks were zeros
    filled: Option<Dirty<Global>>,
}

// Written out, so that a caller's proof passes a call where a value is dropped.
impl Drop for HeldSections {
    fn drop(self) {
        let HeldSections {
            state: _,
            table: _,
            filled: _,
        } = self;
    }
}

impl Model for HeldSections {
    ghost use Rattle.std.specs.Prelude.{◌≡◌, Some, IfSome};
    ghost use Rattle.mig_sections.specs.Sections.{SectionsLoad};
    ghost use Rattle.mig_c_loads.specs.ZeroBlocks.{Into};

    ghost Value = { Into SectionsLoad };

    ghost view = { λ h. record { load = h.state; filled = h.filled } };

    ghost invariant = { λ h. (h.table ≡ Some h.state.table) × IfSome h.filled (λ f. f.table ≡ h.state.table) };
}

// Feeds a piece into a memory of the load's table.
fn feed_memory<M: GuestTarget>(
    state: &mut SectionsLoad<Global>,
    memory: &mut M,
    piece: &[u8],
) -> u32
    requires table { (M.image memory.old).table ≡ state.old.table }
    requires open { IsFalse state.old.ended }
    requires room { state.old.fed + length piece.now < 2 ^ 63 }
    ensures feeds { FeedsSectionsMemory piece.now (M.image memory.old) (M.image memory.new) result state.old state.new }
    ensures table { (M.image memory.new).table ≡ (M.image memory.old).table }
{
    match state.feed(memory, piece) {
        Ok(()) => DONE,
        Err(_) => NO_MEMORY,
    }
}

// Feeds a piece of the main stream into C's blocks, with the load's table, which it returns.
fn feed_blocks(
    alloc: Global,
    state: &mut SectionsLoad<Global>,
    table: Table<Global>,
    blocks: &mut [&mut [u8]],
    piece: &[u8],
    taken: &mut usize,
) -> (Table<Global>, u32)
    requires table { table ≡ state.old.table }
    requires none { taken.old ≡ 0 }
    ensures table { result.0 ≡ state.new.table }
    ensures named { result.1 ≢ bad_source }
    ensures feeds { FeedsSections main_source piece.now (mut_lent_bytes blocks.old) (mut_lent_bytes blocks.new) taken.new result.1 state.old state.new }
{
    let status = refusal(state.table(), state.fed(), state.ended(), blocks, piece);
    if status != DONE {
        return (table, status);
    }
    let Ok(list) = taken_out(alloc, blocks) else {
        return (table, NO_MEMORY);
    };
    let mut memory = LentBlocks {
        table,
        blocks: list,
    };
    let status = feed_memory(state, &mut memory, piece);
    let LentBlocks {
        table,
        blocks: mut list,
    } = memory;
    put_back(&mut list, blocks);
    if status == DONE {
        *taken = piece.len();
    }
    (table, status)
}

// Feeds a piece of the main stream into C's blocks, which are zeros but for `filled`, with the
// load's table. It returns both.
fn feed_zero_blocks(
    alloc: Global,
    state: &mut SectionsLoad<Global>,
    table: Table<Global>,
    filled: Dirty<Global>,
    blocks: &mut [&mut [u8]],
    piece: &[u8],
    taken: &mut usize,
) -> (Table<Global>, Dirty<Global>, u32)
    requires table { table ≡ state.old.table }
    requires filled { filled.table ≡ table }
    requires zeros { AreZerosBut (Some filled) (mut_lent_bytes blocks.old) }
    requires none { taken.old ≡ 0 }
    ensures table { result.0 ≡ state.new.table }
    ensures filled { result.1.table ≡ result.0 }
    ensures zeros { AreZerosBut (Some result.1) (mut_lent_bytes blocks.new) }
    ensures feeds { FeedsSections main_source piece.now (mut_lent_bytes blocks.old) (mut_lent_bytes blocks.new) taken.new result.2 state.old state.new }
{
    let status = refusal(state.table(), state.fed(), state.ended(), blocks, piece);
    if status != DONE {
        return (table, filled, status);
    }
    let Ok(list) = taken_out(alloc, blocks) else {
        return (table, filled, NO_MEMORY);
    };
    let memory = LentBlocks {
        table,
        blocks: list,
    };
    let mut fresh = Fresh::from_parts(memory, filled);
    let status = feed_memory(state, &mut fresh, piece);
    let (memory, filled) = fresh.into_parts();
    let LentBlocks {
        table,
        blocks: mut list,
    } = memory;
    put_back(&mut list, blocks);
    if status == DONE {
        *taken = piece.len();
    }
    (table, filled, status)
}

impl HeldSections {
    /// Creates a load into blocks of `table`, which it copies. No bytes were fed. `zero_blocks` is
    /// whether the blocks are zeros.
    pub fn new(
        alloc: Global,
        table: &Table<Global>,
        frame: Frame,
        waiting: Option<u64>,
        zero_blocks: bool,
    ) -> Result<HeldSections, NoMemory>
        ensures begins { IfOk result (λ s. BeginsSections table.now frame waiting s.load) }
        ensures filled { IfOk result (λ s. s.filled ≡ filled_at_first zero_blocks table.now) }
    {
        let settings = LoadSettings {
            page_size: table.page_size(),
            limit: MAX_LIMIT,
            frame,
            waiting,
            round_end: RoundEnd::Flush,
        };
        let state = SectionsLoad::new(alloc, settings, table)?;
        let filled = nothing_filled(alloc, table, zero_blocks)?;
        let table = Some(table.copy_in(alloc)?);
        Ok(HeldSections {
            state,
            table,
            filled,
        })
    }

    /// Takes the next piece of the main stream, and writes the pages of the sections that it
    /// completes into C's blocks. If these were zeros, a page of zeros that holds nothing else is
    /// left alone.
    pub fn feed(
        &mut self,
        alloc: Global,
        blocks: &mut [&mut [u8]],
        source: Source,
        piece: &[u8],
        taken: &mut usize,
    ) -> u32
        requires zeros { AreZerosBut self.old.filled (mut_lent_bytes blocks.old) }
        ensures feeds { FeedsSections source piece.now (mut_lent_bytes blocks.old) (mut_lent_bytes blocks.new) taken.new result self.old.load self.new.load }
        ensures zeros { AreZerosBut self.new.filled (mut_lent_bytes blocks.new) }
        ensures kept { self.new.filled ≡ None ↔ self.old.filled ≡ None }
    {
        *taken = 0;
        if !is_main(source) {
            return BAD_SOURCE;
        }
        let Some(table) = self.table.take() else {
            unreachable!();
        };
        let state = &mut self.state;
        let Some(filled) = self.filled.take() else {
            let (table, status) = feed_blocks(alloc, state, table, blocks, piece, taken);
            self.table = Some(table);
            return status;
        };
        let (table, filled, status) = feed_zero_blocks(
            alloc, state, table, filled, blocks, piece, taken,
        );
        self.table = Some(table);
        self.filled = Some(filled);
        status
    }

    /// Ends the main stream: no piece is fed after it.
    pub fn end(&mut self, source: Source) -> u32
        ensures ends { EndsSections source result self.old.load self.new.load }
        ensures filled { self.new.filled ≡ self.old.filled }
    {
        if !is_main(source) {
            return BAD_SOURCE;
        }
        self.state.end();
        DONE
    }

    /// Returns whether bytes of a source are read now.
    pub fn takes(&self, source: Source) -> bool
        ensures { TakesSections source result self.now.load }
    {
        if !is_main(source) {
            return false;
        }
        if self.state.ended() {
            return false;
        }
        self.state.goes_on()
    }

    /// Returns the verdict on the stream so far, as C sees it.
    pub fn verdict(&self) -> FoundFault
        ensures { TellsVerdict result self.now.load }
    {
        of_verdict(self.state.verdict(), self.state.ended())
    }

    /// Reports the fault of a source's bytes so far, or that they have none.
    pub fn fault_of(&self, source: Source, found: &mut FoundFault) -> u32
        ensures { TellsFaultOf source result found.old found.new self.now.load }
    {
        let verdict = self.verdict();
        if !is_main(source) {
            return BAD_SOURCE;
        }
        let fault = fault_in(verdict);
        *found = fault;
        fault.number
    }

    /// Returns how many bytes of a source were fed.
    pub fn fed(&self, source: Source) -> u64
        ensures { CountsOne source result self.now.load.fed }
    {
        if is_main(source) { self.state.fed() } else { 0 }
    }

    /// Reports how many of the bytes fed the stream has, once it is closed.
    pub fn closed_at(&self, at: &mut u64) -> u32
        ensures { TellsClosedAt result at.old at.new self.now.load }
    {
        match self.state.closed_at() {
            Some(count) => {
                *at = count;
                DONE
            }
            None => RUNNING,
        }
    }

    /// Returns whether all rounds are in: the stream is closed.
    pub fn has_all_rounds(&self) -> bool
        ensures { TellsAllIn result self.now.load }
    {
        let mut at = 0;
        self.closed_at(&mut at) == DONE
    }

    /// Returns whether it is known how many bytes of a source are complete items without a fault,
    /// and reports how many.
    pub fn valid_up_to(&self, source: Source, at: &mut u64) -> bool
        ensures { TellsValidUpTo source result at.old at.new self.now.load }
    {
        if !is_main(source) {
            return false;
        }
        match self.state.valid_up_to() {
            Some(count) => {
                *at = count;
                true
            }
            None => false,
        }
    }

    /// Returns how many sections are complete in the blocks.
    pub fn rounds(&self) -> u64
        ensures { result ≡ self.now.load.sections }
    {
        self.state.rounds()
    }

    /// Returns how many pages of the blocks no complete section named.
    pub fn missing(&self) -> u64
        ensures { TellsMissing result self.now.load }
    {
        self.state.missing()
    }
}
