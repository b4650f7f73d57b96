//! A load of one stream into blocks of C. The blocks aren't part of it: they are passed to the call
//! that feeds it.

ghost use Rattle.std.specs.Prelude.{◌≡◌, ◌<◌, ◌+◌, ◌^◌, ◌↔◌, IsFalse, IfOk, IfSome, None, Some, length};
ghost use Rattle.mig_mem.specs.Place.{IsPlace};
ghost use Rattle.mig_mem.specs.Lent.{mut_lent_bytes};
ghost use Rattle.mig_c_loads.specs.InPlace.{Begins, FeedsMemory, FeedsInPlace, EndsInPlace, TellsVerdict, TellsClosedAt, TellsValidUpTo, TellsMissing};
ghost use Rattle.mig_c_loads.specs.NextBytes.{TellsNext, TakesPage, FillsPage};
ghost use Rattle.mig_c_loads.specs.ZeroBlocks.{AreZerosBut, filled_at_first, with_filled};

use crate::fault::{FoundFault, of_verdict};
use crate::lent::{LentBlocks, nothing_filled, put_back, refusal, taken_out};
use crate::next_bytes::{NextBytes, next_page, take_page, wanted};
use mig_c_calls::status::{DONE, MAX_LIMIT, NO_MEMORY, RUNNING};
use mig_load_types::{LoadSettings, RoundEnd};
use mig_marking::Fresh;
use mig_mem::{Dirty, GuestTarget, NoMemory, Place, Table};
use mig_single_load::InPlaceState;
use mig_stream::Frame;
use std::alloc::Global;
use std::marker::Model;

/// The values that a load keeps between its calls. The table is kept next to the state, for the
/// memory that a call makes of C's blocks.
pub struct HeldLoad {
    state: InPlaceState<Global>,
    // there between two calls
    table: Option<Table<Global>>,
    // the pages that may hold something else than zeros, if the blocks were zeros
    filled: Option<Dirty<Global>>,
}

// Written out, so that a caller's proof passes a call where a value is dropped.
impl Drop for HeldLoad {
    fn drop(self) {
        let HeldLoad {
            state: _,
            table: _,
            filled: _,
        } = self;
    }
}

impl Model for HeldLoad {
    ghost use Rattle.std.specs.Prelude.{◌≡◌, Some, IfSome};
    ghost use Rattle.mig_single_load.specs.LoadInPlace.{LoadInPlace};
    ghost use Rattle.mig_c_loads.specs.ZeroBlocks.{Into};

    ghost Value = { Into LoadInPlace };

    ghost view = { λ h. record { load = h.state; filled = h.filled } };

    ghost invariant = { λ h. (h.table ≡ Some h.state.table) × IfSome h.filled (λ f. f.table ≡ h.state.table) };
}

// Feeds a piece into a memory of the load's table.
fn feed_memory<M: GuestTarget>(
    state: &mut InPlaceState<Global>,
    memory: &mut M,
    piece: &[u8],
) -> u32
    requires table { (M.image memory.old).table ≡ state.old.table }
    requires open { IsFalse state.old.ended }
    requires room { state.old.fed + length piece.now < 2 ^ 63 }
    ensures feeds { FeedsMemory piece.now (M.image memory.old) (M.image memory.new) result state.old state.new }
    ensures table { (M.image memory.new).table ≡ (M.image memory.old).table }
{
    match state.feed(memory, piece) {
        Ok(()) => DONE,
        Err(_) => NO_MEMORY,
    }
}

// Feeds a piece into C's blocks, with the load's table, which it returns.
fn feed_blocks(
    alloc: Global,
    state: &mut InPlaceState<Global>,
    table: Table<Global>,
    blocks: &mut [&mut [u8]],
    piece: &[u8],
) -> (Table<Global>, u32)
    requires table { table ≡ state.old.table }
    ensures table { result.0 ≡ state.new.table }
    ensures feeds { FeedsInPlace piece.now (mut_lent_bytes blocks.old) (mut_lent_bytes blocks.new) result.1 state.old state.new }
{
    let status = refusal(state.table(), state.fed(), state.ended(), blocks, piece);
    if status != DONE {
        return (table, status);
    }
    let Ok(list) = taken_out(alloc, blocks) else {
        return (table, NO_MEMORY);
    };
    let mut memory = LentBlocks {
        table,
        blocks: list,
    };
    let status = feed_memory(state, &mut memory, piece);
    let LentBlocks {
        table,
        blocks: mut list,
    } = memory;
    put_back(&mut list, blocks);
    (table, status)
}

// Feeds a piece into C's blocks, which are zeros but for `filled`, with the load's table. It
// returns both.
fn feed_zero_blocks(
    alloc: Global,
    state: &mut InPlaceState<Global>,
    table: Table<Global>,
    filled: Dirty<Global>,
    blocks: &mut [&mut [u8]],
    piece: &[u8],
) -> (Table<Global>, Dirty<Global>, u32)
    requires table { table ≡ state.old.table }
    requires filled { filled.table ≡ table }
    requires zeros { AreZerosBut (Some filled) (mut_lent_bytes blocks.old) }
    ensures table { result.0 ≡ state.new.table }
    ensures filled { result.1.table ≡ result.0 }
    ensures zeros { AreZerosBut (Some result.1) (mut_lent_bytes blocks.new) }
    ensures feeds { FeedsInPlace piece.now (mut_lent_bytes blocks.old) (mut_lent_bytes blocks.new) result.2 state.old state.new }
{
    let status = refusal(state.table(), state.fed(), state.ended(), blocks, piece);
    if status != DONE {
        return (table, filled, status);
    }
    let Ok(list) = taken_out(alloc, blocks) else {
        return (table, filled, NO_MEMORY);
    };
    let memory = LentBlocks {
        table,
        blocks: list,
    };
    let mut fresh = Fresh::from_parts(memory, filled);
    let status = feed_memory(state, &mut fresh, piece);
    let (memory, filled) = fresh.into_parts();
    let LentBlocks {
        table,
        blocks: mut list,
    } = memory;
    put_back(&mut list, blocks);
    (table, filled, status)
}

// Marks the page that was read into its block, if the blocks were zeros.
fn fill(filled: &mut Option<Dirty<Global>>, place: Option<Place>)
    requires { IfSome filled.old (λ f. IfSome place (IsPlace f.table)) }
    ensures { filled.new ≡ with_filled place filled.old }
{
    let (Some(filled), Some(place)) = (filled.as_mut(), place) else {
        return;
    };
    let Ok(_) = filled.mark(place) else {
        unreachable!();
    };
}

impl HeldLoad {
    /// Creates a load into blocks of `table`, which it copies. No bytes were fed. `zero_blocks` is
    /// whether the blocks are zeros.
    pub fn new(
        alloc: Global,
        table: &Table<Global>,
        frame: Frame,
        waiting: Option<u64>,
        zero_blocks: bool,
    ) -> Result<HeldLoad, NoMemory>
        ensures begins { IfOk result (λ s. Begins table.now frame waiting s.load) }
        ensures filled { IfOk result (λ s. s.filled ≡ filled_at_first zero_blocks table.now) }
    {
        let settings = LoadSettings {
            page_size: table.page_size(),
            limit: MAX_LIMIT,
            frame,
            waiting,
            round_end: RoundEnd::Flush,
        };
        let state = InPlaceState::new(alloc, settings, table)?;
        let filled = nothing_filled(alloc, table, zero_blocks)?;
        let table = Some(table.copy_in(alloc)?);
        Ok(HeldLoad {
            state,
            table,
            filled,
        })
    }

    /// Feeds the next piece of the stream, and writes its pages into C's blocks. If these were
    /// zeros, a page of zeros that holds nothing else is left alone.
    pub fn feed(&mut self, alloc: Global, blocks: &mut [&mut [u8]], piece: &[u8]) -> u32
        requires zeros { AreZerosBut self.old.filled (mut_lent_bytes blocks.old) }
        ensures feeds { FeedsInPlace piece.now (mut_lent_bytes blocks.old) (mut_lent_bytes blocks.new) result self.old.load self.new.load }
        ensures zeros { AreZerosBut self.new.filled (mut_lent_bytes blocks.new) }
        ensures kept { self.new.filled ≡ None ↔ self.old.filled ≡ None }
    {
        let Some(table) = self.table.take() else {
            unreachable!();
        };
        let state = &mut self.state;
        let Some(filled) = self.filled.take() else {
            let (table, status) = feed_blocks(alloc, state, table, blocks, piece);
            self.table = Some(table);
            return status;
        };
        let (table, filled, status) = feed_zero_blocks(alloc, state, table, filled, blocks, piece);
        self.table = Some(table);
        self.filled = Some(filled);
        status
    }

    /// Reports what the next bytes of the stream are. Returns false if no more of it is read.
    pub fn wanted(&self, next: &mut NextBytes) -> bool
        ensures { TellsNext result next.old next.new self.now.load }
    {
        wanted(&self.state, next)
    }

    /// Takes the page that comes next, which was read into its block.
    pub fn page_read(&mut self, blocks: &[&mut [u8]]) -> u32
        ensures takes { TakesPage (mut_lent_bytes blocks.now) result self.old.load self.new.load }
        ensures filled { FillsPage result self.old.load self.old.filled self.new.filled }
    {
        let place = next_page(&self.state);
        let status = take_page(&mut self.state, blocks);
        if status == DONE {
            fill(&mut self.filled, place);
        }
        status
    }

    /// Marks the end of the stream: no piece is fed after it.
    pub fn end(&mut self)
        ensures ends { EndsInPlace self.old.load self.new.load }
        ensures filled { self.new.filled ≡ self.old.filled }
    {
        self.state.end();
    }

    /// Returns the verdict on the stream so far, as C sees it.
    pub fn fault(&self) -> FoundFault
        ensures { TellsVerdict result self.now.load }
    {
        of_verdict(self.state.verdict(), self.state.ended())
    }

    /// Returns whether the stream was ended.
    pub(crate) fn ended(&self) -> bool
        ensures { result ≡ self.now.load.ended }
    {
        self.state.ended()
    }

    /// Returns how many bytes were fed.
    pub fn fed(&self) -> u64
        ensures { result ≡ self.now.load.fed }
    {
        self.state.fed()
    }

    /// Reports how many of the bytes fed the stream has, once it is closed.
    pub fn closed_at(&self, at: &mut u64) -> u32
        ensures { TellsClosedAt result at.old at.new self.now.load }
    {
        match self.state.closed_at() {
            Some(count) => {
                *at = count;
                DONE
            }
            None => RUNNING,
        }
    }

    /// Returns whether it is known how many of the bytes fed are complete items without a fault,
    /// and reports how many.
    pub fn valid_up_to(&self, at: &mut u64) -> bool
        ensures { TellsValidUpTo result at.old at.new self.now.load }
    {
        match self.state.valid_up_to() {
            Some(count) => {
                *at = count;
                true
            }
            None => false,
        }
    }

    /// Returns how many sections are complete in the blocks.
    pub fn rounds(&self) -> u64
        ensures { result ≡ self.now.load.rounds }
    {
        self.state.rounds()
    }

    /// Returns how many pages of the blocks no record of the stream so far named.
    pub fn missing(&self) -> u64
        ensures { TellsMissing result self.now.load }
    {
        self.state.missing()
    }
}
