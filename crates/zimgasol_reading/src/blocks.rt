//! Counts the page records of each block of a stream, and keeps which pages have one.

ghost use Rattle.std.specs.Prelude.{◌≡◌, ◌↔◌, ◌-◌, ◌*◌, ◌<◌, [], IfOk, OnOk, IfSome, IsTrue};
ghost use Rattle.mig_mem.specs.Place.{IsPlace};
ghost use Rattle.mig_mem.specs.PlaceSet.{with_place};
ghost use Rattle.mig_mem.specs.RamTable.{total_pages};
ghost use Rattle.zimgasol_reading.specs.Coverage.{IsWhole};

use mig_mem::{Dirty, Place, Table};
use std::alloc::Global;
use zimgasol_files::Trouble;

/// The page records of one block.
#[derive(Clone, Copy, Debug, PartialEq, Eq)]
pub struct PageCounts {
    /// The records with a page's bytes.
    pub pages: u64,
    /// The records of pages of zeros.
    pub zeros: u64,
    /// The pages that have a record. A page may have several.
    pub recorded: u64,
}

impl PageCounts {
    /// No records.
    pub const NONE: PageCounts = PageCounts {
        pages: 0,
        zeros: 0,
        recorded: 0,
    };

    // Returns the counts with one record more; `is_new` if it is the first of its page.
    fn with(self, is_zero: bool, is_new: bool) -> PageCounts {
        let counts = if is_zero {
            PageCounts {
                zeros: self.zeros.saturating_add(1),
                ..self
            }
        } else {
            PageCounts {
                pages: self.pages.saturating_add(1),
                ..self
            }
        };
        if !is_new {
            return counts;
        }
        PageCounts {
            recorded: counts.recorded.saturating_add(1),
            ..counts
        }
    }
}

/// Returns how many of a block's `pages` have no record, if `recorded` of them have one.
pub(crate) fn pages_without(pages: u64, recorded: u64) -> u64
    ensures { result ≡ pages - recorded }
{
    pages.saturating_sub(recorded)
}

// Returns how many pages all blocks of `table` have.
fn pages_of(table: &Table) -> u64
    ensures { result ≡ total_pages table.now.blocks }
{
    let mut pages = 0;
    for i in 0..table.len() {
        pages += table.pages(i);
    }
    pages
}

/// How much of a guest's memory a complete stream has.
#[derive(Clone, Copy, Debug, PartialEq, Eq)]
pub enum Coverage {
    /// Each page has a record, or the stream is applied to existing memory.
    Whole,
    /// Pages have no record, and that is meant (`--partial`).
    Partial,
    /// Pages have no record.
    Incomplete,
}

/// The table of a stream, the counts of page records, block by block, and which pages have one.
#[derive(Drop)]
pub struct Blocks {
    pub table: Table,
    pub counts: Vec<PageCounts>,
    /// The pages that have a record, a bit for each.
    pub recorded: Dirty,
}

impl Blocks {
    /// Creates the counts of a stream without records. Its bits take 32 KiB for each GiB of the
    /// table at pages of 4,096 bytes, whatever the stream has. So they take at most 32 MiB, for
    /// 2^40 bytes.
    ///
    /// # Errors
    ///
    /// `Trouble::NoMemory`.
    pub fn new(alloc: Global, table: Table) -> Result<Blocks, Trouble>
        ensures none { IfOk result (λ blocks. blocks.recorded ≡ record { table = table; marked = [] }) }
    {
        let counts = vec![in alloc; PageCounts::NONE; table.len()]?;
        let recorded = Dirty::none(alloc, &table)?;
        Ok(Blocks {
            table,
            counts,
            recorded,
        })
    }

    /// Counts a record of the page at `place`; `is_zero` for a page of zeros.
    ///
    /// # Errors
    ///
    /// `Trouble::NoMemory`.
    pub fn count(&mut self, place: Place, is_zero: bool) -> Result<(), Trouble>
        ensures recorded { OnOk result (IsPlace self.old.recorded.table place → self.new.recorded ≡ with_place self.old.recorded place) }
    {
        if !self.recorded.table().holds(place) {
            return Ok(());
        }
        let is_new = self.recorded.mark(place)?;
        if place.block < self.counts.len() {
            self.counts[place.block] = self.counts[place.block].with(is_zero, is_new);
        }
        Ok(())
    }

    /// Returns the place of the page that begins at the byte `offset` of a block; None if none
    /// does.
    pub fn place(&self, block: usize, offset: u64) -> Option<Place>
        ensures { IfSome result (λ place. (place.block ≡ block) × (place.page * self.now.table.page_size ≡ offset)) }
    {
        let size = self.table.page_size();
        if size == 0 || offset % size != 0 {
            return None;
        }
        Some(Place {
            block,
            page: offset / size,
        })
    }

    /// Returns the sum of the blocks' lengths.
    pub fn total(&self) -> u64 {
        let mut total = 0u64;
        for block in 0..self.table.len() {
            total = total.saturating_add(self.len(block));
        }
        total
    }

    /// Returns how many bytes a block has.
    pub fn len(&self, block: usize) -> u64 {
        if block >= self.table.len() {
            return 0;
        }
        self.table.pages(block) * self.table.page_size()
    }

    /// Returns how many pages a block has.
    pub fn pages(&self, block: usize) -> u64 {
        if block >= self.table.len() {
            return 0;
        }
        self.table.pages(block)
    }

    /// Returns how many of a block's pages have no record.
    pub fn missing(&self, block: usize) -> u64 {
        match self.counts.get(block) {
            Some(counts) => pages_without(self.pages(block), counts.recorded),
            None => self.pages(block),
        }
    }

    /// Returns whether each page of each block has a record.
    pub fn is_whole(&self) -> bool
        ensures { IsTrue result ↔ IsWhole self.now }
    {
        self.recorded.count() == pages_of(self.recorded.table())
    }

    /// Returns whether none of a block's pages has a record.
    pub fn is_absent(&self, block: usize) -> bool {
        self.missing(block) == self.pages(block)
    }

    /// Returns the counts of all blocks together.
    pub fn counts_of_all(&self) -> PageCounts {
        let mut all = PageCounts::NONE;
        for counts in &self.counts {
            all = PageCounts {
                pages: all.pages.saturating_add(counts.pages),
                zeros: all.zeros.saturating_add(counts.zeros),
                recorded: all.recorded.saturating_add(counts.recorded),
            };
        }
        all
    }

    /// Returns how much of the memory the stream has; `is_partial` if pages without a record are
    /// meant.
    pub fn coverage(&self, is_partial: bool) -> Coverage {
        if self.is_whole() {
            Coverage::Whole
        } else if is_partial {
            Coverage::Partial
        } else {
            Coverage::Incomplete
        }
    }
}
