//! Steps over many places of a dirty set at once, and its copy. A sender of a round walks over the
//! batches of others by these.

ghost use Rattle.std.specs.Prelude.{◌≡◌, ◌<◌, ◌≤◌, ◌^◌, length, IfOk};
ghost use Rattle.mig_mem.specs.Skipping.{IsPastPlaces, IsPastMarks, IsStepOver};

use crate::{Dirty, NoMemory, marks};
use std::alloc::Allocator;

// The bits of a word that are counted at once where the word has too many.
const PART: u64 = 8;

impl<A: Allocator> Dirty<A> {
    /// Returns a page of `block` with `count` of the set's pages between `from` and it. If the
    /// block has fewer from there on, the page returned is the block's end or after it. The call
    /// counts the set's words, not its pages.
    pub fn page_after(&self, block: usize, from: u64, count: u64) -> u64
        requires { block < length self.now.table.blocks }
        ensures { IsPastPlaces self.now block from count result }
    {
        page_after(&self.words[block], from, count)
    }

    /// Copies the set into memory of another allocator.
    ///
    /// # Errors
    ///
    /// `NoMemory`: an allocation was refused.
    pub fn copy_in<B: Allocator + Copy>(&self, alloc: B) -> Result<Dirty<B>, NoMemory>
        ensures { IfOk result (λ d. d ≡ self.now) }
    {
        let mut words = Vec::with_capacity(alloc, self.words.len())?;
        for row in &self.words {
            words.push(row_in(alloc, row)?)?;
        }
        let table = self.table.copy_in(alloc)?;
        Ok(Dirty {
            table,
            words,
            count: self.count,
        })
    }
}

// Copies the marks of a block.
fn row_in<B: Allocator>(alloc: B, row: &[u64]) -> Result<Vec<u64, B>, NoMemory>
    ensures { IfOk result (λ v. v.items ≡ row.now) }
{
    let mut copy = Vec::with_capacity(alloc, row.len())?;
    copy.extend_from_slice(row)?;
    Ok(copy)
}

// Returns the page after the next `count` marks from page `from` on, or the end of the words or a
// page after it.
fn page_after(words: &[u64], from: u64, count: u64) -> u64
    requires { length words.now < 2 ^ 50 }
    ensures { IsPastMarks words.now from count result }
{
    let end = words.len() as u64 * marks::WORD;
    let mut page = from;
    let mut left = count;
    while left > 0 && page < end {
        let bit = page % marks::WORD;
        let bits = words[(page / marks::WORD) as usize] >> bit;
        let (width, ones) = step_over(bits, marks::WORD - bit, left);
        left -= ones;
        page += width;
    }
    page
}

// Returns how many of the lowest bits of `bits` to step over, and how many of them are set: no more
// than `left`. `bits` has `room` bits.
fn step_over(bits: u64, room: u64, left: u64) -> (u64, u64)
    requires room { 0 < room }
    requires bits { bits < 2 ^ room }
    requires left { 0 < left }
    ensures { IsStepOver bits room left result.0 result.1 }
{
    let ones = u64::from(bits.count_ones());
    if ones <= left {
        return (room, ones);
    }
    let low = u64::from((bits & 0xFF).count_ones());
    if low <= left && PART <= room {
        return (PART, low);
    }
    (1, bits & 1)
}
