//! Dirty sets from bitmaps, as QEMU and KVM keep them for each block.

ghost use Rattle.std.specs.Prelude.{◌≡◌, ◌↔◌, ℕ, ◌<◌, ◌≤◌, ◌+◌, ◌*◌, ◌/◌, ◌&&◌, nat_lt, length, IsTrue, IfOk};
ghost use Rattle.mig_mem.specs.Marks.{is_set};
ghost use Rattle.mig_mem.specs.Bitmaps.{AreBitmaps, IsRowOf, bitmap_set, lent_words};

use crate::{Dirty, NoMemory, Table, marks};
use std::alloc::Allocator;

impl<A: Allocator> Table<A> {
    /// Returns whether `bitmaps` has a bitmap for each block and no other, each with a bit for each
    /// page of its block. A bitmap may be longer.
    pub fn has_bitmaps(&self, bitmaps: &[&[u64]]) -> bool
        ensures { IsTrue result ↔ AreBitmaps self.now (lent_words bitmaps.now) }
    {
        if bitmaps.len() != self.len() {
            return false;
        }
        for i in 0..self.len() {
            if (bitmaps[i].len() as u64) < marks::words_for(self.pages(i)) {
                return false;
            }
        }
        true
    }
}

impl<A: Allocator + Copy> Dirty<A> {
    /// Creates the set of the pages whose bit is set in the bitmap of their block. The bit of a
    /// page is bit `page % 64` of word `page / 64`, as in QEMU's bitmaps on a host of 64 bits and
    /// in KVM's dirty log. Bits after the last page of a block aren't read. A caller tests the
    /// bitmaps by `Table::has_bitmaps`.
    ///
    /// # Errors
    ///
    /// `NoMemory`: an allocation was refused.
    pub fn from_bitmaps<B: Allocator>(
        alloc: A,
        table: &Table<B>,
        bitmaps: &[&[u64]],
    ) -> Result<Dirty<A>, NoMemory>
        requires { AreBitmaps table.now (lent_words bitmaps.now) }
        ensures { IfOk result (λ d. d ≡ bitmap_set table.now (lent_words bitmaps.now)) }
    {
        let mut rows = Vec::with_capacity(alloc, table.len())?;
        for block in 0..table.len() {
            rows.push(row(alloc, bitmaps[block], table.pages(block))?)?;
        }
        let table = table.copy_in(alloc)?;
        Ok(Dirty::from_rows(table, rows))
    }
}

// Returns the marks of a block of `pages` pages, from its bitmap.
fn row<A: Allocator>(alloc: A, bitmap: &[u64], pages: u64) -> Result<Vec<u64, A>, NoMemory>
    requires { pages ≤ 64 * length bitmap.now }
    ensures { IfOk result (λ v. IsRowOf bitmap.now pages v.items) }
{
    let count = marks::words_for(pages) as usize;
    let mut words = Vec::with_capacity(alloc, count)?;
    words.extend_from_slice(&bitmap[..count])?;
    clear_after(&mut words, pages);
    Ok(words)
}

// Removes the marks after the first `pages` pages.
fn clear_after(words: &mut [u64], pages: u64)
    requires { length words.old ≡ (pages + 63) / 64 }
    ensures { (page : ℕ) → is_set words.new page ≡ (nat_lt page pages && is_set words.old page) }
{
    let rest = pages % marks::WORD;
    if rest != 0 {
        words[(pages / marks::WORD) as usize] &= (1 << rest) - 1;
    }
}
