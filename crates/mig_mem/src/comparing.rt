//! All places where two memories differ, found by several threads.

ghost use Rattle.std.specs.Prelude.{◌≡◌, ◌*◌, ◌<◌, length, find, slice_get, IfOk};
ghost use Rattle.mig_mem.specs.RamTable.{block as block_of_number};
ghost use Rattle.mig_mem.specs.Place.{places};
ghost use Rattle.mig_mem.specs.Image.{differs};
ghost use Rattle.mig_mem.specs.Difference.{differing};
ghost use Rattle.mig_mem.specs.Marks.{IsDifferingWord, IsDifferingRow};

use crate::difference::is_same_at;
use crate::{Dirty, Memory, NoMemory, Place, marks};
use rayon::prelude::*;
use std::alloc::Allocator;
use std::thread::Threads;

// The fewest words that are worth a thread: those of 1,024 pages.
const FEWEST_WORDS: usize = 16;

/// Returns the set of the places where two memories of one table have different contents. A caller
/// tests the tables by `Table::same`.
///
/// Threads compare the pages of a large block. The result is that of one walk over all places: the
/// least place of the set is what `first_difference` returns. A page that neither memory has
/// written isn't read.
///
/// # Errors
///
/// `NoMemory`: an allocation was refused.
pub fn differences<
    R: Threads + Sync,
    A: Allocator + Sync,
    B: Allocator + Sync,
    C: Allocator + Copy + Send + Sync,
>(rt: &R, alloc: C, a: &Memory<A>, b: &Memory<B>) -> Result<Dirty<C>, NoMemory>
    requires { a.now.table ≡ b.now.table }
    ensures value { IfOk result (λ d. d ≡ differing a.now b.now) }
    ensures least { IfOk result (λ d. slice_get d.marked 0 ≡ find (differs a.now b.now) (places a.now.table)) }
{
    let mut rows = Vec::with_capacity(alloc, a.table().len())?;
    for block in 0..a.table().len() {
        rows.push(row(rt, alloc, a, b, block)?)?;
    }
    let table = a.table().copy_in(alloc)?;
    Ok(Dirty::from_rows(table, rows))
}

// Returns the marks of the pages of `block` where the two memories differ.
fn row<
    R: Threads + Sync,
    A: Allocator + Sync,
    B: Allocator + Sync,
    C: Allocator + Copy + Send + Sync,
>(rt: &R, alloc: C, a: &Memory<A>, b: &Memory<B>, block: usize) -> Result<Vec<u64, C>, NoMemory>
    requires same { a.now.table ≡ b.now.table }
    requires has_block { block < length a.now.table.blocks }
    ensures { IfOk result (λ v. IsDifferingRow a.now b.now block v.items) }
{
    let words = marks::words_for(a.table().pages(block));
    let row = (0..words)
        .into_par_iter()
        .with_min_len(FEWEST_WORDS)
        .map(
            |i: u64| -> u64
                requires same { a.now.table ≡ b.now.table }
                requires has_block { block < length a.now.table.blocks }
                requires has_word { i * 64 < (block_of_number a.now.table.blocks block).pages }
                ensures { IsDifferingWord a.entry.now b.entry.now block i result }
            { word(a, b, block, i) },
        )
        .collect(rt, alloc)?;
    Ok(row)
}

// Returns the marks of up to 64 pages of `block`: those of word `i`.
fn word<A: Allocator, B: Allocator>(a: &Memory<A>, b: &Memory<B>, block: usize, i: u64) -> u64
    requires same { a.now.table ≡ b.now.table }
    requires has_block { block < length a.now.table.blocks }
    requires has_word { i * 64 < (block_of_number a.now.table.blocks block).pages }
    ensures { IsDifferingWord a.now b.now block i result }
{
    let pages = a.table().pages(block);
    let first = i * marks::WORD;
    let count = (pages - first).min(marks::WORD);
    let mut word = 0;
    for bit in 0..count {
        let page = first + bit;
        if !is_same_at(a, b, Place { block, page }) {
            word |= 1 << bit;
        }
    }
    word
}
