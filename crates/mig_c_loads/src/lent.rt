//! Blocks of C that are lent for writing, as the memory that a load of several channels is passed.
//!
//! A load's contract says what the memory holds after the call, and not which slices the memory is
//! made of. So the call takes the slices out of C's array into a memory of its own, and puts them
//! back from there.

ghost use Rattle.std.specs.Prelude.{◌≡◌, ◌↔◌, [], IsTrue, IfOk, OnErr, length};
ghost use Rattle.mig_mem.specs.Lent.{mut_lent_bytes, FitTable};
ghost use Rattle.mig_c_loads.specs.InPlace.{RefusesPiece};
ghost use Rattle.mig_c_loads.specs.ZeroBlocks.{filled_at_first};

use crate::putting::{clear_page, write_page};
use mig_c_calls::status::{BAD_LENGTH, DONE, IS_OVER, ROOM, TOO_LONG};
use mig_mem::{Dirty, GuestTarget, NoMemory, Place, Table};
use std::alloc::Global;
use std::marker::Model;
use std::mem;

/// A guest's memory in slices that C lends, one for each block of a table.
pub(crate) struct LentBlocks<'b> {
    pub(crate) table: Table<Global>,
    pub(crate) blocks: Vec<&'b mut [u8]>,
}

impl<'b> Model for LentBlocks<'b> {
    ghost use Rattle.mig_mem.specs.Image.{Image};
    ghost use Rattle.mig_mem.specs.Lent.{mut_lent_bytes, lent_image, FitTable};

    ghost Value = { Image };

    ghost view = { λ m. lent_image m.table (mut_lent_bytes m.blocks.items) };

    ghost invariant = { λ m. FitTable m.table (mut_lent_bytes m.blocks.items) };
}

impl<'b> GuestTarget for LentBlocks<'b> {
    type Alloc = Global;

    ghost image = { λ m. m };

    fn table(&self) -> &Table<Global> {
        &self.table
    }

    fn put_page(&mut self, place: Place, bytes: &[u8]) {
        let size = self.table.page_size();
        write_page(self.blocks[place.block], size, place.page, bytes);
    }

    fn put_zero_page(&mut self, place: Place) {
        // its page size is one of the two
        self.table.keeps_limits();
        let size = self.table.page_size();
        clear_page(self.blocks[place.block], size, place.page);
    }
}

/// Returns whether there is a slice for each block of a table, as long as its pages.
pub(crate) fn fit(table: &Table<Global>, blocks: &[&mut [u8]]) -> bool
    ensures { IsTrue result ↔ FitTable table.now (mut_lent_bytes blocks.now) }
{
    if blocks.len() != table.len() {
        return false;
    }
    for i in 0..table.len() {
        if blocks[i].len() as u64 != table.pages(i) * table.page_size() {
            return false;
        }
    }
    true
}

/// Returns why a piece of one stream isn't fed into blocks of `table`, or DONE: `fed` bytes of the
/// stream were fed, and it may have ended.
pub(crate) fn refusal(
    table: &Table<Global>,
    fed: u64,
    ended: bool,
    blocks: &[&mut [u8]],
    piece: &[u8],
) -> u32
    ensures { RefusesPiece (length piece.now) (mut_lent_bytes blocks.now) result table.now fed ended }
{
    if ended {
        return IS_OVER;
    }
    if fed >= ROOM - piece.len() as u64 {
        return TOO_LONG;
    }
    if !fit(table, blocks) {
        return BAD_LENGTH;
    }
    DONE
}

/// Takes the slices of blocks out of C's array, until `put_back`.
pub(crate) fn taken_out<'b>(
    alloc: Global,
    blocks: &mut [&'b mut [u8]],
) -> Result<Vec<&'b mut [u8]>, NoMemory>
    ensures out { IfOk result (λ list. list.items ≡ blocks.old) }
    ensures count { length blocks.new ≡ length blocks.old }
    ensures refused { OnErr result (blocks.new ≡ blocks.old) }
{
    let mut list = Vec::with_capacity(alloc, blocks.len())?;
    for i in 0..blocks.len() {
        list.push_reserved(mem::take(&mut blocks[i]));
    }
    Ok(list)
}

/// Puts slices into the array that they were taken out of.
pub(crate) fn put_back<'b>(list: &mut [&'b mut [u8]], blocks: &mut [&'b mut [u8]])
    requires { length list.old ≡ length blocks.old }
    ensures { blocks.new ≡ list.old }
{
    for i in 0..list.len() {
        blocks[i] = mem::take(&mut list[i]);
    }
}

/// Returns the pages that hold something else than zeros at first, which are none, if C's blocks
/// are zeros.
pub(crate) fn nothing_filled(
    alloc: Global,
    table: &Table<Global>,
    zero_blocks: bool,
) -> Result<Option<Dirty<Global>>, NoMemory>
    ensures { IfOk result (λ filled. filled ≡ filled_at_first zero_blocks table.now) }
{
    if !zero_blocks {
        return Ok(None);
    }
    Ok(Some(Dirty::none(alloc, table)?))
}
