//! A guest's memory in bytes that another owns, lent for reading. Callers of senders create one for
//! each round of a paused guest.

ghost use Rattle.std.specs.Prelude.{◌≡◌, ◌↔◌, IfSome, IsSome, IsTrue};
ghost use Rattle.mig_mem.specs.Place.{IsPlace};
ghost use Rattle.mig_mem.specs.Image.{content_at};
ghost use Rattle.mig_mem.specs.Lent.{lent_bytes, lent_image, FitTable};

use crate::parts::part_of;
use crate::{GuestPages, Place, Table};
use std::alloc::{Allocator, Global};
use std::fmt;
use std::marker::Model;

/// The memory of a guest in bytes that its owner lends: one slice for each block, in the table's
/// order, each with the block's pages one after another. Nothing is copied or allocated, so one can
/// be created for each round.
///
/// While the bytes are lent nobody writes them, neither this process nor a guest. So a `LentMemory`
/// is for a guest that is paused, for a snapshot, or for pages that are write-protected meanwhile.
/// If the guest runs on and writes its memory, end the loan first, or copy each page and send it by
/// `put_page` of a sender.
///
/// # Examples
///
/// A page of a guest with one block is sent from the guest's own bytes:
///
/// <!-- quoted from crates/mig_uses/src/by_turns.rt -->
/// ```rust
/// let blocks = [guest];
/// let memory = LentMemory::new(table, &blocks).expect(rt, "a memory");
/// let dirty = places_of(rt.alloc(), table, &[at(0, page)]).expect(rt, "a set");
/// assert!(rt; sender.round(rt, &memory, &dirty, &OpenGate) == Ok(()));
/// ```
#[derive(Drop)]
pub struct LentMemory<'a, A: Allocator = Global> {
    table: &'a Table<A>,
    blocks: &'a [&'a [u8]],
}

impl<'a, A: Allocator> Model for LentMemory<'a, A> {
    ghost use Rattle.mig_mem.specs.Image.{Image};
    ghost use Rattle.mig_mem.specs.Lent.{lent_bytes, lent_image, FitTable};

    ghost Value = { Image };

    ghost view = { λ m. lent_image m.table.now (lent_bytes m.blocks.now) };

    ghost invariant = { λ m. FitTable m.table.now (lent_bytes m.blocks.now) };
}

impl<'a, A: Allocator> fmt::Debug for LentMemory<'a, A> {
    fn fmt<W: fmt::Write>(&self, f: &mut fmt::Formatter<W>) -> fmt::Result {
        f.pad("LentMemory { .. }")
    }
}

// Returns whether there is a slice for each block, as long as its pages.
fn fit<A: Allocator>(table: &Table<A>, blocks: &[&[u8]]) -> bool
    ensures { IsTrue result ↔ FitTable table.now (lent_bytes blocks.now) }
{
    if blocks.len() != table.len() {
        return false;
    }
    for i in 0..table.len() {
        if blocks[i].len() as u64 != table.pages(i) * table.page_size() {
            return false;
        }
    }
    true
}

impl<'a, A: Allocator> LentMemory<'a, A> {
    /// Creates the memory of these bytes. Returns None exactly if they don't fit the table.
    pub fn new(table: &'a Table<A>, blocks: &'a [&'a [u8]]) -> Option<LentMemory<'a, A>>
        ensures image { IfSome result (λ m. m ≡ lent_image table.now (lent_bytes blocks.now)) }
        ensures fits { IsSome result ↔ FitTable table.now (lent_bytes blocks.now) }
    {
        if !fit(table, blocks) {
            return None;
        }
        Some(LentMemory { table, blocks })
    }

    // Returns the content of a page.
    fn page_in(&self, place: Place) -> &[u8]
        requires { IsPlace self.now.table place }
        ensures { result.now ≡ content_at self.now place }
    {
        let blocks = self.blocks;
        part_of(blocks[place.block], self.table.page_size(), place.page)
    }
}

impl<'a, A: Allocator> GuestPages for LentMemory<'a, A> {
    type Alloc = A;

    ghost image = { λ m. m };

    fn table(&self) -> &Table<A> {
        self.table
    }

    fn page(&self, place: Place) -> Option<&[u8]> {
        if !self.table().holds(place) {
            return None;
        }
        Some(self.page_in(place))
    }
}
