//! The pages of one batch, each in a buffer that C lends, as the memory that a step of a worker
//! reads.

ghost use Rattle.std.specs.Prelude.{◌≡◌, ◌<◌, ◌≤◌, ◌==◌, length};
ghost use Rattle.std.specs.List.{position};
ghost use Rattle.mig_mem.specs.RamTable.{IsTable};
ghost use Rattle.mig_mem.specs.Image.{content_at};
ghost use Rattle.mig_mem.specs.Place.{IsPlace};
ghost use Rattle.mig_mem.specs.Lent.{lent_bytes};
ghost use Rattle.mig_mem.specs.PageSize.{IsPageSize};
ghost use Rattle.mig_c_calls.specs.Copied.{index_in, copied_image, HasPages};

use mig_mem::{GuestPages, Place, Table};
use std::alloc::Global;
use std::marker::Model;

/// A memory of a table that has these contents at the pages of one batch. Every other page has the
/// content of the first: the step that packs the batch reads none of them.
#[derive(Drop)]
pub(crate) struct CopiedPages<'a> {
    table: &'a Table<Global>,
    pages: &'a [u64],
    contents: &'a [&'a [u8]],
}

impl<'a> Model for CopiedPages<'a> {
    ghost use Rattle.mig_mem.specs.Image.{Image};
    ghost use Rattle.mig_mem.specs.Lent.{lent_bytes};
    ghost use Rattle.mig_c_calls.specs.Copied.{copied_image, HasPages};

    ghost Value = { Image };

    ghost view = { λ m. copied_image m.table.now m.pages.now (lent_bytes m.contents.now) };

    ghost invariant = { λ m. HasPages m.table.now m.pages.now (lent_bytes m.contents.now) };
}

// Returns the first index of a page in `pages`.
fn position_of(pages: &[u64], page: u64) -> Option<usize>
    ensures { result ≡ position (λ other. other == page) pages.now }
{
    pages.iter().position(|other| *other == page)
}

// Returns the first index of a page in `pages`, or 0.
fn index_of(pages: &[u64], page: u64) -> usize
    ensures { result ≡ index_in pages.now page }
{
    match position_of(pages, page) {
        Some(i) => i,
        None => 0,
    }
}

impl<'a> CopiedPages<'a> {
    /// Creates the memory of `table` whose `pages` have these `contents`.
    pub(crate) fn new(
        table: &'a Table<Global>,
        pages: &'a [u64],
        contents: &'a [&'a [u8]],
    ) -> CopiedPages<'a>
        requires { HasPages table.now pages.now (lent_bytes contents.now) }
        ensures { result ≡ copied_image table.now pages.now (lent_bytes contents.now) }
    {
        CopiedPages {
            table,
            pages,
            contents,
        }
    }

    // Returns the content of a page.
    fn page_in(&self, place: Place) -> &[u8]
        requires { IsPlace self.now.table place }
        ensures { result.now ≡ content_at self.now place }
    {
        let contents = self.contents;
        contents[index_of(self.pages, place.page)]
    }
}

impl<'a> GuestPages for CopiedPages<'a> {
    type Alloc = Global;

    ghost image = { λ m. m };

    fn table(&self) -> &Table<Global> {
        self.table
    }

    fn page(&self, place: Place) -> Option<&[u8]> {
        if !self.table().holds(place) {
            return None;
        }
        Some(self.page_in(place))
    }
}

// A page of zeros, of the larger page size.
static ZEROS: [u8; 8192] = [0; 8192];

// Returns the first `len` bytes.
fn front(bytes: &[u8], len: u64) -> &[u8]
    requires { len ≤ length bytes.now }
    ensures { length result.now ≡ len }
{
    &bytes[..len as usize]
}

/// Returns the content of a page, for a memory of which a step reads no page.
pub(crate) fn page_of_zeros(size: u64) -> &'static [u8]
    requires { IsPageSize size }
    ensures { length result.now ≡ size }
{
    front(&ZEROS, size)
}
