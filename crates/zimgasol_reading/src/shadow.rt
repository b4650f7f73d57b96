//! The memory that a load writes, for proofs alone: pages are passed on, and no memory is kept.
//!
//! A load's contract is about the memory that it is passed. The program keeps none, so its memory
//! is a value that only contracts name. It takes no bytes, and its calls do nothing when they run.

ghost use Rattle.std.specs.Prelude.{◌≡◌};
ghost use Rattle.std.specs.Borrow.{ftrue};
ghost use Rattle.mig_mem.specs.Image.{Image, zero_image, zero_page, with_page};

use mig_mem::{Place, Table};
use std::marker::Model;

/// A guest's memory that only contracts name.
#[derive(Drop)]
pub(crate) struct Shadow {
    pub(crate) ghost image: { Image },
}

impl Model for Shadow {
    ghost also_owns = { λ _. ftrue };
}

impl Shadow {
    /// Creates the memory of `_table` before the first page: zeros.
    pub(crate) fn new(_table: &Table) -> Shadow
        ensures { result.image ≡ zero_image _table.now }
    {
        Shadow {}
    }

    /// Returns the memory with the page `_bytes` at `_place`.
    pub(crate) fn with(&self, _place: &Place, _bytes: &[u8]) -> Shadow
        ensures { result.image ≡ with_page self.now.image _place.now _bytes.now }
    {
        Shadow {}
    }

    /// Returns the memory with a page of zeros at `_place`.
    pub(crate) fn with_zeros(&self, _place: &Place) -> Shadow
        ensures { result.image ≡ with_page self.now.image _place.now (zero_page self.now.image.table.page_size) }
    {
        Shadow {}
    }
}
