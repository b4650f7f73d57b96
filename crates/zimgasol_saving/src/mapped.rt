//! Writes the pages of `save --layout mapped-ram` into their file. Each page has an offset of its
//! own there. A page of zeros isn't written: a hole of the file stands for it.

ghost use Rattle.std.specs.Prelude.{◌≡◌, ◌<◌, length, IsTrue};
ghost use Rattle.mig_mem.specs.Place.{IsPlace};
ghost use Rattle.mig_mapped.specs.Write.{MappedWriting, written_table};

use crate::blocks::PieceSink;
use mig_mapped::{MappedStop, MappedWriter, WordOrder};
use mig_mem::{Place, Table};
use std::alloc::Global;
use std::io::{Seek, Write};
use std::marker::Model;
use zimgasol_files::{PIECE_PAGES, Pages, Trouble, write_at};

/// Writes `bytes` to a file from its byte `at` on.
///
/// # Errors
///
/// `Trouble::Output` if they can't be written.
pub(crate) fn put_at<F: Write + Seek>(file: &mut F, at: u64, bytes: &[u8]) -> Result<(), Trouble> {
    match write_at(file, at, bytes) {
        Ok(()) => Ok(()),
        Err(error) => Err(Trouble::Output(error)),
    }
}

// The places of a guest's pages in a file, and which of them are written.
struct PagePlaces {
    table: Table,
    writer: MappedWriter,
}

// Written out, so that a caller's proof passes a call where a value is dropped.
impl Drop for PagePlaces {
    fn drop(self) {
        let PagePlaces {
            table: _,
            writer: _,
        } = self;
    }
}

impl Model for PagePlaces {
    ghost use Rattle.std.specs.Prelude.{◌≡◌};
    ghost use Rattle.mig_mapped.specs.Write.{MappedWriting, written_table};

    ghost Value = { MappedWriting };

    ghost view = { λ p. p.writer };

    ghost invariant = { λ p. written_table p.writer ≡ p.table };
}

impl PagePlaces {
    // Creates the places in a file whose size list has its first entry at the offset `place`. The
    // file is for a QEMU on a little-endian host.
    fn new(alloc: Global, table: &Table, place: u64) -> Result<PagePlaces, Trouble> {
        match MappedWriter::new(alloc, table, WordOrder::Little, place) {
            Ok(writer) => Ok(PagePlaces {
                table: table.try_copy()?,
                writer,
            }),
            Err(MappedStop::Fault(_)) => Err(Trouble::TooLarge),
            Err(MappedStop::NoMemory) => Err(Trouble::NoMemory),
        }
    }

    // Returns whether the table has `place`, and `content` is as long as a page.
    fn takes(&self, place: Place, content: &[u8]) -> bool
        ensures place { IsTrue result → IsPlace (written_table self.now) place }
        ensures len { IsTrue result → length content.now ≡ self.now.given.page_size }
    {
        self.table.holds(place) && content.len() as u64 == self.table.page_size()
    }

    // Takes the content of a page. Returns the offset at which it is written; None if it is zeros.
    fn put(&mut self, place: Place, content: &[u8]) -> Option<u64>
        requires place { IsPlace (written_table self.old) place }
        requires len { length content.now ≡ self.old.given.page_size }
    {
        self.writer.put(place, content)
    }

    // Writes the head of a block and its bitmap.
    fn write_head<F: Write + Seek>(
        &self,
        alloc: Global,
        file: &mut F,
        block: usize,
    ) -> Result<(), Trouble>
        requires { block < length self.now.blocks }
    {
        let writer = &self.writer;
        let head = writer.head(alloc, block)?;
        put_at(file, writer.head_offset(block), &head)?;
        put_at(file, writer.bitmap_offset(block), writer.bitmap(block))
    }

    // Writes the heads and the bitmaps of all blocks.
    fn write_heads<F: Write + Seek>(&self, alloc: Global, file: &mut F) -> Result<(), Trouble> {
        for block in 0..self.writer.len() {
            self.write_head(alloc, file, block)?;
        }
        Ok(())
    }
}

/// A file whose pages are being written.
#[derive(Drop)]
pub(crate) struct MappedSending<'a, F> {
    alloc: Global,
    places: PagePlaces,
    file: &'a mut F,
    // pages that follow one another in the file and wait to be written, and the offset of the first
    run: Vec<u8>,
    at: u64,
    // the pages that were written
    pages: u64,
}

impl<'a, F: Write + Seek> MappedSending<'a, F> {
    /// Begins a file with the memory of the blocks of `table`: writes `front`, the bytes before its
    /// size list.
    ///
    /// # Errors
    ///
    /// `Trouble::Output` if the file can't be written, `Trouble::TooLarge`, `Trouble::NoMemory`.
    pub(crate) fn begin(
        alloc: Global,
        file: &'a mut F,
        table: &Table,
        front: &[u8],
    ) -> Result<MappedSending<'a, F>, Trouble> {
        let places = PagePlaces::new(alloc, table, front.len() as u64)?;
        put_at(file, 0, front)?;
        Ok(MappedSending {
            alloc,
            places,
            file,
            run: Vec::new(alloc),
            at: 0,
            pages: 0,
        })
    }

    // Writes the pages that wait.
    fn write_run(&mut self) -> Result<(), Trouble> {
        if self.run.is_empty() {
            return Ok(());
        }
        put_at(self.file, self.at, &self.run)?;
        self.run.clear();
        Ok(())
    }

    // Adds a page to those that wait, which are written first if it doesn't follow them.
    fn add_to_run(&mut self, offset: u64, content: &[u8]) -> Result<(), Trouble> {
        let next = self.at.saturating_add(self.run.len() as u64);
        if offset != next {
            self.write_run()?;
            self.at = offset;
        }
        self.run.extend_from_slice(content)?;
        self.pages = self.pages.saturating_add(1);
        Ok(())
    }

    // Takes a page. Returns whether the table has `place`.
    fn add(&mut self, place: Place, content: &[u8]) -> Result<bool, Trouble> {
        if !self.places.takes(place, content) {
            return Ok(false);
        }
        if let Some(offset) = self.places.put(place, content) {
            self.add_to_run(offset, content)?;
        }
        Ok(true)
    }

    /// Writes the heads and the bitmaps of all blocks, once all pages were sent. Returns the number
    /// of pages that were written, and the offset after the last block's pages.
    ///
    /// # Errors
    ///
    /// `Trouble::Output` if the file can't be written, `Trouble::NoMemory`.
    pub(crate) fn finish(mut self) -> Result<(u64, u64), Trouble> {
        self.write_run()?;
        let MappedSending {
            alloc,
            places,
            file,
            run: _,
            at: _,
            pages,
        } = self;
        places.write_heads(alloc, file)?;
        Ok((pages, places.writer.end()))
    }
}

impl<'a, F: Write + Seek> PieceSink for MappedSending<'a, F> {
    // nothing is known of the file
    ghost holds = { λ _ _ _ _ _. ⊥ };

    fn send<W: Write>(
        &mut self,
        _out: &mut W,
        block: usize,
        first: u64,
        pages: &Pages<'_>,
    ) -> Result<bool, Trouble> {
        for number in 0..PIECE_PAGES {
            let Some(content) = pages.differing(number) else {
                continue;
            };
            let Some(page) = first.checked_add(number as u64) else {
                return Ok(false);
            };
            if !self.add(Place { block, page }, content)? {
                return Ok(false);
            }
        }
        self.write_run()?;
        Ok(true)
    }
}
