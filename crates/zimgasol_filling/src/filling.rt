//! Writes the pages of a guest into the files of its blocks.

ghost use Rattle.std.specs.Prelude.{◌≡◌, ◌↔◌, ◌⊎◌, ◌+◌, ◌*◌, ◌≤◌, ◌<◌, ◌^◌, ℕ, [], Some, length, IfSome, IfOk, OnOk, IsTrue, replicate};
ghost use Rattle.std.specs.Option.{option_copied, unwrap_or};
ghost use Rattle.mig_mem.specs.Image.{Image, with_page, zero_page, zero_image};
ghost use Rattle.mig_mem.specs.Place.{IsPlace, has_place};
ghost use Rattle.mig_mem.specs.PlaceSet.{PlaceSet};
ghost use Rattle.mig_mem.specs.RamTable.{IsTable};
ghost use Rattle.zimgasol_filling.specs.Filled.{HaveOneBlock, HaveMemory, IsFilled, HasTakenPages, KeepsPages, AreZeros, Marks, StillFilled};

use crate::placed::PlacedFiles;
use crate::run::Run;
use mig_mem::{Dirty, NoMemory, Place, Table};
use mig_zero::is_zero;
use std::alloc::{AllocError, Global};
use std::io::Read;
use zimgasol_files::{Opened, Trouble, piece_buffer};
use zimgasol_reading::{PageSink, SinkTrouble};

/// The most bytes of consecutive pages that are written at once.
const RUN_LEN: usize = 262_144;

/// The files of a guest's blocks, which are being filled.
#[derive(Drop)]
pub struct Filling<F: PlacedFiles + Drop> {
    alloc: Global,
    /// The files.
    pub target: F,
    page_size: u64,
    // the pages that may have other bytes than zeros in their files; None before the table is known
    written: Option<Dirty>,
    run: Run,
    // a page of zeros
    zeros: Vec<u8>,
}

// Returns bytes of zeros.
fn zeros_of(alloc: Global, len: usize) -> Result<Vec<u8>, AllocError>
    ensures { IfOk result (λ v. v.items ≡ replicate len 0) }
{
    Ok(vec![in alloc; 0u8; len]?)
}

impl<F: PlacedFiles + Drop> Filling<F> {
    /// Creates the filling of files that aren't made yet.
    ///
    /// # Errors
    ///
    /// `AllocError`: an allocation was refused.
    pub fn new(alloc: Global, target: F) -> Result<Filling<F>, AllocError>
        ensures { IfOk result (λ f. f.target ≡ target) }
    {
        Ok(Filling {
            alloc,
            target,
            page_size: 0,
            written: None,
            run: Run {
                file: 0,
                start: 0,
                bytes: Vec::with_capacity(alloc, RUN_LEN)?,
            },
            zeros: Vec::new(alloc),
        })
    }

    /// Takes the guest's table. The files are made then, and have only zeros, as a new file has.
    ///
    /// # Errors
    ///
    /// `NoMemory`: an allocation was refused.
    pub fn begin(&mut self, table: &Table) -> Result<(), NoMemory>
        ensures target { self.new.target ≡ self.old.target }
        ensures filled { OnOk result (AreZeros (F.has self.old.target) → IsFilled (F.has self.new.target) (F.file self.new.target) self.new (zero_image table.now)) }
        ensures taken { OnOk result (AreZeros (F.has self.old.target) → HasTakenPages (F.has self.new.target) (F.file self.new.target) self.new table.now []) }
    {
        let page_size = table.page_size();
        self.page_size = page_size;
        self.zeros = zeros_of(self.alloc, page_size as usize)?;
        self.run.bytes.clear();
        self.written = Some(Dirty::none(self.alloc, table)?);
        Ok(())
    }

    /// Writes the bytes that wait.
    ///
    /// # Errors
    ///
    /// The trouble of their file.
    pub fn write_run(&mut self) -> Result<(), SinkTrouble>
        ensures files { OnOk result (F.file self.new.target ≡ F.file self.old.target) }
        ensures none { OnOk result (self.new.run.bytes.items ≡ []) }
        ensures marks { OnOk result (self.new.written ≡ self.old.written) }
        ensures size { OnOk result (self.new.page_size ≡ self.old.page_size) }
        ensures zeros { OnOk result (self.new.zeros.items ≡ self.old.zeros.items) }
        ensures filled { OnOk result (StillFilled (F.has self.old.target) (F.file self.old.target) self.old (F.has self.new.target) (F.file self.new.target) self.new) }
        ensures written { OnOk result ((memory : Image) → IsFilled (F.has self.old.target) (F.file self.old.target) self.old memory
            → HaveMemory (F.has self.new.target) (F.file self.new.target) memory) }
    {
        if self.run.bytes.is_empty() {
            return Ok(());
        }
        self.target
            .write_at(self.run.file, self.run.start, &self.run.bytes)?;
        self.run.bytes.clear();
        Ok(())
    }

    // Makes the next bytes that wait those of a file from its byte `at` on.
    fn turn_to(&mut self, number: usize, at: u64) -> Result<(), SinkTrouble>
        ensures file { OnOk result (self.new.run.file ≡ number) }
        ensures at { OnOk result (at < 2 ^ 63 → self.new.run.start + length self.new.run.bytes.items ≡ at) }
        ensures marks { OnOk result (self.new.written ≡ self.old.written) }
        ensures files { OnOk result (F.file self.new.target ≡ F.file self.old.target) }
        ensures filled { OnOk result (StillFilled (F.has self.old.target) (F.file self.old.target) self.old (F.has self.new.target) (F.file self.new.target) self.new) }
    {
        let follows = self.run.start.saturating_add(self.run.bytes.len() as u64);
        if number == self.run.file && at == follows && self.run.bytes.len() < RUN_LEN {
            return Ok(());
        }
        self.write_run()?;
        self.run.file = number;
        self.run.start = at;
        Ok(())
    }

    // Marks a page that has something else than zeros, if the table has it.
    fn mark(&mut self, place: Place) -> Result<(), NoMemory>
        ensures files { OnOk result (self.new.target ≡ self.old.target) }
        ensures marked { OnOk result ((memory : Image) → IsFilled (F.has self.old.target) (F.file self.old.target) self.old memory
            → IsFilled (F.has self.new.target) (F.file self.new.target) self.new memory) }
        ensures place { OnOk result ((memory : Image) → IsFilled (F.has self.old.target) (F.file self.old.target) self.old memory
            → IsPlace memory.table place → Marks self.new place) }
    {
        let Some(mut written) = self.written.take() else {
            return Ok(());
        };
        if !written.table().holds(place) {
            self.written = Some(written);
            return Ok(());
        }
        let _new = written.mark(place)?;
        self.written = Some(written);
        Ok(())
    }

    // Returns whether a page may have something else than zeros.
    fn may_differ(&self, place: Place) -> bool
        ensures { (set : PlaceSet) → self.now.written ≡ Some set → result ≡ has_place set.marked place }
    {
        match &self.written {
            Some(written) => written.has(place),
            None => true,
        }
    }

    // Adds a page that isn't zeros to the bytes that wait; `at` is its byte in the file `number`.
    fn write_page(
        &mut self,
        place: Place,
        number: usize,
        at: u64,
        page: &[u8],
    ) -> Result<(), SinkTrouble>
        requires own { HaveOneBlock (F.file self.old.target) }
        requires file { F.file self.old.target place.block ≡ Some number }
        ensures place { OnOk result ((memory : Image) → IsFilled (F.has self.old.target) (F.file self.old.target) self.old memory → IsPlace memory.table place
            → at ≡ place.page * memory.table.page_size → at < 2 ^ 63 → length page.now ≡ memory.table.page_size
            → IsFilled (F.has self.new.target) (F.file self.new.target) self.new (with_page memory place page.now)) }
        ensures other { OnOk result ((memory : Image) → IsFilled (F.has self.old.target) (F.file self.old.target) self.old memory → length memory.table.blocks ≤ place.block
            → IsFilled (F.has self.new.target) (F.file self.new.target) self.new memory) }
    {
        self.mark(place)?;
        self.turn_to(number, at)?;
        self.run.bytes.extend_from_slice(page)?;
        Ok(())
    }

    // Writes a page of zeros, unless it is zeros already.
    fn write_zeros(&mut self, place: Place, number: usize, at: u64) -> Result<(), SinkTrouble>
        requires own { HaveOneBlock (F.file self.old.target) }
        requires file { F.file self.old.target place.block ≡ Some number }
        ensures place { OnOk result ((memory : Image) → IsFilled (F.has self.old.target) (F.file self.old.target) self.old memory → IsPlace memory.table place
            → at ≡ place.page * memory.table.page_size
            → IsFilled (F.has self.new.target) (F.file self.new.target) self.new (with_page memory place (zero_page memory.table.page_size))) }
        ensures other { OnOk result ((memory : Image) → IsFilled (F.has self.old.target) (F.file self.old.target) self.old memory → length memory.table.blocks ≤ place.block
            → IsFilled (F.has self.new.target) (F.file self.new.target) self.new memory) }
    {
        if !self.may_differ(place) {
            return Ok(());
        }
        self.write_run()?;
        self.target.write_at(number, at, &self.zeros)?;
        Ok(())
    }

    // Returns whether a page is written: the table has it, or it is of a block that the table
    // hasn't.
    fn takes(&self, place: Place) -> bool
        ensures value { (set : PlaceSet) → self.now.written ≡ Some set → IsTrue result ↔ (IsPlace set.table place ⊎ (length set.table.blocks ≤ place.block)) }
        ensures table { (set : PlaceSet) → self.now.written ≡ Some set → IsTable set.table }
    {
        match &self.written {
            Some(written) => {
                let table = written.table();
                table.holds(place) || place.block >= table.len()
            }
            None => false,
        }
    }

    /// Puts the content of a page into the file of its block, if it has one: its bytes, or None for
    /// a page of zeros.
    ///
    /// # Errors
    ///
    /// The trouble of a file.
    pub fn put_page(&mut self, place: Place, content: Option<&[u8]>) -> Result<(), SinkTrouble>
        ensures place { OnOk result ((memory : Image) → IsFilled (F.has self.old.target) (F.file self.old.target) self.old memory → IsPlace memory.table place
            → IfSome content.entry (λ bytes. length bytes.now ≡ memory.table.page_size)
            → IsFilled (F.has self.new.target) (F.file self.new.target) self.new (with_page memory place (unwrap_or (option_copied content.entry) (zero_page memory.table.page_size)))) }
        ensures other { OnOk result ((memory : Image) → IsFilled (F.has self.old.target) (F.file self.old.target) self.old memory → (IsPlace memory.table place → ⊥)
            → IsFilled (F.has self.new.target) (F.file self.new.target) self.new memory) }
    {
        let Some(number) = self.target.file_of(place.block) else {
            return Ok(());
        };
        if !self.takes(place) {
            return Ok(());
        }
        let at = place.page.saturating_mul(self.page_size);
        let Some(page) = content else {
            return self.write_zeros(place, number, at);
        };
        if is_zero(page) {
            return self.write_zeros(place, number, at);
        }
        self.write_page(place, number, at, page)
    }

    // Puts pages of a block, from page `first` on. Returns whether `bytes` are whole pages.
    fn put_pages(&mut self, block: usize, first: u64, bytes: &[u8]) -> Result<bool, SinkTrouble>
        ensures { OnOk result (KeepsPages (F.has self.old.target) (F.file self.old.target) self.old (F.has self.new.target) (F.file self.new.target) self.new) }
    {
        let mut page = first;
        for content in bytes.chunks(self.page_size.max(1) as usize) {
            if content.len() as u64 != self.page_size {
                return Ok(false);
            }
            self.put_page(Place { block, page }, Some(content))?;
            page = page.saturating_add(1);
        }
        Ok(true)
    }

    /// Puts the pages of `input` into the file of a block, up to its end. Returns their number in
    /// bytes; None if they aren't whole pages.
    ///
    /// # Errors
    ///
    /// Those of `input`, and the trouble of a file.
    pub fn copy<R: Read + Drop>(
        &mut self,
        block: usize,
        input: &mut Opened<R>,
    ) -> Result<Option<u64>, Trouble>
        ensures { OnOk result (KeepsPages (F.has self.old.target) (F.file self.old.target) self.old (F.has self.new.target) (F.file self.new.target) self.new) }
    {
        let mut buffer = piece_buffer(self.alloc)?;
        let mut at = 0u64;
        'pieces: for _ in 0..u64::MAX {
            let len = input.read(&mut buffer)?;
            if len == 0 {
                return Ok(Some(at));
            }
            let first = at / self.page_size.max(1);
            let are_whole = self.put_pages(block, first, &buffer[..len])?;
            if !are_whole {
                return Ok(None);
            }
            at = at.saturating_add(len as u64);
        }
        Ok(None)
    }
}

impl<F: PlacedFiles + Drop> PageSink for Filling<F> {
    ghost use Rattle.zimgasol_filling.specs.Filled.{HasTakenPages};

    ghost holds = { λ f. HasTakenPages (F.has f.target) (F.file f.target) f };

    fn take_page(&mut self, place: Place, content: Option<&[u8]>) -> Result<(), SinkTrouble> {
        self.put_page(place, content)
    }
}
