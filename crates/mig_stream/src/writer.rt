//! The writer of a stream. From a table and parts it writes the one stream that
//! `specs/Written.antt` defines. The senders of `mig_send` call it.
//!
//! It only appends. Its caller decides which rounds there are, and which stream a part belongs to.

ghost use Rattle.std.specs.Prelude.{◌≡◌, ◌+◌, ◌*◌, ◌<◌, ◌^◌, ◌++◌, ◌==◌, ◌≤◌, if◌then◌else◌, ℕ, List, [], ◌∷◌, length, take, None, Some, IfOk, IfErr, OnOk, OnErr};
ghost use Rattle.mig_mem.specs.RamTable.{block as block_at};
ghost use Rattle.mig_mem.specs.Place.{IsPlace};
ghost use Rattle.mig_mem.specs.Image.{Page};
ghost use Rattle.mig_mem.specs.Round.{round_of};
ghost use Rattle.mig_zero.specs.Zero.{is_zero as zero_test};
ghost use Rattle.mig_stream.specs.Fields.{counted};
ghost use Rattle.mig_stream.specs.Format.{flags_of, most_name_bytes};
ghost use Rattle.mig_stream.specs.Text.{file_header, configuration};
ghost use Rattle.mig_stream.specs.PageRecord.{page_kind};
ghost use Rattle.mig_stream.specs.Written.{Part, RoundPart, FlushPart, is_named, opening, closing, written, written_so_far};
ghost use Rattle.mig_stream.specs.MachineWritten.{machine_written};
ghost use Rattle.mig_stream.specs.Writer.{HasWritten, HasDrained, HasPut, with_pages, with_part, KeepsFront};

use crate::format::{CONTINUED_PAGE, CONTINUED_ZERO, RAM_SAVE_FLAG_PAGE, RAM_SAVE_FLAG_ZERO};
use crate::opening::{SECTION_END, configuration_of, opening_of, start_of};
use mig_mem::{Dirty, GuestPages, NoMemory, Place, Table};
use mig_zero::is_zero;
use std::alloc::{Allocator, Global};
use std::fmt;
use std::marker::Model;

// QEMU_VM_SECTION_PART and the section id.
const PART_HEAD: [u8; 5] = [0x02, 0, 0, 0, 1];

// A PART that holds RAM_SAVE_FLAG_MULTIFD_FLUSH and RAM_SAVE_FLAG_EOS alone, with its footer.
const FLUSH_PART: [u8; 26] = [
    0x02, 0, 0, 0, 1, 0, 0, 0, 0, 0, 0, 0x02, 0, 0, 0, 0, 0, 0, 0, 0, 0x10, 0x7E, 0, 0, 0, 1,
];

// QEMU_VM_SECTION_END with RAM_SAVE_FLAG_EOS alone and its footer.
const END: [u8; 18] = [
    0x03, 0, 0, 0, 1, 0, 0, 0, 0, 0, 0, 0, 0x10, 0x7E, 0, 0, 0, 1,
];

// QEMU_VM_SECTION_END as in `END`, and QEMU_VM_EOF.
const CLOSING: [u8; 19] = [
    0x03, 0, 0, 0, 1, 0, 0, 0, 0, 0, 0, 0, 0x10, 0x7E, 0, 0, 0, 1, 0x00,
];

/// Writes a stream: the file header and START when it is created, a PART for each part, and END
/// when it is finished.
///
/// # Examples
///
/// A stream with one round is written. The contract of `part` requires that the tables are equal:
///
/// <!-- quoted from crates/mig_mem_tests/src/rounds.rt -->
/// ```rust
/// let mut writer = StreamWriter::new(rt.alloc(), image.table()).expect(rt, "a writer");
/// assert!(rt; image.table().same(writer.table()));
/// assert!(rt; dirty.table().same(writer.table()));
/// assert!(rt; writer.part(&image, &dirty).is_ok());
/// writer.finish().ok().expect(rt, "a stream")
/// ```
pub struct StreamWriter<A: Allocator = Global> {
    table: Table<A>,
    text: Vec<u8, A>,
    named: Option<usize>,
}

// Written out, so that a caller's proof passes a call where a value is dropped.
impl<A: Allocator> Drop for StreamWriter<A> {
    fn drop(self) {
        let StreamWriter {
            table: _,
            text: _,
            named: _,
        } = self;
    }
}

impl<A: Allocator> Model for StreamWriter<A> {
    ghost use Rattle.mig_stream.specs.Writer.{Writer};

    ghost Value = { Writer };

    ghost view = { λ w. record { table = w.table; text = w.text.items; named = w.named } };
}

// Guest memory isn't printed.
impl<A: Allocator> fmt::Debug for StreamWriter<A> {
    fn fmt<W: fmt::Write>(&self, f: &mut fmt::Formatter<W>) -> fmt::Result {
        f.pad("StreamWriter { .. }")
    }
}

// Returns whether a page is of zeros.
fn is_zero_page(content: &[u8]) -> bool
    ensures { result ≡ zero_test content.now }
{
    is_zero(content)
}

impl<A: Allocator + Copy> StreamWriter<A> {
    /// Creates a writer without a part. It keeps a copy of the table.
    ///
    /// # Errors
    ///
    /// `NoMemory`: an allocation was refused.
    pub fn new<B: Allocator>(alloc: A, table: &Table<B>) -> Result<StreamWriter<A>, NoMemory>
        ensures table { IfOk result (λ w. w.table ≡ table.now) }
        ensures none { IfOk result (λ w. HasWritten w []) }
    {
        let text = opening_of(alloc, table)?;
        let table = table.copy_in(alloc)?;
        Ok(StreamWriter {
            table,
            text,
            named: None,
        })
    }

    /// Creates a writer for a machine's stream. Returns the stream's first bytes, the file header
    /// and a configuration with the machine's `name`, and the writer of what follows them. QEMU
    /// refuses a stream with another name than its own machine's (`configuration_post_load` in
    /// `migration/savevm.c`).
    ///
    /// `configured_is_written` says what both write together.
    ///
    /// # Errors
    ///
    /// `NoMemory`: an allocation was refused.
    pub fn with_configuration<B: Allocator>(
        alloc: A,
        table: &Table<B>,
        name: &[u8],
    ) -> Result<(Vec<u8, A>, StreamWriter<A>), NoMemory>
        requires name { length name.now ≤ most_name_bytes }
        ensures first { IfOk result (λ r. r.0.items ≡ file_header ++ configuration (Some name.now)) }
        ensures table { IfOk result (λ r. r.1.table ≡ table.now) }
        ensures none { IfOk result (λ r. HasDrained file_header r.1 []) }
    {
        let first = configuration_of(alloc, name)?;
        let text = start_of(alloc, table)?;
        let table = table.copy_in(alloc)?;
        let named = None;
        Ok((first, StreamWriter { table, text, named }))
    }
}

impl<A: Allocator> StreamWriter<A> {
    /// Returns the table whose pages the writer writes.
    pub fn table(&self) -> &Table<A>
        ensures { result.now ≡ self.now.table }
    {
        &self.table
    }

    /// Writes the round of an image and its dirty pages, as one PART.
    ///
    /// # Errors
    ///
    /// `NoMemory`: an allocation was refused. Nothing changes.
    pub fn part<G: GuestPages, C: Allocator>(
        &mut self,
        image: &G,
        dirty: &Dirty<C>,
    ) -> Result<(), NoMemory>
        requires image { (G.image image.now).table ≡ self.old.table }
        requires dirty { dirty.now.table ≡ self.old.table }
        ensures table { self.new.table ≡ self.old.table }
        ensures ok { OnOk result ((drained : List ℕ) (parts : List Part) → HasDrained drained self.old parts
            → HasDrained drained self.new (parts ++ RoundPart (round_of (G.image image.now) dirty.now.marked) ∷ [])) }
        ensures err { OnErr result (self.new ≡ self.old) }
    {
        let len = self.text.len();
        let named = self.named;
        let put = self.put_part(image, dirty);
        if put.is_err() {
            self.go_back(len, named);
        }
        put
    }

    // Goes back to where the stream had `len` bytes and `named` was the last block named.
    fn go_back(&mut self, len: usize, named: Option<usize>)
        ensures { self.new ≡ record self.old { text = take len self.old.text; named = named } }
    {
        self.text.truncate(len);
        self.named = named;
    }

    // Writes a PART. After an `Err` a part of it may have been written.
    fn put_part<G: GuestPages, C: Allocator>(
        &mut self,
        image: &G,
        dirty: &Dirty<C>,
    ) -> Result<(), NoMemory>
        requires image { (G.image image.now).table ≡ self.old.table }
        requires dirty { dirty.now.table ≡ self.old.table }
        ensures ok { OnOk result (self.new ≡ with_part self.old (RoundPart (round_of (G.image image.now) dirty.now.marked))) }
        ensures err { OnErr result (KeepsFront self.old self.new) }
    {
        self.text.extend_from_slice(&PART_HEAD)?;
        self.put_pages(image, dirty)?;
        self.text.extend_from_slice(&SECTION_END)?;
        Ok(())
    }

    // Writes the records of the dirty pages, in the order of their places. After an `Err` some of
    // them may have been written.
    fn put_pages<G: GuestPages, C: Allocator>(
        &mut self,
        image: &G,
        dirty: &Dirty<C>,
    ) -> Result<(), NoMemory>
        requires image { (G.image image.now).table ≡ self.old.table }
        requires dirty { dirty.now.table ≡ self.old.table }
        ensures ok { OnOk result (self.new ≡ with_pages self.old (round_of (G.image image.now) dirty.now.marked)) }
        ensures err { OnErr result (KeepsFront self.old self.new) }
    {
        let mut from = Place { block: 0, page: 0 };
        for _ in 0..dirty.count() {
            let Some(place) = dirty.first_from(from) else {
                break;
            };
            if let Some(content) = image.page(place) {
                self.put_page(place, content)?;
            }
            from = Place {
                block: place.block,
                page: place.page + 1,
            };
        }
        Ok(())
    }

    // Writes the record of a page. After an `Err` a part of it may have been written.
    fn put_page(&mut self, place: Place, content: &[u8]) -> Result<(), NoMemory>
        requires { IsPlace self.old.table place }
        ensures ok { OnOk result (self.new ≡ with_pages self.old (record { place = place; content = content.now } ∷ [])) }
        ensures err { OnErr result (KeepsFront self.old self.new) }
    {
        let is_named = self.is_named(place.block);
        let is_zero = is_zero_page(content);
        let head = self.head(place, is_named, is_zero);
        self.text.extend_from_slice(&head.to_be_bytes())?;
        if !is_named {
            self.put_name(place.block)?;
        }
        if is_zero {
            self.text.push(0)?;
        } else {
            self.text.extend_from_slice(content)?;
        }
        self.named = Some(place.block);
        Ok(())
    }

    // Returns the head of a page record.
    fn head(&self, place: Place, is_named: bool, is_zero: bool) -> u64
        requires { IsPlace self.now.table place }
        ensures { (bytes : List ℕ) → let kind = page_kind is_named (if is_zero then None else Some bytes) in
            result ≡ place.page * self.now.table.page_size + flags_of kind }
    {
        let _pages = self.table.pages(place.block);
        let flags = match (is_named, is_zero) {
            (false, true) => RAM_SAVE_FLAG_ZERO,
            (false, false) => RAM_SAVE_FLAG_PAGE,
            (true, true) => CONTINUED_ZERO,
            (true, false) => CONTINUED_PAGE,
        };
        place.page * self.table.page_size() + u64::from(flags)
    }

    // Writes the id of a block with its length.
    fn put_name(&mut self, block: usize) -> Result<(), NoMemory>
        requires { block < length self.old.table.blocks }
        ensures ok { OnOk result (self.new ≡ record self.old { text = self.old.text ++ counted (block_at self.old.table.blocks block).id }) }
        ensures err { OnErr result (KeepsFront self.old self.new) }
    {
        let id = self.table.id(block);
        self.text.push(id.len() as u8)?;
        self.text.extend_from_slice(id)?;
        Ok(())
    }

    // Returns whether the last page record was of this block.
    fn is_named(&self, block: usize) -> bool
        ensures { result ≡ is_named self.now.named block }
    {
        match self.named {
            Some(named) => named == block,
            None => false,
        }
    }

    /// Writes a FLUSH, as one PART.
    ///
    /// # Errors
    ///
    /// `NoMemory`: an allocation was refused. Nothing changes.
    pub fn flush_part(&mut self) -> Result<(), NoMemory>
        ensures table { self.new.table ≡ self.old.table }
        ensures ok { OnOk result ((drained : List ℕ) (parts : List Part) → HasDrained drained self.old parts
            → HasDrained drained self.new (parts ++ FlushPart ∷ [])) }
        ensures err { OnErr result (self.new ≡ self.old) }
    {
        self.text.extend_from_slice(&FLUSH_PART)?;
        Ok(())
    }

    /// Begins a part whose pages are put one by one.
    ///
    /// # Errors
    ///
    /// The writer, as it was: an allocation was refused.
    pub fn begin_part(mut self) -> Result<OpenPart<A>, StreamWriter<A>>
        ensures before { IfOk result (λ part. part.before ≡ self) }
        ensures none { IfOk result (λ part. HasPut part []) }
        ensures err { IfErr result (λ w. w ≡ self) }
    {
        let len = self.text.len();
        let named = self.named;
        match self.text.extend_from_slice(&PART_HEAD) {
            Ok(()) => Ok(OpenPart {
                writer: self,
                len,
                named,
            }),
            Err(_) => Err(self),
        }
    }

    /// Returns the bytes that were written and not drained yet. All bytes drained are the stream so
    /// far: the drained pieces, and then what `finish` returns, are the stream. It allocates
    /// nothing.
    pub fn drain(&mut self) -> Vec<u8, A>
    where
        A: Copy,
        ensures table { self.new.table ≡ self.old.table }
        ensures all { (drained : List ℕ) (parts : List Part) → HasDrained drained self.old parts
            → drained ++ result.items ≡ written_so_far self.old.table parts }
        ensures drained { (drained : List ℕ) (parts : List Part) → HasDrained drained self.old parts
            → HasDrained (drained ++ result.items) self.new parts }
    {
        let mut bytes = Vec::new(*self.text.allocator());
        self.drain_into(&mut bytes);
        bytes
    }

    /// Drains into `bytes`, as `drain` does. The buffer's old bytes are dropped, and its room is
    /// used for the bytes that are written next. So two buffers suffice for a stream of any length.
    pub fn drain_into(&mut self, bytes: &mut Vec<u8, A>)
        ensures table { self.new.table ≡ self.old.table }
        ensures all { (drained : List ℕ) (parts : List Part) → HasDrained drained self.old parts
            → drained ++ bytes.new.items ≡ written_so_far self.old.table parts }
        ensures drained { (drained : List ℕ) (parts : List Part) → HasDrained drained self.old parts
            → HasDrained (drained ++ bytes.new.items) self.new parts }
    {
        bytes.clear();
        std::mem::swap(&mut self.text, bytes);
    }

    /// Ends the stream, and returns the bytes that weren't drained.
    ///
    /// # Errors
    ///
    /// The writer, as it was: an allocation was refused.
    pub fn finish(self) -> Result<Vec<u8, A>, StreamWriter<A>>
        ensures ok { IfOk result (λ text. (drained : List ℕ) (parts : List Part) → HasDrained drained self parts
            → drained ++ text.items ≡ written self.table parts) }
        ensures err { IfErr result (λ w. w ≡ self) }
    {
        self.finish_with(&CLOSING)
    }

    /// Ends RAM's sections without the stream's end byte, and returns the bytes that weren't
    /// drained. The caller then writes the sections of devices and the end byte
    /// (`qemu_savevm_state_complete_precopy` in QEMU's `migration/savevm.c`).
    ///
    /// # Errors
    ///
    /// The writer, as it was: an allocation was refused.
    pub fn finish_open(self) -> Result<Vec<u8, A>, StreamWriter<A>>
        ensures ok { IfOk result (λ text. (drained : List ℕ) (parts : List Part) → HasDrained drained self parts
            → drained ++ text.items ≡ machine_written None self.table parts) }
        ensures err { IfErr result (λ w. w ≡ self) }
    {
        self.finish_with(&END)
    }

    // Appends the stream's last bytes, and returns the bytes that weren't drained. An `Err` returns
    // the writer as it was.
    fn finish_with(mut self, last: &[u8]) -> Result<Vec<u8, A>, StreamWriter<A>>
        ensures ok { IfOk result (λ text. text.items ≡ self.text ++ last.now) }
        ensures err { IfErr result (λ w. w ≡ self) }
    {
        match self.text.extend_from_slice(last) {
            Ok(()) => {
                let StreamWriter {
                    table: _,
                    text,
                    named: _,
                } = self;
                Ok(text)
            }
            Err(_) => Err(self),
        }
    }
}

/// A part that is written page after page: a round whose pages are what its caller read, as of a
/// guest that runs on. It has the writer until the part is ended or cancelled. If it is dropped,
/// the writer is dropped too, and the stream can't be finished.
pub struct OpenPart<A: Allocator = Global> {
    writer: StreamWriter<A>,
    // the length of the stream before the part, and the block that was named last there
    len: usize,
    named: Option<usize>,
}

// Written out, so that a caller's proof passes a call where a value is dropped.
impl<A: Allocator> Drop for OpenPart<A> {
    fn drop(self) {
        let OpenPart {
            writer: _,
            len: _,
            named: _,
        } = self;
    }
}

impl<A: Allocator> Model for OpenPart<A> {
    ghost use Rattle.std.specs.Prelude.{◌≤◌, length, take};
    ghost use Rattle.mig_stream.specs.Writer.{PartSoFar};

    ghost Value = { PartSoFar };

    ghost view = { λ p. record { before = record { table = p.writer.table; text = take p.len p.writer.text; named = p.named }; now = p.writer } };

    ghost invariant = { λ p. p.len ≤ length p.writer.text };
}

// Guest memory isn't printed.
impl<A: Allocator> fmt::Debug for OpenPart<A> {
    fn fmt<W: fmt::Write>(&self, f: &mut fmt::Formatter<W>) -> fmt::Result {
        f.pad("OpenPart { .. }")
    }
}

impl<A: Allocator> OpenPart<A> {
    /// Returns the table whose pages the part writes.
    pub fn table(&self) -> &Table<A>
        ensures { result.now ≡ self.now.before.table }
    {
        self.writer.table()
    }

    /// Writes a page: a place of the table, which a caller tests by `Table::holds`, and its bytes.
    /// Places may be in any order. If a place occurs more than once, the last page counts.
    ///
    /// # Errors
    ///
    /// `NoMemory`: an allocation was refused. Nothing changes, so the page can be put again.
    pub fn put_page(&mut self, place: Place, bytes: &[u8]) -> Result<(), NoMemory>
        requires place { IsPlace self.old.before.table place }
        requires bytes { length bytes.now ≡ self.old.before.table.page_size }
        ensures before { self.new.before ≡ self.old.before }
        ensures ok { OnOk result ((pages : List Page) → HasPut self.old pages
            → HasPut self.new (pages ++ record { place = place; content = bytes.now } ∷ [])) }
        ensures err { OnErr result (self.new ≡ self.old) }
    {
        let len = self.writer.text.len();
        let named = self.writer.named;
        let put = self.writer.put_page(place, bytes);
        if put.is_err() {
            self.writer.go_back(len, named);
        }
        put
    }

    /// Ends the part: the round of the pages that were put, in their order.
    ///
    /// # Errors
    ///
    /// The part, as it was: an allocation was refused.
    pub fn end_part(mut self) -> Result<StreamWriter<A>, OpenPart<A>>
        ensures table { IfOk result (λ w. w.table ≡ self.before.table) }
        ensures ok { IfOk result (λ w. (pages : List Page) → HasPut self pages → (drained : List ℕ) (parts : List Part) → HasDrained drained self.before parts
            → HasDrained drained w (parts ++ RoundPart pages ∷ [])) }
        ensures err { IfErr result (λ part. part ≡ self) }
    {
        match self.writer.text.extend_from_slice(&SECTION_END) {
            Ok(()) => {
                let OpenPart {
                    writer,
                    len: _,
                    named: _,
                } = self;
                Ok(writer)
            }
            Err(_) => Err(self),
        }
    }

    /// Cancels the part, and returns the writer as it was before.
    pub fn cancel(mut self) -> StreamWriter<A>
        ensures { result ≡ self.before }
    {
        let OpenPart {
            mut writer,
            len,
            named,
        } = self;
        writer.go_back(len, named);
        writer
    }
}
