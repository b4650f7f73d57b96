//! Makes the bytes of a plain stream that a file with mapped-ram doesn't have: the size list's
//! entries without headers and bitmaps, and page records.

ghost use Rattle.std.specs.Prelude.{◌≡◌, ◌+◌, ◌-◌, ◌*◌, ◌<◌, ◌≤◌, ◌++◌, ◌==◌, not, length, [], None, Some, IfOk, OnOk};
ghost use Rattle.std.specs.List.{flat_map, range_with_len};
ghost use Rattle.std.specs.Option.{option_copied};
ghost use Rattle.mig_mem.specs.Place.{IsPlace};
ghost use Rattle.mig_mem.specs.RamTable.{block as block_at};
ghost use Rattle.mig_stream.specs.Fields.{be64, counted};
ghost use Rattle.mig_stream.specs.Format.{flags_of};
ghost use Rattle.mig_stream.specs.PageRecord.{page_kind};
ghost use Rattle.mig_stream.specs.Text.{entry, record_bytes, content_bytes, name_bytes};
ghost use Rattle.zimgasol_mapped.specs.Records.{record_of, records_bytes, no_content, part_of};

use mig_mem::{Place, Table};
use std::alloc::Global;
use std::io;

/// RAM_SAVE_FLAG_ZERO: the page is zeros.
const ZERO: u64 = 0x002;

/// RAM_SAVE_FLAG_PAGE: the page's content follows.
const PAGE: u64 = 0x008;

/// RAM_SAVE_FLAG_CONTINUE: the block is that of the page record before.
const CONTINUE: u64 = 0x020;

/// Bytes of a plain stream that weren't given yet.
#[derive(Drop)]
pub(crate) struct Records {
    /// The guest's blocks.
    pub(crate) table: Table,
    /// The bytes.
    pub(crate) bytes: Vec<u8>,
}

// Returns the flags of the record of a page with this number in its block.
fn flags_of(page: u64, content: Option<&[u8]>) -> u64
    ensures value { result ≡ flags_of (page_kind (not (page == 0)) (option_copied content.entry)) }
    ensures small { result < 64 }
{
    let filling = match content {
        Some(_) => PAGE,
        None => ZERO,
    };
    if page == 0 {
        return filling;
    }
    filling + CONTINUE
}

impl Records {
    /// Creates the bytes of a stream before its first one.
    pub(crate) fn new(alloc: Global, table: Table) -> Records
        ensures table { result.table ≡ table }
        ensures none { result.bytes.items ≡ [] }
    {
        Records {
            table,
            bytes: Vec::new(alloc),
        }
    }

    // Appends the id of a block with its length.
    fn put_id(&mut self, block: usize) -> io::Result<()>
        requires { block < length self.old.table.blocks }
        ensures table { self.new.table ≡ self.old.table }
        ensures bytes { OnOk result (self.new.bytes.items ≡ self.old.bytes.items ++ counted (block_at self.old.table.blocks block).id) }
    {
        let id = self.table.id(block);
        self.bytes.push(id.len() as u8)?;
        self.bytes.extend_from_slice(id)?;
        Ok(())
    }

    // Appends the entry of a block.
    fn put_entry(&mut self, block: usize) -> io::Result<()>
        requires { block < length self.old.table.blocks }
        ensures table { self.new.table ≡ self.old.table }
        ensures bytes { OnOk result (self.new.bytes.items ≡ self.old.bytes.items ++ entry self.old.table.page_size (block_at self.old.table.blocks block)) }
    {
        let len = self.table.pages(block) * self.table.page_size();
        self.put_id(block)?;
        self.bytes.extend_from_slice(&len.to_be_bytes())?;
        Ok(())
    }

    /// Appends the entries of the size list.
    ///
    /// # Errors
    ///
    /// An allocation was refused. Some bytes may have been appended.
    pub(crate) fn put_entries(&mut self) -> io::Result<()>
        ensures table { self.new.table ≡ self.old.table }
        ensures bytes { OnOk result (self.new.bytes.items ≡ self.old.bytes.items ++ flat_map (entry self.old.table.page_size) self.old.table.blocks) }
    {
        for block in 0..self.table.len() {
            self.put_entry(block)?;
        }
        Ok(())
    }

    // Appends the head of a page's record.
    fn put_head(&mut self, place: Place, flags: u64) -> io::Result<()>
        requires place { IsPlace self.old.table place }
        requires flags { flags < 64 }
        ensures table { self.new.table ≡ self.old.table }
        ensures bytes { OnOk result (self.new.bytes.items ≡ self.old.bytes.items ++ be64 (place.page * self.old.table.page_size + flags)) }
    {
        let _pages = self.table.pages(place.block);
        let head = place.page * self.table.page_size() + flags;
        self.bytes.extend_from_slice(&head.to_be_bytes())?;
        Ok(())
    }

    // Appends the id of the block, if the page is its first one.
    fn put_name(&mut self, place: Place) -> io::Result<()>
        requires { place.block < length self.old.table.blocks }
        ensures table { self.new.table ≡ self.old.table }
        ensures bytes { OnOk result (self.new.bytes.items ≡ self.old.bytes.items ++ name_bytes self.old.table.blocks (not (place.page == 0)) place.block) }
    {
        if place.page != 0 {
            return Ok(());
        }
        self.put_id(place.block)
    }

    // Appends what a page's record has of its content.
    fn put_content(&mut self, content: Option<&[u8]>) -> io::Result<()>
        ensures table { self.new.table ≡ self.old.table }
        ensures bytes { OnOk result (self.new.bytes.items ≡ self.old.bytes.items ++ content_bytes (option_copied content.entry)) }
    {
        match content {
            Some(content) => self.bytes.extend_from_slice(content)?,
            None => self.bytes.push(0)?,
        }
        Ok(())
    }

    // Appends the record of a page: its content, or None if it is zeros.
    fn put(&mut self, place: Place, content: Option<&[u8]>) -> io::Result<()>
        requires { IsPlace self.old.table place }
        ensures table { self.new.table ≡ self.old.table }
        ensures bytes { OnOk result (self.new.bytes.items ≡ self.old.bytes.items ++ record_bytes self.old.table (record_of place (option_copied content.entry))) }
    {
        self.put_head(place, flags_of(place.page, content))?;
        self.put_name(place)?;
        self.put_content(content)
    }

    /// Appends records of zeros for the pages of a block from `first` on, up to `end`.
    ///
    /// # Errors
    ///
    /// An allocation was refused. Some bytes may have been appended.
    pub(crate) fn put_zeros(&mut self, block: usize, first: u64, end: u64) -> io::Result<()>
        requires block { block < length self.old.table.blocks }
        requires first { first ≤ end }
        requires end { end ≤ (block_at self.old.table.blocks block).pages }
        ensures table { self.new.table ≡ self.old.table }
        ensures bytes { OnOk result (self.new.bytes.items ≡ self.old.bytes.items ++ records_bytes self.old.table block no_content (range_with_len first (end - first))) }
    {
        for page in first..end {
            self.put(Place { block, page }, None)?;
        }
        Ok(())
    }

    /// Appends records of the pages of a block from `first` on, up to `end`, whose contents follow
    /// each other in `contents`: of all that `contents` have completely. Returns the page after the
    /// last one.
    ///
    /// # Errors
    ///
    /// An allocation was refused. Some bytes may have been appended.
    pub(crate) fn put_pages(
        &mut self,
        block: usize,
        first: u64,
        end: u64,
        contents: &[u8],
    ) -> io::Result<u64>
        requires block { block < length self.old.table.blocks }
        requires first { first ≤ end }
        requires end { end ≤ (block_at self.old.table.blocks block).pages }
        ensures table { self.new.table ≡ self.old.table }
        ensures low { IfOk result (λ after. first ≤ after) }
        ensures high { IfOk result (λ after. after ≤ end) }
        ensures fits { IfOk result (λ after. (after - first) * self.old.table.page_size ≤ length contents.now) }
        ensures all { IfOk result (λ after. after < end → length contents.now < (after - first + 1) * self.old.table.page_size) }
        ensures bytes { IfOk result (λ after. self.new.bytes.items ≡ self.old.bytes.items
            ++ records_bytes self.old.table block (part_of self.old.table.page_size contents.now first) (range_with_len first (after - first))) }
    {
        let size = self.table.page_size() as usize;
        let mut rest = contents;
        for page in first..end {
            if rest.len() < size {
                return Ok(page);
            }
            let (content, after) = rest.split_at(size);
            self.put(Place { block, page }, Some(content))?;
            rest = after;
        }
        Ok(end)
    }
}
