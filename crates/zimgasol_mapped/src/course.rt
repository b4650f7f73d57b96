//! Makes the bytes of a plain stream in pieces, and says how far it was given.

ghost use Rattle.std.specs.Prelude.{◌≡◌, ◌⊎◌, ◌-◌, ◌<◌, ◌≤◌, ℕ, List, [], length, min, take, drop, Some, IfOk, OnOk, OnErr};
ghost use Rattle.std.specs.Option.{option_map};
ghost use Rattle.std.specs.Io.KnownBytes.{Consumes, IsAtEnd};
ghost use Rattle.mig_mapped.specs.Block.{mapped_block};
ghost use Rattle.zimgasol_mapped.specs.declared.course.Stage.TheVariants as stage;
ghost use Rattle.zimgasol_mapped.specs.Plain.{plain_stream};
ghost use Rattle.zimgasol_mapped.specs.Course.{raw_at, left_of, IsRunAt, IsCourse, IsEmpty, Stays, Goes};

use crate::placed::{PlacedFile, read_front};
use crate::records::Records;
use crate::sparse::set_raw;
use mig_mapped::{MappedIndex, MappedRun};
use mig_mem::Place;
use std::alloc::Global;
use std::io::{self, ErrorKind};
use zimgasol_files::Trouble;

/// The most bytes that are read at once.
const READ_LEN: usize = 262_144;

/// The most records of zeros that are made at once.
const MOST_ZEROS: u64 = 4096;

/// A run without a page, at the beginning of a block.
const NO_RUN: MappedRun = MappedRun {
    page: 0,
    pages: 0,
    offset: 0,
};

/// What of the plain stream is made next.
#[derive(Clone, Copy)]
pub(crate) enum Stage {
    /// The file's bytes before the stream: from the first byte on, up to the second.
    Before(u64, u64),
    /// The front, and the entries of the size list.
    Front,
    /// The records of pages.
    Pages,
    /// The file's bytes after the last block's pages, from this one on.
    After(u64),
    /// Nothing: the file has ended.
    Over,
}

/// How far a plain stream was given.
#[derive(Drop)]
pub(crate) struct Course<F: Drop> {
    file: F,
    index: MappedIndex,
    stage: Stage,
    // the next page
    next: Place,
    // the next pages of its block that the file has: those before them are zeros
    run: MappedRun,
    // the front without the capability
    front: Vec<u8>,
    // the bytes that are given next, and how many of them were given
    records: Records,
    given: usize,
    // what is read of the file
    buffer: Vec<u8>,
}

// Copies bytes of `from`, from the byte `at` on, into `to`: as many as it has room for. Returns how
// many.
fn copy_some(from: &[u8], at: usize, to: &mut [u8]) -> usize
    ensures len { length to.new ≡ length to.old }
    ensures count { result ≡ min (length from.now - at) (length to.old) }
    ensures bytes { take result to.new ≡ take result (drop at from.now) }
{
    if at >= from.len() {
        return 0;
    }
    let from = &from[at..];
    let len = from.len().min(to.len());
    to[..len].copy_from_slice(&from[..len]);
    len
}

// Appends the bytes before the stream that were read from the byte `at` on. With those of libvirt's
// header it sets the format.
fn append_header(bytes: &mut Vec<u8>, read: &[u8], at: u64) -> io::Result<()>
    requires { bytes.old.items ≡ [] }
    ensures { OnOk result (bytes.new.items ≡ raw_at at read.now) }
{
    bytes.extend_from_slice(read)?;
    if at == 0 {
        set_raw(bytes);
    }
    Ok(())
}

// Returns the first pages of a block of `pages` pages, from `next` on, that the file has.
fn next_run(index: &MappedIndex, next: Place, pages: u64) -> MappedRun
    requires block { next.block < length index.now.blocks }
    requires pages { pages ≡ (mapped_block index.now.blocks next.block).pages }
    requires page { next.page ≤ pages }
    ensures { IsRunAt index.now next result }
{
    match index.wanted(next.block, next.page) {
        Some(run) => run,
        None => MappedRun {
            page: pages,
            pages: 0,
            offset: 0,
        },
    }
}

impl<F: PlacedFile + Drop> Course<F> {
    /// Creates the course of a file before its first byte.
    ///
    /// # Errors
    ///
    /// `Trouble::NoMemory`.
    pub(crate) fn new(
        alloc: Global,
        file: F,
        index: MappedIndex,
        front: Vec<u8>,
        before: u64,
    ) -> Result<Course<F>, Trouble>
        requires index { index.left ≡ 0 }
        requires size { 0 < index.given.page_size }
        requires before { (bytes : List ℕ) → F.file_bytes file ≡ Some bytes → before ≤ length bytes }
        ensures course { IfOk result (λ c. IsCourse F.file_bytes c) }
        ensures left { IfOk result (λ c. left_of F.file_bytes c ≡ option_map (λ bytes. plain_stream bytes before front.items index) (F.file_bytes file)) }
    {
        let table = index.table(alloc)?;
        Ok(Course {
            file,
            index,
            stage: Stage::Before(0, before),
            next: Place { block: 0, page: 0 },
            run: NO_RUN,
            front,
            records: Records::new(alloc, table),
            given: 0,
            buffer: vec![in alloc; 0u8; READ_LEN]?,
        })
    }

    /// Copies the bytes that wait into `bytes`, as many as it has room for. Returns how many.
    pub(crate) fn give(&mut self, bytes: &mut [u8]) -> usize
        requires course { IsCourse F.file_bytes self.old }
        requires some { (self.old.given < length self.old.records.bytes.items) ⊎ (self.old.stage ≡ stage.Over) }
        ensures len { length bytes.new ≡ length bytes.old }
        ensures count { result ≤ length bytes.old }
        ensures course { IsCourse F.file_bytes self.new }
        ensures left { Consumes (left_of F.file_bytes self.old) (left_of F.file_bytes self.new) (take result bytes.new) }
        ensures end { result ≡ 0 → 0 < length bytes.old → IsAtEnd (left_of F.file_bytes self.new) }
    {
        let len = copy_some(&self.records.bytes, self.given, bytes);
        self.given += len;
        len
    }

    // Finds the next pages that the file has. If no page of the block is left, goes on to the next
    // one of the `blocks` blocks.
    fn find_run(&mut self, blocks: usize)
        requires course { IsCourse F.file_bytes self.old }
        requires none { IsEmpty self.old }
        requires stage { self.old.stage ≡ stage.Pages }
        requires blocks { blocks ≡ length self.old.index.blocks }
        requires block { self.old.next.block < blocks }
        ensures same { F.file_bytes self.new.file ≡ F.file_bytes self.old.file }
        ensures goes { Goes F.file_bytes self.old self.new }
    {
        let pages = self.index.pages(self.next.block);
        if self.next.page >= pages {
            self.next = Place {
                block: self.next.block + 1,
                page: 0,
            };
            self.run = NO_RUN;
            return;
        }
        self.run = next_run(&self.index, self.next, pages);
    }

    // Makes the front with the entries of the size list.
    fn make_front(&mut self) -> io::Result<()>
        requires course { IsCourse F.file_bytes self.old }
        requires none { IsEmpty self.old }
        requires stage { self.old.stage ≡ stage.Front }
        ensures same { F.file_bytes self.new.file ≡ F.file_bytes self.old.file }
        ensures ok { OnOk result (Goes F.file_bytes self.old self.new) }
        ensures err { OnErr result (Stays self.old self.new) }
    {
        self.records.bytes.extend_from_slice(&self.front)?;
        self.records.put_entries()?;
        self.stage = Stage::Pages;
        Ok(())
    }

    // Makes records of zeros for the next pages.
    fn make_zeros(&mut self) -> io::Result<()>
        requires course { IsCourse F.file_bytes self.old }
        requires none { IsEmpty self.old }
        requires stage { self.old.stage ≡ stage.Pages }
        requires block { self.old.next.block < length self.old.index.blocks }
        requires some { self.old.next.page < self.old.run.page }
        ensures same { F.file_bytes self.new.file ≡ F.file_bytes self.old.file }
        ensures ok { OnOk result (Goes F.file_bytes self.old self.new) }
        ensures err { OnErr result (Stays self.old self.new) }
    {
        let first = self.next.page;
        let end = self.run.page.min(first.saturating_add(MOST_ZEROS));
        self.records.put_zeros(self.next.block, first, end)?;
        self.next.page = end;
        Ok(())
    }

    // Copies bytes before the stream, from the byte `at` up to `end`. The format in libvirt's
    // header becomes 0.
    fn copy_before(&mut self, at: u64, end: u64) -> io::Result<()>
        requires course { IsCourse F.file_bytes self.old }
        requires none { IsEmpty self.old }
        requires stage { self.old.stage ≡ stage.Before at end }
        requires some { at < end }
        ensures same { F.file_bytes self.new.file ≡ F.file_bytes self.old.file }
        ensures ok { OnOk result (Goes F.file_bytes self.old self.new) }
        ensures err { OnErr result (Stays self.old self.new) }
    {
        let len = (end - at).min(READ_LEN as u64) as usize;
        let read = read_front(&mut self.file, at, &mut self.buffer, len)?;
        append_header(&mut self.records.bytes, &self.buffer[..read], at)?;
        if read < len {
            self.stage = Stage::Over;
            return Ok(());
        }
        self.stage = Stage::Before(at.saturating_add(read as u64), end);
        Ok(())
    }

    // Makes the records of the next pages that the file has. If it ends before, the stream ends
    // after the last complete page.
    fn make_pages(&mut self) -> io::Result<()>
        requires course { IsCourse F.file_bytes self.old }
        requires none { IsEmpty self.old }
        requires stage { self.old.stage ≡ stage.Pages }
        requires block { self.old.next.block < length self.old.index.blocks }
        requires first { self.old.next.page ≡ self.old.run.page }
        requires some { 0 < self.old.run.pages }
        ensures same { F.file_bytes self.new.file ≡ F.file_bytes self.old.file }
        ensures ok { OnOk result (Goes F.file_bytes self.old self.new) }
        ensures err { OnErr result (Stays self.old self.new) }
    {
        let size = self.records.table.page_size();
        let first = self.next.page;
        let len = self.run.pages.saturating_mul(size).min(READ_LEN as u64) as usize;
        let read = read_front(&mut self.file, self.run.offset, &mut self.buffer, len)?;
        let _pages = self.index.pages(self.next.block);
        let end = first + self.run.pages;
        let after = self
            .records
            .put_pages(self.next.block, first, end, &self.buffer[..read])?;
        if read < len {
            self.stage = Stage::Over;
            return Ok(());
        }
        let count = after - first;
        self.run = MappedRun {
            page: after,
            pages: end - after,
            offset: self.run.offset.saturating_add(count.saturating_mul(size)),
        };
        self.next.page = after;
        Ok(())
    }

    // Makes records of the next pages. After the last block goes on to what follows it.
    fn make_records(&mut self) -> io::Result<()>
        requires course { IsCourse F.file_bytes self.old }
        requires none { IsEmpty self.old }
        requires stage { self.old.stage ≡ stage.Pages }
        ensures same { F.file_bytes self.new.file ≡ F.file_bytes self.old.file }
        ensures ok { OnOk result (Goes F.file_bytes self.old self.new) }
        ensures err { OnErr result (Stays self.old self.new) }
    {
        let blocks = self.index.len();
        if self.next.block >= blocks {
            self.stage = Stage::After(self.index.place());
            return Ok(());
        }
        if self.next.page < self.run.page {
            return self.make_zeros();
        }
        if self.run.pages != 0 {
            return self.make_pages();
        }
        self.find_run(blocks);
        Ok(())
    }

    // Copies bytes after the last block's pages, from the byte `at` on.
    fn copy_after(&mut self, at: u64) -> io::Result<()>
        requires course { IsCourse F.file_bytes self.old }
        requires none { IsEmpty self.old }
        requires stage { self.old.stage ≡ stage.After at }
        ensures same { F.file_bytes self.new.file ≡ F.file_bytes self.old.file }
        ensures ok { OnOk result (Goes F.file_bytes self.old self.new) }
        ensures err { OnErr result (Stays self.old self.new) }
    {
        let read = read_front(&mut self.file, at, &mut self.buffer, READ_LEN)?;
        self.records.bytes.extend_from_slice(&self.buffer[..read])?;
        if read == 0 {
            self.stage = Stage::Over;
            return Ok(());
        }
        self.stage = Stage::After(at.saturating_add(read as u64));
        Ok(())
    }

    // Makes some of the next bytes, or goes on to what follows.
    fn make(&mut self) -> io::Result<()>
        requires course { IsCourse F.file_bytes self.old }
        requires none { IsEmpty self.old }
        ensures same { F.file_bytes self.new.file ≡ F.file_bytes self.old.file }
        ensures ok { OnOk result (Goes F.file_bytes self.old self.new) }
        ensures err { OnErr result (Stays self.old self.new) }
    {
        match self.stage {
            Stage::Before(at, end) => {
                if at < end {
                    return self.copy_before(at, end);
                }
                self.stage = Stage::Front;
                Ok(())
            }
            Stage::Front => self.make_front(),
            Stage::Pages => self.make_records(),
            Stage::After(at) => self.copy_after(at),
            Stage::Over => Ok(()),
        }
    }

    // Makes some of the next bytes, when no bytes wait. After an `Err` no bytes wait, and the same
    // ones are still to come.
    fn step(&mut self) -> io::Result<()>
        requires course { IsCourse F.file_bytes self.old }
        requires none { length self.old.records.bytes.items ≤ self.old.given }
        ensures course { IsCourse F.file_bytes self.new }
        ensures left { left_of F.file_bytes self.new ≡ left_of F.file_bytes self.old }
    {
        self.records.bytes.clear();
        self.given = 0;
        match self.make() {
            Ok(()) => Ok(()),
            Err(error) => {
                self.records.bytes.clear();
                Err(error)
            }
        }
    }

    /// Makes the next bytes, if none wait and the file hasn't ended.
    ///
    /// # Errors
    ///
    /// The file can't be read, or an allocation was refused. The same bytes are still to come.
    pub(crate) fn fill(&mut self) -> io::Result<()>
        requires course { IsCourse F.file_bytes self.old }
        ensures course { IsCourse F.file_bytes self.new }
        ensures left { left_of F.file_bytes self.new ≡ left_of F.file_bytes self.old }
        ensures some { OnOk result ((self.new.given < length self.new.records.bytes.items) ⊎ (self.new.stage ≡ stage.Over)) }
    {
        for _ in 0..u64::MAX {
            if self.given < self.records.bytes.len() {
                return Ok(());
            }
            if let Stage::Over = self.stage {
                return Ok(());
            }
            self.step()?;
        }
        Err(io::Error::from(ErrorKind::Interrupted))
    }
}
