//! Reports of what a stream has beside its page records: which item begins at which byte, and its
//! bytes. A caller that wants to know it passes one to `StreamReader::feed_reporting` or
//! `RecordReader::read_on_reporting`, which add to it what they read.

ghost use Rattle.std.specs.Prelude.{◌≡◌, ◌+◌, ◌<◌, ◌^◌, [], length, take, OnOk, OnErr, IsTrue, ◌↔◌};
ghost use Rattle.mig_stream.specs.Reading.{Settings};
ghost use Rattle.mig_stream.specs.Report.{nothing_reported, with_item, nth_item, IsReport, KeepsItems};

use crate::bytes::Bytes;
use arrayvec::ArrayVec;
use mig_mem::NoMemory;
use std::alloc::{Allocator, Global};
use std::fmt;
use std::marker::Model;

/// What an item of a stream is that isn't a part of a page record.
#[derive(Clone, Copy, Debug, PartialEq, Eq)]
pub enum ItemKind {
    /// The magic and the version of the file.
    FileHeader,
    /// The type byte of the configuration.
    Configuration,
    /// The type byte of a subsection of the configuration.
    Subsection,
    /// The type byte of a COMMAND.
    Command,
    /// The type byte of a device's section that QEMU writes whole before RAM's pages.
    Device,
    /// The type byte of START.
    Start,
    /// The type byte of a PART.
    Part,
    /// The type byte of END.
    End,
    /// The end byte.
    EndByte,
    /// The length of the machine's name, in 4 bytes. If it is 0, no `Name` follows.
    NameLength,
    /// The machine's name.
    Name,
    /// The name of a subsection, after its length in a byte, and its version.
    SubsectionName,
    /// The page bits, in 4 bytes.
    PageBits,
    /// The UUID.
    Uuid,
    /// The number of capabilities, in 4 bytes.
    CapabilityCount,
    /// The name of a capability, after its length in a byte.
    Capability,
    /// The number of a COMMAND and the length of its data, in 2 bytes each, and the data.
    CommandBody,
    /// The head of a device's section after its type byte: as START's.
    DeviceHead,
    /// The numbers of virtio-mem's early state: the address and the size of its region, the size of
    /// its blocks, its node in 4 bytes, and how many bytes are plugged.
    VirtioMem,
    /// A word of virtio-mem's early state in 8 bytes: its lowest bit says whether the first of 64
    /// blocks is plugged.
    PluggedBlocks,
    /// The footer of a device's section.
    DeviceFooter,
    /// START's head after its type byte: its id in 4 bytes, its name after its length in a byte,
    /// instance and version.
    StartHead,
    /// A PART's or END's head after its type byte: its id in 4 bytes.
    SectionHead,
    /// The head of the size list.
    SizeList,
    /// An entry of the size list: the block's id after its length in a byte, and the length of the
    /// block in 8 bytes.
    ListEntry,
    /// The guest address of the block of the last entry, in 8 bytes.
    BlockAddress,
    /// The page size of the block of the last entry, in 8 bytes.
    BlockPageSize,
    /// EOS, the end of the records of a section.
    EndOfSection,
    /// FLUSH, of multifd.
    Flush,
    /// The footer of a section: its type byte, and the section's id in 4 bytes.
    Footer,
}

/// An item of a report.
#[derive(Clone, Copy)]
pub struct ReportedItem<'r> {
    /// The byte of the stream at which it begins.
    pub at: u64,
    pub kind: ItemKind,
    pub bytes: &'r [u8],
}

// Bytes of a stream aren't printed.
impl fmt::Debug for ReportedItem<'_> {
    fn fmt<W: fmt::Write>(&self, f: &mut fmt::Formatter<W>) -> fmt::Result {
        f.pad("ReportedItem { .. }")
    }
}

// An item as a report keeps it. Type bytes, heads, records and COMMANDs of few bytes take no
// allocation.
#[derive(Drop)]
struct KeptItem<A: Allocator> {
    at: u64,
    kind: ItemKind,
    few: ArrayVec<u8, 16>,
    // the bytes, if they are more
    many: Option<Bytes<A>>,
}

impl<A: Allocator> Model for KeptItem<A> {
    ghost use Rattle.std.specs.Option.{unwrap_or};
    ghost use Rattle.mig_stream.specs.Report.{ItemAt};

    ghost Value = { ItemAt };

    ghost view = { λ i. record { at = i.at; kind = i.kind; bytes = unwrap_or i.many i.few.items } };
}

/// The items of a stream that aren't parts of page records, as far as the stream was read and they
/// weren't cleared.
pub struct Report<A: Allocator = Global> {
    // the byte after the items so far
    at: u64,
    items: Vec<KeptItem<A>, A>,
}

// Written out, so that a caller's proof passes a call where a value is dropped.
impl<A: Allocator> Drop for Report<A> {
    fn drop(self) {
        let Report { at: _, items: _ } = self;
    }
}

impl<A: Allocator> Model for Report<A> {
    ghost use Rattle.mig_stream.specs.Report.{Reported};

    ghost Value = { Reported };

    ghost view = { λ r. record { at = r.at; items = r.items.items } };
}

// Bytes of a stream aren't printed.
impl<A: Allocator> fmt::Debug for Report<A> {
    fn fmt<W: fmt::Write>(&self, f: &mut fmt::Formatter<W>) -> fmt::Result {
        f.pad("Report { .. }")
    }
}

/// How much a report has, to go back to.
#[derive(Clone, Copy)]
pub(crate) struct Mark {
    at: u64,
    count: usize,
}

impl<A: Allocator> Report<A> {
    /// Creates the report of a stream before its first byte.
    pub fn new(alloc: A) -> Report<A>
        ensures value { result ≡ nothing_reported }
        ensures report { (given : Settings) → IsReport given [] [] result }
    {
        Report {
            at: 0,
            items: Vec::new(alloc),
        }
    }

    /// Returns the byte after the items so far, those of page records included.
    pub fn at(&self) -> u64
        ensures { result ≡ self.now.at }
    {
        self.at
    }

    /// Returns the number of items.
    pub fn len(&self) -> usize
        ensures { result ≡ length self.now.items }
    {
        self.items.len()
    }

    /// Returns whether there are no items.
    pub fn is_empty(&self) -> bool
        ensures { IsTrue result ↔ (self.now.items ≡ []) }
    {
        self.items.is_empty()
    }

    /// Returns item `i`.
    pub fn item(&self, i: usize) -> ReportedItem<'_>
        requires { i < length self.now.items }
        ensures at { result.at ≡ (nth_item self.now.items i).at }
        ensures kind { result.kind ≡ (nth_item self.now.items i).kind }
        ensures bytes { result.bytes.now ≡ (nth_item self.now.items i).bytes }
    {
        let item = &self.items[i];
        ReportedItem {
            at: item.at,
            kind: item.kind,
            bytes: match &item.many {
                Some(bytes) => bytes.as_slice(),
                None => item.few.as_slice(),
            },
        }
    }

    /// Drops the items so far. Those that are read next follow them.
    pub fn clear(&mut self)
        ensures { self.new ≡ record self.old { items = [] } }
    {
        self.items.clear();
    }

    /// Returns how much the report has.
    pub(crate) fn mark(&self) -> Mark
        ensures at { result.at ≡ self.now.at }
        ensures count { result.count ≡ length self.now.items }
    {
        Mark {
            at: self.at,
            count: self.items.len(),
        }
    }

    /// Goes back to a mark.
    pub(crate) fn go_back(&mut self, mark: Mark)
        ensures { self.new ≡ record { at = mark.at; items = take mark.count self.old.items } }
    {
        self.at = mark.at;
        self.items.truncate(mark.count);
    }

    /// Goes on after `len` bytes.
    pub(crate) fn skip(&mut self, len: usize)
        ensures at { self.old.at + len < 2 ^ 64 → self.new ≡ record self.old { at = self.old.at + len } }
        ensures items { self.new.items ≡ self.old.items }
    {
        self.at = self.at.saturating_add(len as u64);
    }
}

impl<A: Allocator + Copy> Report<A> {
    /// Adds the next item, unless it is a part of a page record. An `Err` changes nothing.
    pub(crate) fn add(&mut self, kind: Option<ItemKind>, item: &[u8]) -> Result<(), NoMemory>
        ensures ok { OnOk result (self.old.at + length item.now < 2 ^ 64 → self.new ≡ with_item kind item.now self.old) }
        ensures kept { KeepsItems self.old self.new }
        ensures err { OnErr result (self.new ≡ self.old) }
    {
        let Some(kind) = kind else {
            self.skip(item.len());
            return Ok(());
        };
        let mut few = ArrayVec::new();
        let many = match few.try_extend_from_slice(item) {
            Ok(()) => None,
            Err(_) => Some(Bytes::copied(*self.items.allocator(), item)?),
        };
        self.items.push(KeptItem {
            at: self.at,
            kind,
            few,
            many,
        })?;
        self.skip(item.len());
        Ok(())
    }
}
