//! The entries of a size list, and the table that they make. `Progress` keeps them as they are
//! read.

ghost use Rattle.std.specs.Prelude.{◌≡◌, ◌+◌, ◌*◌, ◌<◌, ◌≤◌, ◌^◌, length, take, None, Some, [], IfOk, OnOk, OnErr, IsTrue, IfSome, nat_lt};
ghost use Rattle.std.specs.Option.{option_copied, unwrap_or};
ghost use Rattle.mig_mem.specs.declared.fault.TableFault.TheVariants as fault;
ghost use Rattle.mig_mem.specs.PageSize.{IsPageSize};
ghost use Rattle.mig_mem.specs.RamTable.{block, block_of, IsTable};
ghost use Rattle.mig_stream.specs.Progress.{is_used_up};
ghost use Rattle.mig_stream.specs.Entries.{listed_table, AreListed, WereListed, IsNext, with_entry};

use crate::bytes::Bytes;
use mig_mem::{NoMemory, Table, TableFault};
use std::alloc::Allocator;
use std::marker::Model;

/// A block, as an entry names it.
#[derive(Drop)]
pub(crate) struct Entry<A: Allocator> {
    id: Bytes<A>,
    pages: u64,
}

impl<A: Allocator> Model for Entry<A> {
    ghost use Rattle.mig_mem.specs.RamTable.{Block};

    ghost Value = { Block };

    ghost view = { λ b. record { id = b.id; pages = b.pages } };
}

/// The entries of a size list so far. The blocks are kept beside the table that they make, so that
/// an entry can be undone.
pub(crate) struct Entries<A: Allocator> {
    page_size: u64,
    limit: u64,
    // how many bytes of the total no entry has yet: None before the size list
    left: Option<u64>,
    blocks: Vec<Entry<A>, A>,
    table: Option<Table<A>>,
}

// Written out, so that a caller's proof passes a call where a value is dropped.
impl<A: Allocator> Drop for Entries<A> {
    fn drop(self) {
        let Entries {
            page_size: _,
            limit: _,
            left: _,
            blocks: _,
            table: _,
        } = self;
    }
}

impl<A: Allocator> Model for Entries<A> {
    ghost use Rattle.std.specs.Prelude.{◌≡◌};
    ghost use Rattle.mig_stream.specs.Entries.{Listed, AreListed, listed_table};

    ghost Value = { Listed };

    ghost view = { λ e. record { page_size = e.page_size; limit = e.limit; left = e.left; blocks = e.blocks.items } };

    ghost invariant = { λ e. AreListed e.page_size e.limit e.left e.blocks.items
        × (e.table ≡ listed_table e.page_size e.left e.blocks.items) };
}

// Returns `NoMemory`, the only fault for which a lawful table is refused.
fn no_memory(_fault: TableFault) -> NoMemory
    requires { _fault ≡ fault.NoMemory }
{
    NoMemory
}

// Returns the table of these blocks.
fn table_of<A: Allocator + Copy>(
    alloc: A,
    page_size: u64,
    blocks: &[Entry<A>],
) -> Result<Table<A>, NoMemory>
    requires { IsTable (record { page_size = page_size; blocks = blocks.now }) }
    ensures { IfOk result (λ t. t ≡ record { page_size = page_size; blocks = blocks.now }) }
{
    let mut list = Vec::with_capacity(alloc, blocks.len())?;
    for block in blocks {
        list.push((Vec::from_slice(alloc, block.id.as_slice())?, block.pages))?;
    }
    match Table::new(alloc, page_size, list) {
        Ok(table) => Ok(table),
        Err(fault) => Err(no_memory(fault)),
    }
}

// Returns the table of these blocks, if no byte is left.
fn whole_table<A: Allocator + Copy>(
    alloc: A,
    page_size: u64,
    left: u64,
    blocks: &[Entry<A>],
) -> Result<Option<Table<A>>, NoMemory>
    requires { IsTable (record { page_size = page_size; blocks = blocks.now }) }
    ensures { IfOk result (λ t. t ≡ listed_table page_size (Some left) blocks.now) }
{
    if left != 0 {
        return Ok(None);
    }
    Ok(Some(table_of(alloc, page_size, blocks)?))
}

impl<A: Allocator> Entries<A> {
    /// Creates the entries before the size list.
    pub(crate) fn new(alloc: A, page_size: u64, limit: u64) -> Entries<A>
        requires page_size { IsPageSize page_size }
        requires limit { limit ≤ 2 ^ 40 }
        ensures { result ≡ record { page_size = page_size; limit = limit; left = None; blocks = [] } }
    {
        Entries {
            page_size,
            limit,
            left: None,
            blocks: Vec::new(alloc),
            table: None,
        }
    }

    pub(crate) fn page_size(&self) -> u64
        ensures value { result ≡ self.now.page_size }
        ensures size { IsPageSize result }
        ensures range { (4096 ≤ result) × (result ≤ 8192) }
    {
        self.page_size
    }

    pub(crate) fn limit(&self) -> u64
        ensures { result ≡ self.now.limit }
    {
        self.limit
    }

    /// Returns how many bytes of the total no entry has yet.
    pub(crate) fn left(&self) -> Option<u64>
        ensures { result ≡ self.now.left }
    {
        self.left
    }

    /// Returns the number of entries. The contract also says what is kept of them.
    pub(crate) fn len(&self) -> usize
        ensures value { result ≡ length self.now.blocks }
        ensures listed { AreListed self.now.page_size self.now.limit self.now.left self.now.blocks }
    {
        self.blocks.len()
    }

    /// Returns the number of pages of a block, or 0 if there is no such block.
    pub(crate) fn pages(&self, i: usize) -> u64
        ensures value { result ≡ (block self.now.blocks i).pages }
        ensures block { 0 < result → i < 2 ^ 8 }
        ensures few { result < 2 ^ 32 }
    {
        match self.blocks.get(i) {
            Some(block) => block.pages,
            None => 0,
        }
    }

    /// Returns the number of the block with the id `id`.
    pub(crate) fn find(&self, id: &[u8]) -> Option<usize>
        ensures { result ≡ block_of self.now.blocks id.now }
    {
        match &self.table {
            Some(table) => table.find(id),
            None => self
                .blocks
                .iter()
                .position(|block| block.id.as_slice() == id),
        }
    }

    /// Returns the table, once the list is complete.
    pub(crate) fn table(&self) -> Option<&Table<A>>
        ensures { option_copied result ≡ listed_table self.now.page_size self.now.left self.now.blocks }
    {
        self.table.as_ref()
    }

    /// Begins the list, with a total of `total` bytes.
    pub(crate) fn begin(&mut self, total: u64)
        requires first { self.old.left ≡ None }
        requires some { 0 < total }
        requires limit { total ≤ self.old.limit }
        ensures { self.new ≡ record self.old { left = Some total } }
    {
        self.left = Some(total);
    }

    /// Goes back to `count` entries, with `left` bytes of the total left.
    pub(crate) fn go_back(&mut self, left: Option<u64>, count: usize)
        requires { WereListed self.old left count }
        ensures { self.new ≡ record self.old { left = left; blocks = take count self.old.blocks } }
    {
        self.blocks.truncate(count);
        self.left = left;
        if left != Some(0) {
            self.table = None;
        }
    }
}

impl<A: Allocator + Copy> Entries<A> {
    /// Adds an entry. An `Err` changes nothing.
    pub(crate) fn push(&mut self, id: &[u8], len: u64) -> Result<(), NoMemory>
        requires { IsNext self.old id.now len }
        ensures ok { OnOk result (self.new ≡ with_entry self.old id.now len) }
        ensures err { OnErr result (self.new ≡ self.old) }
    {
        let alloc = *self.blocks.allocator();
        let count = self.blocks.len();
        let left = self.left.unwrap_or(0) - len;
        let id = Bytes::copied(alloc, id)?;
        let pages = len / self.page_size;
        self.blocks.push(Entry { id, pages })?;
        match whole_table(alloc, self.page_size, left, &self.blocks) {
            Ok(table) => {
                self.left = Some(left);
                self.table = table;
                Ok(())
            }
            Err(error) => {
                self.blocks.truncate(count);
                Err(error)
            }
        }
    }
}
