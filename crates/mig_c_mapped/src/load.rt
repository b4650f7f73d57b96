//! The load of a file with mapped-ram: the index of its pages, and the stream around them.
//!
//! A file is taken from its size list on: head after head, and then what follows the last block's
//! pages. `stream` reads the file as the plain stream of the same memory, without a page record:
//! the front without the capability, the entries of the size list, and what follows the pages. So
//! it tells whether RAM came to its end. A save that was broken off has all heads, with no bit set.

ghost use Rattle.std.specs.Prelude.{◌≡◌, ◌≢◌, ◌+◌, ◌<◌, ◌≤◌, ◌^◌, IsFalse, IfOk, IfErr, Some, None, take};
ghost use Rattle.mig_mapped.specs.Head.{entry_len};
ghost use Rattle.mig_c_calls.specs.Status.{done};
ghost use Rattle.mig_c_mapped.specs.Loads.{Takes, LiesAt, CopiesTable, HasTail};
ghost use Rattle.mig_c_mapped.specs.Runs.{TellsRun};

use crate::run::{FileRun, run_from};
use crate::taken::{Taken, is_reading};
use mig_c_calls::status::{DONE, NO_MEMORY, NO_PAGE, OUT_OF_TURN, ROOM};
use mig_mapped::{MappedIndex, MappedStop};
use mig_mem::{NoMemory, Table};
use mig_stream::{StreamReader, StreamState};
use std::alloc::Global;
use std::marker::Model;

/// The most bytes of an entry of the size list, and one more.
const MOST_ENTRY: u64 = 265;

/// A file with mapped-ram that is loaded.
pub struct MappedFile {
    pub(crate) index: MappedIndex<Global>,
    pub(crate) stream: StreamReader<'static, Global>,
    // how many bytes after the pages were taken
    pub(crate) tail: u64,
    // an allocation was refused between a head's two parts
    pub(crate) is_lost: bool,
}

// Written out, so that a caller's proof passes a call where a value is dropped.
impl Drop for MappedFile {
    fn drop(self) {
        let MappedFile {
            index: _,
            stream: _,
            tail: _,
            is_lost: _,
        } = self;
    }
}

impl Model for MappedFile {
    ghost use Rattle.std.specs.Prelude.{◌≤◌, IsFalse};
    ghost use Rattle.mig_c_mapped.specs.Loads.{ReadFile};

    ghost Value = { ReadFile };

    ghost view = { λ f. record { index = f.index; stream = f.stream; tail = f.tail; is_lost = f.is_lost } };

    ghost invariant = { λ f. IsFalse f.stream.ended × (f.tail ≤ f.stream.fed) };
}

// Returns the entry at the front of a head.
fn entry_of(bytes: &[u8]) -> &[u8]
    ensures { result.now ≡ take (entry_len bytes.now) bytes.now }
{
    let len = match bytes.first() {
        Some(id_len) => 9 + *id_len as usize,
        None => 9,
    };
    match bytes.get(..len) {
        Some(entry) => entry,
        None => bytes,
    }
}

// Returns how many of the bytes after the pages belong to RAM, or come before a fault: all `taken`
// of them while the stream goes on.
fn tail_of(stream: &StreamReader<'static, Global>, taken: u64, state: StreamState) -> u64
    requires { taken ≤ stream.now.fed }
    ensures value { HasTail stream.now taken state result }
    ensures within { result ≤ stream.now.fed }
{
    if is_reading(state) {
        return taken;
    }
    taken.saturating_sub(stream.fed().saturating_sub(stream.valid_up_to()))
}

impl MappedFile {
    /// Takes bytes of the file, which begin at the byte `place`: the next block's head, or what
    /// follows the last block's pages.
    pub fn take(&mut self, bytes: &[u8]) -> Taken
        ensures { Takes bytes.now result self.old self.new }
    {
        if self.is_lost {
            return Taken::NoMemory;
        }
        let state = self.stream.state();
        if !is_reading(state) {
            return Taken::Over(state);
        }
        if self.stream.fed() >= ROOM - MOST_ENTRY {
            return Taken::TooLong;
        }
        if self.index.left() != 0 {
            return self.take_head(bytes);
        }
        self.take_tail(bytes)
    }

    // Takes the next block's head.
    fn take_head(&mut self, bytes: &[u8]) -> Taken
        requires left { self.old.index.left ≢ 0 }
        requires room { self.old.stream.fed + 264 < 2 ^ 63 }
        requires kept { IsFalse self.old.is_lost }
        ensures { Takes bytes.now result self.old self.new }
    {
        match self.index.take(bytes) {
            Ok(()) => {}
            Err(MappedStop::Fault(fault)) => return Taken::Fault(fault),
            Err(MappedStop::NoMemory) => return Taken::NoMemory,
        }
        match self.stream.feed(entry_of(bytes)) {
            Ok(()) => Taken::Head,
            Err(NoMemory) => {
                self.is_lost = true;
                Taken::NoMemory
            }
        }
    }

    // Takes bytes after the pages.
    fn take_tail(&mut self, bytes: &[u8]) -> Taken
        requires left { self.old.index.left ≡ 0 }
        requires kept { IsFalse self.old.is_lost }
        ensures { Takes bytes.now result self.old self.new }
    {
        if bytes.is_empty() {
            return Taken::Nothing;
        }
        let len = bytes.len() as u64;
        if self.stream.fed() >= ROOM - len {
            return Taken::TooLong;
        }
        match self.stream.feed(bytes) {
            Ok(()) => {}
            Err(NoMemory) => return Taken::NoMemory,
        }
        let state = self.stream.state();
        self.tail = tail_of(&self.stream, self.tail + len, state);
        Taken::Tail(state)
    }

    /// Returns the offset in the file of the next byte. Once no more is read it is that after RAM's
    /// END, or of what has the fault.
    pub fn place(&self) -> u64
        ensures { LiesAt result self.now }
    {
        self.index.place().saturating_add(self.tail)
    }

    /// Copies the table, once all heads were taken. Returns the status if there is none.
    pub fn table(&self, alloc: Global) -> Result<Table<Global>, u32>
        ensures ok { IfOk result (λ t. CopiesTable done (Some t) self.now) }
        ensures err { IfErr result (λ status. CopiesTable status None self.now) }
        ensures refused { IfErr result (λ status. status ≢ done) }
    {
        if self.index.left() != 0 {
            return Err(OUT_OF_TURN);
        }
        match self.index.table(alloc) {
            Ok(table) => Ok(table),
            Err(NoMemory) => Err(NO_MEMORY),
        }
    }

    /// Reports the first pages of a block, from page `from` on, whose contents the file has.
    pub fn run(&self, block: usize, from: u64, out: &mut FileRun) -> u32
        ensures { TellsRun block from result out.old out.new self.now }
    {
        if block >= self.index.len() || from > self.index.pages(block) {
            return NO_PAGE;
        }
        *out = run_from(&self.index, block, from);
        DONE
    }
}
