//! The send of a guest's memory as a file with mapped-ram. C writes the file: its parts, which are
//! copied out, and each page that isn't zeros at its offset.

ghost use Rattle.std.specs.Prelude.{◌≡◌, ◌≢◌, ◌<◌, ◌≤◌, ◌++◌, IfOk, IfErr, Some, None, length};
ghost use Rattle.mig_stream.specs.Format.{most_name_bytes};
ghost use Rattle.mig_stream.specs.Text.{total_bytes};
ghost use Rattle.mig_mapped.specs.Block.{mapped_block};
ghost use Rattle.mig_mapped.specs.Front.{IsTotal};
ghost use Rattle.mig_mapped.specs.Write.{head_bytes};
ghost use Rattle.mig_c_calls.specs.Status.{done};
ghost use Rattle.mig_c_mapped.specs.Loads.{order_of};
ghost use Rattle.mig_c_mapped.specs.Sends.{IsSent, IsUnsent, OpensSend, MarksPage, GivesPart};

use crate::part::{FilePart, copy_part};
use mig_c_calls::status::{BAD_LENGTH, DONE, MOST_NAME_BYTES, NO_MEMORY, NO_PAGE};
use mig_mapped::{MappedStop, MappedWriter, WordOrder, end_bytes, front_bytes};
use mig_mem::{NoMemory, Place, Table};
use std::alloc::Global;
use std::marker::Model;

/// A guest's memory that is sent as a file.
pub struct SentFile {
    table: Table<Global>,
    writer: MappedWriter<Global>,
    // the bytes before the size list
    front: Vec<u8>,
}

// Written out, so that a caller's proof passes a call where a value is dropped.
impl Drop for SentFile {
    fn drop(self) {
        let SentFile {
            table: _,
            writer: _,
            front: _,
        } = self;
    }
}

impl Model for SentFile {
    ghost use Rattle.std.specs.Prelude.{◌≡◌};
    ghost use Rattle.mig_mapped.specs.Write.{written_table};
    ghost use Rattle.mig_c_mapped.specs.Sends.{FileInHand};

    ghost Value = { FileInHand };

    ghost view = { λ s. record { front = s.front.items; writing = s.writer } };

    ghost invariant = { λ s. written_table s.writer ≡ s.table };
}

// Returns the number of bytes of all blocks.
#[tactic(auto, using(crate::proofs::Totals::total_of_pages))]
fn total_of(table: &Table<Global>) -> u64
    ensures value { result ≡ total_bytes table.now }
    ensures total { IsTotal result }
{
    table.keeps_limits();
    let mut pages = 0;
    for i in 0..table.len() {
        pages += table.pages(i);
    }
    pages * table.page_size()
}

// Returns the order of the bytes in a bitmap's word, in a file for such a host.
fn order_of(big_endian: bool) -> WordOrder
    ensures { result ≡ order_of big_endian }
{
    if big_endian {
        WordOrder::Big
    } else {
        WordOrder::Little
    }
}

// Creates a send of `table`, in the file of a machine with this name.
fn made(
    alloc: Global,
    table: &Table<Global>,
    order: WordOrder,
    name: &[u8],
) -> Result<SentFile, MappedStop>
    requires { length name.now ≤ most_name_bytes }
    ensures ok { IfOk result (λ s. IsSent order name.now table.now s) }
    ensures err { IfErr result (λ stop. IsUnsent order name.now table.now stop) }
{
    let front = front_bytes(alloc, name, total_of(table))?;
    let writer = MappedWriter::new(alloc, table, order, front.len() as u64)?;
    Ok(SentFile {
        table: table.try_copy()?,
        writer,
        front,
    })
}

// Returns the bytes of a block's head: its entry, its header and its bitmap.
fn head_of(alloc: Global, writer: &MappedWriter<Global>, block: usize) -> Result<Vec<u8>, NoMemory>
    requires { block < length writer.now.blocks }
    ensures { IfOk result (λ v. v.items ≡ head_bytes writer.now block ++ (mapped_block writer.now.blocks block).bitmap) }
{
    let mut bytes = writer.head(alloc, block)?;
    bytes.extend_from_slice(writer.bitmap(block))?;
    Ok(bytes)
}

impl SentFile {
    /// Creates a send of `table`, which it copies, in the file of a machine with this name. No page
    /// is in the file yet. Returns the status if there is none.
    pub fn new(
        alloc: Global,
        table: &Table<Global>,
        big_endian: bool,
        name: &[u8],
    ) -> Result<SentFile, u32>
        ensures ok { IfOk result (λ s. OpensSend table.now big_endian name.now done (Some s)) }
        ensures err { IfErr result (λ status. OpensSend table.now big_endian name.now status None) }
        ensures refused { IfErr result (λ status. status ≢ done) }
    {
        if name.len() > MOST_NAME_BYTES {
            return Err(BAD_LENGTH);
        }
        match made(alloc, table, order_of(big_endian), name) {
            Ok(send) => Ok(send),
            Err(MappedStop::Fault(fault)) => Err(u32::from(fault.number())),
            Err(MappedStop::NoMemory) => Err(NO_MEMORY),
        }
    }

    /// Sets the bit of a page, or clears it for a page of zeros. Reports the offset of the page.
    pub fn mark(&mut self, place: Place, has_content: bool, offset: &mut u64) -> u32
        ensures { MarksPage place has_content result offset.old offset.new self.old self.new }
    {
        if !self.table.holds(place) {
            return NO_PAGE;
        }
        *offset = self.writer.page_offset(place);
        self.writer.mark(place, has_content);
        DONE
    }

    /// Copies a part of the file to the front of a buffer, and reports where it lies.
    pub fn part(&self, alloc: Global, part: usize, out: &mut [u8], at: &mut FilePart) -> u32
        ensures { GivesPart part result out.old out.new at.old at.new self.now }
    {
        let end = self.writer.end();
        let blocks = self.writer.len();
        if part == 0 {
            return copy_part(&self.front, 0, out, at);
        }
        let block = part - 1;
        if block > blocks {
            return NO_PAGE;
        }
        if block == blocks {
            return copy_part(&end_bytes(), end, out, at);
        }
        let offset = self.writer.head_offset(block);
        match head_of(alloc, &self.writer, block) {
            Ok(bytes) => copy_part(&bytes, offset, out, at),
            Err(NoMemory) => NO_MEMORY,
        }
    }
}
