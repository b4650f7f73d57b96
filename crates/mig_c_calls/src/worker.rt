//! The calls of a worker of a round on several channels. Each worker runs on a thread of the
//! caller's.

ghost use Rattle.std.specs.Prelude.{◌≡◌, ◌≤◌, ◌++◌, IsTrue, IsFalse, IfOk, IfErr, IfSome, IfNone, None, List, [], ℕ, length, take, ◌↔◌};
ghost use Rattle.mig_mem.specs.Image.{Image};
ghost use Rattle.mig_mem.specs.Lent.{lent_bytes};
ghost use Rattle.mig_send.specs.ChannelWork.{IsHand, HasClaimed, HasPacked, batch_in};
ghost use Rattle.mig_c_calls.specs.Multi.{DrainsWorker, RefillsWorker, waiting_in};
ghost use Rattle.mig_c_calls.specs.Copied.{AreContents, HasBatch, OfClaim, ListsPages, NamesBatch, PacksCopied, PacksOn, RefusesPages, EndsChannel, OfBatch};
ghost use Rattle.mig_c_calls.specs.Heads.{GivesHead, TakesHead, RefusesHead, WritesOut, flags_of};

use crate::copied::{CopiedPages, page_of_zeros};
use crate::sending::{HeldWorker, NamedBatch};
use crate::status::{BAD_LENGTH, DONE, NO_MEMORY, OUT_OF_TURN, RUNNING};
use crate::waiting::{Waiting, copy_front};
use mig_mem::NoMemory;
use mig_packet::head_len;
use mig_send::{Batch, ChannelWorker};
use std::alloc::Global;

// Drains the bytes that were written to the channel, if no drained byte waits.
fn refill(held: &mut HeldWorker)
    ensures { RefillsWorker held.old held.new }
{
    if held.drained.is_empty() {
        held.worker.drain_into(&mut held.drained.bytes);
        held.drained.given = 0;
    }
}

// Writes a batch to `named`.
fn name_batch(batch: &Batch<Global>, named: &mut NamedBatch)
    requires { length batch.now.pages ≤ 128 }
    ensures { ListsPages named.new batch.now }
{
    let count = batch.pages.len();
    named.block = batch.block;
    named.count = count;
    named.pages[..count].copy_from_slice(&batch.pages);
}

// Writes the batch of the worker's number to `named`, if it claims one. Returns whether it does.
fn name_claimed(worker: &ChannelWorker<Global>, named: &mut NamedBatch) -> bool
    ensures named { IsTrue result → OfClaim (λ batch number. ListsPages named.new batch) worker.now.terms worker.now.hand }
    ensures none { IsFalse result → (batch_in worker.now.terms worker.now.hand ≡ None) × (named.new ≡ named.old) }
{
    // the page size bounds the pages of a batch
    worker.table().keeps_limits();
    match worker.batch() {
        Some(batch) => {
            name_batch(batch, named);
            true
        }
        None => false,
    }
}

// Writes the SYNC packet of a worker that has drawn its last number, from any memory of its table.
fn end_channel(worker: &mut ChannelWorker<Global>, memory: &CopiedPages<'_>) -> u32
    requires table { memory.now.table ≡ worker.old.terms.table }
    requires none { batch_in worker.old.terms worker.old.hand ≡ None }
    requires hand { IsHand worker.old.terms.deal worker.old.hand }
    requires claimed { HasClaimed worker.old.terms.deal worker.old.hand worker.old.hand }
    ensures ends { EndsChannel result worker.old worker.new }
    ensures packed { (image : Image) (before drained : List ℕ) → image.table ≡ worker.old.terms.table → HasPacked image before (drained ++ worker.old.text) worker.old
        → HasPacked image before (drained ++ worker.new.text) worker.new }
{
    match worker.step(memory) {
        Ok(()) => DONE,
        Err(NoMemory) => NO_MEMORY,
    }
}

// Writes the packet of the worker's number from the pages of a memory.
fn pack_on(worker: &mut ChannelWorker<Global>, memory: &CopiedPages<'_>) -> u32
    requires table { memory.now.table ≡ worker.old.terms.table }
    ensures { PacksOn memory.now result worker.old worker.new }
{
    match worker.step(memory) {
        Ok(_) => RUNNING,
        Err(NoMemory) => NO_MEMORY,
    }
}

// Returns whether there are `count` contents, each of a page of `size` bytes.
fn are_contents(contents: &[&[u8]], size: u64, count: usize) -> bool
    ensures { IsTrue result ↔ AreContents size count (lent_bytes contents.now) }
{
    if contents.len() != count {
        return false;
    }
    for i in 0..count {
        if contents[i].len() as u64 != size {
            return false;
        }
    }
    true
}

// Copies the numbers of the pages of the claimed batch, if there is a content for each of them, or
// returns why not.
fn claimed_pages(
    alloc: Global,
    worker: &ChannelWorker<Global>,
    contents: &[&[u8]],
) -> Result<Vec<u64>, u32>
    ensures ok { IfOk result (λ pages. OfClaim (λ batch number. HasBatch worker.now.terms.table pages.items (lent_bytes contents.now) batch) worker.now.terms worker.now.hand) }
    ensures err { IfErr result (λ status. RefusesPages (lent_bytes contents.now) status worker.now) }
{
    let Some(batch) = worker.batch() else {
        return Err(OUT_OF_TURN);
    };
    if !are_contents(contents, worker.table().page_size(), batch.pages.len()) {
        return Err(BAD_LENGTH);
    }
    match Vec::from_slice(alloc, &batch.pages) {
        Ok(pages) => Ok(pages),
        Err(_) => Err(NO_MEMORY),
    }
}

// Returns the status with which the head of the claimed batch is refused. `None` if each of its
// pages has a byte in `zeros`, there is room for the head, and no drained byte waits.
fn head_refused(held: &HeldWorker, zeros: &[u8], room: usize) -> Option<u32>
    ensures none { IfNone result (OfBatch (λ batch number. TakesHead held.now.worker.terms.table zeros.now room batch) held.now × (waiting_in held.now.drained ≡ [])) }
    ensures some { IfSome result (λ status. RefusesHead zeros.now room status held.now) }
{
    let Some(batch) = held.worker.batch() else {
        return Some(OUT_OF_TURN);
    };
    if !held.drained.is_empty() {
        return Some(OUT_OF_TURN);
    }
    held.table.keeps_limits();
    if zeros.len() != batch.pages.len() || room < head_len(held.table.page_size()) {
        return Some(BAD_LENGTH);
    }
    None
}

// Writes to `flags` which bytes aren't 0.
fn set_flags(bytes: &[u8], flags: &mut [bool])
    requires { length flags.old ≡ length bytes.now }
    ensures { flags.new ≡ flags_of bytes.now }
{
    for i in 0..bytes.len() {
        flags[i] = bytes[i] != 0;
    }
}

// Moves the bytes of a worker to the front of a buffer that has room for them. Returns how many.
fn move_out(worker: &mut ChannelWorker<Global>, drained: &mut Waiting, out: &mut [u8]) -> usize
    requires { length worker.old.text ≤ length out.old }
    ensures front { take result out.new ≡ worker.old.text }
    ensures len { result ≡ length worker.old.text }
    ensures rest { worker.new ≡ record worker.old { text = [] } }
    ensures none { waiting_in drained.new ≡ [] }
{
    worker.drain_into(&mut drained.bytes);
    let count = copy_front(&drained.bytes, out);
    drained.given = count;
    count
}

// Writes the head of the packet of the claimed batch to the front of `out`, and its length to
// `written`. No byte of the channel waits.
fn give_head(
    worker: &mut ChannelWorker<Global>,
    drained: &mut Waiting,
    zeros: &[u8],
    out: &mut [u8],
    written: &mut usize,
) -> u32
    requires batch { OfClaim (λ batch number. TakesHead worker.old.terms.table zeros.now (length out.old) batch) worker.old.terms worker.old.hand }
    requires none { worker.old.text ≡ [] }
    ensures { WritesOut zeros.now result out.old out.new written.old written.new worker.old worker.new drained.old drained.new }
{
    // the page size bounds the pages of a batch
    worker.table().keeps_limits();
    let mut flags = [false; 128];
    let flags = &mut flags[..zeros.len()];
    set_flags(zeros, flags);
    match worker.put_head(flags) {
        Ok(()) => {
            *written = move_out(worker, drained, out);
            RUNNING
        }
        Err(NoMemory) => NO_MEMORY,
    }
}

impl HeldWorker {
    /// Draws the number of the worker's next packet, and writes the batch that it claims to
    /// `named`. If no batch is left, writes the SYNC packet into the channel, and `named` stays as
    /// it is. Returns the status: `RUNNING` with a batch, `DONE` once the worker has ended, or
    /// `NO_MEMORY`. Until the batch is packed, each call names the same one.
    pub fn next(&mut self, named: &mut NamedBatch) -> u32
        ensures { NamesBatch result named.old named.new self.old self.new }
    {
        self.worker.claim();
        if name_claimed(&self.worker, named) {
            return RUNNING;
        }
        self.table.keeps_limits();
        let contents = [page_of_zeros(self.table.page_size())];
        let memory = CopiedPages::new(&self.table, &[0], &contents);
        end_channel(&mut self.worker, &memory)
    }

    /// Writes the packet of the batch that `next` named, whose pages have these contents, one for
    /// each, in the batch's order. Returns the status: `RUNNING`, or the first that applies of
    /// `OUT_OF_TURN` if no batch waits for its packet, `BAD_LENGTH` and `NO_MEMORY`.
    pub fn pack(&mut self, alloc: Global, contents: &[&[u8]]) -> u32
        ensures { PacksCopied (lent_bytes contents.now) result self.old self.new }
    {
        match claimed_pages(alloc, &self.worker, contents) {
            Ok(pages) => {
                let memory = CopiedPages::new(&self.table, &pages, contents);
                pack_on(&mut self.worker, &memory)
            }
            Err(status) => status,
        }
    }

    /// Writes the head of the packet of the batch that `next` named to the front of `out`, and its
    /// length to `written`. A byte of `zeros` that isn't 0 says that its page is zeros. The caller
    /// sends the head, and after it the contents of the other pages, in the batch's order.
    ///
    /// Returns the status: `RUNNING`, or the first that applies of
    ///
    /// - `OUT_OF_TURN`: no batch waits for its packet, or bytes of the channel wait to be drained;
    /// - `BAD_LENGTH`: `zeros` hasn't one byte for each page, or `out` is shorter than a head;
    /// - `NO_MEMORY`: an allocation was refused. The batch still waits for its packet.
    pub fn head(&mut self, zeros: &[u8], out: &mut [u8], written: &mut usize) -> u32
        ensures { GivesHead zeros.now result out.old out.new written.old written.new self.old self.new }
    {
        refill(self);
        match head_refused(self, zeros, out.len()) {
            Some(status) => status,
            None => give_head(&mut self.worker, &mut self.drained, zeros, out, written),
        }
    }

    /// Copies the next bytes of the channel to the front of `out`. Returns how many.
    pub fn drain(&mut self, out: &mut [u8]) -> usize
        ensures { DrainsWorker result out.new self.old self.new }
    {
        refill(self);
        self.drained.hand_out(out)
    }
}
