//! The records of zero pages, many at once.
//!
//! They are most records of a guest that has hardly been used. Such a record is two items, or three
//! if it names its block. Here it is tested and noted in one step. All other bytes are left to the
//! items one by one, which test them anew.

ghost use Rattle.std.specs.Prelude.{◌≡◌, ◌+◌, ◌<◌, ◌≤◌, ◌++◌, [], ◌∷◌, false, is_none, length, slice_index, Some, None, IfOk, IfSome, OnOk, OnErr};
ghost use Rattle.mig_mem.specs.RamTable.{block, block_of};
ghost use Rattle.mig_stream.specs.declared.item.Due.TheVariants as due;
ghost use Rattle.mig_stream.specs.Items.{id_in, is_full, less_room};
ghost use Rattle.mig_stream.specs.Kept.{bytes_of, IsShort};
ghost use Rattle.mig_stream.specs.Taking.{HasTaken, HasTakenPages, HasTakenRecords};

use crate::fields::be64;
use crate::format::{CONTINUED_ZERO, RAM_SAVE_FLAG_ZERO};
use crate::item::Due;
use crate::items::{is_full, less_room, split_head};
use crate::piece::Piece;
use crate::progress::Progress;
use mig_mem::{NoMemory, Place};
use std::alloc::Allocator;

/// How many bytes a record's head has.
const HEAD_LEN: usize = 8;

/// How many bytes a zero record without its block's id has: its head, and the fill byte.
const CONTINUED_LEN: usize = 9;

/// How many bytes are read at once. More would leave more records to be given at once than caches
/// hold.
const NEAR: usize = 1 << 14;

impl<'a, A: Allocator> Progress<'a, A> {
    /// If a record is next, takes the records of zero pages at the front of the bytes, as long as
    /// they are complete and without a fault. If there are very many, it takes those in the first
    /// `NEAR` bytes. Returns the bytes after them. After an `Err` some were taken.
    #[tactic(auto, using(crate::proofs::ZeroRecords::none_taken))]
    #[inline(always)]
    pub(crate) fn pass_zeros<'b>(&mut self, text: Piece<'a, 'b>) -> Result<Piece<'a, 'b>, NoMemory>
        ensures ok { IfOk result (λ rest. HasTakenPages self.old (bytes_of text.entry) (bytes_of rest) self.new) }
        ensures due { OnOk result (self.new.due ≡ self.old.due) }
        ensures len { IfOk result (λ rest. length (bytes_of rest) ≤ length (bytes_of text.entry)) }
        ensures err { OnErr result (HasTaken self.old (bytes_of text.entry) self.new) }
    {
        match self.due {
            Due::RecordHead => self.pass_zero_records(text),
            _ => Ok(text),
        }
    }

    // Takes the records of zero pages as `pass_zeros` does, if a record is next.
    fn pass_zero_records<'b>(&mut self, text: Piece<'a, 'b>) -> Result<Piece<'a, 'b>, NoMemory>
        requires { self.old.due ≡ due.RecordHead }
        ensures ok { IfOk result (λ rest. HasTakenPages self.old (bytes_of text.entry) (bytes_of rest) self.new) }
        ensures due { OnOk result (self.new.due ≡ self.old.due) }
        ensures len { IfOk result (λ rest. length (bytes_of rest) ≤ length (bytes_of text.entry)) }
        ensures err { OnErr result (HasTaken self.old (bytes_of text.entry) self.new) }
    {
        let bytes = text.bytes();
        let near = &bytes[..bytes.len().min(NEAR)];
        let mut at = 0;
        'runs: while at < near.len() {
            let len = self.zero_run(&near[at..])?;
            if len == 0 {
                break;
            }
            at += len;
        }
        let (_, rest) = text.split_at(at);
        Ok(rest)
    }

    // Takes the records of one kind. Returns how many bytes they have.
    fn zero_run(&mut self, bytes: &[u8]) -> Result<usize, NoMemory>
        requires { self.old.due ≡ due.RecordHead }
        ensures ok { IfOk result (λ n. HasTakenRecords self.old bytes.now n self.new) }
        ensures err { OnErr result (HasTaken self.old bytes.now self.new) }
    {
        if bytes.len() < HEAD_LEN || self.entries.left().is_none() {
            return Ok(0);
        }
        let (_, flags) = split_head(be64(bytes, 0), self.entries.page_size());
        match flags {
            CONTINUED_ZERO => self.continued_zeros(bytes),
            RAM_SAVE_FLAG_ZERO => self.named_zeros(bytes),
            _ => Ok(0),
        }
    }

    // Takes the records without a block's id.
    fn continued_zeros(&mut self, bytes: &[u8]) -> Result<usize, NoMemory>
        requires due { self.old.due ≡ due.RecordHead }
        requires begun { is_none self.old.left ≡ false }
        ensures ok { IfOk result (λ n. HasTakenRecords self.old bytes.now n self.new) }
        ensures err { OnErr result (HasTaken self.old bytes.now self.new) }
    {
        let Some(block) = self.named else {
            return Ok(0);
        };
        let pages = self.entries.pages(block);
        let page_size = self.entries.page_size();
        let mut at = 0;
        'records: while CONTINUED_LEN <= bytes.len() - at {
            let (page, flags) = split_head(be64(bytes, at), page_size);
            if flags != CONTINUED_ZERO
                || page >= pages
                || bytes[at + HEAD_LEN] != 0
                || is_full(self.room)
            {
                break;
            }
            self.add_zeros(Place { block, page })?;
            at += CONTINUED_LEN;
        }
        Ok(at)
    }

    // Takes the records that name their block.
    fn named_zeros(&mut self, bytes: &[u8]) -> Result<usize, NoMemory>
        requires due { self.old.due ≡ due.RecordHead }
        requires begun { is_none self.old.left ≡ false }
        ensures ok { IfOk result (λ n. HasTakenRecords self.old bytes.now n self.new) }
        ensures err { OnErr result (HasTaken self.old bytes.now self.new) }
    {
        let mut at = 0;
        'records: while at < bytes.len() {
            let len = self.named_zero(&bytes[at..])?;
            if len == 0 {
                break;
            }
            at += len;
        }
        Ok(at)
    }

    // Takes the first record. Returns how many bytes it has, or 0 if there is none.
    #[inline(always)]
    fn named_zero(&mut self, bytes: &[u8]) -> Result<usize, NoMemory>
        requires due { self.old.due ≡ due.RecordHead }
        requires begun { is_none self.old.left ≡ false }
        ensures ok { IfOk result (λ n. HasTakenRecords self.old bytes.now n self.new) }
        ensures err { OnErr result (self.new ≡ self.old) }
    {
        if bytes.len() <= HEAD_LEN || is_full(self.room) {
            return Ok(0);
        }
        let (head, rest) = bytes.split_at(HEAD_LEN);
        let (page, flags) = split_head(be64(head, 0), self.entries.page_size());
        let name_len = 1 + rest[0] as usize;
        if flags != RAM_SAVE_FLAG_ZERO || rest.len() <= name_len || rest[name_len] != 0 {
            return Ok(0);
        }
        let Some(place) = self.named_place(&rest[..name_len], page) else {
            return Ok(0);
        };
        self.add_zeros(place)?;
        self.named = Some(place.block);
        Ok(CONTINUED_LEN + name_len)
    }

    // Returns the place of a page in the block that a length byte and an id name. Returns None if
    // there is no such block or page.
    #[inline(always)]
    fn named_place(&self, name: &[u8], page: u64) -> Option<Place>
        requires { length name.now ≡ 1 + slice_index name.now 0 }
        ensures block { IfSome result (λ p. block_of self.now.blocks (id_in name.now) ≡ Some p.block) }
        ensures page { IfSome result (λ p. (p.page ≡ page) × (page < (block self.now.blocks p.block).pages)) }
        ensures short { IfSome result (λ p. IsShort p) }
    {
        let len = name[0] as usize;
        let block = self.entries.find(&name[1..1 + len])?;
        if page >= self.entries.pages(block) {
            return None;
        }
        Some(Place { block, page })
    }

    // Adds a record of a page of zeros.
    #[inline(always)]
    fn add_zeros(&mut self, place: Place) -> Result<(), NoMemory>
        requires { IsShort place }
        ensures ok { OnOk result (self.new ≡ record self.old { room = less_room self.old.room; records = self.old.records ++ record { place = place; content = None } ∷ [] }) }
        ensures err { OnErr result (self.new ≡ self.old) }
    {
        self.records.push_zeros(place)?;
        self.room = less_room(self.room);
        Ok(())
    }
}
