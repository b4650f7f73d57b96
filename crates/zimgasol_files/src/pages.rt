//! Reads a file and an older one in parallel, some pages at a time, and finds the pages that
//! differ.

ghost use Rattle.std.specs.Prelude.{◌≡◌, ◌≤◌, ◌↔◌, ◌*◌, ◌/◌, ◌<◌, ◌^◌, ℕ, List, [], length, take, drop, Option, IsSome, IfSome, IfOk, OnOk, IsTrue, MatchOption};
ghost use Rattle.std.specs.Option.{option_copied, option_map};
ghost use Rattle.zimgasol_files.specs.Differing.{Piece, HasPage, page_of, piece_of, Differs};
ghost use Rattle.zimgasol_files.specs.ReadOn.{IsLeft, IsOldLeft, IsRead, HasPiece, IsReadTo, ReadsOn};

use crate::opened::Opened;
use crate::trouble::{Trouble, Unfit};
use std::alloc::Global;
use std::io::Read;

/// The number of pages that are read at once, and so the most pages of a section.
pub const PIECE_PAGES: usize = 256;

/// Consecutive pages of a block, and the older ones at their places.
#[derive(Clone, Copy)]
pub struct Pages<'a> {
    pub bytes: &'a [u8],
    /// The older bytes; None if all pages count as different.
    pub before: Option<&'a [u8]>,
    pub page_size: usize,
}

// Returns the page `page` of `bytes`; None past the last complete one.
fn page_at(bytes: &[u8], page: usize, page_size: usize) -> Option<&[u8]>
    ensures there { IsSome result ↔ HasPage page_size bytes.now page }
    ensures value { IfSome result (λ bytes_there. bytes_there.now ≡ page_of page_size bytes.now page) }
{
    let at = page.saturating_mul(page_size);
    bytes.get(at..at.saturating_add(page_size))
}

impl<'a> Pages<'a> {
    /// Returns whether the older bytes are the same. Without older bytes all pages count as
    /// different, so then there have to be no pages.
    pub fn are_same(&self) -> bool
        ensures { MatchOption self.now.before (IsTrue result ↔ (self.now.bytes.now ≡ [])) (λ old. IsTrue result ↔ (old.now ≡ self.now.bytes.now)) }
    {
        match self.before {
            Some(before) => before == self.bytes,
            None => self.bytes.is_empty(),
        }
    }

    /// Returns the page `page`, if it differs from the older one.
    pub fn differing(&self, page: usize) -> Option<&'a [u8]>
        ensures differs { IsSome result ↔ Differs (piece_of self.now) page }
        ensures value { IfSome result (λ bytes. bytes.now ≡ page_of self.now.page_size self.now.bytes.now page) }
    {
        let bytes = page_at(self.bytes, page, self.page_size)?;
        if let Some(before) = self.before
            && let Some(old) = page_at(before, page, self.page_size)
            && old == bytes
        {
            return None;
        }
        Some(bytes)
    }

    /// Returns how many pages there are.
    pub fn count(&self) -> u64
        ensures { 0 < self.now.page_size → result ≡ length self.now.bytes.now / self.now.page_size }
    {
        if self.page_size == 0 {
            return 0;
        }
        (self.bytes.len() / self.page_size) as u64
    }
}

/// The reading of a file and an older one.
#[derive(Drop)]
pub struct Reading<F: Drop> {
    file: Opened<F>,
    before: Option<Opened<F>>,
    page_size: usize,
    bytes: Vec<u8>,
    old_bytes: Vec<u8>,
    // how many bytes of each were read last
    len: usize,
    // the bytes that weren't read yet
    left: u64,
}

// Returns the first `len` bytes of `buffer`; none if it hasn't as many.
fn front(buffer: &[u8], len: usize) -> &[u8]
    ensures { len ≤ length buffer.now → result.now ≡ take len buffer.now }
{
    if len > buffer.len() {
        return &[];
    }
    &buffer[..len]
}

// Reads `wanted` bytes of `file` into `buffer`.
fn read_wanted<F: Read + Drop>(
    file: &mut Opened<F>,
    buffer: &mut [u8],
    wanted: usize,
) -> Result<(), Trouble>
    ensures len { length buffer.new ≡ length buffer.old }
    ensures read { OnOk result ((rest : List ℕ) → IsLeft F.remaining file.old rest
        → IsRead wanted rest buffer.new × IsLeft F.remaining file.new (drop wanted rest)) }
{
    let len = file.read(buffer)?;
    if len != wanted {
        return Err(file.unfit(Unfit::Changed));
    }
    Ok(())
}

// Reads `wanted` bytes of the older file into `buffer`, if there is one.
fn read_old<F: Read + Drop>(
    before: &mut Option<Opened<F>>,
    buffer: &mut [u8],
    wanted: usize,
) -> Result<(), Trouble>
    ensures len { length buffer.new ≡ length buffer.old }
    ensures there { IsSome before.new → IsSome before.old }
    ensures read { OnOk result ((old : Option (List ℕ)) → IsOldLeft F.remaining before.old old
        → IfSome old (λ rest. IsRead wanted rest buffer.new) × IsOldLeft F.remaining before.new (option_map (λ rest. drop wanted rest) old)) }
{
    let Some(file) = before else {
        return Ok(());
    };
    read_wanted(file, buffer, wanted)?;
    Ok(())
}

impl<F: Read + Drop> Reading<F> {
    /// Creates the reading of `file` and the older file `before`, before its first byte was read.
    /// `left` is the length that each of them has to have.
    pub fn new(
        alloc: Global,
        file: Opened<F>,
        before: Option<Opened<F>>,
        page_size: usize,
        left: u64,
    ) -> Result<Reading<F>, Trouble>
        ensures { IfOk result (λ reading. (rest : List ℕ) (old : Option (List ℕ)) → page_size * 256 < 2 ^ 64
            → IsLeft F.remaining file rest → IsOldLeft F.remaining before old → IsReadTo F.remaining page_size left rest old reading) }
    {
        let room = page_size.saturating_mul(PIECE_PAGES);
        let bytes = vec![in alloc; 0u8; room]?;
        let old_bytes = old_buffer(alloc, &before, room)?;
        Ok(Reading {
            file,
            before,
            page_size,
            bytes,
            old_bytes,
            len: 0,
            left,
        })
    }

    /// Reads the next pages. Returns whether there are any.
    ///
    /// # Errors
    ///
    /// `Trouble::OfFile` if a read fails, `Trouble::Unfit` if a file has another length.
    pub fn read_on(&mut self) -> Result<bool, Trouble>
        ensures { IfOk result (λ is_more. (size left : ℕ) (rest : List ℕ) (old : Option (List ℕ)) → IsReadTo F.remaining size left rest old self.old
            → (count : ℕ) × (IsTrue is_more ↔ (0 < count)) × ReadsOn F.remaining size left rest old count self.new) }
    {
        let wanted = self.left.min(self.bytes.len() as u64) as usize;
        read_wanted(&mut self.file, &mut self.bytes, wanted)?;
        read_old(&mut self.before, &mut self.old_bytes, wanted)?;
        self.len = wanted;
        self.left -= wanted as u64;
        Ok(wanted > 0)
    }

    /// Returns the error that the file's length has changed.
    pub fn changed(&self) -> Trouble {
        self.file.unfit(Unfit::Changed)
    }

    // Returns the older bytes at the places of those that were read last, if there are any.
    fn old_front(&self) -> Option<&[u8]>
        ensures { (IsSome self.now.before → self.now.len ≤ length self.now.old_bytes.items)
            → option_copied result ≡ option_map (λ _. take self.now.len self.now.old_bytes.items) self.now.before }
    {
        match self.before {
            Some(_) => Some(front(&self.old_bytes, self.len)),
            None => None,
        }
    }

    /// Returns the pages that were read last.
    pub fn pages(&self) -> Pages<'_>
        ensures { (piece : Piece) → HasPiece self.now piece → piece_of result ≡ piece }
    {
        Pages {
            bytes: front(&self.bytes, self.len),
            before: self.old_front(),
            page_size: self.page_size,
        }
    }
}

// Returns the buffer for the older file, if there is one.
fn old_buffer<F: Drop>(
    alloc: Global,
    before: &Option<Opened<F>>,
    room: usize,
) -> Result<Vec<u8>, Trouble>
    ensures { IfOk result (λ v. IsSome before.now → length v.items ≡ room) }
{
    let Some(_file) = before else {
        return Ok(Vec::new(alloc));
    };
    let buffer = vec![in alloc; 0u8; room]?;
    Ok(buffer)
}
