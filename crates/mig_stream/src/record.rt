//! Page records as they are kept, each in 24 bytes, for `round`.
//!
//! The bytes of copied pages are kept together in buffers, so that most pages need no allocation of
//! their own. A buffer belongs to the record of its first page. The records after it say where in
//! it their bytes are.

ghost use Rattle.std.specs.Prelude.{◌≡◌, ◌+◌, ◌<◌, ◌≤◌, ◌^◌, ◌++◌, [], ◌∷◌, length, take, None, Some, IfOk, IfSome, IfNone};
ghost use Rattle.std.specs.Option.{option_copied};
ghost use Rattle.mig_stream.specs.Kept.{buffer_of, buffers_of_records, bytes_at, IsWithin, place_of, IsGrown, records_after, AreHeldAfter};
ghost use Rattle.mig_mem.specs.Place.{place_at};
ghost use Rattle.mig_stream.specs.Round.{record_at};

use mig_mem::{NoMemory, Place};
use std::alloc::Allocator;

/// The most bytes of a buffer, unless it has one page alone.
const MAX_BUFFER: usize = 1 << 16;

/// Where bytes are: in the buffer of which record, from which offset, and up to which.
#[derive(Clone, Copy)]
pub(crate) struct Span {
    pub(crate) owner: u32,
    pub(crate) start: u32,
    pub(crate) end: u32,
}

/// A page record: the number of its page's block, that of the page, and its content.
#[derive(Drop)]
pub(crate) enum Record<'a, A: Allocator> {
    /// The page is zeros.
    Zeros(u8, u32),
    /// The bytes of the page, up to this offset in a buffer of its own.
    Kept(u8, u32, u32, Box<Vec<u8, A>, A>),
    /// The bytes of the page, in the buffer of a record before it.
    Behind(u8, u32, Span),
    /// The bytes of the page, lent from the stream.
    Lent(u8, u32, &'a [u8]),
}

impl<'a, A: Allocator> Record<'a, A> {
    pub(crate) fn place(&self) -> Place
        ensures { result ≡ place_of self.now }
    {
        let (block, page) = match self {
            Record::Zeros(block, page) => (*block, *page),
            Record::Kept(block, page, _, _) => (*block, *page),
            Record::Behind(block, page, _) => (*block, *page),
            Record::Lent(block, page, _) => (*block, *page),
        };
        place_of(block, page)
    }
}

/// Returns the place of these numbers.
pub(crate) fn place_of(block: u8, page: u32) -> Place
    ensures { result ≡ place_at block page }
{
    Place {
        block: block as usize,
        page: page as u64,
    }
}

// Appends bytes to a buffer, if there is room. Returns the offsets of their beginning and their
// end.
fn append<A: Allocator>(buffer: &mut Vec<u8, A>, bytes: &[u8]) -> Option<(u32, u32)>
    ensures some { IfSome result (λ s. (buffer.new.items ≡ buffer.old.items ++ bytes.now)
        × (s.0 ≡ length buffer.old.items) × (s.1 ≡ length buffer.new.items)) }
    ensures none { IfNone result (buffer.new.items ≡ buffer.old.items) }
{
    let start = buffer.len();
    let end = start.checked_add(bytes.len())?;
    if end > MAX_BUFFER || end > buffer.capacity() {
        return None;
    }
    match buffer.extend_from_slice(bytes) {
        Ok(()) => Some((start as u32, end as u32)),
        Err(_) => None,
    }
}

// Appends bytes to a record's buffer, as `append` does.
fn extend<A: Allocator>(item: &mut Record<'_, A>, bytes: &[u8]) -> Option<(u32, u32)>
    ensures some { IfSome result (λ s. IsGrown item.old item.new bytes.now
        × (s.0 ≡ length (buffer_of item.old)) × (s.1 ≡ length (buffer_of item.new))) }
    ensures none { IfNone result (IsGrown item.old item.new []) }
{
    match item {
        Record::Kept(_, _, _, buffer) => append(buffer, bytes),
        _ => None,
    }
}

/// Appends bytes to the buffer of a record, if it has one and there is room.
pub(crate) fn put_after<A: Allocator>(
    records: &mut Vec<Record<'_, A>, A>,
    owner: usize,
    bytes: &[u8],
) -> Option<Span>
    requires { AreHeldAfter [] records.old.items }
    ensures held { AreHeldAfter [] records.new.items }
    ensures same { records_after [] records.new.items ≡ records_after [] records.old.items }
    ensures within { IfSome result (λ s. IsWithin (buffers_of_records records.new.items) s) }
    ensures bytes { IfSome result (λ s. bytes_at (buffers_of_records records.new.items) s ≡ bytes.now) }
{
    let number = u32::try_from(owner).ok()?;
    let (start, end) = extend(records.get_mut(owner)?, bytes)?;
    Some(Span {
        owner: number,
        start,
        end,
    })
}

// Returns the capacity of the buffer after the one of a record, for `len` bytes.
fn next_capacity<A: Allocator>(records: &[Record<'_, A>], owner: usize, len: usize) -> usize {
    match records.get(owner) {
        Some(Record::Kept(_, _, _, buffer)) => {
            len.max(buffer.capacity().saturating_mul(2).min(MAX_BUFFER))
        }
        _ => len,
    }
}

/// Creates a buffer with these bytes, which follows the one of a record.
pub(crate) fn next_buffer<A: Allocator + Copy>(
    alloc: A,
    records: &[Record<'_, A>],
    owner: usize,
    bytes: &[u8],
) -> Result<Box<Vec<u8, A>, A>, NoMemory>
    ensures { IfOk result (λ b. b.value.items ≡ bytes.now) }
{
    let mut buffer = Vec::with_capacity(alloc, next_capacity(records, owner, bytes.len()))?;
    buffer.extend_from_slice(bytes)?;
    Ok(Box::new(alloc, buffer)?)
}

// Returns the bytes of a span.
fn bytes_after<'b, A: Allocator>(records: &'b [Record<'_, A>], span: Span) -> &'b [u8]
    requires { IsWithin (buffers_of_records records.now) span }
    ensures { result.now ≡ bytes_at (buffers_of_records records.now) span }
{
    match &records[span.owner as usize] {
        Record::Kept(_, _, _, buffer) => &buffer[span.start as usize..span.end as usize],
        _ => &[],
    }
}

/// Returns the bytes that record `i` has of its page.
pub(crate) fn content_at<'b, A: Allocator>(
    records: &'b [Record<'_, A>],
    i: usize,
) -> Option<&'b [u8]>
    requires held { AreHeldAfter [] records.now }
    requires there { i < length records.now }
    ensures { option_copied result ≡ (record_at (records_after [] records.now) i).content }
{
    match &records[i] {
        Record::Zeros(_, _) => None,
        Record::Kept(_, _, end, buffer) => Some(&buffer[..*end as usize]),
        Record::Behind(_, _, span) => Some(bytes_after(records, *span)),
        Record::Lent(_, _, bytes) => Some(bytes),
    }
}
