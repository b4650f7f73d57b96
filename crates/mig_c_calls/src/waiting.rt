//! Bytes that were drained of a stream, some of which were copied out to C.

ghost use Rattle.std.specs.Prelude.{◌≡◌, ◌↔◌, ◌<◌, ◌≤◌, [], IsTrue, drop, take, length, min};
ghost use Rattle.mig_c_calls.specs.Front.{ShowsFront};
ghost use Rattle.mig_c_calls.specs.Multi.{HandsOutOf, waiting_in};

use std::alloc::Global;

/// Returns the bytes after the first `given`.
pub fn undrained(drained: &[u8], given: usize) -> &[u8]
    ensures { result.now ≡ drop given drained.now }
{
    match drained.get(given..) {
        Some(rest) => rest,
        None => &[],
    }
}

/// Copies as many bytes to the front of a buffer as it has room for. Returns how many.
pub fn copy_front(bytes: &[u8], out: &mut [u8]) -> usize
    ensures fits { result ≤ length out.new }
    ensures within { result ≤ length bytes.now }
    ensures front { take result out.new ≡ take result bytes.now }
    ensures none { result ≡ 0 → 0 < length out.new → length bytes.now ≡ 0 }
    ensures fills { result < length out.new → result ≡ length bytes.now }
{
    let count = bytes.len().min(out.len());
    out[..count].copy_from_slice(&bytes[..count]);
    count
}

/// Copies the first of some bytes that wait to the front of a buffer, as many as it has room for.
/// Returns how many.
pub(crate) fn show_front(bytes: &[u8], out: &mut [u8]) -> usize
    ensures { ShowsFront result out.new bytes.now }
{
    copy_front(bytes, out)
}

/// Bytes that were drained of a stream: the first ones were copied out, and the others wait.
pub struct Waiting {
    /// All of the bytes.
    pub(crate) bytes: Vec<u8>,
    /// How many were copied out.
    pub(crate) given: usize,
}

// Written out, so that a caller's proof passes a call where a value is dropped.
impl Drop for Waiting {
    fn drop(self) {
        let Waiting { bytes: _, given: _ } = self;
    }
}

impl Waiting {
    /// Creates it with no bytes.
    pub(crate) fn none(alloc: Global) -> Waiting
        ensures { waiting_in result ≡ [] }
    {
        Waiting {
            bytes: Vec::new(alloc),
            given: 0,
        }
    }

    /// Returns whether all bytes were copied out.
    pub(crate) fn is_empty(&self) -> bool
        ensures { IsTrue result ↔ (waiting_in self.now ≡ []) }
    {
        self.given >= self.bytes.len()
    }

    /// Copies the first bytes that wait to the front of a buffer, as many as it has room for.
    pub(crate) fn hand_out(&mut self, out: &mut [u8]) -> usize
        ensures { HandsOutOf result out.new self.old self.new }
    {
        let count = copy_front(undrained(&self.bytes, self.given), out);
        self.given += count;
        count
    }
    /// Returns the bytes that wait.
    pub(crate) fn waiting(&self) -> &[u8]
        ensures { result.now ≡ waiting_in self.now }
    {
        undrained(&self.bytes, self.given)
    }

    /// Counts the first bytes that wait as copied out: `len` of them, or all. Returns how many.
    pub(crate) fn skip(&mut self, len: usize) -> usize
        ensures count { result ≡ min len (length (waiting_in self.old)) }
        ensures rest { waiting_in self.new ≡ drop result (waiting_in self.old) }
    {
        let skipped = undrained(&self.bytes, self.given).len().min(len);
        self.given += skipped;
        skipped
    }
}
