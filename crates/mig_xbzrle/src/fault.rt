//! Why bytes are no delta of a page.

/// The first fault of a delta. Each carries the offset in the delta of the length at fault.
#[derive(Clone, Copy, Debug, PartialEq, Eq)]
pub enum DeltaFault {
    /// Fewer than two bytes are left where a length begins.
    Cut(usize),
    /// The second byte of a length has its top bit set.
    LongLength(usize),
    /// A run after the first skips no bytes.
    NoSkip(usize),
    /// A run replaces no bytes.
    NoBytes(usize),
    /// The bytes skipped, or those of the run, reach past the end of the page.
    PastPage(usize),
    /// Fewer bytes are left than the run has.
    BytesMissing(usize),
}
