//! Bytes of consecutive pages that wait to be written.

/// Consecutive pages of one file that aren't written yet, and the byte at which they begin.
#[derive(Drop)]
pub struct Run {
    /// The number of the file.
    pub file: usize,
    pub start: u64,
    pub bytes: Vec<u8>,
}
