//! Tests of guest memory, packets and channels: sets of pages from bitmaps; memories that are
//! compared, and rounds that are written, by several threads; a memory that is cleared; a round
//! that is judged as it arrives; channels up to where they are valid, with a limit on what waits,
//! and read by the lengths that they want. Also tests of a memory that was zeros, and of the
//! allocator that refuses.
//!
//! The worked examples are cases of `mig_rows`.
#![tactic(auto)]

#[cfg(test)]
mod arrivals;
#[cfg(test)]
mod bitmaps;
#[cfg(test)]
mod channel_valid;
#[cfg(test)]
mod cleared;
#[cfg(test)]
mod compared;
#[cfg(test)]
mod fresh;
#[cfg(test)]
mod heap;
#[cfg(test)]
mod pages_read;
#[cfg(test)]
mod rounds;
mod staged;
#[cfg(test)]
mod threaded;
#[cfg(test)]
mod threaded_memory;
#[cfg(test)]
mod threaded_rounds;
#[cfg(test)]
mod waiting;
