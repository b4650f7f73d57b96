//! The sources of a load on several channels: its main stream and its channels, as callers name
//! them; the counts of their bytes; and readers that give the pieces of one.
//!
//! Definitions, in reading order: `Sources`, the counts and the steps of their streams; `Faults`,
//! what the bytes of one source say by themselves; `Due`; `Reads`, for pumps (`specs/`).
#![tactic(auto)]

mod counts;
mod piece_reader;
mod source;

pub use counts::{Count, SourceCounts};
pub use piece_reader::{Counted, PieceReader, ReadFailed};
pub use source::Source;
