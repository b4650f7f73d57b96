//! How far a single stream was read, for the program `zimgasol`: its state, its complete sections
//! and its valid bytes, and the taker that was given each of its records.
//!
//! | Modules | What they do |
//! |---|---|
//! | `taker` | the trait of what takes a stream's records |
//! | `course` | reads a stream piece after piece |
#![tactic(auto)]

mod course;
mod taker;

pub use course::Course;
pub use taker::Taker;
