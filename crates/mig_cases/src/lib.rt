//! Worked examples as data: the cases. It has a file of cases and its words; the guest and the
//! streams that a case's lines build; and the questions about guest memory and packets.
//!
//! `mig_rows` runs such files: it adds rounds, streams and loads. `Count` compares the answers.
//! The README of `mig_rows` has all the lines. This crate depends on guest memory and packets only,
//! and is proved beside the stream. It is no part of the product, and no function here has a
//! contract.
//!
//! A call that was refused memory is made again (`again`), so answers are those of a run that had
//! it. That shows that a refused call leaves what it was passed as it was.
#![tactic(auto)]

mod book;
mod case;
mod fields;
mod guest;
mod of_memory;
mod of_packets;
mod play;
mod show;
mod texts;
mod trouble;
mod words;

pub use book::{Book, Section};
pub use case::Case;
pub use guest::Guest;
pub use of_memory::{ask_memory, difference};
pub use of_packets::{agree, ask_packets, put_fed, reader_of_channel};
pub use play::{Count, Line};
pub use show::{
    Pages, put_bytes, put_memory, put_number, put_packet, put_place, put_table, same_bytes,
};
pub use trouble::{Done, Trouble};
pub use words::{Words, bytes_of};
