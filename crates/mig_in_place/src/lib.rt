//! Loads several channels into existing memory, each page as soon as its bytes have arrived. Of the
//! current round it keeps the packets' numbers and a mark for each page. It also keeps the main
//! stream's page records, and writes them once their FLUSH has arrived and their round is the
//! current one.
//!
//! An `InPlaceSession` is for a guest whose memory the caller has mapped where it is to run. A
//! `Session` (`mig_session`) keeps each round until all sources have it, and judges it before it
//! writes a page of it. So its memory has only complete lawful rounds. An `InPlaceSession` writes
//! first and judges at the round's end. So its memory may hold anything at the places that the
//! unfinished round names. Both return the same verdict.
//!
//! A `SourceReader` reads a source, and keeps in a buffer what the load doesn't take yet. So a
//! caller can serve several connections in turn, in whatever order they have bytes.
//!
//! Definitions, in reading order: `Named`, `Answer`, `Session`, `Law`, `Turns` (`specs/`). `Round`
//! and `Sources` are private: only contracts of private functions name them.
#![tactic(auto)]

mod apart;
mod channel;
mod laws;
mod main_stream;
mod pumping;
mod put;
mod round;
mod session;
mod source_reader;
mod whole_rounds;

pub use laws::{
    in_place_done_is_exact, in_place_done_stays, in_place_tells_alike,
    machine_sent_is_loaded_in_place, running_takes_some, sent_is_loaded_in_place,
    waiting_bytes_change_nothing,
};
pub use pumping::{RoundRobin, TurnOrder, pump_by_turns};
pub use session::InPlaceSession;
pub use source_reader::{SourceReader, Turn, TurnFault};
