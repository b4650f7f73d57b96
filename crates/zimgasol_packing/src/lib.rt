//! The packets of `zimgasol save --channels`: each has pages of one block, as many as it has room
//! for, and goes on the next channel in turn.
//!
//! The first round is empty, since QEMU 10 and 11 crash on channels whose first packets have pages.
//! The second one has all pages. `Packing` is such a main stream with its channels. Definitions:
//! `Packets`, of pages in packets and of a channel's bytes; `Packing`, of what was written so far
//! (`specs/`).
#![tactic(auto)]

mod batch;
mod channels;
mod laws;
mod packing;

pub use laws::packets_are_a_sending;
pub use packing::Packing;
