//! Senders of guest memory: they write the streams of a migration from images of a guest and its
//! dirty pages.
//!
//! `SingleSender` writes all rounds into one stream. `MultiSender` sends them on a main stream and
//! several channels: it cuts the dirty pages of a round into batches (`cut`), and runs a worker for
//! each channel. A worker draws numbers from the round's deal, and appends to its channel the
//! packets of the batches that these claim.
//!
//! A caller with threads of its own begins a round by `MultiSender::begin_round`, and steps the
//! workers that the `MultiRound` gives out, each a packet at a time. Such a round keeps the dirty
//! set, a bit a page, and each worker finds its batches in it (`finder`). `work` is a worker that
//! returns its packets as a list. `pack` creates a single packet.
//!
//! `mig_stream` and `mig_packet` define the streams. The caller knows which pages are dirty, and
//! when to send a round.
//!
//! Definitions to read first, in this order: `Sending`, `Batches`, `Packing`, `Work`, `Dealing`,
//! `DealtRounds`, `MultiSending`; for workers that are stepped `ChannelWork`, `Finding`, `Copies`
//! and `MultiRound` (`specs/`).
#![tactic(auto)]

mod batch;
mod channel_worker;
mod fault;
mod finder;
mod laws;
mod multi;
mod multi_round;
mod packed;
mod round_work;
mod share;
mod single;
mod sink;
mod worker;
mod workers;

pub use batch::{Batch, cut, pages_have_one_cut};
pub use channel_worker::ChannelWorker;
pub use fault::SendFault;
pub use laws::{machine_sendings_are_read_back, packets_say_their_pages, sendings_are_read_back};
pub use multi::{MultiSender, Sent};
pub use multi_round::MultiRound;
pub use packed::{Packed, pack};
pub use single::{OpenRound, SingleSender};
pub use worker::{Worked, work, workers_make_a_dealing};

/// The gate that a worker passes after each of its steps, for tests that hold workers.
pub use mig_packet::{Gate, OpenGate, Step};
