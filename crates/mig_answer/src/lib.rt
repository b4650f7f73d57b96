//! Defines the answer of a load on several channels, without threads, queues or pieces.
//!
//! The answer is one function of the bytes so far of the main stream and of each channel. It has
//! the memory after the rounds that all of them have and that are lawful, the number of these
//! rounds, and the verdict: done, running, or the first fault after them.
//!
//! The laws are clauses of functions that do nothing. Any bytes have exactly one answer. An answer
//! other than `Running` stays when more bytes follow. A sender's streams load completely. The laws
//! hold for each load whose answer is `IsAnswer`, as those of `mig_relay` and `mig_session`.
//!
//! Relays and sessions share the calls beside the laws: `sources_verdict` returns the verdict of
//! the sources at a round. `apply` applies a round to memory, and `apply_by` has several threads
//! write it.
//!
//! Definitions, in reading order: `Status`, `Texts`, `Rounds`, `MultiLoad`, then `Received`,
//! `Dealt`, `Sent`, `Law`, `Growing` (`specs/`). `Told` and `Putting` are for the shared calls
//! alone.
#![tactic(auto)]

mod laws;
mod round;
mod status;
mod verdict;
mod verdicts;

pub use laws::{
    answers_stay, dealt_rounds_are_lawful, done_by_one_round_end, machine_sendings_are_loaded,
    received_tells_status, sendings_are_loaded, texts_have_one_answer,
};
pub use round::{apply, apply_by};
pub use status::{Status, channel_end, stream_end};
pub use verdict::Verdict;
pub use verdicts::{repeated_id, sources_verdict};
