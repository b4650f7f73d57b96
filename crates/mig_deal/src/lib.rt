//! The deal: one shared word that numbers packets and claims batches.
//!
//! The workers of a round share a list of batches. A worker draws a number from the deal for its
//! next batch. Number base + i claims batch i, and is the number of its packet, so no two workers
//! pack the same batch. A draw is one `fetch_add` on the shared word, and nothing else is shared
//! for writing. When no batch is left, each worker draws one number more, its last.
//!
//! A deal knows neither batches nor packets: it is passed the first number and the number of
//! batches. This crate proves that no number is drawn twice and none is left out, for any number of
//! threads in any schedule. The proof rests on the table of words of `atomic_table`. Contracts see
//! a `Deal` as a `DealView`, and a `Seat` or a `Spent` as a `SeatView`: the numbers that it drew.
#![tactic(auto)]

mod deal;
mod fault;
mod laws;
mod rule;
mod seat;

pub use deal::Deal;
pub use fault::NoMemory;
pub use laws::numbers_between_steps;
pub use seat::{Drawn, Seat, Spent};
