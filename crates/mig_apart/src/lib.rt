//! Loads several channels into existing memory whose pages others read to their places, apart from
//! the load's calls: each channel has a thread of its own, and the load is behind one lock.
//!
//! Under the lock a channel's thread passes the head of its next packet, and the load claims the
//! places of its pages (`ApartSession::claim`). Without the lock the thread reads the normal pages
//! from its connection straight to their places, and clears the pages of zeros. Under the lock
//! again it says that they are there (`take`). No call is passed the memory meanwhile, and no place
//! is claimed twice at once.
//!
//! The streams' other bytes, as hellos, SYNC packets and the main stream, are fed with the memory
//! (`feed`) while nothing is claimed. They come at a round's ends.
//!
//! Definitions, in reading order: `Claims`, `Law` (`specs/`).
#![tactic(auto)]

mod laws;
mod places;
mod session;

pub use laws::{claimed_places_are_free, nothing_claimed_is_strict, strict_is_free};
pub use session::{ApartSession, Claim};
