//! Loads several channels whose bytes are fed in pieces, in any order of the sources.
//!
//! A `Session` has at any time the answer on the bytes so far, as `mig_answer` defines it. It
//! starts no thread. `pump` reads one source to its end and feeds a session what it reads, from a
//! `PieceReader`, in most cases a `Counted` over a reader of the caller's. Both, and `Source`, are
//! those of `mig_sources`.
//!
//! A session is the load in place of `mig_in_place` into a memory that keeps the open round apart.
//! Bytes of a source that has this round wait until the others have it. Beside that each source is
//! scanned to its last byte, for its fault and its place.
//!
//! Definitions, in reading order: `Session`; the laws of `Law` and `Ahead`; for pumps `Pumping` and
//! `PumpFaultNumber` (`specs/`). `Scan`, `Sources`, `Loading` and `Advancing` are private: only
//! contracts of private functions name them.
#![tactic(auto)]

mod laws;
mod loading;
mod main_scan;
mod places;
mod pumping;
mod scan;
mod session;
mod sources;
mod taking;
mod waiting;

pub use laws::{answers_are_ahead, machine_sent_is_loaded_in_pieces, sent_is_loaded_in_pieces};
pub use mig_sources::{Counted, PieceReader, ReadFailed, Source};
pub use pumping::{PumpFault, pump};
pub use session::Session;
