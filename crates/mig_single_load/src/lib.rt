//! Loads single streams: builds a guest's memory from the bytes of one migration stream.
//!
//! The answer of a load is a function of the stream's bytes and the settings (`LoadSettings`): the
//! memory after the complete sections, how many these are, and the first fault after them. The
//! exception is a refused allocation. `mig_stream` defines the format, and `mig_assemble` how a
//! section is applied. No sender is needed here.
//!
//! `load_single` loads a complete stream of RAM's sections alone, and `load_single_with` one of any
//! settings. `SingleLoader` loads one that is fed in pieces. Loads in place write into memory that
//! exists already, each page when its bytes have come: `InPlaceState`, and `InPlaceLoader`, which
//! keeps the memory too. Each takes the settings of its stream.
//!
//! Definitions, in reading order: `Settings` of `mig_load_types`, and `SingleLoad`, `Loader`,
//! `InPlace`, `LoadInPlace`, `ComesNext` (`specs/`).
#![tactic(auto)]

mod at_once;
mod filling;
mod in_place;
mod in_place_state;
mod loader;
mod settle;
mod single;

pub use in_place::{InPlaceLoader, machine_sent_is_loaded_in_place, sent_is_loaded_in_place};
pub use in_place_state::{InPlaceState, in_place_keeps_other_places, in_place_ok_is_whole};
pub use loader::SingleLoader;
pub use settle::{no_memory, other_table, verdict_at, without_memory};
pub use single::{load_single, load_single_with};
