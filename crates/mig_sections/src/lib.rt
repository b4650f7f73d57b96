//! Loads a single stream into memory that is there already by whole sections: between two calls the
//! memory has the complete sections of the stream on top of what it held, and nothing else.
//!
//! The records of the section that isn't complete are kept apart from the memory. `InPlaceState` of
//! `mig_single_load` writes each page when its bytes have come, and `SingleLoader` has a memory of
//! its own.
//!
//! Definitions: `Sections` (`specs/`).
#![tactic(auto)]

mod putting;
mod sections_load;

pub use sections_load::{
    SectionsLoad, machine_sent_is_loaded_by_sections, sent_is_loaded_by_sections,
};
