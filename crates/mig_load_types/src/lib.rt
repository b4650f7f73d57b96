//! The types of every load, of a single stream and of several channels: the settings that a caller
//! passes (`LoadSettings`), the answer (`Loaded`), and why a load failed and where (`LoadFault`).
//!
//! Definitions, in reading order: `Settings`, `LoadFaultNumber` (`specs/`).
#![tactic(auto)]

mod fault;
mod loaded;
mod settings;

pub use fault::{Fault, FeedFault, InPlaceFault, LoadFault, Origin};
pub use loaded::Loaded;
pub use settings::{LoadSettings, RoundEnd};
