//! Scenarios: lines that describe a guest's blocks, what it writes, and when a round is sent.
//!
//! `judge` returns the table and the lines of a scenario, or the first fault that applies
//! (`specs/Line`, `Scenario`). `play` executes the lines on a guest whose memory is zeros
//! (`specs/Guest`), and sends its rounds by `Senders`: on a single stream, on several channels, on
//! both or on none, as a `Layout` says. Loading a scenario's rounds gives its guest's memory
//! (`scenarios_make_their_image`).
#![tactic(auto)]

mod fault;
mod guest;
mod judging;
mod laws;
mod layout;
mod line;
mod senders;

pub use fault::ScenarioFault;
pub use guest::{Played, play};
pub use judging::{Scenario, judge};
pub use laws::scenarios_make_their_image;
pub use layout::{Layout, PageSize};
pub use line::{Line, Step};
pub use senders::{Senders, Texts};
