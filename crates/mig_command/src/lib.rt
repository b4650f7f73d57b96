//! The command line of the tool: its arguments, its commands, and what they print.
//!
//! `run` is the tool as a function of its arguments, its input, files and its output; the program
//! `mig_tool` passes it its own. Scenarios and the guest that executes them are in `mig_scenario`;
//! the formats are in the libraries below it. This crate has the arguments (`specs/Words`), the
//! answers and how they are printed (`specs/Report`, `Answer`), and the reading of an input
//! (`specs/Inputs`). Each command has a module: `check`, `sending`, `loading`, `comparing`.
#![tactic(auto)]

mod answer;
mod check;
mod comparing;
mod comparison;
mod fault;
mod files;
mod input;
mod loading;
mod print;
mod request;
mod running;
mod sending;
mod words;

pub use answer::{Answer, ChannelsChecked, Checked, Comparison};
pub use fault::ToolFault;
pub use running::{end_with, run};
