//! The program `zimgasol` as a function: it verifies a guest that was saved in a file, lists the
//! file's contents, extracts the memory, compares two guests' memory, and saves memory as a stream.
//!
//! `run` is passed the words, the standard streams and files. Five crates below do the parts:
//! `zimgasol_files` reads words and opens files, `zimgasol_mapped` makes plain streams of files with
//! mapped-ram, `zimgasol_reading` reads saved guests, `zimgasol_output` prints what was read, and
//! `zimgasol_saving` makes streams.
//!
//! | Modules | What they do |
//! |---|---|
//! | `running` | does what the words ask for, and returns the status |
//! | `opening` | opens the file that is read, with mapped-ram or without |
//! | `screen` | fits help to the width of a terminal |
//! | `troubles` | the status and the message of what ends a command |
//! | `verifying` | verifies one file after another |
//! | `extracting` | writes each block into a file |
//! | `state_files` | writes the state beside RAM |
//! | `leftovers` | names the files that a killed run left |
//! | `comparing`, `differing` | list the pages that differ |
#![tactic(auto)]

mod comparing;
mod differing;
mod extracting;
mod leftovers;
mod opening;
mod running;
mod screen;
mod state_files;
mod troubles;
mod verifying;

pub use running::run;
pub use screen::Screen;
pub use troubles::{FAILED, WORDS};
pub use verifying::verify_input;
