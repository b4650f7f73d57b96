//! Fills files with the memory of a guest, for `zimgasol extract`: each page is written to its
//! place in the file of its block, as it is taken from a stream.
//!
//! `PlacedFiles` are the files, which may fail; `BlockFiles` are those of the system. `Filling`
//! writes pages into them, those that follow each other at once, and zeros only where a file may
//! have something else. Definitions: `Filled`, of files that have a memory (`specs/`).
#![tactic(auto)]

mod block_files;
mod filling;
mod placed;
mod run;

pub use block_files::BlockFiles;
pub use filling::Filling;
pub use placed::PlacedFiles;
pub use run::Run;
