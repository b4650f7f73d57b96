//! The calls of the library for C on a file with mapped-ram, without handles and pointers: `mig_c`
//! exports them.
//!
//! A load (`load`) is found in the first bytes of a file (`opening`). It takes the heads of the
//! blocks, and after them the bytes that follow the pages, and says where pages lie (`run`). C's
//! threads read the pages to their places by themselves. What was taken is the file's reading
//! (`laws`). A send (`send`) says which bytes are
//! written at which offsets of a file: its parts (`part`), and pages. Statuses are those of
//! `mig_c_calls`.
#![tactic(auto)]

mod laws;
mod load;
mod opening;
mod part;
mod run;
mod send;
mod taken;

pub use laws::{taken_file_is_read, taken_heads_are_the_files};
pub use load::MappedFile;
pub use opening::open_file;
pub use part::FilePart;
pub use run::FileRun;
pub use send::SentFile;
pub use taken::{Taken, status_of};
