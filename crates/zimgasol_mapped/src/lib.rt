//! Gives a file in the layout of QEMU's `mapped-ram` as the plain stream of the same memory, so that
//! the program `zimgasol` reads both alike.
//!
//! The file is read at any place, so it can't be a pipe. When it is opened its front and the heads
//! of all blocks are read: a fault of them is reported before a byte is given. Then the records are
//! made piece by piece, from the bitmaps and the pages. A hole of the file is never read, and the
//! guest is never held.
//!
//! | Modules | What they do |
//! |---|---|
//! | `placed` | reads a file at any place |
//! | `sparse` | finds the stream in a file that libvirt saved sparse |
//! | `heads` | reads the heads of all blocks |
//! | `records` | makes the entries of the size list, and page records |
//! | `course` | makes the bytes of the plain stream, one piece after another |
//! | `plain` | gives the bytes of the plain stream |
//! | `opening` | tells a file with mapped-ram from others |
//! | `laws` | says what loading the plain stream gives |
#![tactic(auto)]

mod course;
mod heads;
mod laws;
mod opening;
mod placed;
mod plain;
mod records;
mod sparse;

pub use laws::plain_stream_loads_the_memory;
pub use opening::{Input, open_input};
pub use placed::{Placed, PlacedFile};
pub use plain::Plain;
