//! The file of a guest's memory: the bytes of all blocks, in the table's order, and nothing else.
//!
//! `writing` writes it into any writer. `file` writes it into a file, and skips pages of zeros in a
//! regular one, where a hole reads as zeros. `reading` makes a memory from a file's bytes. `laws`
//! says that what is written is read back.
#![tactic(auto)]

mod file;
mod laws;
mod reading;
mod writing;

pub use file::write_image;
pub use laws::{file_is_written_back, image_is_read_back};
pub use reading::memory_of;
pub use writing::{BUFFER_ROOM, put_image};
