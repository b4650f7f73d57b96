//! RAM in the layout of QEMU's `mapped-ram`: a file in which each page of the guest has a place of
//! its own, so that saving it twice takes no more room, and that several threads may read.
//!
//! In the size list of RAM's START each entry is followed by a header, a bitmap with a bit for each
//! page of the block, and the block's pages. A page whose bit isn't set is zeros, whatever bytes
//! lie at its place.
//!
//! The definitions are in `specs/`, apart from the code:
//!
//! - `Bitmap`, `Block`: what a bitmap says, and which memory blocks stand for.
//! - `Head`, `Reading`: how any bytes are read, head by head, with every fault by name.
//! - `Write`: where a writer puts the parts of each block, and what a file with them stands for.
//!
//! `MappedIndex` reads the heads of a file, keeps the bitmaps, and says where pages lie.
//! `MappedWriter` says what a caller writes at which offsets of a file, as QEMU lays it out. Both
//! begin with the first entry of the size list. What comes before it and after the last block's
//! pages is a stream, which `mig_stream` reads.
#![tactic(auto)]

mod bitmap;
mod fault;
mod fields;
mod front;
mod head;
mod index;
mod laws;
mod load;
mod settings;
mod write;

pub use fault::{MappedFault, MappedLoadFault, MappedStop};
pub use front::{MappedFront, end_bytes, front_bytes, front_in, plain_front, with_mapped_ram};
pub use index::{MappedIndex, MappedRun};
pub use laws::{faultless_file_is_a_memory, file_has_one_reading, loaded_is_the_memory};
pub use load::{MappedLoad, MappedWanted};
pub use settings::{MappedSettings, WordOrder};
pub use write::MappedWriter;
