//! `save` of the program `zimgasol`: makes a stream of raw memory files, a main stream with its
//! channels, or a file with mapped-ram. Pages are read as they are sent, so that no guest is kept.
//!
//! | Modules | What they do |
//! |---|---|
//! | `plan` | finds the blocks, their files, and those of `--since` |
//! | `state` | reads and checks the state that is written around RAM |
//! | `blocks`, `send`, `section` | write a single stream of the memory in files |
//! | `saving` | saves to a file or to the standard output |
//! | `packets`, `saving_channels` | write a main stream and its channels |
//! | `mapped`, `saving_mapped` | write a file with mapped-ram |
//!
//! Definitions: `Sent`, of the pages that are sent; `Written`, of their stream; `Blocks`, of blocks
//! that are read and sent one after another; `Channels`, of a main stream and channels (`specs/`).
#![tactic(auto)]

mod blocks;
mod mapped;
mod packets;
mod plan;
mod saving;
mod saving_channels;
mod saving_mapped;
mod section;
mod send;
mod state;

pub use blocks::{BlockFiles, save_blocks, save_kept};
pub use packets::save_packets;
pub use saving::save;
