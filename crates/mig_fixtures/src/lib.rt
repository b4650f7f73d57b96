//! For tests: the tables, memories, sets of pages and streams that tests of several crates build,
//! one packet, what they ask of a memory, and an allocator, [`TestHeap`], that refuses one
//! allocation and counts the bytes that are held.
//!
//! It is no part of the product, and proves nothing of it: no function here has a contract. Each
//! that builds something returns None if that can't be had.
#![tactic(auto)]

mod guest;
mod heap;
mod packet;
mod streams;

pub use guest::{at, has_byte, is_full, list, places_of, set, table, table_of, zeroed};
pub use heap::TestHeap;
pub use packet::put_page_and_zeros;
pub use streams::{Part, channel_of, main_of, put_all};
