//! Guest memory: the table of RAM blocks, the content of each page, and sets of pages.
//!
//! This is the lowest layer. It knows no format: the crates above say what a stream or a packet
//! holds, by the definitions in `specs/` here. Contracts see a `Table` as a `RamTable`, a `Memory`
//! as an `Image` and a `Dirty` as a `PlaceSet`, and never how they are kept.
#![tactic(auto)]

mod bitmaps;
mod comparing;
mod difference;
mod dirty;
mod fault;
mod guest;
mod laws;
mod lent;
mod lent_mut;
mod marks;
mod memory;
mod page_size;
mod pages;
mod parts;
mod place;
mod putting;
mod refusal;
mod region_puts;
mod regions;
mod skipping;
mod slots;
mod table;

pub use comparing::differences;
pub use difference::first_difference;
pub use dirty::Dirty;
pub use fault::{NoMemory, TableFault};
pub use guest::{GuestPages, GuestTarget, ThreadedTarget};
pub use laws::{
    all_pages_make_memory, equal_tables_are_the_same, images_make_rounds, lent_pages_are_parts,
    one_page_more, one_round_more, rounds_begin_with_zeros, rounds_go_onto, rounds_make_memory,
    table_is_lawful, tracking_gives_last_image,
};
pub use lent::LentMemory;
pub use lent_mut::LentMemoryMut;
pub use memory::Memory;
pub use page_size::{PAGE_SIZE_4K, PAGE_SIZE_8K, is_page_size};
pub use place::Place;
pub use putting::RoundPage;
pub use refusal::is_id;
pub use table::{MAX_BLOCKS, MAX_ID_LEN, MAX_TOTAL, Table};
