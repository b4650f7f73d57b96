//! The calls of loads of the library for C, without handles and pointers: `mig_c` exports them.
//!
//! They work on loads into blocks of C (`load`): of one stream, with each page as it comes
//! (`held_load`, and by its source `one_stream`) or by whole sections (`held_sections`), and of
//! several channels, with each page as it comes (`held_apart`) or by whole rounds (`held_rounds`).
//! The blocks are lent to a call (`lent`), which writes pages into their bytes (`putting`). Of
//! several channels C may read the pages to their places itself: it sees which it claimed
//! (`claimed_pages`), and which of them may hold something else than zeros (`filling`). C passes
//! the numbers of a source, of a frame and of what ends rounds, and settings (`source`, `frame`,
//! `round_end`, `settings`). It sees a load's fault (`fault`, and of several channels `seen`), how
//! it stands (`standing`), and what the next bytes are (`next_bytes`), and reads the blocks of a
//! table, which may be that of a stream's first bytes (`first_table`). Statuses are those of
//! `mig_c_calls`. What C's sends sent, these loads load (`laws`).
#![tactic(auto)]

mod claimed_pages;
mod fault;
mod filling;
mod first_table;
mod frame;
mod held_apart;
mod held_load;
mod held_rounds;
mod held_sections;
mod laws;
mod lent;
mod load;
mod next_bytes;
mod one_stream;
mod putting;
mod round_end;
mod seen;
mod settings;
mod source;
mod standing;

pub use claimed_pages::ClaimedPages;
pub use fault::FoundFault;
pub use first_table::{find_table, read_table_block, table_status};
pub use frame::frame_of;
pub use held_apart::HeldApart;
pub use held_load::HeldLoad;
pub use held_rounds::HeldRounds;
pub use held_sections::HeldSections;
pub use laws::{
    drained_channels_are_loaded, drained_channels_are_loaded_by_rounds, drained_is_loaded,
    drained_is_loaded_by_sections, drained_machine_is_loaded, drained_machine_stream_is_loaded,
    drained_machine_stream_is_loaded_by_sections, pages_read_are_noted,
};
pub use load::Load;
pub use next_bytes::NextBytes;
pub use round_end::round_end_of;
pub use settings::{AskedSettings, waiting_of};
pub use source::source_of;
pub use standing::{Fed, SourceBytes, Standing};
