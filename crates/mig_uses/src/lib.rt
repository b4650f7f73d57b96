//! Uses of the library, as a caller writes them: a module for each, with a contract and a test.
//! They are there to be read and copied.
//!
//! Read them in this order:
//!
//! - `first` sends a guest's memory and loads it again;
//! - `backup` and `live_guest` send a single stream, of a paused guest and of one that runs on;
//! - `incoming` loads such a stream while it is received, `in_place` a complete one into the blocks
//!   where the guest is to run;
//! - `migration` moves a guest on several channels, and `two_readers` loads a main stream and one
//!   channel from readers;
//! - `machine` loads a machine's stream, as QEMU writes it, and finds where RAM's part ends;
//! - `by_turns` loads from several connections into the blocks where the guest is to run, and
//!   `straight` does so without a copy of a page;
//! - `comparison` and `notice` follow a load: whether two memories are equal, and the error
//!   message.
#![tactic(auto)]

// The gate proves what is built without tests, and then again with all that is built with them. So
// a use is built with its tests only, unless the definitions in `specs/` name its types.
#[cfg(test)]
mod backup;
#[cfg(test)]
mod by_turns;
mod comparison;
#[cfg(test)]
mod first;
#[cfg(test)]
mod in_place;
mod incoming;
mod live_guest;
#[cfg(test)]
mod machine;
#[cfg(test)]
mod migration;
#[cfg(test)]
mod notice;
#[cfg(test)]
mod straight;
#[cfg(test)]
mod two_readers;

#[cfg(test)]
pub use backup::{back_up, every_page, restore};
#[cfg(test)]
pub use by_turns::receive;
pub use comparison::{Comparison, compare};
#[cfg(test)]
pub use first::copy;
#[cfg(test)]
pub use in_place::{load_counted, load_fresh, load_onto};
pub use incoming::{Incoming, take_piece};
pub use live_guest::LiveGuest;
#[cfg(test)]
pub use machine::{Trouble, feed_all, load_in_pieces, load_machine, main_closed_at};
#[cfg(test)]
pub use migration::{begin, deliver, finish, load_arrived, send_round};
#[cfg(test)]
pub use notice::{Notice, notice_of};
#[cfg(test)]
pub use straight::{Blocks, ReadTarget, receive_straight};
#[cfg(test)]
pub use two_readers::load_from;
