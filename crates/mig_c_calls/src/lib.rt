//! The calls of the library for C, without handles and pointers, but for those of loads: `mig_c`
//! exports them.
//!
//! A call of C returns a number (`status`), which has a message (`text`). A load's fault has a text
//! for logs (`fault_text`). `GuestSend` is a send of either kind (`send`), created from settings of
//! C (`asked_send`): of one stream by a `Sender` (`sender`), or on several channels by a `Multi`,
//! with a `HeldWorker` for each channel of a round (`sending`). They are kept between calls, and
//! copy written bytes into buffers of C (`waiting`). Hellos and packets are written by themselves
//! (`packet`). A table is created from blocks as C passes them (`block`).
#![tactic(auto)]

mod asked_send;
mod block;
mod copied;
mod fault_text;
mod multi;
mod packet;
mod send;
mod sender;
mod sending;
pub mod status;
mod text;
mod waiting;
mod worker;

pub use asked_send::AskedSend;
pub use block::{NamedBlock, entries};
pub use fault_text::{LoggedFault, log_fault};
pub use packet::{write_hello, write_packet};
pub use send::GuestSend;
pub use sender::{Sender, Sending};
pub use sending::{
    DealtRound, EndedStreams, HeldWorker, Multi, MultiState, NamedBatch, NamedPlace,
};
pub use text::{StatusText, VERSION, text_of};
pub use waiting::{Waiting, copy_front, undrained};
