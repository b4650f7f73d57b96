//! A sender on several channels and its workers, as they are kept between two calls. Their calls
//! are in other modules: definitions name these types, and a struct with a ghost field may not name
//! those.

ghost use Rattle.std.specs.Prelude.{◌≡◌, ◌+◌, ◌≤◌, length};

use crate::waiting::Waiting;
use mig_mem::Table;
use mig_send::{ChannelWorker, MultiRound, MultiSender, Sent};
use std::alloc::Global;

/// A page of a block, as C names it.
#[repr(C)]
#[derive(Clone, Copy)]
pub struct NamedPlace {
    /// The block's number.
    pub block: usize,
    /// The page's number in it.
    pub page: u64,
}

/// The pages of one packet, as C reads them.
#[repr(C)]
#[derive(Clone, Copy)]
pub struct NamedBatch {
    /// The number of the block that all of them are of.
    pub block: usize,
    /// How many pages there are.
    pub count: usize,
    /// Their numbers in the block, ascending. The elements after the first `count` name no page.
    pub pages: [u64; 128],
}

/// A round whose workers are given out.
#[derive(Drop)]
pub struct DealtRound {
    /// The round.
    pub(crate) round: MultiRound<Global>,
    ghost few: { length round.spents + length round.seats ≤ length round.sender.channels },
    ghost of_table: { round.terms.table ≡ round.sender.main.table },
}

/// The bytes of ended streams that weren't drained, and how many of each channel were copied out
/// since.
pub struct EndedStreams {
    /// The bytes that weren't drained before the end.
    pub(crate) sent: Sent<Global>,
    /// How many bytes of each channel were copied out.
    pub(crate) given: Vec<usize>,
    /// Whether the main stream was left open after RAM's END.
    pub(crate) left_open: bool,
}

// Written out, so that a caller's proof passes a call where a value is dropped.
impl Drop for EndedStreams {
    fn drop(self) {
        let EndedStreams {
            sent: _,
            given: _,
            left_open: _,
        } = self;
    }
}

/// The state of a sender on several channels.
#[derive(Drop)]
pub enum MultiState {
    /// Between two rounds, or before the first.
    Idle(MultiSender<Global>),
    /// In a round.
    Round(DealtRound),
    /// After the end.
    Over(EndedStreams),
}

/// A sender on several channels, and the bytes that were drained of its main stream last.
pub struct Multi {
    /// The state of the sender.
    pub(crate) state: MultiState,
    /// The bytes that were drained of its main stream last.
    pub(crate) main: Waiting,
}

// Written out, so that a caller's proof passes a call where a value is dropped.
impl Drop for Multi {
    fn drop(self) {
        let Multi { state: _, main: _ } = self;
    }
}

/// A worker, and the bytes that were drained of its channel last. The table is kept next to it, for
/// the memory that a call makes of C's pages.
#[derive(Drop)]
pub struct HeldWorker {
    /// The worker.
    pub(crate) worker: ChannelWorker<Global>,
    /// The table whose pages it sends.
    pub(crate) table: Table<Global>,
    /// The bytes that were drained of its channel last.
    pub(crate) drained: Waiting,
    ghost same_table: { table ≡ worker.terms.table },
}
