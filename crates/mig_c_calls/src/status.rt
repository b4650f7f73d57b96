//! The statuses that calls return in addition to the numbers of faults.

/// The call did what it says.
pub const DONE: u32 = 0;

/// An allocation was refused.
pub const NO_MEMORY: u32 = 60;

/// A send on more than 255 channels.
pub const CHANNELS: u32 = 61;

/// A batch limit of 0, or above the pages of a packet.
pub const BATCH_LIMIT: u32 = 62;

/// The load continues: more bytes are needed.
pub const RUNNING: u32 = 100;

/// The number of the fault of a stream that ends before its end byte.
pub const STREAM_TRUNCATED: u32 = 34;

/// A page size other than 4096 and 8192.
pub const BAD_PAGE_SIZE: u32 = 101;

/// A load of more than 255 channels.
pub const BAD_CHANNELS: u32 = 103;

/// No such source.
pub const BAD_SOURCE: u32 = 104;

/// The source was ended before.
pub const IS_OVER: u32 = 105;

/// The source would have more bytes than can be counted.
pub const TOO_LONG: u32 = 106;

/// No page there.
pub const NO_PAGE: u32 = 107;

/// A buffer of another length than is needed.
pub const BAD_LENGTH: u32 = 108;

/// A call out of turn: a round is open, or none is, or the stream is ended, or the call is for a
/// send of the other kind.
pub const OUT_OF_TURN: u32 = 109;

/// More pages than a packet has.
pub const TOO_MANY_PAGES: u32 = 110;

/// A number that is no frame.
pub const BAD_FRAME: u32 = 113;

/// A number that ends no rounds.
pub const BAD_ROUND_END: u32 = 114;

/// A page is claimed for a packet that wasn't taken yet.
pub const IS_CLAIMED: u32 = 115;

/// Bytes that are to be fed: they aren't the head of a packet that is taken apart.
pub const TO_FEED: u32 = 116;

/// The most bytes that a guest's blocks may have together.
pub const MAX_LIMIT: u64 = 1 << 40;

/// The least length of a stream that can't be counted.
pub const ROOM: u64 = 1 << 63;

/// The most bytes that a machine's name has.
pub const MOST_NAME_BYTES: usize = 1024;
