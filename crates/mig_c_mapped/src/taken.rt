//! What became of bytes that a load of a file was passed, and its status.

ghost use Rattle.std.specs.Prelude.{◌≡◌, ◌↔◌, IsTrue};
ghost use Rattle.mig_stream.specs.declared.item.StreamState.TheVariants.{Reading as reading};
ghost use Rattle.mig_c_mapped.specs.Loads.{status_of, state_status};

use mig_c_calls::status::{DONE, NO_MEMORY, RUNNING, STREAM_TRUNCATED, TOO_LONG};
use mig_mapped::MappedFault;
use mig_stream::StreamState;

/// What became of bytes of a file.
#[derive(Clone, Copy, Debug, PartialEq, Eq)]
pub enum Taken {
    /// Nothing: no more is read, since the stream is in this state.
    Over(StreamState),
    /// Nothing: there are none.
    Nothing,
    /// Nothing: the file would have more bytes than can be counted.
    TooLong,
    /// An allocation was refused.
    NoMemory,
    /// Nothing: the next block's head has this fault.
    Fault(MappedFault),
    /// The next block's head was taken.
    Head,
    /// The bytes after the pages were taken, and the stream is in this state then.
    Tail(StreamState),
}

/// Returns whether a stream goes on.
pub(crate) fn is_reading(state: StreamState) -> bool
    ensures { IsTrue result ↔ state ≡ reading }
{
    matches!(state, StreamState::Reading)
}

// Returns the status of a stream in this state.
fn state_status(state: StreamState) -> u32
    ensures { result ≡ state_status state }
{
    match state {
        StreamState::Reading => RUNNING,
        StreamState::Closed => DONE,
        StreamState::Bad(fault) => u32::from(fault.number()),
    }
}

/// Returns the status of bytes that a load of a file was passed.
pub fn status_of(taken: Taken) -> u32
    ensures { result ≡ status_of taken }
{
    match taken {
        Taken::Over(state) => state_status(state),
        Taken::Nothing => STREAM_TRUNCATED,
        Taken::TooLong => TOO_LONG,
        Taken::NoMemory => NO_MEMORY,
        Taken::Fault(fault) => u32::from(fault.number()),
        Taken::Head => RUNNING,
        Taken::Tail(state) => state_status(state),
    }
}
