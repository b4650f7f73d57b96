//! The status of a source, the main stream or a channel, at a round. Relays and sessions find it,
//! and the module `verdicts` turns the statuses into a verdict.

ghost use Rattle.std.specs.Prelude.{◌≡◌};
ghost use Rattle.mig_answer.specs.Status.{stream_end, channel_end};

use mig_load_types::Fault;
use mig_packet::ChannelState;
use mig_stream::StreamState;

/// The status of a source at a round, after the rounds before.
#[derive(Clone, Copy, Debug)]
pub enum Status {
    /// It has the complete round.
    Whole,
    /// It is closed: the main stream by its end byte, a channel by its end.
    Clean,
    /// It has this fault.
    Bad(Fault),
    /// More of its bytes are needed.
    Pending,
}

/// Returns the status of a main stream after its complete rounds.
pub fn stream_end(state: StreamState) -> Status
    ensures { result ≡ stream_end state }
{
    match state {
        StreamState::Reading => Status::Pending,
        StreamState::Closed => Status::Clean,
        StreamState::Bad(fault) => Status::Bad(Fault::Stream(fault)),
    }
}

/// Returns the status of a channel after its complete rounds.
pub fn channel_end(state: ChannelState) -> Status
    ensures { result ≡ channel_end state }
{
    match state {
        ChannelState::Reading => Status::Pending,
        ChannelState::Closed => Status::Clean,
        ChannelState::Bad(fault) => Status::Bad(Fault::Channel(fault)),
    }
}
