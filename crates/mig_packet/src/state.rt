//! The state of a channel: reading, closed or bad. `ChannelReader::state` returns it.

use crate::ChannelFault;

/// The state of a channel.
#[derive(Clone, Copy, Debug, PartialEq, Eq)]
pub enum ChannelState {
    /// More bytes are needed, or the call that ends the channel.
    Reading,
    /// The channel ended after a hello and complete rounds.
    Closed,
    /// The channel has a fault.
    Bad(ChannelFault),
}
