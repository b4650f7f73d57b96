//! The items of a channel, one after another. Feeders push them, and the collector gives them.

use mig_packet::{ChannelFault, Packet};

/// The state of a channel that has ended.
#[derive(Clone, Copy, Debug, PartialEq, Eq)]
pub enum ChannelEnd {
    /// It ended after its hello and complete rounds.
    Clean,
    /// It has this fault.
    Bad(ChannelFault),
}

/// An item of a channel. A packet borrows the channel's bytes.
#[derive(Clone, Copy, Debug)]
pub enum Item<'a> {
    /// The hello, with its channel id.
    Hello(u8),
    /// A packet.
    Page(Packet<'a>),
    /// The end of the channel, which is the last item.
    Stop(ChannelEnd),
}
