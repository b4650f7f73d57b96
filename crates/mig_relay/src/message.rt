//! An item as it passes through a channel's queue: numbers alone, which say where in the channel's
//! bytes it is. A cursor creates them, and the popping end turns them into items.

ghost use Rattle.std.specs.Prelude.{◌≡◌};
ghost use Rattle.mig_packet.specs.PageSize.{IsPageSize};
ghost use Rattle.mig_relay.specs.RelayItems.{as_channel_item, IsOfPageSize};
ghost use Rattle.mig_relay.specs.Messages.{IsMessageIn, is_last, item_in};

use crate::item::{ChannelEnd, Item};
use mig_packet::{PacketRead, read_packet};

/// Where an item is in its channel's bytes.
#[derive(Clone, Copy)]
pub enum Message {
    /// The hello, with its channel id.
    Hello(u8),
    /// A packet: where its first byte is, and how many bytes it has.
    Page(usize, usize),
    /// The end of the channel.
    Stop(ChannelEnd),
}

impl Message {
    /// Returns whether it is the last message of its channel.
    pub(crate) fn is_stop(&self) -> bool
        ensures { result ≡ is_last self.now }
    {
        matches!(self, Message::Stop(_))
    }
}

/// Returns the item at that place.
pub(crate) fn item_of<'a>(page_size: u64, text: &'a [u8], message: Message) -> Item<'a>
    requires page_size { IsPageSize page_size }
    requires lies { IsMessageIn page_size text.now message }
    ensures piece { as_channel_item result ≡ item_in page_size text.now message }
    ensures page_size { IsOfPageSize page_size result }
{
    match message {
        Message::Hello(id) => Item::Hello(id),
        Message::Stop(end) => Item::Stop(end),
        Message::Page(at, len) => match read_packet(page_size, &text[at..at + len]) {
            PacketRead::Whole(packet, _) => Item::Page(packet),
            PacketRead::Cut | PacketRead::Bad(_) => unreachable!(),
        },
    }
}
