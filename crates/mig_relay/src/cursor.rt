//! An offset in a channel's bytes, between two items, and how the next item is found. A feeder
//! keeps one.

ghost use Rattle.std.specs.Prelude.{◌≡◌, ◌≤◌, true, false, length};
ghost use Rattle.mig_packet.specs.PageSize.{IsPageSize};
ghost use Rattle.mig_relay.specs.declared.item.ChannelEnd.TheVariants as end;
ghost use Rattle.mig_relay.specs.declared.message.Message.TheVariants as message;
ghost use Rattle.mig_relay.specs.Cursor.{Finds};

use crate::item::ChannelEnd;
use crate::message::Message;
use mig_packet::{ChannelFault, HelloRead, PacketRead, read_hello, read_packet_with};
use uuid::Uuid;

// how many bytes a hello has
const HELLO_LEN: usize = 64;

/// An offset between two items of a channel that has ended, and the settings by which its bytes are
/// read.
#[derive(Clone, Copy)]
pub(crate) struct Cursor {
    pub(crate) page_size: u64,
    pub(crate) uuid: Uuid,
    pub(crate) channels: usize,
    // the limit on what waits in a round, and what the open one has left of it: None is no limit
    pub(crate) waiting: Option<u64>,
    pub(crate) room: Option<u64>,
    // how many bytes are before it
    pub(crate) at: usize,
    // whether the hello is before it
    pub(crate) greeted: bool,
    // whether packets are between the last SYNC packet and it
    pub(crate) unsynced: bool,
}

impl Cursor {
    /// Reads the next item. Returns it, and the cursor after it.
    pub(crate) fn read(self, text: &[u8]) -> (Message, Cursor)
        requires page_size { IsPageSize self.page_size }
        requires within { self.at ≤ length text.now }
        ensures { Finds self text.now result.0 result.1 }
    {
        if self.greeted {
            self.read_packet(text)
        } else {
            self.read_hello(text)
        }
    }

    fn read_hello(self, text: &[u8]) -> (Message, Cursor)
        requires before { self.greeted ≡ false }
        requires within { self.at ≤ length text.now }
        ensures { Finds self text.now result.0 result.1 }
    {
        match read_hello(&text[self.at..], &self.uuid, self.channels) {
            HelloRead::Whole(id) => {
                let behind = Cursor {
                    at: self.at + HELLO_LEN,
                    greeted: true,
                    ..self
                };
                (Message::Hello(id), behind)
            }
            HelloRead::Cut => (stop(ChannelFault::Truncated), self),
            HelloRead::Bad(fault) => (stop(fault), self),
        }
    }

    fn read_packet(self, text: &[u8]) -> (Message, Cursor)
        requires page_size { IsPageSize self.page_size }
        requires behind { self.greeted ≡ true }
        requires within { self.at ≤ length text.now }
        ensures { Finds self text.now result.0 result.1 }
    {
        match read_packet_with(self.page_size, self.room, &text[self.at..]) {
            PacketRead::Whole(packet, len) => {
                let behind = Cursor {
                    at: self.at + len,
                    unsynced: !packet.sync(),
                    room: packet.next_room(self.waiting, self.room),
                    ..self
                };
                (Message::Page(self.at, len), behind)
            }
            PacketRead::Bad(fault) => (stop(fault), self),
            PacketRead::Cut if self.at < text.len() => (stop(ChannelFault::Truncated), self),
            PacketRead::Cut if self.unsynced => (stop(ChannelFault::Unsynced), self),
            PacketRead::Cut => (Message::Stop(ChannelEnd::Clean), self),
        }
    }
}

// Returns the end of a channel with `fault`.
fn stop(fault: ChannelFault) -> Message
    ensures { result ≡ message.Stop (end.Bad fault) }
{
    Message::Stop(ChannelEnd::Bad(fault))
}
