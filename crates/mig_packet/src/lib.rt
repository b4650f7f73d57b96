//! The channels of multifd: the hello that each begins with, and the packets that carry the pages.
//!
//! The definitions are in `specs/`, apart from the code of both directions. Read them in this
//! order:
//!
//! - `Hello`, `Packet`: the layout of a hello and of a packet.
//! - `Waiting`: what a packet counts toward the limit on packets that wait.
//! - `Written`: the packet that is written for some fields.
//! - `Progress`, `Reading`: how any bytes of a channel are read, with every fault by name.
//! - `Reader`: what a reader represents.
//! - `ChannelItems`: the items of a channel that has ended.
//! - `Law`: the laws between them.
//!
//! `PacketHead`, `Paging` and `NextHead` are for a reader that gives pages before their packet is
//! complete, and for packets whose pages others read to their places.
//! Only contracts of private functions name `Taking`, `Later`, `Filling` and `PagingStep`.
//!
//! `hello`, `put_packet` and `PacketFields` write. `read_hello` and `read_packet` read at the
//! beginning of bytes. A `ChannelReader` reads a channel that is fed in pieces, and keeps its
//! rounds. A `PageReader` gives each page once its bytes have arrived, and keeps none.
//!
//! Other crates test whether the packets of a round fit together, apply their pages, and have the
//! threads that send and load.
#![tactic(auto)]

mod apart;
mod fault;
mod fields;
mod format;
mod front;
mod gate;
mod head;
mod laws;
mod packet;
mod page_reader;
mod progress;
mod put;
mod reader;
mod round;
mod state;
mod wanted;
mod written;

pub use fault::{ChannelFault, NoMemory};
pub use front::{HelloRead, PacketRead, read_hello, read_packet, read_packet_with};
pub use gate::{Gate, OpenGate, Step};
pub use head::PacketHead;
pub use laws::{
    no_packet_begins_another, readings_keep_limits, text_has_one_list_of_items,
    text_has_one_reading, text_is_valid_up_to_one_place, waiting_is_bounded,
    written_hellos_are_hellos, written_packets_are_packets,
};
pub use packet::{Packet, head_len, page_limit};
pub use page_reader::{ChannelEvent, PageContent, PageReader};
pub use put::{hello, put_packet, put_packet_head};
pub use reader::ChannelReader;
pub use round::PacketRound;
pub use state::ChannelState;
pub use wanted::Wanted;
pub use written::PacketFields;
