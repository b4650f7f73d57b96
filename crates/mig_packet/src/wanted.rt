//! The next bytes of a channel, so that a caller reads the content of a page straight to its
//! destination, and copies nothing. QEMU's threads for channels read that way.

ghost use Rattle.std.specs.Prelude.{◌≡◌, IsFalse};
ghost use Rattle.std.specs.Option.{IsSomeAnd};
ghost use Rattle.mig_packet.specs.declared.state.ChannelState.TheVariants as state;
ghost use Rattle.mig_packet.specs.Progress.{judged_len};
ghost use Rattle.mig_packet.specs.Wanted.{IsWanted};

use crate::format::HELLO_LEN;
use crate::packet::{head_len, normal_count_of, offset_of};
use crate::page_reader::PageReader;
use std::alloc::Allocator;

/// The next bytes of a channel.
#[derive(Clone, Copy, Debug, PartialEq, Eq)]
pub enum Wanted {
    /// The content of the page at this offset in the block of the packet's head, in bytes, from its
    /// first byte on. The second number is the number of normal pages of the packet from this one
    /// on. Their contents follow one another.
    Page(u64, usize),
    /// This many bytes, at least 1, complete a hello, a head or a page.
    Bytes(usize),
    /// No more bytes, before the next call of `PageReader::read_on`: a packet is complete, the
    /// channel was ended, or its bytes have a fault.
    Nothing,
}

impl<A: Allocator> PageReader<A> {
    /// Returns what the next bytes of the channel are. A caller that has `Bytes` reads no more than
    /// those. A caller that has a `Page` reads its content to its destination; `read_on` of the
    /// content there then lends it, and copies nothing.
    pub fn wanted(&self) -> Wanted
        ensures { IsWanted result self.now }
    {
        if self.ended || !self.is_reading() {
            return Wanted::Nothing;
        }
        match self.pages {
            None => Wanted::Bytes(self.judged_len() - self.head.len()),
            Some(given) => self.wanted_of_packet(given),
        }
    }

    // Returns with how many bytes the next hello or head is tested.
    fn judged_len(&self) -> usize
        ensures { result ≡ judged_len self.now.given.page_size self.now.hello }
    {
        match self.hello {
            None => HELLO_LEN,
            Some(_) => head_len(self.page_size),
        }
    }

    // Returns what the next bytes are in a packet that was begun, of which `given` pages were
    // given.
    fn wanted_of_packet(&self, given: usize) -> Wanted
        requires begun { IsSomeAnd self.now.packet (λ packet. packet.1 ≡ given) }
        requires reading { (self.now.found ≡ state.Reading) × IsFalse self.now.ended }
        ensures { IsWanted result self.now }
    {
        let count = normal_count_of(&self.head);
        if given == count {
            return Wanted::Nothing;
        }
        if self.has_page || self.page.is_empty() {
            return Wanted::Page(offset_of(&self.head, given), count - given);
        }
        Wanted::Bytes(self.page_size as usize - self.page.len())
    }
}
