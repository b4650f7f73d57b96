//! The packets of one round, gathered from the channels in any order by `mig_relay` and
//! `mig_session`, for `Target::round`.

ghost use Rattle.std.specs.Prelude.{◌≡◌, ◌++◌, [], ◌∷◌, length, OnOk, OnErr};

use mig_mem::NoMemory;
use mig_packet::Packet;
use std::alloc::{Allocator, Global};
use std::fmt;
use std::marker::Model;

/// The packets of one round, from any channels, in the order in which they were pushed. It borrows
/// them.
pub struct Gathered<'a, A: Allocator = Global> {
    packets: Vec<Packet<'a>, A>,
}

// Written out, so that a caller's proof passes a call where a value is dropped.
impl<'a, A: Allocator> Drop for Gathered<'a, A> {
    fn drop(self) {
        let Gathered { packets: _ } = self;
    }
}

impl<'a, A: Allocator> Model for Gathered<'a, A> {
    ghost use Rattle.std.specs.Prelude.{List};
    ghost use Rattle.mig_packet.specs.declared.packet.Packet.{Packet};

    ghost Value = { List Packet };

    ghost view = { λ g. g.packets.items };
}

impl<'a, A: Allocator> fmt::Debug for Gathered<'a, A> {
    fn fmt<W: fmt::Write>(&self, f: &mut fmt::Formatter<W>) -> fmt::Result {
        f.pad("Gathered { .. }")
    }
}

impl<'a, A: Allocator> Gathered<'a, A> {
    /// Creates a list without packets.
    pub fn new(alloc: A) -> Gathered<'a, A>
        ensures { result ≡ [] }
    {
        Gathered {
            packets: Vec::new(alloc),
        }
    }

    /// Adds a packet.
    ///
    /// # Errors
    ///
    /// `NoMemory`: an allocation was refused. Nothing changes.
    pub fn push(&mut self, packet: Packet<'a>) -> Result<(), NoMemory>
        ensures ok { OnOk result (self.new ≡ self.old ++ packet.entry ∷ []) }
        ensures err { OnErr result (self.new ≡ self.old) }
    {
        self.packets.push(packet)?;
        Ok(())
    }

    /// Returns the number of packets. It may be 0.
    #[allow(clippy::len_without_is_empty)]
    pub fn len(&self) -> usize
        ensures { result ≡ length self.now }
    {
        self.packets.len()
    }

    pub(crate) fn packets(&self) -> &[Packet<'a>]
        ensures { result.now ≡ self.now }
    {
        self.packets.as_slice()
    }
}
