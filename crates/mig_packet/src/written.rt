//! A packet by its fields, as one record with names: for callers that write one, in place of
//! `put_packet`'s list of arguments.

ghost use Rattle.std.specs.Prelude.{◌≡◌, ◌+◌, ◌*◌, ◌<◌, ◌≤◌, ◌++◌, length, OnOk, OnErr, vec_len, vec_capacity};
ghost use Rattle.mig_packet.specs.PageSize.{IsPageSize, page_limit, head_len};
ghost use Rattle.mig_packet.specs.Written.{written_packet};

use crate::NoMemory;
use crate::put::put_packet;
use std::alloc::Allocator;
use std::fmt;

/// The fields of a packet, by which one is written.
#[derive(Clone, Copy)]
pub struct PacketFields<'a> {
    pub number: u64,
    /// Whether it ends its channel's round: `MULTIFD_FLAG_SYNC`.
    pub sync: bool,
    /// The id of the block of its pages. A byte 0 in it would cut it short for a reader of the
    /// packet.
    pub id: &'a [u8],
    /// The offsets of its normal pages, in bytes.
    pub normal: &'a [u64],
    /// The contents of those pages, one after another.
    pub contents: &'a [u8],
    /// The offsets of its pages of zeros.
    pub zero: &'a [u64],
}

// Guest memory isn't printed.
impl fmt::Debug for PacketFields<'_> {
    fn fmt<W: fmt::Write>(&self, f: &mut fmt::Formatter<W>) -> fmt::Result {
        f.pad("PacketFields { .. }")
    }
}

impl PacketFields<'_> {
    /// Appends the packet of these fields, with pages of `page_size` bytes, as `put_packet` does.
    ///
    /// # Errors
    ///
    /// `NoMemory`: `out` has too little room, and its growth was refused. It keeps its bytes.
    pub fn append<A: Allocator>(&self, page_size: u64, out: &mut Vec<u8, A>) -> Result<(), NoMemory>
        requires page_size { IsPageSize page_size }
        requires few { length self.now.normal.now + length self.now.zero.now ≤ page_limit page_size }
        requires contents { length self.now.contents.now ≡ length self.now.normal.now * page_size }
        requires id { length self.now.id.now ≤ 255 }
        ensures ok { OnOk result (out.new.items ≡ out.old.items
            ++ written_packet page_size self.now.number self.now.sync self.now.id.now self.now.normal.now self.now.contents.now self.now.zero.now) }
        ensures err { OnErr result (out.new.items ≡ out.old.items) }
        ensures full { OnErr result (vec_capacity out.old < vec_len out.old + (head_len page_size + length self.now.contents.now)) }
        ensures capacity { vec_capacity out.old ≤ vec_capacity out.new }
    {
        put_packet(
            page_size,
            out,
            self.number,
            self.sync,
            self.id,
            self.normal,
            self.contents,
            self.zero,
        )
    }
}
