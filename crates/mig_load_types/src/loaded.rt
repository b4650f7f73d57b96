//! The result of `load_single`, `SingleLoader::finish`, `load_multi` and `load_relayed`.

use crate::LoadFault;
use mig_mem::Memory;
use std::alloc::{Allocator, Global};
use std::fmt::{self, Debug, Formatter};

/// The answer of a load. Whatever the verdict, the memory is that after the rounds counted.
#[derive(Drop)]
pub struct Loaded<A: Allocator = Global> {
    /// The guest's memory after the rounds counted. None if the size list isn't complete, or if the
    /// memory couldn't be allocated.
    pub memory: Option<Memory<A>>,
    /// How many rounds were applied. In a single stream each section is one, START and END too.
    pub rounds: u64,
    /// Ok if all sources were read to their end, else the first fault.
    pub verdict: Result<(), LoadFault>,
    /// How many pages of the guest no record and no packet of the rounds counted named: these are
    /// zeros, as the memory was at first. None without a memory.
    ///
    /// A stream can be complete and lack pages: the main stream of a multifd migration without its
    /// channels, or a stream of changes alone. The verdict is Ok then. A whole guest lacks none.
    pub missing: Option<u64>,
    /// How many bytes the single stream, or the main stream, has: those up to its end byte, or in a
    /// machine's stream up to the footer of RAM's END, or up to the first device's section of a
    /// background snapshot. The bytes after them are left to the caller. None if the stream isn't
    /// closed, or if an allocation was refused.
    pub closed_at: Option<u64>,
    /// How many bytes of the single stream, or of the main stream, are complete items without a
    /// fault, from the first byte on. If the verdict is a fault of the stream, the item at fault
    /// begins after them. None if an allocation was refused.
    pub valid_up_to: Option<u64>,
}

/// Prints an opaque value: it holds guest memory.
impl<A: Allocator> Debug for Loaded<A> {
    fn fmt<W: fmt::Write>(&self, f: &mut Formatter<W>) -> fmt::Result {
        f.write_str("Loaded { .. }")
    }
}
