//! Bytes copied into memory of their own, for the ids of a size list (`entries`).

ghost use Rattle.std.specs.Prelude.{◌≡◌, IfOk};

use mig_mem::NoMemory;
use std::alloc::Allocator;
use std::marker::Model;

/// Bytes that a contract sees as a list.
#[derive(Drop)]
pub(crate) struct Bytes<A: Allocator> {
    items: Vec<u8, A>,
}

impl<A: Allocator> Model for Bytes<A> {
    ghost use Rattle.std.specs.Prelude.{ℕ, List};

    ghost Value = { List ℕ };

    ghost view = { λ b. b.items.items };
}

impl<A: Allocator> Bytes<A> {
    /// Copies `bytes`.
    pub(crate) fn copied(alloc: A, bytes: &[u8]) -> Result<Bytes<A>, NoMemory>
        ensures { IfOk result (λ b. b ≡ bytes.now) }
    {
        Ok(Bytes {
            items: Vec::from_slice(alloc, bytes)?,
        })
    }

    pub(crate) fn as_slice(&self) -> &[u8]
        ensures { result.now ≡ self.now }
    {
        self.items.as_slice()
    }
}
