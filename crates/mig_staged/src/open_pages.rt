//! The pages of an open round, apart from the memory that they belong to.

ghost use Rattle.std.specs.Prelude.{◌≡◌, [], IfOk};
ghost use Rattle.mig_marking.specs.Fresh.{AreZeros};

use mig_mem::{Dirty, Memory, NoMemory, Table};
use std::alloc::{Allocator, Global};
use std::marker::Model;

/// The pages of an open round, and which these are. A `Staged` is made of a memory and this, and is
/// taken apart into them: so who is lent a memory for a call alone keeps the round until the next.
pub struct OpenPages<A: Allocator = Global> {
    apart: Memory<A>,
    named: Dirty<A>,
}

// Written out, so that a caller's proof passes a call where a value is dropped.
impl<A: Allocator> Drop for OpenPages<A> {
    fn drop(self) {
        let OpenPages { apart: _, named: _ } = self;
    }
}

impl<A: Allocator> Model for OpenPages<A> {
    ghost use Rattle.mig_marking.specs.Fresh.{AreZeros};
    ghost use Rattle.mig_staged.specs.Staged.{Opened};

    ghost Value = { Opened };

    ghost view = { λ r. record { apart = r.apart; named = r.named } };

    ghost invariant = { λ r. AreZeros r.apart r.named };
}

impl<A: Allocator + Copy> OpenPages<A> {
    /// Creates a round without pages, of memories of a table. It allocates room for all pages of
    /// the table, which isn't touched before a round needs it, and a bit for each page.
    ///
    /// # Errors
    ///
    /// `NoMemory`: an allocation was refused.
    pub fn none<B: Allocator>(alloc: A, table: &Table<B>) -> Result<OpenPages<A>, NoMemory>
        ensures table { IfOk result (λ r. r.apart.table ≡ table.now) }
        ensures none { IfOk result (λ r. r.named.marked ≡ []) }
    {
        let apart = Memory::zeroed(alloc, table)?;
        let named = Dirty::none(alloc, table)?;
        Ok(OpenPages { apart, named })
    }
}

impl<A: Allocator> OpenPages<A> {
    /// Takes the pages of a round, and which these are.
    pub(crate) fn of(apart: Memory<A>, named: Dirty<A>) -> OpenPages<A>
        requires { AreZeros apart named }
        ensures { (result.apart ≡ apart) × (result.named ≡ named) }
    {
        OpenPages { apart, named }
    }

    /// Returns the pages of the round, and which these are.
    pub(crate) fn into_pages(self) -> (Memory<A>, Dirty<A>)
        ensures pages { (result.0 ≡ self.apart) × (result.1 ≡ self.named) }
        ensures zeros { AreZeros result.0 result.1 }
    {
        let OpenPages { apart, named } = self;
        (apart, named)
    }
}
