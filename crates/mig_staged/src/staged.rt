//! Guest memory into which a load writes round by round.

ghost use Rattle.std.specs.Prelude.{◌≡◌, [], Some, IfOk, IfErr};
ghost use Rattle.mig_mem.specs.Place.{IsPlace};
ghost use Rattle.mig_mem.specs.Image.{content_at, with_page, zero_image};
ghost use Rattle.mig_mem.specs.Round.{round_of, with_round};
ghost use Rattle.mig_marking.specs.Fresh.{AreZeros};
ghost use Rattle.mig_staged.specs.Staged.{staged};

use crate::open_pages::OpenPages;
use mig_mem::{Dirty, GuestTarget, Memory, NoMemory, Place, Table};
use std::alloc::{Allocator, Global};
use std::marker::Model;
use std::mem;

/// A memory, and the pages of the round that is open, which it keeps apart. Pass it to a load in
/// place of the memory: its image is the memory with these pages. Call `keep` once the round was
/// judged lawful, and `drop_round` if it wasn't. So the memory has the rounds that were kept, and
/// nothing else, at any time.
///
/// A round's pages take memory beside the guest until they are kept, and are copied then. The next
/// round takes that memory again. So beside the guest each region of a block (`Memory::put_pages`)
/// takes at most as many pages as one round wrote there. A first round into a `Memory` of zeros
/// isn't copied (`keep_own`), and takes nothing beside the guest.
pub struct Staged<M: GuestTarget, A: Allocator = Global> {
    memory: M,
    apart: Memory<A>,
    named: Dirty<A>,
    is_fresh: bool,
}

// Written out, so that a caller's proof passes a call where a value is dropped.
impl<M: GuestTarget + Drop, A: Allocator> Drop for Staged<M, A> {
    fn drop(self) {
        let Staged {
            memory: _,
            apart: _,
            named: _,
            is_fresh: _,
        } = self;
    }
}

impl<M: GuestTarget, A: Allocator> Model for Staged<M, A> {
    ghost use Rattle.mig_staged.specs.Staged.{Staging, IsStaging};

    ghost Value = { Staging };

    ghost view = { λ s. record { kept = M.image s.memory; apart = s.apart; named = s.named; is_fresh = s.is_fresh } };

    ghost invariant = { λ s. IsStaging (record { kept = M.image s.memory; apart = s.apart; named = s.named; is_fresh = s.is_fresh }) };
}

// Writes a page of a memory into another one of its table.
fn copy_page<M: GuestTarget, A: Allocator>(memory: &mut M, from: &Memory<A>, place: Place)
    requires place { IsPlace (M.image memory.old).table place }
    requires same { from.now.table ≡ (M.image memory.old).table }
    ensures { M.image memory.new ≡ with_page (M.image memory.old) place (content_at from.now place) }
{
    // shows that each content has the page size (`IsImage`)
    let _table = from.table();
    if from.is_blank(place) {
        memory.put_zero_page(place);
        return;
    }
    match from.page(place) {
        Some(content) => memory.put_page(place, content),
        None => unreachable!(),
    }
}

// Writes the pages of a memory that a set has into another one of its table.
fn copy_round<M: GuestTarget, A: Allocator>(memory: &mut M, from: &Memory<A>, named: &Dirty<A>)
    requires same { from.now.table ≡ (M.image memory.old).table }
    requires named { named.now.table ≡ (M.image memory.old).table }
    ensures { M.image memory.new ≡ with_round (M.image memory.old) (round_of from.now named.now.marked) }
{
    // shows that the memory has a content for each place (`IsImage`)
    let _table = memory.table();
    let mut next = Place { block: 0, page: 0 };
    for _ in 0..named.count() {
        let Some(place) = named.first_from(next) else {
            break;
        };
        copy_page(memory, from, place);
        next = Place {
            block: place.block,
            page: place.page + 1,
        };
    }
}

// Ends a round: none of its pages is named, and none is kept apart.
fn clear_round<A: Allocator>(apart: &mut Memory<A>, named: &mut Dirty<A>)
    requires { AreZeros apart.old named.old }
    ensures apart { apart.new ≡ zero_image apart.old.table }
    ensures named { named.new ≡ record named.old { marked = [] } }
{
    // shows that the memory has a content for each place (`IsImage`)
    let _table = apart.table();
    if named.count() == 0 {
        return;
    }
    apart.clear();
    named.clear();
}

impl<M: GuestTarget, A: Allocator + Copy> Staged<M, A> {
    /// Takes a memory, without an open round. It allocates room for all pages of the table, which
    /// isn't touched before a round needs it and is used again by the next one, and a bit for each
    /// page.
    ///
    /// # Errors
    ///
    /// The memory, as it was: an allocation was refused.
    pub fn new(alloc: A, memory: M) -> Result<Staged<M, A>, M>
        ensures kept { IfOk result (λ s. s.kept ≡ M.image memory) }
        ensures image { IfOk result (λ s. staged s ≡ s.kept) }
        ensures err { IfErr result (λ m. M.image m ≡ M.image memory) }
    {
        let Ok(apart) = Memory::zeroed(alloc, memory.table()) else {
            return Err(memory);
        };
        let Ok(named) = Dirty::none(alloc, memory.table()) else {
            return Err(memory);
        };
        Ok(Staged {
            memory,
            apart,
            named,
            is_fresh: false,
        })
    }
}

impl<M: GuestTarget, A: Allocator> Staged<M, A> {
    /// Returns the memory, with the rounds that were kept.
    pub fn memory(&self) -> &M
        ensures { M.image result.now ≡ self.now.kept }
    {
        &self.memory
    }

    /// Returns the memory, with the rounds that were kept.
    pub fn into_memory(self) -> M
        ensures { M.image result ≡ self.kept }
    {
        let Staged {
            memory,
            apart: _,
            named: _,
            is_fresh: _,
        } = self;
        memory
    }

    /// Takes a memory, and an open round: one that `into_parts` returned with it, if the memory
    /// wasn't changed since, or one without pages.
    pub fn from_parts(memory: M, round: OpenPages<A>) -> Staged<M, A>
        requires { round.apart.table ≡ (M.image memory).table }
        ensures kept { result.kept ≡ M.image memory }
        ensures parts { (result.apart ≡ round.apart) × (result.named ≡ round.named) }
    {
        let (apart, named) = round.into_pages();
        Staged {
            memory,
            apart,
            named,
            is_fresh: false,
        }
    }

    /// Returns the memory with the rounds that were kept, and the open round.
    pub fn into_parts(self) -> (M, OpenPages<A>)
        ensures memory { M.image result.0 ≡ self.kept }
        ensures parts { (result.1.apart ≡ self.apart) × (result.1.named ≡ self.named) }
        ensures table { result.1.apart.table ≡ self.kept.table }
    {
        let Staged {
            memory,
            apart,
            named,
            is_fresh: _,
        } = self;
        (memory, OpenPages::of(apart, named))
    }

    /// Keeps the open round: the memory has its pages, and no round is open. It allocates nothing.
    pub fn keep(&mut self)
        ensures kept { self.new.kept ≡ staged self.old }
        ensures image { staged self.new ≡ self.new.kept }
    {
        self.is_fresh = false;
        copy_round(&mut self.memory, &self.apart, &self.named);
        clear_round(&mut self.apart, &mut self.named);
        // shows that the memory has a content for each place (`IsImage`)
        let _table = self.memory.table();
    }

    /// Drops the open round: the memory stays.
    pub fn drop_round(&mut self)
        ensures kept { self.new.kept ≡ self.old.kept }
        ensures image { staged self.new ≡ self.new.kept }
    {
        clear_round(&mut self.apart, &mut self.named);
        // shows that the memory has a content for each place (`IsImage`)
        let _table = self.memory.table();
    }
}

impl<A: Allocator + Copy> Staged<Memory<A>, A> {
    /// Creates a memory of zeros, without an open round. It allocates room for the pages twice,
    /// which isn't touched before a round needs it, and a bit for each page. If rounds are kept by
    /// `keep_own`, only rounds after the first touch the second room, each the same again.
    ///
    /// # Errors
    ///
    /// `NoMemory`: an allocation was refused.
    pub fn zeroed<B: Allocator>(
        alloc: A,
        table: &Table<B>,
    ) -> Result<Staged<Memory<A>, A>, NoMemory>
        ensures kept { IfOk result (λ s. s.kept ≡ zero_image table.now) }
        ensures image { IfOk result (λ s. staged s ≡ s.kept) }
    {
        let memory = Memory::zeroed(alloc, table)?;
        let apart = Memory::zeroed(alloc, table)?;
        let named = Dirty::none(alloc, table)?;
        // shows that the memory has a content for each place (`IsImage`)
        let _table = memory.table();
        Ok(Staged {
            memory,
            apart,
            named,
            is_fresh: true,
        })
    }

    /// Keeps the open round as `keep` does. The first round that has pages isn't copied, if the
    /// memory was created by `zeroed`: it becomes the memory.
    pub fn keep_own(&mut self)
        ensures kept { self.new.kept ≡ staged self.old }
        ensures image { staged self.new ≡ self.new.kept }
    {
        // show that both have a content for each place (`IsImage`)
        let _kept = self.memory.table();
        let _apart = self.apart.table();
        if self.named.count() == 0 {
            return;
        }
        if !self.is_fresh {
            self.keep();
            return;
        }
        // the memory was zeros, so that nothing is kept apart after this
        self.is_fresh = false;
        mem::swap(&mut self.memory, &mut self.apart);
        self.named.clear();
    }
}

/// Keeps the open round of a memory: `CopyKeeper` in any memory, `OwnKeeper` in one of `zeroed`.
pub trait Keeper<M: GuestTarget, A: Allocator> {
    /// Keeps the open round: the memory has its pages, and no round is open.
    fn keep(&self, memory: &mut Staged<M, A>)
        ensures kept { memory.new.kept ≡ staged memory.old }
        ensures image { staged memory.new ≡ memory.new.kept };
}

/// Keeps rounds by `Staged::keep`: each page is copied.
#[derive(Clone, Copy, Debug)]
pub struct CopyKeeper;

impl<M: GuestTarget, A: Allocator> Keeper<M, A> for CopyKeeper {
    fn keep(&self, memory: &mut Staged<M, A>) {
        memory.keep();
    }
}

/// Keeps rounds by `Staged::keep_own`: the first one isn't copied.
#[derive(Clone, Copy, Debug)]
pub struct OwnKeeper;

impl<A: Allocator + Copy> Keeper<Memory<A>, A> for OwnKeeper {
    fn keep(&self, memory: &mut Staged<Memory<A>, A>) {
        memory.keep_own();
    }
}

impl<M: GuestTarget, A: Allocator> GuestTarget for Staged<M, A> {
    type Alloc = M::Alloc;

    ghost use Rattle.mig_mem.specs.Round.{round_of, with_round};
    ghost use Rattle.mig_staged.specs.Staged.{staged};

    ghost image = { λ s. staged s };

    ghost kept = { λ s. Some s.kept };

    fn table(&self) -> &Table<M::Alloc> {
        // show that the pages of the open round have places of the table, and the page size
        let _apart = self.apart.table();
        let _named = self.named.table();
        self.memory.table()
    }

    fn put_page(&mut self, place: Place, bytes: &[u8]) {
        let Ok(_) = self.named.mark(place) else {
            unreachable!();
        };
        self.apart.put_page(place, bytes);
    }

    fn put_zero_page(&mut self, place: Place) {
        let Ok(_) = self.named.mark(place) else {
            unreachable!();
        };
        self.apart.put_zero_page(place);
    }
}
