//! Finds the batch that a worker's number claims, in the round's dirty set. A worker's numbers
//! rise, so it walks once over the set, past the batches of the others.

ghost use Rattle.std.specs.Prelude.{◌≡◌, ◌<◌, ◌≤◌, ◌^◌, ℕ, length, get_or, Some, None, OnOk, OnErr, vec_capacity};
ghost use Rattle.std.specs.Option.{option_copied};
ghost use Rattle.mig_mem.specs.PlaceSet.{IsPlaceSet};
ghost use Rattle.mig_send.specs.Work.{no_batch};
ghost use Rattle.mig_send.specs.Batches.{IsCut, IsInSet};
ghost use Rattle.mig_send.specs.Finding.{IsAfterBatch, IsWalk, IsFinder, HasRoom, batch_held, cut_of, places_of};

use crate::Batch;
use crate::batch::unpacked;
use crate::round_work::RoundWork;
use mig_mem::{Dirty, NoMemory, Place};
use std::alloc::Allocator;
use std::mem;

/// The position of a walk over the batches of a dirty set.
#[derive(Clone, Copy)]
pub(crate) struct Walk {
    /// How many batches are before it.
    pub(crate) at: u64,
    /// The first place of the batch at it, if there is one.
    pub(crate) next: Option<Place>,
}

/// Room for the pages of one batch.
#[derive(Drop)]
pub(crate) enum Buffer<A: Allocator> {
    /// No batch, and room for each of the round.
    Room(Vec<u64, A>),
    /// A batch.
    Unpacked(Batch<A>),
    /// Neither, while a batch is unpacked.
    Moved,
}

/// What a worker finds its batches with.
pub(crate) struct Finder<A: Allocator> {
    /// The most pages of a batch.
    pub(crate) limit: usize,
    pub(crate) walk: Walk,
    pub(crate) buffer: Buffer<A>,
}

// Written out, so that a caller's proof passes a call where a value is dropped.
impl<A: Allocator> Drop for Finder<A> {
    fn drop(self) {
        let Finder {
            limit: _,
            walk: _,
            buffer: _,
        } = self;
    }
}

// Returns the first place after the batch that begins with the dirty place `first`.
fn after_batch<C: Allocator>(dirty: &Dirty<C>, first: Place, limit: usize) -> Option<Place>
    requires limit { 0 < limit }
    requires set { IsPlaceSet dirty.now }
    requires first { IsInSet dirty.now.marked (Some first) }
    ensures { IsAfterBatch limit dirty.now.marked first result }
{
    let page = dirty.page_after(first.block, first.page, limit as u64);
    dirty.first_from(Place {
        block: first.block,
        page,
    })
}

/// Returns the number of batches of at most `limit` pages that a dirty set has.
pub(crate) fn count_batches<C: Allocator>(dirty: &Dirty<C>, limit: usize) -> u64
    requires limit { 0 < limit }
    requires set { IsPlaceSet dirty.now }
    ensures count { result ≡ length (cut_of limit dirty.now.marked) }
    ensures few { result ≤ 2 ^ 28 }
    ensures cut { IsCut limit dirty.now.marked (cut_of limit dirty.now.marked) }
{
    let mut count = 0;
    let mut next = dirty.first_from(Place { block: 0, page: 0 });
    'batches: while let Some(first) = next {
        next = after_batch(dirty, first, limit);
        count += 1;
    }
    count
}

// Returns the walk at its first batch.
fn first_walk<C: Allocator>(dirty: &Dirty<C>) -> Walk
    requires { IsPlaceSet dirty.now }
    ensures walk { (limit : ℕ) → IsWalk limit dirty.now.marked result }
    ensures at { result.at ≡ 0 }
{
    Walk {
        at: 0,
        next: dirty.first_from(Place { block: 0, page: 0 }),
    }
}

// Returns the walk at the batch with index `index`. A walk that is past it begins anew.
fn walk_to<C: Allocator>(dirty: &Dirty<C>, limit: usize, walk: Walk, index: u64) -> Walk
    requires limit { 0 < limit }
    requires set { IsPlaceSet dirty.now }
    requires walk { IsWalk limit dirty.now.marked walk }
    requires index { index < length (cut_of limit dirty.now.marked) }
    ensures walk { IsWalk limit dirty.now.marked result }
    ensures at { result.at ≡ index }
{
    let mut walk = if walk.at <= index {
        walk
    } else {
        first_walk(dirty)
    };
    while walk.at < index {
        let Some(first) = walk.next else {
            unreachable!()
        };
        walk = Walk {
            at: walk.at + 1,
            next: after_batch(dirty, first, limit),
        };
    }
    walk
}

// Unpacks the batch at `walk` into `pages`. Returns it with the walk after it.
fn take_batch<A: Allocator, C: Allocator>(
    dirty: &Dirty<C>,
    limit: usize,
    walk: Walk,
    pages: Vec<u64, A>,
) -> (Batch<A>, Walk)
    requires limit { 0 < limit }
    requires set { IsPlaceSet dirty.now }
    requires walk { IsWalk limit dirty.now.marked walk }
    requires at { walk.at < length (cut_of limit dirty.now.marked) }
    requires few { walk.at < 2 ^ 28 }
    requires room { limit ≤ vec_capacity pages }
    ensures batch { result.0 ≡ get_or (cut_of limit dirty.now.marked) walk.at no_batch }
    ensures walk { IsWalk limit dirty.now.marked result.1 }
{
    let Some(first) = walk.next else {
        unreachable!()
    };
    let (batch, next) = unpacked(dirty, first, limit, pages);
    let walk = Walk {
        at: walk.at + 1,
        next,
    };
    (batch, walk)
}

impl<A: Allocator> Finder<A> {
    /// Creates a finder of the batches of `work`, which have at most `limit` pages, with `room` for
    /// as many.
    pub(crate) fn new(work: &RoundWork<A>, limit: usize, room: Vec<u64, A>) -> Finder<A>
        requires limit { 0 < limit }
        requires cut { IsCut limit (places_of work.now) work.now.batches }
        requires room { limit ≤ vec_capacity room }
        ensures finder { IsFinder work.now result }
        ensures none { batch_held result.buffer ≡ None }
    {
        Finder {
            limit,
            walk: first_walk(work.dirty()),
            buffer: Buffer::Room(room),
        }
    }

    /// Finds the batch with index `index`.
    pub(crate) fn find(&mut self, work: &RoundWork<A>, index: u64)
        requires finder { IsFinder work.now self.old }
        requires none { batch_held self.old.buffer ≡ None }
        requires index { index < length work.now.batches }
        ensures finder { IsFinder work.now self.new }
        ensures found { batch_held self.new.buffer ≡ Some (get_or work.now.batches index no_batch) }
    {
        let Buffer::Room(pages) = mem::replace(&mut self.buffer, Buffer::Moved) else {
            unreachable!()
        };
        let walk = walk_to(work.dirty(), self.limit, self.walk, index);
        let (batch, walk) = take_batch(work.dirty(), self.limit, walk, pages);
        self.walk = walk;
        self.buffer = Buffer::Unpacked(batch);
    }

    /// Returns the batch that was found, if it isn't forgotten.
    pub(crate) fn batch(&self) -> Option<&Batch<A>>
        ensures { option_copied result ≡ batch_held self.now.buffer }
    {
        match &self.buffer {
            Buffer::Unpacked(batch) => Some(batch),
            Buffer::Room(_) => None,
            Buffer::Moved => None,
        }
    }

    /// Forgets the batch, if there is one, and keeps its room.
    ///
    /// # Errors
    ///
    /// `NoMemory`: there is no room for another batch, and the batch is kept. That doesn't happen,
    /// as the room was enough for this one, but no contract of a batch says so.
    pub(crate) fn forget(&mut self) -> Result<(), NoMemory>
        requires { HasRoom self.old.limit self.old.buffer }
        ensures ok { OnOk result (batch_held self.new.buffer ≡ None) }
        ensures err { OnErr result (self.new.buffer ≡ self.old.buffer) }
        ensures kept { OnErr result (batch_held self.old.buffer ≡ None → ⊥) }
        ensures room { HasRoom self.new.limit self.new.buffer }
        ensures rest { (self.new.limit ≡ self.old.limit) × (self.new.walk ≡ self.old.walk) }
    {
        let (buffer, result) = forgotten(mem::replace(&mut self.buffer, Buffer::Moved), self.limit);
        self.buffer = buffer;
        result
    }
}

// Empties a buffer, but for its room.
fn forgotten<A: Allocator>(buffer: Buffer<A>, limit: usize) -> (Buffer<A>, Result<(), NoMemory>)
    requires { HasRoom limit buffer }
    ensures ok { OnOk result.1 (batch_held result.0 ≡ None) }
    ensures err { OnErr result.1 (result.0 ≡ buffer) }
    ensures kept { OnErr result.1 (batch_held buffer ≡ None → ⊥) }
    ensures room { HasRoom limit result.0 }
{
    match buffer {
        Buffer::Room(pages) => (Buffer::Room(pages), Ok(())),
        Buffer::Unpacked(batch) => {
            let Batch { block, mut pages } = batch;
            match pages.reserve(limit.saturating_sub(pages.len())) {
                Ok(()) => {
                    pages.clear();
                    (Buffer::Room(pages), Ok(()))
                }
                Err(_) => (Buffer::Unpacked(Batch { block, pages }), Err(NoMemory)),
            }
        }
        Buffer::Moved => unreachable!(),
    }
}
