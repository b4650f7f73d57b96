//! Batches: the dirty pages of a round in groups, each for one packet. `MultiSender::round` cuts
//! them.

ghost use Rattle.std.specs.Prelude.{◌≡◌, ◌<◌, ◌≤◌, [], ◌∷◌, ◌++◌, All, IfOk, Some, vec_len, vec_capacity};
ghost use Rattle.mig_mem.specs.PlaceSet.{IsPlaceSet};
ghost use Rattle.mig_packet.specs.PageSize.{page_limit};
ghost use Rattle.mig_send.specs.Batches.{IsCut, IsBatch, IsFirstBatch, IsInSet, places_from, HasOneCut};

use mig_mem::{Dirty, NoMemory, Place, Table};
use std::alloc::{Allocator, Global};
use std::fmt::{self, Debug, Formatter};
use std::marker::Model;

/// Pages of one block, by their numbers in it, ascending.
#[derive(Drop)]
pub struct Batch<A: Allocator = Global> {
    pub block: usize,
    pub pages: Vec<u64, A>,
}

impl<A: Allocator> Model for Batch<A> {
    ghost use Rattle.mig_send.specs.Batches.{BatchOfPages};

    ghost Value = { BatchOfPages };

    ghost view = { λ b. record { block = b.block; pages = b.pages.items } };
}

impl<A: Allocator> Debug for Batch<A> {
    fn fmt<W: fmt::Write>(&self, f: &mut Formatter<W>) -> fmt::Result {
        f.debug_struct("Batch")
            .field("block", &self.block)
            .field("pages", &self.pages)
            .finish()
    }
}

/// Cuts the dirty pages of a round into batches of at most `limit` pages. The batches have all of
/// them in ascending order. Each is of one block, and all but a block's last one are full. The call
/// walks the bitmap, and makes no list of all places.
///
/// # Errors
///
/// `NoMemory`: an allocation was refused.
pub fn cut<A: Allocator + Copy, B: Allocator, C: Allocator>(
    alloc: A,
    table: &Table<B>,
    dirty: &Dirty<C>,
    limit: usize,
) -> Result<Vec<Batch<A>, A>, NoMemory>
    requires limit { (0 < limit) × (limit ≤ page_limit table.now.page_size) }
    requires table { dirty.now.table ≡ table.now }
    ensures cut { IfOk result (λ v. IsCut limit dirty.now.marked v.items) }
    ensures batches { IfOk result (λ v. All (IsBatch table.now) v.items) }
{
    let count = dirty.count() as usize;
    let most = (count / limit).saturating_add(table.len());
    let mut batches = Vec::with_capacity(alloc, count.min(most))?;
    let mut next = dirty.first_from(Place { block: 0, page: 0 });
    'batches: while let Some(first) = next {
        let (batch, behind) = batch_from(alloc, dirty, first, limit)?;
        batches.push(batch)?;
        next = behind;
    }
    Ok(batches)
}

// Returns the batch that begins with the dirty place `first`, and the first dirty place after it.
fn batch_from<A: Allocator, C: Allocator>(
    alloc: A,
    dirty: &Dirty<C>,
    first: Place,
    limit: usize,
) -> Result<(Batch<A>, Option<Place>), NoMemory>
    requires limit { 0 < limit }
    requires set { IsPlaceSet dirty.now }
    requires first { IsInSet dirty.now.marked (Some first) }
    ensures batch { IfOk result (λ r. IsFirstBatch limit (places_from dirty.now.marked (Some first)) r.0 (places_from dirty.now.marked r.1)) }
    ensures behind { IfOk result (λ r. IsInSet dirty.now.marked r.1) }
{
    let pages = Vec::with_capacity(alloc, limit)?;
    Ok(unpacked(dirty, first, limit, pages))
}

// Adds a page to a list that has room for it, so it allocates nothing.
fn put<A: Allocator>(pages: &mut Vec<u64, A>, page: u64)
    requires { vec_len pages.old < vec_capacity pages.old }
    ensures items { pages.new.items ≡ pages.old.items ++ page ∷ [] }
    ensures capacity { vec_capacity pages.old ≤ vec_capacity pages.new }
{
    let Ok(()) = pages.push(page) else {
        unreachable!()
    };
}

/// Returns the batch that begins with the dirty place `first`, in `pages`, which has room for it,
/// and the first dirty place after it. It allocates nothing.
pub(crate) fn unpacked<A: Allocator, C: Allocator>(
    dirty: &Dirty<C>,
    first: Place,
    limit: usize,
    pages: Vec<u64, A>,
) -> (Batch<A>, Option<Place>)
    requires limit { 0 < limit }
    requires set { IsPlaceSet dirty.now }
    requires first { IsInSet dirty.now.marked (Some first) }
    requires room { limit ≤ vec_capacity pages }
    ensures batch { IsFirstBatch limit (places_from dirty.now.marked (Some first)) result.0 (places_from dirty.now.marked result.1) }
    ensures behind { IsInSet dirty.now.marked result.1 }
{
    let mut pages = pages;
    pages.clear();
    let mut next = Some(first);
    'pages: while let Some(place) = next {
        if place.block != first.block || pages.len() == limit {
            break;
        }
        put(&mut pages, place.page);
        next = first_after(dirty, place);
    }
    let batch = Batch {
        block: first.block,
        pages,
    };
    (batch, next)
}

// Returns the first dirty place after another one.
fn first_after<C: Allocator>(dirty: &Dirty<C>, place: Place) -> Option<Place>
    requires set { IsPlaceSet dirty.now }
    requires place { IsInSet dirty.now.marked (Some place) }
    ensures behind { places_from dirty.now.marked (Some place) ≡ place ∷ places_from dirty.now.marked result }
    ensures dirty { IsInSet dirty.now.marked result }
{
    dirty.first_from(Place {
        block: place.block,
        page: place.page + 1,
    })
}

/// There is one list of batches that `cut` can give.
pub fn pages_have_one_cut()
    ensures { HasOneCut }
{}
