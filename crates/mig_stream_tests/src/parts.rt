//! The whole path without a second image: a guest whose bytes are lent is sent in parts, each
//! drained as soon as it is made and fed in pieces into a loader over bytes that the caller keeps.

use mig_mem::{Dirty, GuestPages, GuestTarget, LentMemory, MAX_TOTAL, Place, Table};
use mig_send::{OpenRound, SingleSender};
use mig_single_load::InPlaceLoader;
use std::alloc::Allocator;

/// The number of bytes that are fed at once.
pub(crate) const PIECE: usize = 65_536;

const FIRST: Place = Place { block: 0, page: 0 };

/// Returns the bytes of a block. Every third page is zeros, and no two others near each other are
/// the same.
pub(crate) fn block_of<A: Allocator>(
    alloc: A,
    page_size: u64,
    block: u64,
    pages: u64,
) -> Option<Vec<u8, A>> {
    let mut bytes = Vec::new(alloc);
    for page in 0..pages {
        let number = page.wrapping_add(block.wrapping_mul(71));
        for i in 0..page_size {
            let byte = (number.wrapping_mul(3).wrapping_add(i) % 251) as u8;
            bytes.push(if number % 3 == 0 { 0 } else { byte }).ok()?;
        }
    }
    Some(bytes)
}

/// Returns all pages of a table, marked.
pub(crate) fn all_of<A: Allocator + Copy, B: Allocator>(
    alloc: A,
    table: &Table<B>,
) -> Option<Dirty<A>> {
    let mut dirty = Dirty::none(alloc, table).ok()?;
    for block in 0..table.len() {
        for page in 0..table.pages(block) {
            let place = Place { block, page };
            if !dirty.table().holds(place) {
                return None;
            }
            dirty.mark(place).ok()?;
        }
    }
    Some(dirty)
}

// Feeds bytes in pieces. None if the loader can't take them.
fn feed<A: Allocator + Copy, M: GuestTarget>(
    loader: &mut InPlaceLoader<A, M>,
    bytes: &[u8],
) -> Option<()> {
    for piece in bytes.chunks(PIECE) {
        if loader.ended() || loader.fed() > MAX_TOTAL || piece.len() as u64 > MAX_TOTAL {
            return None;
        }
        loader.feed(piece).ok()?;
    }
    Some(())
}

// Adds a page to a round. `put_page` requires a place and the bytes of a page.
fn put<A: Allocator>(round: &mut OpenRound<A>, place: Place, bytes: &[u8]) -> Option<()> {
    let table = round.table();
    if !table.holds(place) || bytes.len() as u64 != table.page_size() {
        return None;
    }
    round.put_page(place, bytes).ok()
}

// Sends the first `most` marked pages from a place on, page by page. Returns the next one, too.
fn send_part<A: Allocator, B: Allocator>(
    sender: SingleSender<A>,
    guest: &LentMemory<'_, B>,
    dirty: &Dirty<A>,
    from: Place,
    most: u64,
) -> Option<(SingleSender<A>, Option<Place>)> {
    let mut round = sender.begin_round().ok()?;
    let mut next = Some(from);
    for _ in 0..most {
        let Some(place) = next else {
            break;
        };
        put(&mut round, place, guest.page(place)?)?;
        next = dirty.first_from(Place {
            block: place.block,
            page: place.page.saturating_add(1),
        });
    }
    Some((round.end_round().ok()?, next))
}

/// Sends the marked pages of a guest in parts of at most `most` pages. The bytes that each part
/// adds to the stream are drained into one buffer and fed, and so is the rest.
pub(crate) fn send<A: Allocator + Copy, B: Allocator, M: GuestTarget>(
    alloc: A,
    guest: &LentMemory<'_, B>,
    dirty: Dirty<A>,
    most: u64,
    loader: &mut InPlaceLoader<A, M>,
) -> Option<()> {
    let mut sender = SingleSender::new(alloc, guest.table()).ok()?;
    let mut bytes = Vec::new(alloc);
    let mut next = dirty.first_from(FIRST);
    for _ in 0..dirty.count() {
        let Some(from) = next else {
            break;
        };
        let (sent, left) = send_part(sender, guest, &dirty, from, most)?;
        sender = sent;
        next = left;
        sender.drain_into(&mut bytes);
        feed(loader, &bytes)?;
    }
    feed(loader, &sender.finish().ok()?)
}
