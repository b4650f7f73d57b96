//! What the next bytes of one stream are, as C sees it, so that C reads a page straight to its
//! place in a block.

ghost use Rattle.std.specs.Prelude.{◌≡◌, ◌≢◌, ◌*◌, IsTrue, IsFalse, IfOk, IfErr, IfSome, Some};
ghost use Rattle.mig_mem.specs.Lent.{mut_lent_bytes, FitTable, lent_image};
ghost use Rattle.mig_mem.specs.Image.{content_at};
ghost use Rattle.mig_mem.specs.Place.{IsPlace};
ghost use Rattle.mig_single_load.specs.ComesNext.{page_wanted, page_asked};
ghost use Rattle.mig_c_loads.specs.NextBytes.{seen_next, TellsNext, MayTakePage, TakesPage};

use crate::lent::fit;
use crate::putting::page_of;
use mig_c_calls::status::{BAD_LENGTH, DONE, IS_OVER, OUT_OF_TURN, ROOM, TOO_LONG};
use mig_mem::{Place, Table};
use mig_single_load::InPlaceState;
use mig_stream::Wanted;
use std::alloc::Global;

/// The next bytes of a stream.
#[repr(C)]
#[derive(Clone, Copy)]
pub struct NextBytes {
    /// How many bytes there are, at least 1.
    pub len: usize,
    /// 1 if they are the content of a page, else 0.
    pub is_page: u64,
    /// The number of the page's block, else 0.
    pub block: usize,
    /// The offset of the page in its block, in bytes, else 0.
    pub offset: u64,
}

// Returns the offset of a page in its block, in bytes.
fn offset_of(table: &Table<Global>, place: Place) -> u64
    requires { IsPlace table.now place }
    ensures { result ≡ place.page * table.now.page_size }
{
    // the block has at most 2^40 bytes
    let _pages = table.pages(place.block);
    place.page * table.page_size()
}

// Returns what comes next as C sees it.
fn seen_next(table: &Table<Global>, wanted: Wanted) -> NextBytes
    requires { IfSome (page_asked (Some wanted)) (IsPlace table.now) }
    ensures { result ≡ seen_next table.now.page_size wanted }
{
    match wanted {
        Wanted::Page(place) => NextBytes {
            len: table.page_size() as usize,
            is_page: 1,
            block: place.block,
            offset: offset_of(table, place),
        },
        Wanted::Bytes(count) => NextBytes {
            len: count,
            is_page: 0,
            block: 0,
            offset: 0,
        },
    }
}

/// Reports in `next` what the next bytes of the stream are. Returns false if no more of it is read.
pub(crate) fn wanted(state: &InPlaceState<Global>, next: &mut NextBytes) -> bool
    ensures { TellsNext result next.old next.new state.now }
{
    match state.wanted() {
        Some(wanted) => {
            *next = seen_next(state.table(), wanted);
            true
        }
        None => false,
    }
}

/// Returns the page whose content comes next, if one does.
pub(crate) fn next_page(state: &InPlaceState<Global>) -> Option<Place>
    ensures page { result ≡ page_wanted state.now }
    ensures place { IfSome result (IsPlace state.now.table) }
{
    match state.wanted() {
        Some(Wanted::Page(place)) => Some(place),
        Some(Wanted::Bytes(_)) => None,
        None => None,
    }
}

// Returns the page that comes next, if it may be taken from these blocks, or why not.
fn page_to_take(state: &InPlaceState<Global>, blocks: &[&mut [u8]]) -> Result<Place, u32>
    ensures ok { IfOk result (λ place. MayTakePage (mut_lent_bytes blocks.now) 0 state.now × (page_wanted state.now ≡ Some place) × IsPlace state.now.table place) }
    ensures err { IfErr result (λ status. MayTakePage (mut_lent_bytes blocks.now) status state.now × (status ≢ 0)) }
{
    if state.ended() {
        return Err(IS_OVER);
    }
    let Some(place) = next_page(state) else {
        return Err(OUT_OF_TURN);
    };
    let table = state.table();
    table.keeps_limits();
    if state.fed() >= ROOM - table.page_size() {
        return Err(TOO_LONG);
    }
    if !fit(table, blocks) {
        return Err(BAD_LENGTH);
    }
    Ok(place)
}

/// Takes the page that comes next, which was read into its block. Returns the status: `DONE`,
/// `IS_OVER`, `OUT_OF_TURN`, `TOO_LONG` or `BAD_LENGTH`.
pub(crate) fn take_page(state: &mut InPlaceState<Global>, blocks: &[&mut [u8]]) -> u32
    ensures { TakesPage (mut_lent_bytes blocks.now) result state.old state.new }
{
    match page_to_take(state, blocks) {
        Ok(place) => {
            let Some(block) = blocks.get(place.block) else {
                unreachable!();
            };
            let size = state.table().page_size();
            state.take_page(page_of(block, size, place.page));
            DONE
        }
        Err(status) => status,
    }
}
