//! A load in place whose caller reads what it wants next, and each page straight to where it
//! belongs.

ghost use Rattle.std.specs.Prelude.{◌≤◌, ◌^◌};

use crate::building::{FRAMES, closed_at, followed, image_with};
use mig_fixtures::{at, has_byte, is_full};
use mig_load_types::LoadSettings;
use mig_mem::{GuestTarget, MAX_TOTAL, Memory, PAGE_SIZE_8K};
use mig_single_load::InPlaceState;
use mig_stream::{Frame, Wanted};
use std::alloc::Global;

// How many bytes a page has.
const PAGE: usize = 4096;

// Returns the settings of a load in a frame. Pages are as long as in the memory that it is passed:
// the page size of the settings doesn't count.
fn settings(frame: Frame) -> LoadSettings
    ensures { result.limit ≤ 2 ^ 40 }
{
    LoadSettings::new(PAGE_SIZE_8K, MAX_TOTAL).with_frame(frame)
}

// Writes the page that is wanted to its place, as a read would, and has the load take it. Returns
// false, and does nothing, if none is wanted.
fn take_page(state: &mut InPlaceState, memory: &mut Memory, content: &[u8]) -> bool {
    let Some(Wanted::Page(place)) = state.wanted() else {
        return false;
    };
    let table = memory.table();
    if !table.holds(place) || table.page_size() != content.len() as u64 {
        return false;
    }
    memory.put_page(place, content);
    if state.ended() || state.fed() > MAX_TOTAL || content.len() != PAGE {
        return false;
    }
    if state.table().page_size() != content.len() as u64 {
        return false;
    }
    state.take_page(content);
    true
}

// Feeds a piece.
fn feed(state: &mut InPlaceState, memory: &mut Memory, piece: &[u8]) -> Option<()> {
    if state.ended() || state.fed() > MAX_TOTAL || piece.len() as u64 > MAX_TOTAL {
        return None;
    }
    state.feed(memory, piece).ok()
}

// Returns how many bytes are wanted, of a page all that it has, and 0 once nothing is.
fn len_wanted(state: &InPlaceState) -> usize {
    match state.wanted() {
        Some(Wanted::Page(_)) => PAGE,
        Some(Wanted::Bytes(len)) => len,
        None => 0,
    }
}

// Loads a stream as it is wanted: pages go straight to their places, and all else is fed. Returns
// how many pages did.
fn load_wanted(state: &mut InPlaceState, memory: &mut Memory, stream: &[u8]) -> Option<u64> {
    let mut rest = stream;
    let mut taken = 0u64;
    for _ in 0..10_000u64 {
        let (piece, left) = rest.split_at_checked(len_wanted(state))?;
        if piece.is_empty() {
            return Some(taken);
        }
        rest = left;
        if take_page(state, memory, piece) {
            taken = taken.saturating_add(1);
        } else {
            feed(state, memory, piece)?;
        }
    }
    None
}

// Returns whether a load has read its stream up to its end, and no byte after it.
fn is_read_to_its_end(state: &InPlaceState, frame: Frame) -> bool {
    let end = closed_at(frame);
    state.verdict() == Ok(())
        && state.rounds() == 4
        && state.missing() == 64
        && state.fed() == end
        && state.closed_at() == Some(end)
        && state.valid_up_to() == Some(end)
}

// Returns whether a memory that had a byte in page 0 of `a` has the pages of the stream.
fn has_both_rounds(memory: &Memory) -> bool {
    is_full(memory, at(0, 0), 0)
        && has_byte(memory, at(0, 1), 0, 7)
        && is_full(memory, at(1, 64), 0)
}

// Loads a stream in a frame as it is wanted, whose one page with bytes goes straight to its place.
fn is_loaded(alloc: Global, frame: Frame, memory: &mut Memory, stream: &[u8]) -> Option<bool> {
    let mut state = InPlaceState::new(alloc, settings(frame), memory.table()).ok()?;
    let taken = load_wanted(&mut state, memory, stream)?;
    Some(taken == 1 && is_read_to_its_end(&state, frame) && has_both_rounds(memory))
}

#[test]
fn as_it_is_wanted(rt: HostRuntime) {
    for frame in FRAMES {
        let stream = followed(&rt, frame);
        let mut memory = image_with(&rt, 0, 100);
        assert!(rt; is_loaded(rt.alloc(), frame, &mut memory, &stream) == Some(true));
    }
}
