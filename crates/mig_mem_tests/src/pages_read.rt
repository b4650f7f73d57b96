//! A channel read by the lengths that it wants: no byte beyond them is read, and each page is lent
//! completely.

use mig_fixtures::put_page_and_zeros;
use mig_packet::{ChannelEvent, ChannelState, PageReader, Wanted, hello, put_packet};
use std::alloc::Global;
use uuid::Uuid;

// Returns a channel of one packet with a page and zeros, one of two pages, and one with SYNC.
fn channel(alloc: Global) -> Option<Vec<u8>> {
    let mut pages = [1u8; 8192];
    pages[4096] = 2;
    let mut bytes = Vec::from_slice(alloc, &hello(&Uuid::nil(), 0)).ok()?;
    put_page_and_zeros(&mut bytes).ok()?;
    put_packet(4096, &mut bytes, 1, false, b"a", &[8192, 4096], &pages, &[]).ok()?;
    put_packet(4096, &mut bytes, 2, true, b"a", &[], &[], &[0]).ok()?;
    Some(bytes)
}

// What is wanted, one after another, and 0 where a page is.
const WANTED: [usize; 7] = [64, 1344, 0, 1344, 0, 0, 1344];

// The offsets and the first bytes of the pages.
const PAGES: [(u64, u8); 3] = [(4096, 9), (8192, 1), (4096, 2)];

// Reads a piece of a channel to its end, and notes its pages.
fn read_piece(reader: &mut PageReader, piece: &[u8], pages: &mut Vec<(u64, u8)>) -> Option<()> {
    let mut rest = piece;
    for _ in 0..10u8 {
        if reader.fed().checked_add(rest.len() as u64).is_none() {
            return None;
        }
        let (event, taken) = reader.read_on(rest);
        rest = rest.get(taken..)?;
        match event {
            ChannelEvent::Page(offset, content) => {
                let first = *reader.content(content).first()?;
                pages.push((offset, first)).ok()?;
            }
            ChannelEvent::More => return Some(()),
            ChannelEvent::Over => return None,
            _ => {}
        }
    }
    None
}

// Returns how many bytes are wanted, if that is `wanted`: 0 stands for a page.
fn len_of(reader: &PageReader, wanted: usize) -> Option<usize> {
    match reader.wanted() {
        Wanted::Page(_, _) if wanted == 0 => Some(4096),
        Wanted::Bytes(len) if len == wanted => Some(len),
        _ => None,
    }
}

// Reads a channel by the lengths that it wants. Returns its pages.
fn read_wanted(alloc: Global, reader: &mut PageReader, channel: &[u8]) -> Option<Vec<(u64, u8)>> {
    let mut pages = Vec::new(alloc);
    let mut rest = channel;
    for wanted in WANTED {
        let (piece, left) = rest.split_at_checked(len_of(reader, wanted)?)?;
        rest = left;
        read_piece(reader, piece, &mut pages)?;
    }
    if rest.is_empty() { Some(pages) } else { None }
}

// Returns whether a channel has those pages, and is read completely.
fn has_pages(alloc: Global, channel: &[u8]) -> Option<bool> {
    let mut reader = PageReader::new(alloc, 4096, Uuid::nil(), 1, None).ok()?;
    let pages = read_wanted(alloc, &mut reader, channel)?;
    Some(pages.as_slice() == PAGES.as_slice() && reader.state() == ChannelState::Reading)
}

#[test]
fn pages_as_they_are_wanted(rt: HostRuntime) {
    let channel = channel(rt.alloc()).expect(&rt, "a channel");
    assert!(rt; has_pages(rt.alloc(), &channel) == Some(true));
}
