//! Keeps the first bytes of the stream's current item, for the block or the section that it names.

ghost use Rattle.std.specs.Prelude.{◌≡◌};

use std::alloc::{AllocError, Global};

/// The most bytes of an item that are kept: a page record's head, with the longest id.
const MOST_LEN: usize = 264;

/// The flags of a page record that names its block, with a page's bytes or for a page of zeros
/// (`RAM_SAVE_FLAG_PAGE` and `RAM_SAVE_FLAG_ZERO` in QEMU's `migration/ram.c`).
const FLAG_PAGE: u8 = 0x08;

const FLAG_ZERO: u8 = 0x02;

/// The first bytes of an item.
#[derive(Drop)]
pub struct Head {
    bytes: Vec<u8>,
}

// Returns the bytes of `piece` from the stream's byte `at` on; `piece` begins at the byte `start`.
// None if `at` is before the piece.
fn rest_from(piece: &[u8], start: u64, at: u64) -> Option<&[u8]> {
    let from = at.checked_sub(start)?;
    if from >= piece.len() as u64 {
        return Some(&[]);
    }
    Some(&piece[from as usize..])
}

impl Head {
    /// Creates a head without bytes.
    pub fn new(alloc: Global) -> Head {
        Head {
            bytes: Vec::new(alloc),
        }
    }

    /// Keeps the item's bytes in `piece`, after it was read. The item begins at the stream's byte
    /// `at`, and `piece` at its byte `start`.
    pub fn look(&mut self, piece: &[u8], start: u64, at: u64) -> Result<(), AllocError> {
        match rest_from(piece, start, at) {
            Some(rest) => {
                self.bytes.clear();
                self.take(rest)
            }
            None => self.take(piece),
        }
    }

    // Keeps as many of `bytes` as there is room for.
    fn take(&mut self, bytes: &[u8]) -> Result<(), AllocError> {
        let len = MOST_LEN.saturating_sub(self.bytes.len());
        let taken = &bytes[..len.min(bytes.len())];
        self.bytes.extend_from_slice(taken)?;
        Ok(())
    }

    /// Returns the first bytes of the item, and of those after it.
    pub fn bytes(&self) -> &[u8] {
        self.bytes.as_slice()
    }

    /// Returns the id of the block that the item names; None if it isn't a page record with an id.
    pub fn id(&self) -> Option<&[u8]> {
        id_in(&self.bytes)
    }
}

/// Returns the id of the section whose head begins at the byte `at` of `item`, after its type byte.
/// None if the head is cut.
pub fn section_id(item: &[u8], at: usize) -> Option<u32> {
    let bytes = item.get(at..)?.first_chunk::<4>()?;
    Some(u32::from_be_bytes(*bytes))
}

/// Returns the name of the section whose head begins at the byte `at` of `item`, after its type
/// byte. None if the head is cut.
pub fn section_name(item: &[u8], at: usize) -> Option<&[u8]> {
    let head = item.get(at..)?;
    let len = *head.get(4)?;
    head.get(5..5 + usize::from(len))
}

// Returns the id that a page record names; None if the record is cut or names none.
fn id_in(item: &[u8]) -> Option<&[u8]> {
    let flags = *item.get(7)?;
    let high = *item.get(6)?;
    if (flags != FLAG_PAGE && flags != FLAG_ZERO) || high % 16 != 0 {
        return None;
    }
    let len = *item.get(8)?;
    item.get(9..9 + usize::from(len))
}
