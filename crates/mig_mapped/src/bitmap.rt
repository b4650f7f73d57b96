//! The bitmap of a block, for `head`, `index` and `write`: the bit of a page, and the first page
//! whose bit is set or isn't.

ghost use Rattle.std.specs.Prelude.{ℕ, ◌≡◌, ◌+◌, ◌*◌, ◌≤◌, ◌<◌, ◌^◌, ◌==◌, length, if◌then◌else◌};
ghost use Rattle.mig_mapped.specs.Bitmap.{byte_of, is_set, bitmap_len, has_tail, IsFirstWith};

use crate::WordOrder;

/// The number of pages whose bits are in one word.
const WORD: u64 = 64;

/// Returns the number of bytes of the bitmap of `pages` pages.
pub(crate) fn bitmap_len(pages: u64) -> u64
    requires { pages < 2 ^ 63 }
    ensures { result ≡ bitmap_len pages }
{
    (pages + 63) / WORD * 8
}

// Returns the place of the byte that has the bit of `page`.
fn byte_of(order: WordOrder, page: u64) -> u64
    ensures { result ≡ byte_of order page }
{
    match order {
        WordOrder::Little => page / 8,
        WordOrder::Big => page / WORD * 8 + (7 - page / 8 % 8),
    }
}

/// Returns whether the bit of `page` is set. A bit outside the bitmap isn't.
#[tactic(auto, unfolding(crate::specs::Bitmap::is_set), using(std::proofs::lemmas::Nat::Bits::shr_and_one))]
pub(crate) fn is_set(order: WordOrder, bitmap: &[u8], page: u64) -> bool
    ensures { result ≡ is_set order bitmap.now page }
{
    match bitmap.get(byte_of(order, page) as usize) {
        Some(byte) => (*byte >> (page % 8)) & 1 == 1,
        None => false,
    }
}

/// Sets the bit of `page` if `bit` is true, and clears it otherwise.
pub(crate) fn put_bit(order: WordOrder, bitmap: &mut [u8], page: u64, bit: bool)
    requires { byte_of order page < length bitmap.old }
    ensures len { length bitmap.new ≡ length bitmap.old }
    ensures bits { (q : ℕ) → is_set order bitmap.new q ≡ (if q == page then bit else is_set order bitmap.old q) }
{
    let at = byte_of(order, page) as usize;
    if bit {
        bitmap[at] |= 1 << (page % 8);
        return;
    }
    bitmap[at] &= !(1 << (page % 8));
}

/// Returns the first page from `from` on whose bit is `bit`, or `pages` if no page before it has
/// that bit.
pub(crate) fn first_with(order: WordOrder, bitmap: &[u8], bit: bool, from: u64, pages: u64) -> u64
    requires { from ≤ pages }
    ensures { IsFirstWith order bitmap.now bit from pages result }
{
    for page in from..pages {
        if is_set(order, bitmap, page) == bit {
            return page;
        }
    }
    pages
}

/// Returns whether a bit is set after those of the first `pages` pages.
pub(crate) fn has_tail(order: WordOrder, bitmap: &[u8], pages: u64) -> bool
    requires { pages < 2 ^ 60 }
    ensures { result ≡ has_tail order bitmap.now pages }
{
    (pages..8 * bitmap_len(pages)).any(|page| is_set(order, bitmap, page))
}
