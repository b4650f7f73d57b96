//! The marks of one block's pages, in words of 64. `Dirty` keeps one such list for each block.

ghost use Rattle.std.specs.Prelude.{◌≡◌, ℕ, ◌+◌, ◌*◌, ◌/◌, ◌^◌, ◌<◌, ◌≤◌, ◌==◌, ◌||◌, ◌&&◌, not, length, replicate, IfSome, IfNone, false};
ghost use Rattle.std.specs.Int.{bit_at};
ghost use Rattle.mig_mem.specs.Marks.{is_set, marks_in, IsLowestBit, IsFirstSet};

/// The number of marks in a word.
pub(crate) const WORD: u64 = 64;

/// Returns the number of words that `pages` pages take.
pub(crate) fn words_for(pages: u64) -> u64
    ensures { result ≡ (pages + 63) / 64 }
{
    pages.div_ceil(WORD)
}

/// Returns whether a page is marked.
#[tactic(auto, unfolding(crate::specs::Marks::is_set), using(std::proofs::lemmas::Nat::Bits::shr_and_one))]
pub(crate) fn is_set(words: &[u64], page: u64) -> bool
    requires { page < 64 * length words.now }
    ensures { result ≡ is_set words.now page }
{
    (words[(page / WORD) as usize] >> (page % WORD)) & 1 == 1
}

/// Marks a page.
pub(crate) fn set(words: &mut [u64], page: u64)
    requires { page < 64 * length words.old }
    ensures { (q : ℕ) → is_set words.new q ≡ (q == page || is_set words.old q) }
{
    words[(page / WORD) as usize] |= 1 << (page % WORD);
}

/// Removes the mark of a page.
pub(crate) fn unset(words: &mut [u64], page: u64)
    requires { page < 64 * length words.old }
    ensures { (q : ℕ) → is_set words.new q ≡ (is_set words.old q && not (q == page)) }
{
    words[(page / WORD) as usize] &= !(1 << (page % WORD));
}

/// Removes all marks.
pub(crate) fn clear(words: &mut [u64])
    ensures { words.new ≡ replicate (length words.old) 0 }
{
    words.fill(0);
}

/// Returns the number of marks.
pub(crate) fn count(words: &[u64]) -> u64
    requires { length words.now < 2 ^ 50 }
    ensures { result ≡ marks_in words.now }
{
    let mut count = 0;
    for i in 0..words.len() {
        count += u64::from(words[i].count_ones());
    }
    count
}

// Returns the lowest set bit of a word from bit `from` on.
fn lowest_bit(word: u64, from: u64) -> Option<u64>
    requires { from < 64 }
    ensures some { IfSome result (λ b. IsLowestBit word from b) }
    ensures none { IfNone result ((i : ℕ) → from ≤ i → i < 64 → bit_at word i ≡ 0) }
{
    let rest = word & (u64::MAX << from);
    if rest == 0 {
        return None;
    }
    Some(u64::from(rest.trailing_zeros()))
}

/// Returns the first marked page from page `from` on.
pub(crate) fn first_set(words: &[u64], from: u64) -> Option<u64>
    requires { length words.now < 2 ^ 50 }
    ensures some { IfSome result (λ p. IsFirstSet words.now from p) }
    ensures none { IfNone result ((q : ℕ) → from ≤ q → is_set words.now q ≡ false) }
{
    let first = (from / WORD) as usize;
    if first >= words.len() {
        return None;
    }
    if let Some(bit) = lowest_bit(words[first], from % WORD) {
        return Some(first as u64 * WORD + bit);
    }
    for i in first + 1..words.len() {
        if let Some(bit) = lowest_bit(words[i], 0) {
            return Some(i as u64 * WORD + bit);
        }
    }
    None
}
