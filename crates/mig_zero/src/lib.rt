//! The zero test of guest memory: whether a page, or any other run of bytes, has no byte other than
//! 0.
//!
//! A sender tests each page that it sends. A page of zeros is sent without its bytes. So the test
//! must cost little compared with the copy of a page, for a page of zeros and for any other.
#![tactic(auto)]

ghost use Rattle.std.specs.Prelude.{◌≡◌, ◌↔◌, ◌+◌, ◌-◌, ◌/◌, ◌≤◌, [], ◌∷◌, length, All, IsTrue, slice_index};
ghost use Rattle.std.specs.List.{AllWithin};
ghost use Rattle.mig_zero.specs.Zero.{IsZero};

use std::simd::prelude::*;

#[cfg(test)]
mod tests;

/// Returns whether all of `bytes` are 0, for any number of bytes. No bytes at all give true.
///
/// It reads from front to back, as a processor prefetches. First it tests a few bytes of the first
/// cache line, which rejects most pages that aren't zeros. Then it reads blocks of 256 bytes in
/// vectors, and the bytes that are left one at a time.
pub fn is_zero(bytes: &[u8]) -> bool
    ensures { IsTrue result ↔ IsZero bytes.now }
{
    if !has_zero_samples(&bytes[..bytes.len().min(64)]) {
        return false;
    }
    let (blocks, rest) = bytes.as_chunks::<256>();
    are_zero_blocks(blocks) && is_zero_plain(rest)
}

// Returns whether the first, the last and the middle byte are 0.
fn has_zero_samples(bytes: &[u8]) -> bool
    ensures { let samples = 0 ∷ (length bytes.now - 1) ∷ (length bytes.now / 2) ∷ [] in
        IsTrue result ↔ All (λ at. slice_index bytes.now at ≡ 0) samples }
{
    if bytes.is_empty() {
        return true;
    }
    bytes[0] == 0 && bytes[bytes.len() - 1] == 0 && bytes[bytes.len() / 2] == 0
}

fn are_zero_blocks(blocks: &[[u8; 256]]) -> bool
    ensures { IsTrue result ↔ All IsZero blocks.now }
{
    blocks.iter().all(|block| is_zero_block(block))
}

// Joins the four tests by `&`, which evaluates all of them, so that they compile to one test of
// four vectors.
fn is_zero_block(block: &[u8; 256]) -> bool
    ensures { IsTrue result ↔ IsZero block.now }
{
    is_zero_vector(block, 0)
        & is_zero_vector(block, 64)
        & is_zero_vector(block, 128)
        & is_zero_vector(block, 192)
}

// Returns whether the 64 bytes from `at` on are 0.
fn is_zero_vector(bytes: &[u8], at: usize) -> bool
    requires { at + 64 ≤ length bytes.now }
    ensures { IsTrue result ↔ AllWithin (λ b. b ≡ 0) bytes.now at (at + 64) }
{
    let vector = u8x64::from_slice(&bytes[at..]);
    vector.simd_ne(u8x64::splat(0)).to_bitmask() == 0
}

// Returns the result of `is_zero`, computed a byte at a time.
fn is_zero_plain(bytes: &[u8]) -> bool
    ensures { IsTrue result ↔ IsZero bytes.now }
{
    bytes.iter().all(|byte| *byte == 0)
}
