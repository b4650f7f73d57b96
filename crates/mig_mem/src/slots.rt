//! A long list of numbers that takes memory only where it was written. `Pages` keeps in it where
//! each page's bytes are.

ghost use Rattle.std.specs.Prelude.{◌≡◌, ◌^◌, ◌<◌, ◌≤◌, length, replicate, slice_index, slice_set, IfOk};

use crate::NoMemory;
use crate::parts::{append_with, part_of, write_in_part};
use std::alloc::Allocator;
use std::marker::Model;

// How many numbers a leaf has.
const LEAF: u64 = 512;

// A leaf of zeros.
const ZEROS: [u64; 512] = [0; 512];

/// Numbers that are 0 until they are written, in leaves of 512. The room for all of them is
/// reserved from the start. A leaf isn't touched before one of its numbers is written.
#[derive(Drop)]
pub(crate) struct Slots<A: Allocator> {
    count: u64,
    // for each leaf its slot in `numbers`, from 1 on in the order of first writes, or 0 if it has
    // none
    leaves: Vec<u64, A>,
    // the leaves that were written, one after another
    numbers: Vec<u64, A>,
}

impl<A: Allocator> Model for Slots<A> {
    ghost use Rattle.std.specs.Prelude.{ℕ, List, vec_capacity};
    ghost use Rattle.mig_mem.specs.Leaves.{numbers_in, AreLeaves};

    ghost Value = { List ℕ };

    ghost view = { λ s. numbers_in 512 s.count s.leaves.items s.numbers.items };

    ghost invariant = { λ s. AreLeaves 512 s.count s.leaves.items s.numbers.items (vec_capacity s.numbers) };
}

// Returns a leaf of zeros.
fn zeros() -> &'static [u64]
    ensures { result.now ≡ replicate 512 0 }
{
    &ZEROS
}

// Creates `count` leaves that aren't in memory.
fn no_leaves<A: Allocator>(alloc: A, count: usize) -> Result<Vec<u64, A>, NoMemory>
    ensures { IfOk result (λ v. v.items ≡ replicate count 0) }
{
    Ok(vec![in alloc; 0u64; count]?)
}

impl<A: Allocator + Copy> Slots<A> {
    /// Creates `count` zeros.
    pub(crate) fn zeroed(alloc: A, count: u64) -> Result<Slots<A>, NoMemory>
        requires { count ≤ 2 ^ 40 }
        ensures { IfOk result (λ s. s ≡ replicate count 0) }
    {
        let leaves = no_leaves(alloc, count.div_ceil(LEAF) as usize)?;
        let numbers = Vec::with_capacity(alloc, leaves.len() * LEAF as usize)?;
        Ok(Slots {
            count,
            leaves,
            numbers,
        })
    }

    /// Copies the numbers.
    pub(crate) fn try_copy(&self) -> Result<Slots<A>, NoMemory>
        ensures { IfOk result (λ s. s ≡ self.now) }
    {
        let alloc = *self.leaves.allocator();
        let leaves = Vec::from_slice(alloc, &self.leaves)?;
        let mut numbers = Vec::with_capacity(alloc, self.leaves.len() * LEAF as usize)?;
        numbers.extend_from_slice(&self.numbers)?;
        Ok(Slots {
            count: self.count,
            leaves,
            numbers,
        })
    }
}

impl<A: Allocator> Slots<A> {
    pub(crate) fn len(&self) -> u64
        ensures { result ≡ length self.now }
    {
        self.count
    }

    pub(crate) fn get(&self, i: u64) -> u64
        requires { i < length self.now }
        ensures { result ≡ slice_index self.now i }
    {
        let leaf = self.leaves[(i / LEAF) as usize];
        if leaf == 0 {
            return 0;
        }
        part_of(&self.numbers, LEAF, leaf - 1)[(i % LEAF) as usize]
    }

    /// Writes a number. It allocates nothing.
    pub(crate) fn set(&mut self, i: u64, number: u64)
        requires { i < length self.old }
        ensures { self.new ≡ slice_set self.old i number }
    {
        let at = (i / LEAF) as usize;
        let leaf = self.leaves[at];
        if leaf == 0 {
            append_with(&mut self.numbers, zeros(), i % LEAF, number);
            self.leaves[at] = self.numbers.len() as u64 / LEAF;
        } else {
            write_in_part(&mut self.numbers, LEAF, leaf - 1, i % LEAF, number);
        }
    }

    /// Sets all numbers to 0. It allocates nothing, and leaves that are written later take the room
    /// of those that were.
    pub(crate) fn clear(&mut self)
        ensures { self.new ≡ replicate (length self.old) 0 }
    {
        self.leaves.fill(0);
        self.numbers.clear();
    }
}
