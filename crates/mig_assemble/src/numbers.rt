//! Judging the numbers of a round's packets, for `Arrivals`.

ghost use Rattle.std.specs.Prelude.{◌≡◌, ◌+◌, ◌≤◌, ◌^◌, length, IsPermutation};
ghost use Rattle.mig_assemble.specs.Judging.{numbers};
ghost use Rattle.mig_assemble.specs.Sorted.{first_pair, first_gap, number_refusal, sorted_refusal};

use crate::RoundFault;

/// Returns why numbers in any order aren't consecutive from `base` on. It sorts them.
#[tactic(auto, using(crate::proofs::Rising::judged_sorted))]
pub(crate) fn unsorted_fault(numbers: &mut [u64], base: u64) -> Option<RoundFault>
    requires { base + length numbers.old ≤ 2 ^ 63 }
    ensures fault { result ≡ number_refusal base numbers.old }
    ensures permutation { IsPermutation numbers.old numbers.new }
{
    numbers.sort_unstable();
    sorted_fault(numbers, base)
}

// Returns why numbers in ascending order aren't consecutive from `base` on.
fn sorted_fault(numbers: &[u64], base: u64) -> Option<RoundFault>
    requires { base + length numbers.now ≤ 2 ^ 63 }
    ensures { result ≡ sorted_refusal base numbers.now }
{
    let first = *numbers.first()?;
    if first < base {
        return Some(RoundFault::Foreign(first));
    }
    if let Some(number) = first_pair(numbers) {
        return Some(RoundFault::Doubled(number));
    }
    if let Some(number) = first_gap(base, numbers) {
        return Some(RoundFault::Missing(number));
    }
    None
}

// Returns the first of two neighbours that are equal.
#[tactic(auto, using(crate::proofs::Rising::pair_step))]
fn first_pair(numbers: &[u64]) -> Option<u64>
    ensures { result ≡ first_pair numbers.now }
{
    let (first, rest) = numbers.split_first()?;
    let mut last = *first;
    for number in rest {
        if last == *number {
            return Some(last);
        }
        last = *number;
    }
    None
}

// Returns the number that was expected where the numbers first aren't consecutive from `base` on.
#[tactic(auto, using(crate::proofs::Rising::gap_step))]
fn first_gap(base: u64, numbers: &[u64]) -> Option<u64>
    requires { base + length numbers.now ≤ 2 ^ 63 }
    ensures { result ≡ first_gap base numbers.now }
{
    let mut next = base;
    for number in numbers {
        if *number != next {
            return Some(next);
        }
        next += 1;
    }
    None
}
