//! Applies deltas of a page in QEMU's XBZRLE encoding, in place.
//!
//! A delta is a list of runs. Each run skips some bytes of the page, which stay as they were, and
//! replaces the bytes after them by its own. The bytes that no run reaches stay as they were. A run
//! has two lengths before its bytes: how many it skips (QEMU's `zrun`), and how many it has
//! (`nzrun`).
//!
//! ```text
//! 02 01 aa     skips 2 bytes, and replaces the next one by aa
//! 82 01 01 bb  skips 130 bytes, and replaces the next one by bb
//! ```
//!
//! The definitions are in `specs/`, apart from the code:
//!
//! - `Delta`: runs, the bytes that spell them, which are lawful, and the page after them.
//! - `Reading`: how any bytes are read from the front, with the first fault and its place.
//!
//! The code reads a delta twice: first it tests all runs, and then it applies them. So a delta with
//! a fault changes nothing, and no page is copied.
#![tactic(auto)]

ghost use Rattle.std.specs.Prelude.{ℕ, ◌≡◌, ◌+◌, ◌≤◌, ◌++◌, List, length, take, drop, IsOk, OnOk, OnErr, IfErr};
ghost use Rattle.mig_xbzrle.specs.Delta.{Run, Spells, IsDelta, IsPageAfter};
ghost use Rattle.mig_xbzrle.specs.Reading.{IsFirstFault};

mod fault;
mod laws;
mod reading;
#[cfg(test)]
mod tests;

pub use fault::DeltaFault;
pub use laws::{delta_has_one_reading, lawful_runs_are_read};
use reading::read_run;

/// Applies a delta to the old content of its page, in place.
///
/// It takes what QEMU's `xbzrle_decode_buffer` takes. A delta of no bytes has no runs, and is
/// lawful.
///
/// # Errors
///
/// The first fault of `delta` in the order of its bytes. The page is then as it was.
pub fn decode(delta: &[u8], page: &mut [u8]) -> Result<(), DeltaFault>
    ensures ok { OnOk result ((runs : List Run) × Spells runs delta.now × IsDelta (length page.old) runs × IsPageAfter page.old runs page.new) }
    ensures lawful { (runs : List Run) → Spells runs delta.now → IsDelta (length page.old) runs → IsOk result × IsPageAfter page.old runs page.new }
    ensures fault { IfErr result (λ fault. IsFirstFault (length page.old) delta.now fault) }
    ensures err { OnErr result (page.new ≡ page.old) }
{
    judge(delta, page.len())?;
    apply(delta, page);
    Ok(())
}

// Tests whether the bytes spell a lawful delta of a page of `size` bytes.
fn judge(delta: &[u8], size: usize) -> Result<(), DeltaFault>
    ensures ok { OnOk result ((runs : List Run) × Spells runs delta.now × IsDelta size runs) }
    ensures fault { IfErr result (λ fault. IsFirstFault size delta.now fault) }
{
    let mut rest = delta;
    let mut from = 0;
    'runs: while !rest.is_empty() {
        let run = read_run(rest, delta.len(), size.saturating_sub(from))?;
        from += run.skip + run.bytes.len();
        rest = run.rest;
    }
    Ok(())
}

// Applies a lawful delta.
fn apply(delta: &[u8], page: &mut [u8])
    requires { (runs : List Run) × Spells runs delta.now × IsDelta (length page.old) runs }
    ensures { (runs : List Run) × Spells runs delta.now × IsDelta (length page.old) runs × IsPageAfter page.old runs page.new }
{
    let mut rest = delta;
    let mut from = 0;
    'runs: while !rest.is_empty() {
        // a lawful delta has no fault
        let Ok(run) = read_run(rest, delta.len(), page.len().saturating_sub(from)) else {
            return;
        };
        write(page, from + run.skip, run.bytes);
        from += run.skip + run.bytes.len();
        rest = run.rest;
    }
}

// Writes `bytes` from the position `from` on.
fn write(page: &mut [u8], from: usize, bytes: &[u8])
    requires { from + length bytes.now ≤ length page.old }
    ensures { page.new ≡ take from page.old ++ (bytes.now ++ drop (from + length bytes.now) page.old) }
{
    page[from..from + bytes.len()].copy_from_slice(bytes);
}
