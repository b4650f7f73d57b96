//! Reads the run at the beginning of bytes. `rest` is what is left of a delta of `len` bytes, and
//! `room` how many bytes the page has from the run's beginning on.

ghost use Rattle.mig_xbzrle.specs.Reading.{Gives, length_at, skip_at, bytes_at, run_at};

use crate::DeltaFault;

/// A run that was read, and the bytes after it.
#[derive(Clone, Copy)]
pub(crate) struct RunRead<'a> {
    pub(crate) skip: usize,
    pub(crate) bytes: &'a [u8],
    pub(crate) rest: &'a [u8],
}

#[tactic(auto, unfolding(crate::specs::Reading::run_at))]
pub(crate) fn read_run<'a>(
    rest: &'a [u8],
    len: usize,
    room: usize,
) -> Result<RunRead<'a>, DeltaFault>
    ensures { Gives (λ r. (record { skip = r.skip; bytes = r.bytes.now }, r.rest.now)) result (run_at len room rest.now) }
{
    let (skip, rest) = read_skip(rest, len, room)?;
    let (bytes, rest) = read_bytes(rest, len, room.saturating_sub(skip))?;
    Ok(RunRead { skip, bytes, rest })
}

// Reads how many bytes of the page a run skips.
#[tactic(auto, unfolding(crate::specs::Reading::skip_at))]
fn read_skip<'a>(rest: &'a [u8], len: usize, room: usize) -> Result<(usize, &'a [u8]), DeltaFault>
    ensures { Gives (λ n. (n.0, n.1.now)) result (skip_at len room rest.now) }
{
    let (skip, after) = read_length(rest, len)?;
    if rest.len() < len && skip == 0 {
        return Err(DeltaFault::NoSkip(len.saturating_sub(rest.len())));
    }
    if skip > room {
        return Err(DeltaFault::PastPage(len.saturating_sub(rest.len())));
    }
    Ok((skip, after))
}

// Reads the bytes of a run.
#[tactic(auto, unfolding(crate::specs::Reading::bytes_at))]
fn read_bytes<'a>(
    rest: &'a [u8],
    len: usize,
    room: usize,
) -> Result<(&'a [u8], &'a [u8]), DeltaFault>
    ensures { Gives (λ b. (b.0.now, b.1.now)) result (bytes_at len room rest.now) }
{
    let (count, after) = read_length(rest, len)?;
    if count == 0 {
        return Err(DeltaFault::NoBytes(len.saturating_sub(rest.len())));
    }
    if count > room {
        return Err(DeltaFault::PastPage(len.saturating_sub(rest.len())));
    }
    if after.len() < count {
        return Err(DeltaFault::BytesMissing(len.saturating_sub(rest.len())));
    }
    Ok(after.split_at(count))
}

// Reads a length of at most 14 bits, QEMU's `uleb128_decode_small`.
#[tactic(auto, unfolding(crate::specs::Reading::length_at))]
fn read_length<'a>(rest: &'a [u8], len: usize) -> Result<(usize, &'a [u8]), DeltaFault>
    ensures { Gives (λ n. (n.0, n.1.now)) result (length_at len rest.now) }
{
    if rest.len() < 2 {
        return Err(DeltaFault::Cut(len.saturating_sub(rest.len())));
    }
    let low = rest[0] as usize;
    let high = rest[1] as usize;
    if low < 128 {
        return Ok((low, &rest[1..]));
    }
    if high < 128 {
        return Ok((low - 128 + high * 128, &rest[2..]));
    }
    Err(DeltaFault::LongLength(len.saturating_sub(rest.len())))
}
