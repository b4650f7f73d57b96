//! The files of the channels that are written.

ghost use Rattle.std.specs.Prelude.{◌≡◌, ◌+◌, ◌++◌, ◌<◌, ◌≤◌, [], ℕ, List, length, IfOk, OnOk};
ghost use Rattle.mig_packet.specs.Hello.{written_hello};
ghost use Rattle.mig_packet.specs.PageSize.{IsPageSize};
ghost use Rattle.mig_send.specs.Dealing.{sync_packet};
ghost use Rattle.zimgasol_packing.specs.Packing.{HaveTexts, with_bytes};

use crate::batch::write_sync;
use mig_packet::hello;
use std::fs::OpenFile;
use std::io::Write;
use uuid::Uuid;
use zimgasol_files::{Outlet, Trouble};

/// The most channels.
const MOST_CHANNELS: usize = 255;

/// Writes `bytes` on a channel.
///
/// # Errors
///
/// `Trouble::OfFile` if the file doesn't take them, `Trouble::NoMemory` if there is no such
/// channel.
pub(crate) fn put_on<F: Write + OpenFile + Drop>(
    channels: &mut Vec<Outlet<F>>,
    channel: usize,
    bytes: &[u8],
) -> Result<(), Trouble>
    ensures len { length channels.new.items ≡ length channels.old.items }
    ensures put { OnOk result ((texts : ℕ → List ℕ) → HaveTexts F.contents channels.old.items texts
        → HaveTexts F.contents channels.new.items (with_bytes texts channel bytes.now)) }
{
    if channel >= channels.len() {
        return Err(Trouble::NoMemory);
    }
    channels[channel].write(bytes)?;
    Ok(())
}

/// Writes the hello of each channel.
///
/// # Errors
///
/// `Trouble::OfFile` if a file doesn't take it, `Trouble::NoMemory` if there are more than 255
/// channels.
pub(crate) fn put_hellos<F: Write + OpenFile + Drop>(
    channels: &mut Vec<Outlet<F>>,
    uuid: &Uuid,
) -> Result<(), Trouble>
    ensures len { length channels.new.items ≡ length channels.old.items }
    ensures few { OnOk result (length channels.old.items ≤ 255) }
    ensures uuid { OnOk result (0 < length channels.old.items → length uuid.now ≡ 16) }
    ensures put { OnOk result (HaveTexts F.contents channels.old.items (λ _. []) → HaveTexts F.contents channels.new.items (written_hello uuid.now)) }
{
    let count = channels.len();
    if count > MOST_CHANNELS {
        return Err(Trouble::NoMemory);
    }
    for channel in 0..count {
        put_on(channels, channel, &hello(uuid, channel as u8))?;
    }
    Ok(())
}

/// Writes a SYNC packet on each channel, the first with this number, by way of `bytes`. Returns the
/// number of the next packet.
///
/// # Errors
///
/// `Trouble::OfFile` if a file doesn't take it, `Trouble::NoMemory`.
pub(crate) fn put_syncs<F: Write + OpenFile + Drop>(
    channels: &mut Vec<Outlet<F>>,
    bytes: &mut Vec<u8>,
    page_size: u64,
    number: u64,
) -> Result<u64, Trouble>
    requires { IsPageSize page_size }
    ensures len { length channels.new.items ≡ length channels.old.items }
    ensures number { IfOk result (λ next. next ≡ number + length channels.old.items) }
    ensures put { OnOk result ((texts : ℕ → List ℕ) → HaveTexts F.contents channels.old.items texts
        → HaveTexts F.contents channels.new.items (λ channel. texts channel ++ sync_packet page_size (number + channel))) }
{
    let count = channels.len();
    let Some(next) = number.checked_add(count as u64) else {
        return Err(Trouble::NoMemory);
    };
    for channel in 0..count {
        write_sync(page_size, bytes, number.saturating_add(channel as u64))?;
        put_on(channels, channel, bytes)?;
    }
    Ok(next)
}
