//! The byte at which a load of several channels found a fault of a channel. For callers of
//! `load_multi` that got a fault and have the streams.

ghost use Rattle.std.specs.Prelude.{◌≡◌, ◌≤◌, IfOk};
ghost use Rattle.mig_mem.specs.PageSize.{IsPageSize};
ghost use Rattle.mig_packet.specs.Reader as channel;
ghost use Rattle.mig_load_types.specs.Settings.{channel_of};

use mig_load_types::LoadSettings;
use mig_mem::NoMemory;
use mig_packet::ChannelReader;
use std::alloc::Allocator;
use uuid::Uuid;

/// Returns how many bytes of a channel, one of `channels`, are complete items without a fault, from
/// the first byte on. If `load_multi_with` finds a fault of that channel (`Fault::Channel`) in the
/// same bytes, the item at fault begins after them. Of the main stream the load returns that number
/// itself (`Loaded::valid_up_to`).
///
/// The call reads the channel once, and holds a copy of its packets until it returns.
///
/// # Errors
///
/// `NoMemory`: an allocation was refused.
pub fn channel_valid_up_to<A: Allocator + Copy>(
    alloc: A,
    settings: LoadSettings,
    uuid: &Uuid,
    channels: usize,
    text: &[u8],
) -> Result<u64, NoMemory>
    requires page_size { IsPageSize settings.page_size }
    requires channels { (1 ≤ channels) × (channels ≤ 255) }
    ensures { IfOk result (channel.IsValidUpTo (channel_of settings uuid.now channels) text.now) }
{
    let mut reader = ChannelReader::new_with(
        alloc,
        settings.page_size,
        *uuid,
        channels,
        settings.waiting,
    );
    let Ok(()) = reader.feed(text) else {
        return Err(NoMemory);
    };
    Ok(reader.valid_up_to())
}
