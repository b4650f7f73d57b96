//! The loader of a complete single stream: for the tool, and for callers that have such a stream.

ghost use Rattle.std.specs.Prelude.{◌≡◌, ◌≤◌, ◌^◌, ◌⊎◌, List, All};
ghost use Rattle.mig_mem.specs.PageSize.{IsPageSize};
ghost use Rattle.mig_mem.specs.RamTable.{RamTable, IsTable};
ghost use Rattle.mig_mem.specs.Image.{Page};
ghost use Rattle.mig_mem.specs.Round.{IsRound};
ghost use Rattle.mig_stream.specs.declared.item.Frame.TheVariants.{Ram, Machine};
ghost use Rattle.mig_stream.specs.Text.{total_bytes};
ghost use Rattle.mig_stream.specs.Written.{single};
ghost use Rattle.mig_load_types.specs.Settings.{ram_settings, LetsThrough};
ghost use Rattle.mig_single_load.specs.SingleLoad.{IsSingleAnswer, IsSingleWithoutMemory, HasLoadedRounds};
ghost use Rattle.mig_single_load.specs.MachineSent.{IsSent, IsMachineSent};

use crate::at_once::load_at_once;
use crate::settle::{answer, settle, without_memory};
use mig_load_types::{LoadSettings, Loaded};
use mig_stream::{Mode, StreamReader};
use std::alloc::Allocator;

/// Loads a guest from the complete single stream `text`, whose pages have `page_size` bytes, and
/// whose blocks may have `limit` bytes together. The bytes after the end byte aren't read. A stream
/// without a fault is read once. Any other is read a second time, into a new memory.
///
/// # Errors
///
/// A failed verdict has a fault of the stream (`Fault::Stream`, 11 to 34), or `NoMemory`, if an
/// allocation was refused, and no other `Fault`.
pub fn load_single<A: Allocator + Copy>(
    alloc: A,
    page_size: u64,
    text: &[u8],
    limit: u64,
) -> Loaded<A>
    requires page_size { IsPageSize page_size }
    requires limit { limit ≤ 2 ^ 40 }
    ensures answer { IsSingleAnswer (ram_settings page_size limit) text.now result ⊎ IsSingleWithoutMemory (ram_settings page_size limit) text.now result }
    ensures sent { (table : RamTable) (rounds : List (List Page)) → IsTable table → table.page_size ≡ page_size → total_bytes table ≤ limit
        → All (IsRound table) rounds → text.now ≡ single table rounds → HasLoadedRounds table rounds result ⊎ IsSingleWithoutMemory (ram_settings page_size limit) text.now result }
{
    load_single_with(alloc, LoadSettings::new(page_size, limit), text)
}

/// Loads a guest from the complete single stream `text`, read with `settings`. The bytes after the
/// stream aren't read: those after its end byte, or in a machine's stream those after the footer of
/// RAM's END. A stream without a fault is read once. Any other is read a second time, into a new
/// memory.
///
/// # Errors
///
/// A failed verdict has one of these, and no other `Fault`:
///
/// - `Fault::Stream`: a fault of the stream, 11 to 34, in a machine's stream also 46 to 49, and 64
///   if a section has more page records than `settings.waiting`.
/// - `NoMemory`: an allocation was refused.
pub fn load_single_with<A: Allocator + Copy>(
    alloc: A,
    settings: LoadSettings,
    text: &[u8],
) -> Loaded<A>
    requires page_size { IsPageSize settings.page_size }
    requires limit { settings.limit ≤ 2 ^ 40 }
    ensures answer { IsSingleAnswer settings text.now result ⊎ IsSingleWithoutMemory settings text.now result }
    ensures sent { (table : RamTable) (rounds : List (List Page)) → settings.frame ≡ Ram → LetsThrough settings.waiting rounds → table.page_size ≡ settings.page_size
        → IsSent settings.limit table rounds text.now → HasLoadedRounds table rounds result ⊎ IsSingleWithoutMemory settings text.now result }
    ensures machine { (table : RamTable) (rounds : List (List Page)) → settings.frame ≡ Machine → LetsThrough settings.waiting rounds → table.page_size ≡ settings.page_size
        → IsMachineSent settings.limit table rounds text.now → HasLoadedRounds table rounds result ⊎ IsSingleWithoutMemory settings text.now result }
{
    match load_at_once(alloc, settings, text) {
        Ok(Some(loaded)) => loaded,
        Ok(None) => load(alloc, settings, text),
        Err(_) => without_memory(),
    }
}

// Reads the stream `text`, and applies its sections, each when it is complete.
fn load<A: Allocator + Copy>(alloc: A, settings: LoadSettings, text: &[u8]) -> Loaded<A>
    requires page_size { IsPageSize settings.page_size }
    requires limit { settings.limit ≤ 2 ^ 40 }
    ensures { IsSingleAnswer settings text.now result ⊎ IsSingleWithoutMemory settings text.now result }
{
    let Ok(mut reader) = StreamReader::of_text_with(
        alloc,
        settings.frame,
        Mode::Single,
        settings.page_size,
        settings.limit,
        settings.waiting,
        text,
    ) else {
        return without_memory();
    };
    reader.end();
    let mut target = None;
    let Ok(()) = settle(alloc, &mut reader, &mut target) else {
        return without_memory();
    };
    answer(&reader, target)
}
