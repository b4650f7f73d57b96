//! The calls of a load into blocks of C: of one stream, or of a main stream and its channels, which
//! is fed in pieces by source. By its settings each page is written as soon as its bytes have
//! arrived, or each round once it was judged. C may read pages straight to their places, apart from
//! the calls: those of one stream by `wanted`, those of channels by `claim`.

ghost use Rattle.std.specs.Prelude.{◌≡◌, ◌≢◌, IsSome, IfOk, IfErr, None, Some};
ghost use Rattle.mig_mem.specs.Lent.{mut_lent_bytes, lent_bytes};
ghost use Rattle.mig_c_calls.specs.Status.{done};
ghost use Rattle.mig_c.specs.Kinds.{table_in, load_in, filled_in, Opens, Turns, Tells};
ghost use Rattle.mig_c_loads.specs.Frames.{source_of};
ghost use Rattle.mig_c_loads.specs.Loads.{Feeds, Ends, ReadsPage, Claims, Takes, TellsTakesOf, TellsWanted, TellsVerdict, TellsFaultOf, TellsRounds};
ghost use Rattle.mig_c_loads.specs.Standing.{TellsStanding, TellsSource};
ghost use Rattle.mig_c_loads.specs.ZeroBlocks.{AreZerosBut};

use crate::handle::{Handle, LoadHandle, TableHandle};
use crate::object::{Object, load_of, table_of};
use mig_c_calls::status::{DONE, NO_MEMORY};
use mig_c_loads::{
    AskedSettings, ClaimedPages, Fed, FoundFault, Load, NextBytes, SourceBytes, Standing, source_of,
};
use mig_mem::NoMemory;
use mig_sources::Source;
use std::alloc::Global;

// ---- a load that begins

// Puts a load into a box.
fn boxed(alloc: Global, load: Load) -> Result<Box<Object>, NoMemory>
    ensures { IfOk result (λ object. load_in (Some object.value) ≡ Some load) }
{
    Ok(Box::new(alloc, Object::Load(load))?)
}

// Makes a load in a box, or returns why there is none.
fn opened(
    alloc: Global,
    table: &Object,
    uuid: &[u8],
    channels: usize,
    settings: &AskedSettings,
) -> Result<Box<Object>, u32>
    requires { IsSome (table_in (Some table.now)) }
    ensures ok { IfOk result (λ object. Opens (table_in (Some table.now)) uuid.now channels settings.now done (load_in (Some object.value))) }
    ensures err { IfErr result (λ status. Opens (table_in (Some table.now)) uuid.now channels settings.now status None) }
    ensures refused { IfErr result (λ status. status ≢ done) }
{
    let load = match Load::new(alloc, table_of(table), uuid, channels, settings) {
        Ok(load) => load,
        Err(status) => return Err(status),
    };
    match boxed(alloc, load) {
        Ok(object) => Ok(object),
        Err(NoMemory) => Err(NO_MEMORY),
    }
}

/// Makes a load that took nothing, into blocks of a table, of which it keeps copies, with these
/// settings: of one stream if there are no channels, or of so many channels under a UUID of 16
/// bytes.
#[unsafe(no_mangle)]
pub extern "C" fn zimgasol_load_new(
    alloc: Global,
    load: &mut LoadHandle,
    table: &mut TableHandle,
    uuid: &[u8],
    channels: usize,
    settings: &AskedSettings,
) -> u32
    requires none { load.old.handle.value ≡ None }
    requires table { IsSome (table_in table.old.handle.value) }
    ensures opens { Opens (table_in table.old.handle.value) uuid.now channels settings.now result (load_in load.new.handle.value) }
    ensures none { result ≢ done → load.new.handle.value ≡ None }
    ensures table { table.new.handle.value ≡ table.old.handle.value }
{
    let object = table.handle.take().into_box(alloc);
    let made = opened(alloc, &object, uuid, channels, settings);
    table.handle = Handle::of(object);
    match made {
        Ok(object) => {
            load.handle = Handle::of(object);
            load.full = 1;
            DONE
        }
        Err(status) => status,
    }
}

// ---- bytes that are fed

fn feed(
    alloc: Global,
    object: &mut Object,
    blocks: &mut [&mut [u8]],
    source: Source,
    piece: &[u8],
    fed: &mut Fed,
) -> u32
    requires load { IsSome (load_in (Some object.old)) }
    requires zeros { AreZerosBut (filled_in (load_in (Some object.old))) (mut_lent_bytes blocks.old) }
    ensures turns { Turns (Feeds source piece.now (mut_lent_bytes blocks.old) (mut_lent_bytes blocks.new) fed.new.taken result) (load_in (Some object.old)) (load_in (Some object.new)) }
    ensures rounds { Tells (TellsRounds fed.new.rounds) (load_in (Some object.new)) }
    ensures zeros { AreZerosBut (filled_in (load_in (Some object.new))) (mut_lent_bytes blocks.new) }
{
    match object {
        Object::Load(load) => load.feed(alloc, blocks, source, piece, fed),
        _ => unreachable!(),
    }
}

/// Takes the first bytes of a piece of a source, and writes pages into the blocks, while nothing is
/// claimed: of a channel up to the end of the current round, of the main stream all. Reports how
/// many bytes it took, and how many rounds are counted then.
#[unsafe(no_mangle)]
pub extern "C" fn zimgasol_load_feed(
    alloc: Global,
    load: &mut LoadHandle,
    blocks: &mut [&mut [u8]],
    source: usize,
    piece: &[u8],
    fed: &mut Fed,
) -> u32
    requires load { IsSome (load_in load.old.handle.value) }
    requires zeros { AreZerosBut (filled_in (load_in load.old.handle.value)) (mut_lent_bytes blocks.old) }
    ensures turns { Turns (Feeds (source_of source) piece.now (mut_lent_bytes blocks.old) (mut_lent_bytes blocks.new) fed.new.taken result) (load_in load.old.handle.value) (load_in load.new.handle.value) }
    ensures rounds { Tells (TellsRounds fed.new.rounds) (load_in load.new.handle.value) }
    ensures zeros { AreZerosBut (filled_in (load_in load.new.handle.value)) (mut_lent_bytes blocks.new) }
{
    let mut object = load.handle.take().into_box(alloc);
    let status = feed(alloc, &mut object, blocks, source_of(source), piece, fed);
    load.handle = Handle::of(object);
    status
}

/// Returns whether bytes of a source are taken now.
#[unsafe(no_mangle)]
pub extern "C" fn zimgasol_load_takes(alloc: Global, load: &mut LoadHandle, source: usize) -> bool
    requires load { IsSome (load_in load.old.handle.value) }
    ensures same { load.new.handle.value ≡ load.old.handle.value }
    ensures tells { Tells (TellsTakesOf (source_of source) result) (load_in load.old.handle.value) }
{
    let object = load.handle.take().into_box(alloc);
    let result = load_of(&object).takes(source_of(source));
    load.handle = Handle::of(object);
    result
}

fn end(object: &mut Object, source: Source) -> u32
    requires load { IsSome (load_in (Some object.old)) }
    ensures turns { Turns (Ends source result) (load_in (Some object.old)) (load_in (Some object.new)) }
{
    match object {
        Object::Load(load) => load.end(source),
        _ => unreachable!(),
    }
}

/// Ends a source, all of whose bytes were taken.
#[unsafe(no_mangle)]
pub extern "C" fn zimgasol_load_end(alloc: Global, load: &mut LoadHandle, source: usize) -> u32
    requires load { IsSome (load_in load.old.handle.value) }
    ensures turns { Turns (Ends (source_of source) result) (load_in load.old.handle.value) (load_in load.new.handle.value) }
{
    let mut object = load.handle.take().into_box(alloc);
    let status = end(&mut object, source_of(source));
    load.handle = Handle::of(object);
    status
}

// ---- pages that C reads to their places

/// Reports what the next bytes of one stream are: bytes to feed, or a page with its place in the
/// blocks. Returns false if no more of the stream is read, and of several channels.
#[unsafe(no_mangle)]
pub extern "C" fn zimgasol_load_wanted(
    alloc: Global,
    load: &mut LoadHandle,
    next: &mut NextBytes,
) -> bool
    requires load { IsSome (load_in load.old.handle.value) }
    ensures same { load.new.handle.value ≡ load.old.handle.value }
    ensures tells { Tells (TellsWanted result next.old next.new) (load_in load.old.handle.value) }
{
    let object = load.handle.take().into_box(alloc);
    let result = load_of(&object).wanted(next);
    load.handle = Handle::of(object);
    result
}

fn page_read(object: &mut Object, blocks: &[&mut [u8]]) -> u32
    requires load { IsSome (load_in (Some object.old)) }
    ensures turns { Turns (ReadsPage (mut_lent_bytes blocks.now) result) (load_in (Some object.old)) (load_in (Some object.new)) }
{
    match object {
        Object::Load(load) => load.page_read(blocks),
        _ => unreachable!(),
    }
}

/// Takes the page that comes next in one stream, which the caller has read into its block.
#[unsafe(no_mangle)]
pub extern "C" fn zimgasol_load_page_read(
    alloc: Global,
    load: &mut LoadHandle,
    blocks: &[&mut [u8]],
) -> u32
    requires load { IsSome (load_in load.old.handle.value) }
    ensures turns { Turns (ReadsPage (mut_lent_bytes blocks.now) result) (load_in load.old.handle.value) (load_in load.new.handle.value) }
{
    let mut object = load.handle.take().into_box(alloc);
    let status = page_read(&mut object, blocks);
    load.handle = Handle::of(object);
    status
}

fn claim(object: &mut Object, channel: usize, head: &[u8], pages: &mut ClaimedPages) -> u32
    requires load { IsSome (load_in (Some object.old)) }
    ensures turns { Turns (Claims channel head.now result pages.old pages.new) (load_in (Some object.old)) (load_in (Some object.new)) }
{
    match object {
        Object::Load(load) => load.claim(channel, head, pages),
        _ => unreachable!(),
    }
}

/// Claims the places of the next packet of a channel, by its head, and reports its pages.
#[unsafe(no_mangle)]
pub extern "C" fn zimgasol_load_claim(
    alloc: Global,
    load: &mut LoadHandle,
    channel: usize,
    head: &[u8],
    pages: &mut ClaimedPages,
) -> u32
    requires load { IsSome (load_in load.old.handle.value) }
    ensures turns { Turns (Claims channel head.now result pages.old pages.new) (load_in load.old.handle.value) (load_in load.new.handle.value) }
{
    let mut object = load.handle.take().into_box(alloc);
    let status = claim(&mut object, channel, head, pages);
    load.handle = Handle::of(object);
    status
}

fn take(object: &mut Object, channel: usize, head: &[u8], contents: &[&[u8]]) -> u32
    requires load { IsSome (load_in (Some object.old)) }
    ensures turns { Turns (Takes channel head.now (lent_bytes contents.now) result) (load_in (Some object.old)) (load_in (Some object.new)) }
{
    match object {
        Object::Load(load) => load.take(channel, head, contents),
        _ => unreachable!(),
    }
}

/// Takes the packet of a channel whose places were claimed, once its pages are there.
#[unsafe(no_mangle)]
pub extern "C" fn zimgasol_load_take(
    alloc: Global,
    load: &mut LoadHandle,
    channel: usize,
    head: &[u8],
    contents: &[&[u8]],
) -> u32
    requires load { IsSome (load_in load.old.handle.value) }
    ensures turns { Turns (Takes channel head.now (lent_bytes contents.now) result) (load_in load.old.handle.value) (load_in load.new.handle.value) }
{
    let mut object = load.handle.take().into_box(alloc);
    let status = take(&mut object, channel, head, contents);
    load.handle = Handle::of(object);
    status
}

// ---- how the load stands

/// Reports the verdict on the bytes taken, or that more of them are needed.
#[unsafe(no_mangle)]
pub extern "C" fn zimgasol_load_verdict(
    alloc: Global,
    load: &mut LoadHandle,
    found: &mut FoundFault,
) -> u32
    requires load { IsSome (load_in load.old.handle.value) }
    ensures same { load.new.handle.value ≡ load.old.handle.value }
    ensures number { found.new.number ≡ result }
    ensures tells { Tells (TellsVerdict found.new) (load_in load.old.handle.value) }
{
    let object = load.handle.take().into_box(alloc);
    let fault = load_of(&object).verdict();
    load.handle = Handle::of(object);
    *found = fault;
    fault.number
}

/// Reports the fault of a source's own bytes, or that they have none, whatever other sources have.
#[unsafe(no_mangle)]
pub extern "C" fn zimgasol_load_fault_of(
    alloc: Global,
    load: &mut LoadHandle,
    source: usize,
    found: &mut FoundFault,
) -> u32
    requires load { IsSome (load_in load.old.handle.value) }
    ensures same { load.new.handle.value ≡ load.old.handle.value }
    ensures tells { Tells (TellsFaultOf (source_of source) result found.old found.new) (load_in load.old.handle.value) }
{
    let object = load.handle.take().into_box(alloc);
    let status = load_of(&object).fault_of(source_of(source), found);
    load.handle = Handle::of(object);
    status
}

/// Reports how the load stands: its rounds, the pages that nothing named, those that are claimed,
/// whether all rounds are in, and how many bytes the main stream has, once it is closed.
#[unsafe(no_mangle)]
pub extern "C" fn zimgasol_load_standing(alloc: Global, load: &mut LoadHandle, out: &mut Standing)
    requires load { IsSome (load_in load.old.handle.value) }
    ensures same { load.new.handle.value ≡ load.old.handle.value }
    ensures tells { Tells (TellsStanding out.new) (load_in load.old.handle.value) }
{
    let object = load.handle.take().into_box(alloc);
    *out = load_of(&object).standing();
    load.handle = Handle::of(object);
}

/// Reports how many bytes of a source were taken, and how many of them are complete items without a
/// fault, if it is known. Of a source that there isn't it reports zeros.
#[unsafe(no_mangle)]
pub extern "C" fn zimgasol_load_source(
    alloc: Global,
    load: &mut LoadHandle,
    source: usize,
    out: &mut SourceBytes,
)
    requires load { IsSome (load_in load.old.handle.value) }
    ensures same { load.new.handle.value ≡ load.old.handle.value }
    ensures tells { Tells (TellsSource (source_of source) out.new) (load_in load.old.handle.value) }
{
    let object = load.handle.take().into_box(alloc);
    *out = load_of(&object).source(source_of(source));
    load.handle = Handle::of(object);
}

/// Frees a load. The blocks stay the caller's. An empty handle stays as it is.
#[unsafe(no_mangle)]
pub extern "C" fn zimgasol_load_free(alloc: Global, load: &mut LoadHandle)
    ensures none { load.new.handle.value ≡ None }
{
    if load.full != 0 {
        let _object = load.handle.take().into_box(alloc);
        load.full = 0;
    }
}
