//! The calls of a table, which is created from ids and pages, or from the first bytes of a stream.

ghost use Rattle.std.specs.Prelude.{◌≡◌, ◌≢◌, ◌⊎◌, None, Some, IsSome, IfOk, IfErr, IfSome, OnOk, length};
ghost use Rattle.std.specs.Option.{option_map};
ghost use Rattle.mig_mem.specs.PageSize.{IsPageSize};
ghost use Rattle.mig_mem.specs.declared.fault.TableFault.TheVariants.{NoMemory as fault_no_memory};
ghost use Rattle.mig_mem.specs.Refusal.{refusal};
ghost use Rattle.mig_c_calls.specs.Blocks.{table_of};
ghost use Rattle.mig_c_calls.specs.Status.{done};
ghost use Rattle.mig_c_loads.specs.FirstTable.{FindsTable, table_settings, status_of, MakesFirst, GivesTableBlock};
ghost use Rattle.mig_stream.specs.declared.item.StreamState.{StreamState};
ghost use Rattle.mig_c.specs.Kinds.{table_in, Tells};
ghost use Rattle.mig_c.specs.Tables.{IsAt, Makes};

use crate::handle::{Handle, TableHandle};
use crate::object::{Object, table_of};
use mig_c_calls::status::{BAD_FRAME, BAD_PAGE_SIZE, DONE, NO_MEMORY};
use mig_c_calls::{NamedBlock, entries};
use mig_c_loads::{find_table, frame_of, read_table_block, table_status};
use mig_mem::{NoMemory, Table, TableFault, is_page_size};
use mig_stream::Frame;
use std::alloc::Global;

// Returns the number of the bad entry, if the fault has one, else 0.
fn entry_of(fault: TableFault) -> usize
    ensures { IsAt fault result }
{
    match fault {
        TableFault::Id(i) | TableFault::IdTwice(i) | TableFault::NoPages(i) => i,
        _ => 0,
    }
}

// Puts a table into a box.
fn boxed(alloc: Global, table: Table<Global>) -> Result<Box<Object>, NoMemory>
    ensures { IfOk result (λ object. table_in (Some object.value) ≡ Some table) }
{
    Ok(Box::new(alloc, Object::Table(table))?)
}

// Creates a table of these blocks in a box.
fn made(alloc: Global, page_size: u64, blocks: &[NamedBlock]) -> Result<Box<Object>, TableFault>
    requires { IsPageSize page_size }
    ensures ok { IfOk result (λ object. table_in (Some object.value) ≡ Some (table_of page_size blocks.now)) }
    ensures lawful { OnOk result (refusal (table_of page_size blocks.now) ≡ None) }
    ensures err { IfErr result (λ e. (e ≡ fault_no_memory) ⊎ (refusal (table_of page_size blocks.now) ≡ Some e)) }
{
    let list = entries(alloc, blocks)?;
    let table = Table::new(alloc, page_size, list)?;
    Ok(boxed(alloc, table)?)
}

/// Creates the table of these blocks, in this order. With 3, 4 and 5 it reports the number of the
/// bad block.
#[unsafe(no_mangle)]
pub extern "C" fn zimgasol_table_new(
    alloc: Global,
    table: &mut TableHandle,
    page_size: u64,
    blocks: &[NamedBlock],
    entry: &mut usize,
) -> u32
    requires none { table.old.handle.value ≡ None }
    ensures makes { Makes page_size blocks.now result entry.new (table_in table.new.handle.value) }
    ensures none { result ≢ 0 → table.new.handle.value ≡ None }
{
    if !is_page_size(page_size) {
        return BAD_PAGE_SIZE;
    }
    match made(alloc, page_size, blocks) {
        Ok(object) => {
            table.handle = Handle::of(object);
            table.full = 1;
            DONE
        }
        Err(fault) => {
            *entry = entry_of(fault);
            u32::from(fault.number())
        }
    }
}

// Creates the table of a stream's first bytes in a box, if they have it. Returns it with a status,
// and how many of the bytes are complete items without a fault.
fn made_first(
    alloc: Global,
    frame: Frame,
    page_size: u64,
    bytes: &[u8],
) -> Result<(Option<Box<Object>>, u32, u64), NoMemory>
    requires { IsPageSize page_size }
    ensures done { IfOk result (λ made. IfSome made.0 (λ _. made.1 ≡ done)) }
    ensures finds { IfOk result (λ made. (state : StreamState) × FindsTable (table_settings frame page_size) bytes.now (table_in (option_map (λ b. b.value) made.0)) state made.2
        × (made.1 ≡ status_of (table_in (option_map (λ b. b.value) made.0)) state)) }
{
    let (found, state, valid) = find_table(alloc, frame, page_size, bytes)?;
    let status = table_status(&found, state);
    match found {
        Some(table) => Ok((Some(boxed(alloc, table)?), status, valid)),
        None => Ok((None, status, valid)),
    }
}

/// Creates the table of the stream that begins with these bytes, read in a frame, if they have it.
/// Returns RUNNING if more bytes are needed, or the number of the fault that stands before it.
/// Reports how many of the bytes are complete items without a fault.
#[unsafe(no_mangle)]
pub extern "C" fn zimgasol_table_of_stream(
    alloc: Global,
    table: &mut TableHandle,
    page_size: u64,
    frame: u32,
    bytes: &[u8],
    at: &mut u64,
) -> u32
    requires none { table.old.handle.value ≡ None }
    ensures makes { MakesFirst page_size frame bytes.now result at.old at.new (table_in table.new.handle.value) }
    ensures none { result ≢ done → table.new.handle.value ≡ None }
{
    if !is_page_size(page_size) {
        return BAD_PAGE_SIZE;
    }
    let Some(frame) = frame_of(frame) else {
        return BAD_FRAME;
    };
    let (made, status, valid) = match made_first(alloc, frame, page_size, bytes) {
        Ok(found) => found,
        Err(NoMemory) => return NO_MEMORY,
    };
    *at = valid;
    if let Some(object) = made {
        table.handle = Handle::of(object);
        table.full = 1;
    }
    status
}

/// Returns how many blocks a table has.
#[unsafe(no_mangle)]
pub extern "C" fn zimgasol_table_blocks(alloc: Global, table: &mut TableHandle) -> usize
    requires table { IsSome (table_in table.old.handle.value) }
    ensures same { table.new.handle.value ≡ table.old.handle.value }
    ensures count { Tells (λ t. result ≡ length t.blocks) (table_in table.old.handle.value) }
{
    let object = table.handle.take().into_box(alloc);
    let number = table_of(&object).len();
    table.handle = Handle::of(object);
    number
}

/// Reports the id of a table's block, and its number of pages.
#[unsafe(no_mangle)]
pub extern "C" fn zimgasol_table_block(
    alloc: Global,
    table: &mut TableHandle,
    i: usize,
    out: &mut NamedBlock,
) -> u32
    requires table { IsSome (table_in table.old.handle.value) }
    ensures same { table.new.handle.value ≡ table.old.handle.value }
    ensures gives { Tells (GivesTableBlock i result out.old out.new) (table_in table.old.handle.value) }
{
    let object = table.handle.take().into_box(alloc);
    let status = read_table_block(table_of(&object), i, out);
    table.handle = Handle::of(object);
    status
}

/// Frees a table. An empty handle stays as it is.
#[unsafe(no_mangle)]
pub extern "C" fn zimgasol_table_free(alloc: Global, table: &mut TableHandle)
    ensures none { table.new.handle.value ≡ None }
{
    if table.full != 0 {
        let _object = table.handle.take().into_box(alloc);
        table.full = 0;
    }
}
