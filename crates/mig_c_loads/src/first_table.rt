//! The table of a stream, read from its first bytes: so a caller finds the blocks of a file, and
//! maps what it loads into.

ghost use Rattle.std.specs.Prelude.{◌≡◌, ◌≤◌, ◌↔◌, IsTrue, IfOk, length};
ghost use Rattle.mig_c_calls.specs.Blocks.{named_id};
ghost use Rattle.mig_stream.specs.declared.item.StreamState.TheVariants.{Reading as reading};
ghost use Rattle.mig_mem.specs.PageSize.{IsPageSize};
ghost use Rattle.mig_c_loads.specs.FirstTable.{FindsTable, table_settings, status_of, GivesTableBlock};

use mig_c_calls::NamedBlock;
use mig_c_calls::status::{DONE, MAX_LIMIT, NO_PAGE, RUNNING};
use mig_mem::{NoMemory, Table};
use mig_stream::{Frame, Mode, StreamReader, StreamState};
use std::alloc::Global;

// How many bytes are read at once: a table of a few blocks ends within them.
const PIECE: usize = 4096;

fn is_reading(state: StreamState) -> bool
    ensures { IsTrue result ↔ state ≡ reading }
{
    matches!(state, StreamState::Reading)
}

/// Returns the table of the stream that begins with these bytes, if they have it, the state of the
/// stream as far as it was read, and how many bytes of it are complete items without a fault. It
/// reads no more than it needs, by pieces.
pub fn find_table(
    alloc: Global,
    frame: Frame,
    page_size: u64,
    bytes: &[u8],
) -> Result<(Option<Table<Global>>, StreamState, u64), NoMemory>
    requires { IsPageSize page_size }
    ensures { IfOk result (λ found. FindsTable (table_settings frame page_size) bytes.now found.0 found.1 found.2) }
{
    let mut reader: StreamReader<'static, Global> = StreamReader::new_with(
        alloc,
        frame,
        Mode::Single,
        page_size,
        MAX_LIMIT,
        None,
    );
    let mut read = 0;
    'pieces: loop {
        let state = reader.state();
        let valid = reader.valid_up_to();
        if let Some(table) = reader.table() {
            return Ok((Some(table.copy_in(alloc)?), state, valid));
        }
        if read >= bytes.len() || !is_reading(state) {
            return Ok((None, state, valid));
        }
        let len = PIECE.min(bytes.len() - read);
        reader.feed(&bytes[read..read + len])?;
        read += len;
    }
}

/// Returns the status of a stream whose table was looked for.
pub fn table_status(found: &Option<Table<Global>>, state: StreamState) -> u32
    ensures { result ≡ status_of found.now state }
{
    match (found, state) {
        (Some(_), _) => DONE,
        (None, StreamState::Bad(fault)) => u32::from(fault.number()),
        (None, _) => RUNNING,
    }
}

// Returns a block's id, then zeros.
fn filled(id: &[u8]) -> [u8; 256]
    requires { length id.now ≤ 255 }
    ensures { result ≡ named_id id.now }
{
    let mut bytes = [0; 256];
    bytes[..id.len()].copy_from_slice(id);
    bytes
}

/// Reports the id of a table's block, and its number of pages.
pub fn read_table_block(table: &Table<Global>, i: usize, out: &mut NamedBlock) -> u32
    ensures { GivesTableBlock i result out.old out.new table.now }
{
    if i >= table.len() {
        return NO_PAGE;
    }
    *out = NamedBlock {
        id: filled(table.id(i)),
        pages: table.pages(i),
    };
    DONE
}
