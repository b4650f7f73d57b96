//! The calls on a file with mapped-ram: of one that is loaded, and of one that is sent. C reads and
//! writes the file, each page between its place in memory and its offset in the file.

ghost use Rattle.std.specs.Prelude.{◌≡◌, ◌≢◌, IsSome, IfOk, IfErr, None, Some};
ghost use Rattle.mig_c_calls.specs.Status.{done};
ghost use Rattle.mig_c.specs.Kinds.{table_in, file_in, sent_in, Lays, Turns, Tells};
ghost use Rattle.mig_c_mapped.specs.Loads.{OpensFile, TakesBytes, CopiesTable, LiesAt};
ghost use Rattle.mig_c_mapped.specs.Runs.{TellsRun};
ghost use Rattle.mig_c_mapped.specs.Sends.{MarksPage, GivesPart};

use crate::handle::{FileHandle, Handle, SentHandle, TableHandle};
use crate::object::{Object, file_of, sent_of, table_of};
use mig_c_calls::status::{DONE, NO_MEMORY};
use mig_c_mapped::{FilePart, FileRun, MappedFile, SentFile, open_file, status_of};
use mig_mem::{NoMemory, Place, Table};
use std::alloc::Global;

// ---- a file that is loaded

// Puts a file into a box.
fn boxed(alloc: Global, file: MappedFile) -> Result<Box<Object>, NoMemory>
    ensures { IfOk result (λ object. file_in (Some object.value) ≡ Some file) }
{
    Ok(Box::new(alloc, Object::File(file))?)
}

// Begins the load of a file in a box, or returns why there is none.
fn opened(
    alloc: Global,
    page_size: u64,
    big_endian: bool,
    base: u64,
    bytes: &[u8],
) -> Result<Box<Object>, u32>
    ensures ok { IfOk result (λ object. OpensFile page_size big_endian base bytes.now done (file_in (Some object.value))) }
    ensures err { IfErr result (λ status. OpensFile page_size big_endian base bytes.now status None) }
    ensures refused { IfErr result (λ status. status ≢ done) }
{
    let file = match open_file(alloc, page_size, big_endian, base, bytes) {
        Ok(file) => file,
        Err(status) => return Err(status),
    };
    match boxed(alloc, file) {
        Ok(object) => Ok(object),
        Err(NoMemory) => Err(NO_MEMORY),
    }
}

/// Begins the load of a file whose stream begins with these bytes, at the byte `base` of the file.
/// Reports where the first block's head lies. Returns RUNNING if they aren't the front of such a
/// file, or not all of it.
#[unsafe(no_mangle)]
pub extern "C" fn zimgasol_mapped_load_new(
    alloc: Global,
    load: &mut FileHandle,
    page_size: u64,
    big_endian: bool,
    base: u64,
    bytes: &[u8],
    place: &mut u64,
) -> u32
    requires none { load.old.handle.value ≡ None }
    ensures opens { OpensFile page_size big_endian base bytes.now result (file_in load.new.handle.value) }
    ensures none { result ≢ done → load.new.handle.value ≡ None }
    ensures place { Tells (LiesAt place.new) (file_in load.new.handle.value) }
    ensures same { result ≢ done → place.new ≡ place.old }
{
    match opened(alloc, page_size, big_endian, base, bytes) {
        Ok(object) => {
            *place = file_of(&object).place();
            load.handle = Handle::of(object);
            load.full = 1;
            DONE
        }
        Err(status) => status,
    }
}

fn take(object: &mut Object, bytes: &[u8], place: &mut u64) -> u32
    requires file { IsSome (file_in (Some object.old)) }
    ensures turns { Turns (TakesBytes bytes.now result place.new) (file_in (Some object.old)) (file_in (Some object.new)) }
{
    match object {
        Object::File(file) => {
            let taken = file.take(bytes);
            *place = file.place();
            status_of(taken)
        }
        _ => unreachable!(),
    }
}

/// Takes bytes of the file from the byte `place` on, which it reports: the next block's head, or
/// what follows the last block's pages. Reports where the next bytes lie.
#[unsafe(no_mangle)]
pub extern "C" fn zimgasol_mapped_load_take(
    alloc: Global,
    load: &mut FileHandle,
    bytes: &[u8],
    place: &mut u64,
) -> u32
    requires load { IsSome (file_in load.old.handle.value) }
    ensures turns { Turns (TakesBytes bytes.now result place.new) (file_in load.old.handle.value) (file_in load.new.handle.value) }
{
    let mut object = load.handle.take().into_box(alloc);
    let status = take(&mut object, bytes, place);
    load.handle = Handle::of(object);
    status
}

// Puts a table into a box.
fn boxed_table(alloc: Global, table: Table<Global>) -> Result<Box<Object>, NoMemory>
    ensures { IfOk result (λ object. table_in (Some object.value) ≡ Some table) }
{
    Ok(Box::new(alloc, Object::Table(table))?)
}

// Copies the table of a file into a box, or returns why there is none.
fn copied_table(alloc: Global, file: &MappedFile) -> Result<Box<Object>, u32>
    ensures ok { IfOk result (λ object. CopiesTable done (table_in (Some object.value)) file.now) }
    ensures err { IfErr result (λ status. CopiesTable status None file.now) }
    ensures refused { IfErr result (λ status. status ≢ done) }
{
    let table = match file.table(alloc) {
        Ok(table) => table,
        Err(status) => return Err(status),
    };
    match boxed_table(alloc, table) {
        Ok(object) => Ok(object),
        Err(NoMemory) => Err(NO_MEMORY),
    }
}

/// Makes the table of the file's blocks, once the heads of all of them were taken.
#[unsafe(no_mangle)]
pub extern "C" fn zimgasol_mapped_load_table(
    alloc: Global,
    load: &mut FileHandle,
    table: &mut TableHandle,
) -> u32
    requires load { IsSome (file_in load.old.handle.value) }
    requires none { table.old.handle.value ≡ None }
    ensures copies { Tells (CopiesTable result (table_in table.new.handle.value)) (file_in load.old.handle.value) }
    ensures none { result ≢ done → table.new.handle.value ≡ None }
    ensures same { load.new.handle.value ≡ load.old.handle.value }
{
    let object = load.handle.take().into_box(alloc);
    let made = copied_table(alloc, file_of(&object));
    load.handle = Handle::of(object);
    match made {
        Ok(object) => {
            table.handle = Handle::of(object);
            table.full = 1;
            DONE
        }
        Err(status) => status,
    }
}

/// Reports the first pages of a block, from page `from` on, whose contents the file has, and where
/// they lie. The pages before them are zeros.
#[unsafe(no_mangle)]
pub extern "C" fn zimgasol_mapped_load_run(
    alloc: Global,
    load: &mut FileHandle,
    block: usize,
    from: u64,
    run: &mut FileRun,
) -> u32
    requires load { IsSome (file_in load.old.handle.value) }
    ensures same { load.new.handle.value ≡ load.old.handle.value }
    ensures tells { Tells (TellsRun block from result run.old run.new) (file_in load.old.handle.value) }
{
    let object = load.handle.take().into_box(alloc);
    let status = file_of(&object).run(block, from, run);
    load.handle = Handle::of(object);
    status
}

/// Frees the load of a file. An empty handle stays as it is.
#[unsafe(no_mangle)]
pub extern "C" fn zimgasol_mapped_load_free(alloc: Global, load: &mut FileHandle)
    ensures none { load.new.handle.value ≡ None }
{
    if load.full != 0 {
        let _object = load.handle.take().into_box(alloc);
        load.full = 0;
    }
}

// ---- a file that is sent

// Puts a send into a box.
fn boxed_send(alloc: Global, sent: SentFile) -> Result<Box<Object>, NoMemory>
    ensures { IfOk result (λ object. sent_in (Some object.value) ≡ Some sent) }
{
    Ok(Box::new(alloc, Object::Sent(sent))?)
}

// Begins a send in a box, or returns why there is none.
fn laid(alloc: Global, table: &Object, big_endian: bool, name: &[u8]) -> Result<Box<Object>, u32>
    requires { IsSome (table_in (Some table.now)) }
    ensures ok { IfOk result (λ object. Lays (table_in (Some table.now)) big_endian name.now done (sent_in (Some object.value))) }
    ensures err { IfErr result (λ status. Lays (table_in (Some table.now)) big_endian name.now status None) }
    ensures refused { IfErr result (λ status. status ≢ done) }
{
    let sent = match SentFile::new(alloc, table_of(table), big_endian, name) {
        Ok(sent) => sent,
        Err(status) => return Err(status),
    };
    match boxed_send(alloc, sent) {
        Ok(object) => Ok(object),
        Err(NoMemory) => Err(NO_MEMORY),
    }
}

/// Begins a send of a table, which it copies, as the file of a machine with this name.
#[unsafe(no_mangle)]
pub extern "C" fn zimgasol_mapped_send_new(
    alloc: Global,
    send: &mut SentHandle,
    table: &mut TableHandle,
    big_endian: bool,
    name: &[u8],
) -> u32
    requires none { send.old.handle.value ≡ None }
    requires table { IsSome (table_in table.old.handle.value) }
    ensures opens { Lays (table_in table.old.handle.value) big_endian name.now result (sent_in send.new.handle.value) }
    ensures none { result ≢ done → send.new.handle.value ≡ None }
    ensures table { table.new.handle.value ≡ table.old.handle.value }
{
    let object = table.handle.take().into_box(alloc);
    let made = laid(alloc, &object, big_endian, name);
    table.handle = Handle::of(object);
    match made {
        Ok(object) => {
            send.handle = Handle::of(object);
            send.full = 1;
            DONE
        }
        Err(status) => status,
    }
}

fn mark(object: &mut Object, place: Place, has_content: bool, offset: &mut u64) -> u32
    requires sent { IsSome (sent_in (Some object.old)) }
    ensures turns { Turns (MarksPage place has_content result offset.old offset.new) (sent_in (Some object.old)) (sent_in (Some object.new)) }
{
    match object {
        Object::Sent(sent) => sent.mark(place, has_content, offset),
        _ => unreachable!(),
    }
}

/// Sets the bit of a page, or clears it for a page of zeros, and reports the page's offset.
#[unsafe(no_mangle)]
pub extern "C" fn zimgasol_mapped_send_mark(
    alloc: Global,
    send: &mut SentHandle,
    block: usize,
    page: u64,
    has_content: bool,
    offset: &mut u64,
) -> u32
    requires send { IsSome (sent_in send.old.handle.value) }
    ensures turns { Turns (MarksPage (record { block = block; page = page }) has_content result offset.old offset.new) (sent_in send.old.handle.value) (sent_in send.new.handle.value) }
{
    let mut object = send.handle.take().into_box(alloc);
    let place = Place { block, page };
    let status = mark(&mut object, place, has_content, offset);
    send.handle = Handle::of(object);
    status
}

/// Copies a part of the file that isn't a page to the front of a buffer, and reports where it lies.
#[unsafe(no_mangle)]
pub extern "C" fn zimgasol_mapped_send_part(
    alloc: Global,
    send: &mut SentHandle,
    part: usize,
    out: &mut [u8],
    at: &mut FilePart,
) -> u32
    requires send { IsSome (sent_in send.old.handle.value) }
    ensures same { send.new.handle.value ≡ send.old.handle.value }
    ensures gives { Tells (GivesPart part result out.old out.new at.old at.new) (sent_in send.old.handle.value) }
{
    let object = send.handle.take().into_box(alloc);
    let status = sent_of(&object).part(alloc, part, out, at);
    send.handle = Handle::of(object);
    status
}

/// Frees a send as a file. An empty handle stays as it is.
#[unsafe(no_mangle)]
pub extern "C" fn zimgasol_mapped_send_free(alloc: Global, send: &mut SentHandle)
    ensures none { send.new.handle.value ≡ None }
{
    if send.full != 0 {
        let _object = send.handle.take().into_box(alloc);
        send.full = 0;
    }
}
