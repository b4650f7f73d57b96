//! The calls of a send: of one stream, whose rounds are put page by page, or of a main stream and
//! channels, whose rounds workers pack on threads of the caller's. Each worker has a handle of its
//! own (`worker`), and shares the round's deal with the others. No two threads share a handle.

ghost use Rattle.std.specs.Prelude.{◌≡◌, ◌≢◌, IsSome, IfOk, IfErr, None, Some, map};
ghost use Rattle.mig_mem.specs.Bitmaps.{lent_words};
ghost use Rattle.mig_mem.specs.Place.{place_at};
ghost use Rattle.mig_c_calls.specs.Status.{done};
ghost use Rattle.mig_c_calls.specs.Multi.{place_of};
ghost use Rattle.mig_c_calls.specs.Send.{OpensSend, BeginsRound, BeginsPages, BeginsBitmaps, PutsPage, HandsOutWorker, IsOfRound, TakesBackWorker, EndsRound, CancelsRound, Finishes, channel_of, Drains, Peeks, Skips, Counts};
ghost use Rattle.mig_c.specs.Kinds.{table_in, send_in, worker_in, Turns, Tells};

use crate::handle::{Handle, SendHandle, TableHandle, WorkerHandle};
use crate::object::{Object, table_of};
use mig_c_calls::status::{DONE, NO_MEMORY};
use mig_c_calls::{AskedSend, GuestSend, NamedPlace};
use mig_mem::{NoMemory, Place};
use std::alloc::Global;

// ---- a send that begins

// Puts a send into a box.
fn boxed(alloc: Global, send: GuestSend) -> Result<Box<Object>, NoMemory>
    ensures { IfOk result (λ object. send_in (Some object.value) ≡ Some send) }
{
    Ok(Box::new(alloc, Object::Send(send))?)
}

// Makes a send in a box, or returns why there is none.
fn opened(alloc: Global, table: &Object, settings: &AskedSend) -> Result<Box<Object>, u32>
    requires { IsSome (table_in (Some table.now)) }
    ensures ok { IfOk result (λ object. Tells (λ t. OpensSend t settings.now done (send_in (Some object.value))) (table_in (Some table.now))) }
    ensures err { IfErr result (λ status. Tells (λ t. OpensSend t settings.now status None) (table_in (Some table.now))) }
    ensures refused { IfErr result (λ status. status ≢ done) }
{
    let send = match GuestSend::new(alloc, table_of(table), settings) {
        Ok(send) => send,
        Err(status) => return Err(status),
    };
    match boxed(alloc, send) {
        Ok(object) => Ok(object),
        Err(NoMemory) => Err(NO_MEMORY),
    }
}

/// Makes a send that has sent nothing, of a table, which it copies, with these settings: of one
/// stream if there are no channels, or on so many channels.
#[unsafe(no_mangle)]
pub extern "C" fn zimgasol_send_new(
    alloc: Global,
    send: &mut SendHandle,
    table: &mut TableHandle,
    settings: &AskedSend,
) -> u32
    requires none { send.old.handle.value ≡ None }
    requires table { IsSome (table_in table.old.handle.value) }
    ensures opens { Tells (λ t. OpensSend t settings.now result (send_in send.new.handle.value)) (table_in table.old.handle.value) }
    ensures none { result ≢ done → send.new.handle.value ≡ None }
    ensures table { table.new.handle.value ≡ table.old.handle.value }
{
    let object = table.handle.take().into_box(alloc);
    let made = opened(alloc, &object, settings);
    table.handle = Handle::of(object);
    match made {
        Ok(object) => {
            send.handle = Handle::of(object);
            send.full = 1;
            DONE
        }
        Err(status) => status,
    }
}

// ---- rounds

/// Begins a round: of one stream, whose pages are put one by one, or on channels without pages.
#[unsafe(no_mangle)]
pub extern "C" fn zimgasol_send_begin_round(alloc: Global, send: &mut SendHandle) -> u32
    requires send { IsSome (send_in send.old.handle.value) }
    ensures begins { Turns (BeginsRound result) (send_in send.old.handle.value) (send_in send.new.handle.value) }
{
    let (object, mut held) = send.take_out(alloc);
    let status = held.begin_round(alloc);
    send.put_back(object, held);
    status
}

/// Begins a round on channels, of these dirty pages.
#[unsafe(no_mangle)]
pub extern "C" fn zimgasol_send_begin_round_pages(
    alloc: Global,
    send: &mut SendHandle,
    dirty: &[NamedPlace],
) -> u32
    requires send { IsSome (send_in send.old.handle.value) }
    ensures begins { Turns (BeginsPages (map place_of dirty.now) result) (send_in send.old.handle.value) (send_in send.new.handle.value) }
{
    let (object, mut held) = send.take_out(alloc);
    let status = held.begin_round_pages(alloc, dirty);
    send.put_back(object, held);
    status
}

/// Begins a round on channels, of the pages whose bit is set in the bitmap of their block.
#[unsafe(no_mangle)]
pub extern "C" fn zimgasol_send_begin_round_bitmaps(
    alloc: Global,
    send: &mut SendHandle,
    bitmaps: &[&[u64]],
) -> u32
    requires send { IsSome (send_in send.old.handle.value) }
    ensures begins { Turns (BeginsBitmaps (lent_words bitmaps.now) result) (send_in send.old.handle.value) (send_in send.new.handle.value) }
{
    let (object, mut held) = send.take_out(alloc);
    let status = held.begin_round_bitmaps(alloc, bitmaps);
    send.put_back(object, held);
    status
}

/// Sends a page of one stream: its place in the table, and its bytes.
#[unsafe(no_mangle)]
pub extern "C" fn zimgasol_send_put_page(
    alloc: Global,
    send: &mut SendHandle,
    block: usize,
    number: u64,
    bytes: &[u8],
) -> u32
    requires send { IsSome (send_in send.old.handle.value) }
    ensures puts { Turns (PutsPage (place_at block number) bytes.now result) (send_in send.old.handle.value) (send_in send.new.handle.value) }
{
    let place = Place {
        block,
        page: number,
    };
    let (object, mut held) = send.take_out(alloc);
    let status = held.put_page(place, bytes);
    send.put_back(object, held);
    status
}

// Makes room for a worker, in a box.
fn room(alloc: Global) -> Result<Box<Object>, NoMemory> {
    Ok(Box::new(alloc, Object::Empty)?)
}

/// Puts the worker of the next channel, from channel 0 on, into a handle of its own.
#[unsafe(no_mangle)]
pub extern "C" fn zimgasol_send_worker(
    alloc: Global,
    send: &mut SendHandle,
    worker: &mut WorkerHandle,
) -> u32
    requires send { IsSome (send_in send.old.handle.value) }
    requires none { worker.old.handle.value ≡ None }
    ensures hands { Turns (HandsOutWorker result (worker_in worker.new.handle.value)) (send_in send.old.handle.value) (send_in send.new.handle.value) }
    ensures none { result ≢ done → worker.new.handle.value ≡ None }
{
    let (object, mut held) = send.take_out(alloc);
    let Ok(empty) = room(alloc) else {
        let status = held.refused_worker();
        send.put_back(object, held);
        return status;
    };
    let (status, made) = held.worker(alloc);
    send.put_back(object, held);
    if let Some(made) = made {
        worker.put_back(empty, made);
    }
    status
}

/// Gives back a worker of the round that has ended. Workers are given back in the order of their
/// channels. Its handle is empty then.
#[unsafe(no_mangle)]
pub extern "C" fn zimgasol_send_give_back(
    alloc: Global,
    send: &mut SendHandle,
    worker: &mut WorkerHandle,
) -> u32
    requires send { IsSome (send_in send.old.handle.value) }
    requires worker { IsSome (worker_in worker.old.handle.value) }
    requires own { Tells (λ w. Tells (IsOfRound w.worker) (send_in send.old.handle.value)) (worker_in worker.old.handle.value) }
    ensures gives { Tells (λ w. Turns (TakesBackWorker result w (worker_in worker.new.handle.value)) (send_in send.old.handle.value) (send_in send.new.handle.value)) (worker_in worker.old.handle.value) }
    ensures none { result ≡ done → worker.new.handle.value ≡ None }
{
    let (object, mut held) = send.take_out(alloc);
    let (empty, given) = worker.take_out(alloc);
    let (status, left) = held.give_back(given);
    send.put_back(object, held);
    if let Some(left) = left {
        worker.put_back(empty, left);
    }
    status
}

/// Ends the open round: on channels once all its workers were given back, with a FLUSH on the main
/// stream; of one stream with the pages that were put.
#[unsafe(no_mangle)]
pub extern "C" fn zimgasol_send_end_round(alloc: Global, send: &mut SendHandle) -> u32
    requires send { IsSome (send_in send.old.handle.value) }
    ensures ends { Turns (EndsRound result) (send_in send.old.handle.value) (send_in send.new.handle.value) }
{
    let (object, mut held) = send.take_out(alloc);
    let status = held.end_round(alloc);
    send.put_back(object, held);
    status
}

/// Cancels the open round: it sends nothing. On channels that is refused once a worker was given
/// out, but the streams may be given up, since packets of the round may have been copied out.
/// Workers that are out stay.
#[unsafe(no_mangle)]
pub extern "C" fn zimgasol_send_cancel_round(
    alloc: Global,
    send: &mut SendHandle,
    give_up: bool,
) -> u32
    requires send { IsSome (send_in send.old.handle.value) }
    ensures cancels { Turns (CancelsRound give_up result) (send_in send.old.handle.value) (send_in send.new.handle.value) }
{
    let (object, mut held) = send.take_out(alloc);
    let status = held.cancel_round(alloc, give_up);
    send.put_back(object, held);
    status
}

/// Ends the streams, the only or the main one with its end byte, or left open after the footer of
/// RAM's END. The bytes that wait are still to be drained.
#[unsafe(no_mangle)]
pub extern "C" fn zimgasol_send_finish(alloc: Global, send: &mut SendHandle, left_open: bool) -> u32
    requires send { IsSome (send_in send.old.handle.value) }
    ensures finishes { Turns (Finishes left_open result) (send_in send.old.handle.value) (send_in send.new.handle.value) }
{
    let (object, mut held) = send.take_out(alloc);
    let status = held.finish(alloc, left_open);
    send.put_back(object, held);
    status
}

// ---- bytes that are copied out

/// Copies out the next bytes of a source, and returns how many, or 0 if none waits.
#[unsafe(no_mangle)]
pub extern "C" fn zimgasol_send_drain(
    alloc: Global,
    send: &mut SendHandle,
    source: usize,
    out: &mut [u8],
) -> usize
    requires send { IsSome (send_in send.old.handle.value) }
    ensures drains { Turns (Drains (channel_of source) result out.new) (send_in send.old.handle.value) (send_in send.new.handle.value) }
{
    let (object, mut held) = send.take_out(alloc);
    let count = held.drain(source, out);
    send.put_back(object, held);
    count
}

/// Copies out the next bytes of a source, which still wait, and returns how many.
#[unsafe(no_mangle)]
pub extern "C" fn zimgasol_send_peek(
    alloc: Global,
    send: &mut SendHandle,
    source: usize,
    out: &mut [u8],
) -> usize
    requires send { IsSome (send_in send.old.handle.value) }
    ensures peeks { Turns (Peeks (channel_of source) result out.new) (send_in send.old.handle.value) (send_in send.new.handle.value) }
{
    let (object, mut held) = send.take_out(alloc);
    let count = held.peek(source, out);
    send.put_back(object, held);
    count
}

/// Counts the first bytes of a source that wait as copied out, and returns how many: `len` of them,
/// or all.
#[unsafe(no_mangle)]
pub extern "C" fn zimgasol_send_skip(
    alloc: Global,
    send: &mut SendHandle,
    source: usize,
    len: usize,
) -> usize
    requires send { IsSome (send_in send.old.handle.value) }
    ensures skips { Turns (Skips (channel_of source) len result) (send_in send.old.handle.value) (send_in send.new.handle.value) }
{
    let (object, mut held) = send.take_out(alloc);
    let count = held.skip(source, len);
    send.put_back(object, held);
    count
}

/// Returns how many bytes of a source wait to be copied out.
#[unsafe(no_mangle)]
pub extern "C" fn zimgasol_send_waiting(
    alloc: Global,
    send: &mut SendHandle,
    source: usize,
) -> usize
    requires send { IsSome (send_in send.old.handle.value) }
    ensures counts { Turns (Counts (channel_of source) result) (send_in send.old.handle.value) (send_in send.new.handle.value) }
{
    let (object, mut held) = send.take_out(alloc);
    let count = held.waiting(source);
    send.put_back(object, held);
    count
}

/// Frees a send, with the bytes that weren't drained. An empty handle stays as it is.
#[unsafe(no_mangle)]
pub extern "C" fn zimgasol_send_free(alloc: Global, send: &mut SendHandle)
    ensures none { send.new.handle.value ≡ None }
{
    if send.full != 0 {
        let _object = send.handle.take().into_box(alloc);
        send.full = 0;
    }
}
