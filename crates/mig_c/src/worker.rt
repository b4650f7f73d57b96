//! The calls of a worker of a round on several channels. The workers of a round run at once, each
//! on a thread of its own, and read the same blocks.

ghost use Rattle.std.specs.Prelude.{◌≡◌, IsSome, None};
ghost use Rattle.mig_mem.specs.Lent.{lent_bytes};
ghost use Rattle.mig_c.specs.Kinds.{worker_in, Turns};
ghost use Rattle.mig_c_calls.specs.Multi.{DrainsWorker};
ghost use Rattle.mig_c_calls.specs.Copied.{NamesBatch, PacksCopied};
ghost use Rattle.mig_c_calls.specs.Heads.{GivesHead};

use crate::handle::WorkerHandle;
use mig_c_calls::NamedBatch;
use std::alloc::Global;

/// Reports the batch of the worker's next packet. If no batch is left, writes the SYNC packet into
/// the worker's channel.
#[unsafe(no_mangle)]
pub extern "C" fn zimgasol_worker_next(
    alloc: Global,
    worker: &mut WorkerHandle,
    batch: &mut NamedBatch,
) -> u32
    requires worker { IsSome (worker_in worker.old.handle.value) }
    ensures names { Turns (NamesBatch result batch.old batch.new) (worker_in worker.old.handle.value) (worker_in worker.new.handle.value) }
{
    let (object, mut held) = worker.take_out(alloc);
    let status = held.next(batch);
    worker.put_back(object, held);
    status
}

/// Writes the head of the packet of the batch that `zimgasol_worker_next` reported to the front of
/// a buffer, and reports its length. The caller sends it, and after it the contents of the pages
/// that aren't zeros, from where they lie.
#[unsafe(no_mangle)]
pub extern "C" fn zimgasol_worker_head(
    alloc: Global,
    worker: &mut WorkerHandle,
    zeros: &[u8],
    out: &mut [u8],
    written: &mut usize,
) -> u32
    requires worker { IsSome (worker_in worker.old.handle.value) }
    ensures gives { Turns (GivesHead zeros.now result out.old out.new written.old written.new) (worker_in worker.old.handle.value) (worker_in worker.new.handle.value) }
{
    let (object, mut held) = worker.take_out(alloc);
    let status = held.head(zeros, out, written);
    worker.put_back(object, held);
    status
}

/// Writes the packet of the batch that `zimgasol_worker_next` reported into the worker's channel,
/// from the contents of its pages.
#[unsafe(no_mangle)]
pub extern "C" fn zimgasol_worker_pack(
    alloc: Global,
    worker: &mut WorkerHandle,
    contents: &[&[u8]],
) -> u32
    requires worker { IsSome (worker_in worker.old.handle.value) }
    ensures packs { Turns (PacksCopied (lent_bytes contents.now) result) (worker_in worker.old.handle.value) (worker_in worker.new.handle.value) }
{
    let (object, mut held) = worker.take_out(alloc);
    let status = held.pack(alloc, contents);
    worker.put_back(object, held);
    status
}

/// Copies out the next bytes of the worker's channel, and returns how many, or 0 if none waits.
#[unsafe(no_mangle)]
pub extern "C" fn zimgasol_worker_drain(
    alloc: Global,
    worker: &mut WorkerHandle,
    out: &mut [u8],
) -> usize
    requires worker { IsSome (worker_in worker.old.handle.value) }
    ensures drains { Turns (DrainsWorker result out.new) (worker_in worker.old.handle.value) (worker_in worker.new.handle.value) }
{
    let (object, mut held) = worker.take_out(alloc);
    let count = held.drain(out);
    worker.put_back(object, held);
    count
}

/// Frees a worker that isn't given back: its round can't be ended then. An empty handle stays as it
/// is.
#[unsafe(no_mangle)]
pub extern "C" fn zimgasol_worker_free(alloc: Global, worker: &mut WorkerHandle)
    ensures none { worker.new.handle.value ≡ None }
{
    if worker.full != 0 {
        let _object = worker.handle.take().into_box(alloc);
        worker.full = 0;
    }
}
