//! The objects of handles. A call that reports on an object gets the value of its kind by one of
//! the functions here. One that works on a send or a worker takes it out, and puts it back.

ghost use Rattle.std.specs.Prelude.{◌≡◌, IsSome, Some};
ghost use Rattle.mig_c.specs.Kinds.{table_in, load_in, send_in, worker_in, file_in, sent_in};

use mig_c_calls::{GuestSend, HeldWorker};
use mig_c_loads::Load;
use mig_c_mapped::{MappedFile, SentFile};
use mig_mem::Table;
use std::alloc::Global;
use std::mem;

/// The object of a handle, of each kind that C works on.
#[derive(Drop)]
pub enum Object {
    /// A guest's table.
    Table(Table<Global>),
    /// A load into blocks of C, of one stream or of several channels.
    Load(Load),
    /// A send of a guest's memory, of one stream or on several channels.
    Send(GuestSend),
    /// A worker of a round on several channels.
    Worker(HeldWorker),
    /// A file with mapped-ram that is loaded.
    File(MappedFile),
    /// A guest's memory that is sent as a file with mapped-ram.
    Sent(SentFile),
    /// None yet, or none any more: room for one.
    Empty,
}

/// Returns the value of an object that is a table.
pub(crate) fn table_of(object: &Object) -> &Table<Global>
    requires { IsSome (table_in (Some object.now)) }
    ensures { table_in (Some object.now) ≡ Some result.now }
{
    match object {
        Object::Table(table) => table,
        _ => unreachable!(),
    }
}

/// Returns the value of an object that is a load.
pub(crate) fn load_of(object: &Object) -> &Load
    requires { IsSome (load_in (Some object.now)) }
    ensures { load_in (Some object.now) ≡ Some result.now }
{
    match object {
        Object::Load(load) => load,
        _ => unreachable!(),
    }
}

/// Returns the value of an object that is a file that is loaded.
pub(crate) fn file_of(object: &Object) -> &MappedFile
    requires { IsSome (file_in (Some object.now)) }
    ensures { file_in (Some object.now) ≡ Some result.now }
{
    match object {
        Object::File(file) => file,
        _ => unreachable!(),
    }
}

/// Returns the value of an object that is a file that is sent.
pub(crate) fn sent_of(object: &Object) -> &SentFile
    requires { IsSome (sent_in (Some object.now)) }
    ensures { sent_in (Some object.now) ≡ Some result.now }
{
    match object {
        Object::Sent(sent) => sent,
        _ => unreachable!(),
    }
}

/// Puts a send into an object's place.
pub(crate) fn put_send(object: &mut Object, send: GuestSend)
    ensures { send_in (Some object.new) ≡ Some send }
{
    *object = Object::Send(send);
}

/// Takes the send out of its object, which is empty then.
pub(crate) fn take_send(object: &mut Object) -> GuestSend
    requires { IsSome (send_in (Some object.old)) }
    ensures { send_in (Some object.old) ≡ Some result }
{
    match mem::replace(object, Object::Empty) {
        Object::Send(send) => send,
        _ => unreachable!(),
    }
}

/// Puts a worker into an object's place.
pub(crate) fn put_worker(object: &mut Object, worker: HeldWorker)
    ensures { worker_in (Some object.new) ≡ Some worker }
{
    *object = Object::Worker(worker);
}

/// Takes the worker out of its object, which is empty then.
pub(crate) fn take_worker(object: &mut Object) -> HeldWorker
    requires { IsSome (worker_in (Some object.old)) }
    ensures { worker_in (Some object.old) ≡ Some result }
{
    match mem::replace(object, Object::Empty) {
        Object::Worker(worker) => worker,
        _ => unreachable!(),
    }
}
