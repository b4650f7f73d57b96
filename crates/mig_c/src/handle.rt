//! An object in a box, as a handle that C may hold.
//!
//! C can't hold a pointer to a type that owns memory, nor a type with parameters. So all kinds of
//! objects are one type (`object`), and a handle is a pointer to bytes. Its ghost field says what
//! they are.

ghost use Rattle.std.specs.Prelude.{◌≡◌, ◌↔◌, Option, None, Some, IsSome};
ghost use Rattle.mig_c.specs.declared.object.Object.{Object};
ghost use Rattle.mig_c.specs.Kinds.{send_in, worker_in};

use crate::loose::Loose;
use crate::object::{Object, put_send, put_worker, take_send, take_worker};
use mig_c_calls::{GuestSend, HeldWorker};
use std::alloc::Global;
use std::marker::Model;
use std::ptr::null_mut;

/// A handle: an object in memory of its own, or none.
#[repr(C)]
#[derive(Drop)]
pub struct Handle {
    at: *mut u8,
    /// The object of the handle.
    pub ghost value: { Option Object },
}

impl Model for Handle {
    ghost use Rattle.mig_c.specs.Owned.{owned};

    ghost also_owns = { λ p. owned p.at p.value };
}

// A handle owns its object alone, and no object has a part that belongs to one thread. The proof is
// `send` in `proofs/handle/Handle/TheSendSync/Send.antt`, by `handle_send` in
// `proofs/Crosses.antt`.
unsafe impl Send for Handle {}

// Creates a handle without an object.
fn none() -> Handle
    ensures { result.value ≡ None }
{
    Handle { at: null_mut() }
}

// Creates the handle of a pointer that owns an object.
fn packed(loose: Loose<Object, Global>) -> Handle
    ensures { result.value ≡ Some loose.value }
{
    let Loose { at, alloc: _ } = loose;
    Handle { at: at as *mut u8 }
}

// Returns the pointer of a handle.
fn unpacked(handle: Handle, alloc: Global) -> Loose<Object, Global>
    requires { IsSome handle.value }
    ensures { handle.value ≡ Some result.value }
{
    let Handle { at } = handle;
    Loose {
        at: at as *mut Object,
        alloc,
    }
}

impl Handle {
    /// Creates a handle without an object.
    pub(crate) fn none() -> Handle
        ensures { result.value ≡ None }
    {
        none()
    }

    /// Takes the object out of the handle, and leaves none.
    pub(crate) fn take(&mut self) -> Handle
        ensures taken { result.value ≡ self.old.value }
        ensures none { self.new.value ≡ None }
    {
        std::mem::replace(self, none())
    }

    /// Creates an object's handle.
    pub(crate) fn of(object: Box<Object>) -> Handle
        ensures { result.value ≡ Some object.value }
    {
        packed(Loose::of(object))
    }

    /// Returns the object of the handle.
    pub(crate) fn into_box(self, alloc: Global) -> Box<Object>
        requires { IsSome self.value }
        ensures { self.value ≡ Some result.value }
    {
        unpacked(self, alloc).into_box()
    }
}

/// A guest's table, or none.
#[repr(C)]
#[derive(Drop)]
pub struct TableHandle {
    /// The handle of the object.
    pub handle: Handle,
    /// 0 if there is no object, else 1.
    pub full: u64,
    ghost says: { full ≡ 0 ↔ handle.value ≡ None },
}

/// A load into blocks of C, or none.
#[repr(C)]
#[derive(Drop)]
pub struct LoadHandle {
    /// The handle of the object.
    pub handle: Handle,
    /// 0 if there is no object, else 1.
    pub full: u64,
    ghost says: { full ≡ 0 ↔ handle.value ≡ None },
}

/// A send of a guest's memory, or none.
#[repr(C)]
#[derive(Drop)]
pub struct SendHandle {
    /// The handle of the object.
    pub handle: Handle,
    /// 0 if there is no object, else 1.
    pub full: u64,
    ghost says: { full ≡ 0 ↔ handle.value ≡ None },
}

/// A worker of a round on several channels, or none.
#[repr(C)]
#[derive(Drop)]
pub struct WorkerHandle {
    /// The handle of the object.
    pub handle: Handle,
    /// 0 if there is no object, else 1.
    pub full: u64,
    ghost says: { full ≡ 0 ↔ handle.value ≡ None },
}

/// A file with mapped-ram that is loaded, or none.
#[repr(C)]
#[derive(Drop)]
pub struct FileHandle {
    /// The handle of the object.
    pub handle: Handle,
    /// 0 if there is no object, else 1.
    pub full: u64,
    ghost says: { full ≡ 0 ↔ handle.value ≡ None },
}

/// A guest's memory that is sent as a file with mapped-ram, or none.
#[repr(C)]
#[derive(Drop)]
pub struct SentHandle {
    /// The handle of the object.
    pub handle: Handle,
    /// 0 if there is no object, else 1.
    pub full: u64,
    ghost says: { full ≡ 0 ↔ handle.value ≡ None },
}

impl SendHandle {
    /// Takes the send out of the handle, with the box that it was in.
    pub(crate) fn take_out(&mut self, alloc: Global) -> (Box<Object>, GuestSend)
        requires { IsSome (send_in self.old.handle.value) }
        ensures taken { send_in self.old.handle.value ≡ Some result.1 }
        ensures none { self.new.handle.value ≡ None }
    {
        let mut object = self.handle.take().into_box(alloc);
        self.full = 0;
        let send = take_send(&mut object);
        (object, send)
    }

    /// Puts a send into a box, and the box into the handle.
    pub(crate) fn put_back(&mut self, mut object: Box<Object>, send: GuestSend)
        ensures { send_in self.new.handle.value ≡ Some send }
    {
        put_send(&mut object, send);
        self.handle = Handle::of(object);
        self.full = 1;
    }
}

impl WorkerHandle {
    /// Takes the worker out of the handle, with the box that it was in.
    pub(crate) fn take_out(&mut self, alloc: Global) -> (Box<Object>, HeldWorker)
        requires { IsSome (worker_in self.old.handle.value) }
        ensures taken { worker_in self.old.handle.value ≡ Some result.1 }
        ensures none { self.new.handle.value ≡ None }
    {
        let mut object = self.handle.take().into_box(alloc);
        self.full = 0;
        let worker = take_worker(&mut object);
        (object, worker)
    }

    /// Puts a worker into a box, and the box into the handle.
    pub(crate) fn put_back(&mut self, mut object: Box<Object>, worker: HeldWorker)
        ensures { worker_in self.new.handle.value ≡ Some worker }
    {
        put_worker(&mut object, worker);
        self.handle = Handle::of(object);
        self.full = 1;
    }
}

// Asks the prover for the proof that values of the type may go to another thread. The line `unsafe
// impl Send` doesn't ask for one.
fn crosses<T: Send>(_: &T) {}

/// Shows that each kind of handle may go to another thread, by the proof for `Handle`. Nothing
/// calls it. So C may pass a handle to another thread. It makes one call on the handle at a time,
/// and orders the calls by a lock, a thread's start or join, or a sequentially consistent atomic.
pub(crate) fn all_cross(
    table: &TableHandle,
    load: &LoadHandle,
    send: &SendHandle,
    worker: &WorkerHandle,
    file: &FileHandle,
    sent: &SentHandle,
) {
    crosses(table);
    crosses(load);
    crosses(send);
    crosses(worker);
    crosses(file);
    crosses(sent);
}
