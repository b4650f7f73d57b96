//! The end of a channel's queue that pushes: it reads the channel's bytes, item by item. A worker
//! of `load_multi` steps one.

ghost use Rattle.mig_relay.specs.Relay.{PushesOne};

use crate::cursor::Cursor;
use crate::message::Message;
use crate::queue::{LogPass, Sender, push};
use mig_packet::{Gate, Step};
use std::alloc::{Allocator, Global};
use std::fmt::{self, Debug, Formatter};
use std::marker::Model;
use std::sync::Wait;

/// Pushes the items of one channel. Contracts see its queue, its bytes, and the items that were
/// pushed.
pub struct Feeder<'a, A: Allocator = Global> {
    // the number of its channel, and of its next item
    pub(crate) channel: usize,
    pub(crate) count: u64,
    pub(crate) text: &'a [u8],
    pub(crate) cursor: Cursor,
    pub(crate) sender: Sender<A>,
    pub(crate) pass: LogPass,
}

// Written out, so that a caller's proof passes a call where a value is dropped.
impl<'a, A: Allocator> Drop for Feeder<'a, A> {
    fn drop(self) {
        let Feeder {
            channel: _,
            count: _,
            text: _,
            cursor: _,
            sender: _,
            pass: _,
        } = self;
    }
}

impl<'a, A: Allocator> Model for Feeder<'a, A> {
    ghost use Rattle.mig_relay.specs.RelayItems.{QueueEnd};

    ghost Value = { QueueEnd };

    ghost use Rattle.crossbeam_channel.specs.Claims.{view as known, IsSeatAt};
    ghost use Rattle.crossbeam_channel.specs.Ends.{sends_on};
    ghost use Rattle.mig_relay.specs.RelayItems.{queue_end};
    ghost use Rattle.mig_relay.specs.Queue.{items_in};
    ghost use Rattle.mig_relay.specs.Ends.{IsFeeding};

    ghost view = { λ a. queue_end a.pass.table_id (known a.pass).source (items_in (known a.pass)) };

    ghost invariant = { λ a. IsSeatAt (sends_on a.sender) a.pass × IsFeeding a.cursor a.text.now a.count (known a.pass) };
}

/// Prints an opaque value: it borrows guest memory.
impl<'a, A: Allocator> Debug for Feeder<'a, A> {
    fn fmt<W: fmt::Write>(&self, f: &mut Formatter<W>) -> fmt::Result {
        f.write_str("Feeder { .. }")
    }
}

/// A feeder that has pushed its channel's stop. Contracts see its queue, its bytes, and the items
/// that were pushed.
pub struct Fed<A: Allocator = Global> {
    sender: Sender<A>,
    pass: LogPass,
}

// Written out, so that a caller's proof passes a call where a value is dropped.
impl<A: Allocator> Drop for Fed<A> {
    fn drop(self) {
        let Fed { sender: _, pass: _ } = self;
    }
}

impl<A: Allocator> Model for Fed<A> {
    ghost use Rattle.mig_relay.specs.RelayItems.{QueueEnd};

    ghost Value = { QueueEnd };

    ghost use Rattle.crossbeam_channel.specs.Claims.{view as known};
    ghost use Rattle.mig_relay.specs.RelayItems.{queue_end};
    ghost use Rattle.mig_relay.specs.Queue.{items_in};

    ghost view = { λ a. queue_end a.pass.table_id (known a.pass).source (items_in (known a.pass)) };
}

/// Prints an opaque value: it holds the end of a queue.
impl<A: Allocator> Debug for Fed<A> {
    fn fmt<W: fmt::Write>(&self, f: &mut Formatter<W>) -> fmt::Result {
        f.write_str("Fed { .. }")
    }
}

/// The result of a step of a feeder.
#[derive(Drop)]
pub enum FeederStep<'a, A: Allocator = Global> {
    /// A feeder that has items to push.
    More(Feeder<'a, A>),
    /// The feeder has pushed its channel's stop.
    Ended(Fed<A>),
}

/// Prints only which of the two it is.
impl<'a, A: Allocator> Debug for FeederStep<'a, A> {
    fn fmt<W: fmt::Write>(&self, f: &mut Formatter<W>) -> fmt::Result {
        match self {
            FeederStep::More(_) => f.write_str("More(..)"),
            FeederStep::Ended(_) => f.write_str("Ended(..)"),
        }
    }
}

impl<'a, A: Allocator> Feeder<'a, A> {
    /// Reads the next item, passes the gate with its number as found, pushes it, and passes the
    /// gate again. It waits while the queue is full, and allocates nothing. If the collector was
    /// dropped early, it may wait for ever.
    pub fn step<R: Wait, G: Gate>(self, wait: &R, gate: &G) -> FeederStep<'a, A>
        ensures { PushesOne self.entry result }
    {
        let Feeder {
            channel,
            count,
            text,
            cursor,
            sender,
            mut pass,
        } = self;
        let (message, behind) = cursor.read(text);
        gate.pass(channel, Step::Found(count));
        push(wait, &sender, &mut pass, message);
        gate.pass(channel, Step::Pushed(count));
        if message.is_stop() {
            return FeederStep::Ended(Fed { sender, pass });
        }
        FeederStep::More(Feeder {
            channel,
            count: count + 1,
            text,
            cursor: behind,
            sender,
            pass,
        })
    }
}
