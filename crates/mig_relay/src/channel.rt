//! The end of a channel's queue that pops. The collector of a relay has one for each channel.

ghost use Rattle.std.specs.Prelude.{◌≡◌, map, All, IfOk, OnErr};
ghost use Rattle.mig_mem.specs.PageSize.{IsPageSize};
ghost use Rattle.mig_relay.specs.RelayItems.{as_channel_item, BeginsItems, IsOfPageSize};
ghost use Rattle.mig_relay.specs.Relay.{Takes};

use crate::item::Item;
use crate::message::item_of;
use crate::queue::{LogPass, Receiver, pop};
use mig_mem::NoMemory;
use std::alloc::{Allocator, Global};
use std::marker::Model;
use std::sync::Wait;

/// The items of one channel, in their order. Contracts see its queue, its bytes, and the items that
/// were popped.
pub struct Channel<'a, A: Allocator = Global> {
    pub(crate) page_size: u64,
    // the most that may wait in a round of it
    pub(crate) waiting: Option<u64>,
    pub(crate) text: &'a [u8],
    pub(crate) items: Vec<Item<'a>, A>,
    // whether the stop was popped
    pub(crate) over: bool,
    pub(crate) receiver: Receiver<A>,
    pub(crate) pass: LogPass,
}

// Written out, so that a caller's proof passes a call where a value is dropped.
impl<'a, A: Allocator> Drop for Channel<'a, A> {
    fn drop(self) {
        let Channel {
            page_size: _,
            waiting: _,
            text: _,
            items: _,
            over: _,
            receiver: _,
            pass: _,
        } = self;
    }
}

impl<'a, A: Allocator> Model for Channel<'a, A> {
    ghost use Rattle.mig_relay.specs.RelayItems.{QueueEnd};

    ghost Value = { QueueEnd };

    ghost use Rattle.crossbeam_channel.specs.Claims.{view as known, IsSeatAt};
    ghost use Rattle.crossbeam_channel.specs.Ends.{receives_on};
    ghost use Rattle.mig_relay.specs.RelayItems.{queue_end};
    ghost use Rattle.mig_relay.specs.Queue.{items_in};
    ghost use Rattle.mig_relay.specs.Ends.{IsCollecting};

    ghost view = { λ a. queue_end a.pass.table_id (known a.pass).source (items_in (known a.pass)) };

    ghost invariant = { λ a. IsSeatAt (receives_on a.receiver) a.pass × IsCollecting a.page_size a.waiting a.text.now a.items.items a.over (known a.pass) };
}

impl<'a, A: Allocator> Channel<'a, A> {
    /// Returns the page size of its packets, in bytes.
    pub(crate) fn page_size(&self) -> u64
        ensures value { result ≡ self.now.source.page_size }
        ensures page_size { IsPageSize result }
    {
        self.page_size
    }

    /// Returns the most that may wait in a round of it.
    pub(crate) fn waiting(&self) -> Option<u64>
        ensures { result ≡ self.now.source.waiting }
    {
        self.waiting
    }

    /// Returns the items that were popped.
    pub(crate) fn received(&self) -> &[Item<'a>]
        ensures items { map as_channel_item result.now ≡ self.now.passed }
        ensures begun { BeginsItems self.now.source self.now.passed }
        ensures page_size { IsPageSize self.now.source.page_size }
        ensures page_sizes { All (IsOfPageSize self.now.source.page_size) result.now }
    {
        self.items.as_slice()
    }

    /// Pops the next item. Returns false, without a pop, if the stop was popped before. On an `Err`
    /// none was popped.
    pub(crate) fn next<R: Wait>(&mut self, wait: &R) -> Result<bool, NoMemory>
        ensures ok { IfOk result (λ more. Takes self.old self.new more) }
        ensures err { OnErr result (self.new ≡ self.old) }
    {
        if self.over {
            return Ok(false);
        }
        self.items.reserve(1)?;
        let message = pop(wait, &self.receiver, &mut self.pass);
        self.items
            .push_reserved(item_of(self.page_size, self.text, message));
        self.over = message.is_stop();
        Ok(true)
    }

    /// Pops and drops all further items, up to the stop.
    pub(crate) fn drain<R: Wait>(self, wait: &R) {
        let Channel {
            page_size: _,
            waiting: _,
            text: _,
            items: _,
            over,
            receiver,
            mut pass,
        } = self;
        if over {
            return;
        }
        for _ in wait.forever() {
            if pop(wait, &receiver, &mut pass).is_stop() {
                return;
            }
        }
        unreachable!()
    }
}
