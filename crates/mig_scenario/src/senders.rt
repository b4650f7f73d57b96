//! The senders that a scenario's rounds go to.

ghost use Rattle.std.specs.Prelude.{◌≡◌, ◌≢◌, ◌<◌, ◌≤◌, ◌++◌, ◌∷◌, [], List, Err, None, true, is_some, MatchOption, IfOk, IfErr, OnOk, IsOk};
ghost use Rattle.mig_mem.specs.RamTable.{RamTable};
ghost use Rattle.mig_mem.specs.Tracking.{Snapshot};
ghost use Rattle.mig_packet.specs.PageSize.{page_limit};
ghost use Rattle.mig_send.specs.Sending.{IsRoundFault};
ghost use Rattle.mig_scenario.specs.Playing.{IsNewSender, AreSendersOf, HaveSent, AreLike, AreTexts};

use crate::layout::Layout;
use mig_mem::{Dirty, Memory, NoMemory, Table};
use mig_packet::OpenGate;
use mig_send::{MultiSender, SendFault, Sent, SingleSender};
use std::alloc::{Allocator, Global};
use std::thread::Threads;
use uuid::Uuid;

/// A sender of a single stream, a sender on several channels, both or none.
pub struct Senders<A: Allocator = Global> {
    pub single: Option<SingleSender<A>>,
    pub several: Option<MultiSender<A>>,
}

// Written out, so that a caller's proof passes a call where a value is dropped.
impl<A: Allocator> Drop for Senders<A> {
    fn drop(self) {
        let Senders {
            single: _,
            several: _,
        } = self;
    }
}

/// The bytes that they wrote.
#[derive(Drop)]
pub struct Texts<A: Allocator = Global> {
    pub single: Option<Vec<u8, A>>,
    pub several: Option<Sent<A>>,
}

// Creates a sender on several channels, or none if there are no channels.
fn several<A: Allocator + Copy>(
    alloc: A,
    table: &Table<A>,
    layout: Layout,
    uuid: Uuid,
) -> Result<Option<MultiSender<A>>, NoMemory>
    requires room { (0 < layout.batch) × (layout.batch ≤ page_limit table.now.page_size) }
    ensures { IfOk result (λ o. MatchOption o (layout.channels ≡ 0) (IsNewSender table.now uuid layout)) }
{
    let channels = usize::from(layout.channels);
    if channels == 0 {
        return Ok(None);
    }
    match MultiSender::new(alloc, table, uuid, channels, layout.batch) {
        Ok(sender) => Ok(Some(sender)),
        Err(SendFault::NoMemory) => Err(NoMemory),
        Err(SendFault::Channels | SendFault::Limit | SendFault::OtherTable) => unreachable!(),
    }
}

impl<A: Allocator + Copy> Senders<A> {
    /// Creates no sender, for a guest whose rounds aren't sent.
    pub fn none() -> Senders<A>
        ensures { (result.single ≡ None) × (result.several ≡ None) }
    {
        Senders {
            single: None,
            several: None,
        }
    }

    /// Creates a sender on the channels, or a sender of a single stream if there are no channels.
    ///
    /// # Errors
    ///
    /// `NoMemory`: an allocation was refused.
    pub fn one(
        alloc: A,
        table: &Table<A>,
        layout: Layout,
        uuid: Uuid,
    ) -> Result<Senders<A>, NoMemory>
        requires room { (0 < layout.batch) × (layout.batch ≤ page_limit table.now.page_size) }
        ensures table { IfOk result (AreSendersOf table.now) }
        ensures fresh { IfOk result (λ s. HaveSent s []) }
        ensures several { IfOk result (λ s. MatchOption s.several (layout.channels ≡ 0) (IsNewSender table.now uuid layout)) }
        ensures one { IfOk result (λ s. MatchOption s.several (is_some s.single ≡ true) (λ sender. s.single ≡ None)) }
    {
        let several = several(alloc, table, layout, uuid)?;
        let single = match several {
            Some(_) => None,
            None => Some(SingleSender::new(alloc, table)?),
        };
        Ok(Senders { single, several })
    }

    /// Creates a sender of a single stream, and a sender on the channels if there are any.
    ///
    /// # Errors
    ///
    /// `NoMemory`: an allocation was refused.
    pub fn both(
        alloc: A,
        table: &Table<A>,
        layout: Layout,
        uuid: Uuid,
    ) -> Result<Senders<A>, NoMemory>
        requires room { (0 < layout.batch) × (layout.batch ≤ page_limit table.now.page_size) }
        ensures table { IfOk result (AreSendersOf table.now) }
        ensures fresh { IfOk result (λ s. HaveSent s []) }
        ensures single { IfOk result (λ s. is_some s.single ≡ true) }
        ensures several { IfOk result (λ s. MatchOption s.several (layout.channels ≡ 0) (IsNewSender table.now uuid layout)) }
    {
        Ok(Senders {
            single: Some(SingleSender::new(alloc, table)?),
            several: several(alloc, table, layout, uuid)?,
        })
    }
}

impl<A: Allocator + Copy + Send + Sync> Senders<A> {
    /// Sends a round. After an `Err` one of the two may have sent it.
    pub(crate) fn round<H: Threads + Sync>(
        &mut self,
        rt: &H,
        image: &Memory<A>,
        dirty: &Dirty<A>,
    ) -> Result<(), NoMemory>
        requires senders { AreSendersOf image.now.table self.old }
        requires dirty { dirty.now.table ≡ image.now.table }
        ensures senders { AreSendersOf image.now.table self.new }
        ensures kinds { AreLike self.old self.new }
        ensures ok { OnOk result ((snapshots : List Snapshot) → HaveSent self.old snapshots
            → HaveSent self.new (snapshots ++ record { image = image.now; dirty = dirty.now.marked } ∷ [])) }
    {
        if let Some(single) = &mut self.single {
            was_sent(single.round(image, dirty))?;
        }
        if let Some(several) = &mut self.several {
            was_sent(several.round(rt, image, dirty, &OpenGate))?;
        }
        Ok(())
    }
}

// Turns the answer of a sender with the guest's own table into `Ok` or `NoMemory`.
fn was_sent(answer: Result<(), SendFault>) -> Result<(), NoMemory>
    requires fault { IfErr answer IsRoundFault }
    requires table { answer ≢ Err SendFault.OtherTable }
    ensures { OnOk result (IsOk answer) }
{
    match answer {
        Ok(()) => Ok(()),
        Err(SendFault::NoMemory) => Err(NoMemory),
        Err(SendFault::Channels | SendFault::Limit | SendFault::OtherTable) => unreachable!(),
    }
}

impl<A: Allocator> Senders<A> {
    /// Ends the streams.
    pub(crate) fn finish(self) -> Result<Texts<A>, NoMemory>
        ensures { IfOk result (λ texts. (table : RamTable) (snapshots : List Snapshot) → AreSendersOf table self → HaveSent self snapshots
            → AreTexts table self snapshots texts) }
    {
        let Senders { single, several } = self;
        let single = match single {
            None => None,
            Some(sender) => match sender.finish() {
                Ok(text) => Some(text),
                Err(_) => return Err(NoMemory),
            },
        };
        let several = match several {
            None => None,
            Some(sender) => match sender.finish() {
                Ok(sent) => Some(sent),
                Err(_) => return Err(NoMemory),
            },
        };
        Ok(Texts { single, several })
    }
}
