//! Sends a guest that runs on: each round has only the pages that were written since the last one.

ghost use Rattle.std.specs.Prelude.{◌≡◌, ◌∷◌, ◌++◌, [], List, IsTrue, IsFalse, IfOk, OnOk, OnErr};
ghost use Rattle.mig_mem.specs.Tracking.{Snapshot};

use std::alloc::{Allocator, Global};
use zimgasol::{Dirty, Memory, NoMemory, Place, SendFault, SingleSender, Table};

/// A guest of a hypervisor that tracks its writes, with the sender of its rounds.
#[derive(Drop)]
pub struct LiveGuest<A: Allocator = Global> {
    pub memory: Memory<A>,
    /// The pages that were written since the last round.
    pub dirty: Dirty<A>,
    pub sender: SingleSender<A>,
}

impl<A: Allocator + Copy> LiveGuest<A> {
    ghost use Rattle.mig_uses.specs.LiveGuest.{IsTracked};

    /// Creates a guest whose memory is zeros, and sends nothing yet. A receiver begins with zeros
    /// too, so no page is dirty.
    pub fn new(alloc: A, table: &Table<A>) -> Result<LiveGuest<A>, NoMemory>
        ensures { IfOk result (λ guest. IsTracked guest []) }
    {
        table.keeps_limits();
        Ok(LiveGuest {
            memory: Memory::zeroed(alloc, table)?,
            dirty: Dirty::none(alloc, table)?,
            sender: SingleSender::new(alloc, table)?,
        })
    }
}

impl<A: Allocator> LiveGuest<A> {
    ghost use Rattle.mig_mem.specs.Image.{with_byte};
    ghost use Rattle.mig_uses.specs.Backup.{BringsMemory};
    ghost use Rattle.mig_uses.specs.LiveGuest.{IsTracked, snapshot_of};

    /// Writes a byte of the guest and marks its page as dirty: a page that isn't marked is lost.
    /// Returns false if there is no such byte.
    pub fn write(&mut self, block: usize, offset: u64, byte: u8) -> bool
        ensures tracked { (sent : List Snapshot) → IsTracked self.old sent → IsTracked self.new sent }
        ensures written { IsTrue result → self.new.memory ≡ with_byte self.old.memory block offset byte }
        ensures refused { IsFalse result → self.new ≡ self.old }
    {
        let table = self.memory.table();
        if block >= table.len() || offset >= table.pages(block) * table.page_size() {
            return false;
        }
        let page = offset / table.page_size();
        let place = Place { block, page };
        if !self.dirty.table().holds(place) {
            return false;
        }
        self.memory.set(block, offset, byte);
        self.dirty.mark(place).is_ok()
    }

    /// Sends the pages that were written since the last round, and clears the dirty set.
    ///
    /// # Errors
    ///
    /// `NoMemory`, which changes nothing: the marks stay for another call.
    pub fn send_round(&mut self) -> Result<(), SendFault>
        ensures sent { OnOk result ((sent : List Snapshot) → IsTracked self.old sent → IsTracked self.new (sent ++ snapshot_of self.old.memory self.old.dirty ∷ [])) }
        ensures none { OnOk result (self.new.dirty.marked ≡ []) }
        ensures memory { self.new.memory ≡ self.old.memory }
        ensures err { OnErr result (self.new ≡ self.old) }
    {
        self.sender.round(&self.memory, &self.dirty)?;
        self.dirty.clear();
        Ok(())
    }

    /// Sends what is left of a guest that is paused now, and ends the stream. A load of it gives
    /// the guest's memory as it is here.
    pub fn finish(mut self) -> Result<Vec<u8, A>, SendFault>
        ensures { IfOk result (λ text. (sent : List Snapshot) → IsTracked self sent → BringsMemory self.memory text.items) }
    {
        self.send_round()?;
        let LiveGuest {
            memory: _,
            dirty: _,
            sender,
        } = self;
        match sender.finish() {
            Ok(text) => Ok(text),
            Err(_) => Err(SendFault::NoMemory),
        }
    }
}

#[cfg(test)]
mod tests {
    use super::*;
    use crate::restore;
    use mig_fixtures::{at, is_full, table};
    use zimgasol::PAGE_SIZE_4K;

    // The first round has pages 0 and 3 of four. The second has page 3 alone, which was written
    // again. The other pages have no record: the stream has 61 bytes before its rounds, 18 for
    // each, and 19 at its end. The first page names its block, in 7 bytes.
    #[test]
    fn two_rounds(rt: HostRuntime) {
        let table = table(rt.alloc(), &[("pc.ram", 4)]).expect(&rt, "a table");
        let mut guest = LiveGuest::new(rt.alloc(), &table).expect(&rt, "a guest");
        assert!(rt;
            guest.write(0, 0, 1) && guest.write(0, 12_288, 2) && !guest.write(0, 16_384, 3)
        );
        assert!(rt; guest.dirty.count() == 2 && guest.send_round() == Ok(()));
        assert!(rt; guest.write(0, 12_289, 4) && guest.dirty.count() == 1);
        let text = guest.finish().expect(&rt, "a stream");
        assert_eq!(rt; text.len(), 61 + 18 + (4111 + 4104) + 18 + 4104 + 19);
        let there = restore(rt.alloc(), PAGE_SIZE_4K, &text, 1 << 20).expect(&rt, "a memory");
        assert!(rt; is_full(&there, at(0, 1), 0) && is_full(&there, at(0, 2), 0));
        let last = there.page(at(0, 3)).expect(&rt, "a page");
        assert!(rt; last.starts_with(&[2, 4, 0]));
    }
}
