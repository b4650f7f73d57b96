//! A load of one stream into blocks of C, by its source: the only one is the main stream.

ghost use Rattle.std.specs.Prelude.{◌≡◌, ◌↔◌, None, IsTrue};
ghost use Rattle.mig_sources.specs.declared.source.Source.TheVariants.{Main as main_source};
ghost use Rattle.mig_mem.specs.Lent.{mut_lent_bytes};
ghost use Rattle.mig_c_loads.specs.OneStream.{FeedsOne, EndsOne, CountsOne, TakesOne, ValidOne, FaultOne, AllInOne, fault_in};
ghost use Rattle.mig_c_loads.specs.ZeroBlocks.{AreZerosBut};

use crate::fault::{FoundFault, none};
use crate::held_load::HeldLoad;
use crate::next_bytes::NextBytes;
use mig_c_calls::status::{BAD_SOURCE, DONE, RUNNING};
use mig_sources::Source;
use std::alloc::Global;

/// Returns whether a source is the main stream.
pub(crate) fn is_main(source: Source) -> bool
    ensures { IsTrue result ↔ source ≡ main_source }
{
    matches!(source, Source::Main)
}

/// Returns the fault of a stream, if it has one so far.
pub(crate) fn fault_in(found: FoundFault) -> FoundFault
    ensures { result ≡ fault_in found }
{
    if found.number == RUNNING {
        return none();
    }
    found
}

impl HeldLoad {
    /// Feeds the next piece of the main stream, and reports how many bytes of it were taken.
    pub fn feed_source(
        &mut self,
        alloc: Global,
        blocks: &mut [&mut [u8]],
        source: Source,
        piece: &[u8],
        taken: &mut usize,
    ) -> u32
        requires zeros { AreZerosBut self.old.filled (mut_lent_bytes blocks.old) }
        ensures feeds { FeedsOne source piece.now (mut_lent_bytes blocks.old) (mut_lent_bytes blocks.new) taken.new result self.old.load self.new.load }
        ensures zeros { AreZerosBut self.new.filled (mut_lent_bytes blocks.new) }
        ensures kept { self.new.filled ≡ None ↔ self.old.filled ≡ None }
    {
        *taken = 0;
        if !is_main(source) {
            return BAD_SOURCE;
        }
        let status = self.feed(alloc, blocks, piece);
        if status == DONE {
            *taken = piece.len();
        }
        status
    }

    /// Ends the main stream.
    pub fn end_source(&mut self, source: Source) -> u32
        ensures ends { EndsOne source result self.old.load self.new.load }
        ensures filled { self.new.filled ≡ self.old.filled }
    {
        if !is_main(source) {
            return BAD_SOURCE;
        }
        self.end();
        DONE
    }

    /// Returns whether bytes of a source are read now.
    pub fn takes(&self, source: Source) -> bool
        ensures { TakesOne source result self.now.load }
    {
        let mut next = NextBytes {
            len: 0,
            is_page: 0,
            block: 0,
            offset: 0,
        };
        let wanted = self.wanted(&mut next);
        is_main(source) && !self.ended() && wanted
    }

    /// Returns how many bytes of a source were fed.
    pub fn fed_of(&self, source: Source) -> u64
        ensures { CountsOne source result self.now.load.fed }
    {
        if is_main(source) { self.fed() } else { 0 }
    }

    /// Returns whether it is known how many bytes of a source are complete items without a fault,
    /// and reports how many.
    pub fn valid_of(&self, source: Source, at: &mut u64) -> bool
        ensures { ValidOne source result at.old at.new self.now.load }
    {
        if !is_main(source) {
            return false;
        }
        self.valid_up_to(at)
    }

    /// Reports the fault of a source's bytes so far, or that they have none.
    pub fn fault_of(&self, source: Source, found: &mut FoundFault) -> u32
        ensures { FaultOne source result found.old found.new self.now.load }
    {
        let verdict = self.fault();
        if !is_main(source) {
            return BAD_SOURCE;
        }
        let fault = fault_in(verdict);
        *found = fault;
        fault.number
    }

    /// Returns whether all rounds are in: the stream is closed.
    pub fn has_all_rounds(&self) -> bool
        ensures { AllInOne result self.now.load }
    {
        let mut at = 0;
        self.closed_at(&mut at) == DONE
    }
}
