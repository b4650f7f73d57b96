//! Reads the channels of a migration, each from a file. The packets of devices are passed over:
//! the load takes the other bytes.

ghost use Rattle.std.specs.Prelude.{◌≡◌, ◌≤◌, IfOk, OnOk};
ghost use Rattle.zimgasol_reading.specs.Inlets.{inlet_left};
ghost use Rattle.zimgasol_reading.specs.Left.{inlets_of};
ghost use Rattle.zimgasol_reading.specs.Loaded.{TakesOf};

use crate::blocks::Blocks;
use crate::inlet::Inlet;
use crate::lane::Lane;
use crate::load::{Load, Reporting};
use mig_sources::Source;
use std::alloc::Global;
use std::fs::OpenFile;
use std::io::Read;
use uuid::Uuid;
use zimgasol_files::{PageSize, Trouble};

/// A channel: its file, and the reading of its bytes.
#[derive(Drop)]
pub struct Channel<F: Drop> {
    pub inlet: Inlet<F>,
    pub lane: Lane,
}

/// Creates a channel for each file. Their hellos have to have `uuid`.
pub(crate) fn channels_of<F: Read + OpenFile + Drop>(
    alloc: Global,
    inlets: Vec<Inlet<F>>,
    page_size: PageSize,
    uuid: Uuid,
) -> Result<Vec<Channel<F>>, Trouble>
    ensures { IfOk result (λ v. inlets_of v.items ≡ inlets.items) }
{
    let count = inlets.len();
    let mut channels = Vec::new(alloc);
    for inlet in inlets {
        let lane = Lane::new(alloc, page_size, uuid, count)?;
        channels.push(Channel { inlet, lane })?;
    }
    Ok(channels)
}

impl<F: Read + OpenFile + Drop> Channel<F> {
    /// Reads up to the end of the current round, and feeds it to `load` as `source`. Counts the
    /// pages in `blocks`.
    ///
    /// # Errors
    ///
    /// `Trouble::OfFile` if a read fails, `Trouble::NoMemory`, and those of the load's sink.
    pub(crate) fn read_round<M: Reporting>(
        &mut self,
        source: Source,
        blocks: &mut Option<Blocks>,
        load: &mut Load<M>,
    ) -> Result<(), Trouble>
        ensures { OnOk result (TakesOf source (inlet_left F.remaining self.old.inlet) (inlet_left F.remaining self.new.inlet) load.old load.new) }
    {
        'pieces: for _ in 0..u64::MAX {
            if !load.takes(source) {
                return Ok(());
            }
            let is_more = self.feed_piece(source, blocks, load)?;
            if !is_more {
                return Ok(());
            }
        }
        Ok(())
    }

    // Reads the next piece, and feeds it to `load`. If there is none, ends the channel, and returns
    // false.
    fn feed_piece<M: Reporting>(
        &mut self,
        source: Source,
        blocks: &mut Option<Blocks>,
        load: &mut Load<M>,
    ) -> Result<bool, Trouble>
        ensures { OnOk result (TakesOf source (inlet_left F.remaining self.old.inlet) (inlet_left F.remaining self.new.inlet) load.old load.new) }
    {
        let is_more = self.inlet.refill()?;
        let passed = self.inlet.passed_over().bytes;
        if !is_more {
            self.lane.pass_over(passed);
            load.end(source);
            return Ok(false);
        }
        let piece = self.inlet.waiting();
        let taken = load.feed(source, piece)?;
        self.lane.pass_over(passed);
        self.lane.count(&piece[..taken], blocks)?;
        self.inlet.take(taken);
        Ok(true)
    }
}
