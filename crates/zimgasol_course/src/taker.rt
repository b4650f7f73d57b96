//! The trait of a taker, which takes the records of a stream as they are read.

ghost use Rattle.std.specs.Prelude.{◌≡◌, List, [], ◌∷◌, ◌++◌, length, Option, None, Some, IfSome, OnOk};
ghost use Rattle.std.specs.Option.{option_copied};
ghost use Rattle.mig_mem.specs.RamTable.{RamTable};
ghost use Rattle.mig_mem.specs.Place.{IsPlace};
ghost use Rattle.mig_stream.specs.PageRecord.{PageRecord};
ghost use Rattle.zimgasol_course.specs.Course.{Keeps};
ghost use Rattle.zimgasol_course.specs.Seen.{Seen, StillSees, SeesPiece, SeesAfter};

use mig_mem::{Place, Table};
use mig_stream::{Report, StreamState};
use zimgasol_files::Trouble;

/// Takes the records of a stream, in their order, and what there is beside them.
pub trait Taker {
    /// What holds of it once it has taken this table, if any, and then these records.
    ghost holds: { Self → Option RamTable → List PageRecord → Type 0 };

    /// What holds of it once it has seen these bytes.
    ghost sees: { Self → Seen → Type 0 };

    /// Takes the stream's table, once, before the first record.
    fn begin(&mut self, table: &Table) -> Result<(), Trouble>
        ensures ok { OnOk result (holds self.old None [] → holds self.new (Some table.now) []) }
        ensures seen { OnOk result (StillSees (sees self.old) (sees self.new)) };

    /// Takes the content of a page from its record: its bytes, or None for a page of zeros.
    fn put(&mut self, place: Place, content: Option<&[u8]>) -> Result<(), Trouble>
        ensures ok { OnOk result ((table : RamTable) (records : List PageRecord) → IsPlace table place → IfSome content.entry (λ bytes. length bytes.now ≡ table.page_size)
            → holds self.old (Some table) records → holds self.new (Some table) (records ++ record { place = place; content = option_copied content.entry } ∷ [])) }
        ensures seen { OnOk result (StillSees (sees self.old) (sees self.new)) };

    /// Takes the items that were passed over since the last call out of `report`.
    fn note(&mut self, report: &mut Report) -> Result<(), Trouble>
        ensures ok { OnOk result (Keeps (holds self.old) (holds self.new)) }
        ensures seen { OnOk result (StillSees (sees self.old) (sees self.new)) };

    /// Sees a piece of the stream after it was read: up to which byte the stream is valid, where it
    /// stands, and its table once that is complete, also if nothing follows it yet.
    fn end_piece(
        &mut self,
        piece: &[u8],
        valid: u64,
        found: StreamState,
        table: Option<&Table>,
    ) -> Result<(), Trouble>
        ensures ok { OnOk result (Keeps (holds self.old) (holds self.new)) }
        ensures seen { OnOk result (SeesPiece (sees self.old) (sees self.new) piece.now valid found) };

    /// Sees bytes of a piece that precede the stream, before the others are read.
    fn look_before(&mut self, bytes: &[u8]) -> Result<(), Trouble>
        ensures ok { OnOk result (Keeps (holds self.old) (holds self.new)) }
        ensures seen { OnOk result (StillSees (sees self.old) (sees self.new)) };

    /// Sees a piece after the one in which the stream ended.
    fn look_after(&mut self, piece: &[u8]) -> Result<(), Trouble>
        ensures ok { OnOk result (Keeps (holds self.old) (holds self.new)) }
        ensures seen { OnOk result (SeesAfter (sees self.old) (sees self.new) piece.now) };

    /// Sees how many bytes of the input were read for a piece, once it was read.
    fn progress(&mut self, len: usize)
        ensures ok { Keeps (holds self.old) (holds self.new) }
        ensures seen { StillSees (sees self.old) (sees self.new) };
}
