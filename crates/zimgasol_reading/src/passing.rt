//! Passes the pages that a load writes to a sink.

ghost use Rattle.std.specs.Prelude.{◌≡◌, List, [], ◌∷◌, ◌++◌, length, IfSome, IsNone};
ghost use Rattle.std.specs.Option.{option_copied};
ghost use Rattle.mig_mem.specs.RamTable.{RamTable};
ghost use Rattle.mig_mem.specs.Place.{IsPlace};
ghost use Rattle.mig_mem.specs.Image.{IsImage, zero_image, zero_page, with_page};
ghost use Rattle.mig_stream.specs.PageRecord.{PageRecord};
ghost use Rattle.zimgasol_reading.specs.Passed.{HasPassed};

use crate::load::Reporting;
use crate::shadow::Shadow;
use crate::sink::{PageSink, SinkTrouble};
use mig_mem::{GuestTarget, Place, Table};
use std::alloc::Global;
use std::marker::Model;
use std::mem;

/// The memory that a load is passed: each page that it writes is passed to a sink. Once the sink
/// had a trouble, no more pages are passed.
#[derive(Drop)]
pub(crate) struct Passing<S: PageSink + Drop> {
    table: Table,
    shadow: Shadow,
    sink: S,
    // the first trouble of the sink; once it was taken, that there was one
    trouble: Option<SinkTrouble>,
}

impl<S: PageSink + Drop> Model for Passing<S> {
    ghost use Rattle.std.specs.Prelude.{◌≡◌, IsNone};
    ghost use Rattle.mig_mem.specs.Image.{Image, IsImage};
    ghost use Rattle.zimgasol_reading.specs.Passed.{HasPassed};

    ghost Value = { Image };

    ghost view = { λ p. p.shadow.image };

    ghost invariant = { λ p. IsImage p.shadow.image × (p.shadow.image.table ≡ p.table) × (IsNone p.trouble → HasPassed (S.holds p.sink) p.shadow.image) };
}

// Passes a page to `sink`, unless there was a trouble.
fn pass<S: PageSink>(
    sink: &mut S,
    trouble: &mut Option<SinkTrouble>,
    place: Place,
    content: Option<&[u8]>,
)
    ensures none { IsNone trouble.new → IsNone trouble.old }
    ensures taken { IsNone trouble.new → (table : RamTable) (records : List PageRecord) → IsPlace table place → IfSome content.entry (λ bytes. length bytes.now ≡ table.page_size)
        → S.holds sink.old table records → S.holds sink.new table (records ++ record { place = place; content = option_copied content.entry } ∷ []) }
{
    if trouble.is_some() {
        return;
    }
    if let Err(found) = sink.take_page(place, content) {
        *trouble = Some(found);
    }
}

impl<S: PageSink + Drop> Passing<S> {
    /// Creates the memory of `table`, whose pages are passed to `sink`. The sink has the table.
    pub(crate) fn new(table: Table, sink: S) -> Passing<S>
        requires { S.holds sink table [] }
        ensures { result ≡ zero_image table }
    {
        let shadow = Shadow::new(&table);
        Passing {
            table,
            shadow,
            sink,
            trouble: None,
        }
    }

    /// Returns the sink, and whether it had a trouble. If it had none, it has taken records that
    /// make the memory.
    pub(crate) fn into_sink(self) -> (Option<SinkTrouble>, S)
        ensures image { IsImage self }
        ensures passed { IsNone result.0 → HasPassed (S.holds result.1) self }
    {
        (self.trouble, self.sink)
    }
}

impl<S: PageSink + Drop> Reporting for Passing<S> {
    fn check(&mut self) -> Result<(), SinkTrouble> {
        match &mut self.trouble {
            Some(trouble) => Err(mem::replace(trouble, SinkTrouble::NoMemory)),
            None => Ok(()),
        }
    }
}

impl<S: PageSink + Drop> GuestTarget for Passing<S> {
    type Alloc = Global;

    ghost image = { λ m. m };

    fn table(&self) -> &Table {
        &self.table
    }

    fn put_page(&mut self, place: Place, bytes: &[u8]) {
        pass(&mut self.sink, &mut self.trouble, place, Some(bytes));
        self.shadow = self.shadow.with(&place, bytes);
    }

    fn put_zero_page(&mut self, place: Place) {
        pass(&mut self.sink, &mut self.trouble, place, None);
        self.shadow = self.shadow.with_zeros(&place);
    }
}
