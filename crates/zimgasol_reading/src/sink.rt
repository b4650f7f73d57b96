//! The traits of a sink, which takes the pages of a stream as they are read.

ghost use Rattle.std.specs.Prelude.{◌≡◌, List, [], ◌∷◌, ◌++◌, length, IfSome, OnOk, ⊤};
ghost use Rattle.std.specs.Option.{option_copied};
ghost use Rattle.mig_mem.specs.RamTable.{RamTable};
ghost use Rattle.mig_mem.specs.Place.{IsPlace};
ghost use Rattle.mig_stream.specs.PageRecord.{PageRecord};
ghost use Rattle.zimgasol_reading.specs.Recorded.{StillHolds};

use mig_mem::{NoMemory, Place, Table};
use std::alloc::{AllocError, Global};
use std::fs::Files;
use std::io;
use zimgasol_files::{Trouble, shown_name};

/// Why a sink doesn't take a page.
#[derive(Drop)]
pub enum SinkTrouble {
    /// An allocation was refused.
    NoMemory,
    /// A file of this name can't be written. The name is as it is printed.
    OfFile(String, io::Error),
}

impl SinkTrouble {
    /// Returns the trouble of the file `path`, which can't be written.
    pub fn unwritten(alloc: Global, path: &str, error: io::Error) -> SinkTrouble {
        match shown_name(alloc, path) {
            Ok(path) => SinkTrouble::OfFile(path, error),
            Err(_) => SinkTrouble::NoMemory,
        }
    }
}

impl From<AllocError> for SinkTrouble {
    fn from(_: AllocError) -> SinkTrouble {
        SinkTrouble::NoMemory
    }
}

impl From<NoMemory> for SinkTrouble {
    fn from(_: NoMemory) -> SinkTrouble {
        SinkTrouble::NoMemory
    }
}

impl From<SinkTrouble> for Trouble {
    fn from(trouble: SinkTrouble) -> Trouble {
        match trouble {
            SinkTrouble::NoMemory => Trouble::NoMemory,
            SinkTrouble::OfFile(name, error) => Trouble::OfFile(name, error),
        }
    }
}

/// Takes the pages of a stream, in the order of its records.
pub trait PageSink {
    /// What holds of it once it has taken this table, and then the pages of these records.
    ghost holds: { Self → RamTable → List PageRecord → Type 0 };

    /// Takes the content of a page from its record: its bytes, or None for a page of zeros.
    ///
    /// # Errors
    ///
    /// The trouble that the sink had.
    fn take_page(&mut self, place: Place, content: Option<&[u8]>) -> Result<(), SinkTrouble>
        ensures { OnOk result ((table : RamTable) (records : List PageRecord) → IsPlace table place → IfSome content.entry (λ bytes. length bytes.now ≡ table.page_size)
            → holds self.old table records → holds self.new table (records ++ record { place = place; content = option_copied content.entry } ∷ [])) };
}

/// A sink that takes the stream's table first.
pub trait GuestSink<H: Files>: PageSink {
    /// Takes the stream's table, once, before the first page.
    ///
    /// # Errors
    ///
    /// The trouble that the sink had.
    fn begin(&mut self, rt: &H, table: &Table) -> Result<(), Trouble>
        ensures { OnOk result (Self.holds self.new table.now []) };

    /// Lets the sink work beside the reading: between two pieces of a single stream.
    ///
    /// # Errors
    ///
    /// The trouble that the sink had.
    fn between_pieces(&mut self, _rt: &H) -> Result<(), Trouble>
        ensures { OnOk result (StillHolds (Self.holds self.old) (Self.holds self.new)) }
    {
        Ok(())
    }

    /// Returns whether the sink takes the bytes before and after RAM.
    fn keeps_state(&self) -> bool {
        false
    }

    /// Takes libvirt's header, which may be empty, and the stream's bytes up to the end of its size
    /// list: once, after the table.
    ///
    /// # Errors
    ///
    /// The trouble that the sink had.
    fn take_front(&mut self, _rt: &H, _libvirt: &[u8], _stream: &[u8]) -> Result<(), Trouble>
        ensures { OnOk result (StillHolds (Self.holds self.old) (Self.holds self.new)) }
    {
        Ok(())
    }

    /// Takes the next bytes after RAM, up to the end of the input.
    ///
    /// # Errors
    ///
    /// The trouble that the sink had.
    fn take_after(&mut self, _bytes: &[u8]) -> Result<(), Trouble>
        ensures { OnOk result (StillHolds (Self.holds self.old) (Self.holds self.new)) }
    {
        Ok(())
    }
}

/// Takes pages, and drops them.
#[derive(Drop)]
pub struct NoSink;

impl PageSink for NoSink {
    ghost use Rattle.std.specs.Prelude.{⊤};

    ghost holds = { λ _ _ _. ⊤ };

    fn take_page(&mut self, _place: Place, _content: Option<&[u8]>) -> Result<(), SinkTrouble> {
        Ok(())
    }
}

impl<H: Files> GuestSink<H> for NoSink {
    fn begin(&mut self, _rt: &H, _table: &Table) -> Result<(), Trouble> {
        Ok(())
    }
}
