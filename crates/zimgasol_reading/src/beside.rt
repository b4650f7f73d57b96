//! What a survey notes of a stream beside its blocks and its pages.

use crate::front::FrontPlaces;
use crate::heads::Head;
use crate::notes::Notes;
use mig_mem::Place;
use mig_stream::Report;
use std::fs::Files;
use std::io::Write;
use std::rt::Clock;
use zimgasol_files::{Trouble, Watch};

/// Notes what is printed of a stream beside its blocks.
pub(crate) trait Beside<H> {
    /// Returns the handle by which files are opened.
    fn rt(&self) -> &H;

    /// Takes the page of a page record.
    fn set_last(&mut self, place: Place);

    /// Takes the items that were passed over out of `report`.
    fn note(&mut self, report: &mut Report) -> Result<(), Trouble>;

    /// Returns where the bytes before RAM's records stand, once the first section with pages began.
    fn front(&self) -> Option<FrontPlaces>;

    /// Sees a piece of the stream, which begins at its byte `start`. The stream is valid up to the
    /// byte `valid`.
    fn look(&mut self, piece: &[u8], start: u64, valid: u64) -> Result<(), Trouble>;

    /// Counts `len` bytes more of the input, and shows the progress.
    fn progress(&mut self, len: usize);
}

/// The parts of a survey that note what a stream has beside its blocks.
#[derive(Drop)]
pub(crate) struct Parts<'a, H, E> {
    pub(crate) rt: &'a H,
    pub(crate) errors: &'a mut E,
    pub(crate) last: &'a mut Option<Place>,
    pub(crate) notes: &'a mut Notes,
    pub(crate) head: &'a mut Head,
    pub(crate) watch: &'a mut Watch,
    pub(crate) len: &'a mut u64,
}

impl<'a, H: Files + Clock, E: Write> Beside<H> for Parts<'a, H, E> {
    fn rt(&self) -> &H {
        self.rt
    }

    fn set_last(&mut self, place: Place) {
        *self.last = Some(place);
    }

    fn note(&mut self, report: &mut Report) -> Result<(), Trouble> {
        self.notes.take(report)?;
        Ok(())
    }

    fn front(&self) -> Option<FrontPlaces> {
        self.notes.front()
    }

    fn look(&mut self, piece: &[u8], start: u64, valid: u64) -> Result<(), Trouble> {
        self.head.look(piece, start, valid)?;
        Ok(())
    }

    fn progress(&mut self, len: usize) {
        *self.len = self.len.saturating_add(len as u64);
        self.watch.show(self.rt, self.errors, *self.len);
    }
}
