//! Gives the bytes of the plain stream that has the memory of a file with mapped-ram.

ghost use Rattle.std.specs.Prelude.{◌≡◌, ◌<◌, ◌≤◌, ℕ, List, Some, length, IfOk};
ghost use Rattle.std.specs.Option.{option_map};
ghost use Rattle.zimgasol_mapped.specs.Plain.{plain_stream};

use crate::course::Course;
use crate::placed::PlacedFile;
use mig_mapped::MappedIndex;
use std::alloc::Global;
use std::io::{self, Read};
use std::marker::Model;
use zimgasol_files::Trouble;

/// A file with mapped-ram, read as the plain stream of the same memory.
///
/// It gives libvirt's header and XML, with the format 0 of a stream that isn't packed, if the file
/// has them. Then come the front without the capability, the size list, a record for each page, and
/// the file's bytes after the last block's pages. A page whose bit isn't set has a record of zeros.
/// If the file ends among the pages, the stream ends after the last complete page.
///
/// Contracts see it as the bytes that are still to come, where those of the file are known.
#[derive(Drop)]
pub struct Plain<F: PlacedFile + Drop> {
    course: Course<F>,
}

impl<F: PlacedFile + Drop> Model for Plain<F> {
    ghost use Rattle.std.specs.Prelude.{ℕ, List, Option};
    ghost use Rattle.zimgasol_mapped.specs.Course.{left_of, IsCourse};

    ghost Value = { Option (List ℕ) };

    ghost view = { λ p. left_of F.file_bytes p.course };

    ghost invariant = { λ p. IsCourse F.file_bytes p.course };
}

impl<F: PlacedFile + Drop> Plain<F> {
    /// Creates the plain stream of a file. Its heads are in `index`, `front` is the front without
    /// the capability, and `before` the number of the file's bytes before the stream.
    ///
    /// # Errors
    ///
    /// `Trouble::NoMemory`.
    pub(crate) fn new(
        alloc: Global,
        file: F,
        index: MappedIndex,
        front: Vec<u8>,
        before: u64,
    ) -> Result<Plain<F>, Trouble>
        requires index { index.left ≡ 0 }
        requires size { 0 < index.given.page_size }
        requires before { (bytes : List ℕ) → F.file_bytes file ≡ Some bytes → before ≤ length bytes }
        ensures { IfOk result (λ p. p ≡ option_map (λ bytes. plain_stream bytes before front.items index) (F.file_bytes file)) }
    {
        let course = Course::new(alloc, file, index, front, before)?;
        Ok(Plain { course })
    }
}

impl<F: PlacedFile + Drop> Read for Plain<F> {
    ghost remaining = { λ left. left };

    fn read(&mut self, buf: &mut [u8]) -> io::Result<usize> {
        self.course.fill()?;
        Ok(self.course.give(buf))
    }
}
