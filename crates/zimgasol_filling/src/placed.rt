//! The files of a guest's blocks.

ghost use Rattle.std.specs.Prelude.{◌≡◌, ℕ, Option, OnOk};
ghost use Rattle.zimgasol_filling.specs.Filled.{HaveOneBlock, WritesAt};

use zimgasol_reading::SinkTrouble;

/// Files of blocks, which are written at any place.
pub trait PlacedFiles {
    /// The file with this number has these bytes, and zeros after its end. Nothing is known of a
    /// file for which that holds of no bytes.
    ghost has: { Self → ℕ → (ℕ → ℕ) → Type 0 };

    /// The number of a block's file, if it has one.
    ghost file: { Self → ℕ → Option ℕ };

    /// Returns the number of a block's file; None if the block isn't written. Each file is of one
    /// block.
    fn file_of(&self, block: usize) -> Option<usize>
        ensures value { result ≡ file self.now block }
        ensures own { HaveOneBlock (file self.now) };

    /// Writes `bytes` to a file from its byte `at` on.
    ///
    /// # Errors
    ///
    /// The trouble that the file had.
    fn write_at(&mut self, number: usize, at: u64, bytes: &[u8]) -> Result<(), SinkTrouble>
        ensures bytes { OnOk result (WritesAt (has self.old) (has self.new) number at bytes.now) }
        ensures files { OnOk result (file self.new ≡ file self.old) };
}
