//! The files that `extract` writes blocks into.

ghost use Rattle.zimgasol_filling.specs.Filled.{HaveOneBlock};

use crate::placed::PlacedFiles;
use std::alloc::{AllocError, Global};
use std::io::{Seek, Write};
use zimgasol_files::{BlockFile, write_at};
use zimgasol_reading::SinkTrouble;

/// The files of the blocks that are extracted, each of one block.
#[derive(Drop)]
pub struct BlockFiles<F: Drop> {
    alloc: Global,
    /// The files.
    pub files: Vec<BlockFile<F>>,
    // the block of each file
    blocks: Vec<usize>,
}

impl<F: Drop> BlockFiles<F> {
    /// Creates the files of no block.
    pub fn new(alloc: Global) -> BlockFiles<F> {
        BlockFiles {
            alloc,
            files: Vec::new(alloc),
            blocks: Vec::new(alloc),
        }
    }

    /// Makes room for a file, so that `push` takes no memory.
    ///
    /// # Errors
    ///
    /// `AllocError`: an allocation was refused.
    pub fn reserve(&mut self) -> Result<(), AllocError> {
        self.files.reserve(1)?;
        self.blocks.reserve(1)?;
        Ok(())
    }

    /// Adds a file.
    ///
    /// # Errors
    ///
    /// `AllocError`: an allocation was refused.
    pub fn push(&mut self, file: BlockFile<F>) -> Result<(), AllocError> {
        self.blocks.push(file.block)?;
        self.files.push(file)?;
        Ok(())
    }
}

impl<F: Write + Seek + Drop> PlacedFiles for BlockFiles<F> {
    ghost use Rattle.zimgasol_filling.specs.Filled.{unknown, file_in};

    // nothing is known of the system's files
    ghost has = { λ _. unknown };

    ghost file = { λ f. file_in f.blocks.items };

    fn file_of(&self, block: usize) -> Option<usize> {
        self.blocks.iter().position(|other| *other == block)
    }

    fn write_at(&mut self, number: usize, at: u64, bytes: &[u8]) -> Result<(), SinkTrouble> {
        let Some(file) = self.files.get_mut(number) else {
            return Err(SinkTrouble::NoMemory);
        };
        match write_at(&mut file.file, at, bytes) {
            Ok(()) => Ok(()),
            Err(error) => Err(SinkTrouble::unwritten(self.alloc, &file.partial_path, error)),
        }
    }
}
