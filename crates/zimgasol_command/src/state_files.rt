//! The files of a machine's state beside its RAM, which `extract` writes into the folder `state`:
//! what is before RAM's records, and what is after RAM.

use std::alloc::{AllocError, Global};
use std::fs::{Files, OpenFile};
use std::io::{ErrorKind, Write};
use zimgasol_files::{
    AFTER_NAME, BEFORE_NAME, LIBVIRT_NAME, PARTIAL, STATE_NAME, Trouble, create, is_free, path_in,
    remove_old, rename, state_path, sync, unwritten,
};

// A file of the state. Its names are made before any file is, so that removing and renaming take no
// memory.
#[derive(Drop)]
struct StateFile<F: Drop> {
    path: String,
    partial: String,
    // None until it is made
    file: Option<F>,
}

impl<F: Write + OpenFile + Drop> StateFile<F> {
    fn new(alloc: Global, folder: &str, name: &str) -> Result<StateFile<F>, AllocError> {
        Ok(StateFile {
            path: state_path(alloc, folder, name, "")?,
            partial: state_path(alloc, folder, name, PARTIAL)?,
            file: None,
        })
    }

    // Writes `bytes`, if the file was made.
    fn write(&mut self, alloc: Global, bytes: &[u8]) -> Result<(), Trouble> {
        let Some(file) = &mut self.file else {
            return Ok(());
        };
        match file.write_all(bytes) {
            Ok(()) => Ok(()),
            Err(error) => Err(unwritten(alloc, &self.partial, error)),
        }
    }

    // Syncs the file to its disk, if it was made.
    fn sync(&mut self, alloc: Global) -> Result<(), Trouble> {
        let Some(file) = &mut self.file else {
            return Ok(());
        };
        match sync(file) {
            Ok(()) => Ok(()),
            Err(error) => Err(unwritten(alloc, &self.partial, error)),
        }
    }

    // Gives the file its final name. If it wasn't made, removes an old one.
    fn complete<H: Files>(&self, rt: &H, alloc: Global) -> Result<(), Trouble> {
        match self.file {
            Some(_) => rename(rt, alloc, &self.partial, &self.path),
            None => remove_old(rt, alloc, &self.path),
        }
    }

    // Removes the file, if it was made and has no final name.
    fn remove<H: Files>(&self, rt: &H) {
        if self.file.is_some() {
            let _left = rt.remove_file(&self.partial);
        }
    }
}

/// The files of the state.
#[derive(Drop)]
pub(crate) struct StateFiles<F: Drop> {
    alloc: Global,
    folder: String,
    /// Whether the state is kept. Otherwise an old one is removed.
    pub is_kept: bool,
    // whether this run made the folder, and whether old files are replaced
    made: bool,
    replaces: bool,
    libvirt: StateFile<F>,
    before: StateFile<F>,
    after: StateFile<F>,
}

impl<F: Write + OpenFile + Drop> StateFiles<F> {
    /// Creates the files of the state in `folder`, before any is made.
    ///
    /// # Errors
    ///
    /// `AllocError`: an allocation was refused.
    pub(crate) fn new(
        alloc: Global,
        folder: &str,
        is_kept: bool,
    ) -> Result<StateFiles<F>, AllocError> {
        Ok(StateFiles {
            alloc,
            folder: path_in(alloc, folder, STATE_NAME, "")?,
            is_kept,
            made: false,
            replaces: false,
            libvirt: StateFile::<F>::new(alloc, folder, LIBVIRT_NAME)?,
            before: StateFile::<F>::new(alloc, folder, BEFORE_NAME)?,
            after: StateFile::<F>::new(alloc, folder, AFTER_NAME)?,
        })
    }

    // Returns whether there is a folder of a state.
    fn is_there<H: Files>(&self, rt: &H) -> Result<bool, Trouble> {
        match rt.metadata(&self.folder) {
            Ok(metadata) => Ok(metadata.is_dir()),
            Err(error) if error.kind() == ErrorKind::NotFound => Ok(false),
            Err(error) => Err(unwritten(self.alloc, &self.folder, error)),
        }
    }

    /// Refuses old files, unless `replace` is set: also if no state is kept, since an old state
    /// isn't that of the memory that is extracted.
    ///
    /// # Errors
    ///
    /// Those of `is_free`.
    pub(crate) fn check_free<H: Files>(&mut self, rt: &H, replace: bool) -> Result<(), Trouble> {
        if !self.is_there(rt)? {
            return Ok(());
        }
        self.replaces = replace;
        is_free(rt, self.alloc, &self.libvirt.path, replace)?;
        is_free(rt, self.alloc, &self.before.path, replace)?;
        is_free(rt, self.alloc, &self.after.path, replace)
    }

    // Makes the folder, unless there is one.
    fn make_folder<H: Files>(&mut self, rt: &H) -> Result<(), Trouble> {
        match rt.create_dir(&self.folder) {
            Ok(()) => {
                self.made = true;
                Ok(())
            }
            Err(error) if error.kind() == ErrorKind::AlreadyExists => Ok(()),
            Err(error) => Err(unwritten(self.alloc, &self.folder, error)),
        }
    }

    /// Makes the files, and writes `libvirt` and `stream` into those before RAM. Without bytes of
    /// libvirt's there is no file of it.
    ///
    /// # Errors
    ///
    /// `Trouble::OfFile` if a file can't be made or written.
    pub(crate) fn begin<H: Files<File = F>>(
        &mut self,
        rt: &H,
        libvirt: &[u8],
        stream: &[u8],
    ) -> Result<(), Trouble> {
        self.make_folder(rt)?;
        if !libvirt.is_empty() {
            self.libvirt.file = Some(create(rt, self.alloc, &self.libvirt.partial)?);
        }
        self.before.file = Some(create(rt, self.alloc, &self.before.partial)?);
        self.after.file = Some(create(rt, self.alloc, &self.after.partial)?);
        self.libvirt.write(self.alloc, libvirt)?;
        self.before.write(self.alloc, stream)
    }

    /// Returns whether the files were made.
    pub(crate) fn are_made(&self) -> bool {
        self.before.file.is_some()
    }

    /// Writes the next bytes after RAM.
    ///
    /// # Errors
    ///
    /// `Trouble::OfFile` if they can't be written.
    pub(crate) fn write_after(&mut self, bytes: &[u8]) -> Result<(), Trouble> {
        self.after.write(self.alloc, bytes)
    }

    /// Syncs the files to their disk.
    ///
    /// # Errors
    ///
    /// `Trouble::OfFile` if the system reports a failure.
    pub(crate) fn sync(&mut self) -> Result<(), Trouble> {
        self.libvirt.sync(self.alloc)?;
        self.before.sync(self.alloc)?;
        self.after.sync(self.alloc)
    }

    // Gives the files their final names, and removes old ones that have none now.
    fn complete_all<H: Files>(&self, rt: &H) -> Result<(), Trouble> {
        self.libvirt.complete(rt, self.alloc)?;
        self.before.complete(rt, self.alloc)?;
        self.after.complete(rt, self.alloc)
    }

    /// Gives the files their final names. If no state is kept, removes an old one.
    ///
    /// # Errors
    ///
    /// `Trouble::OfFile` if a file can't be renamed or removed.
    pub(crate) fn complete<H: Files>(&self, rt: &H) -> Result<(), Trouble> {
        if !self.is_kept && !self.replaces {
            return Ok(());
        }
        self.complete_all(rt)?;
        if !self.is_kept {
            let _left = rt.remove_dir(&self.folder);
        }
        Ok(())
    }

    /// Removes the files that have no final name, and the folder if this run made it. It takes no
    /// memory.
    pub(crate) fn remove<H: Files>(&self, rt: &H) {
        self.libvirt.remove(rt);
        self.before.remove(rt);
        self.after.remove(rt);
        if self.made {
            let _left = rt.remove_dir(&self.folder);
        }
    }
}
