//! Writes files under another name until they are complete.

ghost use Rattle.std.specs.Prelude.{OnOk};
ghost use Rattle.std.specs.Io.KnownBytes.{Appends};

use crate::opened::unfit;
use crate::shown_name;
use crate::trouble::{Trouble, Unfit};
use std::alloc::Global;
use std::fs::{File, Files, OpenFile};
use std::io::{self, ErrorKind, Write};

/// The suffix of the name of an incomplete file.
pub const PARTIAL: &str = ".partial";

/// Returns the error on the file or folder `path`, for which the system reports `error`.
pub fn unwritten(alloc: Global, path: &str, error: io::Error) -> Trouble {
    match shown_name(alloc, path) {
        Ok(path) => Trouble::OfFile(path, error),
        Err(_) => Trouble::NoMemory,
    }
}

/// Refuses `path` if it exists, unless it is a plain file and `replace` is set.
///
/// # Errors
///
/// `Trouble::Exists` for a plain file, `Trouble::Unfit` for anything else, such as a link or a
/// folder. `Trouble::OfFile` if the system doesn't report whether there is one.
pub fn is_free<H: Files>(rt: &H, alloc: Global, path: &str, replace: bool) -> Result<(), Trouble> {
    let metadata = match rt.symlink_metadata(path) {
        Ok(metadata) => metadata,
        Err(error) if error.kind() == ErrorKind::NotFound => return Ok(()),
        Err(error) => return Err(unwritten(alloc, path, error)),
    };
    if !metadata.is_file() {
        return Err(unfit(alloc, path, Unfit::NoFile));
    }
    if replace {
        return Ok(());
    }
    Err(Trouble::Exists(shown_name(alloc, path)?))
}

/// Makes the file `path` for writing and reading. A file or a link of that name is removed first.
///
/// # Errors
///
/// `Trouble::OfFile` if it can't be made.
pub fn create<H: Files>(rt: &H, alloc: Global, path: &str) -> Result<H::File, Trouble> {
    let _left = rt.remove_file(path);
    match File::options()
        .read(true)
        .write(true)
        .create_new(true)
        .open(rt, path)
    {
        Ok(file) => Ok(file),
        Err(error) => Err(unwritten(alloc, path, error)),
    }
}

/// Removes the file `path`, if there is one.
///
/// # Errors
///
/// `Trouble::OfFile` if it can't be removed.
pub fn remove_old<H: Files>(rt: &H, alloc: Global, path: &str) -> Result<(), Trouble> {
    match rt.remove_file(path) {
        Ok(()) => Ok(()),
        Err(error) if error.kind() == ErrorKind::NotFound => Ok(()),
        Err(error) => Err(unwritten(alloc, path, error)),
    }
}

/// Renames the file `from` to `to`, which it replaces.
///
/// # Errors
///
/// `Trouble::OfFile` of `to`.
pub fn rename<H: Files>(rt: &H, alloc: Global, from: &str, to: &str) -> Result<(), Trouble> {
    match rt.rename(from, to) {
        Ok(()) => Ok(()),
        Err(error) => Err(unwritten(alloc, to, error)),
    }
}

/// Syncs a file to its disk.
pub fn sync<F: Write + OpenFile>(file: &mut F) -> io::Result<()> {
    file.flush()?;
    file.sync_all()
}

/// A file that is being written, with its final name.
#[derive(Drop)]
pub struct Outlet<F: Drop> {
    pub alloc: Global,
    pub path: String,
    pub partial: String,
    pub file: F,
    /// The bytes that were written.
    pub written: u64,
}

impl<F: Write + OpenFile + Drop> Outlet<F> {
    /// Writes `bytes`.
    ///
    /// # Errors
    ///
    /// `Trouble::OfFile` if they can't be written.
    pub fn write(&mut self, bytes: &[u8]) -> Result<(), Trouble>
        ensures { OnOk result (Appends (F.contents self.old.file) (F.contents self.new.file) bytes.now) }
    {
        self.written = self.written.saturating_add(bytes.len() as u64);
        match self.file.write_all(bytes) {
            Ok(()) => Ok(()),
            Err(error) => Err(unwritten(self.alloc, &self.partial, error)),
        }
    }

    /// Syncs the file to its disk.
    ///
    /// # Errors
    ///
    /// `Trouble::OfFile` if the system reports a failure.
    pub fn sync(&mut self) -> Result<(), Trouble> {
        match sync(&mut self.file) {
            Ok(()) => Ok(()),
            Err(error) => Err(unwritten(self.alloc, &self.partial, error)),
        }
    }

    /// Gives the file its final name.
    ///
    /// # Errors
    ///
    /// `Trouble::OfFile` if it can't be renamed.
    pub fn rename<H: Files>(&self, rt: &H) -> Result<(), Trouble> {
        rename(rt, self.alloc, &self.partial, &self.path)
    }
}
