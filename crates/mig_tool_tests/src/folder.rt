//! A test's own folder for its files.

use std::alloc::AllocGlobal;
use std::fmt::Write;
use std::fs::{self, Files};
use std::process::Abort;

/// A folder that was made for a test.
#[derive(Drop)]
pub(crate) struct Folder {
    path: String,
}

impl Folder {
    /// Returns an empty folder for the test with this name. The folder's name also has the
    /// process's number, so no other run has the same.
    pub(crate) fn new(rt: &(impl AllocGlobal + Files + Abort), name: &str) -> Folder {
        // (a link to the folder of this process, which has its number as its name)
        let process = fs::read_link(rt, "/proc/self").expect(rt, "the process's number");
        let number = process.as_str();
        let mut path = String::new(rt.alloc());
        assert!(rt; write!(path, "/tmp/mig_tool_tests_{name}_{number}").is_ok());
        // (the files of an earlier failed run with this number)
        let _left = fs::remove_dir_all(rt, path.as_str());
        assert!(rt; fs::create_dir(rt, path.as_str()).is_ok(), "a folder");
        Folder { path }
    }

    /// Returns the path of a file in it.
    pub(crate) fn path(&self, rt: &(impl AllocGlobal + Abort), name: &str) -> String {
        let mut path = String::new(rt.alloc());
        assert!(rt; write!(path, "{}/{name}", self.path).is_ok());
        path
    }

    /// Makes a file with these bytes, or replaces it.
    pub(crate) fn put(&self, rt: &(impl AllocGlobal + Files + Abort), name: &str, bytes: &[u8]) {
        let path = self.path(rt, name);
        assert!(rt; fs::write(rt, path.as_str(), bytes).is_ok(), "a file");
    }

    /// Returns the bytes of a file.
    pub(crate) fn bytes(&self, rt: &(impl AllocGlobal + Files + Abort), name: &str) -> Vec<u8> {
        let path = self.path(rt, name);
        fs::read(rt, path.as_str()).expect(rt, "a file")
    }

    /// Removes the folder with all files.
    pub(crate) fn remove(self, rt: &(impl AllocGlobal + Files + Abort)) {
        assert!(rt; fs::remove_dir_all(rt, self.path.as_str()).is_ok());
    }
}
