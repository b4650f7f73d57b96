//! Keeps the bytes before RAM's records until they are complete, for a sink that takes them: no
//! file is made before the size list was accepted.

ghost use Rattle.std.specs.Prelude.{◌≡◌, ◌+◌, ◌≤◌, ◌++◌, length, take, drop, OnOk};

use std::alloc::{AllocError, Global};
use zimgasol_files::Trouble;

/// The most bytes before RAM's records that are kept: 64 MiB.
pub const MOST_FRONT_LEN: usize = 67_108_864;

/// Where the bytes before RAM's records stand in a stream.
#[derive(Clone, Copy)]
pub(crate) struct FrontPlaces {
    /// The type byte of START.
    pub(crate) start: u64,
    /// The byte after the size list.
    pub(crate) list_end: u64,
    /// The first byte of the devices' sections behind START, and the byte after them: 0 without any.
    pub(crate) behind: u64,
    pub(crate) behind_end: u64,
}

impl FrontPlaces {
    /// Returns those of no byte.
    pub(crate) fn none() -> FrontPlaces {
        FrontPlaces {
            start: 0,
            list_end: 0,
            behind: 0,
            behind_end: 0,
        }
    }
}

// Returns the bytes from `start` on, up to `end`.
fn part_of(bytes: &[u8], start: u64, end: u64) -> &[u8]
    ensures { result.now ≡ drop start (take end bytes.now) }
{
    let (to_end, _) = bytes.split_at(end.min(bytes.len() as u64) as usize);
    let (_, part) = to_end.split_at(start.min(to_end.len() as u64) as usize);
    part
}

/// The bytes before RAM's records so far.
#[derive(Drop)]
pub(crate) struct Front {
    /// libvirt's header with its XML and its cookie; empty if there is none.
    pub libvirt: Vec<u8>,
    /// The stream's bytes.
    pub stream: Vec<u8>,
    /// Whether a sink has taken them, so that no more are kept.
    pub is_taken: bool,
}

impl Front {
    /// Creates a front without bytes.
    pub(crate) fn new(alloc: Global) -> Front {
        Front {
            libvirt: Vec::new(alloc),
            stream: Vec::new(alloc),
            is_taken: false,
        }
    }

    // Refuses `len` more bytes, if there would be more than are kept.
    fn check_room(&self, len: usize) -> Result<(), Trouble>
        ensures { OnOk result (length self.now.libvirt.items + length self.now.stream.items + len ≤ 67108864) }
    {
        let kept = self.libvirt.len().saturating_add(self.stream.len());
        let all = kept.saturating_add(len);
        if all > MOST_FRONT_LEN {
            return Err(Trouble::LongFront(all as u64));
        }
        Ok(())
    }

    /// Keeps the next bytes of libvirt's header.
    ///
    /// # Errors
    ///
    /// `Trouble::LongFront` if more bytes would be kept than `MOST_FRONT_LEN`, `Trouble::NoMemory`.
    pub(crate) fn keep_libvirt(&mut self, bytes: &[u8]) -> Result<(), Trouble>
        ensures bytes { OnOk result (self.new.libvirt.items ≡ self.old.libvirt.items ++ bytes.now) }
        ensures bound { OnOk result (length self.new.libvirt.items + length self.new.stream.items ≤ 67108864) }
    {
        self.check_room(bytes.len())?;
        self.libvirt.extend_from_slice(bytes)?;
        Ok(())
    }

    /// Keeps the next bytes of the stream.
    ///
    /// # Errors
    ///
    /// As `keep_libvirt`.
    pub(crate) fn keep(&mut self, bytes: &[u8]) -> Result<(), Trouble>
        ensures bytes { OnOk result (self.new.stream.items ≡ self.old.stream.items ++ bytes.now) }
        ensures bound { OnOk result (length self.new.libvirt.items + length self.new.stream.items ≤ 67108864) }
    {
        self.check_room(bytes.len())?;
        self.stream.extend_from_slice(bytes)?;
        Ok(())
    }

    /// Makes the stream's bytes those that are put before RAM's records: up to the size list's end,
    /// and devices' sections from behind START before it. QEMU 11.1 writes them there, and 10.0
    /// behind START.
    ///
    /// # Errors
    ///
    /// `AllocError`: an allocation was refused.
    pub(crate) fn arrange(&mut self, places: &FrontPlaces) -> Result<(), AllocError>
        ensures stream { OnOk result (self.new.stream.items ≡ take places.now.start self.old.stream.items
            ++ drop places.now.behind (take places.now.behind_end self.old.stream.items)
            ++ drop places.now.start (take places.now.list_end self.old.stream.items)) }
        ensures libvirt { OnOk result (self.new.libvirt ≡ self.old.libvirt) }
    {
        let (start, list_end) = (places.start, places.list_end);
        let mut stream = Vec::new(*self.stream.allocator());
        stream.extend_from_slice(part_of(&self.stream, 0, start))?;
        stream.extend_from_slice(part_of(&self.stream, places.behind, places.behind_end))?;
        stream.extend_from_slice(part_of(&self.stream, start, list_end))?;
        self.stream = stream;
        Ok(())
    }

    /// Drops the bytes: a sink has taken them.
    pub(crate) fn set_taken(&mut self) {
        let alloc = *self.stream.allocator();
        self.libvirt = Vec::new(alloc);
        self.stream = Vec::new(alloc);
        self.is_taken = true;
    }
}
