//! The files of channels, read in pieces without the packets of devices.

ghost use Rattle.std.specs.Prelude.{◌≡◌, ◌≤◌, [], length, take, false, IfOk, OnOk};
ghost use Rattle.std.specs.Io.KnownBytes.{Consumes, IsAtEnd, Keeps};
ghost use Rattle.std.specs.Option.{option_map};
ghost use Rattle.mig_packet.specs.PageSize.{IsPageSize};
ghost use Rattle.zimgasol_files.specs.Waiting.{left_of, to_come, waits};
ghost use Rattle.zimgasol_page_packets.specs.Parted.{without_devices};
ghost use Rattle.zimgasol_reading.specs.Inlets.{inlet_left, inlet_waits};

use std::alloc::{AllocGlobal, Global};
use std::fs::{Files, OpenFile};
use std::io::Read;
use uuid::Uuid;
use zimgasol_files::{Opened, PageSize, Pieces, Trouble, open, shown_name};
use zimgasol_page_packets::{PagePackets, PassedOver};

/// A file that a channel is read from.
#[derive(Drop)]
pub struct Inlet<F: Drop> {
    /// Its name, as it is printed.
    pub name: String,
    file: Opened<F>,
    // the length of the file in bytes; 0 of a pipe
    len: u64,
    pieces: Pieces,
    // the reading of its bytes without the packets of devices
    packets: PagePackets,
    // whether the file's end was reached
    is_over: bool,
}

impl<F: Read + OpenFile + Drop> Inlet<F> {
    /// Takes `file`, whose name is `path`, for a channel with pages of `page_size`
    /// bytes, and reads its first piece.
    ///
    /// # Errors
    ///
    /// `Trouble::OfFile` if it can't be read, `Trouble::NoMemory`.
    pub fn new(
        alloc: Global,
        path: &str,
        file: Opened<F>,
        page_size: u64,
    ) -> Result<Inlet<F>, Trouble>
        requires page_size { IsPageSize page_size }
        ensures { IfOk result (λ inlet. Keeps (option_map (without_devices page_size) (left_of F.remaining file)) (inlet_left F.remaining inlet)) }
    {
        let mut file = file;
        let len = file.len()?;
        let mut pieces = Pieces::new(alloc)?;
        let is_over = !file.refill(&mut pieces)?;
        Ok(Inlet {
            name: shown_name(alloc, path)?,
            file,
            len,
            pieces,
            packets: PagePackets::new(alloc, page_size)?,
            is_over,
        })
    }

    /// Returns how many bytes were read.
    pub fn read(&self) -> u64 {
        self.pieces.read
    }

    /// Returns the length in bytes; of a pipe, how many bytes were read.
    pub fn len(&self) -> u64 {
        self.len.max(self.pieces.read)
    }

    /// Returns the packets of devices that were passed over.
    pub fn passed_over(&self) -> PassedOver {
        self.packets.passed_over()
    }

    /// Returns the bytes that wait for the load.
    pub(crate) fn waiting(&self) -> &[u8]
        ensures { result.now ≡ inlet_waits self.now }
    {
        self.packets.waiting(self.pieces.waiting())
    }

    /// Takes `len` of the bytes that wait for the load.
    pub(crate) fn take(&mut self, len: usize)
        ensures { len ≤ length (inlet_waits self.old)
            → Consumes (inlet_left F.remaining self.old) (inlet_left F.remaining self.new) (take len (inlet_waits self.old)) }
    {
        let taken = self.packets.take(len);
        self.pieces.take(taken);
    }

    /// Reads on until bytes wait for the load, or up to the end of the file. Returns whether bytes
    /// wait: if none do, the channel has ended.
    ///
    /// # Errors
    ///
    /// `Trouble::OfFile` if a read fails.
    pub(crate) fn refill(&mut self) -> Result<bool, Trouble>
        ensures kept { OnOk result (Keeps (inlet_left F.remaining self.old) (inlet_left F.remaining self.new)) }
        ensures end { IfOk result (λ is_more. is_more ≡ false → IsAtEnd (inlet_left F.remaining self.new)) }
    {
        'packets: for _ in 0..u64::MAX {
            if !self.waiting().is_empty() {
                return Ok(true);
            }
            let is_more = self.file.refill(&mut self.pieces)?;
            if !is_more {
                return Ok(self.end());
            }
            let taken = self.packets.read_on(self.pieces.waiting());
            self.pieces.take(taken);
        }
        Err(Trouble::NoMemory)
    }

    // Ends the file, all of whose bytes were read. Returns whether bytes wait for the load.
    fn end(&mut self) -> bool
        requires end { IsAtEnd (to_come (left_of F.remaining self.old.file) self.old.pieces) }
        requires none { waits self.old.pieces ≡ [] }
        ensures kept { Keeps (inlet_left F.remaining self.old) (inlet_left F.remaining self.new) }
        ensures end { result ≡ false → IsAtEnd (inlet_left F.remaining self.new) }
    {
        self.is_over = true;
        self.packets.end();
        !self.packets.waiting(&[]).is_empty()
    }

    /// Returns the length in bytes; None of a pipe that wasn't read to its end.
    pub fn input_len(&self) -> Option<u64> {
        if self.is_over || self.len != 0 {
            return Some(self.len());
        }
        None
    }
}

// Opens the file of a channel, and reads its first piece.
fn open_inlet<H: AllocGlobal + Files>(
    rt: &H,
    path: &str,
    page_size: PageSize,
) -> Result<Inlet<H::File>, Trouble> {
    let alloc = rt.alloc();
    let file = open(rt, alloc, path)?;
    let inlet = Inlet::new(alloc, path, file, page_size.bytes())?;
    Ok(inlet)
}

/// Opens the files of channels with pages of `page_size`, and reads the first piece of each.
///
/// # Errors
///
/// `Trouble::OfFile` if one can't be opened or read, `Trouble::NoMemory`.
pub(crate) fn open_inlets<H: AllocGlobal + Files>(
    rt: &H,
    paths: &[&str],
    page_size: PageSize,
) -> Result<Vec<Inlet<H::File>>, Trouble> {
    let mut inlets = Vec::new(rt.alloc());
    for path in paths {
        inlets.push(open_inlet(rt, path, page_size)?)?;
    }
    Ok(inlets)
}

/// Returns the UUID in the first channel's hello; zeros if it has no hello.
pub(crate) fn hello_uuid<F: Read + OpenFile + Drop>(inlets: &[Inlet<F>]) -> Uuid {
    let Some(inlet) = inlets.first() else {
        return Uuid::nil();
    };
    let Some(rest) = inlet.pieces.waiting().get(8..) else {
        return Uuid::nil();
    };
    match rest.first_chunk::<16>() {
        Some(uuid) => Uuid::from_bytes(*uuid),
        None => Uuid::nil(),
    }
}
