//! Tells a file with mapped-ram from others, and opens it as a plain stream.

ghost use Rattle.std.specs.Prelude.{◌≡◌, ◌<◌, ◌≤◌, ◌^◌, ℕ, List, Some, length, take, IfOk};
ghost use Rattle.mig_mapped.specs.Front.{HasFront};
ghost use Rattle.mig_mem.specs.PageSize.{IsPageSize};
ghost use Rattle.zimgasol_mapped.specs.Opened.{IsOpened, IsSearched};

use crate::heads::{ListPlace, read_heads};
use crate::placed::PlacedFile;
use crate::plain::Plain;
use crate::sparse::sparse_place;
use mig_mapped::{MappedFront, front_in, plain_front};
use std::alloc::Global;
use std::io::{self, Read};
use zimgasol_files::Trouble;

/// The most bytes of a front that is found.
const FRONT_LEN: usize = 262_144;

/// A file as a stream that is read from its first byte to its last one.
#[derive(Drop)]
pub enum Input<F: PlacedFile + Drop> {
    /// The file's own bytes: it has no mapped-ram.
    AsItIs(F),
    /// The plain stream with the memory of a file with mapped-ram.
    Plain(Plain<F>),
}

impl<F: PlacedFile + Drop> Input<F> {
    /// Returns whether the file has mapped-ram, so that its bytes aren't those that are read.
    pub fn is_mapped(&self) -> bool {
        matches!(self, Input::Plain(_))
    }
}

impl<F: PlacedFile + Drop> Read for Input<F> {
    ghost use Rattle.zimgasol_mapped.specs.Opened.{input_left};

    ghost remaining = { input_left F.remaining };

    fn read(&mut self, buf: &mut [u8]) -> io::Result<usize> {
        match self {
            Input::AsItIs(file) => file.read(buf),
            Input::Plain(plain) => plain.read(buf),
        }
    }
}

// Reads the first bytes of the stream in `file` into `bytes`. Returns the offset of the stream in
// the file, and how many bytes it read.
fn read_front<F: PlacedFile>(file: &mut F, bytes: &mut [u8]) -> io::Result<(u64, usize)>
    requires { length bytes.old ≡ 262144 }
    ensures len { length bytes.new ≡ 262144 }
    ensures offset { IfOk result (λ r. r.0 < 2 ^ 33) }
    ensures count { IfOk result (λ r. r.1 ≤ 262144) }
    ensures same { F.file_bytes file.new ≡ F.file_bytes file.old }
    ensures front { IfOk result (λ r. (all : List ℕ) → F.file_bytes file.old ≡ Some all → IsSearched all r.0 (take r.1 bytes.new)) }
{
    let len = file.read_at(0, bytes)?;
    let Some(before) = sparse_place(&bytes[..len]) else {
        return Ok((0, len));
    };
    let len = file.read_at(before, bytes)?;
    Ok((before, len))
}

/// Opens `file` as a stream. With mapped-ram it gives the plain stream of the same memory, else the
/// file's own bytes. A file that libvirt saved sparse keeps libvirt's header and XML before it. A
/// page has `page_size` bytes.
///
/// # Errors
///
/// `Trouble::Fault`: the first fault of the first block's head that has one. `Trouble::Unread` if
/// the file can't be read at any place, and `Trouble::NoMemory`.
pub fn open_input<F: PlacedFile + Drop>(
    alloc: Global,
    mut file: F,
    page_size: u64,
) -> Result<Input<F>, Trouble>
    requires { IsPageSize page_size }
    ensures { IfOk result (λ input. (all : List ℕ) → F.file_bytes file ≡ Some all → IsOpened F.remaining page_size all input) }
{
    let mut bytes = vec![in alloc; 0u8; FRONT_LEN]?;
    let (before, len) = match read_front(&mut file, &mut bytes) {
        Ok(front) => front,
        Err(error) => return Err(Trouble::Unread(error)),
    };
    let Some(front) = front_in(&bytes[..len]) else {
        return match file.go_back() {
            Ok(()) => Ok(Input::AsItIs(file)),
            Err(error) => Err(Trouble::Unread(error)),
        };
    };
    open_mapped(alloc, file, &bytes[..len], front, before, page_size)
}

// Opens a file with mapped-ram. Its stream begins at the byte `before`, with `bytes`, which have
// `front`.
fn open_mapped<F: PlacedFile + Drop>(
    alloc: Global,
    mut file: F,
    bytes: &[u8],
    front: MappedFront,
    before: u64,
    page_size: u64,
) -> Result<Input<F>, Trouble>
    requires page_size { IsPageSize page_size }
    requires before { before < 2 ^ 33 }
    requires len { length bytes.now ≤ 262144 }
    requires front { HasFront bytes.now front }
    requires part { (all : List ℕ) → F.file_bytes file ≡ Some all → IsSearched all before bytes.now }
    ensures { IfOk result (λ input. (all : List ℕ) → F.file_bytes file ≡ Some all → IsOpened F.remaining page_size all input) }
{
    let list = ListPlace {
        place: before + front.place as u64,
        total: front.total,
        page_size,
    };
    let index = read_heads(alloc, &mut file, list)?;
    let plain = plain_front(alloc, bytes, front)?;
    let plain = Plain::new(alloc, file, index, plain, before)?;
    Ok(Input::Plain(plain))
}
