//! Reads a file at any place.

ghost use Rattle.std.specs.Prelude.{◌≡◌, ◌<◌, ◌≤◌, ◌^◌, ℕ, List, Option, None, Some, length, take, drop, IfOk, OnOk};
ghost use Rattle.zimgasol_mapped.specs.Placed.{IsReadAt};

use std::io::{self, ErrorKind, Read, Seek, SeekFrom};

/// A file that is read at any place, or from its first byte on.
pub trait PlacedFile: Read {
    /// The bytes of the file, where they are known.
    ghost file_bytes: { Self → Option (List ℕ) };

    /// Reads the bytes from the byte `place` on until `buffer` is full or the file ends. Returns how
    /// many it read.
    ///
    /// # Errors
    ///
    /// They can't be read.
    fn read_at(&mut self, place: u64, buffer: &mut [u8]) -> io::Result<usize>
        ensures len { length buffer.new ≡ length buffer.old }
        ensures count { IfOk result (λ n. n ≤ length buffer.old) }
        ensures same { file_bytes self.new ≡ file_bytes self.old }
        ensures small { (file : List ℕ) → file_bytes self.old ≡ Some file → length file < 2 ^ 64 }
        ensures bytes { IfOk result (λ n. (file : List ℕ) → file_bytes self.old ≡ Some file → IsReadAt file place n buffer.new) };

    /// Goes to the first byte, which `Read` gives next.
    ///
    /// # Errors
    ///
    /// The file isn't read at any place.
    fn go_back(&mut self) -> io::Result<()>
        ensures same { file_bytes self.new ≡ file_bytes self.old }
        ensures first { OnOk result ((file : List ℕ) → file_bytes self.old ≡ Some file → Self.remaining self.new ≡ Some file) };
}

/// A file of the system, of which a read at a place is a seek and reads.
#[derive(Drop)]
pub struct Placed<F: Drop> {
    file: F,
    len: u64,
}

impl<F: Read + Drop> Placed<F> {
    /// Takes `file`, which has `len` bytes. Reads go on where those of `file` did.
    pub fn new(file: F, len: u64) -> Placed<F>
        ensures { ⟦<Placed<F> as Read>⟧.remaining result ≡ F.remaining file }
    {
        Placed { file, len }
    }
}

// Reads until `bytes` is full or the file ends. Returns the number of bytes that it read.
fn read_full<F: Read>(file: &mut F, bytes: &mut [u8]) -> io::Result<usize>
    ensures len { length bytes.new ≡ length bytes.old }
    ensures count { IfOk result (λ n. n ≤ length bytes.old) }
{
    let mut len = 0;
    'reads: for _ in 0..u64::MAX {
        if len == bytes.len() {
            return Ok(len);
        }
        match file.read(&mut bytes[len..]) {
            Ok(0) => return Ok(len),
            Ok(more) => len += more,
            Err(error) if error.kind() == ErrorKind::Interrupted => {}
            Err(error) => return Err(error),
        }
    }
    Err(io::Error::from(ErrorKind::Interrupted))
}

/// Reads the bytes of `file` from `at` on into the front of `buffer`: `len` bytes, or as many as there
/// are. Returns how many.
///
/// # Errors
///
/// They can't be read.
pub(crate) fn read_front<F: PlacedFile>(
    file: &mut F,
    at: u64,
    buffer: &mut [u8],
    len: usize,
) -> io::Result<usize>
    requires { len ≤ length buffer.old }
    ensures room { length buffer.new ≡ length buffer.old }
    ensures count { IfOk result (λ n. n ≤ len) }
    ensures same { F.file_bytes file.new ≡ F.file_bytes file.old }
    ensures small { (bytes : List ℕ) → F.file_bytes file.old ≡ Some bytes → length bytes < 2 ^ 64 }
    ensures bytes { IfOk result (λ n. (bytes : List ℕ) → F.file_bytes file.old ≡ Some bytes → take n buffer.new ≡ take len (drop at bytes)) }
{
    file.read_at(at, &mut buffer[..len])
}

impl<F: Read + Drop> Read for Placed<F> {
    ghost remaining = { λ p. F.remaining p.file };

    fn read(&mut self, buf: &mut [u8]) -> io::Result<usize> {
        self.file.read(buf)
    }
}

impl<F: Read + Seek + Drop> PlacedFile for Placed<F> {
    // nothing is known of the system's files
    ghost file_bytes = { λ _. None };

    // After the file's end it reads nothing: systems refuse places that no file has.
    fn read_at(&mut self, place: u64, buffer: &mut [u8]) -> io::Result<usize> {
        if place >= self.len {
            return Ok(0);
        }
        self.file.seek(SeekFrom::Start(place))?;
        read_full(&mut self.file, buffer)
    }

    fn go_back(&mut self) -> io::Result<()> {
        self.file.seek(SeekFrom::Start(0))?;
        Ok(())
    }
}
