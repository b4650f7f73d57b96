//! Checks what follows RAM in a machine's stream: the devices' sections, the end byte, and the
//! description of the devices.
//!
//! A device's section doesn't have its length, so the sections aren't followed. After them QEMU
//! writes the end byte 0x00 and, in most streams, the description: the byte 0x06, a length of 4
//! bytes, and as many bytes of JSON, with which the stream ends.
//!
//! JSON has no zero byte. So the end byte is the last zero byte of the stream, or at most 5 bytes
//! before it, since the length may have zero bytes, too. Only the bytes from there on are kept.
//! Bytes that look like a description, before the real one, are dropped with its end byte. Zero
//! bytes after the description, with which a file was filled up, are only counted.
//!
//! Definitions: `Ending`, of a complete tail; `TailSeen`, of what is kept (`specs/`).

ghost use Rattle.std.specs.Prelude.{◌≡◌, ◌≢◌, ◌≤◌, ◌<◌, ◌+◌, ◌-◌, ◌^◌, ◌⊎◌, ◌↔◌, ◌∷◌, ◌++◌};
ghost use Rattle.std.specs.Prelude.{ℕ, true, false, List, [], length, take, drop, replicate, All, Some, slice_get, min, IfSome, IfNone, IsSome, IsNone, IfOk, OnOk, IsTrue, codes};
ghost use Rattle.zimgasol_reading.specs.Ending.{EndsDescribed, IsDescription, IsWholeEnding};
ghost use Rattle.zimgasol_reading.specs.TailSeen.{last_of, HasDescriptionAt, HasSeen, IsEndingOf, IsHeaded, IsWindow};

use crate::description::{Device, devices_in};
use std::alloc::{AllocError, Global};
use zimgasol_files::Trouble;

/// The end byte (`QEMU_VM_EOF` in QEMU's `migration/savevm.h`).
const END: u8 = 0x00;

/// The end byte and the type byte of the description (`QEMU_VM_VMDESCRIPTION`).
const HEAD: &[u8] = b"\x00\x06";

/// The bytes before the description's JSON: those of `HEAD`, and its length.
const HEAD_LEN: usize = 6;

/// As many zero bytes as can be in the head of a description.
const ZEROS: &[u8] = b"\x00\x00\x00\x00\x00\x00";

/// The first bytes of the description's JSON.
const OPENING: &[u8] = b"{\"";

/// The longest description that is read. Of a longer one only the first bytes and the last one are
/// checked. QEMU writes some 6,000 bytes for a processor, and 70,000 for a PC's other devices.
const MOST_READ: u64 = 4_194_304;

/// The most bytes that are kept: a description of `MOST_READ` bytes, its head, and 5 bytes before.
const MOST_KEPT: usize = 4_194_320;

/// Why the bytes after RAM aren't those of a complete stream.
#[derive(Clone, Copy, Debug, PartialEq, Eq)]
pub enum TailFault {
    /// The stream ends before the end byte.
    Cut,
    /// The stream ends inside the description.
    CutDescription,
    /// No valid description ends with the stream, so it isn't known whether the devices' sections
    /// are complete.
    Unknown,
    /// This many bytes follow the end of the stream.
    Extra(u64),
}

/// What is known of the bytes after RAM.
#[derive(Drop)]
pub struct Ending {
    /// Whether they were checked.
    pub is_checked: bool,
    /// Whether devices' sections follow RAM.
    pub has_devices: bool,
    /// Why they aren't complete; None if they are, or weren't checked.
    pub fault: Option<TailFault>,
    /// The devices that the description names; None without a description, or if it is too long.
    pub devices: Option<Vec<Device>>,
}

impl Ending {
    /// Returns what is known of bytes that aren't checked.
    pub fn unchecked() -> Ending
        ensures fault { IsNone result.fault }
        ensures checked { result.is_checked ≡ false }
    {
        Ending {
            is_checked: false,
            has_devices: false,
            fault: None,
            devices: None,
        }
    }
}

/// The bytes after RAM, piece by piece.
#[derive(Drop)]
pub struct Tail {
    is_checked: bool,
    // the first byte
    first: Option<u8>,
    // the bytes up to the last one that isn't zero, and how many zeros follow
    window: Window,
    zeros: u64,
}

// The end of some bytes, from which their description is read.
#[derive(Drop)]
struct Window {
    alloc: Global,
    // how many bytes there are
    len: u64,
    // the last ones, at most HEAD_LEN
    recent: Vec<u8>,
    // the bytes from the place `start` on, at most MOST_KEPT: those that were recent at the last
    // zero byte, and those after it
    start: u64,
    kept: Vec<u8>,
}

// Where a description may be: the place of its JSON in the kept bytes, its length, and the place
// after it, counted as `Window::len` is.
#[derive(Clone, Copy)]
struct Place {
    text: usize,
    len: u64,
    end: u64,
}

// Returns the bytes up to the last one that isn't zero, and the zeros after it.
fn split_zeros(piece: &[u8]) -> (&[u8], &[u8])
    ensures split { piece.now ≡ result.0.now ++ result.1.now }
    ensures zeros { All (λ byte. byte ≡ 0) result.1.now }
{
    let mid = match piece.iter().rposition(|byte| *byte != 0) {
        Some(last) => last + 1,
        None => 0,
    };
    piece.split_at(mid)
}

// Returns the bytes up to the last zero byte, and those after it.
fn split_at_zero(piece: &[u8]) -> (&[u8], &[u8])
    ensures split { piece.now ≡ result.0.now ++ result.1.now }
    ensures zero { (result.0.now ≡ []) ⊎ ((front : List ℕ) × (result.0.now ≡ front ++ 0 ∷ [])) }
    ensures rest { All (λ byte. byte ≢ 0) result.1.now }
{
    let mid = match piece.iter().rposition(|byte| *byte == 0) {
        Some(last) => last + 1,
        None => 0,
    };
    piece.split_at(mid)
}

// Returns the bytes from the place `at` on.
fn bytes_from(bytes: &[u8], at: usize) -> &[u8]
    ensures { result.now ≡ drop at bytes.now }
{
    bytes.get(at..).unwrap_or(&[])
}

// Returns `count` zero bytes, at most `HEAD_LEN`.
fn zeros(count: u64) -> &'static [u8]
    ensures { result.now ≡ replicate (min count 6) 0 }
{
    let len = count.min(ZEROS.len() as u64);
    &ZEROS[..len as usize]
}

// Returns the last bytes of `before` and then `piece`, at most `HEAD_LEN`.
fn last_bytes(alloc: Global, before: &[u8], piece: &[u8]) -> Result<Vec<u8>, AllocError>
    ensures { IfOk result (λ last. last.items ≡ last_of 6 (before.now ++ piece.now)) }
{
    let end = &piece[piece.len().saturating_sub(HEAD_LEN)..];
    let from = before
        .len()
        .saturating_sub(HEAD_LEN.saturating_sub(end.len()));
    let mut last = before[from..].to_vec(alloc)?;
    last.extend_from_slice(end)?;
    Ok(last)
}

// Returns the first byte of a text and a piece after it, if `first` is that of the text.
fn first_of(first: Option<u8>, piece: &[u8]) -> Option<u8>
    ensures { (text : List ℕ) → first ≡ slice_get text 0 → result ≡ slice_get (text ++ piece.now) 0 }
{
    match first {
        Some(byte) => Some(byte),
        None => piece.first().copied(),
    }
}

// Returns the length in the head of a description; None if `bytes` don't begin with one that QEMU
// writes, and with the first bytes of its JSON.
fn described_len(bytes: &[u8]) -> Option<u64>
    ensures some { IfSome result (λ len. (len < 2 ^ 32) × IsHeaded len bytes.now) }
    ensures none { IfNone result ((len : ℕ) → len < 2 ^ 32 → ¬ IsHeaded len bytes.now) }
{
    match bytes {
        [0, 6, a, b, c, d, b'{', b'"', ..] => {
            Some(u64::from(u32::from_be_bytes([*a, *b, *c, *d])))
        }
        _ => None,
    }
}

// Returns whether `bytes` end before the JSON of a description, or in its first bytes.
fn is_in_head(bytes: &[u8]) -> bool {
    let text = bytes.get(HEAD_LEN..).unwrap_or(&[]);
    bytes.len() > 1 && bytes.starts_with(HEAD) && OPENING.starts_with(text)
}

impl Window {
    fn new(alloc: Global) -> Window
        ensures { IsWindow [] result }
    {
        Window {
            alloc,
            len: 0,
            recent: Vec::new(alloc),
            start: 0,
            kept: Vec::new(alloc),
        }
    }

    // Takes the next bytes.
    fn take(&mut self, piece: &[u8]) -> Result<(), AllocError>
        ensures { OnOk result ((bytes : List ℕ) → length (bytes ++ piece.now) < 2 ^ 63 → IsWindow bytes self.old
            → IsWindow (bytes ++ piece.now) self.new) }
    {
        let (front, rest) = split_at_zero(piece);
        if front.is_empty() {
            return self.extend(rest);
        }
        self.restart(front, front.len() as u64)?;
        self.extend(rest)
    }

    // Takes the next bytes, which are this many zeros.
    fn take_zeros(&mut self, count: u64) -> Result<(), AllocError>
        ensures { OnOk result ((bytes : List ℕ) → length bytes + count < 2 ^ 63 → IsWindow bytes self.old
            → IsWindow (bytes ++ replicate count 0) self.new) }
    {
        if count == 0 {
            return Ok(());
        }
        self.restart(zeros(count), count)
    }

    // Takes the next `count` bytes, which end with `piece` and with a zero byte. Those that are
    // recent then are kept in place of earlier ones.
    fn restart(&mut self, piece: &[u8], count: u64) -> Result<(), AllocError>
        ensures { OnOk result ((bytes next : List ℕ) → length bytes + count < 2 ^ 63 → length next ≡ count
            → last_of 6 next ≡ last_of 6 piece.now → ((front : List ℕ) × (next ≡ front ++ 0 ∷ [])) → IsWindow bytes self.old
            → IsWindow (bytes ++ next) self.new) }
    {
        let recent = last_bytes(self.alloc, &self.recent, piece)?;
        self.len = self.len.saturating_add(count);
        self.start = self.len.saturating_sub(recent.len() as u64);
        self.kept = recent.to_vec(self.alloc)?;
        self.recent = recent;
        Ok(())
    }

    // Takes the next bytes, none of which is zero.
    fn extend(&mut self, piece: &[u8]) -> Result<(), AllocError>
        ensures { OnOk result ((bytes : List ℕ) → length (bytes ++ piece.now) < 2 ^ 63 → All (λ byte. byte ≢ 0) piece.now
            → IsWindow bytes self.old → IsWindow (bytes ++ piece.now) self.new) }
    {
        let room = MOST_KEPT.saturating_sub(self.kept.len()).min(piece.len());
        self.kept.extend_from_slice(&piece[..room])?;
        self.recent = last_bytes(self.alloc, &self.recent, piece)?;
        self.len = self.len.saturating_add(piece.len() as u64);
        Ok(())
    }

    // Returns where a description is whose end byte is the byte `at` of the kept ones; None if
    // there is none.
    fn place(&self, at: usize) -> Option<Place>
        ensures headed { IfSome result (λ place. (place.len < 2 ^ 32) × IsHeaded place.len (drop at self.now.kept.items)) }
        ensures none { IfNone result ((len : ℕ) → len < 2 ^ 32 → ¬ IsHeaded len (drop at self.now.kept.items)) }
        ensures text { IfSome result (λ place. at < 6 → place.text ≡ at + 6) }
        ensures end { IfSome result (λ place. at < 6 → self.now.start < 2 ^ 63 → place.end ≡ self.now.start + (at + 6) + place.len) }
    {
        let Some(len) = described_len(bytes_from(&self.kept, at)) else {
            return None;
        };
        let text = at.saturating_add(HEAD_LEN);
        let end = self.start.saturating_add(text as u64).saturating_add(len);
        Some(Place { text, len, end })
    }

    // Returns the JSON at `place`, as far as it was kept.
    fn text(&self, place: Place) -> &[u8]
        ensures { result.now ≡ take place.len (drop place.text self.now.kept.items) }
    {
        let rest = bytes_from(&self.kept, place.text);
        let len = (rest.len() as u64).min(place.len);
        &rest[..len as usize]
    }

    // Returns whether the last byte is the last one of a JSON object.
    fn is_closed(&self) -> bool
        ensures { IsTrue result ↔ (drop (length self.now.recent.items - 1) self.now.recent.items ≡ codes "}") }
    {
        matches!(self.recent.last(), Some(b'}'))
    }
}

impl Tail {
    /// Creates the tail before its first byte.
    pub fn new(alloc: Global, is_checked: bool) -> Tail
        ensures checked { result.is_checked ≡ is_checked }
        ensures seen { is_checked ≡ true → HasSeen [] result }
    {
        Tail {
            is_checked,
            first: None,
            window: Window::new(alloc),
            zeros: 0,
        }
    }

    /// Takes the next bytes after RAM.
    pub fn look(&mut self, piece: &[u8]) -> Result<(), AllocError>
        ensures checked { self.new.is_checked ≡ self.old.is_checked }
        ensures seen { OnOk result ((text : List ℕ) → length (text ++ piece.now) < 2 ^ 63 → HasSeen text self.old
            → HasSeen (text ++ piece.now) self.new) }
    {
        if !self.is_checked {
            return Ok(());
        }
        let (bytes, zeros) = split_zeros(piece);
        self.first = first_of(self.first, piece);
        if bytes.is_empty() {
            self.zeros = self.zeros.saturating_add(zeros.len() as u64);
            return Ok(());
        }
        self.window.take_zeros(self.zeros)?;
        self.window.take(bytes)?;
        self.zeros = zeros.len() as u64;
        Ok(())
    }

    // Returns how many bytes there are so far.
    fn total(&self) -> u64
        ensures { result ≡ min (self.now.window.len + self.now.zeros) (2 ^ 64 - 1) }
    {
        self.window.len.saturating_add(self.zeros)
    }

    // Returns whether the end byte follows RAM.
    fn begins_with_end(&self) -> bool
        ensures { IsTrue result ↔ (self.now.first ≡ Some 0) }
    {
        self.first == Some(END)
    }

    // Returns an ending with `fault`, without a list of devices.
    fn ending_by(&self, fault: Option<TailFault>) -> Ending
        ensures fault { result.fault ≡ fault }
        ensures of_tail { IsEndingOf self.now result }
    {
        Ending {
            is_checked: true,
            has_devices: !self.begins_with_end(),
            fault,
            devices: None,
        }
    }

    // Returns an ending with `fault` if the description at `place` is one; None if it isn't.
    fn read(&self, place: Place, fault: Option<TailFault>) -> Result<Option<Ending>, Trouble>
        ensures fault { IfOk result (λ found. IfSome found (λ ending. ending.fault ≡ fault)) }
        ensures of_tail { IfOk result (λ found. IfSome found (λ ending. IsEndingOf self.now ending)) }
        ensures read { IfOk result (λ found. IsSome found ↔ IsDescription (take place.len (drop place.text self.now.window.kept.items))) }
    {
        let text = self.window.text(place);
        let Some(devices) = devices_in(self.window.alloc, text)? else {
            return Ok(None);
        };
        let mut ending = self.ending_by(fault);
        ending.devices = Some(devices);
        Ok(Some(ending))
    }

    // Returns whether the stream ends with the description at `place`.
    fn ends_after(&self, place: Place) -> bool
        ensures { IsTrue result ↔ ((self.now.zeros ≡ 0) × (place.end ≡ self.now.window.len)) }
    {
        self.zeros == 0 && place.end == self.window.len
    }

    // Returns what is known if the stream ends with a description whose end byte is the byte `at`
    // of the kept ones; None if it doesn't.
    fn whole_at(&self, at: usize) -> Result<Option<Ending>, Trouble>
        ensures fault { IfOk result (λ found. IfSome found (λ ending. IsNone ending.fault)) }
        ensures of_tail { IfOk result (λ found. IfSome found (λ ending. IsEndingOf self.now ending)) }
        ensures whole { IfOk result (λ found. (text : List ℕ) → at < 6 → length text < 2 ^ 63 → HasSeen text self.now
            → IsSome found ↔ HasDescriptionAt (self.now.window.start + at) text) }
    {
        let Some(place) = self.window.place(at) else {
            return Ok(None);
        };
        if !self.ends_after(place) {
            return Ok(None);
        }
        if place.len <= MOST_READ {
            let found = self.read(place, None)?;
            return Ok(found);
        }
        if !self.window.is_closed() {
            return Ok(None);
        }
        Ok(Some(self.ending_by(None)))
    }

    // Returns what is known if the stream ends with a description; None if it doesn't.
    fn whole(&self) -> Result<Option<Ending>, Trouble>
        ensures fault { IfOk result (λ found. IfSome found (λ ending. IsNone ending.fault)) }
        ensures of_tail { IfOk result (λ found. IfSome found (λ ending. IsEndingOf self.now ending)) }
        ensures whole { IfOk result (λ found. (text : List ℕ) → length text < 2 ^ 63 → HasSeen text self.now
            → IsSome found ↔ EndsDescribed text) }
    {
        if self.begins_with_end() {
            if self.window.start != 0 {
                return Ok(None);
            }
            let found = self.whole_at(0)?;
            return Ok(found);
        }
        for at in 0..HEAD_LEN {
            if let Some(ending) = self.whole_at(at)? {
                return Ok(Some(ending));
            }
        }
        Ok(None)
    }

    // Returns what is known if the description at `place` is one that bytes follow; None if it
    // isn't.
    fn followed(&self, place: Place) -> Result<Option<Ending>, Trouble>
        ensures fault { IfOk result (λ found. IfSome found (λ ending. ¬ IsNone ending.fault)) }
        ensures of_tail { IfOk result (λ found. IfSome found (λ ending. IsEndingOf self.now ending)) }
    {
        let extra = self.total().saturating_sub(place.end);
        if extra == 0 || place.end > self.window.len || place.len > MOST_READ {
            return Ok(None);
        }
        let found = self.read(place, Some(TailFault::Extra(extra)))?;
        Ok(found)
    }

    // Returns what is known if devices' sections follow RAM, and the stream doesn't end with a
    // description.
    fn after_devices(&self) -> Result<Ending, Trouble>
        ensures fault { IfOk result (λ ending. ¬ IsNone ending.fault) }
        ensures of_tail { IfOk result (λ ending. IsEndingOf self.now ending) }
    {
        for at in 0..HEAD_LEN {
            if let Some(place) = self.window.place(at)
                && let Some(ending) = self.followed(place)?
            {
                return Ok(ending);
            }
        }
        Ok(self.ending_by(Some(self.fault_of_devices())))
    }

    // Returns the fault of devices' sections without a valid description. Without one a stream
    // ends with the end byte.
    fn fault_of_devices(&self) -> TailFault {
        if self.zeros != 0 {
            return TailFault::Unknown;
        }
        let mut fault = TailFault::Cut;
        for at in 0..HEAD_LEN {
            match self.window.place(at) {
                Some(place) if place.end > self.window.len => return TailFault::CutDescription,
                Some(place) if place.end == self.window.len => fault = TailFault::Unknown,
                _ => {}
            }
        }
        fault
    }

    // Returns what is known if the end byte follows RAM, and bytes that aren't a description with
    // which the stream ends follow it.
    fn after_end_byte(&self) -> Result<Ending, Trouble>
        ensures fault { IfOk result (λ ending. ¬ IsNone ending.fault) }
        ensures of_tail { IfOk result (λ ending. IsEndingOf self.now ending) }
    {
        let fault = match self.place_after_end_byte() {
            Some(place) if place.end <= self.window.len => {
                if let Some(ending) = self.followed(place)? {
                    return Ok(ending);
                }
                TailFault::Extra(self.total().saturating_sub(1))
            }
            Some(_) if self.zeros == 0 => TailFault::CutDescription,
            None if self.is_in_head() => TailFault::CutDescription,
            _ => TailFault::Extra(self.total().saturating_sub(1)),
        };
        Ok(self.ending_by(Some(fault)))
    }

    // Returns where the description is if its end byte follows RAM.
    fn place_after_end_byte(&self) -> Option<Place> {
        if self.window.start == 0 {
            self.window.place(0)
        } else {
            None
        }
    }

    // Returns whether the stream ends in the head of a description, or in the first bytes of its
    // JSON, and the end byte follows RAM.
    fn is_in_head(&self) -> bool {
        self.window.start == 0 && self.total() < 8 && is_in_head(&self.window.kept)
    }

    // Returns what is known of a tail that doesn't end with a description.
    fn not_described(&self) -> Result<Ending, Trouble>
        ensures whole { IfOk result (λ ending. (text : List ℕ) → length text < 2 ^ 63 → HasSeen text self.now
            → IsNone ending.fault ↔ (text ≡ 0 ∷ [])) }
        ensures of_tail { IfOk result (λ ending. IsEndingOf self.now ending) }
    {
        match self.first {
            None => Ok(self.ending_by(Some(TailFault::Cut))),
            Some(END) if self.total() == 1 => Ok(self.ending_by(None)),
            Some(END) => {
                let ending = self.after_end_byte()?;
                Ok(ending)
            }
            Some(_) => {
                let ending = self.after_devices()?;
                Ok(ending)
            }
        }
    }

    /// Returns what is known of the tail at the end of the input.
    ///
    /// # Errors
    ///
    /// `Trouble::NoMemory`.
    pub fn ending(&self) -> Result<Ending, Trouble>
        ensures checked { IfOk result (λ ending. ending.is_checked ≡ self.now.is_checked) }
        ensures unchecked { IfOk result (λ ending. self.now.is_checked ≡ false → IsNone ending.fault) }
        ensures devices { IfOk result (λ ending. (text : List ℕ) → HasSeen text self.now
            → IsTrue ending.has_devices ↔ (slice_get text 0 ≢ Some 0)) }
        ensures whole { IfOk result (λ ending. (text : List ℕ) → length text < 2 ^ 63 → HasSeen text self.now
            → IsNone ending.fault ↔ IsWholeEnding text) }
    {
        if !self.is_checked {
            return Ok(Ending::unchecked());
        }
        if let Some(ending) = self.whole()? {
            return Ok(ending);
        }
        let ending = self.not_described()?;
        Ok(ending)
    }
}
