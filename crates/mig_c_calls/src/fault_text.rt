//! The text of a fault, as C logs it.

ghost use Rattle.std.specs.Prelude.{◌≡◌, ◌++◌, ◌+◌, ◌∷◌, ◌<◌, ◌≤◌, false, [], ℕ, List, length, decimal};
ghost use Rattle.std.specs.Fmt.{digits, digit_glyph};
ghost use Rattle.arrayvec.specs.ArrayVec.{array_vec_len};
ghost use Rattle.mig_c_calls.specs.FaultTexts.{carried_text, channel_text, place_text, fault_text, cut_into, LogsFault};
ghost use Rattle.mig_c_calls.specs.Texts.{IsText};

use crate::text::text_of;
use arrayvec::ArrayVec;
use itoa::Buffer;

// Room for the text of any fault, and a byte 0.
const TEXT_ROOM: usize = 256;

type Text = ArrayVec<u8, TEXT_ROOM>;

/// What a fault is, where it is, and what it carries.
#[derive(Clone, Copy)]
pub struct LoggedFault {
    /// How many rounds were counted before the fault.
    pub round: u64,
    /// The source: 0 is the main stream, 1 + j is channel j. The largest number is the round.
    pub source: u64,
    /// The fault's number.
    pub number: u32,
    /// Flags, a byte, the number of a packet or of a block.
    pub first: u64,
    /// The number of an offset, or of a page.
    pub second: u64,
}

// Appends `bytes`.
fn push(text: &mut Text, bytes: &[u8])
    requires { array_vec_len text.old + length bytes.now ≤ TEXT_ROOM }
    ensures items { text.new.items ≡ text.old.items ++ bytes.now }
    ensures len { array_vec_len text.new ≡ array_vec_len text.old + length bytes.now }
{
    let Ok(()) = text.try_extend_from_slice(bytes) else {
        unreachable!();
    };
}

// Appends `word`, and `n` in decimal.
fn push_decimal(text: &mut Text, word: &[u8], n: u64)
    requires { array_vec_len text.old + length word.now + 20 ≤ TEXT_ROOM }
    ensures items { text.new.items ≡ text.old.items ++ word.now ++ decimal n }
    ensures len { array_vec_len text.new ≤ array_vec_len text.old + length word.now + 20 }
{
    let mut buffer = Buffer::new();
    push(text, word);
    push(text, buffer.format(n).as_bytes());
}

// Returns the digit `d`, below 16, in ASCII.
fn hex_digit(d: u8) -> u8
    requires { d < 16 }
    ensures { result ≡ digit_glyph false d }
{
    if d < 10 { b'0' + d } else { b'a' + (d - 10) }
}

// Appends `n` in hexadecimal.
fn push_hex(text: &mut Text, n: u64)
    requires { array_vec_len text.old + 16 ≤ TEXT_ROOM }
    ensures items { text.new.items ≡ text.old.items ++ digits 16 false n }
    ensures len { array_vec_len text.new ≤ array_vec_len text.old + 16 }
{
    let mut digits = [0; 16];
    let mut from = 16;
    let mut rest = n;
    while rest >= 16 {
        from -= 1;
        digits[from] = hex_digit((rest % 16) as u8);
        rest /= 16;
    }
    from -= 1;
    digits[from] = hex_digit(rest as u8);
    push(text, &digits[from..]);
}

// Appends what a fault carries.
fn push_carried(text: &mut Text, f: LoggedFault)
    requires { array_vec_len text.old + 60 ≤ TEXT_ROOM }
    ensures items { text.new.items ≡ text.old.items ++ carried_text f }
    ensures len { array_vec_len text.new ≤ array_vec_len text.old + 60 }
{
    match f.number {
        27 | 31 | 41 => {
            push(text, b" 0x");
            push_hex(text, f.first);
        }
        54..=57 => {
            push_decimal(text, b" (packet ", f.first);
            push(text, b")");
        }
        58 => {
            push_decimal(text, b" (packet ", f.first);
            push_decimal(text, b", offset ", f.second);
            push(text, b")");
        }
        59 => {
            push_decimal(text, b" (block ", f.first);
            push_decimal(text, b", page ", f.second);
            push(text, b")");
        }
        _ => {}
    }
}

// Appends the channel of a fault, if it is of one.
fn push_channel(text: &mut Text, f: LoggedFault)
    requires { array_vec_len text.old + 30 ≤ TEXT_ROOM }
    ensures items { text.new.items ≡ text.old.items ++ channel_text f }
    ensures len { array_vec_len text.new ≤ array_vec_len text.old + 30 }
{
    if f.source != 0 && f.source != u64::MAX {
        push_decimal(text, b", channel ", f.source - 1);
    }
}

// Appends the byte at which a fault is, if that is known.
fn push_place(text: &mut Text, at: Option<u64>)
    requires { array_vec_len text.old + 30 ≤ TEXT_ROOM }
    ensures items { text.new.items ≡ text.old.items ++ place_text at }
    ensures len { array_vec_len text.new ≤ array_vec_len text.old + 30 }
{
    if let Some(at) = at {
        push_decimal(text, b", at byte ", at);
    }
}

// Appends the message of `status`, without its byte 0.
fn push_message(text: &mut Text, status: u32)
    requires { array_vec_len text.old + 64 ≤ TEXT_ROOM }
    ensures items { (message : List ℕ) × IsText (message ++ 0 ∷ []) × (text.new.items ≡ text.old.items ++ message) }
    ensures len { array_vec_len text.new ≤ array_vec_len text.old + 64 }
{
    let bytes = text_of(status);
    push(text, &bytes[..bytes.len() - 1]);
}

// Returns the text of `f`, a fault at byte `at` of its source if that is known.
fn text_of_fault(f: LoggedFault, at: Option<u64>) -> Text
    ensures items { (message : List ℕ) × IsText (message ++ 0 ∷ []) × (result.items ≡ fault_text message f at) }
    ensures len { array_vec_len result < TEXT_ROOM }
{
    let mut text = Text::new();
    push_decimal(&mut text, b"", u64::from(f.number));
    push(&mut text, b", ");
    push_message(&mut text, f.number);
    push_carried(&mut text, f);
    push_channel(&mut text, f);
    push_decimal(&mut text, b", after ", f.round);
    push(&mut text, b" rounds");
    push_place(&mut text, at);
    text
}

// Copies as much of `text` into `out` as there is room for before a byte 0.
fn copy_cut(text: &[u8], out: &mut [u8])
    ensures { out.new ≡ cut_into out.old text.now }
{
    let Some(most) = out.len().checked_sub(1) else {
        return;
    };
    let len = text.len().min(most);
    out[..len].copy_from_slice(&text[..len]);
    out[len] = 0;
}

/// Writes the text of `f` into `out` as C's `snprintf` does: as many bytes as there is room for,
/// then a byte 0. The text names `at`, the byte at which the fault is, if that is known. Returns
/// the length of the whole text without the byte 0, which is less than 256.
pub fn log_fault(f: LoggedFault, at: Option<u64>, out: &mut [u8]) -> u64
    ensures { LogsFault f at result out.old out.new }
{
    let text = text_of_fault(f, at);
    copy_cut(&text, out);
    text.len() as u64
}
