//! Makes ids and names printable.

ghost use Rattle.std.specs.Prelude.{◌≡◌, ◌<◌, length, IfOk, All, string_bytes, codes, IsAscii};
ghost use Rattle.percent_encoding.specs.Percent.{percent_encode as encoded};
ghost use Rattle.zimgasol_files.specs.Shown.{IsPrintable};

use percent_encoding::{AsciiSet, CONTROLS, ascii_set, percent_encode};
use std::alloc::{AllocError, Global};
use std::str;

/// The ASCII characters that are escaped: control characters, and the quotation mark, which ends an
/// id.
const HIDDEN: AsciiSet = ascii_set!(CONTROLS.add(b'"'));

/// Returns `bytes` as printable ASCII: any other byte, and `"`, is `%` and two hexadecimal digits.
///
/// # Errors
///
/// `AllocError`: an allocation was refused.
pub fn shown(alloc: Global, bytes: &[u8]) -> Result<String, AllocError>
    ensures value { IfOk result (λ text. string_bytes text ≡ encoded HIDDEN bytes.now) }
    ensures printable { IfOk result (λ text. All IsPrintable (string_bytes text)) }
{
    let mut text = String::new(alloc);
    percent_encode(bytes, HIDDEN).append_to(&mut text)?;
    Ok(text)
}

/// Returns the name of a file as printable ASCII, as `shown` does; `""` for an empty name.
///
/// # Errors
///
/// `AllocError`: an allocation was refused.
pub fn shown_name(alloc: Global, name: &str) -> Result<String, AllocError>
    ensures value { IfOk result (λ text. 0 < length name.now → string_bytes text ≡ encoded HIDDEN name.now) }
    ensures empty { IfOk result (λ text. length name.now ≡ 0 → string_bytes text ≡ codes "\"\"") }
    ensures printable { IfOk result (λ text. All IsPrintable (string_bytes text)) }
{
    if name.is_empty() {
        return String::from_str(alloc, "\"\"");
    }
    shown(alloc, name.as_bytes())
}

/// Returns a block's id as a string. The ids of a stream are ASCII, so it is the id itself.
///
/// # Errors
///
/// `AllocError`: an allocation was refused.
pub fn id_text(alloc: Global, id: &[u8]) -> Result<String, AllocError>
    ensures { IfOk result (λ text. IsAscii id.now → string_bytes text ≡ id.now) }
{
    match str::from_utf8(id) {
        Ok(text) => String::from_str(alloc, text),
        Err(_) => shown(alloc, id),
    }
}
