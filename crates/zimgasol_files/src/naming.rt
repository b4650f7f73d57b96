//! Makes the names of the files that blocks are extracted into.

ghost use Rattle.std.specs.Prelude.{◌≡◌, ◌<◌, ◌++◌, ◌^◌, length, IfOk, string_bytes, codes};
ghost use Rattle.percent_encoding.specs.Percent.{percent_encode as encoded};
ghost use Rattle.zimgasol_files.specs.Naming.{escaped_in, name_of, NamesArePlain, NamesAreDistinct};

use percent_encoding::{AsciiSet, NON_ALPHANUMERIC, ascii_set, percent_encode};
use std::alloc::{AllocError, Global};

/// The most bytes of a name before its suffix, if it is made from the id. A file system takes 255
/// bytes, and the name of an incomplete file is longer.
const MOST_LEN: usize = 200;

/// The characters that are escaped in an id that begins with a dot.
const ESCAPED_WITH_DOTS: AsciiSet = ascii_set!(
    NON_ALPHANUMERIC.remove(b'-').remove(b'_').remove(b'@')
);

/// The characters that are escaped in any other id.
const ESCAPED: AsciiSet = ascii_set!(
    NON_ALPHANUMERIC
        .remove(b'-')
        .remove(b'_')
        .remove(b'@')
        .remove(b'.')
);

// Returns the characters that are escaped in an id.
fn escaped_set(id: &[u8]) -> AsciiSet
    ensures { result ≡ escaped_in id.now }
{
    match id.first() {
        Some(first) if *first == b'.' => ESCAPED_WITH_DOTS,
        _ => ESCAPED,
    }
}

/// Returns the name of the file of the block `id`, which has the number `block`. It is the id, in
/// which bytes other than letters, digits and some marks are `%` and two hexadecimal digits; if
/// that has more than 200 bytes, it is `%long-` and the number. It ends with `.bin`.
///
/// # Errors
///
/// `AllocError`: an allocation was refused.
pub fn file_name(alloc: Global, id: &[u8], block: usize) -> Result<String, AllocError>
    ensures { IfOk result (λ name. string_bytes name ≡ name_of id.now block) }
{
    let mut name = String::new(alloc);
    percent_encode(id, escaped_set(id)).append_to(&mut name)?;
    if name.len() > MOST_LEN {
        let mut digits = itoa::Buffer::new();
        name.clear();
        name.push_str("%long-")?;
        name.push_str(digits.format(block))?;
    }
    name.push_str(".bin")?;
    Ok(name)
}

/// Shows that the name of each block's file has no slash, and doesn't begin with a dot: the file is
/// in its folder.
pub fn names_are_plain()
    ensures { NamesArePlain }
{}

/// Shows that the names of two blocks' files differ, if their ids and numbers do.
pub fn names_are_distinct()
    ensures { NamesAreDistinct }
{}

/// The folder of the state, in a folder that `extract` makes, and its files.
pub const STATE_NAME: &str = "state";

/// The file with libvirt's header, its XML and its cookie.
pub const LIBVIRT_NAME: &str = "libvirt.bin";

/// The file with the stream's bytes up to the end of RAM's size list.
pub const BEFORE_NAME: &str = "before.bin";

/// The file with the bytes after the end of RAM.
pub const AFTER_NAME: &str = "after.bin";

/// Returns the path of the file `name` of the state in `folder`, with `after` at its end.
///
/// # Errors
///
/// `AllocError`: an allocation was refused.
pub fn state_path(
    alloc: Global,
    folder: &str,
    name: &str,
    after: &str,
) -> Result<String, AllocError>
    ensures { IfOk result (λ path. string_bytes path ≡ (folder.now ++ codes "/" ++ codes "state") ++ codes "/" ++ name.now ++ after.now) }
{
    let state = path_in(alloc, folder, STATE_NAME, "")?;
    path_in(alloc, &state, name, after)
}

/// Returns the path of the file `name` in `folder`, with `after` at its end.
///
/// # Errors
///
/// `AllocError`: an allocation was refused.
pub fn path_in(alloc: Global, folder: &str, name: &str, after: &str) -> Result<String, AllocError>
    ensures { IfOk result (λ path. string_bytes path ≡ folder.now ++ codes "/" ++ name.now ++ after.now) }
{
    let mut path = String::new(alloc);
    path.push_str(folder)?;
    path.push_str("/")?;
    path.push_str(name)?;
    path.push_str(after)?;
    Ok(path)
}
