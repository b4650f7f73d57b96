//! Parses the arguments `ID=FILE` of `save`.

ghost use Rattle.std.specs.Prelude.{◌≡◌, ◌==◌, ◌↔◌, length, IfSome, IsNone};
ghost use Rattle.std.specs.List.{before_first, after_first, position_or_len};

/// A block that is saved: its id, and the file with its memory.
#[derive(Clone, Copy, Debug, PartialEq, Eq)]
pub struct BlockWord<'a> {
    pub id: &'a str,
    pub file: &'a str,
}

/// Parses `word`: the id is before the first `=` (61), and the file's name after it. None if there
/// is no `=`.
pub fn block_word<'a>(word: &'a str) -> Option<BlockWord<'a>>
    ensures id { IfSome result (λ b. b.id.now ≡ before_first (λ c. c == 61) word.entry.now) }
    ensures file { IfSome result (λ b. b.file.now ≡ after_first (λ c. c == 61) word.entry.now) }
    ensures none { IsNone result ↔ (position_or_len (λ c. c == 61) word.entry.now ≡ length word.entry.now) }
{
    let (id, file) = word.split_once('=')?;
    Some(BlockWord { id, file })
}
