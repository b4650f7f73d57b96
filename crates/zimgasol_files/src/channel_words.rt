//! Parses the arguments for channels and their UUID.

ghost use Rattle.std.specs.Prelude.{◌≤◌, IfOk};

use crate::trouble::{Trouble, wrong};
use crate::words::ChannelWords;
use std::alloc::Global;
use uuid::Uuid;

/// The most channels of a migration: a hello has its channel's number in one byte.
pub(crate) const MOST_CHANNELS: usize = 255;

/// Parses a UUID.
///
/// # Errors
///
/// `Trouble::Words` if `word` isn't a UUID.
pub fn uuid_word(alloc: Global, word: &str) -> Result<Uuid, Trouble> {
    match Uuid::parse_str(word) {
        Ok(uuid) => Ok(uuid),
        Err(_) => Err(wrong(alloc, "--uuid", word, "isn't a UUID")),
    }
}

/// Returns the UUID that each hello has to have; None if the arguments have none.
///
/// # Errors
///
/// `Trouble::Words` of more than 255 channels, of a UUID without channels, and of what is no UUID.
pub fn wanted_uuid(alloc: Global, words: &ChannelWords<'_>) -> Result<Option<Uuid>, Trouble> {
    if let Some(file) = words.files.get(MOST_CHANNELS) {
        return Err(wrong(alloc, "--channel", file, "is one more than 255 channels"));
    }
    match words.uuid {
        Some(word) if words.files.is_empty() => {
            Err(wrong(alloc, "--uuid", word, "goes with `--channel`"))
        }
        Some(word) => Ok(Some(uuid_word(alloc, word)?)),
        None => Ok(None),
    }
}

/// Parses a number of channels: 1 to 255.
///
/// # Errors
///
/// `Trouble::Words` if `word` isn't such a number.
pub fn count_word(alloc: Global, word: &str) -> Result<usize, Trouble>
    ensures { IfOk result (λ count. (1 ≤ count) × (count ≤ 255)) }
{
    match word.parse::<usize>() {
        Ok(count) if count != 0 && count <= MOST_CHANNELS => Ok(count),
        _ => Err(wrong(alloc, "--channels", word, "isn't a number from 1 to 255")),
    }
}

impl ChannelWords<'_> {
    /// Returns whether the arguments name no channel, so that the stream is a single one.
    ///
    /// # Errors
    ///
    /// Those of `wanted_uuid`.
    pub fn is_single(&self, alloc: Global) -> Result<bool, Trouble> {
        let _uuid = wanted_uuid(alloc, self)?;
        Ok(self.files.is_empty())
    }
}
