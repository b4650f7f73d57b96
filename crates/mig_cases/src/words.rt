//! The words of a line: numbers, ranges, offsets of pages, and bytes.

use crate::again;
use crate::trouble::{Done, Trouble};
use std::alloc::Global;

/// The rest of a line. Words are separated by spaces.
#[derive(Clone, Copy)]
pub struct Words<'a> {
    rest: &'a str,
}

/// Reads a number as words write it, in decimals.
pub fn number_of(word: &str) -> Result<u64, Trouble> {
    word.parse::<u64>().ok().ok_or(Trouble::Line)
}

/// Reads numbers from the first to the last: `3`, or `0-127`.
pub fn range_of(word: &str) -> Result<(u64, u64), Trouble> {
    match word.split_once('-') {
        Some((first, last)) => Ok((number_of(first)?, number_of(last)?)),
        None => {
            let number = number_of(word)?;
            Ok((number, number))
        }
    }
}

impl<'a> Words<'a> {
    pub fn new(line: &'a str) -> Words<'a> {
        Words { rest: line.trim() }
    }

    pub fn is_empty(&self) -> bool {
        self.rest.is_empty()
    }

    /// Returns the rest of the line.
    pub fn rest(self) -> &'a str {
        self.rest
    }

    /// Takes the next word.
    pub fn word(&mut self) -> Result<&'a str, Trouble> {
        if self.rest.is_empty() {
            return Err(Trouble::Line);
        }
        match self.rest.split_once(' ') {
            Some((word, rest)) => {
                self.rest = rest.trim_start();
                Ok(word)
            }
            None => {
                let word = self.rest;
                self.rest = "";
                Ok(word)
            }
        }
    }

    pub fn number(&mut self) -> Result<u64, Trouble> {
        number_of(self.word()?)
    }

    pub fn size(&mut self) -> Result<usize, Trouble> {
        usize::try_from(self.number()?).ok().ok_or(Trouble::Line)
    }

    pub fn byte(&mut self) -> Result<u8, Trouble> {
        u8::try_from(self.number()?).ok().ok_or(Trouble::Line)
    }

    pub fn range(&mut self) -> Result<(u64, u64), Trouble> {
        range_of(self.word()?)
    }
}

// Reads a word and the number of its repetitions: `00*40`.
fn repeated(word: &str) -> Result<(&str, u64), Trouble> {
    match word.split_once('*') {
        Some((word, times)) => Ok((word, number_of(times)?)),
        None => Ok((word, 1)),
    }
}

// Appends the bytes of a word such as `7e0001` or `00*40`.
fn add_bytes(alloc: Global, bytes: &mut Vec<u8>, word: &str) -> Done {
    let (digits, times) = repeated(word)?;
    let Ok(piece) = again!(hex::decode(alloc, digits)) else {
        return Err(Trouble::Line);
    };
    for _ in 0..times {
        bytes.extend_from_slice(&piece)?;
    }
    Ok(())
}

/// Reads the bytes of hexadecimal digits with spaces anywhere between bytes, some of them repeated:
/// `01 61 00*4095`.
pub fn bytes_of(alloc: Global, text: &str) -> Result<Vec<u8>, Trouble> {
    let mut bytes = Vec::new(alloc);
    for word in text.split(' ') {
        if !word.is_empty() {
            add_bytes(alloc, &mut bytes, word)?;
        }
    }
    Ok(bytes)
}

/// Reads the bytes of a block's id: the word itself, or after `0x` bytes in hexadecimal digits.
pub fn id_of(alloc: Global, text: &str) -> Result<Vec<u8>, Trouble> {
    match text.strip_prefix("0x") {
        Some(digits) => bytes_of(alloc, digits),
        None => Ok(Vec::from_slice(alloc, text.as_bytes())?),
    }
}

// Appends the offsets of an item: `4096`, `8192*64`, or those of pages, `p1` and `p0-127`.
fn add_offsets(offsets: &mut Vec<u64>, item: &str, page_size: u64) -> Done {
    let Some(pages) = item.strip_prefix('p') else {
        let (offset, times) = repeated(item)?;
        let offset = number_of(offset)?;
        for _ in 0..times {
            offsets.push(offset)?;
        }
        return Ok(());
    };
    let (first, last) = range_of(pages)?;
    for page in first..=last {
        offsets.push(page.checked_mul(page_size).ok_or(Trouble::Line)?)?;
    }
    Ok(())
}

/// Reads offsets, separated by commas.
pub fn offsets_of(alloc: Global, list: &str, page_size: u64) -> Result<Vec<u64>, Trouble> {
    let mut offsets = Vec::new(alloc);
    for item in list.split(',') {
        add_offsets(&mut offsets, item, page_size)?;
    }
    Ok(offsets)
}
