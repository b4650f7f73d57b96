//! The streams of a case: new ones, and changes of the last one.

use crate::case::Case;
use crate::fields::Fields;
use crate::trouble::{Done, Trouble};
use crate::words::{Words, bytes_of};
use mig_packet::hello;
use std::fs;
use std::io::Read;
use std::rt::Files;

impl Case {
    /// Returns the stream that the lines change.
    pub fn text(&mut self) -> Result<&mut Vec<u8>, Trouble> {
        self.texts.last_mut().ok_or(Trouble::Line)
    }

    // Takes a line on the streams. Returns false if the line is another one.
    pub(crate) fn change(&mut self, name: &str, words: Words) -> Result<bool, Trouble> {
        let changed = match name {
            "new" => Ok(self.texts.push(Vec::new(self.alloc))?),
            "hello" => self.hello(words),
            "packet" => self.packet(words),
            "put" => self.put(words),
            "at" => self.put_over(words),
            "insert" => self.insert(words),
            "cut" => self.cut(words),
            "repeat" => self.repeat(words),
            _ => return Ok(false),
        };
        changed?;
        Ok(true)
    }

    // `file NAME`
    pub(crate) fn file<R: Files>(&mut self, rt: &R, mut words: Words) -> Done {
        let mut file = fs::open(rt, words.word()?).ok().ok_or(Trouble::Line)?;
        let mut text = Vec::new(self.alloc);
        if file.read_to_end(&mut text).is_err() {
            return Err(Trouble::Line);
        }
        self.texts.push(text)?;
        Ok(())
    }

    // `hello ID`: with the UUID that is also passed to readers
    fn hello(&mut self, mut words: Words) -> Done {
        let hello = hello(&self.uuid, words.byte()?);
        self.text()?.extend_from_slice(&hello)?;
        Ok(())
    }

    // `packet NUMBER`, and then what `Fields` reads
    fn packet(&mut self, mut words: Words) -> Done {
        let page_size = self.page_size;
        let fields = Fields::read(self.alloc, page_size, &mut words)?;
        let contents = fields.contents(self.alloc, page_size)?;
        fields.append(page_size, self.text()?, &contents)
    }

    // `put BYTES`
    fn put(&mut self, words: Words) -> Done {
        let bytes = bytes_of(self.alloc, words.rest())?;
        self.text()?.extend_from_slice(&bytes)?;
        Ok(())
    }

    // `at PLACE BYTES`
    fn put_over(&mut self, mut words: Words) -> Done {
        let place = words.size()?;
        let bytes = bytes_of(self.alloc, words.rest())?;
        let to = place.checked_add(bytes.len()).ok_or(Trouble::Line)?;
        self.splice(place, to, &bytes)
    }

    // `insert PLACE BYTES`
    fn insert(&mut self, mut words: Words) -> Done {
        let place = words.size()?;
        let bytes = bytes_of(self.alloc, words.rest())?;
        self.splice(place, place, &bytes)
    }

    // `cut LENGTH`
    fn cut(&mut self, mut words: Words) -> Done {
        let len = words.size()?;
        let text = self.text()?;
        if len > text.len() {
            return Err(Trouble::Line);
        }
        text.truncate(len);
        Ok(())
    }

    // `repeat FROM TO`
    fn repeat(&mut self, mut words: Words) -> Done {
        let from = words.size()?;
        let to = words.size()?;
        let alloc = self.alloc;
        let part = Vec::from_slice(alloc, self.text()?.get(from..to).ok_or(Trouble::Line)?)?;
        self.splice(to, to, &part)
    }

    // Replaces the bytes between two places with others.
    fn splice(&mut self, from: usize, to: usize, bytes: &[u8]) -> Done {
        let alloc = self.alloc;
        let text = self.text()?;
        let mut changed = Vec::from_slice(alloc, text.get(..from).ok_or(Trouble::Line)?)?;
        changed.extend_from_slice(bytes)?;
        changed.extend_from_slice(text.get(to..).ok_or(Trouble::Line)?)?;
        *text = changed;
        Ok(())
    }
}
