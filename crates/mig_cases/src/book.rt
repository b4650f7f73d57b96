//! A file of cases, as `mig_rows` reads it, and the named lines that several of them share.
//!
//! `text NAME` begins lines with a name, `case NAME` begins a case, and `from NAME` inserts the
//! lines of an earlier name. Empty lines, and lines that begin with `#`, are skipped.

use crate::trouble::{Done, Trouble};
use std::alloc::Global;

/// A name with its lines, in which each `from` is replaced by the lines that it names.
#[derive(Drop)]
pub struct Section<'a> {
    pub name: &'a str,
    pub is_case: bool,
    pub lines: Vec<&'a str>,
}

/// The sections of a file, in order.
#[derive(Drop)]
pub struct Book<'a> {
    pub sections: Vec<Section<'a>>,
}

impl<'a> Book<'a> {
    /// Reads a file of cases.
    pub fn new(alloc: Global, text: &'a str) -> Result<Book<'a>, Trouble> {
        let mut book = Book {
            sections: Vec::new(alloc),
        };
        for line in text.lines() {
            let line = line.trim();
            if !line.is_empty() && !line.starts_with('#') {
                book.add_line(alloc, line)?;
            }
        }
        Ok(book)
    }

    fn add_line(&mut self, alloc: Global, line: &'a str) -> Done {
        let (word, name) = match line.split_once(' ') {
            Some(pair) => pair,
            None => (line, ""),
        };
        match word {
            "text" | "case" => {
                let section = Section {
                    name,
                    is_case: word == "case",
                    lines: Vec::new(alloc),
                };
                self.sections.push(section)?;
                Ok(())
            }
            "from" => self.add_shared(alloc, name),
            _ => {
                let section = self.sections.last_mut().ok_or(Trouble::Line)?;
                section.lines.push(line)?;
                Ok(())
            }
        }
    }

    // Adds the lines of a name to the last section.
    fn add_shared(&mut self, alloc: Global, name: &str) -> Done {
        let shared = Vec::from_slice(alloc, self.lines_of(name)?)?;
        let section = self.sections.last_mut().ok_or(Trouble::Line)?;
        section.lines.extend_from_slice(&shared)?;
        Ok(())
    }

    /// Returns the lines of a name.
    pub fn lines_of(&self, name: &str) -> Result<&[&'a str], Trouble> {
        for section in &self.sections {
            if section.name == name && !section.is_case {
                return Ok(&section.lines);
            }
        }
        Err(Trouble::Line)
    }
}
