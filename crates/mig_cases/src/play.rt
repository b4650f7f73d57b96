//! Counts cases and their answers, and prints the lines on them. The program that runs a case has
//! the meaning of its lines and the answers to its questions.

use crate::again;
use crate::book::Book;
use crate::trouble::Trouble;
use std::alloc::Global;
use std::io::{self, Write};

/// The number of cases, of answers, and of wrong answers.
#[derive(Clone, Copy)]
pub struct Count {
    pub cases: u64,
    pub answers: u64,
    pub wrong: u64,
}

/// A line of a case, split at its ` = `: the line itself, and the expected answer.
#[derive(Clone, Copy)]
pub struct Line<'a> {
    pub text: &'a str,
    pub wanted: Option<&'a str>,
}

impl<'a> Line<'a> {
    /// Cuts a line of a file.
    pub fn new(line: &'a str) -> Line<'a> {
        match line.split_once(" = ") {
            Some((text, wanted)) => Line {
                text,
                wanted: Some(wanted),
            },
            None => Line {
                text: line,
                wanted: None,
            },
        }
    }
}

impl Count {
    pub fn none() -> Count {
        Count {
            cases: 0,
            answers: 0,
            wrong: 0,
        }
    }

    /// Counts a case.
    pub fn begin(&mut self) {
        self.cases = self.cases.saturating_add(1);
    }

    fn add(&mut self, is_right: bool) {
        self.answers = self.answers.saturating_add(1);
        if !is_right {
            self.wrong = self.wrong.saturating_add(1);
        }
    }

    /// Reads a file of cases. If it isn't one, counts and prints a wrong answer.
    pub fn book<'a, W: Write>(
        &mut self,
        alloc: Global,
        out: &mut W,
        text: &'a str,
    ) -> io::Result<Option<Book<'a>>> {
        let Ok(book) = again!(Book::new(alloc, text)) else {
            self.add(false);
            writeln!(
                out,
                "the file can't be read: a line before any case, or a name that isn't there"
            )?;
            return Ok(None);
        };
        Ok(Some(book))
    }

    /// Counts and prints a case that can't begin.
    pub fn refuse<W: Write>(
        &mut self,
        out: &mut W,
        name: &str,
        trouble: Trouble,
    ) -> io::Result<()> {
        self.add(false);
        writeln!(out, "{name}: {}", trouble.text())
    }

    /// Counts a line of the case `name` that was run. `asked` says whether it is a question, to
    /// which `answer` is the answer, or why the line can't be run. Prints an answer that is wrong,
    /// or for which none is expected. Returns whether the case continues.
    pub fn take<W: Write>(
        &mut self,
        out: &mut W,
        name: &str,
        line: Line<'_>,
        asked: Result<bool, Trouble>,
        answer: &str,
    ) -> io::Result<bool> {
        match asked {
            Ok(false) => {}
            Ok(true) => self.compare(out, name, line, answer.trim_start())?,
            Err(trouble) => {
                self.add(false);
                writeln!(out, "{name}: {}: {}", line.text, trouble.text())?;
                return Ok(false);
            }
        }
        Ok(true)
    }

    // Counts an answer. Prints it if it is wrong, or if none is expected.
    fn compare<W: Write>(
        &mut self,
        out: &mut W,
        name: &str,
        line: Line<'_>,
        answer: &str,
    ) -> io::Result<()> {
        let Some(wanted) = line.wanted else {
            return writeln!(out, "{name}: {answer}");
        };
        self.add(wanted == answer);
        if wanted == answer {
            return Ok(());
        }
        writeln!(
            out,
            "{name}: {}: expected {wanted}, came {answer}",
            line.text
        )
    }

    /// Writes the line that ends a run.
    pub fn write_to<W: Write>(&self, out: &mut W) -> io::Result<()> {
        write!(out, "{} cases, {} answers, ", self.cases, self.answers)?;
        match self.wrong {
            0 => writeln!(out, "none wrong"),
            wrong => writeln!(out, "{wrong} wrong"),
        }
    }
}
