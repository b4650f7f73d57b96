//! What is known of the standard output and the error output, and text that is fitted to a width.

ghost use Rattle.std.specs.Prelude.{◌≤◌};

use std::alloc::{AllocError, Global};

/// The least and the most columns that help is fitted to. The most are those of an output that
/// doesn't name its columns.
const LEAST_COLUMNS: usize = 40;

const MOST_COLUMNS: usize = 80;

/// What is known of the standard output and the error output.
#[derive(Clone, Copy, Debug)]
pub struct Screen {
    /// Whether the standard output is a terminal.
    pub is_terminal: bool,
    /// Whether the error output is a terminal.
    pub has_error_terminal: bool,
    /// The columns that help is fitted to.
    pub columns: usize,
}

impl Screen {
    /// Creates the screen of the two outputs, of which each may be a terminal. `columns` is the
    /// variable COLUMNS, if it is set. Below 40 it counts as 40, and above 80, or if it is no
    /// number, as 80.
    pub fn new(is_terminal: bool, has_error_terminal: bool, columns: Option<&str>) -> Screen
        ensures least { 40 ≤ result.columns }
        ensures most { result.columns ≤ 80 }
    {
        let mut wanted = MOST_COLUMNS;
        if let Some(text) = columns
            && let Ok(number) = text.parse::<usize>()
        {
            wanted = number;
        }
        Screen {
            is_terminal,
            has_error_terminal,
            columns: wanted.max(LEAST_COLUMNS).min(MOST_COLUMNS),
        }
    }
}

// A text whose lines are broken between words.
#[derive(Drop)]
struct Fitting {
    text: String,
    columns: usize,
    // the columns of the last line that are taken
    taken: usize,
}

impl Fitting {
    // Begins a line with `indent` spaces.
    fn indent(&mut self, indent: usize) -> Result<(), AllocError> {
        for _ in 0..indent {
            self.text.push_str(" ")?;
        }
        self.taken = indent;
        Ok(())
    }

    // Appends `line`. Further lines of it are indented as it is.
    fn put_line(&mut self, line: &str) -> Result<(), AllocError> {
        let words = line.trim_start_matches(' ');
        let indent = line.len().saturating_sub(words.len());
        self.indent(indent)?;
        for word in words.split(' ') {
            self.put_word(word, indent)?;
        }
        Ok(())
    }

    // Appends `word`: to a new line, if the last one, which has `indent` spaces, has no room.
    fn put_word(&mut self, word: &str, indent: usize) -> Result<(), AllocError> {
        if self.taken > indent {
            let end = self.taken.saturating_add(1).saturating_add(word.len());
            if end > self.columns {
                self.text.push_str("\n")?;
                self.indent(indent)?;
            } else {
                self.text.push_str(" ")?;
                self.taken = self.taken.saturating_add(1);
            }
        }
        self.text.push_str(word)?;
        self.taken = self.taken.saturating_add(word.len());
        Ok(())
    }
}

/// Returns `text` with its lines broken between words, so that each has at most `columns` bytes if
/// its words allow that.
///
/// # Errors
///
/// `AllocError`: an allocation was refused.
pub(crate) fn fitted(alloc: Global, text: &str, columns: usize) -> Result<String, AllocError> {
    let mut fitting = Fitting {
        text: String::new(alloc),
        columns,
        taken: 0,
    };
    for (number, line) in text.split('\n').enumerate() {
        if number != 0 {
            fitting.text.push_str("\n")?;
        }
        fitting.put_line(line)?;
    }
    Ok(fitting.text)
}
