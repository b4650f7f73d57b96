//! Runs a file of cases with rounds: each line builds something, or is a question.

use crate::judge::{judge, sections};
use crate::rounds::Rounds;
use crate::several::load_several;
use crate::streams::ask_stream;
use mig_cases::{
    Book, Case, Count, Done, Line, Section, Trouble, Words, again, ask_memory, ask_packets,
    difference, same_bytes,
};
use std::alloc::Global;
use std::io::{self, Write};
use std::rt::Files;
use std::sync::Wait;
use std::thread::Threads;

/// Runs the cases of a file.
pub fn play_file<R: Files + Threads + Wait + Sync, W: Write>(
    rt: &R,
    alloc: Global,
    out: &mut W,
    text: &str,
    count: &mut Count,
) -> io::Result<()> {
    let Some(book) = count.book(alloc, out, text)? else {
        return Ok(());
    };
    for section in &book.sections {
        if section.is_case {
            count.begin();
            play_case(rt, alloc, out, &book, section, count)?;
        }
    }
    Ok(())
}

// Runs the lines of a case, up to one that can't be run.
fn play_case<R: Files + Threads + Wait + Sync, W: Write>(
    rt: &R,
    alloc: Global,
    out: &mut W,
    book: &Book<'_>,
    section: &Section<'_>,
    count: &mut Count,
) -> io::Result<()> {
    let mut built = match Rounds::new(alloc) {
        Ok(built) => built,
        Err(trouble) => return count.refuse(out, section.name, trouble),
    };
    for (i, line) in section.lines.iter().enumerate() {
        let line = Line::new(line);
        let mut answer = String::new(alloc);
        let mut asked = follow(&mut answer, rt, book, &mut built, line);
        if let Err(Trouble::NoMemory) = asked {
            let before = section.lines.get(..i).unwrap_or(&[]);
            asked = follow_again(&mut answer, rt, book, &mut built, before, line);
        }
        if !count.take(out, section.name, line, asked, &answer)? {
            break;
        }
    }
    Ok(())
}

// Runs a line that was refused memory again, after the lines before it in a new case.
fn follow_again<R: Files + Threads + Wait + Sync>(
    out: &mut String,
    rt: &R,
    book: &Book<'_>,
    built: &mut Rounds,
    before: &[&str],
    line: Line<'_>,
) -> Result<bool, Trouble> {
    *built = Rounds::new(built.case.alloc)?;
    for line in before {
        let mut words = Words::new(Line::new(line).text);
        let name = words.word()?;
        if !built.take(rt, name, words)? && (name == "mark" || name == "unmark") {
            ask(out, rt, book, built, name, words)?;
        }
    }
    out.clear();
    follow(out, rt, book, built, line)
}

// Runs a line: writes the answer to its question. Returns false if it isn't a question.
fn follow<R: Files + Threads + Wait + Sync>(
    out: &mut String,
    rt: &R,
    book: &Book<'_>,
    built: &mut Rounds,
    line: Line<'_>,
) -> Result<bool, Trouble> {
    let mut words = Words::new(line.text);
    let name = words.word()?;
    if name == "each" {
        each(out, &mut built.case, words, line.wanted)?;
    } else if let (true, Some(wanted)) = (name == "bytes", line.wanted) {
        same_bytes(out, built.case.texts.last().ok_or(Trouble::Line)?, wanted)?;
    } else if built.take(rt, name, words)? {
        return Ok(false);
    } else {
        ask(out, rt, book, built, name, words)?;
    }
    Ok(true)
}

// Writes the answer to a question, whatever the expected one.
fn ask<R: Files + Threads + Wait + Sync>(
    out: &mut String,
    rt: &R,
    book: &Book<'_>,
    built: &mut Rounds,
    name: &str,
    words: Words,
) -> Done {
    if name == "multi" {
        return built.multi(out, rt, words);
    }
    if name == "load_multi" {
        return load_several(out, rt, &built.case);
    }
    if name == "same" || name == "difference" {
        return ask_other(out, rt, book, &mut built.case, name, words.rest());
    }
    if !ask_text(out, &built.case, name)? && !ask_guest(out, built, name, words)? {
        return Err(Trouble::Line);
    }
    Ok(())
}

// Writes the answer to a question about the last stream. Returns false if the question is another
// one, or if there is no stream.
fn ask_text(out: &mut String, case: &Case, name: &str) -> Result<bool, Trouble> {
    Ok(!case.texts.is_empty() && (ask_packets(out, case, name)? || ask_stream(out, case, name)?))
}

// Writes the answer to a question about the guest. Returns false if the question is another one.
fn ask_guest(
    out: &mut String,
    built: &mut Rounds,
    name: &str,
    words: Words,
) -> Result<bool, Trouble> {
    let answered = match name {
        "batches" => built.batches(out, words),
        "judge" => judge(out, &built.case),
        "sections" => sections(out, &mut built.case),
        _ => return ask_memory(out, &mut built.case, name, words),
    };
    answered?;
    Ok(true)
}

// Answers a question about a case and another one, which the lines of a name build.
fn ask_other<R: Files + Threads + Wait + Sync>(
    out: &mut String,
    rt: &R,
    book: &Book<'_>,
    case: &mut Case,
    question: &str,
    name: &str,
) -> Done {
    let mut other = Rounds::new(case.alloc)?;
    build(rt, book, &mut other, name)?;
    difference(out, case, &mut other.case, question)
}

// Runs the lines of a name, each of which has to build something.
fn build<R: Files + Threads + Wait + Sync>(
    rt: &R,
    book: &Book<'_>,
    built: &mut Rounds,
    name: &str,
) -> Done {
    for line in book.lines_of(name)? {
        let mut words = Words::new(line);
        let word = words.word()?;
        if !built.take(rt, word, words)? {
            return Err(Trouble::Line);
        }
    }
    Ok(())
}

// `each FIRST LAST QUESTION`: asked of the prefixes of the stream with these lengths. Writes the
// first answer that isn't the expected one, or else the last one.
fn each(out: &mut String, case: &mut Case, mut words: Words, wanted: Option<&str>) -> Done {
    let first = words.size()?;
    let last = words.size()?;
    let name = words.word()?;
    let whole = Vec::from_slice(case.alloc, case.text()?)?;
    for len in first..=last {
        let front = whole.get(..len).ok_or(Trouble::Line)?;
        again!(ask_front(out, case, front, name))?;
        let answer = out.trim_start();
        if wanted.is_some_and(|wanted| wanted != answer) {
            write!(out, " of the first {len} bytes")?;
            break;
        }
    }
    *case.text()? = whole;
    Ok(())
}

// Writes only the answer on the prefix of the stream, which replaces the stream.
fn ask_front(out: &mut String, case: &mut Case, front: &[u8], name: &str) -> Done {
    *case.text()? = Vec::from_slice(case.alloc, front)?;
    out.clear();
    if !ask_text(out, case, name)? {
        return Err(Trouble::Line);
    }
    Ok(())
}
