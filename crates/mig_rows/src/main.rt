//! Worked examples as data: it reads files of cases, makes the streams that they describe, makes
//! the calls, and reports an answer that isn't the expected one.
//!
//! Its arguments are the files' names. Without arguments it reads its input. A case consists of
//! lines (this crate's README has them all): lines that build a guest and streams, and questions,
//! each with ` = ` and its answer. For a question without an expected answer, the answer is
//! printed, one a line. So another implementation can be compared with this one over many cases in
//! one run.
//!
//! It ends with the number of cases and answers, and with exit status 1 if an answer was wrong.
//! `mig_cases` has the cases, and the questions about guest memory and packets. This crate isn't
//! part of the product.
#![tactic(auto)]

mod channels;
mod judge;
mod rounds;
mod run;
mod several;
mod show;
mod streams;

use crate::run::play_file;
use mig_cases::Count;
use std::alloc::AllocGlobal;
use std::io::{self, BufWriter, Read, Write};
use std::process::ExitCode;
use std::rt::Files;
use std::sync::Wait;
use std::thread::Threads;
use std::{env, fs};

// Reads the files that the arguments name, or without arguments the input.
fn texts(rt: &HostRuntime) -> io::Result<Vec<String>> {
    let mut texts = Vec::new(rt.alloc());
    for name in env::args(rt)?.skip(1) {
        texts.push(fs::read_to_string(rt, name.as_str())?)?;
    }
    if texts.is_empty() {
        let mut text = String::new(rt.alloc());
        rt.stdin().read_to_string(&mut text)?;
        texts.push(text)?;
    }
    Ok(texts)
}

fn play_all<R: AllocGlobal + Files + Threads + Wait + Sync, W: Write>(
    rt: &R,
    out: &mut W,
    texts: &[String],
    count: &mut Count,
) -> io::Result<()> {
    for text in texts {
        play_file(rt, rt.alloc(), out, text, count)?;
    }
    Ok(())
}

fn main(rt: HostRuntime) -> io::Result<ExitCode> {
    let texts = texts(&rt)?;
    let mut count = Count::none();
    let mut out = BufWriter::new(rt.alloc(), io::writer(&rt))?;
    play_all(&rt, &mut out, &texts, &mut count)?;
    count.write_to(&mut out)?;
    out.flush()?;
    Ok(ExitCode::from(u8::from(count.wrong > 0)))
}
