//! `zimgasol`: inspects guests that QEMU or libvirt saved in a file, verifies them, and extracts
//! their memory.
//!
//! `main` passes its arguments, the standard streams and what is known of the output to `run` of
//! `zimgasol_command`.
#![tactic(auto)]

use std::fs::File;
use std::io::{ErrorKind, IsTerminal, Write};
use std::process::ExitCode;
use std::{env, io};
use zimgasol_command::{FAILED, Screen, WORDS, run};

// Returns the arguments after the program's name.
fn words_given(rt: &HostRuntime) -> io::Result<Vec<String>> {
    let mut words = Vec::new(rt.alloc());
    for word in env::args(rt)?.skip(1) {
        words.push(word)?;
    }
    Ok(words)
}

// Returns what is known of the standard output and the error output.
fn screen(rt: &HostRuntime) -> Screen {
    let is_terminal = rt.stdout().is_terminal();
    let has_error_terminal = rt.stderr().is_terminal();
    match env::var(rt, "COLUMNS") {
        Ok(columns) => Screen::new(is_terminal, has_error_terminal, Some(&columns)),
        Err(_) => Screen::new(is_terminal, has_error_terminal, None),
    }
}

// Prints why the arguments can't be read, and returns the exit status.
fn put_unread<E: Write>(errors: &mut E, error: &io::Error) -> u8 {
    if error.kind() == ErrorKind::InvalidData {
        let _ = writeln!(errors, "zimgasol: an argument isn't UTF-8");
        return WORDS;
    }
    let _ = writeln!(errors, "zimgasol: no memory");
    FAILED
}

fn main(rt: HostRuntime) -> ExitCode {
    // The system gives a new file the least free descriptor, from 0. If a standard stream is
    // closed, its descriptor is free: output could be written into a guest's file. This opens a
    // folder in its place, whose reads and writes fail.
    let _first = File::open(&rt, "/");
    let _second = File::open(&rt, "/");
    let _third = File::open(&rt, "/");
    let mut errors = rt.stderr();
    let status = match words_given(&rt) {
        Ok(words) => run(
            &rt,
            &words,
            screen(&rt),
            &mut rt.stdin(),
            &mut rt.stdout(),
            &mut errors,
        ),
        Err(error) => put_unread(&mut errors, &error),
    };
    ExitCode::from(status)
}
