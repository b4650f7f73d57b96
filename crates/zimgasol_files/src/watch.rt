//! `--progress`: how much was read, on one line of a terminal, or in lines of a log.

ghost use Rattle.std.specs.Prelude.{◌≡◌, ◌-◌, ◌*◌, ◌/◌, ◌^◌, ◌≤◌, ◌<◌};

use crate::shown_name;
use crate::words::Talk;
use std::alloc::{AllocError, Global};
use std::io::{self, Write};
use std::rt::Clock;
use std::time::Instant;

/// The seconds between two lines, if the error output is no terminal.
const LOG_SECONDS: u64 = 10;

/// The time at which reading began, the number of bytes to read, and when the next line is due.
#[derive(Drop)]
pub struct Watch {
    name: String,
    // what is done beside reading the file; "" for reading it
    stage: &'static str,
    // None if nothing is printed
    started: Option<Instant>,
    // the length of the input, if it is known
    total: Option<u64>,
    on_terminal: bool,
    // the second from which on the next line is printed
    due: u64,
    // whether a line stands on the terminal
    is_shown: bool,
}

/// Returns the share of `total` that is `done`, in percent, rounded down.
pub(crate) fn share(done: u64, total: u64) -> u64
    requires { 0 < total }
    ensures { done ≤ total → result ≡ done * 100 / total }
{
    let done = u128::from(done.min(total));
    (done * 100 / u128::from(total)) as u64
}

/// Returns the rate at which `done` bytes were read in `seconds`, in MiB a second, rounded down.
pub(crate) fn rate(done: u64, seconds: u64) -> u64
    requires { 0 < seconds }
    ensures { result ≡ done / 1048576 / seconds }
{
    done / 1_048_576 / seconds
}

/// Returns the number of seconds for the rest of `total`, at the rate at which `done` bytes were
/// read in `seconds`. It is rounded down, and at most 2^64 - 1.
pub(crate) fn seconds_left(done: u64, total: u64, seconds: u64) -> u64
    requires { 0 < done }
    ensures { done ≤ total → (total - done) * seconds / done < 2 ^ 64 → result ≡ (total - done) * seconds / done }
{
    let rest = u128::from(total.saturating_sub(done));
    let left = rest * u128::from(seconds) / u128::from(done);
    if left > u128::from(u64::MAX) {
        return u64::MAX;
    }
    left as u64
}

impl Watch {
    /// Creates the watch of a reading that begins now; `name` is the file that is read.
    pub fn new<H: Clock>(
        rt: &H,
        alloc: Global,
        talk: Talk,
        name: &str,
    ) -> Result<Watch, AllocError> {
        let started = if talk.progress {
            Instant::now(rt).ok()
        } else {
            None
        };
        Ok(Watch {
            name: shown_name(alloc, name)?,
            stage: "",
            started,
            total: None,
            on_terminal: talk.on_terminal,
            due: if talk.on_terminal { 1 } else { LOG_SECONDS },
            is_shown: false,
        })
    }

    /// Returns the watch of a `stage` that begins now, and reads `total` bytes.
    pub fn in_stage(mut self, stage: &'static str, total: u64) -> Watch {
        self.stage = stage;
        self.total = Some(total);
        self
    }

    /// Sets the number of bytes to read.
    pub fn expect_total(&mut self, total: u64) {
        self.total = Some(total);
    }

    /// Prints that `done` bytes were read: on a terminal once a second, else every ten seconds.
    pub fn show<H: Clock, E: Write>(&mut self, rt: &H, errors: &mut E, done: u64) {
        let Some(started) = self.started else {
            return;
        };
        let Ok(elapsed) = started.elapsed(rt) else {
            return;
        };
        let second = elapsed.as_secs();
        if second < self.due {
            return;
        }
        let pause = if self.on_terminal { 1 } else { LOG_SECONDS };
        self.due = second.saturating_add(pause);
        let _ = self.put(errors, done, second);
    }

    // Prints the line, over the one that stands on a terminal.
    fn put<E: Write>(&mut self, errors: &mut E, done: u64, seconds: u64) -> io::Result<()> {
        if !self.on_terminal {
            put_progress(errors, &self.name, self.stage, done, self.total, seconds)?;
            return writeln!(errors);
        }
        self.is_shown = true;
        errors.write_all(b"\r")?;
        put_progress(errors, &self.name, self.stage, done, self.total, seconds)?;
        errors.write_all(CLEAR)?;
        errors.flush()
    }

    /// Removes the line that stands on a terminal.
    pub fn end<E: Write>(&mut self, errors: &mut E) {
        if self.is_shown {
            self.is_shown = false;
            let _ = errors.write_all(b"\r");
            let _ = errors.write_all(CLEAR);
        }
    }
}

/// Clears a terminal's line from the cursor on.
const CLEAR: &[u8] = b"\x1b[K";

/// Writes that `done` bytes were read in `seconds`, with their share of `total`, the rate, and the
/// seconds left at this rate.
pub(crate) fn put_progress<E: Write>(
    errors: &mut E,
    name: &str,
    stage: &str,
    done: u64,
    total: Option<u64>,
    seconds: u64,
) -> io::Result<()> {
    write!(errors, "{name}: {stage}{done} bytes")?;
    if let Some(total) = total
        && total != 0
    {
        let share = share(done, total);
        write!(errors, ", {share} %")?;
    }
    if seconds != 0 {
        match rate(done, seconds) {
            0 => write!(errors, ", {} KiB/s", done / 1024 / seconds)?,
            rate => write!(errors, ", {rate} MiB/s")?,
        }
    }
    if let Some(total) = total
        && done != 0
        && seconds != 0
    {
        let left = seconds_left(done, total, seconds);
        write!(errors, ", {left} s left")?;
    }
    Ok(())
}
