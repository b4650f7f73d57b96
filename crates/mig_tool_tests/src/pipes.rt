//! Two tools that are connected by pipes. A thread for each pipe takes all that one tool writes and
//! passes it to the other through a second pipe, as connections between two machines do. So streams
//! may be longer than a pipe has room for. Pipes have no names here, so links to `/dev/fd` are used
//! as their names.
//!
//! Two things aren't shown. One is that a tool waits where it opens a pipe of a name that nobody
//! has opened from the other side. The other is two tools that run at the same time: the second
//! begins when the first one is done.

use crate::folder::Folder;
use crate::script::{SCENARIO, assert_script};
use std::alloc::AllocGlobal;
use std::fs::Files;
use std::io::{PipeReader, PipeWriter, Read, Write, pipe};
use std::os::fd::AsRawFd;
use std::os::unix::fs::symlink;
use std::process::Abort;
use std::sync::Wait;
use std::thread::{self, JoinHandle, Scope, Threads};

/// The number of pages of the larger scenario: their bytes are more than a pipe holds.
const PAGES: usize = 129;

/// The ends between two pipes.
type Way = (PipeReader, PipeWriter);

/// Arguments, and the tool's output, with exit status 0.
type Line<'a> = (&'a str, &'a [u8]);

// Makes a link in the folder to a descriptor, in place of an older link.
fn link(rt: &(impl AllocGlobal + Files + Abort), folder: &Folder, name: &str, descriptor: i32) {
    let path = folder.path(rt, name);
    let _left = std::fs::remove_file(rt, path.as_str());
    let target = format!(in rt.alloc(); "/dev/fd/{descriptor}").expect(rt, "a path");
    assert!(rt; symlink(rt, target.as_str(), path.as_str()).is_ok());
}

// Reads a pipe to its end, and passes the bytes on.
fn pass_on<H: AllocGlobal + Abort>(rt: &H, way: Way) {
    let (mut from, mut to) = way;
    let mut bytes = Vec::new(rt.alloc());
    assert!(rt; from.read_to_end(&mut bytes).is_ok());
    assert!(rt; to.write_all(&bytes).is_ok());
}

// Starts a thread for each way.
fn start_passing<'s, E, H: AllocGlobal + Threads + Wait + Sync + Abort>(
    scope: &'s Scope<'s, E>,
    rt: &'s H,
    ways: Vec<Way>,
    workers: &mut Vec<JoinHandle<()>>,
) {
    for way in ways {
        let Ok(worker) = scope.spawn(move || pass_on(rt, way)) else {
            panic!(rt; "a thread")
        };
        assert!(rt; workers.push(worker).is_ok());
    }
}

// Runs a tool that writes into named pipes, and then one that reads from other named pipes, to
// which all bytes are passed on.
fn assert_joined<H: AllocGlobal + Files + Threads + Wait + Sync + Abort>(
    rt: &H,
    folder: &Folder,
    names: &[(&str, &str)],
    first: Line,
    second: Line,
) {
    let mut ways = Vec::new(rt.alloc());
    // (a pipe has ended when no process has it open for writing, also before the first open for
    // writing)
    let mut writers = Vec::new(rt.alloc());
    let mut readers = Vec::new(rt.alloc());
    for (output, input) in names {
        let (from, writer) = pipe(rt).expect(rt, "a pipe");
        let (reader, to) = pipe(rt).expect(rt, "a pipe");
        link(rt, folder, output, writer.as_raw_fd());
        link(rt, folder, input, reader.as_raw_fd());
        assert!(rt; ways.push((from, to)).is_ok());
        assert!(rt; writers.push(writer).is_ok());
        assert!(rt; readers.push(reader).is_ok());
    }
    thread::scope(thread::scope_env(), rt, move |scope| {
        let mut workers = Vec::new(rt.alloc());
        start_passing(scope, rt, ways, &mut workers);
        assert_script(rt, folder, first.0, (0, first.1));
        drop(writers);
        assert_script(rt, folder, second.0, (0, second.1));
        for worker in workers {
            worker.join(rt);
        }
    });
    drop(readers);
}

// Returns the larger scenario: each page filled with 7.
fn filled(rt: &(impl AllocGlobal + Abort)) -> Vec<u8> {
    let mut text = Vec::new(rt.alloc());
    assert!(rt; writeln!(text, "block {PAGES} a").is_ok());
    for page in 0..PAGES {
        assert!(rt; writeln!(text, "fill 0 {page} 7").is_ok());
    }
    assert!(rt; text.extend_from_slice(b"round\n").is_ok());
    text
}

// Passes a stream that is longer than a pipe has room for, and then the memory, which is as long.
#[test]
fn stream_through_pipes(rt: HostRuntime) {
    let folder = Folder::new(&rt, "pipe");
    folder.put(&rt, "s", &filled(&rt));
    assert_joined(
        &rt,
        &folder,
        &[("out", "in")],
        ("send @s @out", b"sent 529511 0\n"),
        ("load @in @i", b"loaded sections 3\n"),
    );
    let mut memory = Vec::new(rt.alloc());
    assert!(rt; memory.resize(PAGES * 4096, 7).is_ok());
    assert!(rt; folder.bytes(&rt, "i") == memory);
    assert_script(&rt, &folder, "send @s @o", (0, b"sent 529511 0\n"));
    assert_joined(
        &rt,
        &folder,
        &[("memory", "image")],
        ("load @o @memory", b"loaded sections 3\n"),
        ("compare @s @image", b"same\n"),
    );
    folder.remove(&rt);
}

// Sends a scenario on two channels, and loads it: as complete streams, and fed. The main stream and
// each channel have pipes of their own.
fn assert_two_channels<H: AllocGlobal + Files + Threads + Wait + Sync + Abort>(
    rt: &H,
    scenario: &[u8],
    first: Line,
) {
    let folder = Folder::new(rt, "pipes");
    folder.put(rt, "s", scenario);
    for line in ["load @n @i --channels 2", "load @n @i --channels 2 --feed"] {
        folder.put(rt, "i", b"");
        assert_joined(
            rt,
            &folder,
            &[("m", "n"), ("m.0", "n.0"), ("m.1", "n.1")],
            first,
            (line, b"loaded rounds 1\n"),
        );
        assert_script(rt, &folder, "compare @s @i", (0, b"same\n"));
    }
    folder.remove(rt);
}

// With packets of one page: two hellos, 129 packets of a page and two SYNC packets.
#[test]
fn two_channels_through_pipes(rt: HostRuntime) {
    let short: &[u8] = b"sent 101 8256\n";
    assert_two_channels(&rt, SCENARIO, ("send @s @m --channels 2", short));
    let long: &[u8] = b"sent 101 704576\n";
    let line = "send @s @m --channels 2 --batch 1";
    assert_two_channels(&rt, &filled(&rt), (line, long));
}
