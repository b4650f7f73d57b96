//! Runs the tool in tests: arguments, and its answers on them.

use crate::folder::Folder;
use mig_command::run;
use std::alloc::{AllocGlobal, Allocator};
use std::fs::Files;
use std::process::Abort;
use std::sync::Wait;
use std::thread::Threads;

/// A scenario of one page.
pub(crate) const SCENARIO: &[u8] = b"block 1 a\nset 0 0 7\nround\n";

/// The tool's output on it.
pub(crate) const SCENARIO_ANSWER: &[u8] = b"single 4199 sections 3\nsame\n";

/// The exit status and the output of a run.
pub(crate) type Answer = (u8, Vec<u8>);

/// The wanted ones.
pub(crate) type Wanted<'a> = (u8, &'a [u8]);

/// Returns the words of a line, as a run takes them.
pub(crate) fn plain_words(rt: &(impl AllocGlobal + Abort), line: &str) -> Vec<String> {
    let mut words = Vec::new(rt.alloc());
    for word in line.split(' ') {
        let word = String::from_str(rt.alloc(), word).expect(rt, "a word");
        assert!(rt; words.push(word).is_ok());
    }
    words
}

/// Returns the words of a line: none if it is empty. A word after `@` is a file of the folder.
pub(crate) fn words_in(
    rt: &(impl AllocGlobal + Abort),
    folder: &Folder,
    line: &str,
) -> Vec<String> {
    let mut words = Vec::new(rt.alloc());
    if line.is_empty() {
        return words;
    }
    for word in line.split(' ') {
        let word = match word.strip_prefix("@") {
            Some(name) => folder.path(rt, name),
            None => String::from_str(rt.alloc(), word).expect(rt, "a word"),
        };
        assert!(rt; words.push(word).is_ok());
    }
    words
}

/// Runs the tool on arguments, in memory of an allocator.
pub(crate) fn answer_in<
    H: AllocGlobal + Files + Threads + Wait + Sync,
    A: Allocator + Copy + Send + Sync,
>(rt: &H, alloc: A, words: &[String], scenario: &[u8]) -> Answer {
    let mut input = scenario;
    let mut output = Vec::new(rt.alloc());
    let status = run(rt, alloc, words, &mut input, &mut output);
    (status, output)
}

/// Returns whether an answer is the wanted one.
pub(crate) fn is_answer(answer: &Answer, wanted: Wanted<'_>) -> bool {
    answer.0 == wanted.0 && answer.1.as_slice() == wanted.1
}

/// Runs the tool on the arguments in a line, and asserts its exit status and output.
pub(crate) fn assert_script<H: AllocGlobal + Files + Threads + Wait + Sync + Abort>(
    rt: &H,
    folder: &Folder,
    line: &str,
    wanted: Wanted<'_>,
) {
    let words = words_in(rt, folder, line);
    let answer = answer_in(rt, rt.alloc(), &words, b"");
    assert!(rt; is_answer(&answer, wanted), "{line}");
}
