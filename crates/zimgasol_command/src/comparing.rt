//! `compare`: lists the pages in which the memory of two streams or folders differs.
//!
//! A stream may have several records of a page, so its memory is known only at its end. Each stream
//! is therefore extracted into a folder next to the second operand, and two folders are compared.

ghost use Rattle.std.specs.Prelude.{IfOk};
ghost use Rattle.zimgasol_files.specs.Differing.{piece_of, IsCountedTo, CountsPage};

use crate::differing::Differing;
use crate::extracting::extract_survey;
use std::alloc::{AllocError, AllocGlobal, Global};
use std::fs::Files;
use std::io::{self, ErrorKind, Read, Write};
use std::rt::Clock;
use std::thread::Threads;
use zimgasol_files::{
    CompareWords, DigestWords, ExtractWords, Folder, FolderBlock, PARTIAL, PIECE_PAGES, Packed,
    Pages, Reading, StreamWords, Trouble, Unfit, open, path_in, read_folder, shown, shown_name,
    unfit, unwritten,
};
use zimgasol_output::put_wrongs;
use zimgasol_reading::Survey;

/// The name of the folder that streams are extracted into. A number follows it if that folder
/// exists.
const TEMPORARY_NAME: &str = ".zimgasol-compare";

/// The most folders of other runs next to an operand, before a run is refused.
const MOST_RUNS: u64 = 100;

// The operands of `compare`.
#[derive(Clone, Copy)]
enum Operand {
    First,
    Second,
}

// The temporary folder that streams are extracted into.
#[derive(Drop)]
struct Temporary {
    alloc: Global,
    // the second operand, next to which the folder is
    beside: String,
    path: String,
    // the folders in it, of each operand that is a stream
    first: String,
    second: String,
    // whether this run made it
    made: bool,
}

// Returns the name of the temporary folder after `number` names that are taken.
fn temporary_name(alloc: Global, number: u64) -> Result<String, AllocError> {
    if number == 0 {
        return format!(in alloc; "{TEMPORARY_NAME}{PARTIAL}");
    }
    format!(in alloc; "{TEMPORARY_NAME}-{number}{PARTIAL}")
}

// Returns the path of the temporary folder after `number` names that are taken, next to the file or
// folder `path`.
fn temporary_path(alloc: Global, path: &str, number: u64) -> Result<String, AllocError> {
    let name = temporary_name(alloc, number)?;
    match path.trim_end_matches('/').rsplit_once('/') {
        Some((folder, _)) => path_in(alloc, folder, &name, ""),
        None => Ok(name),
    }
}

// Notes that the folder `path` is another run's, or was left by one that was killed.
fn put_other_run<E: Write>(alloc: Global, errors: &mut E, path: &str) -> Result<(), Trouble> {
    let name = shown_name(alloc, path)?;
    let _ = writeln!(
        errors,
        "zimgasol: {name}: note: another `compare` is running; if not, delete it"
    );
    Ok(())
}

impl Temporary {
    // Creates the temporary folder next to the file or folder `beside`, before it is made.
    fn new(alloc: Global, beside: &str) -> Result<Temporary, AllocError> {
        let path = temporary_path(alloc, beside, 0)?;
        Ok(Temporary {
            alloc,
            beside: String::from_str(alloc, beside)?,
            first: path_in(alloc, &path, "a", "")?,
            second: path_in(alloc, &path, "b", "")?,
            path,
            made: false,
        })
    }

    // Takes the name after `number` names that are taken.
    fn set_name(&mut self, number: u64) -> Result<(), AllocError> {
        self.path = temporary_path(self.alloc, &self.beside, number)?;
        self.first = path_in(self.alloc, &self.path, "a", "")?;
        self.second = path_in(self.alloc, &self.path, "b", "")?;
        Ok(())
    }

    // Returns the path of the folder that an operand is extracted into.
    fn folder(&self, operand: Operand) -> &str {
        match operand {
            Operand::First => self.first.as_str(),
            Operand::Second => self.second.as_str(),
        }
    }

    // Makes the folder, unless this run made it already. Notes each folder of another run, and then
    // takes the next name.
    fn make<H: Files, E: Write>(&mut self, rt: &H, errors: &mut E) -> Result<(), Trouble> {
        if self.made {
            return Ok(());
        }
        for number in 0..MOST_RUNS {
            self.set_name(number)?;
            self.made = self.is_made(rt)?;
            if self.made {
                return Ok(());
            }
            put_other_run(self.alloc, errors, &self.path)?;
        }
        Err(unfit(self.alloc, &self.path, Unfit::OtherRun))
    }

    // Makes the folder. Returns whether it did: there may be one.
    fn is_made<H: Files>(&self, rt: &H) -> Result<bool, Trouble> {
        match rt.create_dir(&self.path) {
            Ok(()) => Ok(true),
            Err(error) if error.kind() == ErrorKind::AlreadyExists => Ok(false),
            Err(error) => Err(unwritten(self.alloc, &self.path, error)),
        }
    }

    // Removes the folder with all its files, if this run made it. A folder without folders is
    // removed without memory, so those in it are removed first.
    fn remove<H: Files>(&self, rt: &H) -> Result<(), Trouble> {
        if !self.made {
            return Ok(());
        }
        let _left = rt.remove_dir_all(self.alloc, &self.first);
        let _left = rt.remove_dir_all(self.alloc, &self.second);
        if rt.remove_dir(&self.path).is_ok() {
            return Ok(());
        }
        match rt.remove_dir_all(self.alloc, &self.path) {
            Ok(()) => Ok(()),
            Err(error) => Err(unwritten(self.alloc, &self.path, error)),
        }
    }
}

// Returns the error of a file that a program packed, with the file's name.
fn packed_of(alloc: Global, name: &str, packed: Packed) -> Trouble {
    match shown_name(alloc, name) {
        Ok(name) => Trouble::Packed(Some(name), packed),
        Err(_) => Trouble::NoMemory,
    }
}

// Adds the name of a stream to an error of reading it.
fn of_stream(alloc: Global, name: &str, trouble: Trouble) -> Trouble {
    if let Trouble::Packed(_, packed) = &trouble {
        return packed_of(alloc, name, *packed);
    }
    match trouble {
        Trouble::Unread(error) => unwritten(alloc, name, error),
        Trouble::Libvirt(why) => match shown_name(alloc, name) {
            Ok(name) => Trouble::Refused(name, why),
            Err(_) => Trouble::NoMemory,
        },
        trouble => trouble,
    }
}

// Extracts a stream, as `words` say. Adds its name to an error of reading it.
fn named_survey<H: AllocGlobal + Files + Clock + Threads + Sync, R: Read, E: Write>(
    rt: &H,
    words: &ExtractWords<'_>,
    input: &mut R,
    errors: &mut E,
) -> Result<Survey, Trouble> {
    match extract_survey(rt, words, input, errors) {
        Ok(survey) => Ok(survey),
        Err(trouble) => Err(of_stream(rt.alloc(), words.stream.file, trouble)),
    }
}

// Writes what is wrong with the stream in `file` to `errors`. Returns whether it is complete.
fn put_wrongs_of<E: Write>(
    alloc: Global,
    errors: &mut E,
    file: &str,
    survey: &Survey,
) -> Result<bool, Trouble> {
    let name = shown_name(alloc, file)?;
    put_wrongs(alloc, errors, &name, survey)
}

// Extracts a stream, as `words` say. Returns whether it is complete; a fault is written to
// `errors`.
fn is_extracted<H: AllocGlobal + Files + Clock + Threads + Sync, R: Read, E: Write>(
    rt: &H,
    words: &ExtractWords<'_>,
    input: &mut R,
    errors: &mut E,
) -> Result<bool, Trouble> {
    let survey = named_survey(rt, words, input, errors)?;
    put_wrongs_of(rt.alloc(), errors, words.stream.file, &survey)
}

// Extracts a stream into the folder `path`. Returns the list of its blocks; None if the stream has
// a fault, which is written to `errors`.
fn extracted<'a, H: AllocGlobal + Files + Clock + Threads + Sync, R: Read, E: Write>(
    rt: &H,
    words: &StreamWords<'a>,
    path: &'a str,
    input: &mut R,
    errors: &mut E,
) -> Result<Option<Folder>, Trouble> {
    let mut stream = *words;
    // no line on a complete stream, nor on the bytes that it would name
    stream.talk.quiet = true;
    let extract = ExtractWords {
        stream,
        folder: path,
        block: None,
        since: None,
        replace: false,
        digest: DigestWords {
            plain: false,
            pieces: false,
        },
        durable: false,
        state: false,
    };
    if !is_extracted(rt, &extract, input, errors)? {
        return Ok(None);
    }
    Ok(Some(read_folder(rt, path)?))
}

// Returns whether an operand is a folder. The standard input isn't one.
fn is_folder<H: AllocGlobal + Files>(rt: &H, file: &str) -> Result<bool, Trouble> {
    if file == "-" {
        return Ok(false);
    }
    match rt.metadata(file) {
        Ok(metadata) => Ok(metadata.is_dir()),
        Err(error) => Err(unwritten(rt.alloc(), file, error)),
    }
}

// Returns the list of the blocks of `operand`. A stream is extracted first, into its folder of the
// temporary one; None if it has a fault.
fn blocks_of<H: AllocGlobal + Files + Clock + Threads + Sync, R: Read, E: Write>(
    rt: &H,
    words: &StreamWords<'_>,
    temporary: &mut Temporary,
    operand: Operand,
    input: &mut R,
    errors: &mut E,
) -> Result<Option<Folder>, Trouble> {
    if is_folder(rt, words.file)? {
        return Ok(Some(read_folder(rt, words.file)?));
    }
    temporary.make(rt, errors)?;
    extracted(rt, words, temporary.folder(operand), input, errors)
}

// Adds the differing pages of `pages`; the first of `pages` is the block's page `first`.
fn add_differing(
    differing: &mut Differing,
    first: u64,
    pages: &Pages<'_>,
) -> Result<(), AllocError> {
    if pages.are_same() {
        return Ok(());
    }
    add_each(differing, first, pages)
}

// Adds the differing pages of `pages`, page by page.
fn add_each(differing: &mut Differing, first: u64, pages: &Pages<'_>) -> Result<(), AllocError>
    ensures counted { IfOk result (λ _. IsCountedTo first (piece_of pages.now) 256 differing.old.count differing.new.count) }
{
    for page in 0..PIECE_PAGES {
        add_page(differing, first, pages, page)?;
    }
    Ok(())
}

// Adds the page `page` of `pages`, if it differs.
fn add_page(
    differing: &mut Differing,
    first: u64,
    pages: &Pages<'_>,
    page: usize,
) -> Result<(), AllocError>
    ensures counted { IfOk result (λ _. CountsPage first (piece_of pages.now) page differing.old.count differing.new.count) }
{
    let Some(_bytes) = pages.differing(page) else {
        return Ok(());
    };
    differing.add(first.saturating_add(page as u64))?;
    Ok(())
}

// Returns the pages in which two blocks of the same length differ.
fn differing_pages<H: AllocGlobal + Files>(
    rt: &H,
    a: &FolderBlock,
    b: &FolderBlock,
    page_size: u64,
) -> Result<Differing, Trouble> {
    let alloc = rt.alloc();
    let file = open(rt, alloc, &b.path)?;
    let before = open(rt, alloc, &a.path)?;
    let size = page_size.min(8192) as usize;
    let mut reading = Reading::new(alloc, file, Some(before), size, b.len)?;
    let mut differing = Differing::new(alloc);
    let mut first = 0u64;
    for _ in 0..u64::MAX {
        if !reading.read_on()? {
            break;
        }
        let pages = reading.pages();
        add_differing(&mut differing, first, &pages)?;
        first = first.saturating_add(pages.count());
    }
    if first.saturating_mul(page_size) != b.len {
        return Err(reading.changed());
    }
    Ok(differing)
}

// Two folders that are compared, with their names for messages.
#[derive(Clone, Copy)]
struct Comparing<'a> {
    alloc: Global,
    a: &'a Folder,
    a_name: &'a str,
    b: &'a Folder,
    b_name: &'a str,
}

// Writes the line on the pages that differ of a block with `pages` pages; `id` is printable.
fn put_differing<W: Write>(
    output: &mut W,
    id: &str,
    pages: u64,
    differing: &Differing,
) -> io::Result<()> {
    let count = differing.count;
    write!(output, "block \"{id}\": {count} of {pages} pages differ: ")?;
    differing.put(output)?;
    writeln!(output)
}

fn output_failed(error: io::Error) -> Trouble {
    Trouble::Output(error)
}

impl Comparing<'_> {
    // Compares a block that both folders have, and writes the line on its differences. Returns
    // whether it is the same.
    fn compare_block<H: AllocGlobal + Files, W: Write>(
        &self,
        rt: &H,
        output: &mut W,
        a: &FolderBlock,
        b: &FolderBlock,
    ) -> Result<bool, Trouble> {
        let id = shown(self.alloc, a.id.as_bytes())?;
        if a.len == b.len {
            return self.compare_pages(rt, output, &id, a, b);
        }
        self.put_lens(output, &id, a.len, b.len)
            .map_err(output_failed)?;
        Ok(false)
    }

    // Writes the line on a block that has different lengths; `id` is printable.
    fn put_lens<W: Write>(
        &self,
        output: &mut W,
        id: &str,
        a_len: u64,
        b_len: u64,
    ) -> io::Result<()> {
        let a_name = self.a_name;
        let b_name = self.b_name;
        writeln!(
            output,
            "block \"{id}\": {a_len} bytes in {a_name}, {b_len} in {b_name}"
        )
    }

    // Compares the pages of a block that has the same length in both folders, and writes the line
    // on those that differ; `id` is printable. Returns whether none does.
    fn compare_pages<H: AllocGlobal + Files, W: Write>(
        &self,
        rt: &H,
        output: &mut W,
        id: &str,
        a: &FolderBlock,
        b: &FolderBlock,
    ) -> Result<bool, Trouble> {
        let differing = differing_pages(rt, a, b, self.a.page_size)?;
        if differing.count == 0 {
            return Ok(true);
        }
        let pages = a.len / self.a.page_size.max(1);
        put_differing(output, id, pages, &differing).map_err(output_failed)?;
        Ok(false)
    }

    // Writes the line on a block that only `name` has.
    fn put_only<W: Write>(&self, output: &mut W, id: &str, name: &str) -> Result<(), Trouble> {
        let id = shown(self.alloc, id.as_bytes())?;
        writeln!(output, "block \"{id}\": only in {name}").map_err(output_failed)
    }

    // Compares all blocks. Returns whether the memory is the same.
    fn compare<H: AllocGlobal + Files, W: Write>(
        &self,
        rt: &H,
        output: &mut W,
    ) -> Result<bool, Trouble> {
        let mut is_same = true;
        for block in &self.a.blocks {
            match self.b.find(&block.id).and_then(|i| self.b.blocks.get(i)) {
                Some(other) => {
                    if !self.compare_block(rt, output, block, other)? {
                        is_same = false;
                    }
                }
                None => {
                    self.put_only(output, &block.id, self.a_name)?;
                    is_same = false;
                }
            }
        }
        for block in &self.b.blocks {
            if self.a.find(&block.id).is_none() {
                self.put_only(output, &block.id, self.b_name)?;
                is_same = false;
            }
        }
        Ok(is_same)
    }

    // Writes the line on memory that is the same.
    fn put_same<W: Write>(&self, output: &mut W) -> Result<(), Trouble> {
        let a_name = self.a_name;
        let b_name = self.b_name;
        let blocks = self.a.blocks.len();
        let total = self.a.total();
        writeln!(
            output,
            "{a_name} and {b_name}: the same: blocks {blocks}, memory {total} bytes"
        )
        .map_err(output_failed)
    }
}

// Compares the blocks of both folders, and writes the result. Returns whether the memory is the
// same.
fn compare_folders<H: AllocGlobal + Files, W: Write>(
    rt: &H,
    words: &CompareWords<'_>,
    a: &Folder,
    b: &Folder,
    output: &mut W,
) -> Result<bool, Trouble> {
    let alloc = rt.alloc();
    if a.page_size != b.page_size {
        let why = Unfit::OtherPages(b.page_size, a.page_size);
        return Err(unfit(alloc, words.second.file, why));
    }
    let a_name = shown_name(alloc, words.first.file)?;
    let b_name = shown_name(alloc, words.second.file)?;
    let comparing = Comparing {
        alloc,
        a,
        a_name: &a_name,
        b,
        b_name: &b_name,
    };
    let is_same = comparing.compare(rt, output)?;
    if is_same && !words.first.talk.quiet {
        comparing.put_same(output)?;
    }
    Ok(is_same)
}

// Reads both operands, and compares them. Returns whether both are complete and the same.
fn compare_in<H: AllocGlobal + Files + Clock + Threads + Sync, R: Read, W: Write, E: Write>(
    rt: &H,
    words: &CompareWords<'_>,
    temporary: &mut Temporary,
    input: &mut R,
    output: &mut W,
    errors: &mut E,
) -> Result<bool, Trouble> {
    let Some(a) = blocks_of(rt, &words.first, temporary, Operand::First, input, errors)? else {
        return Ok(false);
    };
    let Some(b) = blocks_of(rt, &words.second, temporary, Operand::Second, input, errors)? else {
        return Ok(false);
    };
    compare_folders(rt, words, &a, &b, output)
}

/// Compares the memory of two streams or folders. Returns whether both are complete and the same.
///
/// # Errors
///
/// `Trouble::Words` if both are the standard input, `Trouble::Unfit` if the page sizes differ or
/// the temporary folders of 100 other runs exist, those of reading and extracting them, and
/// `Trouble::Output`.
pub(crate) fn compare<H: AllocGlobal + Files + Clock + Threads + Sync, R: Read, W: Write, E: Write>(
    rt: &H,
    words: &CompareWords<'_>,
    input: &mut R,
    output: &mut W,
    errors: &mut E,
) -> Result<bool, Trouble> {
    let alloc = rt.alloc();
    if words.first.file == "-" && words.second.file == "-" {
        let name = String::from_str(alloc, "compare - -")?;
        return Err(Trouble::Words(name, "only one of the two can be the standard input"));
    }
    let mut temporary = Temporary::new(alloc, words.second.file)?;
    let compared = compare_in(rt, words, &mut temporary, input, output, errors);
    let removed = temporary.remove(rt);
    let is_same = compared?;
    removed?;
    Ok(is_same)
}
