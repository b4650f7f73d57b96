//! `extract`: writes the memory of a stream into a folder, a file for each block.
//!
//! Pages are written to their places as they are read. A file gets its final name when the stream
//! is complete and the file is synced to its disk. With `--since` each file begins as a copy of its
//! block in another folder, and the stream's pages are written over it. The state of a machine
//! beside its RAM is written into files of its own.

ghost use Rattle.std.specs.Prelude.{[], OnOk};
ghost use Rattle.zimgasol_filling.specs.Filled.{HasTakenInto, KeepsInto};

use crate::leftovers::{leftovers, put_leftovers};
use crate::opening::read_stream;
use crate::state_files::StateFiles;
use mig_mem::{Place, Table};
use serde_json::{Map, Value, put};
use std::alloc::{AllocError, AllocGlobal, Global};
use std::fs::{Files, OpenFile};
use std::io::{ErrorKind, Read, Write};
use std::rt::Clock;
use std::str;
use std::thread::Threads;
use zimgasol_digests::{Background, Digester};
use zimgasol_files::{
    BlockFile, BlockNames, ChannelWords, DigestWords, Digests, ExtractWords, Folder, FolderBlock,
    LIST_NAME, PARTIAL, StreamWords, Talk, Trouble, Unfit, Watch, block_value, complete_file,
    create, is_free, names_in, open, path_in, read_folder, rename, shown, shown_name, unfit,
    unwritten, write_text, wrong,
};
use zimgasol_filling::{BlockFiles, Filling, PlacedFiles};
use zimgasol_output::{put_judgement, put_several_judgement, tail_state};
use zimgasol_reading::{
    Ending, GuestSink, PageSink, Several, SinkTrouble, Survey, is_complete, read_several,
};

// The folder that blocks are extracted into, and their files.
#[derive(Drop)]
struct Extraction<H: Files + Threads> {
    alloc: Global,
    folder: String,
    // the list of the folder, and its name until it is complete: made before any file is, so that
    // removing and renaming take no memory
    list_path: String,
    list_partial: String,
    // the one block that is extracted; all blocks if there is none
    block: Option<String>,
    // whether existing files are replaced
    replace: bool,
    // the digests of each file in the list
    digest: DigestWords,
    // the file that is read, and how its progress is shown
    input: String,
    talk: Talk,
    // whether a file is synced to its disk before it gets its final name
    durable: bool,
    // whether this run made the folder
    made: bool,
    page_size: u64,
    // the folder of `--since`
    since: Option<Folder>,
    // the files, and the pages that are put into them
    filling: Filling<BlockFiles<H::File>>,
    // the pieces of the files, if they get the digest of these
    background: Option<Background>,
    state: StateFiles<H::File>,
}

impl<H: Files + Threads> Extraction<H> {
    fn new(
        rt: &H,
        alloc: Global,
        words: &ExtractWords<'_>,
        since: Option<Folder>,
    ) -> Result<Extraction<H>, Trouble> {
        let folder = String::from_str(alloc, words.folder)?;
        let list_path = path_in(alloc, words.folder, LIST_NAME, "")?;
        let list_partial = path_in(alloc, words.folder, LIST_NAME, PARTIAL)?;
        let block = match words.block {
            Some(id) => Some(String::from_str(alloc, id)?),
            None => None,
        };
        let input = String::from_str(alloc, words.stream.file)?;
        let state = StateFiles::<H::File>::new(alloc, words.folder, words.keeps_state())?;
        let filling = Filling::new(alloc, BlockFiles::new(alloc))?;
        let background = if words.digest.pieces {
            Some(Background::new(rt, alloc, since.is_none()))
        } else {
            None
        };
        Ok(Extraction {
            alloc,
            folder,
            list_path,
            list_partial,
            block,
            replace: words.replace,
            digest: words.digest,
            input,
            talk: words.stream.talk,
            durable: words.durable,
            made: false,
            page_size: words.stream.page_size.bytes(),
            since,
            filling,
            background,
            state,
        })
    }

    // Makes the folder, unless there is one.
    fn make_folder(&mut self, rt: &H) -> Result<(), Trouble> {
        match rt.create_dir(&self.folder) {
            Ok(()) => {
                self.made = true;
                Ok(())
            }
            Err(error) if error.kind() == ErrorKind::AlreadyExists => Ok(()),
            Err(error) => Err(unwritten(self.alloc, &self.folder, error)),
        }
    }

    // Refuses a path that exists, unless `--replace` is set and it is a plain file.
    fn is_free(&self, rt: &H, path: &str) -> Result<(), Trouble> {
        is_free(rt, self.alloc, path, self.replace)
    }

    // Makes the file of the block `id`, which has the number `block` and `len` bytes.
    fn open_block(&mut self, rt: &H, id: &[u8], block: usize, len: u64) -> Result<(), Trouble> {
        let names = names_in(self.alloc, &self.folder, id, block)?;
        self.is_free(rt, &names.path)?;
        // nothing takes memory between the file's making and its place in `files`
        let id = id.to_vec(self.alloc)?;
        self.filling.target.reserve()?;
        let file = create(rt, self.alloc, &names.partial_path)?;
        let BlockNames {
            name,
            path,
            partial_path,
        } = names;
        self.filling.target.push(BlockFile {
            block,
            id,
            name,
            partial_path,
            path,
            len,
            file,
            digests: Digests::none(),
        })?;
        Ok(())
    }

    // Makes the files of the blocks that are extracted.
    fn open_blocks(&mut self, rt: &H, table: &Table) -> Result<(), Trouble> {
        for block in 0..table.len() {
            let id = table.id(block);
            if is_wanted(&self.block, id) {
                let len = table.pages(block).saturating_mul(table.page_size());
                self.open_block(rt, id, block, len)?;
            }
        }
        Ok(())
    }

    // Gives all files their final names, the list last.
    fn rename_all(&self, rt: &H) -> Result<(), Trouble> {
        self.state.complete(rt)?;
        for file in &self.filling.target.files {
            rename(rt, self.alloc, &file.partial_path, &file.path)?;
        }
        rename(rt, self.alloc, &self.list_partial, &self.list_path)
    }

    // Writes the list of blocks.
    fn write_list(&self, rt: &H, ending: &Ending) -> Result<(), Trouble> {
        let text = self.list(ending)?.to_string_pretty(self.alloc)?;
        let mut file = create(rt, self.alloc, &self.list_partial)?;
        match write_text(&mut file, text.as_bytes()) {
            Ok(()) => Ok(()),
            Err(error) => Err(unwritten(self.alloc, &self.list_partial, error)),
        }
    }

    // Returns the entries on the blocks.
    fn entries(&self) -> Result<Value, Trouble> {
        let mut list = Vec::new(self.alloc);
        for file in &self.filling.target.files {
            list.push(block_value(self.alloc, file)?)?;
        }
        Ok(Value::Array(list))
    }

    // Returns the list of blocks, with what is known of the state, if it was kept.
    fn list(&self, ending: &Ending) -> Result<Value, Trouble> {
        let alloc = self.alloc;
        let mut list = Map::new(alloc);
        put(&mut list, alloc, "page_size", Value::from(self.page_size))?;
        put(&mut list, alloc, "blocks", self.entries()?)?;
        if self.state.are_made() {
            let state = Value::try_from_str(alloc, tail_state(ending))?;
            put(&mut list, alloc, "state", state)?;
        }
        Ok(Value::Object(list))
    }

    // Removes the files that have no final name, and the folder if this run made it. It takes no
    // memory.
    fn remove(&self, rt: &H) {
        for file in &self.filling.target.files {
            let _left = rt.remove_file(&file.partial_path);
        }
        let _left = rt.remove_file(&self.list_partial);
        self.state.remove(rt);
        if self.made {
            let _left = rt.remove_dir(&self.folder);
        }
    }
}

impl<H: Files + Clock + Threads + Sync> Extraction<H> {
    // Sets the length of each file, and syncs it to its disk.
    fn complete_files(&mut self) -> Result<(), Trouble> {
        let durable = self.durable;
        for file in &mut self.filling.target.files {
            match complete_file(file, durable) {
                Ok(()) => {}
                Err(Trouble::Unread(error)) => {
                    return Err(unwritten(self.alloc, &file.partial_path, error));
                }
                Err(trouble) => return Err(trouble),
            }
        }
        if durable {
            self.state.sync()?;
        }
        Ok(())
    }

    // Computes the digests of each file by `digester`.
    fn add_digests<E: Write>(
        &mut self,
        rt: &H,
        digester: &mut Digester,
        errors: &mut E,
    ) -> Result<(), Trouble> {
        let mut number = 0usize;
        for file in &mut self.filling.target.files {
            match digester.digests_of(rt, number, &mut file.file, file.len, errors) {
                Ok(digests) => file.digests = digests,
                Err(Trouble::Unread(error)) => {
                    return Err(unwritten(self.alloc, &file.partial_path, error));
                }
                Err(trouble) => return Err(trouble),
            }
            number = number.saturating_add(1);
        }
        Ok(())
    }

    // Computes the digests of each file, if there are to be some.
    fn digest_files<E: Write>(&mut self, rt: &H, errors: &mut E) -> Result<(), Trouble> {
        if !self.digest.are_some() {
            return Ok(());
        }
        let mut total = 0u64;
        for file in &self.filling.target.files {
            total = total.saturating_add(file.len);
        }
        let watch = Watch::new(rt, self.alloc, self.talk, &self.input)?;
        let watch = watch.in_stage("digest: ", total);
        let background = self.background.take();
        let mut digester = Digester::new(self.alloc, self.digest.plain, background, watch)?;
        let added = self.add_digests(rt, &mut digester, errors);
        digester.end(errors);
        added
    }

    // Completes all files, and renames them. `ending` is what is known of the bytes after RAM.
    fn complete<E: Write>(
        &mut self,
        rt: &H,
        ending: &Ending,
        errors: &mut E,
    ) -> Result<(), Trouble> {
        self.filling.write_run()?;
        self.complete_files()?;
        self.digest_files(rt, errors)?;
        self.write_list(rt, ending)?;
        self.rename_all(rt)
    }

    // Completes all files if the stream is complete. Removes them if it isn't, or if they can't be
    // completed.
    fn finish<E: Write>(
        &mut self,
        rt: &H,
        is_whole: bool,
        ending: &Ending,
        errors: &mut E,
    ) -> Result<(), Trouble> {
        if !is_whole {
            self.remove(rt);
            return Ok(());
        }
        let completed = self.complete(rt, ending, errors);
        if completed.is_err() {
            self.remove(rt);
        }
        completed
    }
}

// Returns whether the block `id` is extracted; `block` is the only one, if it is set.
fn is_wanted(block: &Option<String>, id: &[u8]) -> bool {
    match block {
        Some(wanted) => wanted.as_bytes() == id,
        None => true,
    }
}

// Returns the block of the folder `since` that `file` is a copy of.
fn older_block<'a, F: Drop>(
    alloc: Global,
    since: &'a Folder,
    file: &BlockFile<F>,
) -> Result<&'a FolderBlock, Trouble> {
    let id = str::from_utf8(&file.id).unwrap_or("");
    since.block_like(alloc, id, id, file.len)
}

impl<H: Files + Threads> Extraction<H> {
    // Makes the files of the blocks that the folder `since` has and the stream hasn't. `blocks` is
    // the number of blocks of the stream.
    fn open_since(&mut self, rt: &H, since: &Folder, blocks: usize) -> Result<(), Trouble> {
        for (number, other) in since.blocks.iter().enumerate() {
            let id = other.id.as_bytes();
            if !self.has_block(id) && is_wanted(&self.block, id) {
                self.open_block(rt, id, blocks.saturating_add(number), other.len)?;
            }
        }
        Ok(())
    }

    // Returns whether the block `id` has a file.
    fn has_block(&self, id: &[u8]) -> bool {
        self.filling
            .target
            .files
            .iter()
            .any(|file| file.id.as_slice() == id)
    }

    // Copies all blocks of the folder `since` into their files.
    fn copy_all(&mut self, rt: &H, since: &Folder) -> Result<(), Trouble>
        ensures { OnOk result (KeepsInto self.old.filling self.new.filling) }
    {
        for file in 0..self.filling.target.files.len() {
            self.copy_since(rt, since, file)?;
        }
        Ok(())
    }

    // Copies a block of the folder `since` into its file, except for pages of zeros.
    fn copy_since(&mut self, rt: &H, since: &Folder, file: usize) -> Result<(), Trouble>
        ensures { OnOk result (KeepsInto self.old.filling self.new.filling) }
    {
        let Some(there) = self.filling.target.files.get(file) else {
            return Ok(());
        };
        let block = there.block;
        let before = older_block(self.alloc, since, there)?;
        let mut input = open(rt, self.alloc, &before.path)?;
        let copied = self.filling.copy(block, &mut input)?;
        if copied != Some(before.len) {
            return Err(input.unfit(Unfit::Changed));
        }
        Ok(())
    }

    // Makes the files of all blocks, which have zeros alone, or a copy of the folder of `--since`.
    fn begin_files(&mut self, rt: &H, table: &Table) -> Result<(), Trouble>
        ensures { OnOk result (HasTakenInto self.new.filling table.now []) }
    {
        self.open_blocks(rt, table)?;
        let Some(since) = self.since.take() else {
            self.filling.begin(table)?;
            return Ok(());
        };
        self.open_since(rt, &since, table.len())?;
        self.filling.begin(table)?;
        self.copy_all(rt, &since)?;
        Ok(())
    }
}

// Notes a page of one of `files` in `background`, if there is one.
fn note_page<F: PlacedFiles>(
    files: &F,
    background: &mut Option<Background>,
    page_size: u64,
    place: Place,
    content: Option<&[u8]>,
) -> Result<(), AllocError> {
    let Some(background) = background else {
        return Ok(());
    };
    let Some(file) = files.file_of(place.block) else {
        return Ok(());
    };
    let at = place.page.saturating_mul(page_size);
    background.note(file, at, content, page_size as usize)?;
    Ok(())
}

impl<H: Files + Threads> GuestSink<H> for Extraction<H> {
    fn begin(&mut self, rt: &H, table: &Table) -> Result<(), Trouble> {
        self.make_folder(rt)?;
        self.is_free(rt, &self.list_path)?;
        self.state.check_free(rt, self.replace)?;
        self.begin_files(rt, table)?;
        if let Some(id) = &self.block
            && self.filling.target.files.is_empty()
        {
            return Err(Trouble::NoBlock(shown(self.alloc, id.as_bytes())?));
        }
        Ok(())
    }

    fn between_pieces(&mut self, rt: &H) -> Result<(), Trouble> {
        if let Some(background) = &mut self.background {
            background.start(rt)?;
        }
        Ok(())
    }

    fn keeps_state(&self) -> bool {
        self.state.is_kept
    }

    fn take_front(&mut self, rt: &H, libvirt: &[u8], stream: &[u8]) -> Result<(), Trouble> {
        self.state.begin(rt, libvirt, stream)
    }

    fn take_after(&mut self, bytes: &[u8]) -> Result<(), Trouble> {
        self.state.write_after(bytes)
    }
}

impl<H: Files + Threads> PageSink for Extraction<H> {
    ghost use Rattle.zimgasol_filling.specs.Filled.{HasTakenInto};

    ghost holds = { λ e. HasTakenInto e.filling };

    fn take_page(&mut self, place: Place, content: Option<&[u8]>) -> Result<(), SinkTrouble> {
        let files = &self.filling.target;
        note_page(files, &mut self.background, self.page_size, place, content)?;
        self.filling.take_page(place, content)
    }
}

// Reads the list of the folder of `--since`. Refuses it if its page size differs.
fn since_of<H: AllocGlobal + Files>(
    rt: &H,
    words: &ExtractWords<'_>,
) -> Result<Option<Folder>, Trouble> {
    let Some(path) = words.since else {
        return Ok(None);
    };
    let since = read_folder(rt, path)?;
    let page_size = words.stream.page_size.bytes();
    if since.page_size != page_size {
        let why = Unfit::OtherPages(since.page_size, page_size);
        return Err(unfit(rt.alloc(), path, why));
    }
    Ok(Some(since))
}

// Returns an extraction that has no file yet.
fn extraction_of<H: AllocGlobal + Files + Threads>(
    rt: &H,
    words: &ExtractWords<'_>,
) -> Result<Extraction<H>, Trouble> {
    let since = since_of(rt, words)?;
    Extraction::<H>::new(rt, rt.alloc(), words, since)
}

// Reads a single stream into the files of `extraction`, and returns it, too. After an error they
// are removed.
fn read_single<H: AllocGlobal + Files + Clock + Threads, R: Read, E: Write>(
    rt: &H,
    words: &StreamWords<'_>,
    extraction: Extraction<H>,
    input: &mut R,
    errors: &mut E,
) -> (Result<Survey, Trouble>, Extraction<H>) {
    let (read, extraction) = read_stream(rt, words, input, extraction, errors);
    if read.is_err() {
        extraction.remove(rt);
    }
    (read, extraction)
}

// Reads a single stream into the files of `extraction`, and completes or removes them. Returns the
// survey of the stream.
fn fill_single<H: AllocGlobal + Files + Clock + Threads + Sync, R: Read, E: Write>(
    rt: &H,
    words: &ExtractWords<'_>,
    extraction: Extraction<H>,
    input: &mut R,
    errors: &mut E,
) -> Result<Survey, Trouble> {
    let (read, mut extraction) = read_single(rt, &words.stream, extraction, input, errors);
    let mut survey = read?;
    survey.is_laid_over = words.since.is_some();
    extraction.finish(rt, is_complete(&survey), &survey.ending, errors)?;
    Ok(survey)
}

/// Extracts the memory of a single stream, and its state. Returns the survey of the stream. If the
/// stream isn't complete, all files are removed.
///
/// # Errors
///
/// Those of `read_stream`, `read_folder` and `is_free`, and `Trouble::OfFile` if a file can't be
/// written. No file stays under its final name, unless it is the renaming that fails.
pub(crate) fn extract_survey<H: AllocGlobal + Files + Clock + Threads + Sync, R: Read, E: Write>(
    rt: &H,
    words: &ExtractWords<'_>,
    input: &mut R,
    errors: &mut E,
) -> Result<Survey, Trouble> {
    let extraction = extraction_of(rt, words)?;
    fill_single(rt, words, extraction, input, errors)
}

// Prints the verdict on a single stream. Returns whether it is complete; `name` is printable.
fn judge_single<W: Write, E: Write>(
    alloc: Global,
    words: &StreamWords<'_>,
    name: &str,
    survey: &Survey,
    output: &mut W,
    errors: &mut E,
) -> Result<bool, Trouble> {
    put_judgement(alloc, output, errors, name, survey, words.talk)
}

// Reads a main stream and its channels into the files of `extraction`, and returns it, too. After
// an error they are removed.
fn read_channels<H: AllocGlobal + Files + Clock + Threads, R: Read, E: Write>(
    rt: &H,
    words: &StreamWords<'_>,
    channels: &ChannelWords<'_>,
    extraction: Extraction<H>,
    input: &mut R,
    errors: &mut E,
) -> (Result<Several<H::File>, Trouble>, Extraction<H>) {
    let (read, extraction) = read_several(rt, words, channels, input, extraction, errors);
    if read.is_err() {
        extraction.remove(rt);
    }
    (read, extraction)
}

// Reads a main stream and its channels into the files of `extraction`, and completes or removes
// them. Returns the survey of all sources.
fn fill_several<H: AllocGlobal + Files + Clock + Threads + Sync, R: Read, E: Write>(
    rt: &H,
    words: &ExtractWords<'_>,
    channels: &ChannelWords<'_>,
    extraction: Extraction<H>,
    input: &mut R,
    errors: &mut E,
) -> Result<Several<H::File>, Trouble> {
    let (read, mut extraction) = read_channels(
        rt,
        &words.stream,
        channels,
        extraction,
        input,
        errors,
    );
    let mut several = read?;
    several.is_laid_over = words.since.is_some();
    extraction.finish(rt, several.is_complete(), &several.main.ending, errors)?;
    Ok(several)
}

// Extracts the memory of a main stream and its channels. Returns the survey of all sources.
fn survey_several<H: AllocGlobal + Files + Clock + Threads + Sync, R: Read, E: Write>(
    rt: &H,
    words: &ExtractWords<'_>,
    channels: &ChannelWords<'_>,
    input: &mut R,
    errors: &mut E,
) -> Result<Several<H::File>, Trouble> {
    let extraction = extraction_of(rt, words)?;
    fill_several(rt, words, channels, extraction, input, errors)
}

// Prints the verdict on a main stream and its channels. Returns whether all sources are complete;
// `name` is printable.
fn judge_several<F: Read + OpenFile + Drop, W: Write, E: Write>(
    alloc: Global,
    words: &StreamWords<'_>,
    name: &str,
    several: &Several<F>,
    output: &mut W,
    errors: &mut E,
) -> Result<bool, Trouble> {
    put_several_judgement(alloc, output, errors, name, several, words.talk)
}

// Extracts the memory of a main stream and its channels, and prints the verdict. Returns whether
// all sources are complete; `name` is printable.
fn extract_several<H: AllocGlobal + Files + Clock + Threads + Sync, R: Read, W: Write, E: Write>(
    rt: &H,
    words: &ExtractWords<'_>,
    channels: &ChannelWords<'_>,
    name: &str,
    input: &mut R,
    output: &mut W,
    errors: &mut E,
) -> Result<bool, Trouble> {
    let several = survey_several(rt, words, channels, input, errors)?;
    judge_several(rt.alloc(), &words.stream, name, &several, output, errors)
}

// Extracts the memory of a stream, with its channels, and prints the verdict. Returns whether it is
// complete.
fn extract_stream<H: AllocGlobal + Files + Clock + Threads + Sync, R: Read, W: Write, E: Write>(
    rt: &H,
    words: &ExtractWords<'_>,
    channels: &ChannelWords<'_>,
    input: &mut R,
    output: &mut W,
    errors: &mut E,
) -> Result<bool, Trouble> {
    // made first: nothing takes memory after the files are complete, but for a note on a block
    let name = shown_name(rt.alloc(), words.stream.file)?;
    if !channels.is_single(rt.alloc())? {
        return extract_several(rt, words, channels, &name, input, output, errors);
    }
    let survey = extract_survey(rt, words, input, errors)?;
    judge_single(rt.alloc(), &words.stream, &name, &survey, output, errors)
}

/// Extracts the memory of a stream, with its channels, and prints the verdict. Notes the files that
/// a killed run left. Returns whether the stream is complete.
///
/// # Errors
///
/// `Trouble::Words` if the folder is `-`, those of `extract_survey` and `read_several`, and
/// `Trouble::Output`: then the files stay.
pub(crate) fn extract<H: AllocGlobal + Files + Clock + Threads + Sync, R: Read, W: Write, E: Write>(
    rt: &H,
    words: &ExtractWords<'_>,
    channels: &ChannelWords<'_>,
    input: &mut R,
    output: &mut W,
    errors: &mut E,
) -> Result<bool, Trouble> {
    if words.folder == "-" {
        let why = "is no folder, and `extract` writes files; `./-` names a folder of that name";
        return Err(wrong(rt.alloc(), "DIR", words.folder, why));
    }
    let left = leftovers(rt, words.folder)?;
    let is_whole = extract_stream(rt, words, channels, input, output, errors)?;
    put_leftovers(rt, errors, &left);
    Ok(is_whole)
}
