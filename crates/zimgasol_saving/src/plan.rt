//! Plans what `save` sends: the blocks, their files, the files of `--since`, and the state that is
//! written around RAM.

ghost use Rattle.mig_mem.specs.PageSize.{IsPageSize};

use crate::send::MOST_NAME_LEN;
use crate::state::{State, state_in};
use mig_mem::{Table, TableFault};
use mig_stream::Frame;
use std::alloc::{AllocError, AllocGlobal, Global};
use std::fs::Files;
use std::str;
use zimgasol_files::{
    Folder, LIST_NAME, SaveWords, Trouble, Unfit, block_word, open, path_in, read_folder, unfit,
    wrong,
};

/// A block that is sent.
#[derive(Drop)]
pub(crate) struct Source {
    pub id: String,
    /// The path of the file with its memory.
    pub file: String,
    /// The bytes of its file.
    pub len: u64,
    /// The path of its file in the folder of `--since`.
    pub before: Option<String>,
}

/// What is sent.
#[derive(Drop)]
pub(crate) struct Plan {
    pub table: Table,
    pub sources: Vec<Source>,
    /// The state that is written around RAM.
    pub state: Option<State>,
}

impl Plan {
    /// Returns the sum of the blocks' lengths.
    pub(crate) fn total(&self) -> u64 {
        let mut total = 0u64;
        for source in &self.sources {
            total = total.saturating_add(source.len);
        }
        total
    }
}

// Refuses a file whose length is no block's.
fn check_len(alloc: Global, file: &str, len: u64, page_size: u64) -> Result<(), Trouble> {
    if len == 0 {
        return Err(unfit(alloc, file, Unfit::Empty));
    }
    if page_size == 0 || len % page_size != 0 {
        return Err(unfit(alloc, file, Unfit::Pages(len, page_size)));
    }
    Ok(())
}

// Returns the path of a block's file in the folder of `--since`, if there is one.
fn before_in(
    alloc: Global,
    since: &Option<Folder>,
    id: &str,
    file: &str,
    len: u64,
) -> Result<Option<String>, Trouble> {
    match since {
        Some(since) => Ok(Some(since.block_like(alloc, id, file, len)?.path.clone()?)),
        None => Ok(None),
    }
}

// Parses a block's argument, and checks the length of its file.
fn source_of<H: AllocGlobal + Files>(
    rt: &H,
    word: &str,
    page_size: u64,
    since: &Option<Folder>,
) -> Result<Source, Trouble> {
    let alloc = rt.alloc();
    let Some(word) = block_word(word) else {
        return Err(wrong(alloc, "--block", word, "isn't ID=FILE"));
    };
    let len = open(rt, alloc, word.file)?.len()?;
    check_len(alloc, word.file, len, page_size)?;
    Ok(Source {
        id: String::from_str(alloc, word.id)?,
        file: String::from_str(alloc, word.file)?,
        len,
        before: before_in(alloc, since, word.id, word.file, len)?,
    })
}

// Parses the arguments for blocks.
fn sources_of<H: AllocGlobal + Files>(
    rt: &H,
    words: &SaveWords<'_>,
    since: &Option<Folder>,
) -> Result<Vec<Source>, Trouble> {
    let page_size = words.page_size.bytes();
    let mut sources = Vec::new(rt.alloc());
    for word in &words.blocks {
        sources.push(source_of(rt, word, page_size, since)?)?;
    }
    Ok(sources)
}

// Returns the error on the argument of the block with the number `number`.
fn word_trouble(alloc: Global, sources: &[Source], number: usize, why: &'static str) -> Trouble {
    match sources.get(number) {
        Some(source) => wrong(alloc, "--block", &source.id, why),
        None => Trouble::NoMemory,
    }
}

// Returns the error that the blocks don't make a table.
fn table_trouble(alloc: Global, sources: &[Source], fault: TableFault) -> Trouble {
    match fault {
        TableFault::NoMemory => Trouble::NoMemory,
        TableFault::NoBlocks => word_trouble(alloc, sources, 0, "names no block"),
        TableFault::TooManyBlocks => {
            word_trouble(alloc, sources, 256, "is one more than 256 blocks")
        }
        TableFault::Id(number) => word_trouble(
            alloc,
            sources,
            number,
            "the id isn't 1 to 255 characters of printable ASCII",
        ),
        TableFault::IdTwice(number) => {
            word_trouble(alloc, sources, number, "an earlier --block has this id")
        }
        TableFault::NoPages(number) => word_trouble(alloc, sources, number, "has no page"),
        TableFault::TooLarge => Trouble::TooLarge,
    }
}

// Returns the table of the blocks.
fn table_of(alloc: Global, page_size: u64, sources: &[Source]) -> Result<Table, Trouble>
    requires { IsPageSize page_size }
{
    let mut list = Vec::new(alloc);
    for source in sources {
        let id = source.id.as_bytes().to_vec(alloc)?;
        list.push((id, source.len / page_size))?;
    }
    match Table::new(alloc, page_size, list) {
        Ok(table) => Ok(table),
        Err(fault) => Err(table_trouble(alloc, sources, fault)),
    }
}

// Refuses a machine's name that a stream can't have.
fn check_machine(alloc: Global, words: &SaveWords<'_>) -> Result<(), Trouble> {
    let Some(name) = words.machine else {
        return Ok(());
    };
    if name.len() > MOST_NAME_LEN {
        return Err(wrong(alloc, "--machine", name, "a name has at most 1024 bytes"));
    }
    match words.frame {
        Frame::Machine => Ok(()),
        Frame::Ram => Err(wrong(alloc, "--machine", name, "goes with `--frame machine`")),
    }
}

// Reads the list of the folder `path`. Refuses it if its page size isn't the stream's.
fn folder_at<H: AllocGlobal + Files>(
    rt: &H,
    words: &SaveWords<'_>,
    path: &str,
) -> Result<Folder, Trouble> {
    let folder = read_folder(rt, path)?;
    let page_size = words.page_size.bytes();
    if folder.page_size != page_size {
        let why = Unfit::SavedPages(folder.page_size, page_size);
        return Err(unfit(rt.alloc(), path, why));
    }
    Ok(folder)
}

// Reads the list of the folder of `--since`.
fn since_of<H: AllocGlobal + Files>(
    rt: &H,
    words: &SaveWords<'_>,
) -> Result<Option<Folder>, Trouble> {
    match words.since {
        Some(path) => Ok(Some(folder_at(rt, words, path)?)),
        None => Ok(None),
    }
}

// Reads the list of the folder of `--state`, which has to have a state.
fn folder_with_state<H: AllocGlobal + Files>(
    rt: &H,
    words: &SaveWords<'_>,
    path: &str,
) -> Result<Folder, Trouble> {
    let alloc = rt.alloc();
    if let Frame::Ram = words.frame {
        return Err(wrong(alloc, "--state", path, "goes with `--frame machine`"));
    }
    let folder = folder_at(rt, words, path)?;
    if !folder.has_state {
        let list = path_in(alloc, path, LIST_NAME, "")?;
        return Err(unfit(alloc, &list, Unfit::NoState));
    }
    Ok(folder)
}

// Returns whether `table` has the block `id`.
fn has_block(table: &Table, id: &str) -> bool {
    for block in 0..table.len() {
        if table.id(block) == id.as_bytes() {
            return true;
        }
    }
    false
}

// Refuses a block that is named twice, and one that `table` doesn't have.
fn check_named(alloc: Global, table: &Table, named: &[Source]) -> Result<(), Trouble> {
    for (number, source) in named.iter().enumerate() {
        let first = named.iter().position(|other| other.id == source.id);
        if first != Some(number) {
            return Err(word_trouble(alloc, named, number, "an earlier --block has this id"));
        }
        if !has_block(table, &source.id) {
            return Err(unfit(alloc, &source.id, Unfit::NotInState));
        }
    }
    Ok(())
}

// Returns the path and the length of the file of the block `id`: that of the argument, or else that
// in `folder`.
fn file_of(
    alloc: Global,
    named: &[Source],
    folder: &Folder,
    id: &str,
) -> Result<(String, u64), Trouble> {
    for source in named {
        if source.id.as_str() == id {
            return Ok((source.file.clone()?, source.len));
        }
    }
    match folder.find(id).and_then(|number| folder.blocks.get(number)) {
        Some(block) => Ok((block.path.clone()?, block.len)),
        None => Err(unfit(alloc, id, Unfit::NoMemory)),
    }
}

// Returns the source of the block `id`, which has `len` bytes.
fn block_source(
    alloc: Global,
    named: &[Source],
    folder: &Folder,
    since: &Option<Folder>,
    id: &str,
    len: u64,
) -> Result<Source, Trouble> {
    let (file, found) = file_of(alloc, named, folder, id)?;
    if found != len {
        return Err(unfit(alloc, &file, Unfit::StateLen(found, len)));
    }
    let before = before_in(alloc, since, id, &file, len)?;
    Ok(Source {
        id: String::from_str(alloc, id)?,
        file,
        len,
        before,
    })
}

// Returns the sources of all blocks of `table`.
fn block_sources(
    alloc: Global,
    table: &Table,
    named: &[Source],
    folder: &Folder,
    since: &Option<Folder>,
) -> Result<Vec<Source>, Trouble> {
    let mut sources = Vec::new(alloc);
    for block in 0..table.len() {
        let id = str::from_utf8(table.id(block)).unwrap_or("");
        let len = table.pages(block).saturating_mul(table.page_size());
        sources.push(block_source(alloc, named, folder, since, id, len)?)?;
    }
    Ok(sources)
}

// Returns the plan with the state in the folder `path`: the blocks are those of its machine.
fn state_plan<H: AllocGlobal + Files>(
    rt: &H,
    words: &SaveWords<'_>,
    path: &str,
) -> Result<Plan, Trouble> {
    let alloc = rt.alloc();
    let folder = folder_with_state(rt, words, path)?;
    let since = since_of(rt, words)?;
    let named = sources_of(rt, words, &None)?;
    let (state, table) = state_in(rt, path, words.page_size.bytes())?;
    check_named(alloc, &table, &named)?;
    let sources = block_sources(alloc, &table, &named, &folder, &since)?;
    let state = Some(state);
    Ok(Plan {
        table,
        sources,
        state,
    })
}

/// Returns the plan for the arguments.
///
/// # Errors
///
/// `Trouble::Words` for wrong arguments, `Trouble::Unfit` for a file that isn't a block's memory or
/// isn't in the folder of `--since`, and for such a folder of another page size, or whose files
/// aren't those of its list. `Trouble::TooLarge`, and `Trouble::OfFile` if a file can't be opened.
/// With `--state` also those of `state_in`, and `Trouble::Unfit` for a folder without a state, a
/// block that its machine doesn't have, or that has another length there, or no file.
pub(crate) fn plan_of<H: AllocGlobal + Files>(
    rt: &H,
    words: &SaveWords<'_>,
) -> Result<Plan, Trouble> {
    let alloc = rt.alloc();
    check_machine(alloc, words)?;
    if let Some(path) = words.state {
        return state_plan(rt, words, path);
    }
    let since = since_of(rt, words)?;
    let sources = sources_of(rt, words, &since)?;
    let table = table_of(alloc, words.page_size.bytes(), &sources)?;
    let state = None;
    Ok(Plan {
        table,
        sources,
        state,
    })
}
