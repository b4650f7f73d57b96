//! What the words of the program `zimgasol` share: its words, the files and folders that they name,
//! the names of extracted files, and what ends a command before its work is done.
//!
//! | Modules | What they do |
//! |---|---|
//! | `words`, `block_words`, `channel_words` | read the words, by `clap` |
//! | `trouble` | what went wrong beside a fault of a stream |
//! | `input`, `pieces`, `opened` | read a file or the standard input in pieces |
//! | `pages` | reads a file and an older one side by side, for the pages that differ |
//! | `target`, `block_file`, `folder` | write files under temporary names, and list a folder |
//! | `digest` | the digests that a file gets |
//! | `watch` | prints how much was read |
//! | `naming`, `showing` | names of files, and printable forms of ids and names |
//!
//! The name of the file that a block is extracted into stays within its folder, and differs from
//! the names of other blocks' files. Ids and names are printed as printable ASCII, so they can't
//! control a terminal.
//!
//! Definitions: `Shown`, `Naming`; `Differing`, of the pages that differ; `ReadOn`, of a file and an
//! older one that are read in pieces; `Asked`, of what words ask of the reading of a stream
//! (`specs/`).
#![tactic(auto)]

mod block_file;
mod block_words;
mod channel_words;
mod digest;
mod folder;
mod input;
mod naming;
mod opened;
mod pages;
mod pieces;
mod showing;
mod target;
mod trouble;
mod watch;
mod words;

pub use block_file::{
    BlockFile, BlockNames, block_value, complete_file, names_in, write_at, write_text,
};
pub use block_words::{BlockWord, block_word};
pub use channel_words::{count_word, uuid_word, wanted_uuid};
pub use digest::{DigestWords, Digests};
pub use folder::{Folder, FolderBlock, LIST_NAME, read_folder};
pub use input::{piece_buffer, read_piece};
pub use naming::{
    AFTER_NAME, BEFORE_NAME, LIBVIRT_NAME, STATE_NAME, file_name, names_are_distinct,
    names_are_plain, path_in, state_path,
};
pub use opened::{Opened, open, unfit};
pub use pages::{PIECE_PAGES, Pages, Reading};
pub use pieces::Pieces;
pub use showing::{id_text, shown, shown_name};
pub use target::{Outlet, PARTIAL, create, is_free, remove_old, rename, sync, unwritten};
pub use trouble::{Packed, Trouble, Unfit, wrong};
pub use watch::Watch;
pub use words::{
    ChannelWords, CompareWords, ExtractWords, Layout, PageSize, Request, SaveWords, StreamWords,
    Talk, Unasked, VerifyWords, asked,
};
