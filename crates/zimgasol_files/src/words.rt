//! The command line, declared for `clap`, and its parsed arguments.

ghost use Rattle.std.specs.Prelude.{◌≡◌, ◌↔◌, ◌≤◌, ◌^◌, None, IsTrue, IfSome};
ghost use Rattle.mig_mem.specs.PageSize.{IsPageSize};
ghost use Rattle.mig_stream.specs.declared.item.Frame.TheVariants.{Machine};
ghost use Rattle.zimgasol_files.specs.Asked.{page_bytes, most_total, ChecksEnding};

use crate::digest::DigestWords;
use crate::shown;
use crate::trouble::{Trouble, wrong};
use clap::builder::ValueParser;
use clap::error::ErrorKind;
use clap::{Arg, ArgAction, ArgMatches, Command, Error};
use mig_mem::{MAX_TOTAL, PAGE_SIZE_4K, PAGE_SIZE_8K};
use mig_stream::Frame;
use std::alloc::{AllocError, Global};

/// The program's version (CHANGELOG.md).
const VERSION: &str = "0.3.0";

/// The most files that are read at once.
const MOST_JOBS: u64 = 256;

/// What follows the options in the help. No line of an example has more than 40 columns.
const EXAMPLES: &str = "\
Exit status: 0 success; 1 refused, or different; 2 wrong arguments; 3 a file can't be read or written.

Examples:
  zimgasol verify guest.sav
  zimgasol extract guest.sav memory
  zimgasol compare a.sav b.sav
  zimgasol help save";

const VERIFY_EXAMPLES: &str = "\
Of several FILEs the exit status is the worst one's: 3 if one can't be read, else 1 if one isn't complete, else 0.

Examples:
  zimgasol verify guest.sav
  zimgasol verify -j 4 *.sav
  zimgasol verify --json *.sav
  zstd -dc g.zst | zimgasol verify -";

const INSPECT_EXAMPLES: &str = "\
Examples:
  zimgasol inspect guest.sav
  zimgasol inspect guest.sav --json";

const EXTRACT_EXAMPLES: &str = "\
Examples:
  zimgasol extract guest.sav memory
  zimgasol extract day.sav restored \\
    --since memory";

const SAVE_EXAMPLES: &str = "\
Examples:
  zimgasol save --state memory guest.sav
  zimgasol save --block ram=ram.bin g.sav
  zimgasol save --block ram=ram.bin \\
    --since memory day.sav";

const COMPARE_EXAMPLES: &str = "\
Examples:
  zimgasol compare a.sav b.sav
  zimgasol compare memory b.sav";

/// The size of the guest's pages.
#[derive(Clone, Copy, Debug, PartialEq, Eq)]
pub enum PageSize {
    Small,
    Large,
}

impl PageSize {
    /// Returns the size in bytes.
    pub fn bytes(self) -> u64
        ensures size { IsPageSize result }
        ensures value { result ≡ page_bytes self }
    {
        match self {
            PageSize::Small => PAGE_SIZE_4K,
            PageSize::Large => PAGE_SIZE_8K,
        }
    }
}

/// What is printed in addition to the result.
#[derive(Clone, Copy)]
pub struct Talk {
    /// Whether the progress is shown on the error output.
    pub progress: bool,
    /// Whether the error output is a terminal.
    pub on_terminal: bool,
    /// Whether the line on success is omitted.
    pub quiet: bool,
}

/// A stream to read.
#[derive(Clone, Copy)]
pub struct StreamWords<'a> {
    /// The file's name; `-` is the standard input.
    pub file: &'a str,
    pub page_size: PageSize,
    pub frame: Frame,
    /// The most bytes of guest memory that its size list may have; at most 2^40 count.
    pub most_memory: u64,
    /// Whether RAM alone is verified, and not what follows it.
    pub ram_only: bool,
    pub talk: Talk,
    /// Whether pages without a record are meant.
    pub partial: bool,
}

impl StreamWords<'_> {
    /// Returns the most bytes of guest memory that the size list may have.
    pub fn limit(&self) -> u64
        ensures bound { result ≤ 2 ^ 40 }
        ensures value { result ≡ most_total self.now }
    {
        if self.most_memory < MAX_TOTAL {
            self.most_memory
        } else {
            MAX_TOTAL
        }
    }

    /// Returns whether the bytes after RAM are checked: those of a machine's stream are.
    pub fn checks_tail(&self) -> bool
        ensures { IsTrue result ↔ ChecksEnding self.now }
    {
        matches!(self.frame, Frame::Machine) && !self.ram_only
    }
}

/// The channels of a main stream; a single stream has none.
#[derive(Drop)]
pub struct ChannelWords<'a> {
    /// The files' names.
    pub files: Vec<&'a str>,
    /// The UUID that each hello has to name.
    pub uuid: Option<&'a str>,
}

/// The arguments of `verify`.
#[derive(Drop)]
pub struct VerifyWords<'a> {
    /// The options, which hold for each file; `file` is the first one.
    pub stream: StreamWords<'a>,
    /// The files' names, in the order of the arguments.
    pub files: Vec<&'a str>,
    pub channels: ChannelWords<'a>,
    /// Whether an object of JSON is printed for each file, in place of lines.
    pub json: bool,
    /// The most files that are read at once; at least 1.
    pub jobs: usize,
}

impl<'a> VerifyWords<'a> {
    /// Returns the stream in `file`, with the options of all files.
    pub fn stream_in(&self, file: &'a str) -> StreamWords<'a>
        ensures { result ≡ record self.now.stream { file = file.entry } }
    {
        StreamWords {
            file,
            page_size: self.stream.page_size,
            frame: self.stream.frame,
            most_memory: self.stream.most_memory,
            ram_only: self.stream.ram_only,
            talk: self.stream.talk,
            partial: self.stream.partial,
        }
    }
}

/// The arguments of `extract`.
#[derive(Clone, Copy)]
pub struct ExtractWords<'a> {
    pub stream: StreamWords<'a>,
    /// The folder that the files are written into.
    pub folder: &'a str,
    /// The one block that is extracted; all blocks if there is none.
    pub block: Option<&'a str>,
    /// The folder that `extract` made, to whose memory the stream's pages are applied.
    pub since: Option<&'a str>,
    /// Whether existing files are replaced.
    pub replace: bool,
    /// The digests of each file in the list.
    pub digest: DigestWords,
    /// Whether a file is synced to its disk before it gets its final name.
    pub durable: bool,
    /// Whether the state beside RAM is kept, if the stream is a machine's and all blocks are
    /// extracted.
    pub state: bool,
}

impl ExtractWords<'_> {
    /// Returns whether the state beside RAM is kept: that of a machine's stream, with the memory of
    /// all its blocks.
    pub fn keeps_state(&self) -> bool
        ensures { IsTrue result → IsTrue self.now.state × (self.now.stream.frame ≡ Machine) × (self.now.block ≡ None) }
    {
        self.state && self.block.is_none() && matches!(self.stream.frame, Frame::Machine)
    }
}

/// How a file that is saved has the memory.
#[derive(Clone, Copy)]
pub enum Layout {
    /// As a stream.
    Stream,
    /// With QEMU's `mapped-ram`: each page has a place of its own in the file.
    MappedRam,
}

/// The arguments of `save`.
#[derive(Drop)]
pub struct SaveWords<'a> {
    /// The arguments `ID=FILE`.
    pub blocks: Vec<&'a str>,
    /// The file that the stream is written into; `-` is the standard output.
    pub file: &'a str,
    pub page_size: PageSize,
    pub frame: Frame,
    /// The machine's name.
    pub machine: Option<&'a str>,
    /// The folder that `extract` made, whose state is written around RAM. Its blocks are saved,
    /// except for those in `blocks`.
    pub state: Option<&'a str>,
    /// The folder that `extract` made, of which the pages that differ are saved.
    pub since: Option<&'a str>,
    pub layout: Layout,
    /// The number of channels on which the pages are sent.
    pub channels: Option<&'a str>,
    /// The UUID of each channel's hello.
    pub uuid: Option<&'a str>,
    /// Whether an existing file is replaced.
    pub replace: bool,
    pub talk: Talk,
}

/// The arguments of `compare`.
#[derive(Clone, Copy)]
pub struct CompareWords<'a> {
    /// Each is a stream, or a folder that `extract` made.
    pub first: StreamWords<'a>,
    pub second: StreamWords<'a>,
}

/// A parsed command line.
#[derive(Drop)]
pub enum Request<'a> {
    Verify(VerifyWords<'a>),
    /// True for JSON, false for lines.
    Inspect(StreamWords<'a>, ChannelWords<'a>, bool),
    Extract(ExtractWords<'a>, ChannelWords<'a>),
    Save(SaveWords<'a>),
    Compare(CompareWords<'a>),
}

// ---- the declaration

fn file_arg<'a>(alloc: Global) -> Arg<'a> {
    Arg::new(alloc, "FILE").required(true).help(
        "File of QEMU's `migrate file:` or of `virsh save`; - is the standard input",
    )
}

fn files_arg<'a>(alloc: Global) -> Arg<'a> {
    file_arg(alloc).num_args(1..).action(ArgAction::Append)
}

fn quiet_flag<'a>(alloc: Global) -> Arg<'a> {
    flag(alloc, "quiet", "Prints nothing on success").short('q')
}

fn progress_flag<'a>(alloc: Global) -> Arg<'a> {
    flag(
        alloc,
        "progress",
        "Shows progress on the error output: a line on a terminal, else one every ten seconds",
    )
    .short('p')
}

fn replace_flag<'a>(alloc: Global) -> Arg<'a> {
    flag(alloc, "replace", "Replaces existing files")
}

fn partial_flag<'a>(alloc: Global) -> Arg<'a> {
    flag(
        alloc,
        "partial",
        "Accepts a stream without some pages: an incremental one, or one with unplugged memory",
    )
}

fn page_option<'a>(alloc: Global) -> Arg<'a> {
    Arg::new(alloc, "page")
        .long("page")
        .value_name("BYTES")
        .value_parser(ValueParser::from(["4096", "8192"].as_slice()))
        .help("Guest page size (most streams don't record it) [default: 4096]")
}

fn frame_option<'a>(alloc: Global) -> Arg<'a> {
    Arg::new(alloc, "frame")
        .long("frame")
        .value_name("FRAME")
        .value_parser(ValueParser::from(["machine", "ram"].as_slice()))
        .help(
            "`ram` refuses all but RAM's sections; `machine` takes these and full machine streams [default: machine]",
        )
}

fn limit_option<'a>(alloc: Global) -> Arg<'a> {
    Arg::new(alloc, "limit")
        .long("limit")
        .value_name("SIZE")
        .help("Refuses a guest with more memory: bytes, or with K, M, G or T behind [default: 1T]")
}

fn ram_only_flag<'a>(alloc: Global) -> Arg<'a> {
    flag(
        alloc,
        "ram-only",
        "Checks RAM alone, not the device state after it",
    )
}

fn flag<'a>(alloc: Global, name: &'a str, help: &'a str) -> Arg<'a> {
    Arg::new(alloc, name)
        .long(name)
        .action(ArgAction::SetTrue)
        .help(help)
}

fn channel_option<'a>(alloc: Global) -> Arg<'a> {
    Arg::new(alloc, "channel")
        .short('c')
        .long("channel")
        .value_name("FILE")
        .action(ArgAction::Append)
        .help("File of a multifd channel; once for each channel")
}

fn uuid_option<'a>(alloc: Global, help: &'a str) -> Arg<'a> {
    Arg::new(alloc, "uuid")
        .long("uuid")
        .value_name("UUID")
        .help(help)
}

// Declares a command, with help for narrow terminals that ends with `examples`.
fn command<'a>(alloc: Global, name: &'a str, about: &'a str, examples: &'a str) -> Command<'a> {
    Command::new(alloc, name)
        .about(about)
        .next_line_help(true)
        .after_help(examples)
}

// Declares a command that reads a stream from `file`.
fn stream_command<'a>(
    alloc: Global,
    name: &'a str,
    about: &'a str,
    examples: &'a str,
    file: Arg<'a>,
) -> Result<Command<'a>, AllocError> {
    command(alloc, name, about, examples)
        .arg(file)?
        .arg(channel_option(alloc))?
        .arg(uuid_option(
            alloc,
            "UUID that each channel has to have [default: that of the first channel]",
        ))?
        .arg(page_option(alloc))?
        .arg(frame_option(alloc))?
        .arg(partial_flag(alloc))?
        .arg(limit_option(alloc))?
        .arg(progress_flag(alloc))
}

fn lines_flag<'a>(alloc: Global) -> Result<Arg<'a>, AllocError> {
    flag(
        alloc,
        "json",
        "Prints one JSON object per FILE, each on a line",
    )
    .conflicts_with("quiet")
}

fn jobs_option<'a>(alloc: Global) -> Result<Arg<'a>, AllocError> {
    Arg::new(alloc, "jobs")
        .short('j')
        .long("jobs")
        .value_name("N")
        .value_parser(ValueParser::Unsigned(1, MOST_JOBS))
        .help("Reads up to N files at once [default: 1]")
        .conflicts_with("progress")
}

fn verify_command<'a>(alloc: Global) -> Result<Command<'a>, AllocError> {
    stream_command(
        alloc,
        "verify",
        "Reports whether each saved guest is complete, or where it has a fault",
        VERIFY_EXAMPLES,
        files_arg(alloc),
    )?
    .arg(ram_only_flag(alloc))?
    .arg(lines_flag(alloc)?)?
    .arg(jobs_option(alloc)?)?
    .arg(quiet_flag(alloc))
}

fn inspect_command<'a>(alloc: Global) -> Result<Command<'a>, AllocError> {
    let about = "Lists what a saved guest has";
    stream_command(alloc, "inspect", about, INSPECT_EXAMPLES, file_arg(alloc))?
        .arg(ram_only_flag(alloc))?
        .arg(flag(alloc, "json", "Prints JSON in place of lines"))
}

fn folder_arg<'a>(alloc: Global) -> Arg<'a> {
    Arg::new(alloc, "DIR")
        .required(true)
        .help("Folder to write to; created if missing")
}

fn one_block_option<'a>(alloc: Global) -> Arg<'a> {
    Arg::new(alloc, "block")
        .short('b')
        .long("block")
        .value_name("ID")
        .help("Extracts only this block")
}

fn since_option<'a>(alloc: Global, help: &'a str) -> Arg<'a> {
    Arg::new(alloc, "since")
        .long("since")
        .value_name("DIR")
        .help(help)
}

// Declares `extract` with its options for streams and folders.
fn extract_places<'a>(alloc: Global) -> Result<Command<'a>, AllocError> {
    stream_command(
        alloc,
        "extract",
        "Writes each RAM block's memory into a file in a folder, with blocks.json and the devices' state",
        EXTRACT_EXAMPLES,
        file_arg(alloc),
    )?
    .arg(folder_arg(alloc))?
    .arg(one_block_option(alloc))?
    .arg(since_option(
        alloc,
        "Applies an incremental stream (from `save --since`) to the memory in this folder",
    ))
}

// Declares the options for digests. Without either no digest is made.
fn digest_flags<'a>(alloc: Global, command: Command<'a>) -> Result<Command<'a>, AllocError> {
    let digest = flag(
        alloc,
        "digest",
        "Adds the SHA-256 of each file to blocks.json (slow: it reads each file again)",
    );
    let fast_digest = flag(
        alloc,
        "fast-digest",
        "Adds the SHA-256 of the SHA-256s of each file's 64 KiB pieces: all processors compute it",
    );
    let no_digest = flag(
        alloc,
        "no-digest",
        "Adds no SHA-256 to blocks.json (the default)",
    );
    command
        .arg(digest.conflicts_with("no-digest")?)?
        .arg(fast_digest.conflicts_with("no-digest")?)?
        .arg(no_digest)
}

fn extract_command<'a>(alloc: Global) -> Result<Command<'a>, AllocError> {
    let command = extract_places(alloc)?
        .arg(replace_flag(alloc))?
        .arg(quiet_flag(alloc))?;
    digest_flags(alloc, command)
}

fn blocks_option<'a>(alloc: Global) -> Result<Arg<'a>, AllocError> {
    Arg::new(alloc, "block")
        .short('b')
        .long("block")
        .value_name("ID=FILE")
        .action(ArgAction::Append)
        .help("Block id, and the file with its memory; once for each block")
        .required_unless_present("state")
}

fn state_option<'a>(alloc: Global) -> Result<Arg<'a>, AllocError> {
    Arg::new(alloc, "state")
        .long("state")
        .value_name("DIR")
        .help(
            "Writes a whole machine, with the state in this folder, which `extract` made. Saves its blocks, except for those of --block",
        )
        .conflicts_with("machine")?
        .conflicts_with("channels")
}

fn channels_option<'a>(alloc: Global) -> Arg<'a> {
    Arg::new(alloc, "channels")
        .long("channels")
        .value_name("N")
        .help("Writes the pages over N multifd channels, into OUT.0, OUT.1 and so on")
}

// Declares `save` with its options for blocks, for `--since` and for channels.
fn save_sources<'a>(alloc: Global) -> Result<Command<'a>, AllocError> {
    let about = "Writes a migration stream from raw block files";
    command(alloc, "save", about, SAVE_EXAMPLES)
        .arg(blocks_option(alloc)?)?
        .arg(state_option(alloc)?)?
        .arg(since_option(
            alloc,
            "Saves only the pages that differ from this folder, which `extract` made",
        ))?
        .arg(channels_option(alloc))?
        .arg(uuid_option(alloc, "UUID in each channel: the guest's [default: zeros]"))
}

fn out_arg<'a>(alloc: Global) -> Arg<'a> {
    Arg::new(alloc, "OUT")
        .required(true)
        .help("File to write the stream to; - is the standard output")
}

fn saved_frame_option<'a>(alloc: Global) -> Arg<'a> {
    Arg::new(alloc, "frame")
        .long("frame")
        .value_name("FRAME")
        .value_parser(ValueParser::from(["ram", "machine"].as_slice()))
        .help(
            "What the stream is: RAM's sections alone, or a machine stream without devices unless --state is given [default: ram, machine with --state]",
        )
}

fn layout_option<'a>(alloc: Global) -> Arg<'a> {
    Arg::new(alloc, "layout")
        .long("layout")
        .value_name("LAYOUT")
        .value_parser(ValueParser::from(["stream", "mapped-ram"].as_slice()))
        .help(
            "`mapped-ram` gives each page a place of its own in the file (QEMU 9.0 and later) [default: stream]",
        )
}

fn machine_option<'a>(alloc: Global) -> Arg<'a> {
    Arg::new(alloc, "machine")
        .long("machine")
        .value_name("NAME")
        .help("Machine type to record (QEMU refuses a mismatch)")
}

// Declares `save` with the options of `save_sources`, and those for the stream.
fn save_stream<'a>(alloc: Global) -> Result<Command<'a>, AllocError> {
    save_sources(alloc)?
        .arg(out_arg(alloc))?
        .arg(page_option(alloc))?
        .arg(saved_frame_option(alloc))?
        .arg(layout_option(alloc))?
        .arg(machine_option(alloc))
}

fn save_command<'a>(alloc: Global) -> Result<Command<'a>, AllocError> {
    save_stream(alloc)?
        .arg(replace_flag(alloc))?
        .arg(quiet_flag(alloc))?
        .arg(progress_flag(alloc))
}

fn compared_arg<'a>(alloc: Global, name: &'a str) -> Arg<'a> {
    Arg::new(alloc, name).required(true).help(
        "File with a stream, - for the standard input, or a folder that `extract` made",
    )
}

fn compare_command<'a>(alloc: Global) -> Result<Command<'a>, AllocError> {
    let about = "Lists the pages in which the memory of two streams or folders differs";
    command(alloc, "compare", about, COMPARE_EXAMPLES)
        .arg(compared_arg(alloc, "A"))?
        .arg(compared_arg(alloc, "B"))?
        .arg(page_option(alloc))?
        .arg(frame_option(alloc))?
        .arg(partial_flag(alloc))?
        .arg(quiet_flag(alloc))?
        .arg(progress_flag(alloc))
}

// Declares the program without its commands.
fn bare_program<'a>(alloc: Global) -> Result<Command<'a>, AllocError> {
    Ok(
        Command::new(alloc, "zimgasol")
            .bin_name("zimgasol")?
            .no_binary_name(true)
            .version(VERSION)
            .about(
                "Verifies and lists guests that QEMU or libvirt saved in a file, extracts their memory, and saves it",
            )
            .next_line_help(true)
            .after_help(EXAMPLES)
            .arg_required_else_help(true)
            .subcommand_required(true),
    )
}

// Declares the program with the commands that only read a stream.
fn reading_program<'a>(alloc: Global) -> Result<Command<'a>, AllocError> {
    bare_program(alloc)?
        .subcommand(verify_command(alloc)?)?
        .subcommand(inspect_command(alloc)?)
}

// Declares the program with all commands but `compare`.
fn copying_program<'a>(alloc: Global) -> Result<Command<'a>, AllocError> {
    reading_program(alloc)?
        .subcommand(extract_command(alloc)?)?
        .subcommand(save_command(alloc)?)
}

fn program<'a>(alloc: Global) -> Result<Command<'a>, AllocError> {
    copying_program(alloc)?.subcommand(compare_command(alloc)?)
}

// ---- the parsed arguments

fn page_size_in<'a>(matches: &ArgMatches<'a>) -> PageSize {
    match matches.get_str("page") {
        Some("8192") => PageSize::Large,
        _ => PageSize::Small,
    }
}

fn frame_in<'a>(matches: &ArgMatches<'a>) -> Frame {
    match matches.get_str("frame") {
        Some("ram") => Frame::Ram,
        _ => Frame::Machine,
    }
}

// Returns the unit of a size, in bytes, and the digits before it.
fn unit_in(word: &str) -> (u64, &str)
    ensures { result.0 ≤ 2 ^ 40 }
{
    for (suffix, unit) in [
        ("K", 1 << 10),
        ("M", 1 << 20),
        ("G", 1 << 30),
        ("T", 1 << 40),
    ] {
        if let Some(digits) = word.strip_suffix(suffix) {
            return (unit, digits);
        }
    }
    (1, word)
}

// Parses a size from 1 byte to 2^40 bytes: decimal digits, and a unit of 2^10, 2^20, 2^30 or 2^40
// bytes. Returns None if it is none.
fn size_word(word: &str) -> Option<u64>
    ensures { IfSome result (λ size. (1 ≤ size) × (size ≤ 2 ^ 40)) }
{
    let (unit, digits) = unit_in(word);
    if digits.starts_with('+') {
        return None;
    }
    let size = digits.parse::<u64>().ok()?.checked_mul(unit)?;
    if size != 0 && size <= MAX_TOTAL {
        Some(size)
    } else {
        None
    }
}

fn most_memory_in(matches: &ArgMatches<'_>) -> u64 {
    match matches.get_str("limit") {
        Some(word) => size_word(word).unwrap_or(MAX_TOTAL),
        None => MAX_TOTAL,
    }
}

fn talk_in(matches: &ArgMatches<'_>, on_terminal: bool) -> Talk {
    Talk {
        progress: matches.get_flag("progress"),
        on_terminal,
        quiet: matches.get_flag("quiet"),
    }
}

// Returns the stream that `argument` names.
fn stream_in<'a>(matches: &ArgMatches<'a>, argument: &str, on_terminal: bool) -> StreamWords<'a> {
    StreamWords {
        file: matches.get_str(argument).unwrap_or("-"),
        page_size: page_size_in(matches),
        frame: frame_in(matches),
        most_memory: most_memory_in(matches),
        ram_only: matches.get_flag("ram-only"),
        talk: talk_in(matches, on_terminal),
        partial: matches.get_flag("partial"),
    }
}

// Returns the channels in the arguments.
fn channels_in<'a>(
    alloc: Global,
    matches: &ArgMatches<'a>,
) -> Result<ChannelWords<'a>, AllocError> {
    Ok(ChannelWords {
        files: matches.get_strs("channel").unwrap_or(&[]).to_vec(alloc)?,
        uuid: matches.get_str("uuid"),
    })
}

fn verify_in<'a>(
    alloc: Global,
    matches: &ArgMatches<'a>,
    on_terminal: bool,
) -> Result<VerifyWords<'a>, AllocError> {
    Ok(VerifyWords {
        stream: stream_in(matches, "FILE", on_terminal),
        files: matches.get_strs("FILE").unwrap_or(&[]).to_vec(alloc)?,
        channels: channels_in(alloc, matches)?,
        json: matches.get_flag("json"),
        jobs: matches.get_one::<u64>("jobs").unwrap_or(1).max(1) as usize,
    })
}

fn digests_in(matches: &ArgMatches<'_>) -> DigestWords {
    DigestWords {
        plain: matches.get_flag("digest"),
        pieces: matches.get_flag("fast-digest"),
    }
}

fn extract_in<'a>(matches: &ArgMatches<'a>, on_terminal: bool) -> ExtractWords<'a> {
    ExtractWords {
        stream: stream_in(matches, "FILE", on_terminal),
        folder: matches.get_str("DIR").unwrap_or("."),
        block: matches.get_str("block"),
        since: matches.get_str("since"),
        replace: matches.get_flag("replace"),
        digest: digests_in(matches),
        durable: true,
        state: true,
    }
}

fn layout_in(matches: &ArgMatches<'_>) -> Layout {
    match matches.get_str("layout") {
        Some("mapped-ram") => Layout::MappedRam,
        _ => Layout::Stream,
    }
}

// Returns the frame of a stream that is saved: a machine's if it has a state, and with mapped-ram,
// which only a machine's configuration can name.
fn saved_frame_in(matches: &ArgMatches<'_>) -> Frame {
    match (matches.get_str("frame"), matches.get_str("state")) {
        (Some("machine"), _) | (None, Some(_)) => Frame::Machine,
        (None, None) if matches!(layout_in(matches), Layout::MappedRam) => Frame::Machine,
        _ => Frame::Ram,
    }
}

fn save_in<'a>(
    alloc: Global,
    matches: &ArgMatches<'a>,
    on_terminal: bool,
) -> Result<SaveWords<'a>, AllocError> {
    let frame = saved_frame_in(matches);
    Ok(SaveWords {
        blocks: matches.get_strs("block").unwrap_or(&[]).to_vec(alloc)?,
        file: matches.get_str("OUT").unwrap_or("-"),
        page_size: page_size_in(matches),
        frame,
        machine: matches.get_str("machine"),
        state: matches.get_str("state"),
        since: matches.get_str("since"),
        layout: layout_in(matches),
        channels: matches.get_str("channels"),
        uuid: matches.get_str("uuid"),
        replace: matches.get_flag("replace"),
        talk: talk_in(matches, on_terminal),
    })
}

fn request_in<'a>(
    alloc: Global,
    name: &str,
    matches: &ArgMatches<'a>,
    on_terminal: bool,
) -> Result<Request<'a>, AllocError> {
    Ok(match name {
        "extract" => Request::Extract(
            extract_in(matches, on_terminal),
            channels_in(alloc, matches)?,
        ),
        "save" => Request::Save(save_in(alloc, matches, on_terminal)?),
        "compare" => Request::Compare(CompareWords {
            first: stream_in(matches, "A", on_terminal),
            second: stream_in(matches, "B", on_terminal),
        }),
        "inspect" => Request::Inspect(
            stream_in(matches, "FILE", on_terminal),
            channels_in(alloc, matches)?,
            matches.get_flag("json"),
        ),
        _ => Request::Verify(verify_in(alloc, matches, on_terminal)?),
    })
}

/// Why the arguments ask for nothing that is done.
#[derive(Drop)]
pub enum Unasked {
    /// An error in the arguments, or the help or the version that they ask for.
    Said(Error),
    /// A value that is wrong, or an allocation that was refused.
    Trouble(Trouble),
}

impl From<Error> for Unasked {
    fn from(error: Error) -> Unasked {
        Unasked::Said(error)
    }
}

impl From<AllocError> for Unasked {
    fn from(error: AllocError) -> Unasked {
        Unasked::Said(Error::from(error))
    }
}

// Refuses a size that is none.
fn check_sizes(alloc: Global, matches: &ArgMatches<'_>) -> Result<(), Unasked> {
    match matches.get_str("limit") {
        Some(word) if size_word(word).is_none() => {
            let why = "isn't a size from 1 to 1T: bytes, or a number with K, M, G or T behind";
            Err(Unasked::Trouble(wrong(alloc, "--limit", word, why)))
        }
        _ => Ok(()),
    }
}

// Parses the arguments. An error has them as they are.
fn parsed<'a>(
    alloc: Global,
    words: &'a [String],
    on_terminal: bool,
) -> Result<Request<'a>, Unasked> {
    let matches = program(alloc)?.try_get_matches_from(words)?;
    match matches.subcommand() {
        Some((name, matches)) => {
            check_sizes(alloc, matches)?;
            Ok(request_in(alloc, name, matches, on_terminal)?)
        }
        None => Err(Unasked::Said(Error::from(AllocError))),
    }
}

// Returns the arguments as printable characters.
fn shown_words(alloc: Global, words: &[String]) -> Result<Vec<String>, AllocError> {
    let mut list = Vec::new(alloc);
    for word in words {
        list.push(shown(alloc, word.as_bytes())?)?;
    }
    Ok(list)
}

// Returns the error in the arguments `words`, with printable characters: that of the printable
// arguments. No option, command or value that the program knows is made by escaping, so they have
// an error, too.
fn shown_error(alloc: Global, words: &[String]) -> Error {
    let list = match shown_words(alloc, words) {
        Ok(list) => list,
        Err(error) => return Error::from(error),
    };
    let again = parsed(alloc, &list, false);
    match again {
        Ok(_request) => Error::from(AllocError),
        Err(unasked) => said_in(unasked),
    }
}

// Returns the error of `unasked`.
fn said_in(unasked: Unasked) -> Error {
    match unasked {
        Unasked::Said(error) => error,
        Unasked::Trouble(_trouble) => Error::from(AllocError),
    }
}

// Returns whether the text of `error` may quote arguments.
fn is_of_words(error: &Error) -> bool {
    error.use_stderr() && error.kind() != ErrorKind::OutOfMemory
}

// Returns `unasked`; an error in the arguments `words` quotes them as printable characters.
fn shown_unasked(alloc: Global, words: &[String], unasked: Unasked) -> Unasked {
    match unasked {
        Unasked::Trouble(trouble) => Unasked::Trouble(trouble),
        Unasked::Said(error) => Unasked::Said(shown_said(alloc, words, error)),
    }
}

// Returns `error`; one in the arguments `words` quotes them as printable characters.
fn shown_said(alloc: Global, words: &[String], error: Error) -> Error {
    if is_of_words(&error) {
        return shown_error(alloc, words);
    }
    error
}

/// Parses the arguments. `on_terminal` is whether the error output is a terminal.
///
/// # Errors
///
/// The output that is printed instead: the error in the arguments, which are quoted as printable
/// characters, or the help or the version that they ask for.
pub fn asked<'a>(
    alloc: Global,
    words: &'a [String],
    on_terminal: bool,
) -> Result<Request<'a>, Unasked> {
    match parsed(alloc, words, on_terminal) {
        Ok(request) => Ok(request),
        Err(unasked) => Err(shown_unasked(alloc, words, unasked)),
    }
}
