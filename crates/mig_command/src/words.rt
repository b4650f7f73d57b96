//! Parses the command line.

ghost use Rattle.std.specs.Prelude.{ℕ, ◌≡◌, ◌<◌, ◌≤◌, ◌^◌, Ok, codes, IsOk, IfOk, IfErr};
ghost use Rattle.clap.specs.Words.{found_of, kind_of, rows_of, with_subcommand};
ghost use Rattle.mig_packet.specs.PageSize.{page_limit};
ghost use Rattle.mig_command.specs.Words.{IsArg, IsCommand, number_rule, file_rule, channels_rule, batch_rule, uuid_rule, limit_rule, feed_rule, page_rule, check_app, send_app, load_app, compare_app, program_app, tool_app};
ghost use Rattle.mig_command.specs.Words.{Gives, GiveLayout, GiveLoad, AskCheck, AskSend, AskLoad, KeepsLimits, SendsIn, LoadsWith, LoadsIn, HasUuid, texts_of};
ghost use Rattle.mig_scenario.specs.Layout.{bytes_in, HasRoom};
ghost use Rattle.mig_scenario.specs.declared.layout.PageSize.{PageSize as Size};
ghost use Rattle.mig_scenario.specs.declared.layout.Layout.{Layout as Asked};

use crate::answer::Answer;
use crate::fault::ToolFault;
use crate::request::{CompareRequest, LoadRequest, Request, SendRequest};
use clap::builder::ValueParser;
use clap::error::ErrorKind;
use clap::{Arg, ArgAction, ArgMatches, Command, Error};
use mig_mem::{MAX_TOTAL, PAGE_SIZE_4K, PAGE_SIZE_8K};
use mig_scenario::{Layout, PageSize, ScenarioFault};
use std::alloc::{AllocError, Global};
use uuid::Uuid;

/// The most bytes of a loaded guest, if the arguments don't set it: 1 GiB.
const DEFAULT_LIMIT: u64 = 1 << 30;

/// The prefix of a UUID's form as a URN, which has to be in lower case, and the length of that
/// form.
const URN_PREFIX: &str = "urn:uuid:";

const URN_LEN: usize = 45;

// ---- the command line as it is declared

// Returns an option with a whole number in a range.
fn number_option<'a>(alloc: Global, name: &'a str, least: u64, most: u64) -> Arg<'a>
    ensures { IsArg (number_rule name.now least most) result }
{
    Arg::new(alloc, name)
        .long(name)
        .value_parser(ValueParser::Unsigned(least, most))
}

// Returns a required argument for a file's name.
fn file_name<'a>(alloc: Global, name: &'a str) -> Arg<'a>
    ensures { IsArg (file_rule name.now) result }
{
    Arg::new(alloc, name).required(true)
}

fn channels_option<'a>(alloc: Global) -> Arg<'a>
    ensures { IsArg channels_rule result }
{
    number_option(alloc, "channels", 0, 255)
}

fn batch_option<'a>(alloc: Global) -> Arg<'a>
    ensures { IsArg batch_rule result }
{
    number_option(alloc, "batch", 1, 128)
}

fn uuid_option<'a>(alloc: Global) -> Arg<'a>
    ensures { IsArg uuid_rule result }
{
    Arg::new(alloc, "uuid").long("uuid")
}

fn page_option<'a>(alloc: Global) -> Arg<'a>
    ensures { IsArg page_rule result }
{
    number_option(alloc, "page", PAGE_SIZE_4K, PAGE_SIZE_8K)
}

fn check_command<'a>(alloc: Global) -> Result<Command<'a>, AllocError>
    ensures { IfOk result (IsCommand check_app) }
{
    Command::new(alloc, "check")
        .arg(channels_option(alloc))?
        .arg(batch_option(alloc))?
        .arg(page_option(alloc))
}

fn send_command<'a>(alloc: Global) -> Result<Command<'a>, AllocError>
    ensures { IfOk result (IsCommand send_app) }
{
    Command::new(alloc, "send")
        .arg(file_name(alloc, "scenario"))?
        .arg(file_name(alloc, "output"))?
        .arg(channels_option(alloc))?
        .arg(batch_option(alloc))?
        .arg(uuid_option(alloc))?
        .arg(page_option(alloc))
}

fn feed_option<'a>(alloc: Global) -> Arg<'a>
    ensures { IsArg feed_rule result }
{
    Arg::new(alloc, "feed")
        .long("feed")
        .action(ArgAction::SetTrue)
}

fn limit_option<'a>(alloc: Global) -> Arg<'a>
    ensures { IsArg limit_rule result }
{
    number_option(alloc, "limit", 1, MAX_TOTAL)
}

fn load_command<'a>(alloc: Global) -> Result<Command<'a>, AllocError>
    ensures { IfOk result (IsCommand load_app) }
{
    Command::new(alloc, "load")
        .arg(file_name(alloc, "main"))?
        .arg(file_name(alloc, "image"))?
        .arg(channels_option(alloc))?
        .arg(uuid_option(alloc))?
        .arg(limit_option(alloc))?
        .arg(feed_option(alloc))?
        .arg(page_option(alloc))
}

fn compare_command<'a>(alloc: Global) -> Result<Command<'a>, AllocError>
    ensures { IfOk result (IsCommand compare_app) }
{
    Command::new(alloc, "compare")
        .arg(file_name(alloc, "scenario"))?
        .arg(file_name(alloc, "image"))?
        .arg(page_option(alloc))
}

// Declares the program with the commands that send.
fn sending_tool<'a>(alloc: Global) -> Result<Command<'a>, AllocError>
    ensures { IfOk result (IsCommand (with_subcommand (with_subcommand program_app check_app.top) send_app.top)) }
{
    Command::new(alloc, "mig_tool")
        .no_binary_name(true)
        .subcommand(check_command(alloc)?)?
        .subcommand(send_command(alloc)?)
}

fn tool_command<'a>(alloc: Global) -> Result<Command<'a>, AllocError>
    ensures { IfOk result (IsCommand tool_app) }
{
    sending_tool(alloc)?
        .subcommand(load_command(alloc)?)?
        .subcommand(compare_command(alloc)?)
}

// ---- the parsed arguments

// Returns the answer if the arguments weren't parsed.
fn unread(error: &Error) -> Answer
    ensures { kind_of error.now ≡ ErrorKind.OutOfMemory → result ≡ Answer.Refused ScenarioFault.NoMemory }
{
    if error.kind() == ErrorKind::OutOfMemory {
        Answer::Refused(ScenarioFault::NoMemory)
    } else {
        Answer::Failed(ToolFault::Words)
    }
}

fn page_size_in<'a>(matches: &ArgMatches<'a>) -> Result<PageSize, ToolFault>
    ensures err { IfErr result (λ fault. fault ≡ ToolFault.Words) }
    ensures given { (size : Size) → Gives (rows_of (found_of matches.now)) (codes "page") 4096 (bytes_in size) → result ≡ Ok size }
{
    let bytes = matches.get_one::<u64>("page").unwrap_or(PAGE_SIZE_4K);
    if bytes == PAGE_SIZE_4K {
        return Ok(PageSize::Small);
    }
    if bytes == PAGE_SIZE_8K {
        return Ok(PageSize::Large);
    }
    Err(ToolFault::Words)
}

fn channels_in<'a>(matches: &ArgMatches<'a>) -> u8
    ensures { (channels : ℕ) → channels ≤ 255 → Gives (rows_of (found_of matches.now)) (codes "channels") 0 channels → result ≡ channels }
{
    matches.get_one::<u8>("channels").unwrap_or(0)
}

fn uuid_in<'a>(matches: &ArgMatches<'a>) -> Result<Uuid, ToolFault>
    ensures ok { IsOk result → HasUuid (found_of matches.now) }
    ensures err { IfErr result (λ fault. fault ≡ ToolFault.Uuid) }
{
    match matches.get_str("uuid") {
        None => Ok(Uuid::nil()),
        Some(text) => match Uuid::parse_str(text) {
            Ok(uuid) if text.len() != URN_LEN || text.starts_with(URN_PREFIX) => Ok(uuid),
            _ => Err(ToolFault::Uuid),
        },
    }
}

// Returns the most pages of a packet: as many as it has room for, if the arguments don't set it.
fn batch_in<'a>(matches: &ArgMatches<'a>, page_size: PageSize) -> Result<usize, ToolFault>
    ensures given { (batch : ℕ) → 0 < batch → batch ≤ page_limit (bytes_in page_size) → Gives (rows_of (found_of matches.now)) (codes "batch") (page_limit (bytes_in page_size)) batch
        → result ≡ Ok batch }
    ensures room { IfOk result (λ batch. (0 < batch) × (batch ≤ page_limit (bytes_in page_size))) }
{
    let room = page_size.pages_of_a_packet();
    let batch = matches.get_one::<usize>("batch").unwrap_or(room);
    if batch == 0 || batch > room {
        return Err(ToolFault::Batch);
    }
    Ok(batch)
}

fn check_in<'a>(matches: &ArgMatches<'a>) -> Result<Layout, ToolFault>
    ensures given { (layout : Asked) → GiveLayout (rows_of (found_of matches.now)) layout → result ≡ Ok layout }
    ensures room { IfOk result HasRoom }
{
    let page_size = page_size_in(matches)?;
    Ok(Layout {
        page_size,
        channels: channels_in(matches),
        batch: batch_in(matches, page_size)?,
    })
}

// Returns the name of a required file.
fn file_in<'a>(matches: &ArgMatches<'a>, name: &str) -> Result<&'a str, ToolFault> {
    matches.get_str(name).ok_or(ToolFault::Words)
}

fn send_in<'a>(matches: &ArgMatches<'a>) -> Result<SendRequest<'a>, ToolFault>
    ensures room { IfOk result (λ request. HasRoom request.layout) }
    ensures given { IfOk result (λ request. (layout : Asked) → GiveLayout (rows_of (found_of matches.now)) layout → request.layout ≡ layout) }
    ensures order { IfErr result (λ fault. fault ≡ ToolFault.Batch → HasUuid (found_of matches.now)) }
{
    let page_size = page_size_in(matches)?;
    let uuid = uuid_in(matches)?;
    Ok(SendRequest {
        scenario: file_in(matches, "scenario")?,
        output: file_in(matches, "output")?,
        layout: Layout {
            page_size,
            channels: channels_in(matches),
            batch: batch_in(matches, page_size)?,
        },
        uuid,
    })
}

// Returns the most bytes of a guest.
fn limit_in<'a>(matches: &ArgMatches<'a>) -> u64
    ensures { (limit : ℕ) → limit ≤ 2 ^ 40 → Gives (rows_of (found_of matches.now)) (codes "limit") (2 ^ 30) limit → result ≡ limit }
{
    matches.get_one::<u64>("limit").unwrap_or(DEFAULT_LIMIT)
}

fn load_in<'a>(matches: &ArgMatches<'a>) -> Result<LoadRequest<'a>, ToolFault>
    ensures most { IfOk result (λ request. request.limit ≤ 2 ^ 40) }
    ensures given { IfOk result (λ request. (page_size : Size) (channels limit : ℕ) → GiveLoad (rows_of (found_of matches.now)) page_size channels limit
        → LoadsWith page_size channels limit request) }
    ensures order { IfErr result (λ fault. fault ≡ ToolFault.Feed → HasUuid (found_of matches.now)) }
{
    let page_size = page_size_in(matches)?;
    let uuid = uuid_in(matches)?;
    let channels = channels_in(matches);
    let is_fed = matches.get_flag("feed");
    if is_fed && channels == 0 {
        return Err(ToolFault::Feed);
    }
    let limit = limit_in(matches);
    if limit > MAX_TOTAL {
        return Err(ToolFault::Words);
    }
    Ok(LoadRequest {
        main: file_in(matches, "main")?,
        image: file_in(matches, "image")?,
        page_size,
        channels,
        uuid,
        limit,
        is_fed,
    })
}

fn compare_in<'a>(matches: &ArgMatches<'a>) -> Result<CompareRequest<'a>, ToolFault> {
    Ok(CompareRequest {
        page_size: page_size_in(matches)?,
        scenario: file_in(matches, "scenario")?,
        image: file_in(matches, "image")?,
    })
}

// Returns the request of a command.
fn request_in<'a>(name: &str, matches: &ArgMatches<'a>) -> Result<Request<'a>, ToolFault>
    ensures check { (layout : Asked) → name.now ≡ codes "check" → GiveLayout (rows_of (found_of matches.now)) layout → result ≡ Ok (Request.Check layout) }
    ensures send { IfOk result (λ request. (layout : Asked) → name.now ≡ codes "send" → GiveLayout (rows_of (found_of matches.now)) layout → SendsIn layout request) }
    ensures load { IfOk result (λ request. (page_size : Size) (channels limit : ℕ) → name.now ≡ codes "load"
        → GiveLoad (rows_of (found_of matches.now)) page_size channels limit → LoadsIn page_size channels limit request) }
    ensures limits { IfOk result KeepsLimits }
{
    match name {
        "check" => match check_in(matches) {
            Ok(layout) => Ok(Request::Check(layout)),
            Err(fault) => Err(fault),
        },
        "send" => match send_in(matches) {
            Ok(request) => Ok(Request::Send(request)),
            Err(fault) => Err(fault),
        },
        "load" => match load_in(matches) {
            Ok(request) => Ok(Request::Load(request)),
            Err(fault) => Err(fault),
        },
        "compare" => match compare_in(matches) {
            Ok(request) => Ok(Request::Compare(request)),
            Err(fault) => Err(fault),
        },
        _ => Err(ToolFault::Words),
    }
}

/// The layout without arguments: a check of a single stream.
pub(crate) const PLAIN_CHECK: Layout = Layout {
    page_size: PageSize::Small,
    channels: 0,
    batch: 128,
};

/// Returns the request of the arguments, or the answer if they aren't a command line of the tool.
pub(crate) fn asked<'a>(alloc: Global, words: &'a [String]) -> Result<Request<'a>, Answer>
    ensures ok { IfOk result (λ request. (layout : Asked) → AskCheck (texts_of words.entry.now) layout → request ≡ Request.Check layout) }
    ensures err { IfErr result (λ answer. (layout : Asked) → AskCheck (texts_of words.entry.now) layout → answer ≡ Answer.Refused ScenarioFault.NoMemory) }
    ensures send { IfOk result (λ request. (layout : Asked) → AskSend (texts_of words.entry.now) layout → SendsIn layout request) }
    ensures load { IfOk result (λ request. (page_size : Size) (channels limit : ℕ) → AskLoad (texts_of words.entry.now) page_size channels limit
        → LoadsIn page_size channels limit request) }
    ensures limits { IfOk result KeepsLimits }
{
    if words.is_empty() {
        return Ok(Request::Check(PLAIN_CHECK));
    }
    let Ok(command) = tool_command(alloc) else {
        return Err(Answer::Refused(ScenarioFault::NoMemory));
    };
    let matches = match command.try_get_matches_from(words) {
        Ok(matches) => matches,
        Err(error) => return Err(unread(&error)),
    };
    let Some((name, matches)) = matches.subcommand() else {
        return Err(Answer::Failed(ToolFault::Words));
    };
    match request_in(name, matches) {
        Ok(request) => Ok(request),
        Err(fault) => Err(Answer::Failed(fault)),
    }
}
