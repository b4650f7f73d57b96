//! The rounds of a case: the senders that send them, and the senders' streams.

ghost use Rattle.std.specs.Prelude.{All, IfOk};
ghost use Rattle.mig_send.specs.Batches.{IsBatch};

use mig_cases::{Case, Done, Guest, Trouble, Words, again, put_number};
use mig_mem::{Dirty, Memory};
use mig_send::{Batch, SingleSender, cut, pack};
use mig_stream::StreamWriter;
use std::alloc::Global;
use std::rt::Files;
use std::thread::Threads;

/// A writer and a sender are passed the same rounds; a FLUSH is passed to the writer only.
#[derive(Drop)]
struct Senders {
    writer: Option<StreamWriter>,
    sender: Option<SingleSender>,
}

/// A case with its rounds. The first line that needs senders makes them of the guest's table.
#[derive(Drop)]
pub struct Rounds {
    pub case: Case,
    /// The guest's memory at each round, with its marks.
    pub rounds: Vec<Guest>,
    senders: Option<Senders>,
}

impl Rounds {
    pub fn new(alloc: Global) -> Result<Rounds, Trouble> {
        Ok(Rounds {
            case: Case::new(alloc)?,
            rounds: Vec::new(alloc),
            senders: None,
        })
    }

    /// Takes a line that builds something. Returns false if the line is another one.
    pub fn take<R: Files + Threads + Sync>(
        &mut self,
        rt: &R,
        name: &str,
        words: Words,
    ) -> Result<bool, Trouble> {
        let taken = match name {
            "round" => self.round(),
            "flush" => self.flush(),
            "stream" => self.stream(),
            "sent" => self.sent(),
            "sent_main" => self.sent_main(rt, words),
            "sent_channel" => self.sent_channel(rt, words),
            "pack" => self.pack(words),
            _ => {
                if name == "anew" {
                    self.senders = None;
                    self.rounds.clear();
                }
                return self.case.take(rt, name, words);
            }
        };
        taken?;
        Ok(true)
    }

    fn senders(&mut self) -> Result<&mut Senders, Trouble> {
        if self.senders.is_none() {
            let alloc = self.case.alloc;
            let table = self.case.guest()?.image.table();
            self.senders = Some(Senders {
                writer: Some(StreamWriter::new(alloc, table)?),
                sender: Some(SingleSender::new(alloc, table)?),
            });
        }
        self.senders.as_mut().ok_or(Trouble::Line)
    }

    // `round`: sends the marked pages, and clears the marks
    fn round(&mut self) -> Done {
        let _ = self.senders()?;
        let alloc = self.case.alloc;
        let senders = self.senders.as_mut().ok_or(Trouble::Line)?;
        let guest = self.case.guest()?;
        if let Some(writer) = senders.writer.as_mut() {
            let table = writer.table();
            if !guest.image.table().same(table) || !guest.dirty.table().same(table) {
                return Err(Trouble::Line);
            }
            again!(writer.part(&guest.image, &guest.dirty))?;
        }
        if let Some(sender) = senders.sender.as_mut() {
            if again!(sender.round(&guest.image, &guest.dirty)).is_err() {
                return Err(Trouble::NoMemory);
            }
        }
        self.rounds.push(guest.take_round(alloc)?)?;
        Ok(())
    }

    fn flush(&mut self) -> Done {
        if let Some(writer) = self.senders()?.writer.as_mut() {
            again!(writer.flush_part())?;
        }
        Ok(())
    }

    // `stream`: the writer's stream of the rounds
    fn stream(&mut self) -> Done {
        let writer = self.senders()?.writer.take().ok_or(Trouble::Line)?;
        let text = match writer.finish() {
            Ok(text) => text,
            Err(writer) => writer.finish().ok().ok_or(Trouble::NoMemory)?,
        };
        self.case.texts.push(text)?;
        Ok(())
    }

    // `sent`: the sender's stream of the rounds
    fn sent(&mut self) -> Done {
        let sender = self.senders()?.sender.take().ok_or(Trouble::Line)?;
        let text = match sender.finish() {
            Ok(text) => text,
            Err(sender) => sender.finish().ok().ok_or(Trouble::NoMemory)?,
        };
        self.case.texts.push(text)?;
        Ok(())
    }

    // `pack LIMIT NUMBER`: the packets of the marked pages, in batches of at most LIMIT pages,
    // numbered from NUMBER on
    fn pack(&mut self, mut words: Words) -> Done {
        let limit = words.size()?;
        let number = words.number()?;
        let mut text = Vec::new(self.case.alloc);
        put_packets(&mut text, self.case.guest()?, limit, number)?;
        self.case.texts.push(text)?;
        Ok(())
    }

    /// `batches LIMIT`: the marked pages, cut into batches.
    pub fn batches(&mut self, out: &mut String, mut words: Words) -> Done {
        let limit = words.size()?;
        let alloc = self.case.alloc;
        let guest = self.case.guest()?;
        let batches = batches_of(alloc, &guest.image, &guest.dirty, limit)?;
        put_number(out, batches.len() as u64)?;
        for batch in &batches {
            write!(out, " {}:", batch.block)?;
            put_numbers(out, &batch.pages)?;
        }
        Ok(())
    }
}

// Returns the marked pages, in batches of at most `limit` pages.
fn batches_of(
    alloc: Global,
    memory: &Memory,
    dirty: &Dirty,
    limit: usize,
) -> Result<Vec<Batch>, Trouble>
    ensures { IfOk result (λ v. All (IsBatch memory.now.table) v.items) }
{
    let table = memory.table();
    table.keeps_limits();
    let most = (524_288 / table.page_size()) as usize;
    if limit == 0 || limit > most || !dirty.table().same(table) {
        return Err(Trouble::Line);
    }
    Ok(cut(alloc, table, dirty, limit)?)
}

// Appends the packets of a guest's marked pages, in batches of at most `limit` pages, numbered from
// `first` on.
fn put_packets(text: &mut Vec<u8>, guest: &Guest, limit: usize, first: u64) -> Done {
    let alloc = *text.allocator();
    let mut number = first;
    for batch in &batches_of(alloc, &guest.image, &guest.dirty, limit)? {
        let packed = pack(alloc, &guest.image, batch, number)?;
        if packed.number() != number {
            return Err(Trouble::Line);
        }
        text.extend_from_slice(packed.bytes())?;
        number = number.wrapping_add(1);
    }
    Ok(())
}

// Writes ascending numbers; consecutive ones are a range.
fn put_numbers(out: &mut String, numbers: &[u64]) -> Done {
    let mut before = None;
    let mut is_range = false;
    for number in numbers {
        match before {
            Some(last) if number.checked_sub(1) == Some(last) => is_range = true,
            Some(last) => {
                if is_range {
                    write!(out, "-{last}")?;
                }
                is_range = false;
                write!(out, ",{number}")?;
            }
            None => put_number(out, *number)?,
        }
        before = Some(*number);
    }
    if let (true, Some(last)) = (is_range, before) {
        write!(out, "-{last}")?;
    }
    Ok(())
}
