//! The guest of a scenario: it executes the lines in order, and sends each round.

ghost use Rattle.std.specs.Prelude.{◌≡◌, map, replicate, [], All, IsTrue, IfOk, OnOk};
ghost use Rattle.mig_mem.specs.Place.{place_at, IsPlace};
ghost use Rattle.mig_mem.specs.Image.{with_page};
ghost use Rattle.mig_mem.specs.PlaceSet.{with_place};
ghost use Rattle.mig_scenario.specs.Scenario.{is_step_within, is_within};
ghost use Rattle.mig_scenario.specs.Guest.{ScenarioGuest, new_guest, after_step, played};
ghost use Rattle.mig_scenario.specs.declared.line.Step.TheVariants.{Round};
ghost use Rattle.mig_scenario.specs.Playing.{AreSendersOf, HaveSent, AreTexts, AreLike};
ghost use Rattle.mig_scenario.specs.KeptGuest.{AreOneTable, Holds};
ghost use Rattle.mig_scenario.specs.Seen.{seen};

use crate::line::{Line, Step};
use crate::senders::{Senders, Texts};
use mig_mem::{Dirty, Memory, NoMemory, PAGE_SIZE_8K, Place, Table};
use std::alloc::{Allocator, Global};
use std::thread::Threads;

// A guest between two lines.
#[derive(Drop)]
struct Guest<A: Allocator = Global> {
    image: Memory<A>,
    dirty: Dirty<A>,
    senders: Senders<A>,
}

/// The result of a scenario: the guest's memory at the end, and the streams of its rounds.
#[derive(Drop)]
pub struct Played<A: Allocator = Global> {
    pub image: Memory<A>,
    pub texts: Texts<A>,
}

// Returns an array of the largest page's size, filled with `byte`.
fn bytes_of(byte: u8) -> [u8; PAGE_SIZE_8K as usize]
    ensures { result ≡ replicate 8192 byte }
{
    [byte; PAGE_SIZE_8K as usize]
}

// Fills a page with a byte. Zeros take no memory where the page was never written.
fn fill_page<A: Allocator>(image: &mut Memory<A>, place: Place, byte: u8)
    requires { IsPlace image.old.table place }
    ensures { image.new ≡ with_page image.old place (replicate image.old.table.page_size byte) }
{
    if byte == 0 {
        image.put_zero_page(place);
        return;
    }
    let content = bytes_of(byte);
    // its page size is one of the two
    image.table().keeps_limits();
    let size = image.table().page_size() as usize;
    image.put_page(place, &content[..size]);
}

impl<A: Allocator + Copy + Send + Sync> Guest<A> {
    // Creates a guest whose memory is zeros, with no page marked and no round sent.
    fn new(alloc: A, table: &Table<A>, senders: Senders<A>) -> Result<Guest<A>, NoMemory>
        requires table { AreSendersOf table.now senders }
        requires fresh { HaveSent senders [] }
        ensures holds { IfOk result (λ g. Holds g (new_guest table.now)) }
        ensures senders { IfOk result (λ g. g.senders ≡ senders) }
    {
        Ok(Guest {
            image: Memory::zeroed(alloc, table)?,
            dirty: Dirty::none(alloc, table)?,
            senders,
        })
    }

    // Executes a step. After an `Err` a part of it may be done.
    fn take<H: Threads + Sync>(&mut self, rt: &H, step: Step) -> Result<(), NoMemory>
        requires within { IsTrue (is_step_within self.old.image.table step) }
        requires one_table { AreOneTable self.old }
        ensures table { self.new.image.table ≡ self.old.image.table }
        ensures kinds { AreLike self.old.senders self.new.senders }
        ensures ok { OnOk result ((g : ScenarioGuest) → Holds self.old g → Holds self.new (after_step g step)) }
    {
        match step {
            Step::Set(block, offset, byte) => {
                let page = offset / self.image.table().page_size();
                self.image.set(block as usize, offset, byte as u8);
                self.mark(block, page)
            }
            Step::Fill(block, page, byte) => {
                self.fill(block, page, byte as u8);
                self.mark(block, page)
            }
            Step::Touch(block, page) => self.mark(block, page),
            Step::Round => self.send(rt),
        }
    }

    // Marks a page.
    fn mark(&mut self, block: u64, page: u64) -> Result<(), NoMemory>
        requires { IsPlace self.old.dirty.table (place_at block page) }
        ensures { self.new ≡ record self.old { dirty = with_place self.old.dirty (place_at block page) } }
    {
        let block = block as usize;
        self.dirty.mark(Place { block, page })?;
        Ok(())
    }

    // Fills a page with a byte.
    fn fill(&mut self, block: u64, page: u64, byte: u8)
        requires { IsPlace self.old.image.table (place_at block page) }
        ensures { self.new ≡ record self.old { image = with_page self.old.image (place_at block page) (replicate self.old.image.table.page_size byte) } }
    {
        let block = block as usize;
        fill_page(&mut self.image, Place { block, page }, byte);
    }

    // Sends the marked pages, and clears the marks.
    fn send<H: Threads + Sync>(&mut self, rt: &H) -> Result<(), NoMemory>
        requires { AreOneTable self.old }
        ensures image { self.new.image ≡ self.old.image }
        ensures kinds { AreLike self.old.senders self.new.senders }
        ensures ok { OnOk result ((g : ScenarioGuest) → Holds self.old g → Holds self.new (after_step g Round)) }
    {
        self.senders.round(rt, &self.image, &self.dirty)?;
        self.dirty.clear();
        Ok(())
    }
}

/// Executes the lines of a scenario, and sends its rounds.
///
/// # Errors
///
/// `NoMemory`: an allocation was refused.
pub fn play<H: Threads + Sync, A: Allocator + Copy + Send + Sync>(
    rt: &H,
    alloc: A,
    table: &Table<A>,
    lines: &[Line],
    senders: Senders<A>,
) -> Result<Played<A>, NoMemory>
    requires within { All (λ l. IsTrue (is_within table.now l)) (map seen lines.now) }
    requires table { AreSendersOf table.now senders }
    requires fresh { HaveSent senders [] }
    ensures table { IfOk result (λ p. p.image.table ≡ table.now) }
    ensures image { IfOk result (λ p. p.image ≡ (played table.now (map seen lines.now)).image) }
    ensures texts { IfOk result (λ p. AreTexts table.now senders (played table.now (map seen lines.now)).snapshots p.texts) }
{
    let mut guest = Guest::new(alloc, table, senders)?;
    for line in lines {
        if let Line::Step(step) = line {
            guest.take(rt, *step)?;
        }
    }
    let Guest {
        image,
        dirty: _,
        senders,
    } = guest;
    Ok(Played {
        image,
        texts: senders.finish()?,
    })
}
