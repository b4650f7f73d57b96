//! Packets whose pages others read to their places: a `PageReader` takes the head, then the content
//! of each page as it lies there, and keeps none of it.

ghost use Rattle.std.specs.Prelude.{◌≡◌, ◌≢◌, ◌+◌, ◌<◌, ◌≤◌, ◌^◌, [], length, Some, None, IsTrue, IsSome, IfSome};
ghost use Rattle.std.specs.Option.{IsSomeAnd};
ghost use Rattle.mig_packet.specs.Packet.{normal_count, offset_at, is_sync};
ghost use Rattle.mig_packet.specs.PagingStep.{Moves};
ghost use Rattle.mig_packet.specs.Paging.{GivesOn, HolderTells, Comes};
ghost use Rattle.mig_packet.specs.PacketHead.{IsPacketHead};
ghost use Rattle.mig_packet.specs.NextHead.{IsNextHead};
ghost use Rattle.mig_packet.specs.declared.page_reader.PageContent.TheVariants as page_content;
ghost use Rattle.mig_packet.specs.declared.page_reader.ChannelEvent.TheVariants as event;

use crate::front::head_fault_within;
use crate::head::PacketHead;
use crate::packet::{head_len, next_room, sync_of};
use crate::page_reader::PageReader;
use std::alloc::Allocator;

impl<A: Allocator> PageReader<A> {
    /// Returns `head` as the next item of the channel: the head of a packet, complete and without a
    /// fault, of which no byte was taken. None if it isn't that.
    pub fn next_head<'h>(&self, head: &'h [u8]) -> Option<PacketHead<'h>>
        ensures next { IsSome result → IsNextHead head.now self.now }
        ensures bytes { IfSome result (λ it. it.bytes.now ≡ head.now) }
        ensures page_size { IfSome result (λ it. it.page_size ≡ self.now.given.page_size) }
    {
        if !self.is_next_head(head) {
            return None;
        }
        Some(PacketHead {
            page_size: self.page_size,
            bytes: head,
        })
    }

    // Returns whether `head` is the next item of the channel.
    fn is_next_head(&self, head: &[u8]) -> bool
        ensures next { IsTrue result → IsNextHead head.now self.now }
        ensures head { IsTrue result → IsPacketHead self.now.given.page_size head.now }
    {
        if self.ended || !self.is_reading() || self.pages.is_some() {
            return false;
        }
        if self.hello.is_none() || !self.head.is_empty() || head.len() != head_len(self.page_size) {
            return false;
        }
        head_fault_within(self.page_size, self.room, head).is_none()
    }

    /// Takes the head of the next packet, whose pages follow by `take_page`. It allocates nothing.
    pub fn take_head(&mut self, head: &[u8])
        requires next { IsNextHead head.now self.old }
        requires room { self.old.fed + length head.now < 2 ^ 64 }
        ensures gives { GivesOn head.now event.Head self.old self.new }
        ensures comes { HolderTells self.old (λ given text so_far. Comes given.page_size event.Head so_far) }
        ensures next { self.new ≡ record self.old { packet = Some (head.now, 0); kept = []; page = self.new.page; fed = self.new.fed } }
        ensures fed { self.new.fed ≡ self.old.fed + length head.now }
        ensures ended { self.new.ended ≡ self.old.ended }
    {
        self.move_to_pages(head);
    }

    // Keeps the head of the next packet.
    fn move_to_pages(&mut self, head: &[u8])
        requires next { IsNextHead head.now self.old }
        requires room { self.old.fed + length head.now < 2 ^ 64 }
        ensures moves { Moves event.Head head.now self.old self.new }
        ensures next { self.new ≡ record self.old { packet = Some (head.now, 0); kept = []; page = self.new.page; fed = self.new.fed } }
        ensures fed { self.new.fed ≡ self.old.fed + length head.now }
        ensures ended { self.new.ended ≡ self.old.ended }
    {
        self.head.extend_from_slice(head).unwrap();
        self.fed += head.len() as u64;
        self.pages = Some(0);
        self.page.clear();
        self.has_page = false;
    }

    /// Takes the content of the next page of the packet that was begun, all of it, as the next
    /// bytes of the channel. They aren't looked at and not kept. It allocates nothing.
    pub fn take_page(&mut self, content: &[u8])
        requires begun { IsSomeAnd self.old.packet (λ packet. packet.1 < normal_count packet.0) }
        requires none_kept { self.old.kept ≡ [] }
        requires len { length content.now ≡ self.old.given.page_size }
        requires room { self.old.fed + length content.now < 2 ^ 64 }
        ensures gives { IfSome self.old.packet (λ packet. GivesOn content.now (event.Page (offset_at packet.0 packet.1) (page_content.Lent content.entry)) self.old self.new) }
        ensures comes { IfSome self.old.packet (λ packet. HolderTells self.old (λ given text so_far. Comes given.page_size (event.Page (offset_at packet.0 packet.1) (page_content.Lent content.entry)) so_far)) }
        ensures next { IfSome self.old.packet (λ packet. self.new ≡ record self.old { packet = Some (packet.0, packet.1 + 1); kept = []; page = self.new.page; fed = self.new.fed }) }
        ensures fed { self.new.fed ≡ self.old.fed + length content.now }
        ensures ended { self.new.ended ≡ self.old.ended }
    {
        self.give_page(content);
    }

    // Gives the next page, whose content is `content`.
    fn give_page(&mut self, content: &[u8])
        requires begun { IsSomeAnd self.old.packet (λ packet. packet.1 < normal_count packet.0) }
        requires none_kept { self.old.kept ≡ [] }
        requires len { length content.now ≡ self.old.given.page_size }
        requires room { self.old.fed + length content.now < 2 ^ 64 }
        ensures moves { IfSome self.old.packet (λ packet. Moves (event.Page (offset_at packet.0 packet.1) (page_content.Lent content.entry)) content.now self.old self.new) }
        ensures fed { self.new.fed ≡ self.old.fed + length content.now }
        ensures ended { self.new.ended ≡ self.old.ended }
    {
        let Some(given) = self.pages else {
            unreachable!();
        };
        self.fed += content.len() as u64;
        self.page.clear();
        self.has_page = false;
        self.pages = Some(given + 1);
    }

    /// Ends the packet that was begun, all of whose pages were taken. Returns whether it ends the
    /// round.
    pub fn end_taken(&mut self) -> bool
        requires begun { IsSomeAnd self.old.packet (λ packet. packet.1 ≡ normal_count packet.0) }
        ensures gives { GivesOn [] (event.Packet result) self.old self.new }
        ensures comes { HolderTells self.old (λ given text so_far. Comes given.page_size (event.Packet result) so_far) }
        ensures sync { IfSome self.old.packet (λ packet. result ≡ is_sync packet.0) }
        ensures fed { self.new.fed ≡ self.old.fed }
        ensures ended { self.new.ended ≡ self.old.ended }
    {
        self.move_after()
    }

    // Ends the packet that was begun.
    fn move_after(&mut self) -> bool
        requires begun { IsSomeAnd self.old.packet (λ packet. packet.1 ≡ normal_count packet.0) }
        ensures moves { Moves (event.Packet result) [] self.old self.new }
        ensures sync { IfSome self.old.packet (λ packet. result ≡ is_sync packet.0) }
        ensures fed { self.new.fed ≡ self.old.fed }
        ensures ended { self.new.ended ≡ self.old.ended }
    {
        let sync = sync_of(&self.head);
        self.room = next_room(self.waiting, self.room, &self.head);
        self.has_packets = !sync;
        self.pages = None;
        self.head.clear();
        sync
    }
}
