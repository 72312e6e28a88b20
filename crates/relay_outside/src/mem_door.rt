ghost use Rattle.std.specs.Prelude.{◌≡◌, ◌<◌, ◌^◌, [], ◌++◌, ◌∷◌, All, None, Some, OnOk, OnErr, true, false};
ghost use Rattle.relay_outside.specs.Doors.{Knocks, returned, with_back};
ghost use Rattle.std.specs.Option.{option_copied};
ghost use Rattle.relay_outside.specs.MemDoors.{IsNewMemLink, MemKnocks, door_told, link_took};
ghost use Rattle.relay_outside.specs.MemLinks.{mem_told, MemHears, MemSays};
ghost use Rattle.relay_outside.specs.MemLinkLaws.{mem_hears_mean, mem_says_mean};

use crate::calls::Calls;
use crate::{Door, Heard, Knock, Link, MemLink, News, Said};
use std::alloc::{AllocError, Global};
use std::collections::VecDeque;
use std::marker::Model;

/// A link from a door in memory: a link in memory that keeps all bytes that it took.
#[derive(Drop)]
pub struct DoorLink {
    link: MemLink,
}

impl Model for DoorLink {
    ghost use Rattle.std.specs.Prelude.{◌≡◌, []};
    ghost use Rattle.relay_outside.specs.MemLinks.{MemLinkState};

    ghost Value = { MemLinkState };

    ghost view = { λ l. l.link };

    ghost invariant = { λ l. l.link.handed ≡ [] };
}

impl DoorLink {
    fn new(link: MemLink) -> DoorLink
        requires { IsNewMemLink link }
        ensures { result ≡ link }
    {
        DoorLink { link }
    }

    /// Returns all bytes that it took.
    pub fn took(&self) -> &[u8]
        ensures { result.now ≡ (mem_told self.now).took }
    {
        self.link.sent()
    }

    /// Hands over the lines of the news that it received, and keeps none.
    pub fn take_told(&self) -> Vec<u8> {
        self.link.take_told()
    }
}

impl Link for DoorLink {
    ghost counts = { λ l. l.counts };

    ghost told = { λ l. Some (mem_told l) };

    ghost hears = { MemHears };

    ghost says = { MemSays };

    ghost ready = { λ l answer. answer ≡ true };

    fn is_ready(&self) -> bool {
        true
    }

    fn recv(&mut self, into: &mut [u8]) -> Heard {
        self.link.recv(into)
    }

    fn send(&mut self, piece: &[u8]) -> Said {
        self.link.send(piece)
    }

    fn tell(&self, news: News, app: &[u8], name: &[u8]) {
        self.link.tell(news, app, name);
    }

    ghost hears_mean = { mem_hears_mean };

    ghost says_mean = { mem_says_mean };
}

/// A door in memory. It tells the links that were handed back.
///
/// A call of `next` that doesn't fail gives the next of its links, and answers `Closed` if none is left.
#[derive(Drop)]
pub struct MemDoor {
    queue: VecDeque<MemLink>,
    returned: Vec<DoorLink>,
    number: u64,
    over: bool,
    made: Calls,
}

impl Model for MemDoor {
    ghost use Rattle.std.specs.Prelude.{◌≡◌, [], All, true};
    ghost use Rattle.relay_outside.specs.MemDoors.{MemDoorState, IsNewMemLink};

    ghost Value = { MemDoorState };

    ghost view = { λ d. record {
      ahead = d.queue.items;
      home = d.returned.items;
      given = d.number;
      closed = d.over;
      count = d.made;
    } };

    ghost invariant = { λ d. All IsNewMemLink d.queue.items × (d.over ≡ true → d.queue.items ≡ []) };
}

impl MemDoor {
    /// Makes a door that gives these links in order. `fails` has the numbers, from 0, of the calls of `next`
    /// that fail. The links are new: their counts are 0, and they have given and taken nothing.
    pub fn new(alloc: Global, links: Vec<MemLink>, fails: Vec<u64>) -> MemDoor
        requires { All IsNewMemLink links.items }
        ensures { result ≡ record {
          ahead = links.items;
          home = [];
          given = 0;
          closed = false;
          count = record { fails = fails.items; calls = 0; faults = 0 };
        } }
    {
        MemDoor {
            queue: VecDeque::from_vec(links),
            returned: Vec::new(alloc),
            number: 0,
            over: false,
            made: Calls::new(fails),
        }
    }

    /// Returns the bytes that a link had taken when it was handed back: the link at this place, from 0, among
    /// those that were. `None` exactly if there are fewer.
    pub fn link_took(&self, link: u32) -> Option<&[u8]>
        ensures { option_copied result ≡ link_took self.now.home link }
    {
        let link = self.returned.get(link as usize)?;
        Some(link.took())
    }
}

impl Door for MemDoor {
    type Link = DoorLink;

    ghost told = { door_told };

    fn next(&mut self) -> Knock<DoorLink>
        requires { (door_told self.old).given < 2 ^ 40 }
        ensures knock { Knocks (λ l. Some (mem_told l)) (λ l. l.counts) (door_told self.old) (door_told self.new) result }
        ensures exact { MemKnocks self.old result self.new }
    {
        if self.made.fails_next() {
            return Knock::Failed;
        }
        match self.queue.pop_front() {
            Some(link) => {
                self.number += 1;
                Knock::Link(DoorLink::new(link))
            }
            None => {
                self.over = true;
                Knock::Closed
            }
        }
    }

    fn back(&mut self, link: DoorLink) -> Result<(), AllocError>
        ensures back { OnOk result (door_told self.new ≡ with_back (door_told self.old) (returned (Some (mem_told link)) link.counts)) }
        ensures refused { OnErr result (door_told self.new ≡ door_told self.old) }
        ensures exact { OnOk result (self.new ≡ record self.old { home = self.old.home ++ link ∷ [] }) }
        ensures same { OnErr result (self.new ≡ self.old) }
    {
        match self.returned.push(link) {
            Ok(()) => Ok(()),
            Err(_) => Err(AllocError),
        }
    }
}
