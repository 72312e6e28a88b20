ghost use Rattle.std.specs.Prelude.{◌≡◌, [], ◌++◌, ◌∷◌, All, Some, IfSome, IfNone, OnOk, OnErr, true, false};
ghost use Rattle.std.specs.Prelude.{slice_index_or, nat_eq, if◌then◌else◌};
ghost use Rattle.std.specs.Option.{option_copied};
ghost use Rattle.relay_outside.specs.Counts.{next_fails, risen};
ghost use Rattle.relay_outside.specs.Doors.{IsNewDoor, IsDone, with_one};
ghost use Rattle.relay_outside.specs.Houses.{IsNewFile, Refuses, Keeps, asked_door, kept_file, with_shut, shut_door};
ghost use Rattle.relay_outside.specs.MemDoors.{IsNewMemDoor, door_told, house_told, house_called, house_gave, house_named, no_door, bytes_kept, door_of, took_back};

use crate::calls::Calls;
use crate::{House, MemDoor, MemSink, Rest};
use past::Flow;
use std::alloc::{AllocError, Global};
use std::marker::Model;

/// A rest in memory, which returns at once.
#[derive(Drop)]
pub struct MemRest;

impl Rest for MemRest {
    fn pause(&mut self) {}

    fn moved(&mut self) {}

    fn pushed(&mut self, _stream: u32) {}

    fn plays(&mut self, _stream: u32) {}

    fn pushes(&self, _stream: u32) -> u64 {
        0
    }
}

// A file that was kept under a name.
#[derive(Drop)]
struct MemFile {
    title: Vec<u8>,
    bytes: MemSink,
}

impl Model for MemFile {
    ghost use Rattle.relay_outside.specs.MemDoors.{MemFileState};

    ghost Value = { MemFileState };

    ghost view = { λ f. record { name = f.title.items; sink = f.bytes } };
}

// A door that a worker has shut.
#[derive(Drop)]
struct ShutDoor {
    by: u32,
    shut: MemDoor,
}

impl Model for ShutDoor {
    ghost use Rattle.relay_outside.specs.MemDoors.{MemShutState};

    ghost Value = { MemShutState };

    ghost view = { λ s. record { worker = s.by; door = s.shut } };
}

// A door that was given, as only clauses see it. Its address takes no bytes.
#[derive(Drop)]
struct GivenDoor {
    by: u32,
    at: Flow<u8>,
    after: u32,
}

impl Model for GivenDoor {
    ghost use Rattle.relay_outside.specs.Houses.{Asked};

    ghost Value = { Asked };

    ghost view = { λ g. record { worker = g.by; listen = g.at; accept = g.after } };
}

impl GivenDoor {
    fn new(worker: u32, listen: &[u8], accept: u32) -> GivenDoor
        ensures { result ≡ record { worker = worker; listen = listen.now; accept = accept } }
    {
        let mut at = Flow::new();
        at.add_all(listen);
        GivenDoor {
            by: worker,
            at,
            after: accept,
        }
    }
}

// The name under which a file was given, as only clauses see it. It takes no bytes.
#[derive(Drop)]
struct GivenName {
    at: Flow<u8>,
}

impl Model for GivenName {
    ghost use Rattle.std.specs.Prelude.{List, ℕ};

    ghost Value = { List ℕ };

    ghost view = { λ g. g.at };
}

impl GivenName {
    fn new(name: &[u8]) -> GivenName
        ensures { result ≡ name.now }
    {
        let mut at = Flow::new();
        at.add_all(name);
        GivenName { at }
    }
}

/// A house in memory. It tells the files that were kept and the doors that were shut.
///
/// A call that doesn't fail gives as follows. The worker with a number gets the door with that number, or a
/// door without links if there is none or it was given before. A rest is a [`MemRest`]. Each file is a new
/// [`MemSink`].
#[derive(Drop)]
pub struct MemHouse {
    alloc: Global,
    list: Vec<MemDoor>,
    stored: Vec<MemFile>,
    returned: Vec<ShutDoor>,
    spoilt: u64,
    given: Flow<GivenDoor>,
    titled: Flow<GivenName>,
    made: Calls,
}

impl Model for MemHouse {
    ghost use Rattle.std.specs.Prelude.{All};
    ghost use Rattle.relay_outside.specs.MemDoors.{MemHouseState, IsNewMemDoor};

    ghost Value = { MemHouseState };

    ghost view = { λ h. record {
      doors = h.list.items;
      files = h.stored.items;
      gone = h.returned.items;
      spoiled = h.spoilt;
      asked = h.given;
      named = h.titled;
      count = h.made;
    } };

    ghost invariant = { λ h. All IsNewMemDoor h.list.items };
}

impl MemHouse {
    /// Makes a house with these doors, by the numbers of their workers. `fails` has the numbers, from 0, of
    /// the calls of `door`, `rest` and `file` that fail, counted together. The doors are new: they have given
    /// no link, have no link back and no faults, and aren't closed.
    pub fn new(alloc: Global, doors: Vec<MemDoor>, fails: Vec<u64>) -> MemHouse
        requires { All IsNewMemDoor doors.items }
        ensures { result ≡ record {
          doors = doors.items;
          files = [];
          gone = [];
          spoiled = 0;
          asked = [];
          named = [];
          count = record { fails = fails.items; calls = 0; faults = 0 };
        } }
    {
        MemHouse {
            alloc,
            list: doors,
            stored: Vec::new(alloc),
            returned: Vec::new(alloc),
            spoilt: 0,
            given: Flow::new(),
            titled: Flow::new(),
            made: Calls::new(fails),
        }
    }

    /// Returns the bytes of the first file that was kept under this name. `None` exactly if there is none.
    pub fn file_bytes(&self, name: &[u8]) -> Option<&[u8]>
        ensures { option_copied result ≡ bytes_kept self.now.files name.now }
    {
        let file = self.stored.iter().find(|f| f.title.as_slice() == name)?;
        Some(file.bytes.bytes())
    }

    /// Returns the bytes that a link had taken when it was handed back to the first door that the worker
    /// shut: the link at place `link`, from 0. `None` exactly if none was handed back there.
    pub fn link_sent(&self, worker: u32, link: u32) -> Option<&[u8]>
        ensures { option_copied result ≡ took_back self.now.gone worker link }
    {
        match self.door_of(worker) {
            Some(door) => door.link_took(link),
            None => None,
        }
    }

    // Finds the first door that the worker shut.
    fn door_of(&self, worker: u32) -> Option<&MemDoor>
        ensures { option_copied result ≡ door_of self.now.gone worker }
    {
        let shut = self.returned.iter().find(|s| s.by == worker)?;
        Some(&shut.shut)
    }

    fn empty_door(&self) -> MemDoor
        ensures { result ≡ no_door }
    {
        MemDoor::new(self.alloc, Vec::new(self.alloc), Vec::new(self.alloc))
    }
}

impl House for MemHouse {
    type Door = MemDoor;

    type Rest = MemRest;

    type File = MemSink;

    ghost told = { house_told };

    ghost asked = { λ h. Some h.asked };

    ghost named = { λ h. Some h.named };

    fn door(&mut self, worker: u32, listen: &[u8], accept: u32) -> Option<MemDoor>
        ensures new { IfSome result (λ d. IsNewDoor (door_told d) × (house_told self.new ≡ house_told self.old)) }
        ensures none { IfNone result (Refuses (house_told self.old) (house_told self.new)) }
        ensures given { IfSome result (λ d. (next_fails self.old.count ≡ false) × (d ≡ slice_index_or self.old.doors worker no_door)
            × (self.new ≡ house_gave self.old worker listen.now accept)) }
        ensures refused { IfNone result ((next_fails self.old.count ≡ true) × (self.new ≡ house_called self.old)) }
        ensures asked { IfSome result (λ _. Some self.new.asked ≡ with_one (Some self.old.asked) (asked_door worker listen.now accept)) }
        ensures unasked { IfNone result (Some self.new.asked ≡ Some self.old.asked) }
        ensures named { Some self.new.named ≡ Some self.old.named }
    {
        if self.made.fails_next() {
            return None;
        }
        self.given.add(&GivenDoor::new(worker, listen, accept));
        let index = worker as usize;
        let empty = self.empty_door();
        if index < self.list.len() {
            Some(std::mem::replace(&mut self.list[index], empty))
        } else {
            Some(empty)
        }
    }

    fn rest(&mut self, _worker: u32) -> Option<MemRest>
        ensures new { IfSome result (λ _. house_told self.new ≡ house_told self.old) }
        ensures none { IfNone result (Refuses (house_told self.old) (house_told self.new)) }
        ensures given { IfSome result (λ _. (next_fails self.old.count ≡ false) × (self.new ≡ house_called self.old)) }
        ensures refused { IfNone result ((next_fails self.old.count ≡ true) × (self.new ≡ house_called self.old)) }
        ensures asked { Some self.new.asked ≡ Some self.old.asked }
        ensures named { Some self.new.named ≡ Some self.old.named }
    {
        if self.made.fails_next() {
            return None;
        }
        Some(MemRest)
    }

    fn file(&mut self, name: &[u8]) -> Option<MemSink>
        ensures new { IfSome result (λ f. IsNewFile (Some f.bytes) f.count.faults × (house_told self.new ≡ house_told self.old)) }
        ensures none { IfNone result (Refuses (house_told self.old) (house_told self.new)) }
        ensures given { IfSome result (λ f. (next_fails self.old.count ≡ false) × (self.new ≡ house_named self.old name.now)
            × (f ≡ record { bytes = []; count = record { fails = []; calls = 0; faults = 0 } })) }
        ensures refused { IfNone result ((next_fails self.old.count ≡ true) × (self.new ≡ house_called self.old)) }
        ensures asked { Some self.new.asked ≡ Some self.old.asked }
        ensures named { IfSome result (λ _. Some self.new.named ≡ with_one (Some self.old.named) (Some name.now)) }
        ensures unnamed { IfNone result (Some self.new.named ≡ Some self.old.named) }
    {
        if self.made.fails_next() {
            return None;
        }
        self.titled.add(&GivenName::new(name));
        Some(MemSink::new(self.alloc, Vec::new(self.alloc)))
    }

    fn keep(&mut self, name: &[u8], file: MemSink) -> Result<(), AllocError>
        ensures kept { OnOk result (Keeps (house_told self.old) (house_told self.new) file.count.faults
            (kept_file name.now (Some file.bytes) file.count.faults)) }
        ensures refused { OnErr result (house_told self.new ≡ house_told self.old) }
        ensures exact { OnOk result (self.new ≡ record self.old {
          files = self.old.files ++ record { name = name.now; sink = file } ∷ [];
          spoiled = if nat_eq file.count.faults 0 then self.old.spoiled else risen self.old.spoiled;
        }) }
        ensures same { OnErr result (self.new ≡ self.old) }
        ensures asked { Some self.new.asked ≡ Some self.old.asked }
        ensures named { Some self.new.named ≡ Some self.old.named }
    {
        let title = name.to_vec(self.alloc)?;
        let spoils = file.faults() > 0;
        match self.stored.push(MemFile { title, bytes: file }) {
            Ok(()) => {
                if spoils {
                    self.spoilt = self.spoilt.saturating_add(1);
                }
                Ok(())
            }
            Err(_) => Err(AllocError),
        }
    }

    fn shut(&mut self, worker: u32, door: MemDoor) -> Result<(), AllocError>
        requires { IsDone (door_told door) }
        ensures shut { OnOk result (house_told self.new ≡ with_shut (house_told self.old) (shut_door worker (door_told door))) }
        ensures refused { OnErr result (house_told self.new ≡ house_told self.old) }
        ensures exact { OnOk result (self.new ≡ record self.old { gone = self.old.gone ++ record { worker = worker; door = door } ∷ [] }) }
        ensures same { OnErr result (self.new ≡ self.old) }
        ensures asked { Some self.new.asked ≡ Some self.old.asked }
        ensures named { Some self.new.named ≡ Some self.old.named }
    {
        match self.returned.push(ShutDoor {
            by: worker,
            shut: door,
        }) {
            Ok(()) => Ok(()),
            Err(_) => Err(AllocError),
        }
    }
}
