//! A stream or a pool with a journal of its calls.
ghost use Rattle.std.specs.Prelude.{◌≡◌, ◌+◌, ◌<◌, ◌≤◌, ◌^◌, ◌++◌, ◌∷◌, [], length, reverse, IfOk, IfErr};
ghost use Rattle.stream_model.specs.Shape.{shape_reply, shape_held, most_held, AreFewSlots};
ghost use Rattle.stream_registry.specs.Told.{Keeps};
ghost use Rattle.stream_registry.specs.Placed.{Failed, TriedOnce, IsAlone};

use crate::again::entry_again;
use crate::port::PortFail;
use av_unit::OutOfMemory;
use std::alloc::Global;
use std::marker::Model;
use stream_core::{Entry, Reply, Shape, Table};
use stream_law::{takes_alone, takes_alone_at_pools};

/// The number of calls in a full journal.
const FULL: usize = 1 << 62;

/// The machine of a place, and all its calls with their replies.
#[derive(Drop)]
pub(crate) struct Book {
    table: Table,
    journal: Vec<(Entry, Reply)>,
}

impl Model for Book {
    ghost use Rattle.std.specs.Prelude.{◌≡◌, ◌≤◌, ◌^◌, length, reverse};
    ghost use Rattle.stream_core.specs.Table.{known};
    ghost use Rattle.stream_registry.specs.Books.{BookState};

    ghost Value = { BookState };

    ghost view = { λ b. record { limits = (known b.table).shape; journal = b.journal.items } };

    ghost invariant = { λ b. ((known b.table).past ≡ reverse b.journal.items) × (length b.journal.items ≤ 2 ^ 62) };
}

impl Book {
    pub fn new(alloc: Global, limits: Shape) -> Result<Book, OutOfMemory>
        requires { AreFewSlots limits.slots }
        ensures { IfOk result (λ b. b ≡ record { limits = limits; journal = [] }) }
    {
        Ok(Book {
            table: Table::new(alloc, limits)?,
            journal: Vec::new(alloc),
        })
    }

    /// Gives all calls so far, the oldest first.
    pub fn journal(&self) -> &[(Entry, Reply)]
        ensures { result.now ≡ self.now.journal }
    {
        &self.journal
    }

    /// Gives the number of bytes that the stream or the pool holds.
    pub fn held(&self) -> u64
        ensures sum { result ≡ shape_held self.now.limits (reverse self.now.journal) }
        ensures most { result ≤ most_held self.now.limits }
    {
        self.table.held()
    }

    /// The journal keeps the rules and the viewer's law.
    pub fn laws(&self)
        ensures keeps { Keeps self.now.limits self.now.journal }
        ensures room { length self.now.journal ≤ 2 ^ 62 }
    {
        self.table.history_law();
    }

    pub fn call(&mut self, entry: Entry) -> Result<Reply, PortFail>
        ensures reply { IfOk result (λ r. r ≡ shape_reply self.old.limits (reverse self.old.journal) entry) }
        ensures alone { IfOk result (λ r. IsAlone self.old.limits (reverse self.old.journal) entry r) }
        ensures noted { IfOk result (λ r. self.new ≡ record { limits = self.old.limits; journal = self.old.journal ++ (entry, r) ∷ [] }) }
        ensures fails { IfErr result (λ e. Failed entry 0 0 (length self.old.journal) e) }
        ensures once { TriedOnce 0 0 result }
        ensures same { IfErr result (λ _. self.new ≡ self.old) }
    {
        self.laws();
        takes_alone();
        takes_alone_at_pools();
        if self.journal.len() == FULL {
            return Err(PortFail::Worn(entry));
        }
        let Ok(spare) = entry_again(&entry) else {
            return Err(PortFail::OutOfMemory(entry));
        };
        if self.journal.reserve(1).is_err() {
            return Err(PortFail::OutOfMemory(entry));
        }
        match self.table.apply_twice(entry) {
            Ok((reply, kept)) => {
                self.journal.push_reserved((spare, kept));
                Ok(reply)
            }
            Err(OutOfMemory) => Err(PortFail::OutOfMemory(spare)),
        }
    }
}
