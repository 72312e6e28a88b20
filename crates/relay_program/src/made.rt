//! The stream or pool that the lines of a drill have made so far.
ghost use Rattle.std.specs.Prelude.{◌≡◌, ◌<◌, ◌≤◌, ◌^◌, length, Some, is_some, MatchResult, IfOk};
ghost use Rattle.stream_model.specs.Shape.{shape_reply, shape_held, stream_shape, new_table, table_answered};
ghost use Rattle.stream_core.specs.Table.{known};
ghost use Rattle.relay_program.specs.Drill.{State, defaults, fresh, done, limits_of, table_of, with_table, may_call};
ghost use Rattle.relay_program.specs.Drill.{ring_does, pool_does, call_does, held_does, does};
ghost use Rattle.relay_program.specs.Parts.{ActFails, HasFewSlots};

use av_unit::{Bytes, OutOfMemory};
use relay_script::{DrillLine, LineFail, held_text, reply_text};
use std::alloc::Global;
use std::marker::Model;
use stream_core::{Call, Entry, Reply, Shape, StreamLimits, Table};

// The limits of which a script says none.
fn default_limits() -> StreamLimits
    ensures { result ≡ defaults }
{
    StreamLimits {
        bytes: 33554432,
        items: 16384,
        players: 256,
    }
}

/// The state of a script so far: its limits, and its stream or its pool.
#[derive(Drop)]
pub(crate) struct Made {
    limits: Option<StreamLimits>,
    // None until a line asks for one.
    table: Option<Table>,
}

impl Model for Made {
    ghost use Rattle.std.specs.Option.{option_map};
    ghost use Rattle.stream_core.specs.Table.{known};
    ghost use Rattle.relay_program.specs.Drill.{State};

    ghost Value = { State };

    ghost view = { λ m. record { limits = m.limits; table = option_map known m.table } };
}

impl Made {
    pub fn new() -> Made
        ensures { result ≡ fresh }
    {
        Made {
            limits: None,
            table: None,
        }
    }

    // The limits of its stream, or of each slot of its pool.
    fn limits(&self) -> StreamLimits
        ensures { result ≡ limits_of self.now }
    {
        match self.limits {
            Some(limits) => limits,
            None => default_limits(),
        }
    }

    // A stream, which has had no call.
    fn new_stream(&self, alloc: Global) -> Result<Table, OutOfMemory>
        ensures { IfOk result (λ table. known table ≡ new_table (stream_shape (limits_of self.now))) }
    {
        let shape = Shape {
            limits: self.limits(),
            slots: None,
        };
        Table::new(alloc, shape)
    }

    // Takes the limits, which are said before all else.
    fn take_limits(&mut self, alloc: Global, limits: StreamLimits) -> Result<Bytes, LineFail>
        ensures { MatchResult result (λ text. ring_does limits self.old ≡ Some (done self.new text)) (λ fail. ActFails fail (ring_does limits self.old)) }
    {
        if self.limits.is_some() || self.table.is_some() {
            return Err(LineFail::Outside);
        }
        self.limits = Some(limits);
        Ok(Bytes::new(alloc))
    }

    // Makes a pool of `slots` slots, before any call.
    fn take_slots(&mut self, alloc: Global, slots: u32) -> Result<Bytes, LineFail>
        requires { slots ≤ 64 }
        ensures { MatchResult result (λ text. pool_does slots self.old ≡ Some (done self.new text)) (λ fail. ActFails fail (pool_does slots self.old)) }
    {
        if self.table.is_some() {
            return Err(LineFail::Outside);
        }
        let shape = Shape {
            limits: self.limits(),
            slots: Some(slots),
        };
        self.table = Some(Table::new(alloc, shape)?);
        Ok(Bytes::new(alloc))
    }

    fn is_pool(&self) -> bool
        ensures { result ≡ is_some (table_of self.now).shape.slots }
    {
        matches!(self.table, Some(Table::Pool(_)))
    }

    // Whether the call may stand there: with a name at a pool, and without one at a stream.
    fn may_call(&self, call: &Call) -> bool
        ensures { result ≡ may_call self.now call.now }
    {
        match call {
            Call::Begin | Call::Join => !self.is_pool(),
            Call::BeginAs(_) | Call::JoinAs(_) => self.is_pool(),
            _ => true,
        }
    }

    // Makes the call at the pool or the stream, which there is from then on.
    fn reply(&mut self, alloc: Global, entry: Entry) -> Result<Reply, OutOfMemory>
        requires { length (table_of self.old).past < 2 ^ 62 }
        ensures reply { IfOk result (λ r. r ≡ shape_reply (table_of self.old).shape (table_of self.old).past entry) }
        ensures made { IfOk result (λ r. self.new ≡ with_table self.old (table_answered (table_of self.old) entry r)) }
    {
        match &mut self.table {
            Some(table) => table.apply(entry),
            None => {
                let mut table = self.new_stream(alloc)?;
                let reply = table.apply(entry)?;
                self.table = Some(table);
                Ok(reply)
            }
        }
    }

    // The number of bytes that the pool or the stream holds, which there is from then on.
    fn held(&mut self, alloc: Global) -> Result<u64, OutOfMemory>
        ensures held { IfOk result (λ n. n ≡ shape_held (table_of self.old).shape (table_of self.old).past) }
        ensures made { IfOk result (λ _. self.new ≡ with_table self.old (table_of self.old)) }
    {
        match &self.table {
            Some(table) => Ok(table.held()),
            None => {
                let table = self.new_stream(alloc)?;
                let bytes = table.held();
                self.table = Some(table);
                Ok(bytes)
            }
        }
    }

    // Returns the line of the bytes that are held.
    fn tell_held(&mut self, alloc: Global) -> Result<Bytes, LineFail>
        ensures { MatchResult result (λ text. held_does self.old ≡ done self.new text) (λ fail. fail ≡ LineFail.OutOfMemory) }
    {
        let bytes = self.held(alloc)?;
        let mut text = Bytes::new(alloc);
        held_text(alloc, bytes, &mut text)?;
        Ok(text)
    }

    // Makes the call, and gives the line of its reply.
    fn call(&mut self, alloc: Global, entry: Entry) -> Result<Bytes, LineFail>
        requires { length (table_of self.old).past < 2 ^ 62 }
        ensures { MatchResult result (λ text. call_does self.old entry ≡ Some (done self.new text)) (λ fail. ActFails fail (call_does self.old entry)) }
    {
        if !self.may_call(&entry.call) {
            return Err(LineFail::Outside);
        }
        let reply = self.reply(alloc, entry)?;
        let mut text = Bytes::new(alloc);
        reply_text(alloc, &reply, &mut text)?;
        Ok(text)
    }

    /// Does the action of the line, and returns the text that it prints. `Outside` comes exactly if the
    /// line may not stand there.
    pub fn act(&mut self, alloc: Global, line: DrillLine) -> Result<Bytes, LineFail>
        requires room { length (table_of self.old).past < 2 ^ 62 }
        requires slots { HasFewSlots line }
        ensures { MatchResult result (λ text. does line self.old ≡ Some (done self.new text)) (λ fail. ActFails fail (does line self.old)) }
    {
        match line {
            DrillLine::Nothing => Ok(Bytes::new(alloc)),
            DrillLine::Ring(limits) => self.take_limits(alloc, limits),
            DrillLine::Pool(slots) => self.take_slots(alloc, slots),
            DrillLine::Step(entry) => self.call(alloc, entry),
            DrillLine::Held => self.tell_held(alloc),
        }
    }
}
