//! A machine behind a turn word. The pass that holds the turn may use the machine.
ghost use Rattle.std.specs.Prelude.{◌≡◌, ◌++◌, [], length, IfOk, IfErr};
ghost use Rattle.turn_gate.specs.Branches.{trunk, cut_off, offshoot, IsWhole};
ghost use Rattle.turn_gate.specs.Histories.{Begins, longer, AreOwn, AreAll};
ghost use Rattle.turn_gate.specs.Known.{newcomer, with_kin, Replied, RepliedAfter, Failed, SplitOnce, Settled, Same};

use crate::machine::Machine;
use crate::pass::Pass;
use crate::rule::{Learn, Newcomer, Noted, Seize, TakesIn, Turns};
use crate::serve::serve;
use crate::view::{Counted, View};
use atomic_table::{Refused, Table};
use std::alloc::{AllocError, Global};
use std::error::Error;
use std::fmt;
use std::marker::Model;

/// Why a call wasn't made. The call comes back.
#[derive(Debug, Drop)]
pub enum CallFail<C> {
    /// Another pass held the turn.
    Busy(C),
    /// The history has 2^62 calls, and takes no further call.
    Worn(C),
}

impl<C> fmt::Display for CallFail<C> {
    fn fmt<W: fmt::Write>(&self, f: &mut fmt::Formatter<W>) -> fmt::Result {
        f.write_str(match self {
            CallFail::Busy(_) => "another call was under way",
            CallFail::Worn(_) => "the history is full",
        })
    }
}

impl<C: fmt::Debug + Drop> Error for CallFail<C> {}

/// A machine that threads share. Each thread calls it through a pass of its own.
#[derive(Drop)]
pub struct Gate<T: Machine> {
    turns: Table<Option<Counted<T>>, View<T::Call, T::Reply, T::About>, T::About, Turns<T>, Global>,
}

// Contracts see the gate's identity.
impl<T: Machine> Model for Gate<T> {
    ghost use Rattle.std.specs.Prelude.{◌≡◌};
    ghost use Rattle.turn_gate.specs.Known.{GateId};

    ghost Value = { GateId T.About };

    ghost view = { λ g. record { table = g.turns.shared.table_id; about = g.turns.shared.key } };

    ghost invariant = { λ g. (g.turns.shared.table_id.words ≡ 1) × (g.turns.shared.table_id.slots ≡ 1) };
}

impl<T: Machine + Drop> Gate<T> {
    /// Makes a gate with no calls yet, and its first pass. `about` is the part of the machine that never
    /// changes. The error means that memory was refused, and drops the machine.
    pub fn new(
        alloc: Global,
        machine: T,
        about: &T::About,
    ) -> Result<(Gate<T>, Pass<T>), AllocError>
        requires { T.stands machine [] × (about.now ≡ T.about machine) }
        ensures first { IfOk result (λ r. r.1 ≡ newcomer r.0 trunk []) }
        ensures about { IfOk result (λ r. r.0.about ≡ about.now) }
    {
        let mut slots = Vec::with_capacity(alloc, 1)?;
        slots.push_reserved(Some(Counted { machine, calls: 0 }));
        match Table::new(alloc, &[0], slots, about) {
            Ok((turns, seat)) => {
                let pass = Pass { seat, calls: 0 };
                Ok((Gate { turns }, pass))
            }
            Err(Refused { slots: _ }) => Err(AllocError),
        }
    }

    /// Tries once to make a call, and never waits. The reply is the machine's after all calls before, which
    /// begin with those that the pass had seen. `Busy` comes only if another pass held the turn, and `Worn`
    /// exactly if the turn was free and the history has 2^62 calls. Both leave the machine as it was.
    pub fn call(&self, pass: &mut Pass<T>, call: T::Call) -> Result<T::Reply, CallFail<T::Call>>
        requires { pass.old.gate ≡ self.now }
        ensures reply { IfOk result (λ r. Replied (T.lawful self.now.about) pass.old (call, r) pass.new) }
        ensures fails { IfErr result (λ e. Failed (T.lawful self.now.about) pass.old call e pass.new) }
        // the turn was found free if `met` stays
        ensures free { pass.new.met ≡ pass.old.met → Settled pass.old call result pass.new }
        // no other pass was split off or taken in
        ensures kin { pass.new.kin ≡ pass.old.kin }
    {
        let turns = &self.turns.shared;
        if turns.swap::<Seize<T>>(&mut pass.seat, 0, 1) != 0 {
            return Err(CallFail::Busy(call));
        }
        serve(turns, &mut pass.seat, &mut pass.calls, call)
    }

    /// Makes a call as `call` does; the calls before it begin also with all calls that the root has seen. The
    /// root is noted once the turn is taken.
    pub fn call_after(
        &self,
        root: &mut Pass<T>,
        pass: &mut Pass<T>,
        call: T::Call,
    ) -> Result<T::Reply, CallFail<T::Call>>
        requires { (root.old.gate ≡ self.now) × (pass.old.gate ≡ self.now) }
        ensures reply { IfOk result (λ r. RepliedAfter (T.lawful self.now.about) root.old.seen pass.old (call, r) pass.new) }
        ensures fails { IfErr result (λ e. Failed (T.lawful self.now.about) pass.old call e pass.new) }
        // the turn was found free if `met` stays
        ensures free { pass.new.met ≡ pass.old.met → Settled pass.old call result pass.new }
        ensures root { root.new ≡ with_kin root.old root.new.kin }
        ensures kin { SplitOnce root.old.kin pass.old.kin result root.new.kin pass.new.kin }
    {
        let turns = &self.turns.shared;
        let found = turns.swap::<Seize<T>>(&mut pass.seat, 0, 1);
        if found != 0 {
            return Err(CallFail::Busy(call));
        }
        let note = turns.split_seat::<Newcomer>(&mut root.seat);
        turns.join_seat::<Noted>(&mut pass.seat, note);
        serve(turns, &mut pass.seat, &mut pass.calls, call)
    }

    /// Makes a new pass, which has seen the same calls as the old one, and has made none.
    pub fn split(&self, pass: &mut Pass<T>) -> Pass<T>
        requires { pass.old.gate ≡ self.now }
        ensures new { result ≡ newcomer self.now (offshoot pass.old.kin) pass.old.seen }
        ensures same { pass.new ≡ with_kin pass.old (cut_off pass.old.kin) }
    {
        let seat = self.turns.shared.split_seat::<Newcomer>(&mut pass.seat);
        Pass {
            seat,
            calls: pass.calls,
        }
    }

    /// Takes the other pass into `into`. `into` has then seen the longer of the two passes' lists of calls; each
    /// list is a beginning of it. It has the own calls of both. The other is taken in whole: nothing of it is
    /// left that could take the turn.
    pub fn join(&self, into: &mut Pass<T>, other: Pass<T>)
        requires { (into.old.gate ≡ self.now) × (other.gate ≡ self.now) }
        ensures same { Same into.old into.new }
        ensures kin { into.new.kin ≡ into.old.kin ++ other.kin }
        ensures seen { into.new.seen ≡ longer into.old.seen other.seen }
        ensures both { Begins into.old.seen into.new.seen × Begins other.seen into.new.seen }
        ensures mine { (into.new.mine ≡ into.old.mine ++ other.mine) × AreOwn into.new.mine (length into.new.seen) }
        // if it has then taken in every other pass of the gate, all calls that it has seen are its own
        ensures whole { IsWhole into.new.kin → AreAll into.new.mine (length into.new.seen) }
    {
        let Pass { seat, calls } = other;
        let turns = &self.turns.shared;
        turns.join_seat::<TakesIn>(&mut into.seat, seat);
        if into.calls < calls {
            into.calls = calls;
        }
        turns.load::<Learn>(&mut into.seat, 0);
    }
}
