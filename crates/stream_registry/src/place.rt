//! One thread's handle to one gate. It is generic in the machine, so that the checker sees that it may cross
//! threads.
ghost use Rattle.std.specs.Prelude.{◌≡◌, ◌++◌, [], length, IfOk, IfErr};
ghost use Rattle.turn_gate.specs.Histories.{Begins, longer, AreOwn};
ghost use Rattle.turn_gate.specs.Branches.{trunk, cut_off, offshoot};
ghost use Rattle.turn_gate.specs.Known.{newcomer, RepliedAfter, Failed, SplitOnce};
ghost use Rattle.stream_registry.specs.Roots.{Stays, Remembers, root_with, root_shoot, OwnsAll};

use std::alloc::{AllocError, Global};
use std::marker::Model;
use std::sync::Arc;
use turn_gate::{CallFail, Gate, Machine, Pass};

/// A gate that other threads have too, and a pass of its own: the root. Contracts see the gate, the calls
/// that the root has seen, its place among the passes, and which calls are its own.
#[derive(Drop)]
pub struct Place<T: Machine + Drop> {
    gate: Arc<Gate<T>, Global>,
    root: Pass<T>,
}

impl<T: Machine + Drop> Model for Place<T> {
    ghost use Rattle.std.specs.Prelude.{◌≡◌};
    ghost use Rattle.std.specs.Arc.{arc_value};
    ghost use Rattle.stream_registry.specs.Roots.{Root};

    ghost Value = { Root T.About (T.Call × T.Reply) };

    ghost view = { λ p. record { gate = p.root.gate; seen = p.root.seen; kin = p.root.kin; mine = p.root.mine } };

    ghost invariant = { λ p. p.root.gate ≡ arc_value p.gate };
}

impl<T: Machine + Drop> Place<T> {
    /// Makes a gate with no calls yet.
    pub fn new(alloc: Global, machine: T, about: &T::About) -> Result<Place<T>, AllocError>
        requires { T.stands machine [] × (about.now ≡ T.about machine) }
        ensures { IfOk result (λ p. (p.seen ≡ []) × (p.kin ≡ trunk) × (p.mine ≡ []) × (p.gate.about ≡ about.now)) }
    {
        let (gate, root) = Gate::new(alloc, machine, about)?;
        let Ok(gate) = Arc::new(alloc, gate) else {
            return Err(AllocError);
        };
        Ok(Place { gate, root })
    }

    /// Makes another thread's handle to the same gate.
    pub fn fork(&mut self) -> Result<Place<T>, AllocError>
        ensures fork { IfOk result (λ p. (p ≡ root_shoot self.old (offshoot self.old.kin)) × (self.new.kin ≡ cut_off self.old.kin)) }
        ensures same { self.new ≡ root_with self.old self.new.kin }
    {
        let Ok(gate) = Arc::try_clone(&self.gate) else {
            return Err(AllocError);
        };
        let root = self.gate.split(&mut self.root);
        Ok(Place { gate, root })
    }

    /// Makes a pass that has made no call, and has seen the same calls as the root.
    pub fn attach(&mut self) -> Pass<T>
        ensures new { result ≡ newcomer self.old.gate (offshoot self.old.kin) self.old.seen }
        ensures same { self.new ≡ root_with self.old (cut_off self.old.kin) }
    {
        self.gate.split(&mut self.root)
    }

    /// Takes in a pass. The root has then seen the longer of the two histories seen; both begin it.
    pub fn detach(&mut self, pass: Pass<T>)
        requires { pass.gate ≡ self.old.gate }
        ensures stays { Stays self.old self.new × Begins pass.seen self.new.seen }
        ensures longer { self.new.seen ≡ longer self.old.seen pass.seen }
        ensures kin { self.new.kin ≡ self.old.kin ++ pass.kin }
        ensures mine { self.new.mine ≡ self.old.mine ++ pass.mine }
        ensures own { AreOwn self.old.mine (length self.old.seen) × AreOwn pass.mine (length pass.seen) }
        ensures whole { OwnsAll self.new }
    {
        let _ = self.root.seen();
        let _ = pass.seen();
        self.gate.join(&mut self.root, pass);
    }

    /// Takes in another root. The history that the other had seen is a beginning of the one that this root
    /// has then seen.
    pub fn gather(&mut self, other: Place<T>)
        requires { other.gate ≡ self.old.gate }
        ensures stays { Stays self.old self.new × Begins other.seen self.new.seen }
        ensures longer { self.new.seen ≡ longer self.old.seen other.seen }
        ensures kin { self.new.kin ≡ self.old.kin ++ other.kin }
        ensures mine { self.new.mine ≡ self.old.mine ++ other.mine }
        ensures own { AreOwn self.old.mine (length self.old.seen) × AreOwn other.mine (length other.seen) }
        ensures whole { OwnsAll self.new }
    {
        let Place { gate, root } = other;
        drop(gate);
        let _ = self.root.seen();
        let _ = root.seen();
        self.gate.join(&mut self.root, root);
    }

    /// Tries once. The calls before begin with all calls that the root and the pass had seen.
    pub fn call(&mut self, pass: &mut Pass<T>, call: T::Call) -> Result<T::Reply, CallFail<T::Call>>
        requires { pass.old.gate ≡ self.old.gate }
        ensures port { self.new ≡ root_with self.old self.new.kin }
        ensures kin { SplitOnce self.old.kin pass.old.kin result self.new.kin pass.new.kin }
        ensures pass { Remembers pass.old pass.new }
        ensures reply { IfOk result (λ r. RepliedAfter (T.lawful self.old.gate.about) self.old.seen pass.old (call, r) pass.new) }
        ensures fails { IfErr result (λ e. Failed (T.lawful self.old.gate.about) pass.old call e pass.new) }
    {
        self.gate.call_after(&mut self.root, pass, call)
    }
}
