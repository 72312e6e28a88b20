//! Threads at one gate.
ghost use Rattle.std.specs.Prelude.{◌≡◌, IfOk};

use std::alloc::{AllocError, Global};
use std::sync::Arc;
use std::sync::atomic::{AtomicU64, Ordering};
use std::test::Fail;
use std::thread::Threads;
use std::{hint, thread};
use turn_gate::*;

// The number of tries before a thread gives up.
const TRIES: u64 = 1 << 28;

const NAME: u64 = 77;

type Reply = Option<(u64, u64)>;

/// A list of numbers with a name. A call adds one, and is answered by its place and the last number before
/// it, which for the first is the name.
#[derive(Drop)]
struct Numbers {
    name: u64,
    list: Vec<u64>,
}

impl Numbers {
    fn last(&self) -> u64 {
        match self.list.last() {
            Some(number) => *number,
            None => self.name,
        }
    }
}

impl Machine for Numbers {
    type Call = u64;

    type Reply = Reply;

    type About = ();

    ghost about = { λ _. tt };

    ghost any = { tt };

    ghost stands = { λ _ _. Unit {0} };

    ghost lawful = { λ _ _. Unit {0} };

    fn apply(&mut self, call: u64) -> Reply {
        let place = self.list.len();
        let last = self.last();
        match self.list.push(call) {
            Ok(()) => Some((place as u64, last)),
            Err(_) => None,
        }
    }

    ghost legal = { λ _ _ _. tt };
}

fn new_gate(alloc: Global) -> Result<(Gate<Numbers>, Pass<Numbers>), AllocError>
    ensures { IfOk result (λ r. r.1.gate ≡ r.0) }
{
    let numbers = Numbers {
        name: NAME,
        list: Vec::new(alloc),
    };
    Gate::new(alloc, numbers, &())
}

/// Makes a call again while the gate is busy.
fn add(gate: &Gate<Numbers>, pass: &mut Pass<Numbers>, number: u64) -> Reply
    requires { pass.old.gate ≡ gate.now }
    ensures { pass.new.gate ≡ gate.now }
{
    for _ in 0..TRIES {
        match gate.call(pass, number) {
            Ok(reply) => return reply,
            Err(CallFail::Busy(_)) => hint::spin_loop(),
            Err(CallFail::Worn(_)) => return None,
        }
    }
    None
}

/// Makes one call if there is memory for a gate and for the number.
#[test]
fn a_gate_is_made_where_there_is_memory(rt: HostRuntime) -> Result<(), Fail> {
    match new_gate(rt.alloc()) {
        Ok((gate, mut pass)) => {
            let reply = add(&gate, &mut pass, 5);
            assert!(rt; reply == Some((0, NAME)) || reply.is_none());
            assert_eq!(rt; pass.seen(), 1);
        }
        Err(AllocError) => {}
    }
    Ok(())
}

#[test]
fn a_call_after_the_root_comes_behind_what_it_has_seen(rt: HostRuntime) -> Result<(), Fail> {
    let (gate, mut root) = new_gate(rt.alloc())?;
    let mut pass = gate.split(&mut root);
    assert_eq!(rt; add(&gate, &mut root, 5), Some((0, NAME)));
    assert_eq!(rt; pass.seen(), 0);
    assert_eq!(rt;
        gate.call_after(&mut root, &mut pass, 6).ok(),
        Some(Some((1, 5)))
    );
    assert_eq!(rt; pass.seen(), 2);
    assert_eq!(rt; root.seen(), 1);
    Ok(())
}

fn is_send<X: Send>() {}

fn is_sync<X: Sync>() {}

/// A gate and its passes may cross threads if the machine, its calls and its replies may.
fn cross_threads<T: Machine + Drop + Send>()
where
    T::Call: Send,
    T::Reply: Send,
{
    is_send::<Gate<T>>();
    is_sync::<Gate<T>>();
    is_send::<Pass<T>>();
}

#[test]
fn a_split_pass_has_seen_the_call_in_another_thread(rt: HostRuntime) -> Result<(), Fail> {
    cross_threads::<Numbers>();
    let (gate, mut mine) = new_gate(rt.alloc())?;
    assert_eq!(rt; add(&gate, &mut mine, 7), Some((0, NAME)));
    assert_eq!(rt; mine.seen(), 1);
    let mut theirs = gate.split(&mut mine);
    let (seen, reply) = thread::join(&rt, || (theirs.seen(), add(&gate, &mut theirs, 8)), || ()).0;
    assert_eq!(rt; seen, 1);
    assert_eq!(rt; reply, Some((1, 7)));
    Ok(())
}

/// It answers once another thread says so.
#[derive(Drop)]
struct Slow {
    entered: Arc<AtomicU64, Global>,
    leave: Arc<AtomicU64, Global>,
}

impl Machine for Slow {
    type Call = u64;

    type Reply = u64;

    type About = ();

    ghost about = { λ _. tt };

    ghost any = { tt };

    ghost stands = { λ _ _. Unit {0} };

    ghost lawful = { λ _ _. Unit {0} };

    fn apply(&mut self, call: u64) -> u64 {
        self.entered.store(1, Ordering::SeqCst);
        wait_for(&self.leave);
        call
    }

    ghost legal = { λ _ _ _. tt };
}

/// Gives up after many tries.
fn wait_for(flag: &AtomicU64) {
    for _ in 0..TRIES {
        if flag.load(Ordering::SeqCst) == 1 {
            return;
        }
        hint::spin_loop();
    }
}

fn slow_call(gate: &Gate<Slow>, mut pass: Pass<Slow>) -> (Pass<Slow>, Option<u64>)
    requires { pass.gate ≡ gate.now }
    ensures { result.0.gate ≡ gate.now }
{
    let reply = gate.call(&mut pass, 1).ok();
    (pass, reply)
}

/// Calls while the other thread's call is in progress, and says whether the answer was Busy.
fn call_beside(
    gate: &Gate<Slow>,
    mut pass: Pass<Slow>,
    entered: &AtomicU64,
    leave: &AtomicU64,
) -> (Pass<Slow>, bool)
    requires { pass.gate ≡ gate.now }
    ensures { result.0.gate ≡ gate.now }
{
    wait_for(entered);
    let busy = matches!(gate.call(&mut pass, 2), Err(CallFail::Busy(2)));
    leave.store(1, Ordering::SeqCst);
    (pass, busy)
}

#[test]
fn a_call_is_busy_while_another_is_made_and_not_after(rt: HostRuntime) -> Result<(), Fail> {
    let entered = Arc::new(rt.alloc(), AtomicU64::new(0))?;
    let leave = Arc::new(rt.alloc(), AtomicU64::new(0))?;
    let machine = Slow {
        entered: Arc::try_clone(&entered)?,
        leave: Arc::try_clone(&leave)?,
    };
    let (gate, mut one) = Gate::new(rt.alloc(), machine, &())?;
    let other = gate.split(&mut one);
    let ((one, slow), (mut other, busy)) = thread::join(
        &rt,
        || slow_call(&gate, one),
        || call_beside(&gate, other, &entered, &leave),
    );
    assert_eq!(rt; slow, Some(1));
    assert!(rt; busy);
    assert_eq!(rt; other.seen(), 0);
    assert_eq!(rt; gate.call(&mut other, 3).ok(), Some(3));
    assert_eq!(rt; other.seen(), 2);
    assert_eq!(rt; one.seen(), 1);
    Ok(())
}
