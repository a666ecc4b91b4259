//! Why a session of own code gives nothing, and what is refused in it.
use crate::sessions::common::{ROOMY, config, meeting, run};
use ivy_calls::load;
use ivy_model::{Fault, Kind};
use ivy_own::{Limits, OpenGate, OwnFault, SharedMemory, Work, run_with};
use std::alloc::Global;
use std::process::Abort;
use std::sync::Wait;
use std::thread::Threads;
use test_support::Failing;

/// Node 1 gives up, while the others wait at a barrier for it.
struct OneGivesUp;

impl Work for OneGivesUp {
    ghost use Rattle.std.specs.Prelude.{◌≡◌, ◌≢◌};
    ghost use Rattle.ivy_model.specs.declared.fault.Fault.TheVariants.{CountFull};

    type Out = ();

    ghost done = { λ _ me _ _. me ≢ 1 };

    ghost gives_up = { λ _ me _ fault. me ≡ 1 → fault ≡ CountFull };

    fn work<M: SharedMemory>(&self, me: u8, memory: &mut M) -> Result<(), Fault> {
        if me == 1 {
            return Err(Fault::CountFull);
        }
        let mut barrier = meeting(3);
        barrier.wait(memory)?;
        Ok(())
    }
}

#[test]
fn one_gives_up(rt: HostRuntime) {
    let fault = run(&rt, rt.alloc(), 3, &OneGivesUp).err();
    assert_eq!(&rt;
        fault,
        Some(OwnFault::GaveUp {
            node: 1,
            fault: Fault::CountFull
        })
    );
}

/// Each node loads the word at an address.
struct Loads {
    addr: u64,
}

impl Work for Loads {
    type Out = u64;

    ghost done = { λ _ _ _ _. Unit {0} };

    fn work<M: SharedMemory>(&self, _me: u8, memory: &mut M) -> Result<u64, Fault> {
        Ok(load(memory, self.addr)?)
    }
}

#[test]
fn a_call_is_refused(rt: HostRuntime) {
    // the heap of four pages of 256 bytes ends at 1,024
    let fault = run(&rt, rt.alloc(), 2, &Loads { addr: 1_024 }).err();
    let Some(OwnFault::GaveUp { fault, .. }) = fault else {
        panic!(&rt; "a node gives up");
    };
    assert_eq!(&rt; fault, Fault::OutOfRange);
}

/// Why the words are not loaded under these limits.
fn fault_under<R: Threads + Wait + Sync + AllocGlobal>(rt: &R, limits: Limits) -> Option<OwnFault> {
    let nodes = config(2, Kind::Fixed);
    run_with(
        rt,
        rt.alloc(),
        nodes,
        &Loads { addr: 256 },
        limits,
        &OpenGate,
    )
    .err()
}

#[test]
fn limits_are_checked(rt: HostRuntime) {
    let refused = Some(OwnFault::Session(Fault::BadConfig));
    assert_eq!(&rt;
        fault_under(
            &rt,
            Limits {
                capacity: 0,
                ..ROOMY
            }
        ),
        refused
    );
    assert_eq!(&rt;
        fault_under(
            &rt,
            Limits {
                capacity: 65_537,
                ..ROOMY
            }
        ),
        refused
    );
    assert_eq!(&rt; fault_under(&rt, Limits { turns: 0, ..ROOMY }), refused);
    assert_eq!(&rt;
        fault_under(
            &rt,
            Limits {
                pulse_every: 0,
                ..ROOMY
            }
        ),
        refused
    );
    assert_eq!(&rt; fault_under(&rt, ROOMY), None);
}

#[test]
fn too_many_nodes(rt: HostRuntime) {
    let refused = Some(OwnFault::Session(Fault::BadConfig));
    assert_eq!(&rt;
        run(&rt, rt.alloc(), 1, &Loads { addr: 256 }).err(),
        refused
    );
    assert_eq!(&rt;
        run(&rt, rt.alloc(), 33, &Loads { addr: 256 }).err(),
        refused
    );
}

/// Node 0 waits for what nobody does.
struct Waits;

impl Work for Waits {
    type Out = ();

    ghost done = { λ _ _ _ _. Unit {0} };

    fn work<M: SharedMemory>(&self, me: u8, memory: &mut M) -> Result<(), Fault> {
        if me == 0 {
            let mut barrier = meeting(3);
            barrier.wait(memory)?;
        }
        Ok(())
    }
}

#[test]
fn turns_are_spent(rt: HostRuntime) {
    let limits = Limits { turns: 50, ..ROOMY };
    let nodes = config(2, Kind::Dynamic);
    let fault = run_with(&rt, rt.alloc(), nodes, &Waits, limits, &OpenGate).err();
    let ended = match fault {
        Some(OwnFault::Session(fault)) => fault == Fault::TurnLimit,
        Some(OwnFault::GaveUp { node, fault }) => node == 0 && fault == Fault::TurnLimit,
        None => false,
    };
    assert!(&rt; ended);
}

/// Whether the session gave up for want of memory, or passed, where the n-th growth is refused.
fn is_met<R: Threads + Wait + Sync + Abort>(rt: &R, memory: &Failing<Global>, n: u64) -> bool {
    memory.refuse(n);
    match run(rt, memory, 2, &Loads { addr: 256 }) {
        Ok(_) => memory.asked(n) < n,
        Err(OwnFault::Session(fault)) | Err(OwnFault::GaveUp { fault, .. }) => {
            fault == Fault::Memory
        }
    }
}

/// How many growths at least such a session takes.
const GROWTHS: u64 = 24;

#[test]
fn each_growth_is_refused(rt: HostRuntime) {
    let memory = Failing::new(rt.alloc());
    for n in 1..=GROWTHS {
        assert!(&rt; is_met(&rt, &memory, n));
    }
    memory.refuse(0);
    assert!(&rt; run(&rt, &memory, 2, &Loads { addr: 256 }).is_ok());
    assert!(&rt; memory.asked(0) >= GROWTHS);
}
