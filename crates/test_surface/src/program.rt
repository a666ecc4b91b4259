//! `ivy_program`: the programs of a text, and a machine that runs one.
ghost use Rattle.ivy_program.specs.Programs.{IsWritten};

use crate::common::expect_same;
use ivy_model::{Call, Fault, Reply, Row};
use ivy_program::{Machine, Next, parse};
use std::alloc::Global;
use std::process::Abort;

/// The call that a machine waits for, which is refused then.
#[tactic(auto, using(ivy_program::proofs::running::Placed::written_alone))]
fn refused(rt: &impl Abort, machine: &mut Machine<Global>) -> Call
    requires { IsWritten machine.old.program }
    ensures { IsWritten machine.new.program }
{
    match machine.next().expect(rt, "memory") {
        Next::Call(call) => {
            machine.answer(Reply::Refused(10));
            call
        }
        Next::Local | Next::Ended => panic!(rt; "no call"),
    }
}

#[test]
fn a_machine(rt: HostRuntime) {
    let mut programs = parse(rt.alloc(), "node 0\nfree r0\n").expect(&rt, "a program");
    let program = programs.pop().expect(&rt, "a program");
    let mut machine = Machine::new(program);
    expect_same(&rt, refused(&rt, &mut machine), Call::Free { addr: 0 });
    assert!(rt; machine.ended());
    expect_same(&rt, machine.output().len(), 0);
}

#[test]
fn no_programs(rt: HostRuntime) {
    let refused = parse(rt.alloc(), "node 0\nset r16 1\n").err();
    expect_same(&rt, refused, Some(Fault::ProgramFault(2)));
}

/// Own code makes calls together, and takes their replies.
#[test]
#[tactic(auto, using(ivy_program::proofs::running::Handing::handed_called))]
fn own_code(rt: HostRuntime) {
    let mut machine = Machine::<Global>::open();
    assert!(rt; machine.is_free());
    machine.hand_together(Row::Loads, 64, 2, &[0; 16]);
    assert!(rt; !machine.is_free());
    machine.answer_row(2);
    assert!(rt; machine.is_free());
}
