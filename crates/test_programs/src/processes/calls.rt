//! The calls of a node's program are told as they are answered.

use crate::processes::common::{CONFIG, expect_same, mail_of};
use crate::processes::serves::{LIMITS, Stopped, program_of};
use ivy_model::{Call, Record, Reply};
use ivy_process::{CallWatch, Ending, Node, Streams, serve_watched};

/// Two of its loads are out of range, with another call between them.
const REFUSED: &str = "node 0\nset r1 4096\nload 8 r2 r1\nadvance r0\nload 8 r2 r1\nnode 1\n";

/// The calls that were told.
#[derive(Drop)]
struct Told {
    records: Vec<Record>,
}

impl CallWatch for Told {
    fn note(&mut self, record: &Record) {
        // One that is missing is found by the test.
        let _ = self.records.push(*record);
    }
}

#[test]
fn calls_are_told_as_they_are_answered(rt: HostRuntime) {
    let alloc = rt.alloc();
    let program = program_of(&rt, alloc, REFUSED, 0);
    let mut node = Node::start(alloc, &CONFIG, 0, program, LIMITS).expect(&rt, "a node");
    let inbox = mail_of(&rt, alloc, &[]);
    let mut streams = Streams {
        inbox: &inbox,
        log: Vec::<u8>::new(alloc),
        out: Vec::<u8>::new(alloc),
        err: Vec::<u8>::new(alloc),
    };
    let mut told = Told {
        records: Vec::new(alloc),
    };
    let ending = serve_watched(&rt, &Stopped, &mut node, &mut streams, &mut told);
    expect_same(&rt, ending, Ok(Ending::Ended));
    expect_same(&rt, node.refused(), 2);
    let refused = Record {
        node: 0,
        call: Call::Load {
            width: 8,
            addr: 4096,
        },
        reply: Reply::Refused(4),
    };
    let advanced = Record {
        node: 0,
        call: Call::Advance { k: 0 },
        reply: Reply::Done,
    };
    let wanted = [refused, advanced, refused];
    expect_same(&rt, told.records.as_slice(), wanted.as_slice());
}
