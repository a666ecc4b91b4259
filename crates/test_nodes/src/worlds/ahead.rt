//! Frames that come before their turn: the node holds their strings, and goes on with them in the move of the one
//! before.
use crate::worlds::common::{IDLE, Run, Sent, Stage, check_run};
use ivy_model::Record;

/// Node 1 loads a word of a page that node 0 then stores to.
const STORED_AFTER: &str = "node 0
set r1 64
set r2 5
store 8 r1 r2
node 1
set r1 64
load 8 r3 r1
print r3
";

/// The request for a copy, and its reply, which is held back. Then the message that is to end the copy.
const THREE_SENT: Stage = ("1*2 0>0 0*3", 3);

/// Then the copy: the load is carried out, and the copy ends.
const COPY_COMES: Stage = ("1>1", 4);

/// The store is carried out, and each call has its reply.
const ENDS: Stage = ("3>0 0 1*2", 4);

/// The answer that the copy was ended.
const ENDED: Sent = (
    3,
    &["495602060100000d 0000000000000002 0000000000000001 00 0000000000000001 00000001"],
);

const STORED: [Record; 1] = [stored!(0, 64, 5)];

const LOADED: [Record; 1] = [loaded!(1, 64, 0)];

const RUN: Run = Run {
    text: STORED_AFTER,
    strings: &[ENDED],
    nodes: &[ended!(0, &STORED, &[]), ended!(1, &LOADED, &[0])],
    ..IDLE
};

/// The message that is to end the copy comes first.
static ONCE: Run<'static> = Run {
    stages: &[THREE_SENT, ("2>1", 3), COPY_COMES, ENDS],
    ..RUN
};

/// The answer is sent in the move in which the copy comes.
#[test]
fn frame_ahead(rt: HostRuntime) {
    check_run(&rt, &ONCE);
}

static THRICE: Run<'static> = Run {
    stages: &[THREE_SENT, ("2>1 2>1 2>1", 3), COPY_COMES, ENDS],
    ..RUN
};

/// One string of a number is held, and the answer is sent once.
#[test]
fn ahead_thrice(rt: HostRuntime) {
    check_run(&rt, &THRICE);
}
