//! Tests of the crates together: programs run by given schedules over a wire that loses, repeats and
//! reorders, and each growth of whole runs refused in turn.
//!
//! That every run is coherent is proved, so these tests hold no property of all runs. They hold what no
//! contract says: the bytes of the worked examples, and that a call can succeed, and go on after a refusal.

/// A call and its reply, in the value of a constant.
macro_rules! answered {
    ($node:expr, $call:expr, $reply:expr) => {
        ivy_model::Record {
            node: $node,
            call: $call,
            reply: $reply,
        }
    };
}

/// A store that is done, in the value of a constant: of 8 bytes, where no width is said.
macro_rules! stored {
    ($node:expr, $addr:expr, $value:expr) => {
        stored!($node, 8, $addr, $value)
    };
    ($node:expr, $width:expr, $addr:expr, $value:expr) => {
        answered!(
            $node,
            ivy_model::Call::Store {
                width: $width,
                addr: $addr,
                value: $value,
            },
            ivy_model::Reply::Done
        )
    };
}

/// A load that is answered a value, in the value of a constant: of 8 bytes, where no width is said.
macro_rules! loaded {
    ($node:expr, $addr:expr, $value:expr) => {
        loaded!($node, 8, $addr, $value)
    };
    ($node:expr, $width:expr, $addr:expr, $value:expr) => {
        answered!(
            $node,
            ivy_model::Call::Load {
                width: $width,
                addr: $addr,
            },
            ivy_model::Reply::Value($value)
        )
    };
}

/// A call that is refused by a number, in the value of a constant.
macro_rules! refused {
    ($node:expr, $call:expr, $fault:expr) => {
        answered!($node, $call, ivy_model::Reply::Refused($fault))
    };
}

/// An advance of count 0, which is done, in the value of a constant.
macro_rules! advanced {
    ($node:expr) => {
        answered!(
            $node,
            ivy_model::Call::Advance { k: 0 },
            ivy_model::Reply::Done
        )
    };
}

/// An await of count 0, which is answered a value, in the value of a constant.
macro_rules! awaited {
    ($node:expr, $least:expr, $value:expr) => {
        answered!(
            $node,
            ivy_model::Call::Await {
                k: 0,
                least: $least,
            },
            ivy_model::Reply::Value($value)
        )
    };
}

/// What a node shows that has ended, in the value of a constant.
macro_rules! ended {
    ($node:expr, $answers:expr, $printed:expr) => {
        crate::worlds::common::Shown {
            node: $node,
            answers: $answers,
            printed: $printed,
            ended: true,
        }
    };
}

mod ahead;
mod blocks;
mod common;
mod counts;
mod drawn_blocks;
mod dynamic;
mod eight_nodes;
mod exchanges;
mod first_load;
mod growths_of_worlds;
mod heap;
mod rounds;
mod schedules;
mod settling;
mod steady;
mod stores;
mod swaps;
mod thirty_two_nodes;
mod wide;
