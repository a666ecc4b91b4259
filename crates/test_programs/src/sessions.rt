//! Tests of sessions: programs run in threads, with their outputs and histories worked out by hand.
//!
//! That a finished session is coherent is proved, so these tests hold no property of all sessions. They hold what no
//! contract says: that a session ends, that its workers run at once, that it stops where it has to, and that its event
//! lists lead a world to the same end.

/// A record of a node, in the value of a constant.
macro_rules! record {
    ($node:expr, $call:expr, $reply:expr) => {
        ivy_model::Record {
            node: $node,
            call: $call,
            reply: $reply,
        }
    };
}

/// A store to an address, which is done, in the value of a constant.
macro_rules! stored {
    ($node:expr, $addr:expr, $value:expr) => {
        record!(
            $node,
            ivy_model::Call::Store {
                width: 8,
                addr: $addr,
                value: $value,
            },
            ivy_model::Reply::Done
        )
    };
}

/// A load from an address, which is answered a value, in the value of a constant.
macro_rules! loaded {
    ($node:expr, $addr:expr, $value:expr) => {
        record!(
            $node,
            ivy_model::Call::Load {
                width: 8,
                addr: $addr,
            },
            ivy_model::Reply::Value($value)
        )
    };
}

/// A read of count 0, in the value of a constant.
macro_rules! counted {
    ($node:expr, $value:expr) => {
        record!(
            $node,
            ivy_model::Call::Count { k: 0 },
            ivy_model::Reply::Value($value)
        )
    };
}

/// An advance of count 0, which is done, in the value of a constant.
macro_rules! advanced {
    ($node:expr) => {
        record!(
            $node,
            ivy_model::Call::Advance { k: 0 },
            ivy_model::Reply::Done
        )
    };
}

/// An await of count 0, which is answered its least value, in the value of a constant.
macro_rules! awaited {
    ($node:expr, $least:expr) => {
        record!(
            $node,
            ivy_model::Call::Await {
                k: 0,
                least: $least,
            },
            ivy_model::Reply::Value($least)
        )
    };
}

mod common;
mod ends;
mod gates;
mod growths_of_sessions;
mod keeping;
mod pulses;
mod replays;
mod rows;
mod wide;
mod wire_turns;
