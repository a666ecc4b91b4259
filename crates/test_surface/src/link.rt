//! `ivy_link`: a node's links to the others.
ghost use Rattle.std.specs.Prelude.{◌≡◌, length};

use crate::common::expect_same;
use crate::wire::ASKS;
use ivy_link::{Link, Verdict};
use ivy_wire::{Bytes, Frame, Parcel};
use std::alloc::Global;
use std::process::Abort;

/// Whether a frame of this verdict is served.
fn is_served(verdict: Verdict) -> bool {
    match verdict {
        Verdict::Next => true,
        Verdict::Repeat | Verdict::Ahead | Verdict::NotMine => false,
    }
}

/// The link of node 1 of two.
fn first_link(rt: &(impl Abort + AllocGlobal)) -> Link<Global>
    ensures { length result.peers ≡ 2 }
{
    Link::new(rt.alloc(), 1, 2).expect(rt, "memory")
}

/// A message is sent, and once more by a pulse.
#[test]
fn sends(rt: HostRuntime) {
    let mut link = first_link(&rt);
    let parcels = [Parcel {
        source: 1,
        dest: 0,
        message: ASKS,
    }];
    expect_same(&rt, link.frames(&parcels).expect(&rt, "memory").len(), 1);
    expect_same(&rt, link.send(&parcels).expect(&rt, "memory").len(), 1);
    expect_same(&rt, link.pulse_frames(0).expect(&rt, "memory").len(), 1);
    expect_same(&rt, link.pulse(0).expect(&rt, "memory").len(), 1);
}

/// A frame of this number from node 0 to node 1.
fn frame(number: u64) -> Frame<()>
    ensures { result.source ≡ 0 }
{
    Frame {
        source: 0,
        dest: 1,
        number,
        ack: 0,
        body: None,
    }
}

/// A frame that came before its turn is held until the one before it was accepted.
#[test]
fn receives(rt: HostRuntime) {
    let mut link = first_link(&rt);
    let string = Bytes::new(rt.alloc(), &[2]).expect(&rt, "memory");
    expect_same(&rt, link.offer(&frame(2)), Verdict::Ahead);
    assert!(rt; link.hold(&frame(2), string).is_none());
    assert!(rt; is_served(link.offer(&frame(1))));
    link.accept(&frame(1));
    assert!(rt; link.take_ready(0).is_some());
}
