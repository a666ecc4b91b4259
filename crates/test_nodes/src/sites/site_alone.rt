//! One node that is handed strings, well spelled, forged and broken.
ghost use Rattle.std.specs.Prelude.{◌<◌};

use crate::common::{ALLOC_ASKS, ALLOC_GETS, PAIR, REPLY, REQUEST, TRIO, string};
use crate::sites::common::LOADS;
use crate::sites::steps::{Step, play, play_owner};
use ivy_model::Fault;
use ivy_site::{Turn, Verdict};
use ivy_wire::FrameKind;
use std::alloc::Allocator;
use std::process::Abort;

/// Strings that come to node 0, and what it sends for them.
const REFUSED: [Step; 6] = [
    Step::Refuses(REFUSED_STRINGS),
    Step::Comes("", Err(Fault::ShortFrame)),
    Step::Comes(REQUEST, Ok(Verdict::Next)),
    Step::Comes(REQUEST, Ok(Verdict::Repeat)),
    Step::SendsKind(FrameKind::ReadRep, 0, 1),
    Step::Silent,
];

const REFUSED_STRINGS: &str = "\
ShortFrame: 495602010100000d 0000000000000001 0000000000000000 01 0000000000000001 000000
BadBody: 495602010100000d 0000000000000001 0000000000000000 01 0000000000000001 0000000100
BadMagic: 485602010100000d 0000000000000001 0000000000000000 01 0000000000000001 00000001
BadVersion: 495601010100000d 0000000000000001 0000000000000000 01 0000000000000001 00000001
BadKind: 4956020b0100000d 0000000000000001 0000000000000000 01 0000000000000001 00000001
BadNode: 495602010200000d 0000000000000001 0000000000000000 01 0000000000000001 00000001
BadNode: 495602010000000d 0000000000000001 0000000000000000 01 0000000000000001 00000001
BadBody: 495602010100000d 0000000000000001 0000000000000000 01 0000000000000001 00000002
BadBody: 495602010100000d 0000000000000001 0000000000000000 02 0000000000000001 00000001
";

#[test]
fn refused_strings(rt: HostRuntime) {
    play_owner(&rt, rt.alloc(), &PAIR, &REFUSED);
}

const LATER_REQUEST: &str =
    "495602010200000d 0000000000000001 0000000000000000 02 0000000000000001 00000001";

const REQUESTS: [Step; 5] = [
    Step::Comes(LATER_REQUEST, Ok(Verdict::Next)),
    Step::Comes(REQUEST, Ok(Verdict::Next)),
    Step::SendsKind(FrameKind::ReadRep, 0, 2),
    Step::SendsKind(FrameKind::ReadRep, 0, 1),
    Step::Silent,
];

/// The strings of a site are taken out in the order in which they were made.
#[test]
fn order_of_strings(rt: HostRuntime) {
    play_owner(&rt, rt.alloc(), &TRIO, &REQUESTS);
}

/// The request, with an acknowledgement of what was never sent.
const FORGED_REQUEST: &str =
    "495602010100000d 0000000000000001 0000000000000009 01 0000000000000001 00000001";

const FORGED: [Step; 2] = [
    Step::Comes(FORGED_REQUEST, Ok(Verdict::Next)),
    Step::Sends(REPLY),
];

/// The reply answers it as it answers the request.
#[test]
fn forged_acknowledgement(rt: HostRuntime) {
    play_owner(&rt, rt.alloc(), &PAIR, &FORGED);
}

/// Three requests of node 1 for eight bytes, which come in the wrong order, and what node 0 sends for them.
const HELD: [Step; 9] = [
    Step::Comes(ALLOC_ASKS_THIRD, Ok(Verdict::Ahead)),
    Step::Comes(ALLOC_ASKS_SECOND, Ok(Verdict::Ahead)),
    Step::Silent,
    Step::Comes(ALLOC_ASKS, Ok(Verdict::Next)),
    Step::Sends(ALLOC_GETS),
    Step::Sends(
        "4956020800010012 0000000000000002 0000000000000001 01 0000000000000002 00 0000000000000048",
    ),
    Step::Sends(
        "4956020800010012 0000000000000003 0000000000000002 01 0000000000000003 00 0000000000000050",
    ),
    Step::Silent,
    // Those that were held are held no more, and came before.
    Step::Comes(ALLOC_ASKS_SECOND, Ok(Verdict::Repeat)),
];

const ALLOC_ASKS_SECOND: &str =
    "4956020701000011 0000000000000002 0000000000000000 01 0000000000000002 0000000000000008";

const ALLOC_ASKS_THIRD: &str =
    "4956020701000011 0000000000000003 0000000000000000 01 0000000000000003 0000000000000008";

/// Two strings are held, and the node goes on with both once the one before them comes.
#[test]
fn two_held_strings(rt: HostRuntime) {
    play_owner(&rt, rt.alloc(), &PAIR, &HELD);
}

/// A string of node 1 to node 2, and then the request once, and late once more.
const OTHERS_AND_LATE: [Step; 9] = [
    Step::Comes(
        "495602010102000d 0000000000000001 0000000000000000 01 0000000000000001 00000001",
        Ok(Verdict::NotMine),
    ),
    Step::Silent,
    Step::Listed(0),
    Step::Comes(REQUEST, Ok(Verdict::Next)),
    Step::SendsKind(FrameKind::ReadRep, 0, 1),
    Step::Comes(ALLOC_ASKS_SECOND, Ok(Verdict::Next)),
    Step::SendsKind(FrameKind::AllocRep, 0, 1),
    Step::Comes(REQUEST, Ok(Verdict::Repeat)),
    Step::Silent,
];

/// A string for another node is left alone and not listed, and one that comes late is a repeat.
#[test]
fn strings_of_others_and_late_ones(rt: HostRuntime) {
    play_owner(&rt, rt.alloc(), &TRIO, &OTHERS_AND_LATE);
}

/// What happens at node 1, which goes on to its end once the reply comes.
const BEGINNINGS: [Step; 7] = [
    Step::Turns(2),
    Step::Beginnings(REPLY),
    Step::Comes(REPLY, Ok(Verdict::Next)),
    Step::Turn(Turn::Moved),
    Step::Turn(Turn::Moved),
    Step::Turn(Turn::Ended),
    Step::Printed(&[0]),
];

/// Each beginning of the reply is too short, and the reply itself carries out the load.
#[test]
fn beginnings_of_a_string(rt: HostRuntime) {
    play(&rt, rt.alloc(), 1, LOADS, &BEGINNINGS);
}

/// Turns one bit of the byte at this place.
fn turn_bit(bytes: &mut [u8], place: usize, bit: u32)
    requires { bit < 8 }
{
    if let Some(byte) = bytes.get_mut(place) {
        *byte ^= 1 << bit;
    }
}

/// A new node 0 takes each string that differs from this one in a bit of this byte, or refuses it
/// as one that spells no frame.
fn check_bits<A: Allocator + Copy>(rt: &impl Abort, alloc: A, bytes: &mut [u8], place: usize) {
    for bit in 0..8 {
        turn_bit(bytes, place, bit);
        play_owner(rt, alloc, &PAIR, &[Step::Judged(bytes)]);
        turn_bit(bytes, place, bit);
    }
}

/// Each string that differs from the request in one bit is refused or taken, and the node goes on.
#[test]
fn altered_bits(rt: HostRuntime) {
    let mut request = string(&rt, rt.alloc(), REQUEST);
    for place in 0..request.len() {
        check_bits(&rt, rt.alloc(), &mut request, place);
    }
}
