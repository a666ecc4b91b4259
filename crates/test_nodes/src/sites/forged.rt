//! Frames that nobody sent come to node 0: what each is answered, and how many messages fitted no rule.
use crate::common::REPLY;
use crate::sites::common::{LOADS, receive};
use crate::sites::steps::{Step, play};
use ivy_model::Fault;
use ivy_site::{Site, Verdict};
use rand_core::SeedableRng;
use rand_core::utils::NextWord;
use rand_pcg::Lcg64Xsh32;
use std::alloc::Allocator;
use std::process::Abort;

/// A page with its ownership, that nobody asked for.
const PAGE: &str =
    "4956020401000051 0000000000000001 0000000000000000 00 0000000000000001 00000001 00000000 \
     ffffffffffffffff ffffffffffffffff ffffffffffffffff ffffffffffffffff \
     ffffffffffffffff ffffffffffffffff ffffffffffffffff ffffffffffffffff";

/// An order to the owner of the page to give a copy of it up.
const ORDER: &str =
    "495602050100000d 0000000000000002 0000000000000000 01 0000000000000001 00000001";

/// A request of node 0's own.
const OWN_REQUEST: &str =
    "495602010100000d 0000000000000003 0000000000000000 00 0000000000000001 00000001";

/// A request with an acknowledgement of what was never sent, without its last byte and whole.
const CUT_REQUEST: &str =
    "495602020100000d 0000000000000004 0000000000000009 01 0000000000000001 000000";

const WHOLE_REQUEST: &str =
    "495602020100000d 0000000000000004 0000000000000009 01 0000000000000001 00000001";

/// The answer to the last request, and what a pulse makes of it: the acknowledgement of what was never sent counts for
/// nothing.
const ANSWER: &str =
    "4956020400010051 0000000000000001 0000000000000003 01 0000000000000001 00000001 00000000 + 0";

const AGAIN: &str =
    "4956020400010051 0000000000000001 0000000000000004 01 0000000000000001 00000001 00000000 + 0";

/// Each string in its turn, and how many messages fitted no rule then; and what the node sends,
/// also at a pulse.
const FORGED: [Step; 17] = [
    Step::Comes(PAGE, Ok(Verdict::Next)),
    Step::Breaches(1),
    Step::Comes(PAGE, Ok(Verdict::Repeat)),
    Step::Breaches(1),
    Step::Comes(ORDER, Ok(Verdict::Next)),
    Step::Breaches(2),
    Step::Comes(OWN_REQUEST, Ok(Verdict::Next)),
    Step::Breaches(3),
    Step::Comes(CUT_REQUEST, Err(Fault::ShortFrame)),
    Step::Breaches(3),
    Step::Comes(WHOLE_REQUEST, Ok(Verdict::Next)),
    Step::Breaches(3),
    Step::Sends(ANSWER),
    Step::Silent,
    Step::Pulse,
    Step::Sends(AGAIN),
    Step::Silent,
];

/// Messages that fit no rule are counted and change nothing else. The one request that fits is answered, and its
/// acknowledgement of what was never sent counts for nothing.
#[test]
fn forged_frames_at_node_0(rt: HostRuntime) {
    play(&rt, rt.alloc(), 0, "node 0\n", &FORGED);
}

/// Puts a byte at a place, both of them drawn, where there is such a place.
fn put_drawn(bytes: &mut [u8], generator: &mut Lcg64Xsh32) {
    let [place, byte, _, _] = generator.next_word().to_le_bytes();
    if let Some(old) = bytes.get_mut(usize::from(place)) {
        *old = byte;
    }
}

/// What a node shows of its state.
fn shown<A: Allocator + Copy>(site: &Site<A>) -> (u64, bool, usize, usize) {
    (
        site.breaches(),
        site.has_frame(),
        site.history().len(),
        site.output().len(),
    )
}

/// Whether a string is refused as one that spells no frame.
fn is_misspelled(answer: Result<Verdict, Fault>) -> bool {
    matches!(answer, Err(fault) if matches!(fault.number(), 11..=16))
}

/// Bytes are taken, or refused as ones that spell no frame. Then the node shows what it did.
pub(crate) fn expect_judged<A: Allocator + Copy>(
    rt: &impl Abort,
    site: &mut Site<A>,
    bytes: &[u8],
) {
    let before = shown(site);
    let answer = receive(site, bytes);
    if answer.is_err() {
        assert!(rt; is_misspelled(answer), "{bytes:?}");
        assert!(rt; shown(site) == before, "{bytes:?}");
    }
}

/// A reply with three bytes changed, which are drawn.
fn altered<A: Allocator + Copy>(
    rt: &impl Abort,
    alloc: A,
    reply: &[u8],
    generator: &mut Lcg64Xsh32,
) -> Vec<u8, A> {
    let mut bytes = Vec::from_slice(alloc, reply).expect(rt, "memory");
    for _ in 0..3u8 {
        put_drawn(&mut bytes, generator);
    }
    bytes
}

/// Ten thousand strings come that differ from this one in drawn bytes.
pub(crate) fn hand_drawn<A: Allocator + Copy>(
    rt: &impl Abort,
    alloc: A,
    site: &mut Site<A>,
    reply: &[u8],
) {
    let mut generator = Lcg64Xsh32::seed_from_u64(3);
    for _ in 0..10_000u32 {
        expect_judged(rt, site, &altered(rt, alloc, reply, &mut generator));
    }
}

/// A node that waits for a reply is handed ten thousand that differ from it in drawn bytes.
#[test]
fn altered_replies(rt: HostRuntime) {
    let steps = [Step::Turns(2), Step::Drawn(REPLY)];
    play(&rt, rt.alloc(), 1, LOADS, &steps);
}
