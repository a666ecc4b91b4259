//! Strings of others: drawn ones, ones that begin as frames do, beginnings of frames, and frames with one
//! bit changed. Each is refused as one that spells no frame, or is the spelling of the frame it is read as.
ghost use Rattle.std.specs.Prelude.{◌<◌};

use crate::common::{PAIR, expect_items, expect_same_at};
use crate::wire::{KINDS_AND_LENGTHS, ZEROS, string};
use ivy_model::{Config, Fault};
use ivy_wire::{FrameKind, decode, encode};
use rand_core::utils::NextWord;
use rand_core::{Rng, SeedableRng};
use rand_pcg::Lcg64Xsh32;
use std::process::Abort;

/// As many nodes and pages as there can be, so that more strings are frames.
const WIDE: Config = Config {
    nodes: 32,
    pages: 256,
    ..PAIR
};

/// How many strings are drawn of each kind under each configuration.
const OF_EACH_KIND: u32 = 5_000;

/// Whether a string is refused as one that spells no frame.
fn is_misspelled(fault: Fault) -> bool {
    matches!(fault.number(), 11..=16)
}

/// Whether the string spells a frame, and then the frame is spelled so. A string that is none is refused with 11 to 16.
fn is_frame(rt: &(impl Abort + AllocGlobal), config: &Config, bytes: &[u8]) -> bool {
    config.check().expect(rt, "a configuration");
    match decode(rt.alloc(), config, bytes) {
        Ok(frame) => {
            let lent = frame.lent();
            assert!(rt; lent.fits(config), "{bytes:?}");
            let spelled = encode(rt.alloc(), config, &lent).expect(rt, "memory");
            expect_items(rt, &spelled, bytes);
            true
        }
        Err(fault) => {
            assert!(rt; is_misspelled(fault), "{fault} {bytes:?}");
            false
        }
    }
}

/// A string of 0 to 200 drawn bytes.
fn drawn_string(rt: &(impl Abort + AllocGlobal), generator: &mut Lcg64Xsh32) -> Vec<u8> {
    let len = generator.next_word() % 201;
    let mut bytes = vec![in rt.alloc(); 0; len as usize].expect(rt, "memory");
    generator.fill_bytes(&mut bytes);
    bytes
}

/// Drawn strings are refused as no frames, or they are spellings of frames.
#[test]
fn drawn_strings(rt: HostRuntime) {
    let mut generator = Lcg64Xsh32::seed_from_u64(1);
    for _ in 0..100_000u32 {
        let bytes = drawn_string(&rt, &mut generator);
        is_frame(&rt, &PAIR, &bytes);
    }
}

/// A drawn byte: half of them are 0, and the others have 1 to 8 bits, so that fields are often in their bounds.
fn drawn_byte(generator: &mut Lcg64Xsh32) -> u8 {
    let [value, bits, zero, _] = generator.next_word().to_le_bytes();
    if zero % 2 == 0 {
        0
    } else {
        value >> (bits % 8)
    }
}

/// Adds so many drawn bytes.
fn add_drawn(rt: &impl Abort, bytes: &mut Vec<u8>, count: usize, generator: &mut Lcg64Xsh32) {
    for _ in 0..count {
        bytes.push(drawn_byte(generator)).expect(rt, "memory");
    }
}

/// A string that begins as a frame of this kind does. Half of them have the length of the kind, and all else is drawn.
fn drawn_frame(
    rt: &(impl Abort + AllocGlobal),
    config: &Config,
    kind: FrameKind,
    generator: &mut Lcg64Xsh32,
) -> Vec<u8> {
    config.check().expect(rt, "a configuration");
    let head = [b'I', b'V', 2, kind.code()];
    let mut bytes = Vec::from_slice(rt.alloc(), &head).expect(rt, "memory");
    add_drawn(rt, &mut bytes, 2, generator);
    let word = generator.next_word();
    if word % 2 == 0 {
        let len = kind.text_len(config);
        bytes
            .extend_from_slice(&len.to_be_bytes())
            .expect(rt, "memory");
        add_drawn(rt, &mut bytes, 16 + usize::from(len), generator);
    } else {
        add_drawn(rt, &mut bytes, (word / 2 % 195) as usize, generator);
    }
    bytes
}

/// That of 5,000 drawn strings of this kind some are frames, and some are refused.
fn check_kind(
    rt: &(impl Abort + AllocGlobal),
    config: &Config,
    kind: FrameKind,
    generator: &mut Lcg64Xsh32,
) {
    let mut frames = 0u32;
    for _ in 0..OF_EACH_KIND {
        let bytes = drawn_frame(rt, config, kind, generator);
        frames = frames.saturating_add(u32::from(is_frame(rt, config, &bytes)));
    }
    assert!(rt; 0 < frames && frames < OF_EACH_KIND, "{kind:?} {frames}");
}

/// Of the drawn strings that begin as messages of a kind do, some are frames and some are refused.
#[test]
fn drawn_frames(rt: HostRuntime) {
    let mut generator = Lcg64Xsh32::seed_from_u64(2);
    for (kind, _, _) in &KINDS_AND_LENGTHS[1..] {
        check_kind(&rt, &PAIR, *kind, &mut generator);
        check_kind(&rt, &WIDE, *kind, &mut generator);
    }
}

/// A frame of each kind: its words, and the page after them.
const FRAMES: [(&str, &[u8]); 11] = [
    ("4956020000010000 0000000000000000 0000000000000001", &[]),
    (
        "495602010100000d 0000000000000001 0000000000000000 01 0000000000000001 00000001",
        &[],
    ),
    (
        "495602020100000d 0000000000000004 0000000000000009 01 0000000000000001 00000001",
        &[],
    ),
    (
        "495602030001004d 0000000000000001 0000000000000000 01 0000000000000001 00000001",
        ZEROS,
    ),
    (
        "4956020400010051 0000000000000001 0000000000000003 01 0000000000000001 00000001 00000000",
        ZEROS,
    ),
    (
        "495602050100000d 0000000000000002 0000000000000000 01 0000000000000001 00000001",
        &[],
    ),
    (
        "495602060100000d 0000000000000002 0000000000000001 00 0000000000000001 00000001",
        &[],
    ),
    (
        "4956020701000011 0000000000000001 0000000000000000 01 0000000000000001 0000000000000008",
        &[],
    ),
    (
        "4956020800010012 0000000000000001 0000000000000000 01 0000000000000001 00 0000000000000040",
        &[],
    ),
    (
        "4956020901000011 0000000000000002 0000000000000001 01 0000000000000002 0000000000000040",
        &[],
    ),
    (
        "4956020a0001000a 0000000000000002 0000000000000002 01 0000000000000002 00",
        &[],
    ),
];

/// That the string is a frame, and that each shorter beginning of it is too short.
fn check_beginnings(rt: &(impl Abort + AllocGlobal), bytes: &[u8]) {
    assert!(rt; is_frame(rt, &PAIR, bytes), "{bytes:?}");
    PAIR.check().expect(rt, "a configuration");
    for len in 0..bytes.len() {
        let fault = decode(rt.alloc(), &PAIR, &bytes[..len]).err();
        expect_same_at(rt, len, fault, Some(Fault::ShortFrame));
    }
}

/// Each shorter beginning of a frame is too short.
#[test]
fn beginnings(rt: HostRuntime) {
    for (words, page) in FRAMES {
        check_beginnings(&rt, &string(&rt, words, page));
    }
}

/// Turns this bit of the byte at this place.
fn turn_bit(bytes: &mut [u8], place: usize, bit: usize)
    requires { bit < 8 }
{
    if let Some(byte) = bytes.get_mut(place) {
        *byte ^= 1 << bit;
    }
}

/// That of the strings that differ from this one in one bit some are frames, and some are refused.
fn check_bits(rt: &(impl Abort + AllocGlobal), config: &Config, bytes: &mut [u8]) {
    let mut frames = 0usize;
    let bits = bytes.len().saturating_mul(8);
    for n in 0..bits {
        turn_bit(bytes, n / 8, n % 8);
        frames = frames.saturating_add(usize::from(is_frame(rt, config, bytes)));
        turn_bit(bytes, n / 8, n % 8);
    }
    assert!(rt; 0 < frames && frames < bits, "{frames} {bytes:?}");
}

/// Frames with one bit changed are refused as no frames, or they are spellings of other frames.
#[test]
fn altered_bits(rt: HostRuntime) {
    for (words, page) in FRAMES {
        let mut bytes = string(&rt, words, page);
        check_bits(&rt, &PAIR, &mut bytes);
        check_bits(&rt, &WIDE, &mut bytes);
    }
}
