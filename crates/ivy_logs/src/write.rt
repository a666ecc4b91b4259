//! Digits of bytes.
ghost use Rattle.std.specs.Prelude.{◌≡◌, ◌++◌, ◌*◌, ◌<◌, OnOk, length, slice_index, string_bytes};
ghost use Rattle.hex.specs.Hex.{encode_lower, lower_digits};

use std::alloc::{AllocError, Allocator};
use std::str;

/// The digit of half a byte, in lower case.
fn digit(half: u8) -> u8
    requires { half < 16 }
    ensures { result ≡ slice_index lower_digits half }
{
    let letter = if half > 9 { b'a' - b'0' - 10 } else { 0 };
    b'0' + half + letter
}

/// Puts the digits of bytes in places of which there are twice as many.
fn put_digits(bytes: &[u8], places: &mut [u8])
    requires { length places.old ≡ 2 * length bytes.now }
    ensures { places.new ≡ encode_lower bytes.now }
{
    for at in 0..bytes.len() {
        let byte = bytes[at];
        places[2 * at] = digit(byte >> 4);
        places[2 * at + 1] = digit(byte & 15);
    }
}

/// Writes the digits of bytes behind a text, two for each, in lower case. Err only where the allocator has no memory.
pub fn push_digits<A: Allocator>(
    alloc: A,
    text: &mut String<A>,
    bytes: &[u8],
) -> Result<(), AllocError>
    ensures { OnOk result (string_bytes text.new ≡ string_bytes text.old ++ encode_lower bytes.now) }
{
    let Some(count) = bytes.len().checked_mul(2) else {
        return Err(AllocError);
    };
    let mut digits = vec![in alloc; 0u8; count]?;
    put_digits(bytes, digits.as_mut_slice());
    text.push_str(str::from_utf8(digits.as_slice()).unwrap())
}
