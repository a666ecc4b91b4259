/// A number that lies in a word of the heap, with its highest byte first.
pub trait SharedWord: Copy {
    ghost use Rattle.std.specs.Prelude.{◌≡◌, ◌≤◌, ◌*◌, ◌^◌, ℕ, IfNone, IfSome};
    ghost use Rattle.ivy_model.specs.stated.Legal.{IsWidth};

    /// Bytes of the word.
    ghost WIDTH: { ℕ };

    /// The number that a value of the type is.
    ghost number_of: { Self → ℕ };

    /// Bytes of the word: 1, 2, 4 or 8.
    const WIDTH: u8;

    /// The value as a number of 64 bits.
    fn to_number(self) -> u64
        ensures { result ≡ number_of self };

    /// The value that is this number, if it has room in the word.
    fn from_number(number: u64) -> Option<Self>
        ensures fits { IfSome result (λ word. number_of word ≡ number) }
        ensures over { IfNone result (2 ^ (8 * WIDTH) ≤ number) };

    /// The width is one that a word of the memory can have.
    ghost is_width: { IsWidth WIDTH };
}

impl SharedWord for u8 {
    ghost use Rattle.std.proofs.Common.{arith, refl};

    ghost WIDTH = { 1 };

    ghost number_of = { λ n. n };

    const WIDTH: u8 = 1;

    fn to_number(self) -> u64 {
        u64::from(self)
    }

    fn from_number(number: u64) -> Option<u8> {
        u8::try_from(number).ok()
    }

    ghost is_width = { (0, Prim.omega arith, refl) };
}

impl SharedWord for u16 {
    ghost use Rattle.std.proofs.Common.{arith, refl};

    ghost WIDTH = { 2 };

    ghost number_of = { λ n. n };

    const WIDTH: u8 = 2;

    fn to_number(self) -> u64 {
        u64::from(self)
    }

    fn from_number(number: u64) -> Option<u16> {
        u16::try_from(number).ok()
    }

    ghost is_width = { (1, Prim.omega arith, refl) };
}

impl SharedWord for u32 {
    ghost use Rattle.std.proofs.Common.{arith, refl};

    ghost WIDTH = { 4 };

    ghost number_of = { λ n. n };

    const WIDTH: u8 = 4;

    fn to_number(self) -> u64 {
        u64::from(self)
    }

    fn from_number(number: u64) -> Option<u32> {
        u32::try_from(number).ok()
    }

    ghost is_width = { (2, Prim.omega arith, refl) };
}

impl SharedWord for u64 {
    ghost use Rattle.std.proofs.Common.{arith, refl};

    ghost WIDTH = { 8 };

    ghost number_of = { λ n. n };

    const WIDTH: u8 = 8;

    fn to_number(self) -> u64 {
        self
    }

    fn from_number(number: u64) -> Option<u64> {
        Some(number)
    }

    ghost is_width = { (3, Prim.omega arith, refl) };
}
