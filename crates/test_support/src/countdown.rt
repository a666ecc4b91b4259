//! The numbers of a countdown to the growth that is refused.
ghost use Rattle.std.specs.Prelude.{◌≡◌, ℕ, ◌+◌, ◌^◌, ◌<◌, ◌↔◌, IsTrue};
ghost use Rattle.test_support.specs.Countdown.{set_to, RefusesNext};

/// How many growths are to come up to the one to refuse, with that one. It wraps below 0.
#[derive(Clone, Copy)]
pub(crate) struct Countdown {
    pub(crate) left: u64,
}

impl Countdown {
    /// One that refuses none of the first 2^64 - 1 growths.
    pub(crate) fn to_none() -> Countdown
        ensures { (asked : ℕ) → asked + 1 < 2 ^ 64 → ¬ RefusesNext result.left asked }
    {
        Countdown { left: 0 }
    }

    /// One to the n-th growth from now.
    pub(crate) fn to_nth(n: u64) -> Countdown
        ensures { set_to result.left 0 ≡ n }
    {
        Countdown { left: n }
    }

    /// Whether the growth that is asked for now is the one to refuse.
    pub(crate) fn refuses_next(self) -> bool
        ensures { (asked : ℕ) → asked + 1 < 2 ^ 64 → (IsTrue result ↔ RefusesNext self.left asked) }
    {
        self.left == 1
    }

    /// How many growths were asked for, where it was set to `n`.
    pub(crate) fn asked_since(self, n: u64) -> u64
        ensures { set_to self.left result ≡ n }
    {
        n.wrapping_sub(self.left)
    }
}
