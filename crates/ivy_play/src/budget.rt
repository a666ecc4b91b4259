//! How many moves of a play were not made to let its world settle, and how many may be.
ghost use Rattle.std.specs.Prelude.{◌≡◌, ◌<◌, ◌-◌, false, true};

/// How many of the moves were not made to let the world settle, and how many may be made for that.
#[derive(Clone, Copy)]
pub(crate) struct Budget {
    /// How many were not made for that.
    pub(crate) drawn: usize,
    /// Whether each further move is.
    is_settling: bool,
    /// How many may be, and the turns of one row besides.
    most: u64,
}

impl Budget {
    /// No move was made. So many will let the world settle.
    pub(crate) fn new(most: u64) -> Budget
        ensures drawn { result.drawn ≡ 0 }
        ensures most { result.most ≡ most }
        ensures drawing { result.is_settling ≡ false }
    {
        Budget {
            drawn: 0,
            is_settling: false,
            most,
        }
    }

    /// How many are left, once so many moves were made in all.
    pub(crate) fn left(self, made: usize) -> u64
        ensures { result ≡ self.most - (made - self.drawn) }
    {
        self.most
            .saturating_sub(made.saturating_sub(self.drawn) as u64)
    }

    /// Whether each further move lets the world settle.
    pub(crate) fn is_settling(self) -> bool
        ensures { result ≡ self.is_settling }
    {
        self.is_settling
    }

    /// Whether no further move may be made, once so many were made in all.
    pub(crate) fn is_spent(self, made: usize) -> bool
        ensures { result ≡ false → self.is_settling ≡ true → made - self.drawn < self.most }
    {
        self.is_settling && self.left(made) == 0
    }

    /// The same, once so many moves were made in all.
    pub(crate) fn after(self, made: usize) -> Budget
        ensures most { result.most ≡ self.most }
        ensures same { result.is_settling ≡ self.is_settling }
        ensures settling { self.is_settling ≡ true → result.drawn ≡ self.drawn }
        ensures drawn { self.is_settling ≡ false → result.drawn ≡ made }
    {
        if self.is_settling {
            return self;
        }
        Budget {
            drawn: made,
            ..self
        }
    }

    /// From now on each move lets the world settle, once so many were made in all.
    pub(crate) fn settling(self, made: usize) -> Budget
        ensures most { result.most ≡ self.most }
        ensures drawn { result.drawn ≡ made }
        ensures settling { result.is_settling ≡ true }
    {
        Budget {
            drawn: made,
            is_settling: true,
            most: self.most,
        }
    }
}
