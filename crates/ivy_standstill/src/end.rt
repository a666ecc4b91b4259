//! Why a session ended.

/// Why a session ended.
#[derive(Clone, Copy)]
pub enum End {
    /// All programs have ended.
    Programs,
    /// The watch let it go on no further.
    Watch,
    /// It stands still: nothing is under way, no turn does anything, and a program has not ended.
    Standstill,
    /// A worker had made the turns that it was allowed.
    Turns,
}
