/// What a frame that arrives is to a node.
#[derive(Clone, Copy, Debug, PartialEq, Eq)]
pub enum Verdict {
    /// It carries the first message of its source that was not delivered yet.
    Next,
    /// It carries no message, or one that was delivered already.
    Repeat,
    /// It carries a message before which others are still missing.
    Ahead,
    /// It is meant for another node.
    NotMine,
}
