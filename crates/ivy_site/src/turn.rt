/// What a turn of a node's program came to.
#[derive(Clone, Copy, Debug, PartialEq, Eq)]
pub enum Turn {
    /// The call in progress waits; nothing changed.
    Idle,
    /// An instruction was carried out, a call began, or a reply was recorded: so also where the node after the turn
    /// equals the one before it.
    Moved,
    /// The program had ended before this turn; nothing changed.
    Ended,
}
