/// What a world came to that was to settle.
#[derive(Clone, Copy, Debug, PartialEq, Eq)]
pub enum Rest {
    /// Nothing is under way, and a turn of any node would change nothing: no program goes on by itself.
    Still,
    /// All moves that were allowed were made.
    Going,
}
