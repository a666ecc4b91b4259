use ivy_model::{Call, Reply};

/// A call, and its reply: an [`ivy_model::Record`] without the node.
#[derive(Clone, Copy, Debug, PartialEq, Eq)]
pub struct Answer {
    /// What was asked.
    pub call: Call,
    /// What was answered.
    pub reply: Reply,
}
