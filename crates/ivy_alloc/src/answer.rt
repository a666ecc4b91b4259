use ivy_model::Reply;

/// What a call comes to when it begins, or when its reply is asked for.
#[derive(Clone, Copy, Debug, PartialEq, Eq)]
pub enum CallProgress {
    /// This reply.
    Given(Reply),
    /// It is in progress: its word waits from now on or has no answer yet, or node 0 was asked for it.
    Awaited,
    /// Nothing changed: it did not begin, or has no reply yet.
    Unserved,
}
