use ivy_pagetable::Out;

/// What an access of this node comes to.
#[derive(Clone, Copy, Debug, PartialEq, Eq)]
pub enum Need {
    /// Access sufficed, and the word was carried out in this call.
    Have(Out),
    /// The entry is locked now, and the word waits for its page.
    Started,
    /// A word of this node waits at an entry already; nothing changed.
    Busy,
    /// The page is fetched otherwise than the word needs it; nothing changed, and the word waits at no entry.
    Fetched,
}
