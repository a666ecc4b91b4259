//! How the nodes of a world begin.

/// How the nodes of a world begin: by which manager they find the owner of a page.
#[derive(Clone, Copy, Debug, PartialEq, Eq)]
pub enum Opening {
    /// By the manager that the configuration names.
    Configured,
    /// By steady hints, whatever manager the configuration names: the dynamic manager of Li and Hudak (1989), but a node whose
    /// copy is ended keeps its hint, and what finds a node that awaits a copy is sent on.
    Steady,
}
