ghost use Rattle.std.specs.Prelude.{◌≡◌};
ghost use Rattle.ivy_pagetable.specs.stated.Manager.{Ops};
ghost use Rattle.ivy_pagetable.specs.Manager.{Laws};

/// How a node finds the owner of a page: it asks the next hop, which is the owner or forwards the
/// request. Two ways of Li and Hudak (1989) are in the crates `ivy_fixed` and `ivy_dynamic`. A page
/// has a number below the configuration's `pages`, a node one below its `nodes`.
///
/// No call takes memory or is refused. Whatever calls were made for a page, one more brings back
/// the state before them: that the page was given to the next hop of then, or where that was this
/// node, that a request to write was answered.
pub trait Manager {
    /// What the calls are, as functions on what contracts see of the manager.
    ghost ops: { Ops Self };

    /// The node to which this one sends a request for the page.
    fn next_hop(&self, page: u32) -> u8
        ensures { result ≡ ops.next_hop self.now page };

    /// A request of node `origin`, to write or else to read, was forwarded to the next hop.
    fn on_forward(&mut self, page: u32, write: bool, origin: u8)
        ensures { self.new ≡ ops.on_forward self.old page write origin };

    /// This node, the owner, gave the page to node `to`, which is to write it.
    fn on_given(&mut self, page: u32, to: u8)
        ensures { self.new ≡ ops.on_given self.old page to };

    /// This node's own request, to write or else to read, was answered by node `from`.
    fn on_replied(&mut self, page: u32, write: bool, from: u8)
        ensures { self.new ≡ ops.on_replied self.old page write from };

    /// This node gave its copy up, since node `by` is to write the page.
    fn on_invalidated(&mut self, page: u32, by: u8)
        ensures { self.new ≡ ops.on_invalidated self.old page by };

    ghost laws: { Laws ops };
}
