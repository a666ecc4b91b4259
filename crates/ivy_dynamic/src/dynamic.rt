ghost use Rattle.std.specs.Prelude.{◌≡◌, IfOk, IsOkUnless};
ghost use Rattle.ivy_dynamic.specs.stated.Dynamic.{first_hints, steady_hints, new_hints, hinted};

use ivy_model::{Config, Fault};
use ivy_pagetable::Manager;
use std::alloc::Allocator;
use std::marker::Model;

/// The manager by hints, the dynamic distributed manager of Li and Hudak (1989): each node keeps a
/// hint of who owns each page, their probable owner, at first node 0. A hint need not name the
/// owner: the node that it names forwards a request along its own.
///
/// Steady hints differ by one rule: a node whose copy is ended keeps its hint, so that it stays behind the requests that it
/// sent on.
#[derive(Drop)]
pub struct DynamicManager<A: Allocator> {
    me: u8,
    /// How many nodes there are: a hint names one of them.
    nodes: u8,
    hints: Vec<u8, A>,
    steady: bool,
}

impl<A: Allocator> Model for DynamicManager<A> {
    ghost use Rattle.ivy_dynamic.specs.stated.Dynamic.{Hints};

    ghost Value = { Hints };

    ghost view = { λ m. record { me = m.me; nodes = m.nodes; hints = m.hints.items; steady = m.steady } };
}

impl<A: Allocator> DynamicManager<A> {
    /// The manager of a node, at first: one byte a page, and no memory is taken after [1].
    pub fn new(alloc: A, config: &Config, me: u8) -> Result<Self, Fault>
        ensures first { IfOk result (λ m. m ≡ first_hints config.now me) }
        ensures memory { IsOkUnless result Fault.Memory }
    {
        DynamicManager::made(alloc, config, me, false)
    }

    /// The manager of a node by steady hints, at first: one byte a page, and no memory is taken after [1].
    pub fn steady(alloc: A, config: &Config, me: u8) -> Result<Self, Fault>
        ensures first { IfOk result (λ m. m ≡ steady_hints config.now me) }
        ensures memory { IsOkUnless result Fault.Memory }
    {
        DynamicManager::made(alloc, config, me, true)
    }

    fn made(alloc: A, config: &Config, me: u8, steady: bool) -> Result<Self, Fault>
        ensures first { IfOk result (λ m. m ≡ new_hints steady config.now me) }
        ensures memory { IsOkUnless result Fault.Memory }
    {
        Ok(DynamicManager {
            me,
            nodes: config.nodes,
            hints: vec![in alloc; 0u8; config.pages as usize]?,
            steady,
        })
    }

    /// From now on the hint of the page is `node`.
    fn hint(&mut self, page: u32, node: u8)
        ensures { self.new ≡ hinted self.old page node }
    {
        if let Some(hint) = self.hints.get_mut(page as usize) {
            *hint = node;
        }
    }
}

impl<A: Allocator> Manager for DynamicManager<A> {
    ghost use Rattle.ivy_dynamic.specs.stated.Dynamic.{dynamic_ops};
    ghost use Rattle.ivy_dynamic.specs.DynamicLaws.{dynamic_laws};

    ghost ops = { dynamic_ops };

    ghost laws = { dynamic_laws };

    fn next_hop(&self, page: u32) -> u8 {
        match self.hints.get(page as usize) {
            Some(hint) => *hint,
            None => 0,
        }
    }

    fn on_forward(&mut self, page: u32, write: bool, origin: u8) {
        if write {
            self.hint(page, origin);
        }
    }

    fn on_given(&mut self, page: u32, to: u8) {
        self.hint(page, to);
    }

    fn on_replied(&mut self, page: u32, write: bool, from: u8) {
        let owner = if write { self.me } else { from };
        self.hint(page, owner);
    }

    fn on_invalidated(&mut self, page: u32, by: u8) {
        if !self.steady {
            self.hint(page, by);
        }
    }
}
