ghost use Rattle.std.specs.Prelude.{◌≡◌, ◌<◌, IfOk, IsOkUnless};
ghost use Rattle.ivy_model.specs.stated.Config.{IsConfig};
ghost use Rattle.ivy_fixed.specs.stated.Fixed.{first_owners, manages, owner_kept};

use ivy_model::{Config, Fault};
use ivy_pagetable::Manager;
use std::alloc::Allocator;
use std::marker::Model;

/// The manager by managing nodes, the fixed distributed manager of Li and Hudak (1989): node p mod
/// N, of N nodes, keeps the owner of page p, at first node 0. The other nodes ask that node.
#[derive(Drop)]
pub struct FixedManager<A: Allocator> {
    me: u8,
    nodes: u8,
    owners: Vec<u8, A>,
}

impl<A: Allocator> Model for FixedManager<A> {
    ghost use Rattle.std.specs.Prelude.{◌<◌};
    ghost use Rattle.ivy_fixed.specs.stated.Fixed.{Owners};

    ghost Value = { Owners };

    ghost view = { λ m. record { me = m.me; nodes = m.nodes; owners = m.owners.items } };

    ghost invariant = { λ m. 0 < m.nodes };
}

impl<A: Allocator> FixedManager<A> {
    /// The manager of a node, at first: one byte a page, and no memory is taken after [1].
    pub fn new(alloc: A, config: &Config, me: u8) -> Result<Self, Fault>
        requires { IsConfig config.now }
        ensures first { IfOk result (λ m. m ≡ first_owners config.now me) }
        ensures memory { IsOkUnless result Fault.Memory }
    {
        Ok(FixedManager {
            me,
            nodes: config.nodes,
            owners: vec![in alloc; 0u8; config.pages as usize]?,
        })
    }

    fn manages(&self, page: u32) -> bool
        ensures { result ≡ manages self.now page }
    {
        page % u32::from(self.nodes) == u32::from(self.me)
    }

    fn keep(&mut self, page: u32, owner: u8)
        ensures { self.new ≡ owner_kept self.old page owner }
    {
        let place = page as usize;
        if self.manages(page) && place < self.owners.len() {
            self.owners[place] = owner;
        }
    }
}

impl<A: Allocator> Manager for FixedManager<A> {
    ghost use Rattle.ivy_fixed.specs.stated.Fixed.{fixed_ops};
    ghost use Rattle.ivy_fixed.specs.FixedLaws.{fixed_laws};

    ghost ops = { fixed_ops };

    ghost laws = { fixed_laws };

    fn next_hop(&self, page: u32) -> u8 {
        if self.manages(page) {
            match self.owners.get(page as usize) {
                Some(owner) => *owner,
                None => 0,
            }
        } else {
            (page % u32::from(self.nodes)) as u8
        }
    }

    fn on_forward(&mut self, page: u32, write: bool, origin: u8) {
        if write {
            self.keep(page, origin);
        }
    }

    fn on_given(&mut self, page: u32, to: u8) {
        self.keep(page, to);
    }

    fn on_replied(&mut self, page: u32, write: bool, _from: u8) {
        if write {
            let me = self.me;
            self.keep(page, me);
        }
    }

    fn on_invalidated(&mut self, _page: u32, _by: u8) {}
}
