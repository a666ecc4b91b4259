//! Managers: those of `ivy_fixed` and `ivy_dynamic`, and one of one's own (`ivy_pagetable`).
ghost use Rattle.std.specs.Prelude.{◌≡◌, IfOk};
ghost use Rattle.ivy_model.specs.stated.Config.{IsConfig};
ghost use Rattle.ivy_fixed.specs.stated.Fixed.{first_owners};

use crate::common::{PAIR, expect_same};
use ivy_dynamic::DynamicManager;
use ivy_fixed::FixedManager;
use ivy_model::{Config, Fault};
use ivy_pagetable::Manager;
use std::alloc::Allocator;
use std::marker::Model;
use std::process::Abort;

/// The manager by managing nodes, which counts the requests that its node forwarded. Contracts see the one within.
#[derive(Drop)]
pub(crate) struct Watched<A: Allocator> {
    inner: FixedManager<A>,
    forwarded: u64,
}

impl<A: Allocator> Model for Watched<A> {
    ghost use Rattle.ivy_fixed.specs.stated.Fixed.{Owners};

    ghost Value = { Owners };

    ghost view = { λ m. m.inner };
}

impl<A: Allocator> Watched<A> {
    pub(crate) fn new(alloc: A, config: &Config, me: u8) -> Result<Self, Fault>
        requires { IsConfig config.now }
        ensures { IfOk result (λ m. m ≡ first_owners config.now me) }
    {
        Ok(Watched {
            inner: FixedManager::new(alloc, config, me)?,
            forwarded: 0,
        })
    }
}

impl<A: Allocator> Manager for Watched<A> {
    ghost use Rattle.ivy_fixed.specs.stated.Fixed.{fixed_ops};
    ghost use Rattle.ivy_fixed.specs.FixedLaws.{fixed_laws};

    ghost ops = { fixed_ops };

    ghost laws = { fixed_laws };

    fn next_hop(&self, page: u32) -> u8 {
        self.inner.next_hop(page)
    }

    fn on_forward(&mut self, page: u32, write: bool, origin: u8) {
        self.forwarded = self.forwarded.saturating_add(1);
        self.inner.on_forward(page, write, origin);
    }

    fn on_given(&mut self, page: u32, to: u8) {
        self.inner.on_given(page, to);
    }

    fn on_replied(&mut self, page: u32, write: bool, from: u8) {
        self.inner.on_replied(page, write, from);
    }

    fn on_invalidated(&mut self, page: u32, by: u8) {
        self.inner.on_invalidated(page, by);
    }
}

/// Makes each call of a manager of page 1 at node 1, which then names this node.
fn expect_hop<M: Manager>(rt: &impl Abort, manager: &mut M, hop: u8) {
    manager.on_forward(1, false, 0);
    manager.on_replied(1, true, 0);
    manager.on_given(1, 0);
    manager.on_invalidated(1, 0);
    expect_same(rt, manager.next_hop(1), hop);
}

#[test]
fn each_manager(rt: HostRuntime) {
    let alloc = rt.alloc();
    let mut fixed = FixedManager::new(alloc, &PAIR, 1).expect(&rt, "memory");
    let mut dynamic = DynamicManager::new(alloc, &PAIR, 1).expect(&rt, "memory");
    let mut steady = DynamicManager::steady(alloc, &PAIR, 1).expect(&rt, "memory");
    let mut watched = Watched::new(alloc, &PAIR, 1).expect(&rt, "memory");
    expect_hop(&rt, &mut fixed, 0);
    expect_hop(&rt, &mut dynamic, 0);
    expect_hop(&rt, &mut steady, 0);
    expect_hop(&rt, &mut watched, 0);
    expect_same(&rt, watched.forwarded, 1);
}
