//! The manager of a node, which is the one of its configuration, or steady hints.
ghost use Rattle.std.specs.Prelude.{◌≡◌, IfOk, IsOkUnless};
ghost use Rattle.ivy_model.specs.stated.Config.{IsConfig};
ghost use Rattle.ivy_host.specs.stated.Managers.{managed_ops};
ghost use Rattle.ivy_host.specs.stated.Openings.{managed_start};

use ivy_dynamic::DynamicManager;
use ivy_fixed::FixedManager;
use ivy_host::Opening;
use ivy_model::{Config, Fault, Kind};
use ivy_pagetable::Manager;
use std::alloc::Allocator;
use std::marker::Model;

/// One manager of the two.
#[derive(Drop)]
enum Either<A: Allocator> {
    Fixed(FixedManager<A>),
    Dynamic(DynamicManager<A>),
}

/// Who knows the owners of pages, for a node of any configuration: managing nodes or hints, as the
/// configuration says, or steady hints, as the opening says.
#[derive(Drop)]
pub struct NodeManager<A: Allocator> {
    manager: Either<A>,
}

impl<A: Allocator> Model for NodeManager<A> {
    ghost use Rattle.ivy_host.specs.stated.Managers.{Managed};

    ghost Value = { Managed };

    ghost use Rattle.ivy_site.specs.Managers.{managed};

    ghost view = { λ m. managed m.manager };
}

impl<A: Allocator> NodeManager<A> {
    /// The manager of node `me` as it begins [1].
    pub fn new(alloc: A, config: &Config, me: u8) -> Result<Self, Fault>
        requires limits { IsConfig config.now }
        ensures first { IfOk result (λ manager. manager ≡ managed_ops.first config.now me) }
        ensures memory { IsOkUnless result Fault.Memory }
    {
        let manager = match config.manager {
            Kind::Fixed => Either::Fixed(FixedManager::new(alloc, config, me)?),
            Kind::Dynamic => Either::Dynamic(DynamicManager::new(alloc, config, me)?),
        };
        Ok(NodeManager { manager })
    }

    /// The manager of node `me` that begins so [1]: that of the configuration, or steady hints.
    pub fn opened(alloc: A, config: &Config, me: u8, opening: Opening) -> Result<Self, Fault>
        requires limits { IsConfig config.now }
        ensures first { IfOk result (λ manager. manager ≡ (managed_start opening).manager config.now me) }
        ensures memory { IsOkUnless result Fault.Memory }
    {
        match opening {
            Opening::Configured => NodeManager::new(alloc, config, me),
            Opening::Steady => {
                let manager = Either::Dynamic(DynamicManager::steady(alloc, config, me)?);
                Ok(NodeManager { manager })
            }
        }
    }
}

impl<A: Allocator> Manager for NodeManager<A> {
    ghost use Rattle.ivy_host.specs.stated.Managers.{managed_ops};
    ghost use Rattle.ivy_host.specs.ManagedLaws.{managed_laws};

    ghost ops = { managed_ops };

    ghost laws = { managed_laws };

    fn next_hop(&self, page: u32) -> u8 {
        match &self.manager {
            Either::Fixed(manager) => manager.next_hop(page),
            Either::Dynamic(manager) => manager.next_hop(page),
        }
    }

    fn on_forward(&mut self, page: u32, write: bool, origin: u8) {
        match &mut self.manager {
            Either::Fixed(manager) => manager.on_forward(page, write, origin),
            Either::Dynamic(manager) => manager.on_forward(page, write, origin),
        }
    }

    fn on_given(&mut self, page: u32, to: u8) {
        match &mut self.manager {
            Either::Fixed(manager) => manager.on_given(page, to),
            Either::Dynamic(manager) => manager.on_given(page, to),
        }
    }

    fn on_replied(&mut self, page: u32, write: bool, from: u8) {
        match &mut self.manager {
            Either::Fixed(manager) => manager.on_replied(page, write, from),
            Either::Dynamic(manager) => manager.on_replied(page, write, from),
        }
    }

    fn on_invalidated(&mut self, page: u32, by: u8) {
        match &mut self.manager {
            Either::Fixed(manager) => manager.on_invalidated(page, by),
            Either::Dynamic(manager) => manager.on_invalidated(page, by),
        }
    }
}
