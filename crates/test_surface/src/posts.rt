//! A post of one's own (`ivy_wire`).
ghost use Rattle.std.specs.Prelude.{◌≡◌};

use crate::common::{PAIR, expect_same};
use crate::wire::ASKS;
use ivy_model::{Config, Fault};
use ivy_wire::{Parcel, Post};
use std::marker::Model;

/// Counts the messages of a node, and refuses none. Contracts see the configuration and the node.
#[derive(Drop)]
pub(crate) struct Counting {
    config: Config,
    node: u8,
    count: usize,
}

impl Model for Counting {
    ghost use Rattle.std.specs.Prelude.{ℕ};
    ghost use Rattle.ivy_model.specs.declared.Config as declared;

    ghost Value = { declared.Config × ℕ };

    ghost view = { λ p. (p.config, p.node) };
}

impl Counting {
    /// The post of one of two nodes.
    pub(crate) fn new(node: u8) -> Counting
        ensures { result ≡ (PAIR, node) }
    {
        Counting {
            config: PAIR,
            node,
            count: 0,
        }
    }

    /// How many messages were posted.
    pub(crate) fn count(&self) -> usize {
        self.count
    }
}

impl Post for Counting {
    ghost use Rattle.std.specs.Prelude.{refl};

    ghost ops = { record {
      config = λ p. p.0;
      node = λ p. p.1;
      takes = λ p parcels. Unit {0};
      after = λ p parcels. p;
      refuses = λ p parcels fault. ⊥;
      after_refusal = λ p parcels fault. p;
    } };

    ghost laws = { record {
      takes_none = λ p. tt;
      after_none = λ p. refl;
      refuses_none = λ p fault why. why;
      same_config = λ p parcels fault. refl;
      same_node = λ p parcels fault. refl;
    } };

    fn post(&mut self, parcels: &[Parcel<&[u8]>]) -> Result<(), Fault> {
        self.count = self.count.saturating_add(parcels.len());
        Ok(())
    }
}

#[test]
fn a_post(rt: HostRuntime) {
    let mut post = Counting::new(1);
    let parcel = Parcel {
        source: 1,
        dest: 0,
        message: ASKS,
    };
    expect_same(&rt, post.post(&[parcel]), Ok(()));
    expect_same(&rt, post.count(), 1);
}
