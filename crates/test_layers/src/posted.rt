//! What tests of one node's memory give it to post to.
ghost use Rattle.std.specs.Prelude.{◌≡◌, []};

use crate::letters::{Letter, message};
use ivy_model::{Config, Fault};
use ivy_wire::{Message, OwnedPage, Parcel, Post};
use std::alloc::Allocator;
use std::marker::Model;

/// Keeps the messages of a node, in order, or refuses them: all from now on, or those for which it has no memory.
#[derive(Drop)]
pub(crate) struct Posted<A: Allocator> {
    alloc: A,
    config: Config,
    node: u8,
    parcels: Vec<Parcel<OwnedPage<A>>, A>,
    is_full: bool,
}

impl<A: Allocator> Model for Posted<A> {
    ghost use Rattle.std.specs.Prelude.{ℕ, List};
    ghost use Rattle.ivy_model.specs.declared.Config as declared;
    ghost use Rattle.ivy_wire.specs.stated.Data as wire;

    ghost Value = { declared.Config × ℕ × List wire.Parcel };

    ghost view = { λ p. (p.config, p.node, p.parcels.items) };
}

impl<A: Allocator + Copy> Posted<A> {
    /// None so far.
    pub(crate) fn new(alloc: A, config: Config, node: u8) -> Posted<A>
        ensures { result ≡ (config, node, []) }
    {
        Posted {
            alloc,
            config,
            node,
            parcels: Vec::new(alloc),
            is_full: false,
        }
    }

    pub(crate) fn node(&self) -> u8
        ensures { result ≡ self.now.1 }
    {
        self.node
    }

    pub(crate) fn parcels(&self) -> &[Parcel<OwnedPage<A>>]
        ensures { result.now ≡ self.now.2 }
    {
        &self.parcels
    }

    /// From now on messages are refused, or taken.
    pub(crate) fn refuse(&mut self, is_full: bool)
        ensures { self.new ≡ self.old }
    {
        self.is_full = is_full;
    }

    /// The message that was posted last, where it is this one, about page 0 or of the heap, and went to this node.
    pub(crate) fn last_to(&self, dest: u8, letter: Letter) -> Option<&Parcel<OwnedPage<A>>> {
        let parcel = self.parcels.last()?;
        if is_parcel(parcel, self.node, dest, message(0, letter)) {
            Some(parcel)
        } else {
            None
        }
    }

    /// Whether these are all messages that were posted, in order: each about this page, with the node that it
    /// went to.
    pub(crate) fn are(&self, page: u32, wanted: &[(u8, Letter)]) -> bool {
        for (parcel, (dest, letter)) in self.parcels.iter().zip(wanted) {
            if !is_parcel(parcel, self.node, *dest, message(page, *letter)) {
                return false;
            }
        }
        self.parcels.len() == wanted.len()
    }
}

impl<A: Allocator + Copy> Post for Posted<A> {
    ghost use Rattle.std.specs.Prelude.{◌≡◌, ◌≢◌, [], ◌++◌, refl};
    ghost use Rattle.std.proofs.Common.{ap, append-nil};
    ghost use Rattle.ivy_model.specs.declared.Fault.TheVariants.{Memory};

    ghost ops = { record {
      config = λ p. p.0;
      node = λ p. p.1;
      takes = λ p parcels. Unit {0};
      after = λ p parcels. (p.0, p.1, p.2 ++ parcels);
      refuses = λ p parcels fault. (parcels ≢ []) × (fault ≡ Memory);
      after_refusal = λ p parcels fault. p;
    } };

    ghost laws = { record {
      takes_none = λ p. tt;
      after_none = λ p. ap (λ xs. (p.0, p.1, xs)) (append-nil p.2);
      refuses_none = λ p fault why. why.0 refl;
      same_config = λ p parcels fault. refl;
      same_node = λ p parcels fault. refl;
    } };

    fn post(&mut self, parcels: &[Parcel<&[u8]>]) -> Result<(), Fault> {
        if parcels.is_empty() {
            return Ok(());
        }
        if self.is_full {
            return Err(Fault::Memory);
        }
        let mut taken = Vec::new(self.alloc);
        for parcel in parcels {
            taken.push(Parcel {
                source: parcel.source,
                dest: parcel.dest,
                message: parcel.message.owned(self.alloc)?,
            })?;
        }
        self.parcels.append(&mut taken)?;
        Ok(())
    }
}

/// Whether a parcel is this message of a node to another.
fn is_parcel<A: Allocator + Copy>(
    parcel: &Parcel<OwnedPage<A>>,
    source: u8,
    dest: u8,
    wanted: Message<&[u8]>,
) -> bool {
    parcel.source == source && parcel.dest == dest && parcel.message.lent() == wanted
}
