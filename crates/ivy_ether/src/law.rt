//! The rule of the ether, and the law that it rests on.
ghost use Rattle.ivy_ether.specs.Going.{ListsOfAnyRules};

use crate::item::{View, Wired};
use crossbeam_queue::protocol::Protocol;
use std::alloc::Allocator;
use std::marker::{Brand, PhantomData};

/// The configuration and the programs that an ether's rule speaks of, and how the nodes began. Each session picks them.
pub trait Setup {
    ghost use Rattle.std.specs.Prelude.{List};
    ghost use Rattle.ivy_model.specs.declared.Config.{Config};
    ghost use Rattle.ivy_host.specs.declared.opening.Opening.{Opening};
    ghost use Rattle.ivy_program.specs.stated.Programs.{Program};

    ghost config: { Config };

    ghost opened: { Opening };

    ghost programs: { List Program };
}

impl Setup for Brand {
    ghost use Rattle.std.specs.Prelude.{[]};
    ghost use Rattle.ivy_host.specs.declared.opening.Opening.TheVariants.{Configured};
    ghost use Rattle.ivy_ether.specs.Programs.{any_config};

    ghost config = { any_config };

    ghost opened = { Configured };

    ghost programs = { [] };
}

/// The rule, for these programs under this configuration, whose nodes began so.
pub struct Law<S: Setup>(PhantomData<S>);

impl<S: Setup, A: Allocator> Protocol<Wired<A>, View> for Law<S> {
    ghost use Rattle.ivy_ether.specs.Programs.{Kept};
    ghost use Rattle.ivy_ether.specs.Views.{beginner};

    ghost holds = { Kept S.config S.opened S.programs };

    ghost first = { beginner };
}

/// Event lists of which each goes on from the part that its node has in a run, by deliveries of strings that the run has
/// sent, or is that part, are the parts of a run again. It holds over any core and any opening. This is a fact, and
/// the call does nothing.
pub fn lists_go_on<C>()
    ensures { ListsOfAnyRules C }
{}
