//! A text of programs, and the configuration and the opening that it runs under.
ghost use Rattle.std.specs.Prelude.{IfOk};
ghost use Rattle.ivy_replay.specs.Orders.{BeginsText};

use ivy_model::{Config, Fault};
use ivy_world::{Opening, World, parse};
use std::alloc::Global;

/// A text of programs, the configuration that they run under, and how their nodes begin: with its manager, or with steady
/// hints.
#[derive(Clone, Copy)]
pub struct Text<'a> {
    pub alloc: Global,
    pub config: Config,
    pub opening: Opening,
    pub programs: &'a str,
}

impl Text<'_> {
    /// The opening world of the programs [1, 2, 20].
    pub fn world(&self) -> Result<World<Global>, Fault>
        ensures { IfOk result (BeginsText self.now.config self.now.opening self.now.programs.now) }
    {
        let programs = parse(self.alloc, self.programs)?;
        self.config.check()?;
        World::opened(self.alloc, self.config, self.opening, programs)
    }
}
