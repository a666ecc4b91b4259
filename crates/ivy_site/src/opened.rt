//! How a site begins: by the manager of its configuration, or by steady hints.
ghost use Rattle.std.specs.Prelude.{◌≡◌, ◌<◌, [], IfOk, IsOkUnless};
ghost use Rattle.ivy_model.specs.stated.Config.{IsConfig};
ghost use Rattle.ivy_host.specs.stated.Openings.{managed_start};
ghost use Rattle.ivy_memory.specs.stated.Memories.{new_memory};
ghost use Rattle.ivy_program.specs.stated.Programs.{Called};
ghost use Rattle.ivy_site.specs.Sites.{first_opened};

use crate::manager::NodeManager;
use crate::site::Site;
use ivy_host::Opening;
use ivy_memory::Memory;
use ivy_model::{Config, Fault};
use ivy_moves::Keep;
use ivy_program::{Machine, Program};
use std::alloc::Allocator;

/// The memory of node `me` that begins so, before any call [1].
pub(crate) fn opened_memory<A: Allocator + Copy>(
    alloc: A,
    config: &Config,
    me: u8,
    opening: Opening,
) -> Result<Memory<NodeManager<A>, A>, Fault>
    requires limits { IsConfig config.now }
    requires here { me < config.now.nodes }
    ensures first { IfOk result (λ m. m ≡ new_memory (managed_start opening).sends_on config.now me ((managed_start opening).manager config.now me)) }
    ensures memory { IsOkUnless result Fault.Memory }
{
    let manager = NodeManager::opened(alloc, config, me, opening)?;
    match opening {
        Opening::Configured => Memory::new(alloc, config, me, manager),
        Opening::Steady => Memory::sending_on(alloc, config, me, manager),
    }
}

impl<A: Allocator + Copy> Site<A> {
    /// Node `me` at the beginning of its program, which begins so and keeps these lists of its own past [1].
    ///
    /// The configuration is within its limits, and `me` is one of its nodes. Under steady hints its kind of manager says
    /// nothing. All nodes of a world begin alike: nothing is promised of others.
    pub fn opened(
        alloc: A,
        config: &Config,
        me: u8,
        opening: Opening,
        program: Program<A>,
        keep: Keep,
    ) -> Result<Site<A>, Fault>
        requires limits { IsConfig config.now }
        requires here { me < config.now.nodes }
        ensures first { IfOk result (λ site. site ≡ first_opened opening keep config.now me program) }
        ensures memory { IsOkUnless result Fault.Memory }
    {
        Site::with_machine(alloc, config, me, opening, Machine::new(program), keep)
    }

    /// Node `me` with own code, which has made no call yet, and which begins so and keeps these lists of its own past [1].
    ///
    /// The configuration is within its limits, and `me` is one of its nodes. All nodes of a world begin alike, as
    /// [`Site::opened`] says.
    pub fn open_by(
        alloc: A,
        config: &Config,
        me: u8,
        opening: Opening,
        keep: Keep,
    ) -> Result<Site<A>, Fault>
        requires limits { IsConfig config.now }
        requires here { me < config.now.nodes }
        ensures first { IfOk result (λ site. site ≡ first_opened opening keep config.now me (Called [] [])) }
        ensures memory { IsOkUnless result Fault.Memory }
    {
        Site::with_machine(alloc, config, me, opening, Machine::open(), keep)
    }
}
