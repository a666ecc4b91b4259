//! Programs that run by moves, from their opening on.
ghost use Rattle.std.specs.Prelude.{OnOk, length};
ghost use Rattle.ivy_simulation.specs.Played.{config_of, PrintsDrawn, PrintsMovesBy, PrintsSchedule, PrintsScheduleBy};

use crate::halt::Halt;
use crate::print::print_world;
use crate::simulation::run_drawn;
use crate::trace::trace_moves;
use ivy_texts::{Settings, parse_schedule};
use ivy_world::{Move, Opening, Program, World};
use std::alloc::Global;
use std::io::Write;

/// Runs programs by moves, of nodes that begin so, and prints each move and what they printed.
fn trace<W: Write>(
    alloc: Global,
    opening: Opening,
    programs: Vec<Program<Global>>,
    moves: &[Move],
    settings: Settings,
    out: &mut W,
) -> Result<(), Halt>
    ensures { OnOk result (PrintsMovesBy opening (config_of settings (length programs.items)) programs.items (W.contents out.old) (W.contents out.new) moves.now) }
{
    let config = settings.config(programs.len())?;
    let mut world = World::opened(alloc, config, opening, programs)?;
    trace_moves(&config, &mut world, moves, out)?;
    print_world(&world, out)?;
    Ok(())
}

/// Runs programs by the schedule of a text, and prints each move and what they printed [1, 2, 17, 19, 20].
pub fn step<W: Write>(
    alloc: Global,
    programs: Vec<Program<Global>>,
    schedule: &str,
    settings: Settings,
    out: &mut W,
) -> Result<(), Halt>
    ensures { OnOk result (PrintsSchedule (config_of settings (length programs.items)) programs.items schedule.now (W.contents out.old) (W.contents out.new)) }
{
    step_opened(
        alloc,
        Opening::Configured,
        programs,
        schedule,
        settings,
        out,
    )
}

/// The same, of nodes that begin so: by the manager that the settings name, or by steady hints [1, 2, 17, 19, 20].
pub fn step_opened<W: Write>(
    alloc: Global,
    opening: Opening,
    programs: Vec<Program<Global>>,
    schedule: &str,
    settings: Settings,
    out: &mut W,
) -> Result<(), Halt>
    ensures { OnOk result (PrintsScheduleBy opening (config_of settings (length programs.items)) programs.items schedule.now (W.contents out.old) (W.contents out.new)) }
{
    let moves = parse_schedule(alloc, schedule)?;
    trace(alloc, opening, programs, &moves, settings, out)
}

/// Runs programs by so many moves that the generator of a seed draws, and prints what they printed [1, 2, 17, 19].
pub fn sim<W: Write>(
    alloc: Global,
    programs: Vec<Program<Global>>,
    seed: u64,
    moves: u64,
    settings: Settings,
    out: &mut W,
) -> Result<(), Halt>
    ensures { OnOk result (PrintsDrawn (config_of settings (length programs.items)) programs.items (W.contents out.old) (W.contents out.new) seed moves) }
{
    let config = settings.config(programs.len())?;
    let mut world = World::new(alloc, config, programs)?;
    run_drawn(&config, &mut world, seed, moves)?;
    print_world(&world, out)?;
    Ok(())
}
