//! The example of the README.
ghost use Rattle.std.specs.Prelude.{◌≡◌, ◌∷◌, []};
ghost use Rattle.ivy_sync.specs.Doing.{draws};

use crate::sessions::common::{ROOMY, config};
use ivy_calls::fetch_add;
use ivy_model::{Fault, Kind};
use ivy_own::{Keep, OpenGate, Opening, SharedMemory, Work, run_with, run_with_opening};
use ivy_watching::run_watching_opening;
use std::test::Fail;

/// Each node draws a ticket.
struct Tickets;

impl Work for Tickets {
    ghost use Rattle.std.specs.Prelude.{◌≡◌, ◌∷◌, []};
    ghost use Rattle.ivy_sync.specs.Doing.{draws};

    type Out = u64;

    ghost done = { λ _ _ answers ticket. answers ≡ draws 256 ticket ∷ [] };

    fn work<M: SharedMemory>(&self, _me: u8, memory: &mut M) -> Result<u64, Fault> {
        Ok(fetch_add(memory, 256, 1u64)?)
    }
}

#[test]
fn each_draws_another(rt: HostRuntime) -> Result<(), Fail> {
    let nodes = config(3, Kind::Dynamic);
    let report = run_with(&rt, rt.alloc(), nodes, &Tickets, ROOMY, &OpenGate)?;
    let mut drawn = report.outs;
    drawn.sort()?;
    assert_eq!(&rt; drawn.as_slice(), [0, 1, 2].as_slice());
    Ok(())
}

/// So it is at nodes that begin with steady hints, watched or not.
#[test]
fn each_draws_another_by_steady_hints(rt: HostRuntime) -> Result<(), Fail> {
    let nodes = config(3, Kind::Dynamic);
    let report = run_with_opening(
        &rt,
        rt.alloc(),
        nodes,
        &Tickets,
        ROOMY,
        &OpenGate,
        Keep::Nothing,
        Opening::Steady,
    )?;
    let mut drawn = report.outs;
    drawn.sort()?;
    assert_eq!(&rt; drawn.as_slice(), [0, 1, 2].as_slice());
    Ok(())
}

#[test]
fn each_draws_another_watched(rt: HostRuntime) -> Result<(), Fail> {
    let nodes = config(3, Kind::Dynamic);
    let watched = run_watching_opening(
        &rt,
        rt.alloc(),
        nodes,
        &Tickets,
        ROOMY,
        &OpenGate,
        Keep::Nothing,
        Opening::Steady,
    )?;
    let Ok(report) = watched else {
        return Err("it stands still".into());
    };
    let mut drawn = report.outs;
    drawn.sort()?;
    assert_eq!(&rt; drawn.as_slice(), [0, 1, 2].as_slice());
    Ok(())
}
