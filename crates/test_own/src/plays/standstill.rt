//! A standstill is told with each node's call, and so is a spin, as one.
use crate::plays::common::{ENOUGH, config};
use ivy_calls::{advance_count, await_, load};
use ivy_model::{Fault, Kind};
use ivy_play::{Rest, SharedMemory, Work, play_drawn};
use std::test::Fail;

/// Node 0 waits for what nobody does, node 1 loads a word that is not there, and the others advance a count.
struct Waits;

impl Work for Waits {
    type Out = ();

    ghost done = { λ _ _ _ _. Unit {0} };

    fn work<M: SharedMemory>(&self, me: u8, memory: &mut M) -> Result<(), Fault> {
        match me {
            0 => {
                await_(memory, 3, 2)?;
            }
            1 => {
                load::<u64, M>(memory, 1_024)?;
            }
            _ => advance_count(memory, 3)?,
        }
        Ok(())
    }
}

#[test]
fn a_standstill(rt: HostRuntime) -> Result<(), Fail> {
    let report = play_drawn(
        &rt,
        rt.alloc(),
        config(3, Kind::Dynamic),
        &Waits,
        1,
        100,
        ENOUGH,
    )?;
    assert_eq!(&rt; report.rest, Rest::Still);
    assert!(&rt; report.world.nodes() == 3);
    let texts = [
        "node 0 waits: await 3 2",
        "node 1 gave up: 4 OutOfRange",
        "node 2 ended",
    ];
    for (node, wanted) in texts.into_iter().enumerate() {
        if (node as u64) < report.world.nodes() {
            let text = format!(in rt.alloc(); "{}", report.standing(node as u64))?;
            assert_eq!(&rt; text.as_str(), wanted);
        }
    }
    Ok(())
}

/// Node 0 looks at a word until somebody stores there, which nobody does.
struct Spins;

impl Work for Spins {
    type Out = ();

    ghost done = { λ _ _ _ _. Unit {0} };

    fn work<M: SharedMemory>(&self, me: u8, memory: &mut M) -> Result<(), Fault> {
        if me > 0 {
            return Ok(());
        }
        for _ in 0..u64::MAX {
            let found: u64 = load(memory, 256)?;
            if found > 0 {
                return Ok(());
            }
        }
        Ok(())
    }
}

#[test]
fn a_spin(rt: HostRuntime) -> Result<(), Fail> {
    let report = play_drawn(
        &rt,
        rt.alloc(),
        config(2, Kind::Dynamic),
        &Spins,
        1,
        100,
        200,
    )?;
    assert_eq!(&rt; report.rest, Rest::Going);
    assert!(&rt; report.world.nodes() == 2);
    let texts = ["node 0 is still going: load 8 256", "node 1 ended"];
    for (node, wanted) in texts.into_iter().enumerate() {
        if (node as u64) < report.world.nodes() {
            let text = format!(in rt.alloc(); "{}", report.standing(node as u64))?;
            assert_eq!(&rt; text.as_str(), wanted);
        }
    }
    Ok(())
}
