//! A work that notes where it has ended.
use crate::noted::EndSeat;
use ivy_calls::{SharedMemory, Work};
use ivy_model::Fault;
use std::sync::{Mutex, Wait};

/// A work that notes at the place of its node where it has ended.
#[derive(Drop)]
pub(crate) struct Noting<'w, 's, 'r, W, T, R> {
    pub(crate) work: &'w W,
    pub(crate) seats: &'s [Mutex<T>],
    pub(crate) rt: &'r R,
}

impl<'w, 's, 'r, W: Work, T: EndSeat, R: Wait> Work for Noting<'w, 's, 'r, W, T, R> {
    type Out = W::Out;

    ghost done = { λ p. W.done p.work.now };

    ghost gives_up = { λ p. W.gives_up p.work.now };

    fn work<M: SharedMemory>(&self, me: u8, memory: &mut M) -> Result<W::Out, Fault> {
        let out = self.work.work(me, memory)?;
        if let Some(seat) = self.seats.get(usize::from(me)) {
            seat.lock(self.rt).end();
        }
        Ok(out)
    }
}
