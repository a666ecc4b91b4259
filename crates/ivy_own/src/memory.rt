//! The memory of a session as the worker of one node has it.
ghost use Rattle.std.specs.Prelude.{◌≡◌, ◌*◌, ◌≤◌, Some, IfErr, MatchResult, length};
ghost use Rattle.ivy_model.specs.stated.Legal.{HasWidth};
ghost use Rattle.ivy_model.specs.Rows.{numbers_in};
ghost use Rattle.ivy_calls.specs.BlockAnswers.{in_row};
ghost use Rattle.ivy_workers.specs.Stops.{IsStop};
ghost use Rattle.ivy_own.specs.OwnSeats.{grown, grown_by};

use crate::owned::OwnSeat;
use crate::tie::Side;
use crate::{Half, Naming};
use ivy_calls::{Answer, SharedMemory};
use ivy_model::{Call, Fault, Reply, Row};
use ivy_workers::{ProgramWorker, Turnstile};
use std::alloc::Allocator;
use std::marker::Model;
use std::sync::Wait;

/// How often who waits for a word looks at it before it rests between two looks.
const LOOKS: u64 = 32;

/// The memory of a session as the worker of one node has it. It keeps no record.
///
/// Contracts see the node's number, and what it was answered.
#[derive(Drop)]
pub(crate) struct OwnMemory<'r, 's, 'g, 'a, 't, T, J: Naming, A: Allocator, R, G> {
    worker: ProgramWorker<'r, 's, 'g, 'a, T, A, R, G>,
    side: Side<'t, J, A>,
}

impl<'r, 's, 'g, 'a, 't, T, J: Naming, A: Allocator, R, G> Model
    for OwnMemory<'r, 's, 'g, 'a, 't, T, J, A, R, G> {
    ghost use Rattle.ivy_own.specs.Known.{Listed};
    ghost use Rattle.ivy_calls.specs.declared.answer.Answer.{Answer};

    ghost Value = { Listed Answer };

    ghost view = { λ m. m.side };
}

impl<'r, 's, 'g, 'a, 't, T, J, A, R, G> OwnMemory<'r, 's, 'g, 'a, 't, T, J, A, R, G>
where
    T: OwnSeat<J, A>,
    J: Naming,
    A: Allocator + Copy,
    R: Wait,
    G: Turnstile,
{
    /// The memory of a node, by its worker, with the worker's side of the list of its answers.
    pub(crate) fn new(
        worker: ProgramWorker<'r, 's, 'g, 'a, T, A, R, G>,
        side: Side<'t, J, A>,
    ) -> Self
        ensures { result ≡ side.entry }
    {
        OwnMemory { worker, side }
    }

    /// The worker's half of the list.
    pub(crate) fn into_mine(self) -> Half<Answer, J>
        ensures { result ≡ self.entry }
    {
        let OwnMemory { worker: _, side } = self;
        side.into_mine()
    }

    /// The number of the node.
    pub(crate) fn me(&self) -> u8
        ensures { result ≡ self.now.number }
    {
        self.side.me()
    }

    /// The first turn for a call [1, 17, 21]. It gives the reply, where that is there then.
    #[inline(always)]
    fn begin(&mut self, call: Call) -> Result<Option<Reply>, Fault>
        requires { HasWidth call }
        ensures grows { MatchResult result (λ reply. self.new ≡ grown call reply self.old) (λ _. self.new ≡ self.old) }
        ensures stop { IfErr result IsStop }
    {
        let Some(mut seat) = self.worker.enter() else {
            return Err(Fault::TurnLimit);
        };
        let came = seat.begin(&mut self.side, call);
        self.worker.leave(seat, matches!(came, Ok(None)));
        came
    }

    /// A later turn for the call [1, 17, 21]. It gives the reply, where that is there then.
    fn go_on(&mut self, call: Call) -> Result<Option<Reply>, Fault>
        ensures grows { MatchResult result (λ reply. self.new ≡ grown call reply self.old) (λ _. self.new ≡ self.old) }
        ensures stop { IfErr result IsStop }
    {
        let Some(mut seat) = self.worker.enter() else {
            return Err(Fault::TurnLimit);
        };
        let came = seat.go_on(&mut self.side, call);
        self.worker.leave(seat, matches!(came, Ok(None)));
        came
    }

    /// Rests and makes turns until the call has its reply [1, 17, 21].
    fn wait_for(&mut self, call: Call) -> Result<Reply, Fault>
        ensures grows { MatchResult result (λ reply. self.new ≡ grown call (Some reply) self.old) (λ _. self.new ≡ self.old) }
        ensures stop { IfErr result IsStop }
    {
        for _ in 0..u64::MAX {
            self.worker.rest();
            let came = self.go_on(call)?;
            if let Some(reply) = came {
                return Ok(reply);
            }
        }
        Err(Fault::TurnLimit)
    }

    /// Rests until the loads in a row from `addr` on have their replies, and takes them. None where the session stops, which
    /// the next call tells.
    fn wait_for_loads(&mut self, addr: u64, into: &mut [u8]) -> usize
        ensures grows { self.new ≡ grown_by (in_row Row.Loads addr (numbers_in result into.new)) self.old }
        ensures fits { 8 * result ≤ length into.old }
        ensures sized { length into.new ≡ length into.old }
    {
        for _ in 0..u64::MAX {
            self.worker.rest();
            let Some(mut seat) = self.worker.enter() else {
                return 0;
            };
            let words = seat.take_loads(&mut self.side, addr, into);
            self.worker.leave(seat, words == 0);
            if words > 0 {
                return words;
            }
        }
        0
    }

    /// Rests until the stores of these bytes in a row from `addr` on have their replies, and takes them. None where the
    /// session stops, which the next call tells.
    fn wait_for_stores(&mut self, addr: u64, from: &[u8]) -> usize
        ensures grows { self.new ≡ grown_by (in_row Row.Stores addr (numbers_in result from.now)) self.old }
        ensures fits { 8 * result ≤ length from.now }
    {
        for _ in 0..u64::MAX {
            self.worker.rest();
            let Some(mut seat) = self.worker.enter() else {
                return 0;
            };
            let words = seat.take_stores(&mut self.side, addr, from);
            self.worker.leave(seat, words == 0);
            if words > 0 {
                return words;
            }
        }
        0
    }
}

impl<'r, 's, 'g, 'a, 't, T, J, A, R, G> SharedMemory
    for OwnMemory<'r, 's, 'g, 'a, 't, T, J, A, R, G>
where
    T: OwnSeat<J, A>,
    J: Naming,
    A: Allocator + Copy,
    R: Wait,
    G: Turnstile,
{
    ghost use Rattle.ivy_workers.specs.Stops.{IsStop};

    ghost answers = { λ m. m.list };

    ghost can_fail = { λ _ fault. IsStop fault };

    #[inline(always)]
    fn call(&mut self, call: Call) -> Result<Reply, Fault> {
        let came = self.begin(call)?;
        match came {
            Some(reply) => Ok(reply),
            None => self.wait_for(call),
        }
    }

    #[inline(always)]
    fn load_row(&mut self, addr: u64, into: &mut [u8]) -> usize {
        let Some(mut seat) = self.worker.enter() else {
            return 0;
        };
        let words = seat.load_row(&mut self.side, addr, into);
        let waits = words == 0 && seat.call_row(self.side.me(), Row::Loads, addr, into);
        self.worker.leave(seat, waits);
        if waits {
            return self.wait_for_loads(addr, into);
        }
        words
    }

    #[inline(always)]
    fn store_row(&mut self, addr: u64, from: &[u8]) -> usize {
        let Some(mut seat) = self.worker.enter() else {
            return 0;
        };
        let words = seat.store_row(&mut self.side, addr, from);
        let waits = words == 0 && seat.call_row(self.side.me(), Row::Stores, addr, from);
        self.worker.leave(seat, waits);
        if waits {
            return self.wait_for_stores(addr, from);
        }
        words
    }

    /// The node has a turn, in which it asks for the page where it may.
    fn fetch_ahead(&mut self, addr: u64, write: bool) {
        let Some(mut seat) = self.worker.enter() else {
            return;
        };
        seat.fetch_ahead(self.side.me(), addr, write);
        self.worker.leave(seat, false);
    }

    /// Who waits for a word rests until its node has served a frame, as one may change the word, or for a while.
    fn rest(&mut self, looks: u64) {
        if looks >= LOOKS {
            self.worker.rest();
        }
    }
}
