//! The memory of a play as the work of one node has it.
ghost use Rattle.std.specs.Prelude.{◌≡◌, ◌+◌, ◌*◌, ◌^◌, ◌<◌, ◌≤◌, ◌++◌, ◌∷◌, [], false, length, vec_capacity, vec_len, IfErr, IfOk, IfSome, IsTrue};
ghost use Rattle.ivy_model.specs.stated.Legal.{HasWidth};
ghost use Rattle.ivy_model.specs.Rows.{numbers_in};
ghost use Rattle.ivy_calls.specs.BlockAnswers.{in_row};
ghost use Rattle.ivy_play.specs.Faults.{IsUnanswered};

use crate::driver::Play;
use crate::handed::Handed;
use crate::source::MoveSource;
use crate::stage::Setting;
use crate::together::{HandedRow, RowCalls};
use ivy_calls::{Answer, SharedMemory};
use ivy_model::{Call, Fault, Reply, Row};
use std::alloc::Allocator;
use std::sync::Wait;

/// Puts the number into the first 8 bytes, the highest first.
fn put_number(into: &mut [u8], number: u64)
    requires word { 8 ≤ length into.old }
    ensures number { numbers_in 1 into.new ≡ number ∷ [] }
    ensures sized { length into.new ≡ length into.old }
{
    into[..8].copy_from_slice(&number.to_be_bytes());
}

/// The memory of a play as the work of one node has it. It lists what it answered.
#[derive(Drop)]
pub(crate) struct NodeMemory<'p, 'r, 's, 'b, S: Setting, A: Allocator, M: MoveSource, R> {
    play: &'p Play<'r, 's, 'b, S, A, M, R>,
    me: u8,
    answers: Vec<Answer, A>,
    /// Whether a call was not answered.
    is_cut: bool,
}

impl<'p, 'r, 's, 'b, S, A, M, R> NodeMemory<'p, 'r, 's, 'b, S, A, M, R>
where
    S: Setting,
    A: Allocator + Copy,
    M: MoveSource + Drop,
    R: Wait,
{
    /// The memory of a node, which has answered nothing.
    pub(crate) fn new(play: &'p Play<'r, 's, 'b, S, A, M, R>, me: u8) -> Self
        ensures { result.answers.items ≡ [] }
    {
        NodeMemory {
            play,
            me,
            answers: Vec::new(play.alloc),
            is_cut: false,
        }
    }

    /// Whether a call was not answered.
    pub(crate) fn is_cut(&self) -> bool {
        self.is_cut
    }

    /// What was answered.
    pub(crate) fn into_answers(self) -> Vec<Answer, A>
        ensures { result ≡ self.entry.answers }
    {
        let NodeMemory {
            play: _,
            me: _,
            answers,
            is_cut: _,
        } = self;
        answers
    }

    /// Makes this call, which the next turn of the node begins [1, 21].
    fn hand(&self, call: Call) -> Result<Handed, Fault>
        requires { HasWidth call }
        ensures own { IfOk result (λ handed. handed.call ≡ call) }
        ensures unanswered { IfErr result IsUnanswered }
    {
        if self.play.baton.is_over() {
            return Err(Fault::TurnLimit);
        }
        self.play.stage.lock(self.play.rt).hand(self.me, call)
    }

    /// The reply to the call that was made last, where it has one [21].
    fn take(&self, call: Call) -> Result<Reply, Fault>
        ensures { IfErr result IsUnanswered }
    {
        let number = self.answers.len();
        let reply = self
            .play
            .stage
            .lock(self.play.rt)
            .reply(self.me, number, call);
        reply.ok_or(Fault::TurnLimit)
    }

    /// Makes the call, and waits until it has its reply [1, 21].
    fn ask(&self, call: Call) -> Result<Reply, Fault>
        requires { HasWidth call }
        ensures { IfErr result IsUnanswered }
    {
        let handed = self.hand(call)?;
        self.play.baton.give_back();
        self.play.baton.wait(self.play.rt, self.me);
        self.take(handed.call())
    }

    /// Makes calls of a row with no other move between, where it can.
    fn call_row<'w>(&self, kind: Row, addr: u64, bytes: &'w [u8]) -> Option<HandedRow<'w>>
        ensures own { IfSome result (λ handed. (handed.asked.node ≡ self.now.me) × (handed.asked.kind ≡ kind) × (handed.asked.addr ≡ addr) × (handed.asked.bytes.now ≡ bytes.now)) }
        ensures fits { IfSome result (λ handed. 8 * handed.calls ≤ length bytes.now) }
    {
        if self.play.baton.is_over() {
            return None;
        }
        let asked = RowCalls {
            node: u64::from(self.me),
            kind,
            addr,
            bytes,
        };
        match self.play.stage.lock(self.play.rt).call_row(asked) {
            Ok(handed) => handed,
            // the call of the first word alone tells why
            Err(_) => None,
        }
    }

    /// Makes calls of a row with no other move between, and waits until they have their replies, and the node has its next
    /// turn. It says how many, for whose answers there is room.
    fn ask_row(&mut self, kind: Row, addr: u64, bytes: &[u8]) -> usize
        ensures fits { 8 * result ≤ length bytes.now }
        ensures below { addr + 8 * result < 2 ^ 64 }
        ensures room { vec_len self.new.answers + result ≤ vec_capacity self.new.answers }
        ensures same { self.new.answers.items ≡ self.old.answers.items }
    {
        if addr.checked_add(bytes.len() as u64).is_none() {
            return 0;
        }
        if self.answers.reserve(bytes.len() / 8).is_err() {
            return 0;
        }
        let calls = match self.call_row(kind, addr, bytes) {
            Some(handed) => handed.calls(),
            None => 0,
        };
        if calls > 0 {
            self.play.baton.give_back();
            self.play.baton.wait(self.play.rt, self.me);
        }
        calls
    }

    /// Takes the reply to the load of the word at `addr` into the first 8 bytes, where it has one. It says whether it has.
    fn take_load(&mut self, addr: u64, into: &mut [u8]) -> bool
        requires word { 8 ≤ length into.old }
        requires room { vec_len self.old.answers < vec_capacity self.old.answers }
        ensures taken { IsTrue result → self.new.answers.items ≡ self.old.answers.items ++ in_row Row.Loads addr (numbers_in 1 into.new) }
        ensures missing { result ≡ false → self.new.answers.items ≡ self.old.answers.items }
        ensures longer { IsTrue result → vec_len self.new.answers ≡ vec_len self.old.answers + 1 }
        ensures room { vec_capacity self.new.answers ≡ vec_capacity self.old.answers }
        ensures sized { length into.new ≡ length into.old }
    {
        let call = Call::Load { width: 8, addr };
        let Ok(Reply::Value(number)) = self.take(call) else {
            return false;
        };
        put_number(into, number);
        self.answers.push_reserved(Answer {
            call,
            reply: Reply::Value(number),
        });
        true
    }

    /// Takes the reply to the store of the first 8 bytes at `addr`, where it has one. It says whether it has.
    fn take_store(&mut self, addr: u64, from: &[u8]) -> bool
        requires word { 8 ≤ length from.now }
        requires below { addr + 8 < 2 ^ 64 }
        requires room { vec_len self.old.answers < vec_capacity self.old.answers }
        ensures taken { IsTrue result → self.new.answers.items ≡ self.old.answers.items ++ in_row Row.Stores addr (numbers_in 1 from.now) }
        ensures missing { result ≡ false → self.new.answers.items ≡ self.old.answers.items }
        ensures longer { IsTrue result → vec_len self.new.answers ≡ vec_len self.old.answers + 1 }
        ensures room { vec_capacity self.new.answers ≡ vec_capacity self.old.answers }
    {
        let Some(record) = Row::Stores.last(0, addr, 1, from) else {
            return false;
        };
        if self.take(record.call) != Ok(record.reply) {
            return false;
        }
        self.answers.push_reserved(Answer {
            call: record.call,
            reply: record.reply,
        });
        true
    }

    /// Takes the replies to so many loads in a row from `addr` on, up to the first that has none. It says how many.
    fn take_loads(&mut self, addr: u64, calls: usize, into: &mut [u8]) -> usize
        requires fits { 8 * calls ≤ length into.old }
        requires below { addr + 8 * calls < 2 ^ 64 }
        requires room { vec_len self.old.answers + calls ≤ vec_capacity self.old.answers }
        ensures answered { self.new.answers.items ≡ self.old.answers.items ++ in_row Row.Loads addr (numbers_in result into.new) }
        ensures few { result ≤ calls }
        ensures sized { length into.new ≡ length into.old }
    {
        for word in 0..calls {
            let at = 8 * word;
            if !self.take_load(addr + at as u64, &mut into[at..at + 8]) {
                return word;
            }
        }
        calls
    }

    /// Takes the replies to so many stores in a row from `addr` on, up to the first that has none. It says how many.
    fn take_stores(&mut self, addr: u64, calls: usize, from: &[u8]) -> usize
        requires fits { 8 * calls ≤ length from.now }
        requires below { addr + 8 * calls < 2 ^ 64 }
        requires room { vec_len self.old.answers + calls ≤ vec_capacity self.old.answers }
        ensures answered { self.new.answers.items ≡ self.old.answers.items ++ in_row Row.Stores addr (numbers_in result from.now) }
        ensures few { result ≤ calls }
    {
        for word in 0..calls {
            let at = 8 * word;
            if !self.take_store(addr + at as u64, &from[at..at + 8]) {
                return word;
            }
        }
        calls
    }
}

impl<'p, 'r, 's, 'b, S, A, M, R> SharedMemory for NodeMemory<'p, 'r, 's, 'b, S, A, M, R>
where
    S: Setting,
    A: Allocator + Copy,
    M: MoveSource + Drop,
    R: Wait,
{
    ghost use Rattle.ivy_play.specs.Faults.{IsUnanswered};

    ghost answers = { λ m. m.answers.items };

    ghost can_fail = { λ _ fault. IsUnanswered fault };

    fn call(&mut self, call: Call) -> Result<Reply, Fault> {
        self.answers.reserve(1)?;
        match self.ask(call) {
            Ok(reply) => {
                self.answers.push_reserved(Answer { call, reply });
                Ok(reply)
            }
            Err(fault) => {
                // a call that found no memory was not made
                if fault != Fault::Memory {
                    self.is_cut = true;
                }
                Err(fault)
            }
        }
    }

    fn load_row(&mut self, addr: u64, into: &mut [u8]) -> usize {
        let calls = self.ask_row(Row::Loads, addr, into);
        let taken = self.take_loads(addr, calls, into);
        if taken < calls {
            self.is_cut = true;
        }
        taken
    }

    fn store_row(&mut self, addr: u64, from: &[u8]) -> usize {
        let calls = self.ask_row(Row::Stores, addr, from);
        let taken = self.take_stores(addr, calls, from);
        if taken < calls {
            self.is_cut = true;
        }
        taken
    }
}
