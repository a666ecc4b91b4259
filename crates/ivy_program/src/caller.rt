//! Own code as a program: the calls that a node's owner makes, one at a time or a row of them together.
ghost use Rattle.std.specs.Prelude.{◌≡◌, ◌↔◌, ◌+◌, ◌-◌, ◌*◌, ◌^◌, ◌<◌, ◌≤◌, [], ◌∷◌, drop, length, slice_get, IsTrue};
ghost use Rattle.ivy_model.specs.Rows.{calls_of, numbers_in, row};

use crate::machine::Next;
use crate::story::{AfterCalls, Ahead, Alone, AtOnce, Handing, InRow, OneByOne, Together};
use ivy_model::{Call, Row, Story};
use std::marker::Model;

/// The calls that were made so far, of which none is kept but the last of those without a reply.
///
/// Contracts see the program that they are, and its state.
#[derive(Drop)]
pub(crate) struct Caller {
    made: Story<Together>,
    fetches: Story<Ahead>,
    last: Option<Call>,
    left: usize,
}

impl Model for Caller {
    ghost use Rattle.ivy_program.specs.OwnCode.{IsLastOf, awaiting};
    ghost use Rattle.ivy_program.specs.stated.InstructionSteps.{Process};

    ghost Value = { Process };

    ghost view = { λ c. awaiting c.fetches.told c.made.told c.left };

    ghost invariant = { λ c. IsLastOf c.made.told c.last c.left };
}

/// The call of the last of so many words in a row from `addr` on, whose bytes these are; none of no words.
fn last_call(kind: Row, addr: u64, words: usize, bytes: &[u8]) -> Option<Call>
    requires within { 8 * words ≤ length bytes.now }
    requires small { addr + 8 * words < 2 ^ 64 }
    ensures { result ≡ slice_get (calls_of (row kind 0 addr (numbers_in words bytes.now))) (words - 1) }
{
    match kind.last(0, addr, words, bytes) {
        Some(record) => Some(record.call),
        None => None,
    }
}

impl Caller {
    ghost use Rattle.ivy_program.specs.Calls.{NamesWidth};
    ghost use Rattle.ivy_program.specs.OwnCode.{AsksNext, LacksReplies, Rests, asking, process_ahead, process_handed};
    ghost use Rattle.std.specs.Prelude.{List, None, ◌++◌};
    ghost use Rattle.ivy_model.specs.declared.Call.{Call};
    ghost use Rattle.ivy_program.specs.stated.Programs.{Called, HandedFetch};
    ghost use Rattle.ivy_program.specs.Programs.{IsCalled, one_by_one};
    ghost use Rattle.ivy_program.specs.stated.States.{first_state};
    ghost use Rattle.ivy_program.specs.InstructionSteps.{AsksMany, IsAsking, HasEnded, TellsStep, answered_all};
    ghost use Rattle.ivy_program.specs.stated.InstructionSteps.{along_of, answered_with};
    ghost use Rattle.ivy_model.specs.stated.Legal.{HasWidth};
    ghost use Rattle.ivy_model.specs.declared.Reply.{Reply};

    /// No call was made.
    pub(crate) fn new() -> Caller
        ensures { result ≡ record { program = Called [] []; state = first_state } }
    {
        Caller {
            made: Story::new(),
            fetches: Story::new(),
            last: None,
            left: 0,
        }
    }

    #[tactic(auto, using(crate::proofs::running::Awaited::ended_none, crate::proofs::running::Awaited::is_there, crate::proofs::running::Awaited::asks_last, crate::proofs::running::Awaited::last_wide))]
    /// The call that has no reply yet, if there is one: the last of those that were made together.
    pub(crate) fn next(&self) -> Next
        requires alone { along_of self.now ≡ [] }
        ensures step { TellsStep result self.now self.now }
        ensures call { NamesWidth result }
    {
        if self.left == 0 {
            return Next::Ended;
        }
        match self.last {
            Some(call) => Next::Call(call),
            None => unreachable!(),
        }
    }

    #[tactic(auto, using(crate::proofs::running::Awaited::some_left, crate::proofs::running::Awaited::inside, crate::proofs::running::Awaited::along_fewer, crate::proofs::running::Awaited::answered_one, crate::proofs::running::Awaited::fewer_left))]
    /// The first call without a reply has one.
    pub(crate) fn answer(&mut self)
        requires { IsAsking self.old }
        ensures answered { (reply : Reply) → self.new ≡ answered_with self.old reply }
        ensures along { along_of self.new ≡ drop 1 (along_of self.old) }
    {
        self.left -= 1;
    }

    #[tactic(auto, using(crate::proofs::running::Awaited::asked_left, crate::proofs::running::Awaited::answered_row, crate::proofs::running::Awaited::fewer_left))]
    /// The first so many calls without a reply have one.
    pub(crate) fn answer_row(&mut self, words: usize)
        requires { AsksMany self.old words }
        ensures own { IsCalled self.new.program }
        ensures answered { (replies : List Reply) → length replies ≡ words → self.new ≡ answered_all self.old replies }
        ensures along { along_of self.new ≡ drop words (along_of self.old) }
    {
        self.left -= words;
    }

    #[tactic(auto, using(crate::proofs::running::Awaited::ended_none, crate::proofs::running::Awaited::none_left))]
    /// Whether each call has its reply.
    pub(crate) fn ended(&self) -> bool
        ensures { IsTrue result ↔ HasEnded self.now }
    {
        self.left == 0
    }

    #[tactic(auto, using(crate::proofs::running::Awaited::ended_none, crate::proofs::running::Awaited::none_left, crate::proofs::running::Awaited::rests_none))]
    /// Whether each call has its reply, so that the owner may make one.
    pub(crate) fn is_free(&self) -> bool
        ensures ended { IsTrue result ↔ HasEnded self.now }
        ensures next { IsTrue result → AsksNext self.now }
        ensures rests { IsTrue result → Rests self.now }
    {
        self.left == 0
    }

    /// How many calls have no reply yet.
    pub(crate) fn left(&self) -> usize
        ensures { LacksReplies result self.now }
    {
        self.left
    }

    #[tactic(auto, using(crate::proofs::running::Awaited::alone_left, crate::proofs::running::Awaited::left_alone))]
    /// Whether no other call without a reply was made along with the next one.
    pub(crate) fn is_alone(&self) -> bool
        ensures { IsTrue result ↔ (along_of self.now ≡ []) }
    {
        self.left <= 1
    }

    /// Nothing is printed.
    pub(crate) fn output(&self) -> &[u64]
        ensures { result.now ≡ self.now.state.output }
    {
        // for the proof: the process that it is printed nothing.
        let _ = &self.left;
        &[]
    }

    #[tactic(auto, using(crate::proofs::running::Awaited::none_left, crate::proofs::running::Awaited::handed_together, crate::proofs::running::Awaited::ends_together))]
    /// One more call is made.
    pub(crate) fn hand(&mut self, call: Call)
        requires free { HasEnded self.old }
        requires width { HasWidth call }
        ensures { self.new ≡ process_handed ((call ∷ []) ∷ []) self.old }
    {
        self.made.append::<Call, Alone>(&call);
        self.last = Some(call);
        self.left = 1;
    }

    /// A page is to be fetched ahead, to read or to write.
    pub(crate) fn hand_fetch(&mut self, page: u32, write: bool)
        ensures { self.new ≡ process_ahead page write self.old }
    {
        let ahead = AfterCalls {
            page,
            write,
            made: &self.made,
        };
        self.fetches.append::<AfterCalls<'_>, Handing>(&ahead);
    }

    #[tactic(auto, using(crate::proofs::running::Awaited::none_left, crate::proofs::running::Awaited::none_last))]
    /// One more call is made, and has its reply at once.
    pub(crate) fn hand_answered(&mut self, call: Call)
        requires free { HasEnded self.old }
        requires width { HasWidth call }
        ensures { (reply : Reply) → self.new ≡ answered_with (process_handed ((call ∷ []) ∷ []) self.old) reply }
    {
        self.made.append::<Call, Alone>(&call);
    }

    #[tactic(auto, using(crate::proofs::running::Awaited::none_left, crate::proofs::running::Awaited::none_last, crate::proofs::running::Awaited::handed_rows))]
    /// One more call is made for each of so many words in a row from `addr` on, whose bytes these are, and has its reply at
    /// once.
    pub(crate) fn hand_row(&mut self, kind: Row, addr: u64, words: usize, bytes: &[u8])
        requires free { HasEnded self.old }
        ensures own { IsCalled self.new.program }
        ensures answered { (fetches : List HandedFetch) (rows : List (List Call)) → self.old ≡ asking fetches rows None → self.new ≡ asking fetches (rows ++ one_by_one (calls_of (row kind 0 addr (numbers_in words bytes.now)))) None }
    {
        let row = InRow {
            kind,
            addr,
            words,
            bytes,
        };
        self.made.append::<InRow<'_>, OneByOne>(&row);
    }

    #[tactic(auto, using(crate::proofs::running::Awaited::none_left, crate::proofs::running::Awaited::handed_together, crate::proofs::running::Awaited::ends_together, crate::proofs::running::Awaited::row_long, crate::proofs::running::Awaited::row_wide))]
    /// A call is made for each of so many words in a row from `addr` on, whose bytes these are, all of them together.
    pub(crate) fn hand_together(&mut self, kind: Row, addr: u64, words: usize, bytes: &[u8])
        requires free { HasEnded self.old }
        requires within { 8 * words ≤ length bytes.now }
        requires small { addr + 8 * words < 2 ^ 64 }
        ensures { self.new ≡ process_handed (calls_of (row kind 0 addr (numbers_in words bytes.now)) ∷ []) self.old }
    {
        let row = InRow {
            kind,
            addr,
            words,
            bytes,
        };
        self.made.append::<InRow<'_>, AtOnce>(&row);
        self.last = last_call(kind, addr, words, bytes);
        self.left = words;
    }
}
