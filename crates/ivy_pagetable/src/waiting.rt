ghost use Rattle.std.specs.Prelude.{◌≡◌, ◌<◌, ◌≤◌, true, false, [], ◌∷◌, ◌++◌, length, nat_le, nat_lt, if◌then◌else◌};
ghost use Rattle.ivy_pagetable.specs.stated.Entries.{with_one_put_off};
ghost use Rattle.ivy_pagetable.specs.stated.EntryLimits.{most_put_off};

use crate::put_off::PutOff;
use crate::word::Word;
use arrayvec::ArrayVec;
use ivy_model::MOST_NODES;
use std::marker::Model;

/// The messages put off at one entry, at most this many.
const MOST_PUT_OFF: usize = MOST_NODES as usize;

/// A word that waits for its page, the number of its call, the messages that were put off until then, at most 32, and
/// whether a request was sent on meanwhile.
#[derive(Drop)]
pub struct Waiting {
    word: Word,
    call: u64,
    put_off: ArrayVec<PutOff, MOST_PUT_OFF>,
    sent_on: bool,
}

impl Model for Waiting {
    ghost use Rattle.ivy_pagetable.specs.stated.States.{WaitingState};
    ghost use Rattle.ivy_pagetable.specs.States.{FitsPutOff};

    ghost Value = { WaitingState };

    ghost view = { λ s. record {
      word = s.word;
      call = s.call;
      put_off = s.put_off.items;
      sent_on = s.sent_on;
    } };

    ghost invariant = { λ s. FitsPutOff (record {
      word = s.word;
      call = s.call;
      put_off = s.put_off.items;
      sent_on = s.sent_on;
    }) };
}

impl Waiting {
    /// The word of this call, and nothing put off.
    pub fn new(word: Word, call: u64) -> Waiting
        ensures { result ≡ record { word = word; call = call; put_off = []; sent_on = false } }
    {
        Waiting {
            word,
            call,
            put_off: ArrayVec::new(),
            sent_on: false,
        }
    }

    /// Whether no message more can be put off.
    pub fn is_full(&self) -> bool
        ensures { result ≡ nat_le most_put_off (length self.now.put_off) }
    {
        self.put_off.is_full()
    }

    /// Puts one message more off.
    pub fn put_off(&mut self, message: PutOff)
        requires { length self.old.put_off < most_put_off }
        ensures { self.new ≡ with_one_put_off self.old message }
    {
        self.put_off.push(message);
    }

    /// Puts one message more off where there is room, and says whether it did.
    pub(crate) fn try_put_off(&mut self, message: PutOff) -> bool
        ensures done { result ≡ nat_lt (length self.old.put_off) most_put_off }
        ensures kept { self.new ≡ if nat_lt (length self.old.put_off) most_put_off then with_one_put_off self.old message else self.old }
    {
        if self.is_full() {
            return false;
        }
        self.put_off(message);
        true
    }

    /// What was put off, in order of arrival.
    pub fn put_offs(&self) -> &[PutOff]
        ensures list { result.now ≡ self.now.put_off }
        ensures fits { length self.now.put_off ≤ most_put_off }
    {
        self.put_off.as_slice()
    }

    /// The word that waits.
    pub fn word(&self) -> Word
        ensures { result ≡ self.now.word }
    {
        self.word
    }

    /// The number of the word's call.
    pub fn call(&self) -> u64
        ensures { result ≡ self.now.call }
    {
        self.call
    }

    /// Whether a request was sent on while the word waited.
    pub fn sent_on(&self) -> bool
        ensures { result ≡ self.now.sent_on }
    {
        self.sent_on
    }

    /// From now on, a request was sent on while the word waited.
    pub fn send_on(&mut self)
        ensures { self.new ≡ record self.old { sent_on = true } }
    {
        self.sent_on = true;
    }

    /// The same word, call, messages and mark.
    pub fn copied(&self) -> Waiting
        ensures { result ≡ self.now }
    {
        let mut put_off = ArrayVec::new();
        put_off.try_extend_from_slice(&self.put_off).unwrap();
        Waiting {
            word: self.word,
            call: self.call,
            put_off,
            sent_on: self.sent_on,
        }
    }

    /// The same, for the word of a call that joins. The number stays that under which the page was asked for.
    pub fn with_word(&self, word: Word) -> Waiting
        ensures { result ≡ record self.now { word = word } }
    {
        let mut waiting = self.copied();
        waiting.word = word;
        waiting
    }
}
