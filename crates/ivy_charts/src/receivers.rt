//! Which messages each delivery brought to be served: the rule of the link, told from the strings alone.
ghost use Rattle.std.specs.Prelude.{◌≡◌, ◌≢◌, ◌<◌, ◌+◌, ◌-◌, ◌^◌, IfOk, IfSome, OnErr, OnOk};
ghost use Rattle.ivy_link.specs.declared.Verdict.TheVariants.{Next};
ghost use Rattle.ivy_charts.specs.Heard.{delivered_of, held_of, verdict_of, Follows, Serves};
ghost use Rattle.ivy_charts.specs.Noted.{Delivers, Hears, Holds, NotesTheSame};

use crate::head::RunHead;
use ivy_link::{MOST_AHEAD, Verdict};
use std::alloc::{AllocError, Global};

/// A string that came before its turn.
#[derive(Clone, Copy)]
struct Held {
    to: u64,
    source: u8,
    number: u64,
    place: usize,
}

/// How many messages of a node were delivered to another.
#[derive(Clone, Copy)]
struct Delivered {
    to: u64,
    source: u8,
    count: u64,
}

/// What came to the nodes so far.
#[derive(Drop)]
pub struct Receivers {
    delivered: Vec<Delivered>,
    held: Vec<Held>,
}

impl Receivers {
    /// Nothing came to any node yet. It takes no memory.
    pub fn new(alloc: Global) -> Receivers {
        Receivers {
            delivered: Vec::new(alloc),
            held: Vec::new(alloc),
        }
    }

    /// How many messages of a node were delivered to another.
    pub fn delivered(&self, to: u64, source: u8) -> u64
        ensures { result ≡ delivered_of self.now to source }
    {
        for pair in self.delivered.iter() {
            if pair.to == to && pair.source == source {
                return pair.count;
            }
        }
        0
    }

    /// The place of the string of the number after this one, where that is held.
    fn held_after(&self, to: u64, source: u8, number: u64) -> Option<usize>
        ensures place { result ≡ held_of self.now to source (number + 1) }
        ensures least { IfSome result (λ place. number < 2 ^ 64 - 1) }
    {
        for held in self.held.iter() {
            if held.to == to
                && held.source == source
                && held.number.checked_sub(1) == Some(number)
            {
                return Some(held.place);
            }
        }
        None
    }

    /// What a string is to the node that it comes to.
    fn verdict(&self, to: u64, head: &RunHead) -> Verdict
        ensures { result ≡ verdict_of self.now to head.now }
    {
        if u64::from(head.dest) != to {
            return Verdict::NotMine;
        }
        let count = self.delivered(to, head.source);
        if head.number <= count {
            Verdict::Repeat
        } else if head.number == count + 1 {
            Verdict::Next
        } else {
            Verdict::Ahead
        }
    }

    /// Notes how many messages of a node were delivered to another: strings of their numbers are held no more. Or nothing changes.
    fn deliver(&mut self, to: u64, source: u8, count: u64) -> Result<(), AllocError>
        ensures done { OnOk result (Delivers to source count self.old self.new) }
        ensures refused { OnErr result (NotesTheSame self.old self.new) }
    {
        self.delivered.reserve(1)?;
        self.held.retain(|held| held.to != to || held.source != source || held.number > count);
        self.delivered
            .retain(|pair| pair.to != to || pair.source != source);
        self.delivered
            .push_reserved(Delivered { to, source, count });
        Ok(())
    }

    /// Holds the string of a frame that came before its turn, where that is not too early. Or nothing changes.
    fn hold(&mut self, to: u64, place: usize, head: &RunHead) -> Result<(), AllocError>
        requires { 0 < head.now.number }
        ensures done { OnOk result (Holds to place head.now self.old self.new) }
        ensures refused { OnErr result (NotesTheSame self.old self.new) }
    {
        let count = self.delivered(to, head.source);
        let is_near = head.number.saturating_sub(count) <= MOST_AHEAD as u64;
        let before = head.number.saturating_sub(1);
        if is_near && self.held_after(to, head.source, before).is_none() {
            self.held.push(Held {
                to,
                source: head.source,
                number: head.number,
                place,
            })?;
        }
        Ok(())
    }

    /// Adds to what was served the strings that are held of the numbers after one, up to the first that is missing. It
    /// gives the last number.
    fn follow(
        &self,
        to: u64,
        source: u8,
        number: u64,
        served: &mut Vec<usize>,
    ) -> Result<u64, AllocError>
        ensures last { IfOk result (λ last. Follows self.now to source number last served.old.items served.new.items) }
    {
        let mut last = number;
        for _ in 0..MOST_AHEAD {
            let Some(place) = self.held_after(to, source, last) else {
                return Ok(last);
            };
            served.push(place)?;
            last += 1;
        }
        Ok(last)
    }

    /// The string at a place among all sent comes to a node. The messages that the node serves then are added to those
    /// served, by their places; and it is noted how many messages came to the node so far, and which strings are held.
    pub fn hear(
        &mut self,
        to: u64,
        place: usize,
        head: &RunHead,
        served: &mut Vec<usize>,
    ) -> Result<Verdict, AllocError>
        ensures verdict { IfOk result (λ verdict. verdict ≡ verdict_of self.old to head.now) }
        ensures others { IfOk result (λ verdict. verdict ≢ Next → served.new.items ≡ served.old.items) }
        ensures next { IfOk result (λ verdict. verdict ≡ Next → Serves self.old to place head.now served.old.items served.new.items) }
        ensures notes { IfOk result (λ verdict. Hears verdict to place head.now served.old.items served.new.items self.old self.new) }
        ensures refused { OnErr result (NotesTheSame self.old self.new) }
    {
        let verdict = self.verdict(to, head);
        match verdict {
            Verdict::Next => {
                served.push(place)?;
                let last = self.follow(to, head.source, head.number, served)?;
                self.deliver(to, head.source, last)?;
            }
            Verdict::Ahead => self.hold(to, place, head)?,
            Verdict::Repeat | Verdict::NotMine => {}
        }
        Ok(verdict)
    }
}
