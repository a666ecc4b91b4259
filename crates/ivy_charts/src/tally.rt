//! What is counted of a node, of a page and in all.
ghost use Rattle.std.specs.Prelude.{◌≡◌, ◌<◌, length, replicate};
ghost use Rattle.ivy_charts.specs.Tallies.{numbers_of, place_of, with_more};

use ivy_wire::FrameKind;

/// How many kinds of frames there are.
const KINDS: usize = 11;

/// How many numbers a tally has.
pub const MEASURES: usize = KINDS + 6;

/// What is counted.
#[derive(Clone, Copy)]
pub enum Measure {
    /// A call waits for a copy of a page.
    ReadFault,
    /// A call waits for a page, or for copies of it to be given up.
    WriteFault,
    /// A call was answered in the turn that began it.
    Hit,
    /// A request was sent on for another node.
    Forward,
    /// A message was sent once more.
    Again,
    /// Bytes were sent.
    Bytes,
    /// A frame was sent for the first time.
    Sent(FrameKind),
}

/// How many of each measure.
#[derive(Clone, Copy)]
pub struct Tally {
    numbers: [u64; MEASURES],
}

/// The names of the measures, in the order of a tally.
static NAMES: [&str; MEASURES] = [
    "read faults",
    "write faults",
    "hits",
    "ReadReq",
    "WriteReq",
    "ReadRep",
    "WriteRep",
    "Inval",
    "InvalAck",
    "AllocReq",
    "AllocRep",
    "FreeReq",
    "FreeRep",
    "Ack",
    "forwards",
    "sent again",
    "bytes",
];

/// The place of a measure in a tally.
fn place_of(measure: Measure) -> usize
    ensures place { result ≡ place_of measure }
    ensures within { result < MEASURES }
{
    match measure {
        Measure::ReadFault => 0,
        Measure::WriteFault => 1,
        Measure::Hit => 2,
        Measure::Sent(kind) => match kind.code() {
            0 => 13,
            code => usize::from(code) + 2,
        },
        Measure::Forward => 14,
        Measure::Again => 15,
        Measure::Bytes => 16,
    }
}

impl Tally {
    /// None of each.
    pub fn zero() -> Tally
        ensures { numbers_of result ≡ replicate MEASURES 0 }
    {
        Tally {
            numbers: [0; MEASURES],
        }
    }

    /// Adds to a measure.
    pub fn add(&mut self, measure: Measure, count: u64)
        ensures { numbers_of self.new ≡ with_more (numbers_of self.old) measure count }
    {
        let place = place_of(measure);
        self.numbers[place] = self.numbers[place].saturating_add(count);
    }

    /// The numbers, in the order of their names.
    pub fn numbers(&self) -> &[u64]
        ensures { result.now ≡ numbers_of self.now }
    {
        &self.numbers
    }

    /// The names of the numbers.
    pub fn names() -> &'static [&'static str] {
        &NAMES
    }
}
