//! What is printed of calls, replies, records and moves, of one node, and of an order.
ghost use Rattle.std.specs.Prelude.{◌≡◌, Some, OnOk, decimal, flat_map};
ghost use Rattle.std.specs.Io.KnownBytes.{Appends};
ghost use Rattle.ivy_texts.specs.Lines.{kind_text, value_line, end_line, verdict_line};
ghost use Rattle.ivy_texts.specs.Printed.{call_text, reply_text, record_text, move_text};

use itoa::Buffer;
use ivy_model::{Call, Record, Reply};
use ivy_moves::Move;
use ivy_wire::FrameKind;
use std::fmt;
use std::io::{self, Write};

/// A number in decimal.
#[derive(Clone, Copy)]
pub struct Decimal(pub u64);

/// A call as it stands in an order.
#[derive(Clone, Copy)]
pub struct CallText(pub Call);

/// A reply as it stands in an order.
#[derive(Clone, Copy)]
pub struct ReplyText(pub Reply);

/// A record as it stands in an order.
#[derive(Clone, Copy)]
pub struct RecordText(pub Record);

/// A move as it stands in a schedule.
#[derive(Clone, Copy)]
pub struct MoveText(pub Move);

impl fmt::Display for Decimal {
    ghost output = { λ d. Some (decimal d.0) };

    fn fmt<W: fmt::Write>(&self, f: &mut fmt::Formatter<W>) -> fmt::Result {
        f.write_str(Buffer::new().format(self.0))
    }
}

impl fmt::Display for CallText {
    ghost output = { λ d. Some (call_text d.0) };

    fn fmt<W: fmt::Write>(&self, f: &mut fmt::Formatter<W>) -> fmt::Result {
        match self.0 {
            Call::Load { width, addr } => {
                write!(f, "load {} {}", Decimal(u64::from(width)), Decimal(addr))
            }
            Call::Store { width, addr, value } => {
                let width = Decimal(u64::from(width));
                write!(f, "store {width} {} {}", Decimal(addr), Decimal(value))
            }
            Call::Swap { width, addr, value } => {
                let width = Decimal(u64::from(width));
                write!(f, "swap {width} {} {}", Decimal(addr), Decimal(value))
            }
            Call::Cas {
                width,
                addr,
                expected,
                value,
            } => {
                let (width, addr) = (Decimal(u64::from(width)), Decimal(addr));
                write!(
                    f,
                    "cas {width} {addr} {} {}",
                    Decimal(expected),
                    Decimal(value)
                )
            }
            Call::FetchAdd { width, addr, value } => {
                let width = Decimal(u64::from(width));
                write!(f, "fadd {width} {} {}", Decimal(addr), Decimal(value))
            }
            Call::Count { k } => write!(f, "count {}", Decimal(k)),
            Call::Advance { k } => write!(f, "advance {}", Decimal(k)),
            Call::Await { k, least } => write!(f, "await {} {}", Decimal(k), Decimal(least)),
            Call::Alloc { size } => write!(f, "alloc {}", Decimal(size)),
            Call::Free { addr } => write!(f, "free {}", Decimal(addr)),
        }
    }
}

impl fmt::Display for ReplyText {
    ghost output = { λ d. Some (reply_text d.0) };

    fn fmt<W: fmt::Write>(&self, f: &mut fmt::Formatter<W>) -> fmt::Result {
        match self.0 {
            Reply::Value(value) => write!(f, "value {}", Decimal(value)),
            Reply::Done => write!(f, "done"),
            Reply::Refused(code) => write!(f, "refused {}", Decimal(u64::from(code))),
        }
    }
}

impl fmt::Display for RecordText {
    ghost output = { λ d. Some (record_text d.0) };

    fn fmt<W: fmt::Write>(&self, f: &mut fmt::Formatter<W>) -> fmt::Result {
        let node = Decimal(u64::from(self.0.node));
        write!(
            f,
            "{node} {} = {}",
            CallText(self.0.call),
            ReplyText(self.0.reply)
        )
    }
}

impl fmt::Display for MoveText {
    ghost output = { λ d. Some (move_text d.0) };

    fn fmt<W: fmt::Write>(&self, f: &mut fmt::Formatter<W>) -> fmt::Result {
        match self.0 {
            Move::Turn(node) => write!(f, "turn {}", Decimal(node)),
            Move::Deliver { index, to } => write!(f, "deliver {} {}", Decimal(index), Decimal(to)),
            Move::Pulse { from, to } => write!(f, "pulse {} {}", Decimal(from), Decimal(to)),
        }
    }
}

/// The name of a kind of frame.
pub fn kind_name(kind: FrameKind) -> &'static str
    ensures { result.now ≡ kind_text kind }
{
    match kind {
        FrameKind::Ack => "Ack",
        FrameKind::ReadReq => "ReadReq",
        FrameKind::WriteReq => "WriteReq",
        FrameKind::ReadRep => "ReadRep",
        FrameKind::WriteRep => "WriteRep",
        FrameKind::Inval => "Inval",
        FrameKind::InvalAck => "InvalAck",
        FrameKind::AllocReq => "AllocReq",
        FrameKind::AllocRep => "AllocRep",
        FrameKind::FreeReq => "FreeReq",
        FrameKind::FreeRep => "FreeRep",
    }
}

/// Prints a line for each value that the program of a node printed.
pub fn print_output<W: Write>(node: u64, output: &[u64], out: &mut W) -> io::Result<()>
    ensures { OnOk result (Appends (W.contents out.old) (W.contents out.new) (flat_map (value_line node) output.now)) }
{
    for value in output {
        writeln!(out, "node {}: {}", Decimal(node), Decimal(*value))?;
    }
    Ok(())
}

/// Prints a line that says whether the program of a node has ended.
pub fn print_end<W: Write>(node: u64, has_ended: bool, out: &mut W) -> io::Result<()>
    ensures { OnOk result (Appends (W.contents out.old) (W.contents out.new) (end_line node has_ended)) }
{
    if has_ended {
        writeln!(out, "node {} ended", Decimal(node))
    } else {
        writeln!(out, "node {} open", Decimal(node))
    }
}

/// Prints whether an order is legal.
pub fn print_verdict<W: Write>(is_legal: bool, out: &mut W) -> io::Result<()>
    ensures { OnOk result (Appends (W.contents out.old) (W.contents out.new) (verdict_line is_legal)) }
{
    if is_legal {
        writeln!(out, "legal")
    } else {
        writeln!(out, "not legal")
    }
}
