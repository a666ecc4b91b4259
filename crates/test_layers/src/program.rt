//! The texts of programs, and the machine that carries one out.
ghost use Rattle.ivy_program.specs.Programs.{IsWritten};

use crate::common::{expect_items, expect_same, expect_same_at};
use ivy_model::{Call, Fault, Reply};
use ivy_program::{
    Instruction, Machine, Next, Operation, Program, Register, Width, parse, parse_number, words_of,
};
use std::alloc::{Allocator, Global};
use std::process::Abort;
use test_support::Failing;

/// The programs of a text, or its fault. Of all that is promised of them, callers need nothing.
fn read<A: Allocator + Copy>(alloc: A, text: &str) -> Result<Vec<Program<A>, A>, Fault> {
    parse(alloc, text)
}

/// The line at fault, or 0 where the text is in order.
fn line_at_fault(rt: &impl AllocGlobal, text: &str) -> u64 {
    match read(rt.alloc(), text).err() {
        Some(Fault::ProgramFault(line)) => line,
        _ => 0,
    }
}

/// That each of these texts has its line at fault, or is in order where that is 0.
fn expect_faults(rt: &(impl Abort + AllocGlobal), rows: &[(&str, u64)]) {
    for &(text, line) in rows {
        expect_same_at(rt, text, line_at_fault(rt, text), line);
    }
}

#[test]
fn bad_program_text(rt: HostRuntime) {
    let rows = [
        ("node 0\nset r16 1\n", 2),
        ("set r1 1\nnode 0\n", 1),
        ("node 1\n", 1),
        ("node 0\nnode 0\n", 2),
        ("node 0\nbogus\nprint r16\n", 2),
        ("node 0\n\n# a comment\nprint\n", 4),
        ("node 0\nprint r1 r2", 2),
        ("node 0\nset r1 18446744073709551616", 2),
        ("node 0\nset r1 000000000000000000001", 2),
        ("node 0\nset r1 +1", 2),
        ("node 0\nprint r1\r", 2),
        ("node 0\nprint r1\r\r\n", 2),
        ("node 0\nprint\u{b}r1", 2),
        ("node 0\nstop r1", 2),
        ("node 0\nmov r1", 2),
        ("node 0\nadd r1 r2 16", 2),
        ("node 0\nprint r01", 2),
        ("node 0\nstatus 1", 2),
    ];
    expect_faults(&rt, &rows);
}

/// The text of a program that has this line alone.
fn after_node(rt: &(impl Abort + AllocGlobal), line: &str) -> String {
    format!(in rt.alloc(); "node 0\n{line}\n").expect(rt, "memory")
}

/// That a program that has one of these lines alone is at fault there.
fn expect_at_fault(rt: &(impl Abort + AllocGlobal), lines: &[&str]) {
    for line in lines {
        expect_same_at(rt, line, line_at_fault(rt, &after_node(rt, line)), 2);
    }
}

/// A line of a call has all its words and no more, and each is a register, but for the width.
#[test]
fn calls_at_fault(rt: HostRuntime) {
    let lines = [
        "load 3 r1 r2",
        "load r1 r2",
        "store 3 r1 r2",
        "store 8 r1",
        "swap 3 r1 r2 r3",
        "swap 8 r1 r2",
        "swap 8 r16 r2 r3",
        "swap 8 r1 64 r3",
        "swap 8 r1 r2 16",
        "swap r1 r2 r3",
        "cas 3 r1 r2 r3 r4",
        "cas 8 r1 r2 r3",
        "cas 8 r16 r2 r3 r4",
        "cas 8 r1 64 r3 r4",
        "cas 8 r1 r2 3 r4",
        "cas 8 r1 r2 r3 4",
        "cas 8 r1 r2 r3 r4 r5",
        "fadd 3 r1 r2 r3",
        "fadd 8 r1 r2",
        "fadd 8 r1 64 r3",
        "fadd 8 r1 r2 3",
        "fadd 8 r1 r2 r3 r4",
        "count r1",
        "count r16 r2",
        "count r1 16",
        "count r1 r2 r3",
        "advance",
        "advance 1",
        "advance r1 r2",
        "await r1 r2",
        "await r16 r2 r3",
        "await r1 2 r3",
        "await r1 r2 3",
        "await r1 r2 r3 r4",
        "alloc",
        "alloc r1",
        "alloc r16 r2",
        "alloc r1 8",
        "alloc 8 r1 r2",
        "free",
        "free r16",
        "free 64",
        "free r1 r2",
    ];
    expect_at_fault(&rt, &lines);
}

/// Programs with a line of each kind.
const EACH_KIND: [&str; 23] = [
    "node 0",
    "label a",
    "set r1 64",
    "mov r2 r1",
    "add r3 r1 r2",
    "load 8 r4 r1",
    "store 8 r1 r2",
    "swap 8 r4 r1 r2",
    "cas 8 r4 r1 r2 r0",
    "fadd 8 r4 r1 r2",
    "count r4 r0",
    "advance r0",
    "await r4 r0 r1",
    "alloc r5 r1",
    "free r5",
    "status r6",
    "print r6",
    "jumpz r6 a",
    "jump a",
    "node 1",
    "label a",
    "jump a",
    "stop",
];

/// The line at fault where the line at this place has a word too many, or 0 where there is none.
fn fault_beside(rt: &(impl Abort + AllocGlobal), lines: &[&str], at: usize) -> u64 {
    let mut text = String::new(rt.alloc());
    for (place, line) in lines.iter().enumerate() {
        text.push_str(line).expect(rt, "memory");
        let end = if place == at { " more\n" } else { "\n" };
        text.push_str(end).expect(rt, "memory");
    }
    line_at_fault(rt, text.as_str())
}

/// That each line, and then none, has a word too many: the lines at fault are then these.
fn expect_faults_beside(rt: &(impl Abort + AllocGlobal), lines: &[&str], numbers: &[u64]) {
    expect_same(rt, numbers.len(), lines.len().saturating_add(1));
    for (at, number) in numbers.iter().enumerate() {
        expect_same_at(rt, at, fault_beside(rt, lines, at), *number);
    }
}

#[test]
fn each_line_at_fault(rt: HostRuntime) {
    let numbers = [
        1, 2, 3, 4, 5, 6, 7, 8, 9, 10, 11, 12, 13, 14, 15, 16, 17, 18, 19, 20, 21, 22, 23, 0,
    ];
    expect_faults_beside(&rt, &EACH_KIND, &numbers);
}

/// The third line jumps to a name of the next program alone, and its fault is named unless an earlier
/// line has one. A faulty `node` line starts no program, so the name is then of the same program.
#[test]
fn unknown_jump_beside_a_fault(rt: HostRuntime) {
    let lines = [
        "node 0", "print r1", "jump a", "print r1", "node 1", "label a",
    ];
    expect_faults_beside(&rt, &lines, &[1, 2, 3, 3, 5, 3, 3]);
}

/// A label has one place in its own program, and each jump goes to one.
#[test]
fn labels_at_fault(rt: HostRuntime) {
    let rows = [
        ("node 0\nlabel a\njump b\n", 3),
        ("node 0\njump b\nbogus\n", 2),
        ("node 0\njump b\nbogus\nlabel b\n", 3),
        ("node 0\nbogus\njump b\n", 2),
        ("node 0\njumpz r1 b\njump c\nlabel c\n", 2),
        ("node 0\njumpz r16 b\nlabel b\n", 2),
        ("node 0\nlabel a\nlabel b\nlabel a\n", 4),
        ("node 0\nlabel a\nnode 1\njump a\n", 4),
        ("node 0\njump a\nnode 1\nlabel a\n", 2),
        ("label a\nnode 0\n", 1),
        ("node 0\nlabel 1a\n", 2),
        ("node 0\nlabel A\n", 2),
        ("node 0\nlabel a_b\n", 2),
        ("node 0\nlabel abcdefghij1234567\n", 2),
        ("node 0\nlabel\n", 2),
        ("node 0\nlabel a b\n", 2),
        ("node 0\njump\n", 2),
        ("node 0\nlabel a\nnode 1\nlabel a\njump a\n", 0),
        ("node 0\njump abcdefghij123456\nlabel abcdefghij123456\n", 0),
    ];
    expect_faults(&rt, &rows);
}

/// The register of this number, which is below 16.
fn register(rt: &impl Abort, number: u8) -> Register {
    Register::new(number).expect(rt, "a register")
}

/// That there are as many programs as lists here, and each has the instructions of its list.
fn expect_each<A: Allocator + Copy>(
    rt: &impl Abort,
    programs: &[Program<A>],
    wanted: &[&[Instruction]],
) {
    expect_same(rt, programs.len(), wanted.len());
    for (program, lines) in programs.iter().zip(wanted) {
        expect_items(rt, program.instructions(), lines);
    }
}

/// That a text has as many programs as there are lists here, and each the instructions of its list.
fn expect_programs(rt: &(impl Abort + AllocGlobal), text: &str, wanted: &[&[Instruction]]) {
    let programs = read(rt.alloc(), text).expect(rt, text);
    expect_each(rt, &programs, wanted);
}

/// One name is a label of each of two programs, at a place of its own.
#[test]
fn labels_of_one_name(rt: HostRuntime) {
    let text = "node 0\nlabel a\njump a\nnode 1\nprint r0\njump a\nlabel a\n";
    let first = [Instruction::Jump { place: 0 }];
    let print = Instruction::Print {
        from: register(&rt, 0),
    };
    let second = [print, Instruction::Jump { place: 2 }];
    expect_programs(&rt, text, &[&first, &second]);
}

#[test]
fn texts_in_order(rt: HostRuntime) {
    expect_programs(&rt, "", &[]);
    let text =
        "# two programs\r\n\r\n \tnode 0# one\r\nset\tr15  18446744073709551615 \nnode 1\nnode 2";
    let all_ones = Instruction::Set {
        to: register(&rt, 15),
        value: u64::MAX,
    };
    expect_programs(&rt, text, &[&[all_ones], &[], &[]]);
}

#[test]
fn lines_of_calls(rt: HostRuntime) {
    let text = "node 0\ncount r1 r2\nadvance r3\nawait r4 r5 r15\nalloc r6 r7\nfree r8\n";
    let lines = [
        Instruction::Count {
            to: register(&rt, 1),
            count: register(&rt, 2),
        },
        Instruction::Advance {
            count: register(&rt, 3),
        },
        Instruction::Await {
            to: register(&rt, 4),
            count: register(&rt, 5),
            least: register(&rt, 15),
        },
        Instruction::Alloc {
            to: register(&rt, 6),
            size: register(&rt, 7),
        },
        Instruction::Free {
            addr: register(&rt, 8),
        },
    ];
    expect_programs(&rt, text, &[&lines]);
}

/// How many programs a text in order has.
fn count_of_programs(rt: &(impl Abort + AllocGlobal), text: &str) -> usize {
    read(rt.alloc(), text).expect(rt, text).len()
}

/// A text that starts so many programs.
fn nodes(rt: &(impl Abort + AllocGlobal), count: u64) -> String {
    let mut text = String::new(rt.alloc());
    for node in 0..count {
        writeln!(text, "node {node}").expect(rt, "memory");
    }
    text
}

/// A text of one program: 4,096 instructions, and the lines of `end` after them.
fn longest(rt: &(impl Abort + AllocGlobal), end: &str) -> String {
    let mut text = String::from_str(rt.alloc(), "node 0\n").expect(rt, "memory");
    for _ in 0..4096 {
        text.push_str("print r1\n").expect(rt, "memory");
    }
    text.push_str(end).expect(rt, "memory");
    text
}

#[test]
fn limits_of_a_text(rt: HostRuntime) {
    expect_same(&rt, count_of_programs(&rt, &nodes(&rt, 32)), 32);
    expect_same(&rt, line_at_fault(&rt, &nodes(&rt, 33)), 33);
    expect_same(&rt, count_of_programs(&rt, &longest(&rt, "")), 1);
    expect_same(&rt, count_of_programs(&rt, &longest(&rt, "label end\n")), 1);
    let beyond = longest(&rt, "label end\nprint r1\n");
    expect_same(&rt, line_at_fault(&rt, &beyond), 4099);
}

/// The fault of a text with its n-th growth refused, and whether it comes to so many growths.
fn fault_at(memory: &Failing<Global>, n: u64, text: &str) -> (Option<Fault>, bool) {
    memory.refuse(n);
    let fault = parse(memory, text).err();
    let met = memory.asked(n) >= n;
    memory.refuse(0);
    (fault, met)
}

/// That each refused growth of a text is want of memory, or leaves the fault that the text has of its own.
fn check_growths(rt: &(impl Abort + AllocGlobal), text: &str, own: Option<Fault>) {
    let memory = Failing::new(rt.alloc());
    let (mut refused, mut last) = (0, 0);
    for n in 1..100 {
        let (fault, met) = fault_at(&memory, n, text);
        if met && fault == Some(Fault::Memory) {
            refused = n;
        } else {
            expect_same_at(rt, n, fault, own);
        }
        last = n;
        if !met {
            break;
        }
    }
    assert!(rt; refused > 0 && last < 99);
}

/// A refused growth is want of memory. Or it changes nothing: where the words of a line are refused room
/// for all of them at once, they ask for less.
#[test]
fn growths_of_a_text(rt: HostRuntime) {
    let in_order = "node 0\nlabel a\nalloc r1 r2\njump a\nnode 1\nfree r1\n";
    check_growths(&rt, in_order, None);
    let at_fault = "node 0\njump a\nbogus\n";
    check_growths(&rt, at_fault, Some(Fault::ProgramFault(2)));
}

/// The last of some programs.
fn last_of<A: Allocator + Copy>(rt: &impl Abort, mut programs: Vec<Program<A>, A>) -> Program<A> {
    programs.pop().expect(rt, "a program")
}

/// The machine of the last program of a text.
fn machine_of(rt: &(impl Abort + AllocGlobal), text: &str) -> Machine<Global>
    ensures { IsWritten result.program }
{
    let programs = read(rt.alloc(), text).expect(rt, text);
    Machine::new(last_of(rt, programs))
}

/// That the next turn of a machine gives this call, which is then answered so.
#[tactic(auto, using(ivy_program::proofs::running::Placed::written_alone))]
fn answers(rt: &impl Abort, machine: &mut Machine<Global>, wanted: Call, reply: Reply)
    requires { IsWritten machine.old.program }
    ensures { IsWritten machine.new.program }
{
    let Ok(Next::Call(call)) = machine.next() else {
        panic!(rt; "no call");
    };
    machine.answer(reply);
    expect_same(rt, call, wanted);
}

/// The program of the first load: its call is given until it is answered, and what came is printed.
#[test]
#[tactic(auto, using(ivy_program::proofs::running::Placed::written_alone))]
fn first_load(rt: HostRuntime) {
    let mut machine = machine_of(&rt, "node 0\nnode 1\nset r1 64\nload 8 r2 r1\nprint r2\n");
    let call = Call::Load { width: 8, addr: 64 };
    expect_same(&rt, machine.next(), Ok(Next::Local));
    expect_same(&rt, machine.next(), Ok(Next::Call(call)));
    answers(&rt, &mut machine, call, Reply::Value(7));
    assert!(rt; !machine.ended());
    expect_same(&rt, machine.next(), Ok(Next::Local));
    expect_same(&rt, machine.next(), Ok(Next::Ended));
    assert!(rt; machine.ended());
    expect_items(&rt, machine.output(), &[7]);
}

/// Whether a machine has ended within 40 turns, in which it makes these calls and no others, each
/// with its reply.
#[tactic(auto, using(ivy_program::proofs::running::Placed::written_alone))]
fn answers_all(rt: &impl Abort, machine: &mut Machine<Global>, calls: &[(Call, Reply)]) -> bool
    requires { IsWritten machine.old.program }
{
    let mut left = calls.iter();
    for _ in 0..40 {
        if let Next::Call(call) = machine.next().expect(rt, "a turn") {
            let (wanted, reply) = *left.next().expect(rt, "a call too many");
            machine.answer(reply);
            expect_same(rt, call, wanted);
        }
    }
    expect_same(rt, left.next(), None);
    machine.ended()
}

/// That a program which ends within 40 turns makes these calls, each with its reply, and prints
/// these numbers.
fn plays(rt: &(impl Abort + AllocGlobal), text: &str, calls: &[(Call, Reply)], printed: &[u64]) {
    let mut machine = machine_of(rt, text);
    assert!(rt; answers_all(rt, &mut machine, calls), "{text}");
    expect_items(rt, machine.output(), printed);
}

/// A refused call keeps its register, and its number is the status until the next call.
#[test]
fn refused_load(rt: HostRuntime) {
    let text = "node 0\nstatus r3\nprint r3\nset r2 5\nload 1 r2 r1\nprint r2\nstatus r3\n\
                print r3\nload 1 r2 r1\nstatus r3\nprint r3\nprint r2";
    let load = Call::Load { width: 1, addr: 0 };
    let calls = [(load, Reply::Refused(5)), (load, Reply::Value(9))];
    plays(&rt, text, &calls, &[0, 5, 5, 0, 9]);
}

fn store(width: u8, addr: u64, value: u64) -> Call {
    Call::Store { width, addr, value }
}

/// A store names the address and the number of its two registers, and keeps every register. Its
/// status is 0 where it was carried out, else the number of its refusal.
#[test]
fn stores(rt: HostRuntime) {
    let text = "node 0\nset r1 64\nset r2 258\nstore 2 r1 r2\nstatus r3\nprint r3\n\
                store 8 r2 r1\nstatus r3\nprint r3\nprint r1\nprint r2\n\
                store 1 r1 r1\nstatus r3\nprint r3";
    let calls = [
        (store(2, 64, 258), Reply::Done),
        (store(8, 258, 64), Reply::Refused(3)),
        (store(1, 64, 64), Reply::Done),
    ];
    plays(&rt, text, &calls, &[0, 3, 64, 258, 0]);
}

fn swap(width: u8, addr: u64, value: u64) -> Call {
    Call::Swap { width, addr, value }
}

/// A swap names the address and the number of its second and third register, and the old value goes to the
/// first. A refusal leaves that.
#[test]
fn swaps(rt: HostRuntime) {
    let text = "node 0\nset r1 64\nset r2 258\nset r3 7\nswap 2 r3 r1 r2\nstatus r4\nprint r4\n\
                print r3\nswap 8 r3 r2 r1\nstatus r4\nprint r4\nprint r3\nprint r1\nprint r2\n\
                swap 1 r1 r1 r1\nprint r1";
    let calls = [
        (swap(2, 64, 258), Reply::Value(5)),
        (swap(8, 258, 64), Reply::Refused(3)),
        (swap(1, 64, 64), Reply::Value(9)),
    ];
    plays(&rt, text, &calls, &[0, 5, 3, 5, 64, 258, 9]);
}

/// A compare-and-swap names the address and the numbers of its second to fourth register, a fetch-and-add those of
/// its second and third, and the old value goes to the first. A refusal leaves that.
#[test]
fn exchanges_and_sums(rt: HostRuntime) {
    let text = "node 0\nset r1 64\nset r2 258\nset r3 7\nset r4 9\ncas 2 r5 r1 r2 r3\nstatus r6\n\
                print r6\nprint r5\ncas 8 r5 r2 r1 r4\nstatus r6\nprint r6\nprint r5\n\
                fadd 4 r5 r1 r3\nprint r5\nfadd 8 r5 r2 r4\nstatus r6\nprint r6\nprint r5";
    let cas = |width, addr, expected, value| Call::Cas {
        width,
        addr,
        expected,
        value,
    };
    let add = |width, addr, value| Call::FetchAdd { width, addr, value };
    let calls = [
        (cas(2, 64, 258, 7), Reply::Value(5)),
        (cas(8, 258, 64, 9), Reply::Refused(3)),
        (add(4, 64, 7), Reply::Value(11)),
        (add(8, 258, 9), Reply::Refused(4)),
    ];
    plays(&rt, text, &calls, &[0, 5, 3, 5, 11, 4, 11]);
}

/// Each call on a count names what its registers hold. The count goes to the first register of
/// `count` and `await`, and a refusal leaves it there.
#[test]
fn counts(rt: HostRuntime) {
    let text = "node 0\nset r1 3\nset r2 5\nadvance r1\nstatus r4\nprint r4\n\
                count r3 r1\nprint r3\nawait r3 r1 r2\nprint r3\nadvance r2\nstatus r4\n\
                print r4\ncount r3 r2\nprint r3\nawait r3 r2 r1\nstatus r4\nprint r4\nprint r3";
    let calls = [
        (Call::Advance { k: 3 }, Reply::Done),
        (Call::Count { k: 3 }, Reply::Value(1)),
        (Call::Await { k: 3, least: 5 }, Reply::Value(8)),
        (Call::Advance { k: 5 }, Reply::Refused(7)),
        (Call::Count { k: 5 }, Reply::Refused(6)),
        (Call::Await { k: 5, least: 3 }, Reply::Refused(6)),
    ];
    plays(&rt, text, &calls, &[0, 1, 8, 7, 8, 6, 8]);
}

/// `alloc` names the bytes that its second register holds, and the address goes to the first; `free`
/// names the address. A refusal keeps the register, and its number is the status until a call succeeds.
#[test]
fn blocks(rt: HostRuntime) {
    let text = "node 0\nset r1 24\nalloc r2 r1\nprint r2\nalloc r2 r3\nstatus r4\nprint r4\n\
                print r2\nfree r2\nstatus r4\nprint r4\nprint r2\nfree r2\nstatus r4\nprint r4\n\
                print r2\nalloc r2 r2\nprint r2\nstatus r4\nprint r4";
    let calls = [
        (Call::Alloc { size: 24 }, Reply::Value(72)),
        (Call::Alloc { size: 0 }, Reply::Refused(8)),
        (Call::Free { addr: 72 }, Reply::Done),
        (Call::Free { addr: 72 }, Reply::Refused(10)),
        (Call::Alloc { size: 72 }, Reply::Value(64)),
    ];
    plays(&rt, text, &calls, &[72, 8, 72, 0, 72, 10, 72, 64, 0]);
}

/// That a program which makes no call prints these numbers within so many turns. Whether it has ended then.
#[tactic(auto, using(ivy_program::proofs::running::Placed::written_alone))]
fn ends_within(rt: &(impl Abort + AllocGlobal), text: &str, turns: u64, printed: &[u64]) -> bool {
    let mut machine = machine_of(rt, text);
    for _ in 0..turns {
        machine.next().expect(rt, text);
    }
    expect_items(rt, machine.output(), printed);
    machine.ended()
}

#[test]
fn arithmetic(rt: HostRuntime) {
    let text = "node 0\nset r1 18446744073709551615\nset r2 3\nadd r3 r1 r2\nprint r3\n\
                sub r3 r2 r1\nprint r3\nsub r3 r1 r2\nprint r3\nmul r3 r1 r2\nprint r3\n\
                mul r3 r2 r2\nprint r3\nmov r4 r3\nadd r4 r4 r4\nprint r4";
    let printed = [2, 4, 18446744073709551612, 18446744073709551613, 9, 18];
    assert!(rt; ends_within(&rt, text, 15, &printed));
}

/// From 3 down to 1: back where the number is not 0, on where it is.
#[test]
fn counts_down(rt: HostRuntime) {
    let text = "node 0\nset r1 3\nset r2 1\nlabel again\njumpz r1 end\nprint r1\n\
                sub r1 r1 r2\njump again\nlabel end";
    assert!(rt; ends_within(&rt, text, 15, &[3, 2, 1]));
    assert!(rt; !ends_within(&rt, text, 14, &[3, 2, 1]));
}

#[test]
fn never_ends(rt: HostRuntime) {
    let text = "node 0\nlabel a\njump a\n";
    assert!(rt; !ends_within(&rt, text, 10000, &[]));
}

/// `stop` ends the program in the turn that carries it out, and so does a jump to the end.
#[test]
fn stops(rt: HostRuntime) {
    for text in [
        "node 0\nprint r0\nstop\nprint r0",
        "node 0\nprint r0\njump end\nprint r0\nlabel end",
        "node 0\nprint r0\njumpz r0 end\nprint r0\nlabel end",
    ] {
        assert!(rt; !ends_within(&rt, text, 1, &[0]), "{text}");
        assert!(rt; ends_within(&rt, text, 2, &[0]), "{text}");
    }
}

#[test]
fn registers(rt: HostRuntime) {
    expect_same(&rt, register(&rt, 15).number(), 15);
    expect_same(&rt, Register::new(16), None);
}

#[test]
fn operations(rt: HostRuntime) {
    expect_same(&rt, Operation::Add.apply(2, 3), 5);
    expect_same(&rt, Operation::Sub.apply(2, 3), u64::MAX);
    expect_same(&rt, Operation::Mul.apply(2, 3), 6);
}

#[test]
fn widths(rt: HostRuntime) {
    expect_same(&rt, Width::One.bytes(), 1);
    expect_same(&rt, Width::Two.bytes(), 2);
    expect_same(&rt, Width::Four.bytes(), 4);
    expect_same(&rt, Width::Eight.bytes(), 8);
}

/// That a line has these words, and no more.
fn expect_words(rt: &(impl Abort + AllocGlobal), line: &str, wanted: &[&str]) {
    let words = words_of(rt.alloc(), line).expect(rt, "memory");
    expect_items(rt, &words, wanted);
}

#[test]
fn words_of_a_line(rt: HostRuntime) {
    let line = "\tload  8 r2\tr1# a comment\r\n";
    expect_words(&rt, line, &["load", "8", "r2", "r1"]);
    expect_words(&rt, " \t# a comment\n", &[]);
}

#[test]
fn numbers(rt: HostRuntime) {
    for (word, number) in [
        ("0", Some(0)),
        ("18446744073709551615", Some(u64::MAX)),
        ("00000000000000000007", Some(7)),
        ("18446744073709551616", None),
        ("000000000000000000001", None),
        ("", None),
        ("+1", None),
        ("-1", None),
        ("1x", None),
    ] {
        expect_same_at(&rt, word, parse_number(word), number);
    }
}
