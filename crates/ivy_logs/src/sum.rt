//! The sum of a run, by which its logs and its nodes know each other.
ghost use Rattle.std.specs.Prelude.{◌≡◌};
ghost use Rattle.ivy_logs.specs.Sums.{config_numbers, manager_number, operation_number, sum_of_run, sum_on, sum_opened, with_instruction, with_program};
ghost use Rattle.ivy_program.specs.stated.Instructions.{bytes_in};

use ivy_model::{Config, Kind};
use ivy_program::{Instruction, Operation, Program, Register, Width};
use std::alloc::Allocator;

/// The offset and the factor of the hash FNV-1a in 64 bits (Fowler, Noll and Vo).
const OFFSET: u64 = 0xcbf2_9ce4_8422_2325;

const FACTOR: u64 = 0x0000_0100_0000_01b3;

/// The least number of 16 digits, and how many there are.
const LEAST: u64 = 1_000_000_000_000_000;

const COUNT: u64 = 9_000_000_000_000_000;

/// Numbers go into a sum, one after another.
fn add(sum: u64, numbers: &[u64]) -> u64
    ensures { result ≡ sum_on sum numbers.now }
{
    let mut total = sum;
    for number in numbers {
        total = (total ^ *number).wrapping_mul(FACTOR);
    }
    total
}

fn of(register: Register) -> u64
    ensures { result ≡ register }
{
    u64::from(register.number())
}

fn bytes(width: Width) -> u64
    ensures { result ≡ bytes_in width }
{
    u64::from(width.bytes())
}

fn number_of(operation: Operation) -> u64
    ensures { result ≡ operation_number operation }
{
    match operation {
        Operation::Add => 0,
        Operation::Sub => 1,
        Operation::Mul => 2,
    }
}

/// An instruction goes into a sum.
fn add_instruction(sum: u64, one: Instruction) -> u64
    ensures { result ≡ with_instruction sum one }
{
    match one {
        Instruction::Set { to, value } => add(sum, &[0, of(to), value]),
        Instruction::Move { to, from } => add(sum, &[1, of(to), of(from)]),
        Instruction::Compute {
            operation,
            to,
            left,
            right,
        } => add(sum, &[2, number_of(operation), of(to), of(left), of(right)]),
        Instruction::Load { width, to, addr } => add(sum, &[3, bytes(width), of(to), of(addr)]),
        Instruction::Store { width, addr, from } => add(
            sum,
            &[4, bytes(width), of(addr), of(from)],
        ),
        Instruction::Swap {
            width,
            to,
            addr,
            from,
        } => add(sum, &[5, bytes(width), of(to), of(addr), of(from)]),
        Instruction::Cas {
            width,
            to,
            addr,
            expected,
            from,
        } => add(
            sum,
            &[6, bytes(width), of(to), of(addr), of(expected), of(from)],
        ),
        Instruction::FetchAdd {
            width,
            to,
            addr,
            from,
        } => add(sum, &[7, bytes(width), of(to), of(addr), of(from)]),
        Instruction::Count { to, count } => add(sum, &[8, of(to), of(count)]),
        Instruction::Advance { count } => add(sum, &[9, of(count)]),
        Instruction::Await { to, count, least } => add(sum, &[10, of(to), of(count), of(least)]),
        Instruction::Alloc { to, size } => add(sum, &[11, of(to), of(size)]),
        Instruction::Free { addr } => add(sum, &[12, of(addr)]),
        Instruction::Status { to } => add(sum, &[13, of(to)]),
        Instruction::Print { from } => add(sum, &[14, of(from)]),
        Instruction::Jump { place } => add(sum, &[15, place as u64]),
        Instruction::JumpIfZero { from, place } => add(sum, &[16, of(from), place as u64]),
        Instruction::Stop => add(sum, &[17]),
    }
}

/// A program goes into a sum.
fn add_program<A: Allocator + Copy>(sum: u64, program: &Program<A>) -> u64
    ensures { result ≡ with_program sum program.now }
{
    let instructions = program.instructions();
    let mut total = add(sum, &[instructions.len() as u64]);
    for one in instructions {
        total = add_instruction(total, *one);
    }
    total
}

/// The sum of a configuration and the programs under it, which has 16 digits. It takes no memory.
pub fn sum_of_run<A: Allocator + Copy>(config: &Config, programs: &[Program<A>]) -> u64
    ensures { result ≡ sum_of_run config.now programs.now }
{
    sum_opened(false, config, programs)
}

/// The number of the manager with which nodes begin, under a configuration that names this kind.
fn manager_number(steady: bool, kind: Kind) -> u64
    ensures { result ≡ manager_number steady kind }
{
    match (steady, kind) {
        (true, _) => 2,
        (false, Kind::Fixed) => 0,
        (false, Kind::Dynamic) => 1,
    }
}

/// The same, of nodes that begin with steady hints, or with the manager of the configuration. It takes no memory.
pub fn sum_opened<A: Allocator + Copy>(
    steady: bool,
    config: &Config,
    programs: &[Program<A>],
) -> u64
    ensures { result ≡ sum_opened steady config.now programs.now }
{
    let manager = manager_number(steady, config.manager);
    let nodes = u64::from(config.nodes);
    let pages = u64::from(config.pages);
    let page_size = u64::from(config.page_size);
    let mut total = add(OFFSET, &[nodes, pages, page_size, manager]);
    for program in programs {
        total = add_program(total, program);
    }
    LEAST + total % COUNT
}
