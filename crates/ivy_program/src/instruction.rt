ghost use Rattle.std.specs.Prelude.{◌≡◌, ◌<◌, ◌↔◌, ℕ, IsSome, IfSome};
ghost use Rattle.ivy_program.specs.stated.ProgramLimits.{register_count};

use std::marker::Model;

/// How many registers a program has.
pub const REGISTERS: usize = 16;

/// One of the sixteen registers, `r0` to `r15`. Contracts see its number.
#[derive(Clone, Copy, Debug, PartialEq, Eq)]
pub struct Register {
    number: u8,
}

impl Model for Register {
    ghost Value = { ℕ };

    ghost view = { λ r. r.number };

    ghost inverse = { λ n. record { number = n } };

    ghost invariant = { λ r. r.number < register_count };
}

impl Register {
    /// The register of this number, where there is one.
    pub fn new(number: u8) -> Option<Register>
        ensures there { IsSome result ↔ number < register_count }
        ensures number { IfSome result (λ r. r ≡ number) }
    {
        if usize::from(number) < REGISTERS {
            Some(Register { number })
        } else {
            None
        }
    }

    /// The register's number, from 0 to 15.
    pub fn number(self) -> u8
        ensures number { result ≡ self }
        ensures bound { result < register_count }
    {
        self.number
    }
}

/// How many bytes an access reads or writes.
#[derive(Clone, Copy, Debug, PartialEq, Eq)]
pub enum Width {
    One,
    Two,
    Four,
    Eight,
}

impl Width {
    ghost use Rattle.ivy_program.specs.stated.Instructions.{bytes_in};

    /// The width in bytes.
    pub fn bytes(self) -> u8
        ensures { result ≡ bytes_in self }
    {
        match self {
            Width::One => 1,
            Width::Two => 2,
            Width::Four => 4,
            Width::Eight => 8,
        }
    }
}

/// What is computed of two numbers, modulo 2^64.
#[derive(Clone, Copy, Debug, PartialEq, Eq)]
pub enum Operation {
    Add,
    Sub,
    Mul,
}

impl Operation {
    ghost use Rattle.ivy_program.specs.stated.Instructions.{result_of};

    /// The result of the operation on these numbers.
    pub fn apply(self, left: u64, right: u64) -> u64
        ensures { result ≡ result_of self left right }
    {
        match self {
            Operation::Add => left.wrapping_add(right),
            Operation::Sub => left.wrapping_sub(right),
            Operation::Mul => left.wrapping_mul(right),
        }
    }
}

/// One line of a program that does something.
#[derive(Clone, Copy, Debug, PartialEq, Eq)]
pub enum Instruction {
    /// `set rD N`: the register takes the number.
    Set {
        to: Register,
        value: u64,
    },
    /// `mov rD rA`: the register takes the other's number.
    Move {
        to: Register,
        from: Register,
    },
    /// `add rD rA rB`, `sub rD rA rB`, `mul rD rA rB`: the register takes the result.
    Compute {
        operation: Operation,
        to: Register,
        left: Register,
        right: Register,
    },
    /// `load W rD rA`: a load at the address in one register, its value to another.
    Load {
        width: Width,
        to: Register,
        addr: Register,
    },
    /// `store W rA rB`: a store at the address in one register, of the other's number.
    Store {
        width: Width,
        addr: Register,
        from: Register,
    },
    /// `swap W rD rA rB`: a swap at the address in one register, of another's number; the old value goes
    /// to a third.
    Swap {
        width: Width,
        to: Register,
        addr: Register,
        from: Register,
    },
    /// `cas W rD rA rE rV`: a compare-and-swap at the address in one register, which puts one number in the
    /// place of another; the old value goes to a fourth.
    Cas {
        width: Width,
        to: Register,
        addr: Register,
        expected: Register,
        from: Register,
    },
    /// `fadd W rD rA rV`: a fetch-and-add at the address in one register, of another's number; the old value
    /// goes to a third.
    FetchAdd {
        width: Width,
        to: Register,
        addr: Register,
        from: Register,
    },
    /// `count rD rK`: the value of the eventcount that one register names, to another.
    Count {
        to: Register,
        count: Register,
    },
    /// `advance rK`: adds one to the eventcount that the register names.
    Advance {
        count: Register,
    },
    /// `await rD rK rV`: waits until the eventcount that one register names is at least the number in
    /// another; its value then goes to a third.
    Await {
        to: Register,
        count: Register,
        least: Register,
    },
    /// `alloc rD rN`: takes a block of as many bytes as one register holds, and its address goes to
    /// another.
    Alloc {
        to: Register,
        size: Register,
    },
    /// `free rA`: ends the block at the address in the register.
    Free {
        addr: Register,
    },
    /// `status rD`: the register takes the number of the last call's refusal, or 0.
    Status {
        to: Register,
    },
    /// `print rA`: the register's number is added to the output.
    Print {
        from: Register,
    },
    /// `jump NAME`: the program goes on at this place.
    Jump {
        place: usize,
    },
    /// `jumpz rA NAME`: the program goes on at this place where the register holds 0.
    JumpIfZero {
        from: Register,
        place: usize,
    },
    /// `stop`: the program ends.
    Stop,
}

impl Instruction {
    ghost use Rattle.ivy_program.specs.stated.Instructions.{receiver_of};

    /// The register that takes the value of the reply, if the instruction names one for it.
    pub(crate) fn receiver(self) -> Option<Register>
        ensures { result ≡ receiver_of self }
    {
        match self {
            Instruction::Load { to, .. } => Some(to),
            Instruction::Swap { to, .. } => Some(to),
            Instruction::Cas { to, .. } => Some(to),
            Instruction::FetchAdd { to, .. } => Some(to),
            Instruction::Count { to, .. } => Some(to),
            Instruction::Await { to, .. } => Some(to),
            Instruction::Alloc { to, .. } => Some(to),
            _ => None,
        }
    }
}
