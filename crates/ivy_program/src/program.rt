ghost use Rattle.std.specs.Prelude.{◌≡◌};

use crate::instruction::Instruction;
use std::alloc::Allocator;
use std::marker::Model;

/// The most instructions that a program can have.
pub const MOST_INSTRUCTIONS: usize = 4096;

/// The instructions of one node, in order. Contracts see a written program.
#[derive(Drop)]
#[derive_where(Debug)]
pub struct Program<A: Allocator> {
    #[derive_where(skip)]
    alloc: A,
    instructions: Vec<Instruction, A>,
}

impl<A: Allocator> Model for Program<A> {
    ghost use Rattle.ivy_program.specs.stated.Programs as programs;
    ghost use Rattle.ivy_program.specs.Instructions.{IsProgram};

    ghost Value = { programs.Program };

    ghost view = { λ p. programs.Written p.instructions.items };

    ghost invariant = { λ p. IsProgram p.instructions.items };
}

impl<A: Allocator + Copy> Program<A> {
    ghost use Rattle.ivy_program.specs.Instructions.{IsProgram};
    ghost use Rattle.ivy_program.specs.stated.Programs.{Written};
    ghost use Rattle.ivy_program.specs.Programs.{IsWritten, instructions_of};

    /// The program of these instructions, which are within the limits of one.
    pub fn new(alloc: A, instructions: Vec<Instruction, A>) -> Program<A>
        requires { IsProgram instructions.items }
        ensures { result ≡ Written instructions.items }
    {
        Program {
            alloc,
            instructions,
        }
    }

    /// The instructions, in order. They are within the limits of a program.
    pub fn instructions(&self) -> &[Instruction]
        ensures all { result.now ≡ instructions_of self.now }
        ensures sound { IsWritten self.now }
    {
        &self.instructions
    }

    /// The allocator that the program was made with.
    pub(crate) fn allocator(&self) -> A
        ensures { IsWritten self.now }
    {
        self.alloc
    }
}
