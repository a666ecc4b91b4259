//! A product of matrices, by rows.
ghost use Rattle.std.specs.Prelude.{◌≡◌, ◌+◌, ◌*◌, ◌^◌, ◌++◌, ◌<◌, length, IfOk};
ghost use Rattle.ivy_calls.specs.BlockAnswers.{block_numbers};
ghost use Rattle.ivy_sync.specs.meeting.Reductions.{finds};
ghost use Rattle.example_programs.specs.NumberRows.{times};

use ivy_calls::{fill, read_into, write_from};
use ivy_model::Fault;
use ivy_node::{SharedMemory, Work};
use ivy_sync::Barrier;
use std::alloc::{AllocError, Global};

/// The product of two matrices of `size` by `size` numbers modulo 2^64, which lie in the memory row by row. Node 0 sets up
/// that of the row numbers and that of the column numbers. The rows of the product are shared out, each node's in one
/// stretch, so that no two nodes write in one page by turns; each gives the sum of what it made.
#[derive(Drop)]
pub struct Matrices {
    /// How many rows and columns.
    pub size: usize,
    /// Where the matrix on the left lies.
    pub left: u64,
    /// Where the one on the right lies.
    pub right: u64,
    /// Where the product is put.
    pub product: u64,
    /// Where all nodes meet.
    pub barrier: Barrier,
    /// Where the numbers lie that a node has loaded.
    pub alloc: Global,
    ghost left_fits: { left + 8 * (size * size) < 2 ^ 64 },
    ghost right_fits: { right + 8 * (size * size) < 2 ^ 64 },
    ghost product_fits: { product + 8 * (size * size) < 2 ^ 64 },
}

impl Matrices {
    ghost use Rattle.example_programs.specs.Adding.{AddsSome};
    ghost use Rattle.example_programs.specs.WorkMatrices.{MakesRow, row_at};

    /// Where a row of the matrix at an address begins.
    fn row_at(&self, at: u64, row: usize) -> u64
        requires row { row < self.now.size }
        requires fits { at + 8 * (self.now.size * self.now.size) < 2 ^ 64 }
        ensures { result ≡ row_at self.now at row }
    {
        at + 8 * ((row * self.size) as u64)
    }

    /// Stores both matrices.
    fn set_up<M: SharedMemory>(&self, memory: &mut M) -> Result<(), Fault> {
        let columns = self.column_numbers()?;
        for row in 0..self.size {
            let left = self.row_at(self.left, row);
            fill(memory, left, self.size as u64, row as u64)?;
            write_from(memory, self.row_at(self.right, row), &columns)?;
        }
        Ok(())
    }

    /// Each row of the matrix on the right, as bytes.
    fn column_numbers(&self) -> Result<Vec<u8>, AllocError> {
        let mut bytes = Vec::new(self.alloc);
        for column in 0..self.size {
            bytes.extend_from_slice(&(column as u64).to_be_bytes())?;
        }
        Ok(bytes)
    }

    /// Loads so many numbers from an address on, as one block.
    fn load_all<M: SharedMemory>(
        &self,
        memory: &mut M,
        at: u64,
        count: usize,
    ) -> Result<Vec<u64>, Fault>
        requires fits { at + 8 * count < 2 ^ 64 }
        ensures all { IfOk result (λ out. length out.items ≡ count) }
        ensures finds { IfOk result (λ out.
            M.answers memory.new ≡ M.answers memory.old ++ finds at 0 out.items) }
    {
        let mut bytes = vec![in self.alloc; 0u8; 8 * count]?;
        read_into(memory, at, &mut bytes)?;
        Ok(numbers_of(self.alloc, &bytes)?)
    }

    /// Makes a row of the product, and gives the sum of its numbers.
    #[tactic(auto, using(crate::proofs::Rowing::made_more, crate::proofs::Rowing::row_made))]
    fn make<M: SharedMemory>(&self, memory: &mut M, row: usize, right: &[u64]) -> Result<u64, Fault>
        requires row { row < self.now.size }
        requires all { length right.now ≡ self.now.size * self.now.size }
        ensures { IfOk result (λ _.
            AddsSome (MakesRow self.now right.now row) (M.answers memory.old) (M.answers memory.new)) }
    {
        let left = self.load_all(memory, self.row_at(self.left, row), self.size)?;
        let at = self.row_at(self.product, row);
        let mut products = Vec::new(self.alloc);
        let mut sum = 0u64;
        for column in 0..self.size {
            let number = entry(&left, right, column);
            products.extend_from_slice(&number.to_be_bytes())?;
            sum = sum.wrapping_add(number);
        }
        write_from(memory, at, &products)?;
        Ok(sum)
    }
}

/// The numbers in bytes, 8 to each, the highest first.
#[tactic(auto, using(crate::proofs::Rowing::numbers_more))]
fn numbers_of(alloc: Global, bytes: &[u8]) -> Result<Vec<u64>, AllocError>
    ensures { IfOk result (λ numbers. numbers.items ≡ block_numbers bytes.now) }
{
    let mut numbers = Vec::new(alloc);
    for n in 0..bytes.len() / 8 {
        let mut word = [0; 8];
        word.copy_from_slice(&bytes[8 * n..8 * n + 8]);
        numbers.push(u64::from_be_bytes(word))?;
    }
    Ok(numbers)
}

/// The number in a column of the product of a row with a matrix.
fn entry(row: &[u64], matrix: &[u64], column: usize) -> u64
    requires all { length matrix.now ≡ length row.now * length row.now }
    requires column { column < length row.now }
    ensures { result ≡ times row.now matrix.now column }
{
    let mut sum = 0u64;
    for k in 0..row.len() {
        sum = sum.wrapping_add(row[k].wrapping_mul(matrix[k * row.len() + column]));
    }
    sum
}

impl Work for Matrices {
    type Out = u64;

    ghost done = { λ _ _ _ _. Unit {0} };

    fn work<M: SharedMemory>(&self, me: u8, memory: &mut M) -> Result<u64, Fault> {
        if me == 0 {
            self.set_up(memory)?;
        }
        let mut barrier = self.barrier;
        barrier.wait(memory)?;
        let right = self.load_all(memory, self.right, self.size * self.size)?;
        let share = self.size.div_ceil(usize::from(self.barrier.nodes.max(1)));
        let first = usize::from(me).saturating_mul(share).min(self.size);
        let last = first.saturating_add(share).min(self.size);
        let mut sum = 0u64;
        for row in first..last {
            sum = sum.wrapping_add(self.make(memory, row, &right)?);
        }
        barrier.wait(memory)?;
        Ok(sum)
    }
}
