ghost use Rattle.std.specs.Prelude.{◌≡◌, ◌+◌, ◌*◌, ◌<◌, ◌^◌, ◌++◌, [], length, vec_len, IfOk};
ghost use Rattle.ivy_sync.specs.meeting.Reductions.{finds};
ghost use Rattle.example_programs.specs.Matrices.{IsRow, product_at, stores_of};

use ivy_calls::{SharedMemory, Work, load, store};
use ivy_model::Fault;
use ivy_sync::Barrier;
use std::alloc::{AllocError, Global};

/// The product of two matrices of N by N numbers modulo 2^64, where N nodes meet: node `i` has row `i` of
/// both. It stores its row of the right one where all can read it, meets the others, reads all rows, and
/// gives row `i` of the product.
///
/// Each row is the product's, as [`crate::products_by_rows`] says.
#[derive(Drop)]
pub struct Product {
    /// The numbers of the matrix on the left, row by row.
    pub left: Vec<u64>,
    /// Those of the matrix on the right.
    pub right: Vec<u64>,
    /// Where the one on the right is put: N * N words of 8 bytes from here on.
    pub addr: u64,
    /// Where the nodes meet.
    pub barrier: Barrier,
    /// Where the lists lie that are given.
    pub alloc: Global,
    ghost left_len: { vec_len left ≡ barrier.nodes * barrier.nodes },
    ghost right_len: { vec_len right ≡ barrier.nodes * barrier.nodes },
    ghost fits: { addr + 8 * (barrier.nodes * barrier.nodes) < 2 ^ 64 },
}

/// The number in row `i` and column `j` of the product of two matrices of `size` by `size` numbers.
fn entry(size: usize, left: &[u64], right: &[u64], i: usize, j: usize) -> u64
    requires left_len { length left.now ≡ size * size }
    requires right_len { length right.now ≡ size * size }
    requires row { i < size }
    requires column { j < size }
    ensures { result ≡ product_at size left.now right.now i j }
{
    let mut sum = 0u64;
    for k in 0..size {
        sum = sum.wrapping_add(left[i * size + k].wrapping_mul(right[k * size + j]));
    }
    sum
}

/// Row `i` of the product.
fn row(
    alloc: Global,
    size: usize,
    left: &[u64],
    right: &[u64],
    i: usize,
) -> Result<Vec<u64>, AllocError>
    requires left_len { length left.now ≡ size * size }
    requires right_len { length right.now ≡ size * size }
    requires row { i < size }
    ensures { IfOk result (λ out. IsRow size left.now right.now i out.items) }
{
    let mut out = Vec::new(alloc);
    for j in 0..size {
        out.push(entry(size, left, right, i, j))?;
    }
    Ok(out)
}

impl Product {
    /// Stores the row of node `me`.
    fn share<M: SharedMemory>(&self, me: u8, memory: &mut M) -> Result<(), Fault>
        requires below { me < self.now.barrier.nodes }
        requires fresh { M.answers memory.old ≡ [] }
        ensures { IfOk result (λ _.
            M.answers memory.new ≡ stores_of self.now.addr self.now.right.items
            (me * self.now.barrier.nodes) self.now.barrier.nodes) }
    {
        let size = usize::from(self.barrier.nodes);
        for k in 0..size {
            let at = usize::from(me) * size + k;
            store(memory, self.addr + 8 * (at as u64), self.right[at])?;
        }
        Ok(())
    }

    /// Reads all rows.
    fn find<M: SharedMemory>(&self, memory: &mut M) -> Result<Vec<u64>, Fault>
        ensures all { IfOk result (λ out.
            length out.items ≡ self.now.barrier.nodes * self.now.barrier.nodes) }
        ensures finds { IfOk result (λ out.
            M.answers memory.new ≡ M.answers memory.old ++ finds self.now.addr 0 out.items) }
    {
        let size = usize::from(self.barrier.nodes);
        let mut out = Vec::new(self.alloc);
        for at in 0..size * size {
            let number: u64 = load(memory, self.addr + 8 * (at as u64))?;
            out.push(number)?;
        }
        Ok(out)
    }
}

impl Work for Product {
    ghost use Rattle.example_programs.specs.Product.{HasMultiplied};

    type Out = Vec<u64>;

    ghost done = { λ work me answers out. HasMultiplied work me answers out.items };

    fn work<M: SharedMemory>(&self, me: u8, memory: &mut M) -> Result<Vec<u64>, Fault> {
        if me >= self.barrier.nodes {
            return Err(Fault::BadNode);
        }
        self.share(me, memory)?;
        let mut barrier = self.barrier;
        barrier.wait(memory)?;
        let right = self.find(memory)?;
        let size = usize::from(self.barrier.nodes);
        Ok(row(self.alloc, size, &self.left, &right, usize::from(me))?)
    }
}
