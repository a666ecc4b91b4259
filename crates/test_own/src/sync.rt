//! Tests of a program's own calls, of locks, barriers, queues and reductions, and of whole programs, over the
//! flat memory with no other node. What the contracts say is proved, so these tests hold that calls can succeed, values worked out
//! by hand, the texts of errors, and that a refused growth leaves all as it was.

mod blocks;
mod calls;
mod common;
mod programs;
mod sync;
