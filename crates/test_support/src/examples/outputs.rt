//! Programs that end, with what they print. `tools/texts` writes this file from `examples/`.

use crate::examples::programs;
use crate::file::Example;

/// `barrier.ivy`, with what it prints.
pub const BARRIER: Example = Example {
    programs: programs::BARRIER,
    nodes: 4,
    out: "\
node 0: 20\nnode 1: 30\nnode 2: 40\nnode 3: 10\n",
};

/// `cas_lock.ivy`, with what it prints.
pub const CAS_LOCK: Example = Example {
    programs: programs::CAS_LOCK,
    nodes: 8,
    out: "\
node 0: 800\n",
};

/// `dot_product.ivy`, with what it prints.
pub const DOT_PRODUCT: Example = Example {
    programs: programs::DOT_PRODUCT,
    nodes: 4,
    out: "\
node 0: 364\n",
};

/// `four_advances.ivy`, with what it prints.
pub const FOUR_ADVANCES: Example = Example {
    programs: programs::FOUR_ADVANCES,
    nodes: 3,
    out: "\
node 0: 4\n",
};

/// `histogram.ivy`, with what it prints.
pub const HISTOGRAM: Example = Example {
    programs: programs::HISTOGRAM,
    nodes: 3,
    out: "\
node 0: 0\nnode 0: 2\nnode 0: 3\nnode 0: 4\nnode 0: 3\nnode 0: 3\nnode 0: 3\nnode 0: 1\nnode 0: 2\nn\
ode 0: 3\n",
};

/// `jacobi.ivy`, with what it prints.
pub const JACOBI: Example = Example {
    programs: programs::JACOBI,
    nodes: 2,
    out: "\
node 0: 10\nnode 0: 0\nnode 0: 9\nnode 0: 0\nnode 0: 0\nnode 0: 16\nnode 0: 0\nnode 0: 4\nnode 0: 9\n\
node 0: 0\nnode 0: 6\nnode 0: 0\nnode 0: 0\nnode 0: 4\nnode 0: 0\nnode 0: 0\n",
};

/// `list.ivy`, with what it prints.
pub const LIST: Example = Example {
    programs: programs::LIST,
    nodes: 2,
    out: "\
node 0: 91\nnode 0: 264\n",
};

/// `matrix.ivy`, with what it prints.
pub const MATRIX: Example = Example {
    programs: programs::MATRIX,
    nodes: 3,
    out: "\
node 0: 30\nnode 0: 24\nnode 0: 18\nnode 0: 84\nnode 0: 69\nnode 0: 54\nnode 0: 138\nnode 0: 114\nno\
de 0: 90\n",
};

/// `merge_split.ivy`, with what it prints.
pub const MERGE_SPLIT: Example = Example {
    programs: programs::MERGE_SPLIT,
    nodes: 2,
    out: "\
node 0: 3\nnode 0: 8\nnode 0: 14\nnode 0: 27\nnode 0: 40\nnode 0: 58\nnode 0: 66\nnode 0: 91\n",
};

/// `parallel_sum.ivy`, with what it prints.
pub const PARALLEL_SUM: Example = Example {
    programs: programs::PARALLEL_SUM,
    nodes: 2,
    out: "\
node 0: 136\nnode 1: 136\n",
};

/// `producer_consumer.ivy`, with what it prints.
pub const PRODUCER_CONSUMER: Example = Example {
    programs: programs::PRODUCER_CONSUMER,
    nodes: 2,
    out: "\
node 1: 1\nnode 1: 4\nnode 1: 9\nnode 1: 16\nnode 1: 25\nnode 1: 36\nnode 1: 49\nnode 1: 64\nnode 1: \
81\nnode 1: 100\n",
};

/// `ring.ivy`, with what it prints.
pub const RING: Example = Example {
    programs: programs::RING,
    nodes: 3,
    out: "\
node 0: 0\nnode 0: 3\nnode 0: 6\nnode 1: 1\nnode 1: 4\nnode 1: 7\nnode 2: 2\nnode 2: 5\nnode 2: 8\n",
};

/// `spin_lock.ivy`, with what it prints.
pub const SPIN_LOCK: Example = Example {
    programs: programs::SPIN_LOCK,
    nodes: 8,
    out: "\
node 0: 800\n",
};

/// `sum_of_eight.ivy`, with what it prints.
pub const SUM_OF_EIGHT: Example = Example {
    programs: programs::SUM_OF_EIGHT,
    nodes: 8,
    out: "\
node 0: 2080\nnode 1: 2080\nnode 2: 2080\nnode 3: 2080\nnode 4: 2080\nnode 5: 2080\nnode 6: 2080\nno\
de 7: 2080\n",
};

/// `sum_of_thirty_two.ivy`, with what it prints.
pub const SUM_OF_THIRTY_TWO: Example = Example {
    programs: programs::SUM_OF_THIRTY_TWO,
    nodes: 32,
    out: "\
node 0: 32896\n",
};

/// `ticket_fadd.ivy`, with what it prints.
pub const TICKET_FADD: Example = Example {
    programs: programs::TICKET_FADD,
    nodes: 8,
    out: "\
node 0: 800\n",
};

/// `ticket_lock.ivy`, with what it prints.
pub const TICKET_LOCK: Example = Example {
    programs: programs::TICKET_LOCK,
    nodes: 8,
    out: "\
node 0: 800\n",
};
