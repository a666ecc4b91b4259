//! What holds of each program, in every order that explains what its nodes were answered. Each of
//! these is a fact, and the call does nothing.
ghost use Rattle.example_programs.specs.AddsUp.{AllReadTheSum};
ghost use Rattle.example_programs.specs.Farm.{EachJobOnce};
ghost use Rattle.example_programs.specs.Highest.{AllNameTheHighest};
ghost use Rattle.example_programs.specs.InOrder.{AllAreCounted, OnePlaceAtATime};
ghost use Rattle.example_programs.specs.MadeLock.{MadeLocksExclude};
ghost use Rattle.example_programs.specs.Pipeline.{PipelinesMap};
ghost use Rattle.example_programs.specs.Product.{ProductsByRows};
ghost use Rattle.example_programs.specs.Rings.{TreeRingsMeet, TreeRingsTurn, WordRingsMeet, WordRingsTurn};
ghost use Rattle.example_programs.specs.RollCall.{AllAreCalled};
ghost use Rattle.example_programs.specs.Trees.{AllHearNode0, AllNameTheHighestByTree};
ghost use Rattle.example_programs.specs.Turns.{OneTicketAtATime, OneTurnAtATime};

/// All nodes read the sum of their numbers.
pub fn all_read_the_sum()
    ensures { AllReadTheSum }
{}

/// Each job is done once, and nothing else is.
pub fn each_job_once()
    ensures { EachJobOnce }
{}

/// What comes out of a pipeline is the map of what went in, in its order.
pub fn pipelines_map()
    ensures { PipelinesMap }
{}

/// Each node gives its row of the product of two matrices.
pub fn products_by_rows()
    ensures { ProductsByRows }
{}

/// All give the address of one lock, at no point do two nodes hold it, and in the end it is free.
pub fn made_locks_exclude()
    ensures { MadeLocksExclude }
{}

/// Node 0 gives each node's number once, and nothing else.
pub fn all_are_called()
    ensures { AllAreCalled }
{}

/// At no point has the turn of two nodes come that drew tickets.
pub fn one_ticket_at_a_time()
    ensures { OneTicketAtATime }
{}

/// At no point are two nodes inside that come in by their numbers.
pub fn one_turn_at_a_time()
    ensures { OneTurnAtATime }
{}

/// Nobody looks before all have stored, where the nodes of a ring meet by two words.
pub fn word_rings_meet()
    ensures { WordRingsMeet }
{}

/// Each node of such a ring gives the number of the next one and 1.
pub fn word_rings_turn()
    ensures { WordRingsTurn }
{}

/// Nobody looks before all have stored, where the nodes of a ring meet by a tree.
pub fn tree_rings_meet()
    ensures { TreeRingsMeet }
{}

/// Each node of such a ring gives the number of the next one and 1.
pub fn tree_rings_turn()
    ensures { TreeRingsTurn }
{}

/// At no point are two nodes inside that wait at places of their own.
pub fn one_place_at_a_time()
    ensures { OnePlaceAtATime }
{}

/// All nodes that count themselves under such a lock are counted.
pub fn all_are_counted()
    ensures { AllAreCounted }
{}

/// All nodes name the highest bid.
pub fn all_name_the_highest()
    ensures { AllNameTheHighest }
{}

/// All nodes name the highest bid, where they bid by a tree.
pub fn all_name_the_highest_by_tree()
    ensures { AllNameTheHighestByTree }
{}

/// All nodes give node 0's number, which a tree brings to them.
pub fn all_hear_node_0()
    ensures { AllHearNode0 }
{}
