//! What holds of every order that explains what the nodes were answered. Each of these is a fact, and
//! the call does nothing.
ghost use Rattle.ivy_sync.specs.excluding.ArrayLocks.{ArrayLocksExclude, ArraySectionsAreSerial};
ghost use Rattle.ivy_sync.specs.meeting.Barriers.{BarrierSeparates};
ghost use Rattle.ivy_sync.specs.meeting.Broadcasts.{BroadcastsArrive};
ghost use Rattle.ivy_sync.specs.excluding.Locks.{LeftLocksAreFree, MutualExclusion};
ghost use Rattle.ivy_sync.specs.queueing.Messages.{MessagesPass};
ghost use Rattle.ivy_sync.specs.meeting.Phases.{PhasesShare, SetUpIsThere};
ghost use Rattle.ivy_sync.specs.queueing.Queues.{QueuesKeepOrder};
ghost use Rattle.ivy_sync.specs.meeting.Reductions.{ReductionsAgree};
ghost use Rattle.ivy_sync.specs.excluding.Registers.{WordsAreRegisters};
ghost use Rattle.ivy_sync.specs.excluding.Sections.{SectionsAreSerial};
ghost use Rattle.ivy_sync.specs.queueing.SharedQueues.{SharedQueuesKeepOrder};
ghost use Rattle.ivy_sync.specs.meeting.Sums.{SumsAreWhole};
ghost use Rattle.ivy_sync.specs.meeting.WordBarriers.{WordBarrierSeparates, WordPhasesShare};
ghost use Rattle.ivy_sync.specs.meeting.TreeBarriers.{TreeBarrierSeparates, TreePhasesShare};
ghost use Rattle.ivy_sync.specs.meeting.TreeReductions.{TreeFoldsAreWhole, TreeReductionsAgree};
ghost use Rattle.ivy_sync.specs.Touching.{TouchesKeep};
ghost use Rattle.ivy_sync.specs.excluding.TicketLocks.{TicketLocksExclude};
ghost use Rattle.ivy_sync.specs.excluding.Tickets.{TicketsExclude};

/// The accesses to a word that is always written whole are those of one register.
pub fn words_are_registers()
    ensures { WordsAreRegisters }
{}

/// A barrier separates: all that the nodes did before it stands before all that they did after it.
pub fn barrier_separates()
    ensures { BarrierSeparates }
{}

/// A word that one node alone writes before a barrier, and nobody after it, is read after it as that
/// node left it.
pub fn phases_share()
    ensures { PhasesShare }
{}

/// At one cut, after a barrier, each word that one node alone wrote before it is as that node left it, and
/// each eventcount that nobody advanced is as it was.
pub fn set_up_is_there()
    ensures { SetUpIsThere }
{}

/// At no point do two nodes hold a lock.
pub fn mutual_exclusion()
    ensures { MutualExclusion }
{}

/// A lock that all nodes have left is free.
pub fn left_locks_are_free()
    ensures { LeftLocksAreFree }
{}

/// At no point are two nodes inside by tickets of their own.
pub fn tickets_exclude()
    ensures { TicketsExclude }
{}

/// At no point has the turn of two nodes come that drew their tickets by a fetch-and-add.
pub fn ticket_locks_exclude()
    ensures { TicketLocksExclude }
{}

/// What is guarded by a lock is done in one whole critical section after another.
pub fn sections_are_serial()
    ensures { SectionsAreSerial }
{}

/// What a node stored before it advanced an eventcount is loaded after that advance was awaited.
pub fn messages_pass()
    ensures { MessagesPass }
{}

/// What is taken from a queue is what was sent, in the order in which it was sent.
pub fn queues_keep_order()
    ensures { QueuesKeepOrder }
{}

/// What one node takes from a queue into which all others send under a lock is what they sent, one value
/// after another, in the order of each.
pub fn shared_queues_keep_order()
    ensures { SharedQueuesKeepOrder }
{}

/// In a reduction each node finds what each other one stored.
pub fn reductions_agree()
    ensures { ReductionsAgree }
{}

/// In a broadcast each node gets what the one node gave.
pub fn broadcasts_arrive()
    ensures { BroadcastsArrive }
{}

/// Where each node adds its number to a sum under a lock and then meets the others, all read the whole sum.
pub fn sums_are_whole()
    ensures { SumsAreWhole }
{}

/// A barrier by two words separates: all that the nodes did before it stands before all that they did after it.
pub fn word_barrier_separates()
    ensures { WordBarrierSeparates }
{}

/// At no point are two nodes inside that wait at places of their own.
pub fn array_locks_exclude()
    ensures { ArrayLocksExclude }
{}

/// What is guarded by such a lock is done in one whole critical section after another.
pub fn array_sections_are_serial()
    ensures { ArraySectionsAreSerial }
{}

/// A word that one node alone writes before a barrier by two words, and nobody after it, is read after it as that node
/// left it.
pub fn word_phases_share()
    ensures { WordPhasesShare }
{}

/// A barrier by a tree separates: all that the nodes did before it stands before all that they did after it.
pub fn tree_barrier_separates()
    ensures { TreeBarrierSeparates }
{}

/// A word that one node alone writes before a barrier by a tree, and nobody after it, is read after it as that node left
/// it.
pub fn tree_phases_share()
    ensures { TreePhasesShare }
{}

/// In a reduction by a tree each node finds what each of its children came to, and all get what node 0 came to.
pub fn tree_reductions_agree()
    ensures { TreeReductionsAgree }
{}

/// So where the numbers are put together by an operation for which neither order nor grouping matters, all get what it
/// makes of all numbers.
pub fn tree_folds_are_whole()
    ensures { TreeFoldsAreWhole }
{}

/// Who touches pages changes nothing: each word holds what it held.
pub fn touches_keep()
    ensures { TouchesKeep }
{}
