//! The laws of what reaches a node, of who is answered, and of sweeps of pulses.
ghost use Rattle.proof_answers.specs.answers.Answered.{SomeAnswered, SomeAnsweredOrFetched, SomeAnsweredSoon};
ghost use Rattle.proof_answers.specs.answers.Came.{SomeAnsweredOrCome};
ghost use Rattle.proof_answers.specs.answers.Pulses.{PulsesDeliver, PulsesMoveOn};
ghost use Rattle.proof_answers.specs.answers.Undropped.{NothingIsDropped};
ghost use Rattle.proof_answers.specs.fairness.Fairness.{CallsAnswered, CallsAnsweredUnfetched, HeapCallsAnswered};
ghost use Rattle.proof_answers.specs.sweeps.FewUnderWay.{FewAreUnderWay, FewAreUnderWayIdle, FewAreUnderWayUnfetched};
ghost use Rattle.proof_answers.specs.sweeps.Sweeps.{FewForSweeps, SweepsAreRounds, SweepsAreRoundsUnfetched, SweepsDeliver, SweepsDeliverUnfetched};
ghost use Rattle.proof_answers.specs.sweeps.MoreSweeps.{EnoughSweeps, MoreSweepsAreRounds, MoreSweepsDeliver, SweepsMoveOn};
ghost use Rattle.proof_answers.specs.late.LateLaws.{LateNodesStayLate};
ghost use Rattle.proof_answers.specs.steady.SendsOn.{FewSendOn};
ghost use Rattle.proof_answers.specs.steady.Steady.{SteadyCallsAnswered, SteadyCallsAnsweredUnfetched};

/// Nothing that is undelivered is ever dropped. This is a fact, and the call does nothing.
///
/// In each world that moves lead to from an opening of some programs, under each manager: of what a node sent
/// another one, all but what it keeps was delivered there, and no more than it sent.
pub fn nothing_is_dropped()
    ensures { NothingIsDropped }
{}

/// What a pulse achieves whose strings are delivered in order. This is a fact, and the call does nothing.
///
/// In each world that moves lead to from an opening of some programs, under each manager: a node pulses another one,
/// and then the strings of the pulse are delivered there, in the order in which they were sent, whatever other moves
/// are made between. Then all is delivered that the node did not keep at the pulse, and of what it kept the first 32.
/// It says nothing of a string that is never delivered.
pub fn pulses_deliver()
    ensures { PulsesDeliver }
{}

/// What two pulses achieve, back and there. This is a fact, and the call does nothing.
///
/// In each world that moves lead to from an opening of some programs, under each manager: a node pulses another one,
/// by which it sends a string, and then that one pulses it, and each time the strings are delivered in order, whatever
/// other moves are made between. Then all is delivered to the first node that the other one had sent at its pulse, or
/// 32 more than had been delivered at the first pulse. A node to which a message is repeated owes an acknowledgement,
/// so that its next pulse sends a string.
pub fn pulses_move_on()
    ensures { PulsesMoveOn }
{}

/// Some call is answered: the nodes together are lock-free. This is a fact, and the call does nothing.
///
/// In each world that moves lead to from an opening of some programs, under each manager, let a node's call be due: in
/// progress, and if it is an await, its count was advanced often enough. A round of that node is any list of moves in
/// which it has a turn, and by whose end each message is delivered that a node had sent at its beginning. Then each
/// configuration has a number so that as many rounds as that, whatever they are, make some node's history longer, or
/// some node has used up a page that its program had it fetch ahead. So as many rounds, and as many for each page that
/// is to be fetched yet, make some node's history longer. And each configuration has a greater number so that as many
/// rounds as that, whatever they are, make some node's history longer, or a page comes in them that some node was
/// fetching: a call is passed over for ever only by others that are answered, or by pages that are fetched and come
/// without end. A fetch that asks for nothing passes nobody over. It says nothing of a message that is never delivered,
/// or of a node that has no turn; nor that this call is answered.
pub fn some_call_is_answered()
    ensures came { SomeAnsweredOrCome }
    ensures either { SomeAnsweredOrFetched }
    ensures soon { SomeAnsweredSoon }
    ensures some { SomeAnswered }
{}

/// Each due call is answered under managing nodes. This is a fact, and the call does nothing.
///
/// In each world that moves lead to from a configured opening of some programs, under managing nodes, let a call be in
/// progress at a node that, where it is an await, waits for no more advances of its count than the nodes were told. A
/// round of that node is any list of moves in which it has a turn, and by whose end each message is delivered that a
/// node had sent at its beginning. Then 6 N + 3 rounds of N nodes, whatever the others do in them, make the node's
/// history longer; twice as many where no word of the node waits and it fetches pages ahead, as the page of its call
/// may be fetched otherwise than the call needs, and comes first then. So nobody is passed over for ever. It says
/// nothing of a message that is never delivered, or of a node that has no turn; nor of nodes that hint at each other,
/// where others that are answered may pass a call over for ever.
pub fn calls_are_answered()
    ensures fetching { CallsAnswered }
    ensures unfetched { CallsAnsweredUnfetched }
{}

/// Each call of the heap is answered in three rounds. This is a fact, and the call does nothing.
///
/// In each world that moves lead to from an opening of some programs, under each manager, let an allocation or a free
/// be in progress at a node. Then three rounds of that node, as above, make its history longer, whatever the others do
/// in them. Node 0, which keeps the heap, has no such call in progress: it is answered in the turn that makes it.
pub fn heap_calls_are_answered()
    ensures { HeapCallsAnswered }
{}

/// Few messages are under way. This is a fact, and the call does nothing.
///
/// In each world that moves lead to from an opening of some programs, under each manager: of what a node sent another
/// one, at most 8 N messages of N nodes were not delivered there yet; where no page is fetched ahead at the moment, at
/// most N. For of each node and page for which it waits, or of its order to give a copy of it up, one message at most
/// is under way between two nodes; and a node waits for the page of its call, and for seven that it fetches.
pub fn few_are_under_way()
    ensures fetching { FewAreUnderWay }
    ensures idle { FewAreUnderWayIdle }
    ensures unfetched { FewAreUnderWayUnfetched }
{}

/// What three sweeps of pulses achieve. This is a fact, and the call does nothing.
///
/// In each world that moves lead to from an opening of some programs, under each manager: a sweep is any list of moves
/// in which each node pulses each other one, and the strings of each pulse are delivered, in the order in which they
/// were sent, whatever other moves are made between. After three of them each message is delivered that a node had sent
/// another one before the first, or 32 more than were delivered then. That is all if no more were under way between two
/// nodes: so it is where no page is fetched ahead at the first, or with four nodes. With N nodes that is all after N /
/// 4 times three of them. It says nothing where a string that a pulse sent is lost.
pub fn sweeps_deliver()
    ensures moving { SweepsMoveOn }
    ensures few { SweepsDeliver }
    ensures idle { FewForSweeps }
    ensures unfetched { SweepsDeliverUnfetched }
    ensures more { MoreSweepsDeliver }
    ensures enough { EnoughSweeps }
{}

/// Three sweeps of pulses are a round. This is a fact, and the call does nothing.
///
/// They are one of each node that has a turn in them, as the law of the calls that are answered speaks of rounds.
pub fn sweeps_are_rounds()
    ensures few { SweepsAreRounds }
    ensures unfetched { SweepsAreRoundsUnfetched }
    ensures more { MoreSweepsAreRounds }
{}

/// Who comes after a request comes after it until it is served. This is a fact, and the call does nothing.
///
/// Nodes hint at each other, their hints stay where a copy is ended, and requests are sent on where a copy is awaited.
/// Each step of the table of coherence events leaves late nodes late while the request is not served. It leaves each of
/// the request's chain where it was, or that node is late then which served it. Hints stay steady, and what a reader
/// sends on comes after its own request.
pub fn late_nodes_stay_late()
    ensures { LateNodesStayLate }
{}

/// Each due call is answered under steady hints. This is a fact, and the call does nothing.
///
/// In each world that moves lead to from an opening with steady hints, let a call be in progress at a node that, where
/// it is an await, waits for no more advances of its count than the nodes were told. A round of that node is any list
/// of moves in which it has a turn, and by whose end each message is delivered that a node had sent at its beginning.
/// Then 4 N + 1 rounds of N nodes, whatever the others do in them, make the node's history longer; twice as many where
/// no word of the node waits and it fetches pages ahead. So nobody is passed over for ever. It says nothing of a
/// message that is never delivered, or of a node that has no turn.
pub fn steady_calls_are_answered()
    ensures fetching { SteadyCallsAnswered }
    ensures unfetched { SteadyCallsAnsweredUnfetched }
{}

/// Few nodes send a request on under steady hints. This is a fact, and the call does nothing.
///
/// Of each world with messages in order that steps lead to from an opening with steady hints, and of whatever steps
/// lead on from it while a node's request for a page is out: no node sends the request on twice in them, the node that
/// asks never does, and of N nodes no more than N - 2 do.
pub fn few_nodes_send_on()
    ensures { FewSendOn }
{}
