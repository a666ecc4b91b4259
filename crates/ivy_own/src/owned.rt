//! The place of a node with own code, as it stands behind its lock.
ghost use Rattle.std.specs.Prelude.{◌≡◌, ◌*◌, ◌≤◌, Some, IfErr, IfOk, IsTrue, MatchResult, length};
ghost use Rattle.ivy_model.specs.stated.Legal.{HasWidth};
ghost use Rattle.ivy_model.specs.Rows.{numbers_in};
ghost use Rattle.ivy_program.specs.OwnCode.{IsFree};
ghost use Rattle.ivy_calls.specs.Answers.{answers};
ghost use Rattle.ivy_calls.specs.BlockAnswers.{in_row};
ghost use Rattle.ivy_workers.specs.Stops.{IsStop};
ghost use Rattle.ivy_own.specs.OwnSeats.{IsOwned, IsReady, IsAsked, TurnsOwn, grown, grown_by, last_reply_in};

use crate::tie::Side;
use crate::{Half, Naming, Tie};
use ivy_calls::Answer;
use ivy_ether::Setup;
use ivy_model::{Call, Fault, Reply, Row};
use ivy_seating::{Home, Homed, Keep, Seated, Site, turn_on_wire};
use ivy_workers::{Pulses, Seat, Traffic};
use std::alloc::Allocator;
use std::marker::{Model, PhantomData};
use std::sync::Wait;

/// How many pages behind the one that it waits for a block has fetched ahead, at most: a node fetches no more at once.
const MOST_BEHIND: u64 = 7;

/// A place whose program is own code, as the worker of the node has it, which has the other half of the list of the
/// node's answers.
pub trait OwnSeat<J: Naming, A: Allocator>: Seat {
    /// The worker of node `me` makes a call, and its first turn [1, 17, 21]. It gives the reply, where that is there then.
    fn begin(&mut self, side: &mut Side<'_, J, A>, call: Call) -> Result<Option<Reply>, Fault>
        requires width { HasWidth call }
        ensures grows { MatchResult result (λ reply. side.new ≡ grown call reply side.old) (λ _. side.new ≡ side.old) }
        ensures stop { IfErr result IsStop };

    /// One turn more for the call of node `me` that is in progress [1, 17, 21]. It gives the reply, where that is there then.
    fn go_on(&mut self, side: &mut Side<'_, J, A>, call: Call) -> Result<Option<Reply>, Fault>
        ensures grows { MatchResult result (λ reply. side.new ≡ grown call reply side.old) (λ _. side.new ≡ side.old) }
        ensures stop { IfErr result IsStop };

    /// The worker of node `me` reads words of 8 bytes in a row, from `addr` on: as many as are at hand at once, which it says.
    fn load_row(&mut self, side: &mut Side<'_, J, A>, addr: u64, into: &mut [u8]) -> usize
        ensures grows { side.new ≡ grown_by (in_row Row.Loads addr (numbers_in result into.new)) side.old }
        ensures fits { 8 * result ≤ length into.old }
        ensures sized { length into.new ≡ length into.old };

    /// The worker of node `me` writes words of 8 bytes in a row, from `addr` on: as many as are at hand at once, which it
    /// says.
    fn store_row(&mut self, side: &mut Side<'_, J, A>, addr: u64, from: &[u8]) -> usize
        ensures grows { side.new ≡ grown_by (in_row Row.Stores addr (numbers_in result from.now)) side.old }
        ensures fits { 8 * result ≤ length from.now };

    /// The worker of node `me` makes the calls of words of 8 bytes in a row together, from `addr` on, where the first has
    /// to wait: as many as lie in its page. It says whether it did. Their replies are taken later. The pages behind that
    /// one, as far as the bytes reach, are fetched ahead meanwhile.
    fn call_row(&mut self, me: u8, kind: Row, addr: u64, bytes: &[u8]) -> bool;

    /// The worker of node `me` has the page of this address fetched ahead, to read, or to write too, where the node may ask
    /// for it now.
    fn fetch_ahead(&mut self, me: u8, addr: u64, write: bool);

    /// The worker of node `me` takes the replies to the loads in a row from `addr` on that are in progress: so many, which
    /// it says; none where they are not there.
    fn take_loads(&mut self, side: &mut Side<'_, J, A>, addr: u64, into: &mut [u8]) -> usize
        ensures grows { side.new ≡ grown_by (in_row Row.Loads addr (numbers_in result into.new)) side.old }
        ensures fits { 8 * result ≤ length into.old }
        ensures sized { length into.new ≡ length into.old };

    /// The worker of node `me` takes the replies to the stores of these bytes in a row from `addr` on that are in progress:
    /// so many, which it says; none where they are not there.
    fn take_stores(&mut self, side: &mut Side<'_, J, A>, addr: u64, from: &[u8]) -> usize
        ensures grows { side.new ≡ grown_by (in_row Row.Stores addr (numbers_in result from.now)) side.old }
        ensures fits { 8 * result ≤ length from.now };
}

/// The reply in the last record of a site.
fn last_reply<A: Allocator + Copy>(site: &Site<A>) -> Option<Reply>
    ensures { result ≡ last_reply_in site.now.node.core.history }
{
    match site.last_record() {
        Some(record) => Some(record.reply),
        None => None,
    }
}

/// The owner of a site makes a call, and has its first turn [1, 17]. It gives the reply, where the call has it then.
#[inline(always)]
fn begin_once<S: Setup, A: Allocator + Copy>(
    seated: &mut Seated<'_, S, A>,
    call: Call,
) -> Result<Option<Reply>, Fault>
    requires free { IsFree seated.old.site.node.core.process }
    requires width { HasWidth call }
    ensures ether { seated.new.ether ≡ seated.old.ether }
    ensures done { MatchResult result (λ reply. TurnsOwn call reply seated.old.site seated.new.site) (λ _. seated.new ≡ seated.old) }
    ensures stop { IfErr result IsStop }
{
    let came = seated.call(call)?;
    Ok(came)
}

/// One turn of the program of a site with own code for this call [1, 17]. It gives the reply, where the call has it then.
fn turn_once<S: Setup, A: Allocator + Copy>(
    seated: &mut Seated<'_, S, A>,
    call: Call,
) -> Result<Option<Reply>, Fault>
    requires asked { seated.old.site.node.core.memory.asked ≡ Some call }
    ensures ether { seated.new.ether ≡ seated.old.ether }
    ensures done { MatchResult result (λ reply. TurnsOwn call reply seated.old.site seated.new.site) (λ _. seated.new ≡ seated.old) }
    ensures stop { IfErr result IsStop }
{
    // for the proof: the clauses name it.
    let _ = call;
    let before = seated.records();
    seated.program_turn()?;
    if seated.records() == before {
        return Ok(None);
    }
    Ok(last_reply(seated.site()))
}

/// One turn for the call, after which both halves of the list of the node's answers know the reply.
fn turn<S: Setup, J: Naming, A: Allocator + Copy>(
    seated: &mut Seated<'_, S, A>,
    half: &mut Half<Answer, J>,
    side: &mut Side<'_, J, A>,
    call: Call,
) -> Result<Option<Reply>, Fault>
    requires owned { IsOwned seated.old.site half.old }
    requires asked { seated.old.site.node.core.memory.asked ≡ Some call }
    requires same { side.old.number ≡ half.old.number }
    ensures ether { seated.new.ether ≡ seated.old.ether }
    ensures owned { IsOwned seated.new.site half.new }
    ensures grows { MatchResult result (λ reply. side.new ≡ grown call reply side.old) (λ _. side.new ≡ side.old) }
    ensures stop { IfErr result IsStop }
{
    let came = turn_once(seated, call)?;
    side.tell(half, call, came);
    Ok(came)
}

/// Whether the site is of node `me`, whose owner may make a call.
#[inline(always)]
fn is_ready<A: Allocator + Copy>(site: &Site<A>, me: u8) -> bool
    ensures { IsTrue result → IsReady me site.now }
{
    site.me() == me && site.is_free()
}

/// Whether the site is of node `me`, and this call is in progress there.
fn is_asked<A: Allocator + Copy>(site: &Site<A>, me: u8, call: Call) -> bool
    ensures { IsTrue result → IsAsked me call site.now }
{
    site.me() == me && site.asked() == Some(call)
}

/// The owner of node `me` makes a call, and its first turn [1, 17, 21].
#[inline(always)]
fn begin_at<S: Setup, J: Naming, A: Allocator + Copy>(
    seated: &mut Seated<'_, S, A>,
    half: &mut Half<Answer, J>,
    side: &mut Side<'_, J, A>,
    call: Call,
) -> Result<Option<Reply>, Fault>
    requires owned { IsOwned seated.old.site half.old }
    requires width { HasWidth call }
    ensures ether { seated.new.ether ≡ seated.old.ether }
    ensures owned { IsOwned seated.new.site half.new }
    ensures grows { MatchResult result (λ reply. side.new ≡ grown call reply side.old) (λ _. side.new ≡ side.old) }
    ensures stop { IfErr result IsStop }
{
    if !is_ready(seated.site(), side.me()) {
        return Err(Fault::TurnLimit);
    }
    let came = begin_once(seated, call)?;
    side.tell(half, call, came);
    Ok(came)
}

/// The owner of node `me` reads words of 8 bytes in a row, from `addr` on, as many as are at hand at once. None where the
/// site is of another node.
#[inline(always)]
fn load_row_at<S: Setup, J: Naming, A: Allocator + Copy>(
    seated: &mut Seated<'_, S, A>,
    half: &mut Half<Answer, J>,
    side: &mut Side<'_, J, A>,
    addr: u64,
    into: &mut [u8],
) -> usize
    requires owned { IsOwned seated.old.site half.old }
    ensures ether { seated.new.ether ≡ seated.old.ether }
    ensures owned { IsOwned seated.new.site half.new }
    ensures grows { side.new ≡ grown_by (in_row Row.Loads addr (numbers_in result into.new)) side.old }
    ensures fits { 8 * result ≤ length into.old }
    ensures sized { length into.new ≡ length into.old }
{
    if seated.site().me() != side.me() {
        return 0;
    }
    let words = seated.load_row(addr, into);
    side.tell_row(half, Row::Loads, addr, words, into);
    words
}

/// The owner of node `me` writes words of 8 bytes in a row, from `addr` on, as many as are at hand at once. None where the
/// site is of another node.
#[inline(always)]
fn store_row_at<S: Setup, J: Naming, A: Allocator + Copy>(
    seated: &mut Seated<'_, S, A>,
    half: &mut Half<Answer, J>,
    side: &mut Side<'_, J, A>,
    addr: u64,
    from: &[u8],
) -> usize
    requires owned { IsOwned seated.old.site half.old }
    ensures ether { seated.new.ether ≡ seated.old.ether }
    ensures owned { IsOwned seated.new.site half.new }
    ensures grows { side.new ≡ grown_by (in_row Row.Stores addr (numbers_in result from.now)) side.old }
    ensures fits { 8 * result ≤ length from.now }
{
    if seated.site().me() != side.me() {
        return 0;
    }
    let words = seated.store_row(addr, from);
    side.tell_row(half, Row::Stores, addr, words, from);
    words
}

/// The owner of node `me` makes the calls of words of 8 bytes in a row together, from `addr` on, where the first has to
/// wait, and the site keeps no list of its own past, so that their replies can be taken at once. It says whether it did,
/// and has the pages behind the first one's fetched ahead then. Where the site has no memory for them none was made, and a
/// call tells that.
fn call_row_at<S: Setup, J: Naming, A: Allocator + Copy>(
    seated: &mut Seated<'_, S, A>,
    half: &Half<Answer, J>,
    me: u8,
    kind: Row,
    addr: u64,
    bytes: &[u8],
) -> bool
    requires owned { IsOwned seated.old.site half.now }
    ensures ether { seated.new.ether ≡ seated.old.ether }
    ensures owned { IsOwned seated.new.site half.now }
{
    // for the proof: the clauses name it.
    let _ = half;
    if seated.site().me() != me || seated.site().keep() != Keep::Nothing {
        return false;
    }
    match seated.call_row(kind, addr, bytes.len() / 8, bytes) {
        Ok(words) if words > 0 => {
            fetch_behind(seated, half, kind, addr, bytes.len());
            true
        }
        Ok(_) | Err(_) => false,
    }
}

/// The owner of a site has a page fetched ahead, where the node may ask for it now. Nothing is done where there is no such
/// page, or no memory for it: it is a hint.
fn fetch_page<S: Setup, J: Naming, A: Allocator + Copy>(
    seated: &mut Seated<'_, S, A>,
    half: &Half<Answer, J>,
    page: u64,
    write: bool,
)
    requires owned { IsOwned seated.old.site half.now }
    ensures ether { seated.new.ether ≡ seated.old.ether }
    ensures owned { IsOwned seated.new.site half.now }
{
    // for the proof: the clauses name it.
    let _ = half;
    if let Ok(page) = u32::try_from(page) {
        let _ = seated.fetch(page, write);
    }
}

/// The owner of node `me` has the page of this address fetched ahead. Nothing is done where the site is of another node.
fn fetch_at<S: Setup, J: Naming, A: Allocator + Copy>(
    seated: &mut Seated<'_, S, A>,
    half: &Half<Answer, J>,
    me: u8,
    addr: u64,
    write: bool,
)
    requires owned { IsOwned seated.old.site half.now }
    ensures ether { seated.new.ether ≡ seated.old.ether }
    ensures owned { IsOwned seated.new.site half.now }
{
    if seated.site().me() != me {
        return;
    }
    let page_size = u64::from(seated.site().config().page_size);
    fetch_page(seated, half, addr / page_size, write);
}

/// The owner of a site has the pages behind that of `addr` fetched ahead, as far as so many bytes reach, to read them for
/// loads, and to write them for stores.
fn fetch_behind<S: Setup, J: Naming, A: Allocator + Copy>(
    seated: &mut Seated<'_, S, A>,
    half: &Half<Answer, J>,
    kind: Row,
    addr: u64,
    bytes: usize,
)
    requires owned { IsOwned seated.old.site half.now }
    ensures ether { seated.new.ether ≡ seated.old.ether }
    ensures owned { IsOwned seated.new.site half.now }
{
    let page_size = u64::from(seated.site().config().page_size);
    let first = addr / page_size;
    let end = addr.saturating_add(bytes as u64).div_ceil(page_size);
    let most = first.saturating_add(1 + MOST_BEHIND);
    for page in first.saturating_add(1)..end.min(most) {
        fetch_page(seated, half, page, kind == Row::Stores);
    }
}

/// The owner of node `me` takes the replies to the loads in a row from `addr` on that are in progress. None where the site
/// is of another node.
fn take_loads_at<S: Setup, J: Naming, A: Allocator + Copy>(
    seated: &mut Seated<'_, S, A>,
    half: &mut Half<Answer, J>,
    side: &mut Side<'_, J, A>,
    addr: u64,
    into: &mut [u8],
) -> usize
    requires owned { IsOwned seated.old.site half.old }
    ensures ether { seated.new.ether ≡ seated.old.ether }
    ensures owned { IsOwned seated.new.site half.new }
    ensures grows { side.new ≡ grown_by (in_row Row.Loads addr (numbers_in result into.new)) side.old }
    ensures fits { 8 * result ≤ length into.old }
    ensures sized { length into.new ≡ length into.old }
{
    if seated.site().me() != side.me() {
        return 0;
    }
    let taken = seated.take_loads(addr, into);
    side.tell_row(half, Row::Loads, addr, taken, into);
    taken
}

/// The owner of node `me` takes the replies to the stores of these bytes in a row from `addr` on that are in progress. None
/// where the site is of another node.
fn take_stores_at<S: Setup, J: Naming, A: Allocator + Copy>(
    seated: &mut Seated<'_, S, A>,
    half: &mut Half<Answer, J>,
    side: &mut Side<'_, J, A>,
    addr: u64,
    from: &[u8],
) -> usize
    requires owned { IsOwned seated.old.site half.old }
    ensures ether { seated.new.ether ≡ seated.old.ether }
    ensures owned { IsOwned seated.new.site half.new }
    ensures grows { side.new ≡ grown_by (in_row Row.Stores addr (numbers_in result from.now)) side.old }
    ensures fits { 8 * result ≤ length from.now }
{
    if seated.site().me() != side.me() {
        return 0;
    }
    let taken = seated.take_stores(addr, from);
    side.tell_row(half, Row::Stores, addr, taken, from);
    taken
}

/// One turn more for the call of node `me` that is in progress [1, 17, 21].
fn go_on_at<S: Setup, J: Naming, A: Allocator + Copy>(
    seated: &mut Seated<'_, S, A>,
    half: &mut Half<Answer, J>,
    side: &mut Side<'_, J, A>,
    call: Call,
) -> Result<Option<Reply>, Fault>
    requires owned { IsOwned seated.old.site half.old }
    ensures ether { seated.new.ether ≡ seated.old.ether }
    ensures owned { IsOwned seated.new.site half.new }
    ensures grows { MatchResult result (λ reply. side.new ≡ grown call reply side.old) (λ _. side.new ≡ side.old) }
    ensures stop { IfErr result IsStop }
{
    if !is_asked(seated.site(), side.me(), call) {
        return Err(Fault::TurnLimit);
    }
    turn(seated, half, side, call)
}

/// A seated site whose program is own code, with one half of the list of its answers. The node's worker has the other.
///
/// Contracts see that half.
#[derive(Drop)]
pub struct Owned<'e, S: Setup, H: Home, J: Naming, A: Allocator> {
    seated: Seated<'e, S, A>,
    half: Half<Answer, J>,
    of: PhantomData<H>,
    /// Unused bytes: what each turn reads here lies on no line of the cache with the lock of the next place.
    apart: [u64; 8],
}

impl<'e, S: Setup, H: Home, J: Naming, A: Allocator> Model for Owned<'e, S, H, J, A> {
    ghost use Rattle.std.specs.Prelude.{◌≡◌};
    ghost use Rattle.ivy_own.specs.Known.{Listed};
    ghost use Rattle.ivy_calls.specs.declared.answer.Answer.{Answer};
    ghost use Rattle.ivy_own.specs.OwnSeats.{IsOwned};

    ghost Value = { Listed Answer };

    ghost view = { λ o. o.half };

    ghost invariant = { λ o. (o.seated.ether ≡ H.ether) × IsOwned o.seated.site o.half };
}

impl<'e, S: Setup, H: Home, J: Naming, A: Allocator + Copy> Owned<'e, S, H, J, A> {
    /// The seated site, with one half of what it was answered.
    pub fn new(seated: Seated<'e, S, A>, half: Half<Answer, J>) -> Self
        requires home { seated.ether ≡ H.ether }
        requires owned { IsOwned seated.site half }
    {
        Owned {
            seated,
            half,
            of: PhantomData,
            apart: [0; 8],
        }
    }

    /// The site.
    pub fn site(&self) -> &Site<A>
        ensures { IsOwned result.now self.now }
    {
        self.seated.site()
    }

    /// The seated site, in its session.
    pub fn into_homed(self) -> Homed<'e, S, H, A>
        ensures { IsOwned result.seated.site self.entry }
    {
        let Owned {
            seated,
            half: _,
            of: _,
            apart: _,
        } = self;
        Homed::new(seated)
    }

    /// Takes what is left in the ether, so many items at most.
    pub fn drain<R: Wait>(&mut self, rt: &R, most: u64) {
        self.seated.drain(rt, most);
    }

    /// The seated site, where it is of this node [21]. The worker's half knows what the node was answered.
    pub fn agree(
        self,
        tie: &Tie<Answer, J, A>,
        mine: Half<Answer, J>,
        node: u8,
    ) -> Result<Homed<'e, S, H, A>, Fault>
        requires { mine.number ≡ node }
        ensures answers { IfOk result (λ homed. mine.list ≡ answers homed.seated.site.node.core.history) }
        ensures stop { IfErr result IsStop }
    {
        let Owned {
            seated,
            mut half,
            of: _,
            apart: _,
        } = self;
        let mut mine = mine;
        if seated.site().me() != node {
            return Err(Fault::TurnLimit);
        }
        tie.agree(&mut half, &mut mine);
        Ok(Homed::new(seated))
    }
}

impl<'e, S: Setup, H: Home, J: Naming, A: Allocator + Copy> Seat for Owned<'e, S, H, J, A> {
    fn records(&self) -> u64 {
        self.seated.records()
    }

    fn waiting(&self) -> Option<u8> {
        if self.seated.has_frame() {
            Some(self.seated.next_destination().unwrap_or(u8::MAX))
        } else {
            None
        }
    }

    fn wire_turn<R: Wait>(&mut self, rt: &R, pulses: &mut Pulses) -> Result<Traffic, Fault> {
        turn_on_wire(rt, &mut self.seated, pulses)
    }
}

impl<'e, S: Setup, H: Home, J: Naming, A: Allocator + Copy> OwnSeat<J, A>
    for Owned<'e, S, H, J, A> {
    #[inline(always)]
    fn begin(&mut self, side: &mut Side<'_, J, A>, call: Call) -> Result<Option<Reply>, Fault> {
        begin_at(&mut self.seated, &mut self.half, side, call)
    }

    fn go_on(&mut self, side: &mut Side<'_, J, A>, call: Call) -> Result<Option<Reply>, Fault> {
        go_on_at(&mut self.seated, &mut self.half, side, call)
    }

    #[inline(always)]
    fn load_row(&mut self, side: &mut Side<'_, J, A>, addr: u64, into: &mut [u8]) -> usize {
        load_row_at(&mut self.seated, &mut self.half, side, addr, into)
    }

    #[inline(always)]
    fn store_row(&mut self, side: &mut Side<'_, J, A>, addr: u64, from: &[u8]) -> usize {
        store_row_at(&mut self.seated, &mut self.half, side, addr, from)
    }

    fn call_row(&mut self, me: u8, kind: Row, addr: u64, bytes: &[u8]) -> bool {
        call_row_at(&mut self.seated, &self.half, me, kind, addr, bytes)
    }

    fn fetch_ahead(&mut self, me: u8, addr: u64, write: bool) {
        fetch_at(&mut self.seated, &self.half, me, addr, write);
    }

    fn take_loads(&mut self, side: &mut Side<'_, J, A>, addr: u64, into: &mut [u8]) -> usize {
        take_loads_at(&mut self.seated, &mut self.half, side, addr, into)
    }

    fn take_stores(&mut self, side: &mut Side<'_, J, A>, addr: u64, from: &[u8]) -> usize {
        take_stores_at(&mut self.seated, &mut self.half, side, addr, from)
    }
}
