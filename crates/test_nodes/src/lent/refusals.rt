//! What is refused where pages are lent.
use crate::lent::driven::{PAGES, address};
use crate::lent::words::SIZE;
use ivy_embedded::{
    Declined, Embedded, LOAD, Lending, STORE, TakenString, Want, call_of, config_of,
};
use ivy_model::{Fault, Reply};
use ivy_site::Verdict;
use std::alloc::Global;
use std::process::Abort;

/// Of three nodes node 0 manages this page.
const MANAGED: u32 = 3;

/// Node `me` of two, under managing nodes. Node 0 has all pages at first.
fn node(rt: &impl Abort, alloc: Global, pages: u32, me: u8) -> Embedded {
    let config = config_of(2, pages, SIZE as u32, 0).expect(rt, "a configuration");
    assert!(rt; me < config.nodes);
    Embedded::open(alloc, &config, me).expect(rt, "memory")
}

fn begin(
    rt: &impl Abort,
    node: &mut Embedded,
    kind: u32,
    addr: u64,
) -> Result<Option<Reply>, Declined> {
    let call = call_of(kind, 1, addr, 7, 0).expect(rt, "a call");
    if node.is_lent(call) {
        return Err(Declined::Lent);
    }
    match node.begin(call) {
        Ok(reply) => Ok(reply),
        Err(fault) => Err(Declined::Fault(fault)),
    }
}

/// The first page, pages that are not there, what is lent for as much, or for nothing.
#[test]
fn no_such_lending(rt: HostRuntime) {
    let mut node = node(&rt, rt.alloc(), PAGES as u32, 0);
    let none = Err(Declined::NoSuchLending);
    assert!(rt; node.lend(0, Lending::ToRead) == none);
    assert!(rt; node.lend(PAGES as u32, Lending::ToRead) == none);
    assert!(rt; node.lend(1, Lending::Unlent) == none);
    assert!(rt; node.give_back(1, Lending::Unlent) == none);
    assert!(rt; node.lend(1, Lending::ToRead) == Ok(()));
    assert!(rt; node.lend(1, Lending::ToRead) == none);
    assert!(rt; node.give_back(1, Lending::ToRead) == none);
    assert!(rt; node.lend(1, Lending::ToWrite) == Ok(()));
    assert!(rt; node.give_back(1, Lending::ToWrite) == none);
    assert!(rt; node.give_back(1, Lending::ToRead) == Ok(()));
    assert!(rt; node.give_back(1, Lending::Unlent) == Ok(()));
    assert!(rt; node.give_back(1, Lending::Unlent) == none);
}

/// A page that another node has is not here, nor is one that a call waits for.
#[test]
fn not_here(rt: HostRuntime) {
    let mut node = node(&rt, rt.alloc(), PAGES as u32, 1);
    assert!(rt; node.lend(1, Lending::ToRead) == Err(Declined::NotHere));
    assert!(rt; begin(&rt, &mut node, LOAD, address(1)) == Ok(None));
    assert!(rt; node.lend(1, Lending::ToRead) == Err(Declined::NotHere));
    assert!(rt; begin(&rt, &mut node, LOAD, address(2)) == Err(Declined::Fault(Fault::Busy)));
}

/// A page that another node has is fetched once. One that is not there, or that is to be neither read nor written, is refused.
#[test]
fn pages_fetched_ahead(rt: HostRuntime) {
    let mut node = node(&rt, rt.alloc(), 300, 1);
    let none = Err(Declined::NoSuchLending);
    assert!(rt; node.fetch(300, Lending::ToRead) == none);
    assert!(rt; node.fetch(1, Lending::Unlent) == none);
    for page in 1..8 {
        assert!(rt; node.fetch(page, Lending::ToRead) == Ok(true));
        assert!(rt; node.fetch(page, Lending::ToWrite) == Ok(false));
        assert!(rt; node.lend(page, Lending::ToRead) == Err(Declined::NotHere));
    }
    assert!(rt; node.fetch(8, Lending::ToRead) == Ok(false));
    assert!(rt; node.turns() == 7);
}

/// Calls and blocks at pages that are lent, beside those that the memory refuses itself.
#[test]
fn calls_at_lent_pages(rt: HostRuntime) {
    let mut node = node(&rt, rt.alloc(), 300, 0);
    let mut bytes = [0; SIZE];
    assert!(rt; node.lend(1, Lending::ToRead) == Ok(()));
    assert!(rt; node.lend(2, Lending::ToWrite) == Ok(()));
    assert!(rt; begin(&rt, &mut node, LOAD, address(1)) == Ok(Some(Reply::Value(0))));
    assert!(rt; begin(&rt, &mut node, STORE, address(1)) == Err(Declined::Lent));
    assert!(rt; begin(&rt, &mut node, LOAD, address(2)) == Err(Declined::Lent));
    assert!(rt; begin(&rt, &mut node, STORE, address(3)) == Ok(Some(Reply::Done)));
    assert!(rt; begin(&rt, &mut node, LOAD, address(300)) == Ok(Some(Reply::Refused(4))));
    assert!(rt; node.load_row(address(1), &mut bytes) == SIZE / 8);
    assert!(rt; node.load_row(address(2), &mut bytes) == SIZE / 8);
    assert!(rt; node.store_row(address(1), &bytes) == Err(Declined::Lent));
    // The page was made when it was lent, so that all of it is stored.
    assert!(rt; node.store_row(address(2), &bytes) == Ok(SIZE / 8));
    assert!(rt; node.store_row(address(4), &bytes) == Ok(0));
}

/// The first page and one that is not there are never lent, so they are not given back either.
#[test]
fn pages_that_are_never_lent(rt: HostRuntime) {
    let mut node = node(&rt, rt.alloc(), PAGES as u32, 0);
    let none = Err(Declined::NoSuchLending);
    for page in [0, PAGES as u32, u32::MAX] {
        assert!(rt; node.lend(page, Lending::ToWrite) == none);
        assert!(rt; node.give_back(page, Lending::Unlent) == none);
        assert!(rt; node.give_back(page, Lending::ToRead) == none);
    }
}

/// The first string that waits at a node.
fn string_of(rt: &impl Abort, alloc: Global, node: &mut Embedded) -> Vec<u8, Global> {
    let mut buffer = [0; 128];
    let mut string = Vec::new(alloc);
    match node.take_into(&mut buffer) {
        TakenString::Given(len, _) => {
            let bytes = buffer.get(..len).expect(rt, "a string");
            string.extend_from_slice(bytes).expect(rt, "memory");
        }
        TakenString::TooLong(_) | TakenString::Nothing => assert!(rt; false, "no string"),
    }
    string
}

/// A string that wants no page, and what it is answered.
fn wants_nothing(
    rt: &impl Abort,
    node: &mut Embedded,
    string: &[u8],
    wanted: Result<Verdict, Declined>,
) {
    assert!(rt; node.wanted(string) == None);
    let answer = node.deliver(string);
    assert!(rt; answer == wanted, "{answer:?}");
    assert!(rt; node.lend(MANAGED, Lending::ToWrite) == Err(Declined::NoSuchLending));
}

/// The same string, but for the byte in this place.
fn with_byte(
    rt: &impl Abort,
    alloc: Global,
    string: &[u8],
    place: usize,
    byte: u8,
) -> Vec<u8, Global> {
    let mut other = Vec::new(alloc);
    other.extend_from_slice(string).expect(rt, "memory");
    *other.get_mut(place).expect(rt, "a byte") = byte;
    other
}

/// Parts of a request, one of a page that is not there, and one to another node come to a node that has lent the page.
fn hostile_strings_come(rt: &impl Abort, alloc: Global, node: &mut Embedded, request: &[u8]) {
    for len in 0..request.len() {
        let part = request.get(..len).expect(rt, "a part");
        wants_nothing(rt, node, part, Err(Declined::Fault(Fault::ShortFrame)));
    }
    let no_kind = with_byte(rt, alloc, request, 3, 11);
    wants_nothing(rt, node, &no_kind, Err(Declined::Fault(Fault::BadKind)));
    let no_page = with_byte(rt, alloc, request, 36, PAGES as u8);
    wants_nothing(rt, node, &no_page, Err(Declined::Fault(Fault::BadBody)));
    let foreign = with_byte(rt, alloc, request, 5, 1);
    wants_nothing(rt, node, &foreign, Ok(Verdict::NotMine));
}

/// The request of node `me` of three for that page.
fn request_of(rt: &impl Abort, alloc: Global, me: u8, kind: u32) -> Vec<u8, Global> {
    let config = config_of(3, PAGES as u32, SIZE as u32, 0).expect(rt, "a configuration");
    assert!(rt; me < config.nodes);
    let mut node = Embedded::open(alloc, &config, me).expect(rt, "memory");
    assert!(rt; begin(rt, &mut node, kind, address(MANAGED)) == Ok(None));
    string_of(rt, alloc, &mut node)
}

/// Strings that are no frames, foreign ones, one ahead and a repeat take nothing that is lent. A request to read takes the
/// right to write, one to write all: until then both are refused, however often they come.
#[test]
fn strings_while_a_page_is_lent(rt: HostRuntime) {
    let config = config_of(3, PAGES as u32, SIZE as u32, 0).expect(&rt, "a configuration");
    assert!(rt; config.nodes > 0);
    let mut node = Embedded::open(rt.alloc(), &config, 0).expect(&rt, "memory");
    let reads = request_of(&rt, rt.alloc(), 2, LOAD);
    let writes = request_of(&rt, rt.alloc(), 1, STORE);
    assert!(rt; node.lend(MANAGED, Lending::ToWrite) == Ok(()));
    hostile_strings_come(&rt, rt.alloc(), &mut node, &reads);
    let ahead = with_byte(&rt, rt.alloc(), &reads, 15, 2);
    wants_nothing(&rt, &mut node, &ahead, Ok(Verdict::Ahead));
    takes(&rt, &mut node, &reads, Lending::ToRead);
    assert!(rt; node.wanted(&reads) == None);
    assert!(rt; node.deliver(&reads) == Ok(Verdict::Repeat));
    takes(&rt, &mut node, &writes, Lending::Unlent);
    assert!(rt; node.lend(MANAGED, Lending::ToRead) == Err(Declined::NotHere));
}

/// A string takes that page, but for this: it is refused until that is given back.
fn takes(rt: &impl Abort, node: &mut Embedded, string: &[u8], on: Lending) {
    let want = Want { page: MANAGED, on };
    for _ in 0..2 {
        assert!(rt; node.wanted(string) == Some(want));
        assert!(rt; node.deliver(string) == Err(Declined::Wanted(want)));
    }
    assert!(rt; node.give_back(MANAGED, on) == Ok(()));
    assert!(rt; node.wanted(string) == None);
    assert!(rt; node.deliver(string) == Ok(Verdict::Next));
}
