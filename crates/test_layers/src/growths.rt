//! Each growth refused in turn in what a node does that has one call in progress: a call that begins, one that is asked
//! for its reply, and a message that comes. The node is as it was then, and goes on when it is tried again.

use crate::common::{Growing, Scene};
use crate::letters::{Bytes, Said};
use crate::memory::{Step, refuse};
use ivy_memory::CallProgress;
use ivy_model::{Call, Fault, Reply};

/// A call that has to ask for a copy does not begin.
#[test]
fn growths_of_a_call_that_asks(rt: HostRuntime) {
    refuse(&rt, &CALL_ASKS);
}

static CALL_ASKS: Growing<'static, Step> = Growing {
    before: &[],
    refused: Step::Awaits(1, 3, Err(Fault::Memory)),
    after: Scene {
        me: 1,
        steps: &[
            Step::Asked(None),
            Step::Posted(0),
            Step::Awaits(1, 3, Ok(CallProgress::Awaited)),
            Step::Comes(0, (Said::Copy(Bytes::Ones), 1, 3)),
            Step::Polls(Ok(CallProgress::Given(Reply::Value(u64::MAX)))),
        ],
        posted: &[(0, (Said::Request, 1, 3))],
    },
};

/// An await whose copy was given up asks for another one when it is asked for its reply. Where that is refused the
/// call is in progress still, under the same number.
#[test]
fn growths_of_a_reply_that_asks(rt: HostRuntime) {
    refuse(&rt, &REPLY_ASKS);
}

static REPLY_ASKS: Growing<'static, Step> = Growing {
    before: &[
        Step::Awaits(1, 3, Ok(CallProgress::Awaited)),
        Step::Comes(0, (Said::Copy(Bytes::Zeros), 1, 3)),
        Step::Comes(0, (Said::Order, 0, 9)),
    ],
    refused: Step::Polls(Err(Fault::Memory)),
    after: Scene {
        me: 1,
        steps: &[
            Step::Asked(Some(Call::Await { k: 0, least: 1 })),
            Step::Posted(2),
            Step::Polls(Ok(CallProgress::Awaited)),
            Step::Comes(0, (Said::Copy(Bytes::Ones), 1, 3)),
            Step::Polls(Ok(CallProgress::Given(Reply::Value(u64::MAX)))),
        ],
        posted: &[
            (0, (Said::Request, 1, 3)),
            (0, (Said::Acknowledgement, 0, 9)),
            (0, (Said::Request, 1, 3)),
        ],
    },
};

/// The page that a request asks for stays where it was, and is given when the request comes again.
#[test]
fn growths_of_a_request_for_the_page(rt: HostRuntime) {
    refuse(&rt, &REQUEST_FOR_THE_PAGE);
}

static REQUEST_FOR_THE_PAGE: Growing<'static, Step> = Growing {
    before: &[],
    refused: Step::Refuses(1, (Said::WriteRequest, 1, 7)),
    after: Scene {
        me: 0,
        steps: &[
            Step::Posted(0),
            Step::Reads(0, 1, Ok(CallProgress::Given(Reply::Value(0)))),
            Step::Comes(1, (Said::WriteRequest, 1, 7)),
            Step::Reads(0, 2, Ok(CallProgress::Awaited)),
            Step::Breaches(0),
        ],
        posted: &[
            (1, (Said::Whole(0, Bytes::Zeros), 1, 7)),
            (1, (Said::Request, 0, 2)),
        ],
    },
};
