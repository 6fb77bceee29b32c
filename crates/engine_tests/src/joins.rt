//! Worked histories in which sessions join and come back, in lists of steps.
use crate::cuts::{
    FENCE_0_1, FENCE_INIT, FIRST_CUT, History, READS_5_OF_0_0, WRITES_5, assert_history,
};
use crate::steps::{Act, Content, ID_0_0, ID_0_1, ID_0_2, ID_1_0, ID_2_0, Want};
use order_check::Kind::{Serial, Violated};
use std::test::*;
use txn::Refusal::{BadSession, BadTxn, Gap, NoCut, NotAnchored, Repeat, RoundOpen};
use txn::Source::By;

const FENCE_0_0: Content = (&[(0, By(ID_0_0))], &[0]);

pub const FENCE_1_0: Content = (&[(0, By(ID_1_0))], &[0]);

const FENCE_2_0: Content = (&[(0, By(ID_2_0))], &[0]);

static HISTORIES: [History; 7] = [
    History {
        name: "a session joins at a fence that remains",
        sessions: 2,
        row: &[
            (Act::Offer(0, 0, WRITES_5), Want::Done),
            (Act::Offer(0, 1, FENCE_INIT), Want::Done),
            (Act::Offer(1, 0, FENCE_0_1), Want::Done),
            (Act::Begin, Want::Done),
            (Act::Finish, Want::Explained(1, Serial, &[2, 1])),
            (Act::Truncate, FIRST_CUT),
            (Act::Join(2, 0, FENCE_1_0), Want::Done),
            (Act::Begin, Want::Done),
            (
                Act::Finish,
                Want::Report(2, Serial, &[2, 1, 1], &[ID_1_0, ID_2_0]),
            ),
        ],
        left: 2,
    },
    // Both fences would come next after the one that is gone.
    History {
        name: "a session joins at the base's fence",
        sessions: 2,
        row: &[
            (Act::Offer(0, 0, WRITES_5), Want::Done),
            (Act::Offer(0, 1, FENCE_INIT), Want::Done),
            (Act::Offer(1, 0, FENCE_0_1), Want::Done),
            (Act::Begin, Want::Done),
            (Act::Finish, Want::Explained(1, Serial, &[2, 1])),
            (Act::Truncate, FIRST_CUT),
            (Act::Join(2, 0, FENCE_0_1), Want::Done),
            (Act::Begin, Want::Done),
            (Act::Finish, Want::Report(2, Violated, &[2, 1, 1], &[])),
        ],
        left: 2,
    },
    History {
        name: "joins that are refused",
        sessions: 2,
        row: &[
            (Act::Offer(0, 0, WRITES_5), Want::Done),
            (Act::Offer(0, 1, FENCE_INIT), Want::Done),
            (Act::Offer(1, 0, FENCE_0_1), Want::Done),
            (Act::Begin, Want::Done),
            (Act::Finish, Want::Explained(1, Serial, &[2, 1])),
            (Act::Truncate, FIRST_CUT),
            (Act::Join(2, 0, FENCE_INIT), Want::No(NotAnchored)),
            (Act::Join(2, 0, WRITES_5), Want::No(NotAnchored)),
            (Act::Join(2, 0, FENCE_0_0), Want::No(NotAnchored)),
            (Act::Join(2, 0, FENCE_2_0), Want::No(BadTxn)),
            (Act::Join(2, 1, FENCE_1_0), Want::No(Gap)),
            (Act::Join(3, 0, FENCE_1_0), Want::No(BadSession)),
            (Act::Join(0, 0, FENCE_1_0), Want::No(BadSession)),
            (Act::Begin, Want::Done),
            (Act::Join(2, 0, FENCE_1_0), Want::No(RoundOpen)),
        ],
        left: 1,
    },
    History {
        name: "a join drops the cut that is held",
        sessions: 2,
        row: &[
            (Act::Offer(0, 0, WRITES_5), Want::Done),
            (Act::Offer(0, 1, FENCE_INIT), Want::Done),
            (Act::Offer(1, 0, FENCE_0_1), Want::Done),
            (Act::Begin, Want::Done),
            (Act::Finish, Want::Explained(1, Serial, &[2, 1])),
            (Act::Join(2, 0, FENCE_1_0), Want::Done),
            (Act::Truncate, Want::No(NoCut)),
            (Act::Begin, Want::Done),
            (
                Act::Finish,
                Want::Report(2, Serial, &[2, 1, 1], &[ID_0_0, ID_0_1, ID_1_0, ID_2_0]),
            ),
            (Act::Truncate, FIRST_CUT),
        ],
        left: 2,
    },
    // It goes on after that, and is past the fence that it read from.
    History {
        name: "a session comes back at a fence that remains",
        sessions: 2,
        row: &[
            (Act::Offer(0, 0, WRITES_5), Want::Done),
            (Act::Offer(0, 1, FENCE_INIT), Want::Done),
            (Act::Offer(1, 0, FENCE_0_1), Want::Done),
            (Act::Begin, Want::Done),
            (Act::Finish, Want::Explained(1, Serial, &[2, 1])),
            (Act::Truncate, FIRST_CUT),
            (Act::Close(0), Want::Done),
            (Act::Join(0, 2, FENCE_1_0), Want::Done),
            (Act::Begin, Want::Done),
            (
                Act::Finish,
                Want::Report(2, Serial, &[3, 1], &[ID_1_0, ID_0_2]),
            ),
            (Act::Offer(0, 3, READS_5_OF_0_0), Want::Done),
            (Act::Truncate, Want::Cut(ID_1_0, &[ID_1_0], &[(0, ID_1_0)])),
            (Act::Begin, Want::Done),
            (Act::Finish, Want::Explained(3, Serial, &[4, 1])),
        ],
        left: 2,
    },
    History {
        name: "a session comes back at the base's fence",
        sessions: 2,
        row: &[
            (Act::Offer(0, 0, WRITES_5), Want::Done),
            (Act::Offer(0, 1, FENCE_INIT), Want::Done),
            (Act::Offer(1, 0, FENCE_0_1), Want::Done),
            (Act::Begin, Want::Done),
            (Act::Finish, Want::Explained(1, Serial, &[2, 1])),
            (Act::Truncate, FIRST_CUT),
            (Act::Close(0), Want::Done),
            (Act::Join(0, 2, FENCE_0_1), Want::Done),
            (Act::Begin, Want::Done),
            (Act::Finish, Want::Report(2, Violated, &[3, 1], &[])),
        ],
        left: 2,
    },
    // While something of it remains, and while it is open, it has nothing to come back to.
    History {
        name: "sessions that don't come back",
        sessions: 2,
        row: &[
            (Act::Offer(0, 0, WRITES_5), Want::Done),
            (Act::Offer(0, 1, FENCE_INIT), Want::Done),
            (Act::Offer(1, 0, FENCE_0_1), Want::Done),
            (Act::Begin, Want::Done),
            (Act::Finish, Want::Explained(1, Serial, &[2, 1])),
            (Act::Close(0), Want::Done),
            (Act::Join(0, 2, FENCE_1_0), Want::No(BadSession)),
            (Act::Truncate, FIRST_CUT),
            (Act::Join(0, 1, FENCE_1_0), Want::No(Repeat)),
            (Act::Join(0, 3, FENCE_1_0), Want::No(Gap)),
            (Act::Join(0, 2, WRITES_5), Want::No(NotAnchored)),
            (Act::Join(1, 1, FENCE_1_0), Want::No(BadSession)),
        ],
        left: 1,
    },
];

fn histories() -> &'static [History] {
    &HISTORIES
}

#[test]
fn sessions_join_and_come_back_as_they_must(rt: HostRuntime) -> Result<(), Fail> {
    for history in histories() {
        assert_history(&rt, rt.alloc(), history)?;
    }
    Ok(())
}
