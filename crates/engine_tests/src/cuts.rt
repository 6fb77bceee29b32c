//! Worked histories with cuts, in lists of steps.
use crate::steps::{Act, Content, ID_0_0, ID_0_1, ID_0_2, ID_1_0, ID_1_1, Row, Want, assert_run};
use order_check::Kind::{Pending, Serial, Violated};
use round_state::Engine;
use std::alloc::Global;
use std::process::Abort;
use std::test::*;
use txn::Refusal::{self, BadCertificate, Gap, NoCut, NoRound, Repeat, RoundOpen};
use txn::Source::{By, Init};

pub const WRITES_5: Content = (&[], &[5]);

pub const FENCE_INIT: Content = (&[(0, Init)], &[0]);

pub const FENCE_0_1: Content = (&[(0, By(ID_0_1))], &[0]);

pub const FENCE_0_2: Content = (&[(0, By(ID_0_2))], &[0]);

const FENCE_1_1: Content = (&[(0, By(ID_1_1))], &[0]);

pub const READS_5_INIT: Content = (&[(5, Init)], &[]);

pub const READS_5_OF_0_0: Content = (&[(5, By(ID_0_0))], &[]);

const READS_5_OF_1_0: Content = (&[(5, By(ID_1_0))], &[]);

const READS_5_OF_1_1: Content = (&[(5, By(ID_1_1))], &[]);

pub const FIRST_CUT: Want = Want::Cut(ID_0_1, &[ID_0_0, ID_0_1], &[(0, ID_0_1), (5, ID_0_0)]);

const CUT_OF_GONE_READ: Want = Want::Cut(
    ID_0_2,
    &[ID_0_0, ID_0_1, ID_0_2],
    &[(0, ID_0_2), (5, ID_0_1)],
);

const CUT_OF_ORDERED_WRITERS: Want = Want::Cut(
    ID_1_1,
    &[ID_0_0, ID_0_1, ID_1_0, ID_1_1],
    &[(0, ID_1_1), (5, ID_1_0)],
);

/// A fresh engine's sessions, its steps with their replies, and how many transactions remain after them.
pub struct History {
    pub name: &'static str,
    pub sessions: u64,
    pub row: Row,
    pub left: usize,
}

static HISTORIES: [History; 14] = [
    History {
        name: "first cut",
        sessions: 2,
        row: &[
            (Act::Offer(0, 0, WRITES_5), Want::Done),
            (Act::Offer(0, 1, FENCE_INIT), Want::Done),
            (Act::Offer(1, 0, FENCE_0_1), Want::Done),
            (Act::Begin, Want::Done),
            (Act::Truncate, Want::No(RoundOpen)),
            (
                Act::Finish,
                Want::Report(1, Serial, &[2, 1], &[ID_0_0, ID_0_1, ID_1_0]),
            ),
            (Act::Truncate, FIRST_CUT),
            (Act::Truncate, Want::No(NoCut)),
        ],
        left: 1,
    },
    // An order that is handed in is judged, and finds the cut as that of a search does.
    History {
        name: "first cut, by an order from elsewhere",
        sessions: 2,
        row: &[
            (Act::Offer(0, 0, WRITES_5), Want::Done),
            (Act::Offer(0, 1, FENCE_INIT), Want::Done),
            (Act::Offer(1, 0, FENCE_0_1), Want::Done),
            (Act::Judge(&[ID_0_0, ID_0_1, ID_1_0]), Want::No(NoRound)),
            (Act::Begin, Want::Done),
            (
                Act::Judge(&[ID_0_1, ID_0_0, ID_1_0]),
                Want::No(BadCertificate),
            ),
            (Act::Truncate, Want::No(RoundOpen)),
            (
                Act::Judge(&[ID_0_0, ID_0_1, ID_1_0]),
                Want::Report(1, Serial, &[2, 1], &[ID_0_0, ID_0_1, ID_1_0]),
            ),
            (Act::Truncate, FIRST_CUT),
        ],
        left: 1,
    },
    History {
        name: "after the first cut",
        sessions: 2,
        row: &[
            (Act::Offer(0, 0, WRITES_5), Want::Done),
            (Act::Offer(0, 1, FENCE_INIT), Want::Done),
            (Act::Offer(1, 0, FENCE_0_1), Want::Done),
            (Act::Begin, Want::Done),
            (Act::Finish, Want::Explained(1, Serial, &[2, 1])),
            (Act::Truncate, FIRST_CUT),
            (Act::Offer(0, 0, WRITES_5), Want::No(Repeat)),
            (Act::Offer(0, 3, WRITES_5), Want::No(Gap)),
            (Act::Offer(0, 2, READS_5_OF_0_0), Want::Done),
            (Act::Begin, Want::Done),
            (Act::Rebuild, Want::No(RoundOpen)),
            (Act::Finish, Want::Explained(2, Serial, &[3, 1])),
            (Act::Rebuild, Want::Done),
            (Act::Begin, Want::Done),
            (Act::Finish, Want::Explained(1, Serial, &[3, 1])),
        ],
        left: 2,
    },
    // A transaction that arrives while the round is open stays, and reads from the base.
    History {
        name: "first cut, grown",
        sessions: 2,
        row: &[
            (Act::Offer(0, 0, WRITES_5), Want::Done),
            (Act::Offer(0, 1, FENCE_INIT), Want::Done),
            (Act::Offer(1, 0, FENCE_0_1), Want::Done),
            (Act::Begin, Want::Done),
            (Act::Offer(1, 1, READS_5_OF_0_0), Want::Done),
            (
                Act::Finish,
                Want::Report(1, Serial, &[2, 1], &[ID_0_0, ID_0_1, ID_1_0]),
            ),
            (Act::Truncate, FIRST_CUT),
            (Act::Begin, Want::Done),
            (
                Act::Finish,
                Want::Report(2, Serial, &[2, 2], &[ID_1_0, ID_1_1]),
            ),
        ],
        left: 2,
    },
    // A cut that is held is dropped by a rebuild.
    History {
        name: "first cut, rebuilt",
        sessions: 2,
        row: &[
            (Act::Offer(0, 0, WRITES_5), Want::Done),
            (Act::Offer(0, 1, FENCE_INIT), Want::Done),
            (Act::Offer(1, 0, FENCE_0_1), Want::Done),
            (Act::Begin, Want::Done),
            (Act::Finish, Want::Explained(1, Serial, &[2, 1])),
            (Act::Rebuild, Want::Done),
            (Act::Truncate, Want::No(NoCut)),
            (Act::Begin, Want::Done),
            (Act::Finish, Want::Explained(1, Serial, &[2, 1])),
            (Act::Truncate, FIRST_CUT),
        ],
        left: 1,
    },
    History {
        name: "read from a gone one",
        sessions: 2,
        row: &[
            (Act::Offer(0, 0, WRITES_5), Want::Done),
            (Act::Offer(0, 1, (&[(5, By(ID_0_0))], &[5])), Want::Done),
            (Act::Offer(0, 2, FENCE_INIT), Want::Done),
            (Act::Offer(1, 0, FENCE_0_2), Want::Done),
            (Act::Begin, Want::Done),
            (
                Act::Finish,
                Want::Report(1, Serial, &[3, 1], &[ID_0_0, ID_0_1, ID_0_2, ID_1_0]),
            ),
            (Act::Truncate, CUT_OF_GONE_READ),
            (Act::Offer(1, 1, READS_5_OF_0_0), Want::Done),
            (Act::Begin, Want::Done),
            (Act::Finish, Want::Gone(2, &[3, 2], ID_1_1, 5)),
        ],
        left: 2,
    },
    // What arrives between the round and the cut closes a cycle with what is gone.
    History {
        name: "read from one that goes",
        sessions: 2,
        row: &[
            (Act::Offer(0, 0, WRITES_5), Want::Done),
            (Act::Offer(0, 1, (&[(5, By(ID_0_0))], &[5])), Want::Done),
            (Act::Offer(0, 2, FENCE_INIT), Want::Done),
            (Act::Offer(1, 0, FENCE_0_2), Want::Done),
            (Act::Begin, Want::Done),
            (Act::Finish, Want::Explained(1, Serial, &[3, 1])),
            (Act::Offer(1, 1, READS_5_OF_0_0), Want::Done),
            (Act::Truncate, CUT_OF_GONE_READ),
            (Act::Begin, Want::Done),
            (Act::Finish, Want::Gone(2, &[3, 2], ID_1_1, 5)),
        ],
        left: 2,
    },
    History {
        name: "silent session",
        sessions: 3,
        row: &[
            (Act::Offer(0, 0, WRITES_5), Want::Done),
            (Act::Offer(0, 1, FENCE_INIT), Want::Done),
            (Act::Offer(1, 0, FENCE_0_1), Want::Done),
            (Act::Begin, Want::Done),
            (Act::Finish, Want::Explained(1, Serial, &[2, 1, 0])),
            (Act::Truncate, Want::No(NoCut)),
            (Act::Close(2), Want::Done),
            (Act::Truncate, Want::No(NoCut)),
            (Act::Begin, Want::Done),
            (Act::Finish, Want::Explained(2, Serial, &[2, 1, 0])),
            (Act::Truncate, FIRST_CUT),
        ],
        left: 1,
    },
    History {
        name: "writers without an order",
        sessions: 2,
        row: &[
            (Act::Offer(0, 0, WRITES_5), Want::Done),
            (Act::Offer(1, 0, WRITES_5), Want::Done),
            (Act::Offer(0, 1, FENCE_INIT), Want::Done),
            (Act::Offer(1, 1, FENCE_0_1), Want::Done),
            (Act::Offer(0, 2, FENCE_1_1), Want::Done),
            (Act::Begin, Want::Done),
            (Act::Finish, Want::Explained(1, Serial, &[3, 2])),
            (Act::Truncate, Want::No(NoCut)),
            (Act::Offer(0, 3, READS_5_OF_1_0), Want::Done),
            (Act::Begin, Want::Done),
            (Act::Finish, Want::Explained(2, Serial, &[4, 2])),
            (Act::Truncate, CUT_OF_ORDERED_WRITERS),
        ],
        left: 2,
    },
    // What orders the writers arrives while the round is open.
    History {
        name: "writers without an order, grown",
        sessions: 2,
        row: &[
            (Act::Offer(0, 0, WRITES_5), Want::Done),
            (Act::Offer(1, 0, WRITES_5), Want::Done),
            (Act::Offer(0, 1, FENCE_INIT), Want::Done),
            (Act::Offer(1, 1, FENCE_0_1), Want::Done),
            (Act::Offer(0, 2, FENCE_1_1), Want::Done),
            (Act::Begin, Want::Done),
            (Act::Offer(0, 3, READS_5_OF_1_0), Want::Done),
            (Act::Finish, Want::Explained(1, Serial, &[3, 2])),
            (Act::Truncate, Want::No(NoCut)),
            (Act::Begin, Want::Done),
            (Act::Finish, Want::Explained(2, Serial, &[4, 2])),
            (Act::Truncate, CUT_OF_ORDERED_WRITERS),
        ],
        left: 2,
    },
    History {
        name: "verdict of the snapshot",
        sessions: 2,
        row: &[
            (Act::Offer(0, 0, WRITES_5), Want::Done),
            (Act::Offer(1, 0, READS_5_INIT), Want::Done),
            (Act::Begin, Want::Done),
            (Act::Offer(1, 1, READS_5_INIT), Want::Done),
            (Act::Offer(0, 1, READS_5_INIT), Want::Done),
            (
                Act::Finish,
                Want::Report(1, Serial, &[1, 1], &[ID_1_0, ID_0_0]),
            ),
            (Act::Begin, Want::Done),
            (Act::Finish, Want::Report(2, Violated, &[2, 2], &[])),
            (Act::Truncate, Want::No(NoCut)),
        ],
        left: 4,
    },
    History {
        name: "not a writer",
        sessions: 2,
        row: &[
            (Act::Offer(0, 0, READS_5_OF_1_0), Want::Done),
            (Act::Offer(0, 1, FENCE_INIT), Want::Done),
            (Act::Offer(1, 0, FENCE_0_1), Want::Done),
            (Act::Begin, Want::Done),
            (Act::Finish, Want::Report(1, Violated, &[2, 1], &[])),
            (Act::Truncate, Want::No(NoCut)),
        ],
        left: 3,
    },
    History {
        name: "not a writer yet",
        sessions: 2,
        row: &[
            (Act::Offer(0, 0, READS_5_OF_1_1), Want::Done),
            (Act::Offer(0, 1, FENCE_INIT), Want::Done),
            (Act::Offer(1, 0, FENCE_0_1), Want::Done),
            (Act::Begin, Want::Done),
            (
                Act::Finish,
                Want::Report(1, Pending, &[2, 1], &[ID_0_0, ID_0_1, ID_1_0]),
            ),
            (Act::Truncate, Want::No(NoCut)),
        ],
        left: 3,
    },
    History {
        name: "last of three settled fences",
        sessions: 2,
        row: &[
            (Act::Offer(0, 0, FENCE_INIT), Want::Done),
            (Act::Offer(1, 0, (&[(0, By(ID_0_0))], &[0])), Want::Done),
            (Act::Offer(0, 1, (&[(0, By(ID_1_0))], &[0])), Want::Done),
            (Act::Offer(1, 1, FENCE_0_1), Want::Done),
            (Act::Begin, Want::Done),
            (
                Act::Finish,
                Want::Report(1, Serial, &[2, 2], &[ID_0_0, ID_1_0, ID_0_1, ID_1_1]),
            ),
            (
                Act::Truncate,
                Want::Cut(ID_0_1, &[ID_0_0, ID_0_1, ID_1_0], &[(0, ID_0_1)]),
            ),
        ],
        left: 1,
    },
];

fn histories() -> &'static [History] {
    &HISTORIES
}

pub fn assert_history(rt: &impl Abort, alloc: Global, history: &History) -> Result<(), Refusal> {
    let mut engine = Engine::open(alloc, 64, history.sessions, 16)?;
    assert_run(rt, alloc, &mut engine, history.row)?;
    assert_eq!(rt; engine.remaining(), history.left, "{}", history.name);
    Ok(())
}

#[test]
fn histories_are_cut_as_they_must_be(rt: HostRuntime) -> Result<(), Fail> {
    for history in histories() {
        assert_history(&rt, rt.alloc(), history)?;
    }
    Ok(())
}
