//! Worked histories in which transactions aborted, in lists of steps.
use crate::cuts::{
    FENCE_0_1, FENCE_0_2, FENCE_INIT, History, READS_5_INIT, READS_5_OF_0_0, WRITES_5,
    assert_history,
};
use crate::joins::FENCE_1_0;
use crate::steps::{Act, Content, ID_0_0, ID_0_1, ID_0_2, ID_1_0, Want};
use logged_fragments::LoggedFragment;
use order_check::Kind::Serial;
use polygraph::{Single, Solver};
use round_state::{Engine, Report};
use std::alloc::Global;
use std::process::Abort;
use std::test::*;
use txn::Refusal::{BadFence, BadTxn, Gap, NoCut, NotAnchored, Repeat};
use txn::Source::By;
use txn::{Fragment, Refusal, Sequence, Txn, TxnId};

const ID_0_3: TxnId = TxnId {
    session: 0,
    number: 3,
};

const READS_5_OF_0_1: Content = (&[(5, By(ID_0_1))], &[]);

const READS_5_OF_1_7: Content = (
    &[(
        5,
        By(TxnId {
            session: 1,
            number: 7,
        }),
    )],
    &[],
);

const WRITES_0_AND_5: Content = (&[], &[0, 5]);

const WRITES_5_TWICE: Content = (&[], &[5, 5]);

static HISTORIES: [History; 9] = [
    History {
        name: "a read of what an aborted transaction wrote",
        sessions: 2,
        row: &[
            (Act::OfferAborted(0, 0, WRITES_5), Want::Done),
            (Act::Offer(1, 0, READS_5_OF_0_0), Want::Done),
            (Act::Begin, Want::Done),
            (Act::Finish, Want::NoWrite(1, &[1, 1], ID_1_0, 5)),
        ],
        left: 2,
    },
    History {
        name: "nobody sees what an aborted transaction wrote",
        sessions: 1,
        row: &[
            (Act::OfferAborted(0, 0, WRITES_5), Want::Done),
            (Act::Offer(0, 1, READS_5_INIT), Want::Done),
            (Act::Begin, Want::Done),
            (
                Act::Finish,
                Want::Report(1, Serial, &[2], &[ID_0_0, ID_0_1]),
            ),
        ],
        left: 2,
    },
    History {
        name: "a read from an aborted fence",
        sessions: 2,
        row: &[
            (Act::Offer(0, 0, WRITES_5), Want::Done),
            (Act::OfferAborted(0, 1, FENCE_INIT), Want::Done),
            (Act::Offer(1, 0, FENCE_0_1), Want::Done),
            (Act::Begin, Want::Done),
            (Act::Finish, Want::NoWrite(1, &[2, 1], ID_1_0, 0)),
        ],
        left: 3,
    },
    History {
        name: "an aborted fence is no fence",
        sessions: 2,
        row: &[
            (Act::Offer(0, 0, WRITES_5), Want::Done),
            (Act::OfferAborted(0, 1, FENCE_INIT), Want::Done),
            (Act::Offer(1, 0, FENCE_INIT), Want::Done),
            (Act::Begin, Want::Done),
            (Act::Finish, Want::Explained(1, Serial, &[2, 1])),
            (Act::Truncate, Want::No(NoCut)),
        ],
        left: 3,
    },
    History {
        name: "nothing waits for what an aborted transaction read",
        sessions: 2,
        row: &[
            (Act::OfferAborted(0, 0, READS_5_OF_1_7), Want::Done),
            (Act::Begin, Want::Done),
            (Act::Finish, Want::Report(1, Serial, &[1, 0], &[ID_0_0])),
        ],
        left: 1,
    },
    History {
        name: "what an aborted transaction lists is judged",
        sessions: 1,
        row: &[
            (Act::OfferAborted(0, 0, WRITES_0_AND_5), Want::No(BadFence)),
            (Act::OfferAborted(0, 0, WRITES_5_TWICE), Want::No(BadTxn)),
            (Act::Begin, Want::Done),
            (Act::JoinAborted(1, 0, WRITES_0_AND_5), Want::No(BadFence)),
            (Act::Finish, Want::Report(1, Serial, &[0], &[])),
        ],
        left: 0,
    },
    History {
        name: "an aborted transaction keeps its number",
        sessions: 1,
        row: &[
            (Act::OfferAborted(0, 0, WRITES_5), Want::Done),
            (Act::OfferAborted(0, 0, WRITES_5), Want::No(Repeat)),
            (Act::Offer(0, 2, WRITES_5), Want::No(Gap)),
            (Act::Offer(0, 1, WRITES_5), Want::Done),
            (Act::Offer(0, 2, READS_5_OF_0_1), Want::Done),
            (Act::Begin, Want::Done),
            (
                Act::Finish,
                Want::Report(1, Serial, &[3], &[ID_0_0, ID_0_1, ID_0_2]),
            ),
        ],
        left: 3,
    },
    History {
        name: "an aborted writer is not a last writer of what is gone",
        sessions: 2,
        row: &[
            (Act::Offer(0, 0, WRITES_5), Want::Done),
            (Act::OfferAborted(0, 1, WRITES_5), Want::Done),
            (Act::Offer(0, 2, FENCE_INIT), Want::Done),
            (Act::Offer(1, 0, FENCE_0_2), Want::Done),
            (Act::Begin, Want::Done),
            (Act::Finish, Want::Explained(1, Serial, &[3, 1])),
            (
                Act::Truncate,
                Want::Cut(
                    ID_0_2,
                    &[ID_0_0, ID_0_1, ID_0_2],
                    &[(0, ID_0_2), (5, ID_0_0)],
                ),
            ),
            (Act::Offer(1, 1, READS_5_OF_0_0), Want::Done),
            (Act::Begin, Want::Done),
            (Act::Finish, Want::Explained(2, Serial, &[3, 2])),
            (Act::Offer(0, 3, READS_5_OF_0_1), Want::Done),
            (Act::Begin, Want::Done),
            (Act::Finish, Want::Gone(3, &[4, 2], ID_0_3, 5)),
        ],
        left: 3,
    },
    History {
        name: "a session joins neither with an aborted fence nor at one",
        sessions: 2,
        row: &[
            (Act::Offer(0, 0, WRITES_5), Want::Done),
            (Act::Offer(0, 1, FENCE_INIT), Want::Done),
            (Act::Offer(1, 0, FENCE_0_1), Want::Done),
            (Act::JoinAborted(2, 0, FENCE_1_0), Want::No(NotAnchored)),
            (Act::OfferAborted(0, 2, FENCE_1_0), Want::Done),
            (Act::Join(2, 0, FENCE_0_2), Want::No(NotAnchored)),
            (Act::Join(2, 0, FENCE_1_0), Want::Done),
        ],
        left: 5,
    },
];

fn histories() -> &'static [History] {
    &HISTORIES
}

#[test]
fn aborted_transactions_do_nothing(rt: HostRuntime) -> Result<(), Fail> {
    for history in histories() {
        assert_history(&rt, rt.alloc(), history)?;
    }
    Ok(())
}

fn txn_of(alloc: Global, content: Content) -> Result<Txn, txn::NoMemory> {
    Ok(Txn {
        reads: Sequence::new(content.0.to_vec(alloc)?),
        writes: Sequence::new(content.1.to_vec(alloc)?),
    })
}

/// Two writers of key 5, of which the second aborted, and a reader of the first. No flag says that the reader committed.
fn three(alloc: Global) -> Result<LoggedFragment, txn::NoMemory> {
    let first = txn_of(alloc, WRITES_5)?;
    let second = txn_of(alloc, WRITES_5)?;
    let third = txn_of(alloc, READS_5_OF_0_0)?;
    Ok(LoggedFragment {
        fragment: Fragment {
            session: 0,
            first: 0,
            txns: Sequence::new(vec![in alloc; first, second, third]?),
        },
        aborted: Sequence::new([false, true].to_vec(alloc)?),
    })
}

fn report_on_three(alloc: Global) -> Result<Report, Refusal> {
    let mut engine = Engine::open(alloc, 64, 1, 8)?;
    engine.offer(alloc, three(alloc)?)?;
    let problem = engine.begin(alloc)?;
    let answer = Single.solve(alloc, &problem, 8, 0, 1);
    engine.finish(alloc, answer)
}

fn assert_three(rt: &impl Abort, alloc: Global) -> Result<(), Refusal> {
    let report = report_on_three(alloc)?;
    assert_eq!(rt; report.kind, Serial);
    assert_eq!(rt; report.counts.as_slice(), [3].as_slice());
    Ok(())
}

#[test]
fn each_flag_is_of_the_transaction_at_its_place(rt: HostRuntime) -> Result<(), Fail> {
    Ok(assert_three(&rt, rt.alloc())?)
}
