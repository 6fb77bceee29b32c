//! How many cubes are searched.
use logged_fragments::LoggedFragment;
use polygraph::Answer;
use round_state::Engine;
use shared_search::{Gate, Shared};
use std::alloc::Global;
use std::sync::atomic::{AtomicU64, Ordering};
use std::test::*;
use txn::{Fragment, NoMemory, Refusal, Sequence, Source, Txn, TxnId};

/// Counts the cubes that workers search.
#[derive(Drop)]
struct Counting<'a> {
    cubes: &'a AtomicU64,
}

impl<'a> Gate for Counting<'a> {
    fn before(&self, _cube: u64) {
        self.cubes.fetch_add(1, Ordering::SeqCst);
    }

    fn after(&self, _cube: u64) {}
}

/// The first transaction of a session: it writes key 5, or reads it from the first one of session 0.
fn first_of(alloc: Global, session: u8, is_reader: bool) -> Result<LoggedFragment, NoMemory> {
    let mut reads = Vec::new(alloc);
    let mut writes = Vec::new(alloc);
    if is_reader {
        let source = Source::By(TxnId {
            session: 0,
            number: 0,
        });
        reads.push((5u64, source))?;
    } else {
        writes.push(5u64)?;
    }
    let txns = vec![in alloc;
        Txn {
            reads: Sequence::new(reads),
            writes: Sequence::new(writes)
        },
    ]?;
    let fragment = Fragment {
        session,
        first: 0,
        txns: Sequence::new(txns),
    };
    Ok(LoggedFragment::committed(alloc, fragment))
}

/// Offers it.
fn offer(engine: &mut Engine, alloc: Global, session: u8, is_reader: bool) -> Result<(), Refusal> {
    engine.offer(alloc, first_of(alloc, session, is_reader)?)
}

/// Two write key 5, and a third reads it from one of them, so that one choice is open. Each side of it has an order.
#[test]
fn no_cube_is_searched_behind_a_yes(rt: HostRuntime) -> Result<(), Fail> {
    let alloc = rt.alloc();
    let mut engine = Engine::open(alloc, 64, 3, 8)?;
    for (session, is_reader) in [(0, false), (1, false), (2, true)] {
        let offered = offer(&mut engine, alloc, session, is_reader);
        assert!(&rt; offered.is_ok());
    }
    let problem = engine.begin(alloc)?;
    assert_eq!(&rt; problem.open_choices(), 1);
    let cubes = AtomicU64::new(0);
    let shared = Shared::new(&rt, Counting { cubes: &cubes });
    let answer = shared.answer(alloc, &problem, 64, 1, 1);
    assert!(&rt; matches!(answer, Answer::Yes(_)));
    assert_eq!(&rt; cubes.load(Ordering::SeqCst), 1);
    Ok(())
}
