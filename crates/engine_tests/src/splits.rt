//! A round of a history that no order explains, as only a split on a choice shows. Each session has one transaction, so a session's
//! number names it.
use logged_fragments::LoggedFragment;
use order_check::Kind;
use polygraph::Answer;
use refutation::{Leaf, Tree};
use round_state::{Certificate, Engine, Report};
use std::alloc::Global;
use std::process::Abort;
use std::test::*;
use txn::{
    Arc, Choice, ForceStep, Fragment, NoMemory, Refusal, Sequence, Side, Source, Txn, TxnId,
};

/// Which keys a transaction reads, each with the session that it reads it from, and which it writes.
type Content = (&'static [(u64, u8)], &'static [u64]);

static HISTORY: [Content; 8] = [
    (&[], &[1, 3]),
    (&[], &[1, 4]),
    (&[], &[2, 5]),
    (&[], &[2, 6]),
    (&[(1, 0), (5, 2), (6, 3)], &[]),
    (&[(1, 1), (5, 2), (6, 3)], &[]),
    (&[(2, 2), (3, 0), (4, 1)], &[]),
    (&[(2, 3), (3, 0), (4, 1)], &[]),
];

/// Reader, key, writer, other writer.
type Sides = (u8, u64, u8, u8);

const OF_4: Sides = (4, 1, 0, 1);

const OF_5: Sides = (5, 1, 1, 0);

const OF_6: Sides = (6, 2, 2, 3);

const OF_7: Sides = (7, 2, 3, 2);

/// A side that was taken, or a read of a key, from one session to another.
type Link = (Option<u64>, u8, u8);

/// A side of a choice, and the cycle that the other side closes.
type Forced = (Sides, Side, &'static [Link]);

/// What is forced where 1.0 stands before 0.0, and where 4.0 stands before 1.0.
static HALVES: [&[Forced]; 2] = [
    &[
        (OF_5, Side::Second, &[(None, 0, 1), (None, 1, 0)]),
        (
            OF_6,
            Side::First,
            &[(None, 6, 3), (Some(6), 3, 5), (None, 5, 0), (Some(3), 0, 6)],
        ),
        (
            OF_7,
            Side::First,
            &[(None, 7, 2), (Some(5), 2, 5), (None, 5, 0), (Some(3), 0, 7)],
        ),
    ],
    &[
        (
            OF_6,
            Side::First,
            &[(None, 6, 3), (Some(6), 3, 4), (None, 4, 1), (Some(4), 1, 6)],
        ),
        (
            OF_7,
            Side::First,
            &[(None, 7, 2), (Some(5), 2, 4), (None, 4, 1), (Some(4), 1, 7)],
        ),
    ],
];

/// Then 2.0 and 3.0 stand before one another.
static ROUND: [Link; 2] = [(None, 3, 2), (None, 2, 3)];

fn history() -> &'static [Content] {
    &HISTORY
}

fn halves() -> [&'static [Forced]; 2] {
    HALVES
}

fn round() -> &'static [Link] {
    &ROUND
}

fn id(session: u8) -> TxnId {
    TxnId { session, number: 0 }
}

fn choice(sides: Sides) -> Choice {
    Choice {
        reader: id(sides.0),
        key: sides.1,
        writer: id(sides.2),
        other: id(sides.3),
    }
}

fn arc(link: Link) -> Arc {
    let from = id(link.1);
    let to = id(link.2);
    match link.0 {
        Some(key) => Arc::Read { key, from, to },
        None => Arc::Taken { from, to },
    }
}

fn arcs(alloc: Global, links: &[Link]) -> Result<Sequence<Arc>, NoMemory> {
    let mut arcs = Vec::new(alloc);
    for link in links {
        arcs.push(arc(*link))?;
    }
    Ok(Sequence::new(arcs))
}

fn steps(alloc: Global, half: &[Forced]) -> Result<Sequence<ForceStep>, NoMemory> {
    let mut steps = Vec::new(alloc);
    for (sides, side, links) in half {
        let cycle = arcs(alloc, links)?;
        let choice = choice(*sides);
        let side = *side;
        steps.push(ForceStep {
            choice,
            side,
            cycle,
        })?;
    }
    Ok(Sequence::new(steps))
}

fn closed(alloc: Global, links: &[Link]) -> Result<Tree, NoMemory> {
    Ok(Tree::Close(Leaf::Cycle(arcs(alloc, links)?)))
}

fn refuted(alloc: Global, half: &[Forced]) -> Result<Tree, NoMemory> {
    let steps = steps(alloc, half)?;
    let rest = Box::new(alloc, closed(alloc, round())?)?;
    Ok(Tree::Force { steps, rest })
}

fn split(alloc: Global, first: Tree, second: Tree) -> Result<Tree, NoMemory> {
    Ok(Tree::Split {
        choice: choice(OF_4),
        first: Box::new(alloc, first)?,
        second: Box::new(alloc, second)?,
    })
}

/// A tree that refutes the history; or the same where the second half has a cycle of no arcs.
fn tree(alloc: Global, right: bool) -> Result<Tree, NoMemory> {
    let [first, second] = halves();
    let one = refuted(alloc, first)?;
    let other = if right {
        refuted(alloc, second)?
    } else {
        closed(alloc, &[])?
    };
    split(alloc, one, other)
}

fn reads(alloc: Global, content: &Content) -> Result<Sequence<(u64, Source)>, NoMemory> {
    let mut reads = Vec::new(alloc);
    for (key, session) in content.0 {
        reads.push((*key, Source::By(id(*session))))?;
    }
    Ok(Sequence::new(reads))
}

fn fragment(alloc: Global, session: u8, content: &Content) -> Result<Fragment, NoMemory> {
    let txn = Txn {
        reads: reads(alloc, content)?,
        writes: Sequence::new(content.1.to_vec(alloc)?),
    };
    Ok(Fragment {
        session,
        first: 0,
        txns: Sequence::new(vec![in alloc; txn]?),
    })
}

fn offer_all(alloc: Global, engine: &mut Engine) -> Result<(), Refusal> {
    for session in 0..8 {
        if let Some(content) = history().get(usize::from(session)) {
            let fragment = fragment(alloc, session, content)?;
            engine.offer(alloc, LoggedFragment::committed(alloc, fragment))?;
        }
    }
    Ok(())
}

fn begin(alloc: Global, engine: &mut Engine) -> Result<usize, Refusal> {
    offer_all(alloc, engine)?;
    let problem = engine.begin(alloc)?;
    Ok(problem.open_choices())
}

fn is_violated(report: &Report) -> bool {
    report.round == 1
        && report.kind == Kind::Violated
        && matches!(report.certificate, Certificate::Refuted(Tree::Split { .. }))
}

fn finish(alloc: Global, engine: &mut Engine, right: bool) -> Result<Report, Refusal> {
    let tree = tree(alloc, right)?;
    engine.finish(alloc, Answer::No(tree))
}

fn assert_finishes(rt: &impl Abort, alloc: Global, engine: &mut Engine) {
    let wrong = finish(alloc, engine, false);
    assert!(rt; matches!(wrong, Err(Refusal::BadCertificate)), "{wrong:?}");
    let right = finish(alloc, engine, true);
    assert!(rt; right.as_ref().is_ok_and(is_violated), "{right:?}");
}

fn assert_refuted(rt: &impl Abort, alloc: Global) -> Result<(), Refusal> {
    let mut engine = Engine::open(alloc, 64, 8, 16)?;
    assert_eq!(rt; begin(alloc, &mut engine)?, 4);
    assert_finishes(rt, alloc, &mut engine);
    Ok(())
}

#[test]
fn a_tree_with_a_wrong_half_leaves_the_round_open(rt: HostRuntime) -> Result<(), Fail> {
    Ok(assert_refuted(&rt, rt.alloc())?)
}
