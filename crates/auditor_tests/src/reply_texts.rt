// The texts of replies.
ghost use Rattle.std.specs.Prelude.{IfOk};
ghost use Rattle.log_text.specs.Replies.{HasKindOfOrder};

use log_text::{Command, Names, Reply, Shown, read_line, read_shown, write_reply};
use order_check::Kind;
use refutation::{Leaf, Tree};
use std::alloc::Global;
use std::test::Fail;
use txn::{Arc, Choice, ForceStep, NoMemory, Refusal, Sequence, Side, TxnId};

/// A reply, as rows have it.
#[derive(Clone, Copy)]
enum Told {
    Done,
    No(Refusal),
    Serial,
    Pending,
    Violated,
    Events,
    Broken,
    Spent,
    Cut,
    Show,
    Searching,
}

static ROWS: [(Told, &str); 13] = [
    (Told::Searching, "[\"searching\"]\n"),
    (Told::Done, "[\"ok\"]\n"),
    (Told::No(Refusal::BadLine), "[\"no\",1,\"BadLine\"]\n"),
    (Told::No(Refusal::NoMemory), "[\"no\",16,\"NoMemory\"]\n"),
    (Told::No(Refusal::Device), "[\"no\",18,\"Device\"]\n"),
    (
        Told::Serial,
        "[\"report\",281474976710655,\"serial\",[2,1],[[0,1],[1,0]]]\n",
    ),
    (
        Told::Pending,
        "[\"report\",281474976710655,\"pending\",[2,1],[[0,1],[1,0]]]\n",
    ),
    (Told::Violated, VIOLATED),
    (
        Told::Events,
        "[\"report\",281474976710655,\"serial\",[2,1],[[0,0,\"commit\"],[1,0,\"begin\"]]]\n",
    ),
    (Told::Broken, BROKEN),
    (Told::Spent, "[\"report\",1,\"spent\",[2]]\n"),
    (
        Told::Cut,
        "[\"cut\",[0,1],[[0,0],[0,1]],[[0,0,1],[5,0,0]]]\n",
    ),
    (
        Told::Show,
        "[\"show\",[2,0],[2,1],[false,true],[[5,0,1]],1]\n",
    ),
];

const VIOLATED: &str =
    r#"["report",1,"violated",[2],[["split",[0,1,5,0,0,1,0]],["split",[0,1,5,0,0,1,0]],["force",[0,1,5,0,0,1,0],1,[["session",1,2,3,4],["read",5,1,2,3,4],["base",5,1,2,3,4],["taken",1,2,3,4]]],["force",[0,1,5,0,0,1,0],2,[["session",1,2,3,4],["read",5,1,2,3,4],["base",5,1,2,3,4],["taken",1,2,3,4]]],["gone",1,1,5],["cycle",[["session",1,2,3,4],["read",5,1,2,3,4],["base",5,1,2,3,4],["taken",1,2,3,4]]],["nowrite",63,7,9]]]
"#;

/// The same tree, where its transactions are halves of those that were split.
const BROKEN: &str =
    r#"["report",1,"violated",[2],[["split",[0,0,"commit",5,0,0,"begin",1,0,"begin"]],["split",[0,0,"commit",5,0,0,"begin",1,0,"begin"]],["force",[0,0,"commit",5,0,0,"begin",1,0,"begin"],1,[["session",1,1,"begin",3,2,"begin"],["read",5,1,1,"begin",3,2,"begin"],["base",5,1,1,"begin",3,2,"begin"],["taken",1,1,"begin",3,2,"begin"]]],["force",[0,0,"commit",5,0,0,"begin",1,0,"begin"],2,[["session",1,1,"begin",3,2,"begin"],["read",5,1,1,"begin",3,2,"begin"],["base",5,1,1,"begin",3,2,"begin"],["taken",1,1,"begin",3,2,"begin"]]],["gone",1,0,"commit",5],["cycle",[["session",1,1,"begin",3,2,"begin"],["read",5,1,1,"begin",3,2,"begin"],["base",5,1,1,"begin",3,2,"begin"],["taken",1,1,"begin",3,2,"begin"]]],["nowrite",63,3,"commit",9]]]
"#;

fn rows() -> &'static [(Told, &'static str)] {
    &ROWS
}

fn id(session: u8, number: u64) -> TxnId {
    TxnId { session, number }
}

fn choice() -> Choice {
    Choice {
        reader: id(0, 1),
        key: 5,
        writer: id(0, 0),
        other: id(1, 0),
    }
}

/// A cycle of an arc of each kind.
fn arcs() -> [Arc; 4] {
    let key = 5;
    let from = id(1, 2);
    let to = id(3, 4);
    [
        Arc::Session { from, to },
        Arc::Read { key, from, to },
        Arc::Base { key, from, to },
        Arc::Taken { from, to },
    ]
}

fn cycle(alloc: Global) -> Result<Sequence<Arc>, NoMemory> {
    Ok(Sequence::new(arcs().to_vec(alloc)?))
}

fn step(alloc: Global, side: Side) -> Result<ForceStep, NoMemory> {
    Ok(ForceStep {
        choice: choice(),
        side,
        cycle: cycle(alloc)?,
    })
}

fn steps(alloc: Global) -> Result<Sequence<ForceStep>, NoMemory> {
    let mut steps = Sequence::new(Vec::new(alloc));
    steps.push(step(alloc, Side::First)?)?;
    steps.push(step(alloc, Side::Second)?)?;
    Ok(steps)
}

fn forced(alloc: Global) -> Result<Tree, NoMemory> {
    let steps = steps(alloc)?;
    let rest = Box::new(alloc, Tree::Close(Leaf::Gone(id(1, 1), 5)))?;
    Ok(Tree::Force { steps, rest })
}

fn split(alloc: Global, first: Tree, second: Tree) -> Result<Tree, NoMemory> {
    Ok(Tree::Split {
        choice: choice(),
        first: Box::new(alloc, first)?,
        second: Box::new(alloc, second)?,
    })
}

/// Nodes, leaves and arcs of each kind. Which is right isn't looked at.
fn tree(alloc: Global) -> Result<Tree, NoMemory> {
    let leaf = Tree::Close(Leaf::Cycle(cycle(alloc)?));
    let inner = split(alloc, forced(alloc)?, leaf)?;
    split(alloc, inner, Tree::Close(Leaf::NoWrite(id(63, 7), 9)))
}

fn numbers(alloc: Global, numbers: &[u64]) -> Result<Sequence<u64>, NoMemory> {
    Ok(Sequence::new(numbers.to_vec(alloc)?))
}

fn ids(alloc: Global, ids: &[TxnId]) -> Result<Sequence<TxnId>, NoMemory> {
    Ok(Sequence::new(ids.to_vec(alloc)?))
}

fn last(alloc: Global, last: &[(u64, TxnId)]) -> Result<Sequence<(u64, TxnId)>, NoMemory> {
    Ok(Sequence::new(last.to_vec(alloc)?))
}

fn ordered(alloc: Global, kind: Kind) -> Result<Reply, NoMemory>
    ensures { IfOk result (λ reply. HasKindOfOrder reply) }
{
    let counts = numbers(alloc, &[2, 1])?;
    let order = ids(alloc, &[id(0, 1), id(1, 0)])?;
    let round = 281474976710655;
    let kind = match kind {
        Kind::Pending => Kind::Pending,
        _ => Kind::Serial,
    };
    Ok(Reply::Order {
        names: Names::Ids,
        round,
        kind,
        counts,
        order,
    })
}

fn violated_by(alloc: Global, tree: Tree) -> Result<Reply, NoMemory>
    ensures { IfOk result (λ reply. HasKindOfOrder reply) }
{
    let counts = numbers(alloc, &[2])?;
    Ok(Reply::Violated {
        names: Names::Ids,
        round: 1,
        counts,
        tree,
    })
}

fn ordered_events(alloc: Global) -> Result<Reply, NoMemory>
    ensures { IfOk result (λ reply. HasKindOfOrder reply) }
{
    Ok(Reply::Order {
        names: Names::Events,
        round: 281474976710655,
        kind: Kind::Serial,
        counts: numbers(alloc, &[2, 1])?,
        order: ids(alloc, &[id(0, 1), id(1, 0)])?,
    })
}

fn broken_by(alloc: Global, tree: Tree) -> Result<Reply, NoMemory>
    ensures { IfOk result (λ reply. HasKindOfOrder reply) }
{
    Ok(Reply::Violated {
        names: Names::Events,
        round: 1,
        counts: numbers(alloc, &[2])?,
        tree,
    })
}

fn broken(alloc: Global) -> Result<Reply, NoMemory>
    ensures { IfOk result (λ reply. HasKindOfOrder reply) }
{
    broken_by(alloc, tree(alloc)?)
}

/// The report that ends in this tree, told by these names.
fn refuted_by(alloc: Global, names: Names, tree: Tree) -> Result<Reply, NoMemory>
    ensures { IfOk result (λ reply. HasKindOfOrder reply) }
{
    match names {
        Names::Ids => violated_by(alloc, tree),
        Names::Events => broken_by(alloc, tree),
    }
}

fn violated(alloc: Global) -> Result<Reply, NoMemory>
    ensures { IfOk result (λ reply. HasKindOfOrder reply) }
{
    violated_by(alloc, tree(alloc)?)
}

fn spent(alloc: Global) -> Result<Reply, NoMemory>
    ensures { IfOk result (λ reply. HasKindOfOrder reply) }
{
    let counts = numbers(alloc, &[2])?;
    Ok(Reply::Spent { round: 1, counts })
}

fn cut(alloc: Global) -> Result<Reply, NoMemory>
    ensures { IfOk result (λ reply. HasKindOfOrder reply) }
{
    let gone = ids(alloc, &[id(0, 0), id(0, 1)])?;
    let last = last(alloc, &[(0, id(0, 1)), (5, id(0, 0))])?;
    Ok(Reply::Cut {
        fence: id(0, 1),
        gone,
        last,
    })
}

/// How far two sessions are, and how many were received of them.
fn far(alloc: Global) -> Result<(Sequence<u64>, Sequence<u64>), NoMemory> {
    let marks = numbers(alloc, &[2, 0])?;
    let received = numbers(alloc, &[2, 1])?;
    Ok((marks, received))
}

/// Which of two sessions are closed, and who wrote last.
fn rest(alloc: Global) -> Result<(Sequence<bool>, Sequence<(u64, TxnId)>), NoMemory> {
    let closed = Sequence::new([false, true].to_vec(alloc)?);
    let last = last(alloc, &[(5, id(0, 1))])?;
    Ok((closed, last))
}

fn shown(alloc: Global) -> Result<Reply, NoMemory>
    ensures { IfOk result (λ reply. HasKindOfOrder reply) }
{
    let (marks, received) = far(alloc)?;
    let (closed, last) = rest(alloc)?;
    Ok(Reply::Show {
        marks,
        received,
        closed,
        last,
        remaining: 1,
    })
}

fn reply_of(alloc: Global, told: Told) -> Result<Reply, NoMemory>
    ensures { IfOk result (λ reply. HasKindOfOrder reply) }
{
    match told {
        Told::Done => Ok(Reply::Done),
        Told::No(refusal) => Ok(Reply::No(refusal)),
        Told::Serial => ordered(alloc, Kind::Serial),
        Told::Pending => ordered(alloc, Kind::Pending),
        Told::Violated => violated(alloc),
        Told::Events => ordered_events(alloc),
        Told::Broken => broken(alloc),
        Told::Spent => spent(alloc),
        Told::Cut => cut(alloc),
        Told::Show => shown(alloc),
        Told::Searching => Ok(Reply::Searching),
    }
}

fn text_of(alloc: Global, told: Told) -> Result<Vec<u8>, NoMemory> {
    let reply = reply_of(alloc, told)?;
    write_reply(alloc, &reply)
}

#[test]
fn replies_are_written_so(rt: HostRuntime) -> Result<(), Fail> {
    for (told, line) in rows() {
        let text = text_of(rt.alloc(), *told)?;
        assert!(rt; text.as_slice() == line.as_bytes(), "at {line}");
    }
    Ok(())
}

/// The text of the report that ends in the tree of the rows, told by these names.
fn told_text(names: Names) -> &'static str {
    match names {
        Names::Ids => VIOLATED,
        Names::Events => BROKEN,
    }
}

/// The tree that is read from a line which hands in what that report shows.
fn read_in_line(alloc: Global, names: Names) -> Result<Option<Shown>, Refusal> {
    let Some(given) = told_text(names).strip_prefix("[\"report\",1,\"violated\",[2],") else {
        return Ok(None);
    };
    let line = format!(in alloc; "[\"answer\",\"refuted\",{given}")?;
    match read_line(alloc, names, line.as_bytes())? {
        Command::Answer(shown) => Ok(Some(shown)),
        _ => Ok(None),
    }
}

/// Whether a tree is shown that the report tells as its own.
fn is_told_again(alloc: Global, names: Names, shown: Option<Shown>) -> Result<bool, NoMemory> {
    let Some(Shown::Refuted(tree)) = shown else {
        return Ok(false);
    };
    let reply = refuted_by(alloc, names, tree)?;
    Ok(write_reply(alloc, &reply)?.as_slice() == told_text(names).as_bytes())
}

/// Texts that show nothing: no JSON, which isn't told to be want of memory, no UTF-8, and JSON that is no report.
fn no_reports() -> &'static [&'static [u8]] {
    &[
        b"",
        b"[",
        b"[\"report\",1,\"serial\",[1],[[0,0]]",
        b"[\"report\",1,\"serial\",[1],[[0,0]]]]",
        b"\xff",
        b"\"\xff\"",
        b"[\"report\",1,\"serial\",[1],[[0,256]],0]",
        b"[\"report\",1,\"spent\",[1]]",
        b"[\"answer\",\"order\",[[0,0]]]",
        b"{\"report\":1}",
    ]
}

#[test]
fn trees_are_read_as_they_were_written(rt: HostRuntime) -> Result<(), Fail> {
    let alloc = rt.alloc();
    for names in [Names::Ids, Names::Events] {
        let text = told_text(names).as_bytes();
        assert!(rt; is_told_again(alloc, names, read_in_line(alloc, names)?)?);
        assert!(rt; is_told_again(alloc, names, read_shown(alloc, names, text)?)?);
    }
    for text in no_reports() {
        assert!(rt; read_shown(alloc, Names::Ids, text)?.is_none());
    }
    Ok(())
}
