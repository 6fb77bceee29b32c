use crate::devices::{Ear, Heard, Mouth, Turn};
use crate::solvers::Held;
use byte_lines::{Failure, MemorySink, MemorySource, Pace};
use cobra::{Means, Solvers, serve};
use std::alloc::Global;
use std::sync::Wait;
use std::test::*;
use std::thread;
use std::thread::Threads;
use txn::NoMemory;

/// What came of a script.
#[derive(Drop)]
struct Served {
    end: Result<(), Failure>,
    replies: Vec<u8>,
    /// Whether a line was asked for before each line so far was answered, or a reply is lost.
    is_wrong: bool,
}

/// Serves the lines, and at the end collects at most so often as long as the search goes on. The solver of plain searches is the one that is held.
fn serve_turns<R: Threads + Wait>(
    rt: &R,
    alloc: Global,
    turns: &[Turn],
    again: u64,
    solvers: &Solvers<Held, Held>,
) -> Served {
    let heard = Heard::new();
    let mut source = Mouth {
        turns,
        again,
        held: &solvers.plain,
        heard: &heard,
        lines: 0,
        last_read: 0,
        is_ahead: false,
    };
    let mut sink = Ear {
        bytes: Vec::new(alloc),
        has_lost: false,
        heard: &heard,
    };
    let end = thread::scope(thread::scope_env(), rt, |scope| {
        let means = Means {
            scope,
            rt,
            alloc,
            solvers,
        };
        serve(&means, &mut source, &mut sink)
    });
    Served {
        end,
        replies: sink.bytes,
        is_wrong: source.is_ahead || sink.has_lost,
    }
}

/// The first search of a script is held where the script asks for the plain one.
fn solvers(is_free: bool) -> Solvers<Held, Held> {
    Solvers {
        plain: Held::new(is_free),
        guided: Held::new(true),
    }
}

/// Lines that begin a round of one transaction, and a search for it.
const BEGUN: [Turn; 4] = [
    Turn::Line("[\"open\",1,8]\n"),
    Turn::Line("[\"offer\",0,0,[[[],[5]]]]\n"),
    Turn::Line("[\"begin\"]\n"),
    Turn::Line("[\"search\",32,0,1]\n"),
];

/// A script whose search is held: what comes behind `BEGUN`, what is replied to that, and whether the search is told to stop.
struct Row {
    turns: &'static [Turn],
    replies: &'static str,
    is_stopped: bool,
}

fn rows() -> &'static [Row] {
    &[
        // Lines are answered meanwhile, and the search is collected once it has ended.
        Row {
            turns: &[
                Turn::OnceBegun("[\"offer\",0,1,[[[[5,0,0]],[]]]]\n"),
                Turn::Line("[\"collect\"]\n"),
                Turn::Line("[\"search\",32,0,1]\n"),
                Turn::Line("[\"show\"]\n"),
                Turn::LetGo("[\"collect\",\"wait\"]\n"),
            ],
            replies: r#"["ok"]
["searching"]
["no",10,"RoundOpen"]
["show",[0],[2],[false],[],2]
["report",1,"serial",[1],[[0,0]]]
"#,
            is_stopped: false,
        },
        // It is given up by `skip`, by an answer from elsewhere, and at the end of the input.
        Row {
            turns: &[
                Turn::OnceBegun("[\"skip\"]\n"),
                Turn::Line("[\"collect\"]\n"),
                Turn::Line("[\"round\",32,0,1]\n"),
            ],
            replies: r#"["ok"]
["no",11,"NoRound"]
["report",1,"serial",[1],[[0,0]]]
"#,
            is_stopped: true,
        },
        Row {
            turns: &[
                Turn::OnceBegun("[\"answer\",\"order\",[[0,0]]]\n"),
                Turn::Line("[\"round\",32,0,1]\n"),
            ],
            replies: r#"["report",1,"serial",[1],[[0,0]]]
["report",2,"serial",[1],[[0,0]]]
"#,
            is_stopped: true,
        },
        Row {
            turns: &[Turn::OnceBegun("[\"show\"]\n")],
            replies: "[\"show\",[0],[1],[false],[],1]\n",
            is_stopped: true,
        },
    ]
}

#[test]
fn searches_go_on_beside_the_lines(rt: HostRuntime) -> Result<(), Fail> {
    for (place, row) in rows().iter().enumerate() {
        let solvers = solvers(false);
        let mut turns = BEGUN.to_vec(rt.alloc())?;
        turns.extend_from_slice(row.turns)?;
        let served = serve_turns(&rt, rt.alloc(), &turns, 0, &solvers);
        let mut wanted = b"[\"ok\"]\n[\"ok\"]\n[\"ok\"]\n[\"ok\"]\n".to_vec(rt.alloc())?;
        wanted.extend_from_slice(row.replies.as_bytes())?;
        assert!(rt;
            served.replies.as_slice() == wanted.as_slice(),
            "at {place}"
        );
        let seen = (solvers.plain.was_stopped(), solvers.plain.gave_up());
        assert_eq!(rt; seen, (row.is_stopped, false), "at {place}");
        assert_eq!(rt;
            (served.end, served.is_wrong),
            (Ok(()), false),
            "at {place}"
        );
    }
    Ok(())
}

/// A `collect` that doesn't wait is answered by the report at last.
#[test]
fn a_search_is_collected_without_waiting(rt: HostRuntime) -> Result<(), Fail> {
    let solvers = solvers(false);
    let mut turns = BEGUN.to_vec(rt.alloc())?;
    turns.push(Turn::OnceBegun("[\"collect\"]\n"))?;
    turns.push(Turn::LetGo("[\"collect\"]\n"))?;
    let served = serve_turns(&rt, rt.alloc(), &turns, 10_000_000, &solvers);
    let report = b"[\"searching\"]\n[\"report\",1,\"serial\",[1],[[0,0]]]\n".as_slice();
    assert!(rt; served.replies.ends_with(report));
    assert_eq!(rt;
        (solvers.plain.was_stopped(), solvers.plain.gave_up()),
        (false, false)
    );
    assert_eq!(rt; (served.end, served.is_wrong), (Ok(()), false));
    Ok(())
}

/// Lines, and how many searches by the plain and by the guided solver were begun once all are answered.
const COUNTED: [(&str, u64, u64); 10] = [
    ("[\"open\",2,8]\n", 0, 0),
    ("[\"offer\",0,0,[[[],[5]]]]\n", 0, 0),
    ("[\"round\",32,0,1]\n", 1, 0),
    // Nothing has come since.
    ("[\"round\",32,0,1]\n", 1, 0),
    // Another search, or another budget.
    ("[\"round\",32,0,1,\"guided\"]\n", 1, 1),
    ("[\"round\",33,0,1]\n", 2, 1),
    ("[\"round\",33,0,1]\n", 2, 1),
    // Something has.
    ("[\"offer\",0,1,[[[],[5]]]]\n", 2, 1),
    ("[\"round\",33,0,1]\n", 3, 1),
    ("[\"truncate\"]\n", 3, 1),
];

/// A round is searched by the solver of the search that it asks for, once, and not at all where nothing has come since that search found an order.
#[test]
fn nothing_is_searched_twice(rt: HostRuntime) -> Result<(), Fail> {
    for count in 1..COUNTED.len() + 1 {
        let solvers = solvers(true);
        let mut turns = Vec::new(rt.alloc());
        let mut wanted = (0, 0);
        for (line, plain, guided) in COUNTED.iter().take(count) {
            turns.push(Turn::Line(*line))?;
            wanted = (*plain, *guided);
        }
        let served = serve_turns(&rt, rt.alloc(), &turns, 0, &solvers);
        let seen = (solvers.plain.searches(), solvers.guided.searches());
        assert_eq!(rt; seen, wanted, "after {count} lines");
        assert_eq!(rt;
            (served.end, served.is_wrong),
            (Ok(()), false),
            "after {count} lines"
        );
    }
    Ok(())
}

/// Whether what is written to the lines of a script ends so.
fn is_told<R: Threads + Wait>(rt: &R, alloc: Global, script: &[u8], end: &str) -> bool {
    let solvers = solvers(true);
    let mut source = MemorySource {
        bytes: script,
        pace: Pace::new(65_536, 0),
        last_read: 0,
    };
    let mut sink = MemorySink {
        bytes: Vec::new(alloc),
        pace: Pace::new(65_536, 0),
    };
    let served = thread::scope(thread::scope_env(), rt, |scope| {
        let means = Means {
            scope,
            rt,
            alloc,
            solvers: &solvers,
        };
        serve(&means, &mut source, &mut sink)
    });
    served.is_ok() && sink.bytes.ends_with(end.as_bytes())
}

/// Offers so many transactions of session 0, each of which writes key 5, from this number on, and this one behind them.
fn offer(
    script: &mut String,
    alloc: Global,
    first: u64,
    count: u64,
    last: &str,
) -> Result<(), NoMemory> {
    script.push_str(format!(in alloc; "[\"offer\",0,{first},[")?.as_str())?;
    for _ in 0..count {
        script.push_str("[[],[5]],")?;
    }
    script.push_str(last)?;
    script.push_str("]]\n")
}

const CUT: &str = "[\"round\",4096,0,1]\n[\"truncate\"]\n[\"show\"]\n";

/// A history may be held, and a cut taken out of it, of any size that the limit allows.
#[test]
fn many_are_held_and_cut(rt: HostRuntime) -> Result<(), Fail> {
    let alloc = rt.alloc();
    let mut script = String::from_str(alloc, "[\"open\",1,4096]\n")?;
    for block in 0..10u64 {
        offer(&mut script, alloc, 256 * block, 255, "[[],[5]]")?;
    }
    offer(&mut script, alloc, 2560, 0, "[[[0,\"init\"]],[0]]")?;
    script.push_str(CUT)?;
    let held = "[\"show\",[2561],[2561],[false],[[0,0,2560],[5,0,2559]],0]\n";
    assert!(rt; is_told(&rt, alloc, script.as_bytes(), held));
    offer(&mut script, alloc, 2561, 9, "[[[0,0,2560]],[0]]")?;
    script.push_str(CUT)?;
    let more = "[\"show\",[2571],[2571],[false],[[0,0,2570],[5,0,2569]],0]\n";
    assert!(rt; is_told(&rt, alloc, script.as_bytes(), more));
    Ok(())
}
