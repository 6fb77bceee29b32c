ghost use Rattle.std.specs.Prelude.{◌<◌};

use cobra::{
    Asked, Failure, LONGEST_LINE, LineReader, Means, MemorySink, MemorySource, Next, Pace, Solvers,
    asked_of, exit_of, serve, write_all,
};
use polygraph::Single;
use std::alloc::{AllocError, Global};
use std::process::Abort;
use std::sync::Wait;
use std::test::Fail;
use std::thread::Threads;
use std::{io, thread};

/// What is written of eight bytes, three a call, where this call fails.
fn fronts() -> &'static [(u64, &'static [u8])] {
    &[
        (0, b"abcdefgh"),
        (1, b""),
        (2, b"abc"),
        (3, b"abcdef"),
        (4, b"abcdefgh"),
    ]
}

#[test]
fn writes_all_by_pieces_or_a_front(rt: HostRuntime) {
    for (fails_at, want) in fronts() {
        let mut sink = MemorySink {
            bytes: Vec::new(rt.alloc()),
            pace: Pace::new(3, *fails_at),
        };
        let end = write_all(&mut sink, b"abcdefgh");
        assert_eq!(rt; end.is_ok(), want.len() == 8, "at {fails_at}");
        assert_eq!(rt; sink.bytes.as_slice(), *want, "at {fails_at}");
    }
}

/// Puts a line in brackets behind, `!` for one that is too long, `.` for the end, `?` for a failed read.
fn show(shown: &mut Vec<u8>, next: Result<Next, Failure>) -> Result<(), AllocError> {
    match next {
        Ok(Next::Line(line)) => {
            shown.push(b'[')?;
            shown.extend_from_slice(&line)?;
            shown.push(b']')?;
        }
        Ok(Next::TooLong) => shown.push(b'!')?,
        Ok(Next::End) => shown.push(b'.')?,
        Err(_) => shown.push(b'?')?,
    }
    Ok(())
}

/// The first eight that come.
fn shown(alloc: Global, bytes: &[u8], limit: usize, pace: Pace) -> Result<Vec<u8>, AllocError> {
    let mut source = MemorySource {
        bytes,
        pace,
        last_read: 0,
    };
    let mut reader = LineReader::new(alloc, limit)?;
    let mut all = Vec::new(alloc);
    for _ in 0..8 {
        show(&mut all, reader.next_line(&mut source))?;
    }
    Ok(all)
}

/// Bytes, the longest line, and what is handed out.
fn cuts() -> &'static [(&'static str, usize, &'static str)] {
    &[
        ("", 9, "........"),
        ("\n", 9, "[]......."),
        ("a\n\nb", 9, "[a][][b]....."),
        ("a\r\n", 9, "[a\r]......."),
        ("abc\nabcd\nab\n", 3, "[abc]![ab]....."),
        ("abcd\n\n", 3, "![]......"),
        ("abcdefghijkl", 3, "!......."),
        ("\na", 0, "[]!......"),
    ]
}

#[test]
fn cuts_lines_whatever_a_read_gives(rt: HostRuntime) -> Result<(), Fail> {
    for (text, limit, want) in cuts() {
        for most in [1, 7, 4096] {
            let got = shown(rt.alloc(), text.as_bytes(), *limit, Pace::new(most, 0))?;
            assert_eq!(rt; got.as_slice(), want.as_bytes(), "{text:?} by {most}");
        }
    }
    Ok(())
}

/// Which read of a byte fails, and what is handed out.
fn failures() -> &'static [(u64, &'static str)] {
    &[
        (1, "?[a][bcd]![ef]..."),
        (3, "[a]?[bcd]![ef]..."),
        (7, "[a][bcd]?![ef]..."),
        (12, "[a][bcd]!?[ef]..."),
        (15, "[a][bcd]![ef]?..."),
        (16, "[a][bcd]![ef].?.."),
    ]
}

#[test]
fn goes_on_after_each_failed_read(rt: HostRuntime) -> Result<(), Fail> {
    for (fails_at, want) in failures() {
        let text = b"a\nbcd\nghij\nef";
        let got = shown(rt.alloc(), text, 3, Pace::new(1, *fails_at))?;
        assert_eq!(rt; got.as_slice(), want.as_bytes(), "at {fails_at}");
    }
    Ok(())
}

/// The script `three_rounds.jsonl` of the examples.
const SCRIPT: &str = r#"["open",2,16]
["offer",1,0,[[[[5,0,0]],[]]]]
["round",32,0,1]
["offer",0,0,[[[],[5]]]]
["round",32,0,1]
["offer",1,1,[[[[5,"init"]],[]]]]
["round",32,0,1]
"#;

/// The replies to it.
const REPLIES: &str = r#"["ok"]
["ok"]
["report",1,"pending",[0,1],[[1,0]]]
["ok"]
["report",2,"serial",[1,1],[[0,0],[1,0]]]
["ok"]
["report",3,"violated",[1,2],[["cycle",[["read",5,0,0,1,0],["session",1,0,1,1],["base",5,1,1,0,0]]]]]
"#;

/// The script `first_cut.jsonl` of the examples.
const CUT_SCRIPT: &str = r#"["open",2,16]
["offer",0,0,[[[],[5]],[[[0,"init"]],[0]]]]
["offer",1,0,[[[[0,0,1]],[0]]]]
["round",32,0,1]
["truncate"]
["show"]
["truncate"]
"#;

/// The replies to it.
const CUT_REPLIES: &str = r#"["ok"]
["ok"]
["ok"]
["report",1,"serial",[2,1],[[0,0],[0,1],[1,0]]]
["cut",[0,1],[[0,0],[0,1]],[[0,0,1],[5,0,0]]]
["show",[2,0],[2,1],[false,false],[[0,0,1],[5,0,0]],1]
["no",13,"NoCut"]
"#;

/// How the script is served, and what is written, where the devices move so many bytes a call and one call of each fails.
fn served<R: Threads + Wait>(
    rt: &R,
    alloc: Global,
    script: &[u8],
    most: usize,
    failing_read: u64,
    failing_write: u64,
) -> (Result<(), Failure>, Vec<u8>)
    requires { 0 < most }
{
    let mut source = MemorySource {
        bytes: script,
        pace: Pace::new(most, failing_read),
        last_read: 0,
    };
    let mut sink = MemorySink {
        bytes: Vec::new(alloc),
        pace: Pace::new(most, failing_write),
    };
    let solvers = Solvers {
        plain: Single,
        guided: Single,
    };
    let end = thread::scope(thread::scope_env(), rt, |scope| {
        let means = Means {
            scope,
            rt,
            alloc,
            solvers: &solvers,
        };
        serve(&means, &mut source, &mut sink)
    });
    (end, sink.bytes)
}

/// A transaction that writes a key and one that reads it from there are offered, and a round is made.
const FIRST_RUN: &str = r#"["open",1,8]
["offer",0,0,[[[],[5]],[[[5,0,0]],[]]]]
["round",32,0,1]
"#;

#[test]
fn first_run(rt: HostRuntime) -> Result<(), Fail> {
    let (end, written) = served(&rt, rt.alloc(), FIRST_RUN.as_bytes(), 4096, 0, 0);
    assert_eq!(rt; end, Ok(()));
    let replies = b"[\"ok\"]\n[\"ok\"]\n[\"report\",1,\"serial\",[2],[[0,0],[0,1]]]\n";
    assert_eq!(rt; written.as_slice(), replies.as_slice());
    Ok(())
}

#[test]
fn longest_line(rt: HostRuntime) -> Result<(), Fail> {
    let open = b"[\"open\",2,8]\n[\"open\",2,8]\n";
    let cases = [
        (12, "[\"ok\"]\n[\"no\",1,\"BadLine\"]\n"),
        (11, "[\"no\",1,\"BadLine\"]\n[\"ok\"]\n"),
    ];
    for (shorter, replies) in cases {
        let mut script: Vec<u8> = vec![in rt.alloc(); b' '; LONGEST_LINE - shorter]?;
        script.extend_from_slice(open)?;
        let (end, written) = served(&rt, rt.alloc(), &script, 1 << 20, 0, 0);
        assert_eq!(rt; end, Ok(()));
        assert_eq!(rt; written.as_slice(), replies.as_bytes(), "at {shorter}");
    }
    Ok(())
}

/// Whether the bytes are lines, each with its LF.
fn are_lines(bytes: &[u8]) -> bool {
    bytes.is_empty() || bytes.ends_with(b"\n")
}

/// Each read, or each write, fails in turn: a front of the replies is written, after a failed read whole lines. Answers the
/// first call that isn't made.
fn fails_in_turn<R: AllocGlobal + Abort + Threads + Wait>(
    rt: &R,
    script: &str,
    replies: &str,
    most: usize,
    is_read: bool,
) -> u64
    requires { 0 < most }
{
    for call in 1..1000 {
        let (read, write) = if is_read { (call, 0) } else { (0, call) };
        let (end, written) = served(rt, rt.alloc(), script.as_bytes(), most, read, write);
        if end == Ok(()) {
            assert!(rt; written.as_slice() == replies.as_bytes(), "by {most}");
            return call;
        }
        assert_eq!(rt; end, Err(Failure::Device), "at call {call} by {most}");
        assert!(rt;
            replies.as_bytes().starts_with(&written),
            "at call {call} by {most}"
        );
        assert!(rt; !is_read || are_lines(&written), "at call {call} by {most}");
    }
    0
}

#[test]
fn stops_at_a_failure(rt: HostRuntime) {
    // The last read finds the end, and the call after the last one can't fail.
    for (script, replies, most, reads, writes) in [
        (SCRIPT, REPLIES, 1, 157, 210),
        (SCRIPT, REPLIES, 7, 25, 32),
        (SCRIPT, REPLIES, 4096, 3, 8),
        (CUT_SCRIPT, CUT_REPLIES, 1, 144, 189),
        (CUT_SCRIPT, CUT_REPLIES, 7, 23, 29),
        (CUT_SCRIPT, CUT_REPLIES, 4096, 3, 8),
    ] {
        assert_eq!(rt; fails_in_turn(&rt, script, replies, most, true), reads);
        assert_eq!(rt; fails_in_turn(&rt, script, replies, most, false), writes);
    }
}

#[test]
fn tells_a_failure_as_it_prints(rt: HostRuntime) -> Result<(), Fail> {
    for (failure, want) in [
        (Failure::Device, "device failed"),
        (Failure::NoMemory, "out of memory"),
    ] {
        let exit = exit_of(Err(failure));
        assert_eq!(rt; exit.status, 1);
        assert!(rt; exit.words == Some(want));
        assert_eq!(rt; format!(in rt.alloc(); "{failure}")?.as_str(), want);
    }
    assert_eq!(rt; exit_of(Ok(())).status, 0);
    Ok(())
}

/// The words, of which the first is the program's name.
fn words(alloc: Global, text: &str) -> Result<Vec<String>, AllocError> {
    let mut all = Vec::new(alloc);
    for word in text.split(' ') {
        all.push(String::from_str(alloc, word)?)?;
    }
    Ok(all)
}

#[test]
fn arguments(rt: HostRuntime) -> Result<(), Fail> {
    for (text, want) in [
        ("cobra_audit", Asked::Work),
        ("cobra_audit --help", Asked::Help),
        ("cobra_audit --version", Asked::Version),
        ("cobra_audit script.jsonl", Asked::Unknown),
        ("cobra_audit --help --version", Asked::Unknown),
        ("cobra_audit --Help", Asked::Unknown),
    ] {
        let words = words(rt.alloc(), text)?;
        assert!(rt; asked_of(&words) == want, "{text}");
    }
    Ok(())
}
