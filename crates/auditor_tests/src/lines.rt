// Lines of scripts.
use crate::said::numbers_of;
use log_text::{Command, Names, Version, read_line};
use std::alloc::Global;
use std::test::Fail;
use txn::{Refusal, Source, TxnId};

struct Row {
    line: &'static str,
    name: &'static str,
    numbers: [u64; 3],
}

static COMMANDS: [Row; 44] = [
    Row {
        line: "[\"open\",2,16,2,\"\\u0073trict\"]",
        name: "open strict",
        numbers: [2, 16, 2],
    },
    Row {
        line: "[\"open\",256,1048576,3,\"strict\"]",
        name: "open strict",
        numbers: [256, 1048576, 3],
    },
    Row {
        line: "[\"offer\",0,0,[],[],[]]",
        name: "offer timed",
        numbers: [0, 0, 0],
    },
    Row {
        line: "[\"offer\",0,0,[[[],[5]],[[],[6]]],[1,2],[3,4]]",
        name: "offer timed",
        numbers: [2, 12, 34],
    },
    Row {
        line: "[\"offer\",0,0,[[[],[5]]], [ 1 , 2 , 3 ] ,[18446744073709551615]]",
        name: "offer timed",
        numbers: [1, 123, u64::MAX],
    },
    Row {
        line: "[\"search\",4294967296,6,16]",
        name: "search",
        numbers: [1 << 32, 6, 16],
    },
    Row {
        line: "[\"search\",1,0,1,\"guided\"]",
        name: "guided search",
        numbers: [1, 0, 1],
    },
    Row {
        line: "[\"collect\",\"wait\"]",
        name: "collect",
        numbers: [1, 0, 0],
    },
    Row {
        line: "[\"skip\"]",
        name: "skip",
        numbers: [0, 0, 0],
    },
    Row {
        line: "[\"open\",0,18446744073709551615]",
        name: "open",
        numbers: [0, u64::MAX, 1],
    },
    Row {
        line: " [ \"open\" ,\t2 , 16 ] ",
        name: "open",
        numbers: [2, 16, 1],
    },
    Row {
        line: "[\"open\",2,16]\r",
        name: "open",
        numbers: [2, 16, 1],
    },
    Row {
        line: "[\"open\",2,16,2]",
        name: "open",
        numbers: [2, 16, 2],
    },
    Row {
        line: "[\"open\",2,16,3]",
        name: "open",
        numbers: [2, 16, 3],
    },
    Row {
        line: "[\"resume\",2,16,3]",
        name: "resume",
        numbers: [2, 16, 3],
    },
    Row {
        line: "[\"open\",2,16,2,\"\\u0073napshot\"]",
        name: "open isolated",
        numbers: [2, 16, 2],
    },
    Row {
        line: "[\"open\",256,524288,3,\"snapshot\"]",
        name: "open isolated",
        numbers: [256, 524288, 3],
    },
    Row {
        line: "[\"resume\",2,16,2]",
        name: "resume",
        numbers: [2, 16, 2],
    },
    Row {
        line: "[\"resume\",2,16,2,\"snapshot\"]",
        name: "resume",
        numbers: [2, 16, 12],
    },
    Row {
        line: "[\"resume\",2,16,3,\"snapshot\"]",
        name: "resume",
        numbers: [2, 16, 13],
    },
    Row {
        line: "[\"join\",1,[[[],[],\"\\u0061borted\"]]]",
        name: "join",
        numbers: [1, 0, 1],
    },
    Row {
        line: "[\"offer\",0,0,[]]",
        name: "offer",
        numbers: [0, 0, 0],
    },
    Row {
        line: "[\"offer\",255,281474976710656,[[[],[]],[[],[5,5]]]]",
        name: "offer",
        numbers: [255, 281474976710656, 2],
    },
    Row {
        line: "[\"join\",255,[]]",
        name: "join",
        numbers: [255, 0, 0],
    },
    Row {
        line: "[\"join\",0,281474976710656,[[[],[]],[[],[5,5]]]]",
        name: "join",
        numbers: [0, 281474976710656, 2],
    },
    Row {
        line: "[\"close\",255]",
        name: "close",
        numbers: [255, 0, 0],
    },
    Row {
        line: "[\"begin\"]",
        name: "begin",
        numbers: [0, 0, 0],
    },
    Row {
        line: "[\"finish\",1,0,1]",
        name: "finish",
        numbers: [1, 0, 1],
    },
    Row {
        line: "[\"round\",4294967296,6,16]",
        name: "round",
        numbers: [4294967296, 6, 16],
    },
    Row {
        line: "[\"truncate\"]",
        name: "truncate",
        numbers: [0, 0, 0],
    },
    Row {
        line: "[ \"rebuild\" ]",
        name: "rebuild",
        numbers: [0, 0, 0],
    },
    Row {
        line: "\n[\"show\"]\n",
        name: "show",
        numbers: [0, 0, 0],
    },
    Row {
        line: "[\"\\u0073how\"]",
        name: "show",
        numbers: [0, 0, 0],
    },
    Row {
        line: "[\"resume\",2,16]",
        name: "resume",
        numbers: [2, 16, 1],
    },
    Row {
        line: "[\"marks\",[3,0,0],[true,false]]",
        name: "marks",
        numbers: [3, 2, 0],
    },
    Row {
        line: "[\"marks\",[3,0,0],[true,false],[ true ]]",
        name: "marks begun",
        numbers: [3, 2, 1],
    },
    Row {
        line: "[\"last\",[[5,0,2]]]",
        name: "last",
        numbers: [1, 0, 0],
    },
    Row {
        line: "[\"resumed\"]",
        name: "resumed",
        numbers: [0, 0, 0],
    },
    Row {
        line: "[\"save\",\"marks\"]",
        name: "save marks",
        numbers: [0, 0, 0],
    },
    Row {
        line: "[\"save\",\"last\",7]",
        name: "save last",
        numbers: [7, 0, 0],
    },
    Row {
        line: "[\"save\",\"remain\",1,4]",
        name: "save remain",
        numbers: [1, 4, 0],
    },
    Row {
        line: "[\"answer\",\"order\",[]]",
        name: "answer order",
        numbers: [0, 0, 0],
    },
    Row {
        line: "[\"answer\",\"order\",[[255,18446744073709551615],[0,0]]]",
        name: "answer order",
        numbers: [2, 0, 0],
    },
    Row {
        line: "[\"answer\",\"refuted\",[[\"gone\",0,0,5]]]",
        name: "answer refuted",
        numbers: [0, 0, 0],
    },
];

// Answers about begins and commits.
static ANSWERS: [Row; 3] = [
    Row {
        line: "[\"answer\",\"order\",[]]",
        name: "answer order",
        numbers: [0, 0, 0],
    },
    Row {
        line: "[\"answer\",\"order\",[[255,9223372036854775807,\"commit\"],[0,0,\"begin\"]]]",
        name: "answer order",
        numbers: [2, 0, 0],
    },
    Row {
        line: "[\"answer\",\"refuted\",[[\"gone\",0,0,\"begin\",5]]]",
        name: "answer refuted",
        numbers: [0, 0, 0],
    },
];

// What is looked up behind a call is not carried through each turn of a loop's proof.
fn commands() -> &'static [Row] {
    &COMMANDS
}

fn answers() -> &'static [Row] {
    &ANSWERS
}

fn is_read(alloc: Global, names: Names, row: &Row) -> Result<bool, Refusal> {
    let (name, numbers) = numbers_of(&read_line(alloc, names, row.line.as_bytes())?);
    Ok(name == row.name && numbers == row.numbers)
}

#[test]
fn lines_that_are_commands(rt: HostRuntime) -> Result<(), Fail> {
    for row in commands() {
        assert!(rt; is_read(rt.alloc(), Names::Ids, row)?, "at {}", row.line);
    }
    for row in answers() {
        assert!(rt; is_read(rt.alloc(), Names::Events, row)?, "at {}", row.line);
    }
    Ok(())
}

#[test]
fn offered_transactions(rt: HostRuntime) -> Result<(), Fail> {
    let line =
        b"[\"offer\",3,4,[[[[0,\"init\"],[9,255,18446744073709551615]],[5,6]],[[[7,\"\\u0069nit\"]],[]]]]";
    let Command::Offer(logged) = read_line(rt.alloc(), Names::Ids, line)? else {
        return Err(Fail::from("no offer"));
    };
    let fragment = &logged.fragment;
    let by = Source::By(TxnId {
        session: 255,
        number: u64::MAX,
    });
    let txns = fragment.txns.as_slice();
    assert!(rt; fragment.session == 3 && fragment.first == 4 && txns.len() == 2);
    assert!(rt; txns[0].reads.as_slice() == [(0, Source::Init), (9, by)].as_slice());
    assert!(rt; txns[0].writes.as_slice() == [5, 6].as_slice());
    assert!(rt; txns[1].reads.as_slice() == [(7, Source::Init)].as_slice());
    assert!(rt; txns[1].writes.is_empty());
    assert!(rt; logged.aborted.as_slice() == [false, false].as_slice());
    Ok(())
}

#[test]
fn aborted_transactions(rt: HostRuntime) -> Result<(), Fail> {
    let line = b"[\"offer\",0,7,[[[],[5]],[[[5,\"init\"]],[6],\"aborted\"],[[],[]]]]";
    let Command::Offer(logged) = read_line(rt.alloc(), Names::Ids, line)? else {
        return Err(Fail::from("no offer"));
    };
    assert!(rt; logged.aborted.as_slice() == [false, true, false].as_slice());
    assert!(rt; Version::Two.has_form(&logged) && !Version::One.has_form(&logged));
    assert!(rt; Version::Three.has_form(&logged));
    let txns = logged.fragment.txns.as_slice();
    assert!(rt; txns.len() == 3 && txns[1].reads.as_slice() == [(5, Source::Init)].as_slice());
    assert!(rt; txns[1].writes.as_slice() == [6].as_slice());
    Ok(())
}
