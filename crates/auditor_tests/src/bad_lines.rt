// Lines that are no commands, and answers that are none.
use log_text::{Names, read_line};
use std::alloc::Global;
use std::process::Abort;
use std::test::Fail;
use txn::Refusal;

// Texts that are no JSON, or no array of a known word and its parts; other parts; offers and joins with other parts.
static BAD_LINES: [&str; 118] = [
    "",
    " ",
    "null",
    "[]",
    "{}",
    "\"show\"",
    "[[\"show\"]]",
    "[show]",
    "[\"show\",]",
    "[\"show\"",
    "[\"show\"]]",
    "[\"show\"] 1",
    "[\"Show\"]",
    "[\"show\",1]",
    "[\"truncate\",0]",
    "[\"rebuild\",[]]",
    "[\"cut\"]",
    "[\"show\"}",
    "{\"show\":1}",
    "[\"sh{ow\"]",
    "[\"show\",{\"\":0}]",
    "[\"offer\",0,0,[[[],[]],{}]]",
    "\u{feff}[\"show\"]",
    "[\"show\"]\u{0}",
    "[\"begin\",[]]",
    "[\"close\"]",
    "[\"close\",256]",
    "[\"close\",0,0]",
    "[\"close\",\"0\"]",
    "[\"close\",-1]",
    "[\"open\",2]",
    "[\"open\",2,16,1]",
    "[\"open\",2,16,4]",
    "[\"open\",2,16,3.0]",
    "[\"open\",2,16,\"3\"]",
    "[\"open\",2,16,4,\"snapshot\"]",
    "[\"open\",2,16,3,\"snapshots\"]",
    "[\"open\",2,16,3,\"snapshot\",3]",
    "[\"open\",2,16,3,3]",
    "[\"open\",2,16,\"strict\"]",
    "[\"open\",2,16,1,\"strict\"]",
    "[\"open\",2,16,4,\"strict\"]",
    "[\"open\",2,16,2,\"Strict\"]",
    "[\"open\",2,16,2,\"strict\",2]",
    "[\"open\",2,16,2,\"snapshot\",\"strict\"]",
    "[\"resume\",2,16,2,\"strict\"]",
    "[\"offer\",0,0,[],[]]",
    "[\"offer\",0,0,[],[],[],[]]",
    "[\"offer\",0,0,[],[],0]",
    "[\"offer\",0,0,[],[null],[0]]",
    "[\"offer\",0,0,[],[-1],[0]]",
    "[\"offer\",0,0,[],[1.0],[0]]",
    "[\"offer\",0,0,[],[18446744073709551616],[0]]",
    "[\"offer\",0,0,[],[[0]],[0]]",
    "[\"offer\",0,[],[],[]]",
    "[\"join\",0,0,[],[],[]]",
    "[\"open\",2,16,\"2\"]",
    "[\"open\",2,16,2.0]",
    "[\"open\",2,16,null]",
    "[\"open\",2,16,[2]]",
    "[\"open\",2,16,2,2]",
    "[\"open\",2,16,\"snapshot\"]",
    "[\"open\",2,16,1,\"snapshot\"]",
    "[\"open\",2,16,2,\"Snapshot\"]",
    "[\"open\",2,16,2,\"snapshot\",2]",
    "[\"open\",2,16,\"snapshot\",2]",
    "[\"resume\",2,16,\"snapshot\"]",
    "[\"resume\",2,16,1]",
    "[\"open\",-0,16]",
    "[\"open\",1.0,16]",
    "[\"open\",1e0,16]",
    "[\"open\",01,16]",
    "[\"open\",1,18446744073709551616]",
    "[\"open\",1,1e400]",
    "[\"open\",[2],16]",
    "[\"finish\",0,0,1]",
    "[\"finish\",1,0]",
    "[\"round\",4294967297,0,1]",
    "[\"round\",1,7,1]",
    "[\"round\",1,0,0]",
    "[\"round\",1,0,17]",
    "[\"offer\",0,0]",
    "[\"offer\",256,0,[]]",
    "[\"offer\",0,0,[[]]]",
    "[\"offer\",0,0,[[[],[],[]]]]",
    "[\"offer\",0,0,[[[],[],\"Aborted\"]]]",
    "[\"offer\",0,0,[[[],[],null]]]",
    "[\"offer\",0,0,[[[],[],true]]]",
    "[\"offer\",0,0,[[[],[],\"aborted\",0]]]",
    "[\"offer\",0,0,[[[],\"aborted\"]]]",
    "[\"offer\",0,0,[[\"aborted\",[],[]]]]",
    "[\"offer\",0,0,[[[],[5,null]]]]",
    "[\"offer\",0,0,[[[[5]],[]]]]",
    "[\"offer\",0,0,[[[[5,\"Init\"]],[]]]]",
    "[\"offer\",0,0,[[[[5,\"init\",0]],[]]]]",
    "[\"offer\",0,0,[[[[5,256,0]],[]]]]",
    "[\"offer\",0,0,[[[[5,0,0,0]],[]]]]",
    "[\"join\"]",
    "[\"join\",[]]",
    "[\"join\",256,[]]",
    "[\"join\",0,0]",
    "[\"join\",0,-1,[]]",
    "[\"join\",0,[],0]",
    "[\"join\",0,0,[],[]]",
    "[\"join\",0,[[]]]",
    "[\"join\",0,0,[[[],[\"5\"]]]]",
    "[\"marks\",[0]]",
    "[\"marks\",[0],[false],[1]]",
    "[\"marks\",[0],[false],[true],[true]]",
    "[\"last\",[[5,0]]]",
    "[\"save\"]",
    "[\"save\",\"show\"]",
    "[\"answer\",\"order\"]",
    "[\"answer\",\"order\",[[256,0]]]",
    "[\"answer\",\"refuted\",[]]",
    "[\"answer\",\"refuted\",[[\"gone\",0,0,5],[\"gone\",0,0,5]]]",
    "[\"answer\",\"order\",[[0,0,\"begin\"]]]",
    "[\"answer\",\"refuted\",[[\"gone\",0,0,\"begin\",5]]]",
];

// Lines that are no answers about begins and commits.
static BAD_ANSWERS: [&str; 6] = [
    "[\"answer\",\"order\",[[0,0]]]",
    "[\"answer\",\"order\",[[0,0,\"end\"]]]",
    "[\"answer\",\"order\",[[0,9223372036854775808,\"begin\"]]]",
    "[\"answer\",\"refuted\",[[\"gone\",0,0,5]]]",
    "[\"answer\",\"refuted\",[[\"gone\",0,0,\"begin\",9223372036854775808]]]",
    "[\"answer\",\"refuted\",[[\"cycle\",[[\"read\",5,0,0,1,0,\"begin\"]]]]]",
];

fn bad_lines() -> &'static [&'static str] {
    &BAD_LINES
}

fn bad_answers() -> &'static [&'static str] {
    &BAD_ANSWERS
}

// Another refusal is handed on, as that of memory.
fn is_bad_line(alloc: Global, names: Names, line: &[u8]) -> Result<bool, Refusal> {
    match read_line(alloc, names, line) {
        Ok(_) => Ok(false),
        Err(Refusal::BadLine) => Ok(true),
        Err(other) => Err(other),
    }
}

fn are_bad_lines(
    rt: &impl Abort,
    alloc: Global,
    names: Names,
    lines: &[&str],
) -> Result<(), Refusal> {
    for line in lines {
        assert!(rt; is_bad_line(alloc, names, line.as_bytes())?, "at {line}");
    }
    Ok(())
}

#[test]
fn lines_that_are_no_commands(rt: HostRuntime) -> Result<(), Fail> {
    let alloc = rt.alloc();
    assert!(rt; is_bad_line(alloc, Names::Ids, b"[\"show\xff\"]")?);
    assert!(rt; is_bad_line(alloc, Names::Ids, [b'['; 200].as_slice())?);
    are_bad_lines(&rt, alloc, Names::Events, bad_answers())?;
    Ok(are_bad_lines(&rt, alloc, Names::Ids, bad_lines())?)
}
