//! What is asked of a script about a small history with times, and the replies to its offers.
ghost use Rattle.std.specs.Prelude.{◌<◌};

use crate::rounds::{Made, session_of};
use std::alloc::Global;
use strict_histories::{TimedTxn, first_wrong_time};
use txn::Source::{self, By, Init};
use txn::{NoMemory, Txn};

/// Writes a comma, unless it is the first.
fn push_comma(script: &mut String, place: usize) -> Result<(), NoMemory> {
    if place > 0 {
        script.push_str(",")
    } else {
        Ok(())
    }
}

fn push_read(script: &mut String, alloc: Global, read: (u64, Source)) -> Result<(), NoMemory> {
    let key = read.0;
    let text = match read.1 {
        Init => format!(in alloc; "[{key},\"init\"]")?,
        By(id) => {
            let (session, number) = (id.session, id.number);
            format!(in alloc; "[{key},{session},{number}]")?
        }
    };
    script.push_str(text.as_str())
}

fn push_txn(script: &mut String, alloc: Global, txn: &Txn) -> Result<(), NoMemory> {
    script.push_str("[[")?;
    for (place, read) in txn.reads.as_slice().iter().enumerate() {
        push_comma(script, place)?;
        push_read(script, alloc, *read)?;
    }
    script.push_str("],[")?;
    for (place, key) in txn.writes.as_slice().iter().enumerate() {
        push_comma(script, place)?;
        script.push_str(format!(in alloc; "{key}")?.as_str())?;
    }
    script.push_str("]]")
}

/// Writes when they began, or when they ended, as lines tell it.
fn push_times(
    script: &mut String,
    alloc: Global,
    timed: &[TimedTxn],
    ended: bool,
) -> Result<(), NoMemory> {
    script.push_str(",[")?;
    for (place, one) in timed.iter().enumerate() {
        push_comma(script, place)?;
        let time = if ended {
            one.span.ended.unwrap_or(u64::MAX)
        } else {
            one.span.began.unwrap_or(0)
        };
        script.push_str(format!(in alloc; "{time}")?.as_str())?;
    }
    script.push_str("]")
}

/// Writes the offer of a session's transactions with their times.
fn push_offer(
    script: &mut String,
    alloc: Global,
    session: u8,
    timed: &[TimedTxn],
) -> Result<(), NoMemory> {
    script.push_str(format!(in alloc; "[\"offer\",{session},0,[")?.as_str())?;
    for (place, one) in timed.iter().enumerate() {
        push_comma(script, place)?;
        push_txn(script, alloc, &one.txn)?;
    }
    script.push_str("]")?;
    push_times(script, alloc, timed, false)?;
    push_times(script, alloc, timed, true)?;
    script.push_str("]\n")
}

/// A script over a history, and whether each offer can have its times: one is refused exactly if it can't.
#[derive(Drop)]
pub(crate) struct Asked {
    pub(crate) script: String,
    pub(crate) replies: String,
    pub(crate) is_taken: bool,
}

pub(crate) fn asked_by(alloc: Global, made: &Made) -> Result<Asked, NoMemory> {
    let mut asked = Asked {
        script: String::from_str(alloc, "[\"open\",3,16,2,\"strict\"]\n")?,
        replies: String::from_str(alloc, "[\"ok\"]\n")?,
        is_taken: true,
    };
    for session in 0..3 {
        let own = session_of(alloc, made, session)?;
        push_offer(&mut asked.script, alloc, session, own.as_slice())?;
        if first_wrong_time(own.as_slice()).is_none() {
            asked.replies.push_str("[\"ok\"]\n")?;
        } else {
            asked.replies.push_str("[\"no\",3,\"BadTxn\"]\n")?;
            asked.is_taken = false;
        }
    }
    asked.script.push_str("[\"round\",4096,0,1]\n")?;
    Ok(asked)
}
