ghost use Rattle.std.specs.Prelude.{◌≡◌, IfOk, OnOk};
ghost use Rattle.log_text.specs.Replies.{line_of, text_of, HasKindOfOrder, kind_name};
ghost use Rattle.log_text.specs.ReadBack.{HandsOverAgain, SaysReply, ShowsAgain};
ghost use Rattle.log_text.specs.Saved.{GainsData};
ghost use Rattle.log_text.specs.Told.{IsReply, reply_data, report_data};

use crate::lists::{push_each, push_flags, push_numbers, push_word, push_writers};
use crate::names::{Names, push_all_named, push_named};
use crate::saved::{Saved, push_saved};
use crate::trees::push_tree;
use isolation_histories::stars_are_of_keys;
use order_check::Kind;
use refutation::Tree;
use serde_json::Value;
use std::alloc::Global;
use txn::{NoMemory, Refusal, Sequence, TxnId};

/// What a line of a script is answered.
#[derive(Drop, Debug)]
pub enum Reply {
    /// What was asked is done.
    Done,
    /// What was asked is refused.
    No(Refusal),
    /// A round ended with an order that explains the history; or, where transactions are split, the split one. It is told by these names.
    Order {
        names: Names,
        round: u64,
        kind: Kind,
        counts: Sequence<u64>,
        order: Sequence<TxnId>,
    },
    /// A round found that no order explains the history, or the split one, and a tree shows it.
    Violated {
        names: Names,
        round: u64,
        counts: Sequence<u64>,
        tree: Tree,
    },
    /// A round used its budget up.
    Spent {
        round: u64,
        counts: Sequence<u64>,
    },
    /// What was settled is cut away: the fence of the cut, what is gone in order of id, and the last writer of each key that was
    /// written there, keys rising.
    Cut {
        fence: TxnId,
        gone: Sequence<TxnId>,
        last: Sequence<(u64, TxnId)>,
    },
    /// What the engine keeps: the first three have an item a session, `last` each key's last gone writer, keys rising.
    Show {
        marks: Sequence<u64>,
        received: Sequence<u64>,
        closed: Sequence<bool>,
        last: Sequence<(u64, TxnId)>,
        remaining: u64,
    },
    /// What was to be given out of the parts.
    Saved(Saved),
    /// The search that is to be collected goes on.
    Searching,
}

fn kind_name(kind: Kind) -> &'static str
    ensures { result.now ≡ kind_name kind }
{
    match kind {
        Kind::Serial => "serial",
        Kind::Pending => "pending",
        Kind::Violated => "violated",
        Kind::Spent => "spent",
    }
}

fn push_refused(alloc: Global, items: &mut Vec<Value>, refusal: Refusal) -> Result<(), NoMemory>
    ensures { OnOk result (GainsData items.old.items items.new.items (reply_data (Reply.No refusal))) }
{
    push_word(alloc, items, "no")?;
    push_each(items, &[u64::from(refusal.number())])?;
    push_word(alloc, items, refusal.name())
}

/// Puts what each report begins with at the end.
fn push_report(
    alloc: Global,
    items: &mut Vec<Value>,
    round: u64,
    kind: Kind,
    counts: &Sequence<u64>,
) -> Result<(), NoMemory>
    ensures { OnOk result (GainsData items.old.items items.new.items (report_data round kind counts.now)) }
{
    push_word(alloc, items, "report")?;
    push_each(items, &[round])?;
    push_word(alloc, items, kind_name(kind))?;
    push_numbers(alloc, items, counts.as_slice())
}

fn push_cut(
    alloc: Global,
    items: &mut Vec<Value>,
    fence: TxnId,
    gone: &Sequence<TxnId>,
    last: &Sequence<(u64, TxnId)>,
) -> Result<(), NoMemory>
    ensures { OnOk result (GainsData items.old.items items.new.items (reply_data (Reply.Cut fence gone.now last.now))) }
{
    push_word(alloc, items, "cut")?;
    push_named(alloc, items, Names::Ids, fence)?;
    push_all_named(alloc, items, Names::Ids, gone.as_slice())?;
    push_writers(alloc, items, last.as_slice())
}

fn push_shown(
    alloc: Global,
    items: &mut Vec<Value>,
    marks: &Sequence<u64>,
    received: &Sequence<u64>,
    closed: &Sequence<bool>,
    last: &Sequence<(u64, TxnId)>,
    remaining: u64,
) -> Result<(), NoMemory>
    ensures { OnOk result (GainsData items.old.items items.new.items (reply_data (Reply.Show marks.now received.now closed.now last.now remaining))) }
{
    push_word(alloc, items, "show")?;
    push_numbers(alloc, items, marks.as_slice())?;
    push_numbers(alloc, items, received.as_slice())?;
    push_flags(alloc, items, closed.as_slice())?;
    push_writers(alloc, items, last.as_slice())?;
    push_each(items, &[remaining])
}

/// Puts a reply's parts at the end.
fn push_parts(alloc: Global, items: &mut Vec<Value>, reply: &Reply) -> Result<(), NoMemory>
    ensures { OnOk result (GainsData items.old.items items.new.items (reply_data reply.now)) }
{
    match reply {
        Reply::Done => push_word(alloc, items, "ok"),
        Reply::No(refusal) => push_refused(alloc, items, *refusal),
        Reply::Order {
            names,
            round,
            kind,
            counts,
            order,
        } => {
            push_report(alloc, items, *round, *kind, counts)?;
            push_all_named(alloc, items, *names, order.as_slice())
        }
        Reply::Violated {
            names,
            round,
            counts,
            tree,
        } => {
            push_report(alloc, items, *round, Kind::Violated, counts)?;
            push_tree(alloc, items, *names, tree)
        }
        Reply::Spent { round, counts } => push_report(alloc, items, *round, Kind::Spent, counts),
        Reply::Cut { fence, gone, last } => push_cut(alloc, items, *fence, gone, last),
        Reply::Show {
            marks,
            received,
            closed,
            last,
            remaining,
        } => push_shown(alloc, items, marks, received, closed, last, *remaining),
        Reply::Saved(saved) => push_saved(alloc, items, saved),
        Reply::Searching => push_word(alloc, items, "searching"),
    }
}

fn value_of(alloc: Global, reply: &Reply) -> Result<Value, NoMemory>
    ensures { IfOk result (λ value. IsReply value reply.now) }
{
    let mut items = Vec::new(alloc);
    push_parts(alloc, &mut items, reply)?;
    Ok(Value::Array(items))
}

/// The reply's text: one JSON array with no space in it.
fn reply_bytes(alloc: Global, reply: &Reply) -> Result<Vec<u8>, NoMemory>
    ensures text { IfOk result (λ bytes. bytes.items ≡ text_of reply.now) }
    ensures says { IfOk result (λ bytes. SaysReply bytes.items reply.now) }
    ensures reads_back { IfOk result (λ bytes. HandsOverAgain bytes.items reply.now) }
    ensures report_reads_back { IfOk result (λ bytes. HasKindOfOrder reply.now → ShowsAgain bytes.items reply.now) }
{
    // A law that the proof cites. It does nothing when it runs.
    stars_are_of_keys();
    let value = value_of(alloc, reply)?;
    let bytes = value.to_vec(alloc)?;
    Ok(bytes)
}

/// The reply's line: its text and a line feed. The text of parts that are given out is a line of a hand-over, and hands the same parts
/// over. The order or the tree that a report ends in is read as it was, so that another auditor may be handed it.
pub fn write_reply(alloc: Global, reply: &Reply) -> Result<Vec<u8>, NoMemory>
    requires { HasKindOfOrder reply.now }
    ensures line { IfOk result (λ bytes. bytes.items ≡ line_of reply.now) }
    ensures says { IfOk result (λ bytes. SaysReply (text_of reply.now) reply.now) }
    ensures reads_back { IfOk result (λ bytes. HandsOverAgain (text_of reply.now) reply.now) }
    ensures report_reads_back { IfOk result (λ bytes. ShowsAgain (text_of reply.now) reply.now) }
{
    let mut bytes = reply_bytes(alloc, reply)?;
    bytes.push(b'\n')?;
    Ok(bytes)
}
