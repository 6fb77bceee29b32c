ghost use Rattle.std.specs.Prelude.{◌≡◌, IfOk, string_bytes};
ghost use Rattle.demonstration.specs.Texts.{collector_line, collector_lines, demo_text};

use crate::names::{fault_name, kind_name};
use demo_store::Fault;
use fragment_intake::Tally;
use order_check::Kind;
use std::alloc::Global;
use txn::NoMemory;

/// What a run has shown: its fault, how many parcels of each collector were submitted and taken, the kind of the last report that was
/// read, and the one that the word told after it.
#[derive(Clone, Copy, Debug, PartialEq, Eq)]
pub struct Shown {
    pub fault: Fault,
    pub tally: Tally,
    pub last: Option<Kind>,
    pub latest: Option<Kind>,
}

fn collector_line(
    alloc: Global,
    collector: u64,
    submitted: u64,
    taken: u64,
) -> Result<String, NoMemory>
    ensures { IfOk result (λ line. string_bytes line ≡ collector_line collector submitted taken) }
{
    format!(in alloc; "collector {collector} submitted {submitted} taken {taken}\n")
}

fn collector_lines(alloc: Global, tally: &Tally) -> Result<String, NoMemory>
    ensures { IfOk result (λ lines. string_bytes lines ≡ collector_lines 0 tally.now.submitted tally.now.taken) }
{
    let [first, second, third, fourth] = tally.submitted;
    let [of_first, of_second, of_third, of_fourth] = tally.taken;
    let first = collector_line(alloc, 0, first, of_first)?;
    let second = collector_line(alloc, 1, second, of_second)?;
    let third = collector_line(alloc, 2, third, of_third)?;
    let fourth = collector_line(alloc, 3, fourth, of_fourth)?;
    format!(in alloc; "{first}{second}{third}{fourth}")
}

/// The text of what was shown.
pub fn text_of(alloc: Global, shown: &Shown) -> Result<String, NoMemory>
    ensures { IfOk result (λ text. string_bytes text ≡ demo_text shown.now) }
{
    let fault = fault_name(shown.fault);
    let lines = collector_lines(alloc, &shown.tally)?;
    let last = kind_name(shown.last);
    let latest = kind_name(shown.latest);
    format!(in alloc; "fault {fault}\n{lines}last {last}\nlatest {latest}\n")
}
