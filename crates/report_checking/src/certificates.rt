//! What a stored report shows. It isn't believed: the engine judges it, and the text of the report that it earns is
//! compared with the stored one.
ghost use Rattle.std.specs.Prelude.{◌≡◌, Option, IfOk};
ghost use Rattle.log_text.specs.ReadBack.{IsSameShown};
ghost use Rattle.log_text.specs.declared.shown.Shown.{Shown};
ghost use Rattle.log_text.specs.Shown.{IsShownIn};
ghost use Rattle.report_checking.specs.Reading.{IsAnswerOf, answer_of};

use log_text::{Names, Shown, read_shown};
use polygraph::Answer;
use std::alloc::Global;
use txn::NoMemory;

/// As the answer of a search: Spent where it is neither an order nor a tree.
fn as_answer(found: Option<Shown>) -> Answer
    ensures is { result ≡ answer_of found }
    ensures same { (shown : Option Shown) → IsSameShown found shown → IsAnswerOf shown result }
{
    match found {
        Some(Shown::Order(order)) => Answer::Yes(order),
        Some(Shown::Refuted(tree)) => Answer::No(tree),
        None => Answer::Spent,
    }
}

/// The answer of a search that this reply tells: the order or the tree that it shows, and Spent where it shows neither.
pub(crate) fn answer_told(alloc: Global, names: Names, stored: &[u8]) -> Result<Answer, NoMemory>
    ensures shown { IfOk result (λ answer. (found : Option Shown) × IsShownIn names stored.now found × (answer ≡ answer_of found)) }
    ensures only { IfOk result (λ answer. (shown : Option Shown) → IsShownIn names stored.now shown → IsAnswerOf shown answer) }
{
    Ok(as_answer(read_shown(alloc, names, stored)?))
}
