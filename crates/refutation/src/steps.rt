ghost use Rattle.std.specs.Prelude.{◌≡◌};
ghost use Rattle.txn.specs.Choices.{first_side, second_side};
ghost use Rattle.order_check.specs.Cycles.{side_taken, side_not_taken};

use txn::{Choice, ForceStep, Side, TxnId};

pub fn first_side(choice: Choice) -> (TxnId, TxnId)
    ensures { result ≡ first_side choice }
{
    (choice.other, choice.writer)
}

pub fn second_side(choice: Choice) -> (TxnId, TxnId)
    ensures { result ≡ second_side choice }
{
    (choice.reader, choice.other)
}

pub fn side_taken(step: &ForceStep) -> (TxnId, TxnId)
    ensures { result ≡ side_taken step.now }
{
    match step.side {
        Side::First => first_side(step.choice),
        Side::Second => second_side(step.choice),
    }
}

pub fn side_not_taken(step: &ForceStep) -> (TxnId, TxnId)
    ensures { result ≡ side_not_taken step.now }
{
    match step.side {
        Side::First => second_side(step.choice),
        Side::Second => first_side(step.choice),
    }
}
