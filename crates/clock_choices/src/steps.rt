ghost use Rattle.std.specs.Prelude.{◌≡◌};
ghost use Rattle.clock_choices.specs.Steps.{premise, conclusion, conclusion_of};

use txn::{Choice, Side, TxnId};

/// A side of a choice that is forced, and how many arcs the relation had before its own: over these the other side would close a cycle.
#[derive(Clone, Copy, Debug)]
pub struct Forced {
    pub choice: Choice,
    pub side: Side,
    pub arcs: usize,
}

impl Forced {
    /// What rules the other side out: that the one comes before the other.
    pub(crate) fn premise(self) -> (TxnId, TxnId)
        ensures { result ≡ premise self }
    {
        match self.side {
            Side::First => (self.choice.other, self.choice.reader),
            Side::Second => (self.choice.writer, self.choice.other),
        }
    }

    /// The arc of its side.
    pub(crate) fn conclusion(self) -> (TxnId, TxnId)
        ensures { result ≡ conclusion self }
    {
        conclusion_of(self.choice, self.side)
    }
}

/// The arc of a side.
pub(crate) fn conclusion_of(choice: Choice, side: Side) -> (TxnId, TxnId)
    ensures { result ≡ conclusion_of choice side }
{
    match side {
        Side::First => (choice.other, choice.writer),
        Side::Second => (choice.reader, choice.other),
    }
}
