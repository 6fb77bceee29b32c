ghost use Rattle.std.specs.Prelude.{◌≡◌};
ghost use Rattle.txn.specs.Arcs.{start_of, end_of};

use crate::sequences::Sequence;
use crate::transactions::TxnId;

/// A reader of a key, the transaction that it read the key from, and another writer of the key. The other one stands
/// before the writer or after the reader (the alternative arcs of a polygraph; Papadimitriou 1979).
#[derive(Clone, Copy, Debug, PartialEq, Eq, PartialOrd, Ord)]
pub struct Choice {
    pub reader: TxnId,
    pub key: u64,
    pub writer: TxnId,
    pub other: TxnId,
}

/// A side of a choice.
#[derive(Clone, Copy, Debug, PartialEq, Eq)]
pub enum Side {
    /// The other writer before the writer.
    First,
    /// The reader before the other writer.
    Second,
}

/// Why one transaction stands before another.
#[derive(Clone, Copy, Debug, PartialEq, Eq)]
pub enum Arc {
    /// It comes first in their session.
    Session { from: TxnId, to: TxnId },
    /// The second read the key from the first.
    Read { key: u64, from: TxnId, to: TxnId },
    /// The first read the key from what stands before everything that remains, and the second writes it.
    Base { key: u64, from: TxnId, to: TxnId },
    /// It is the side taken of a choice.
    Taken { from: TxnId, to: TxnId },
}

impl Arc {
    pub fn start(self) -> TxnId
        ensures { result ≡ start_of self }
    {
        match self {
            Arc::Session { from, .. }
            | Arc::Read { from, .. }
            | Arc::Base { from, .. }
            | Arc::Taken { from, .. } => from,
        }
    }

    pub fn end(self) -> TxnId
        ensures { result ≡ end_of self }
    {
        match self {
            Arc::Session { to, .. }
            | Arc::Read { to, .. }
            | Arc::Base { to, .. }
            | Arc::Taken { to, .. } => to,
        }
    }
}

/// A choice with the side that it is forced to, and the cycle that the other side would close.
#[derive(Clone, Drop, Debug)]
pub struct ForceStep {
    pub choice: Choice,
    pub side: Side,
    pub cycle: Sequence<Arc>,
}
