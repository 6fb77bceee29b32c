ghost use Rattle.std.specs.Prelude.{◌≡◌};
ghost use Rattle.strict_histories.specs.Rewriting.{ended_before};

use txn::Txn;

/// When a transaction began, and when it ended, by one clock. A time is None if it isn't known.
#[derive(Clone, Copy, Debug, PartialEq, Eq)]
pub struct Span {
    pub began: Option<u64>,
    pub ended: Option<u64>,
}

impl Span {
    /// Whether it ended before the other began, as far as both times are known.
    pub fn ended_before(self, other: Span) -> bool
        ensures { result ≡ ended_before self other }
    {
        match (self.ended, other.began) {
            (Some(ended), Some(began)) => ended < began,
            _ => false,
        }
    }
}

/// A transaction with its times.
#[derive(Clone, Drop, Debug)]
pub struct TimedTxn {
    pub txn: Txn,
    pub span: Span,
}
