ghost use Rattle.std.specs.Prelude.{◌↔◌, ◌+◌, ◌≤◌, ◌^◌, length, sum_by, IsTrue};
ghost use Rattle.order_check.specs.Good.{IsGood};
ghost use Rattle.order_check.specs.Rules.{HasGoodShape, IsGoodTxn, AreGoodBelow, IsGoodSession, AreGoodSessions};

use crate::remainder::Parts;
use txn::{NUMBERS, Txn, TxnId, is_short, is_well_formed};

/// How many sessions an opening may allow.
const HIGHEST_SESSIONS: u64 = 256;

/// How high a limit may be. An opening may allow less.
const HIGHEST_LIMIT: u64 = 1_048_576;

fn is_good_txn(sessions: u64, id: TxnId, txn: &Txn) -> bool
    ensures { IsTrue result ↔ IsGoodTxn sessions id txn.now }
{
    is_short(txn) && is_well_formed(sessions, id, txn)
}

/// Whether these are good as transactions of a session that begin at a number, where there may be so many sessions.
fn are_good(sessions: u64, session: u8, first: u64, txns: &[Txn]) -> bool
    requires { first + length txns.now ≤ 2 ^ 48 }
    ensures { IsTrue result ↔ AreGoodBelow sessions session first txns.now (length txns.now) }
{
    let mut number = first;
    for txn in txns {
        if !is_good_txn(sessions, TxnId { session, number }, txn) {
            return false;
        }
        number += 1;
    }
    true
}

impl Parts {
    fn has_good_shape(&self) -> bool
        ensures { IsTrue result ↔ HasGoodShape self.now }
    {
        let sessions = self.remain.len();
        1 <= sessions
            && sessions as u64 <= self.most_sessions
            && self.most_sessions <= HIGHEST_SESSIONS
            && self.base.marks.len() == sessions
            && self.closed.len() == sessions
            && 1 <= self.limit
            && self.limit <= HIGHEST_LIMIT
    }

    /// Whether no more remain than the limit allows.
    fn has_room(&self) -> bool
        ensures { IsTrue result ↔ (sum_by length self.now.remain ≤ self.now.limit) }
    {
        let mut room = self.limit;
        for txns in self.remain.as_slice() {
            let count = txns.len() as u64;
            if count > room {
                return false;
            }
            room -= count;
        }
        true
    }

    fn is_good_session(&self, session: u8) -> bool
        ensures { IsTrue result ↔ IsGoodSession self.now session }
    {
        let mark = self.mark_of(session);
        let txns = self.remaining_of(session);
        mark <= NUMBERS
            && txns.len() as u64 <= NUMBERS - mark
            && are_good(self.most_sessions, session, mark, txns)
    }

    fn has_good_sessions(&self) -> bool
        requires { length self.now.remain ≤ 256 }
        ensures { IsTrue result ↔ AreGoodSessions self.now (length self.now.remain) }
    {
        for session in 0..self.remain.len() {
            if !self.is_good_session(session as u8) {
                return false;
            }
        }
        true
    }

    /// Whether the parts keep their rules.
    pub fn is_good(&self) -> bool
        ensures { IsTrue result ↔ IsGood self.now }
    {
        self.has_good_shape()
            && self.has_room()
            && self.has_good_sessions()
            && self.base.last.are_below(self.base.marks.as_slice())
    }
}
