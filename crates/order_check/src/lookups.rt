ghost use Rattle.std.specs.Prelude.{◌≡◌, ◌↔◌, ◌<◌, length, IfOk, IsTrue, sum_by, slice_get, true};
ghost use Rattle.std.specs.Option.{option_copied};
ghost use Rattle.order_check.specs.Based.{mark_of, remaining_of, received_count, received_counts, remaining_at, IsReceived, last_gone};
ghost use Rattle.order_check.specs.Good.{IsGood};

use crate::remainder::Parts;
use std::alloc::Global;
use txn::{NoMemory, Sequence, Txn, TxnId};

impl Parts {
    /// How many transactions of the session are gone; 0 where there is no such session.
    pub fn mark_of(&self, session: u8) -> u64
        ensures { result ≡ mark_of self.now session }
    {
        match self.base.marks.as_slice().get(usize::from(session)) {
            Some(mark) => *mark,
            None => 0,
        }
    }

    /// What remains of the session; nothing where there is no such session.
    pub fn remaining_of(&self, session: u8) -> &[Txn]
        ensures { result.now ≡ remaining_of self.now session }
    {
        match self.remain.as_slice().get(usize::from(session)) {
            Some(txns) => txns.as_slice(),
            None => &[],
        }
    }

    /// How many transactions of the session were received; 0 where there is no such session.
    pub fn received_count(&self, session: u8) -> u64
        requires { IsGood self.now }
        ensures { result ≡ received_count self.now session }
    {
        self.mark_of(session) + self.remaining_of(session).len() as u64
    }

    /// How many transactions were received of each session.
    #[tactic(auto, using(crate::proofs::ReceivedCounts::counts_more, crate::proofs::ReceivedCounts::counts_all))]
    pub fn received_counts(&self, alloc: Global) -> Result<Sequence<u64>, NoMemory>
        requires { IsGood self.now }
        ensures { IfOk result (λ counts. counts ≡ received_counts self.now) }
    {
        let mut counts = Vec::with_capacity(alloc, self.sessions())?;
        for session in 0..self.sessions() {
            counts.push(self.received_count(session as u8))?;
        }
        Ok(Sequence::new(counts))
    }

    /// The transaction that has the id, where it remains.
    pub fn remaining_at(&self, id: TxnId) -> Option<&Txn>
        ensures { option_copied result ≡ remaining_at self.now id }
    {
        let mark = self.mark_of(id.session);
        if id.number < mark {
            return None;
        }
        self.remaining_of(id.session)
            .get((id.number - mark) as usize)
    }

    /// Whether the id is gone or remains.
    pub fn is_received(&self, id: TxnId) -> bool
        requires { IsGood self.now }
        ensures { IsTrue result ↔ IsReceived self.now id }
    {
        id.number < self.received_count(id.session)
    }

    /// The last gone writer of the key, where there is one.
    pub fn last_gone(&self, key: u64) -> Option<TxnId>
        ensures { result ≡ last_gone self.now key }
    {
        self.base.last.get(key)
    }

    /// Whether the session receives no more.
    pub fn is_closed(&self, session: u8) -> bool
        ensures { IsTrue result ↔ (slice_get self.now.closed session ≡ Some true) }
    {
        self.closed
            .as_slice()
            .get(usize::from(session))
            .copied()
            .unwrap_or(false)
    }

    /// How many sessions there are.
    pub fn sessions(&self) -> usize
        ensures { result ≡ length self.now.remain }
    {
        self.remain.len()
    }

    /// How many transactions remain, of all sessions together.
    pub fn remaining_count(&self) -> usize
        requires { IsGood self.now }
        ensures { result ≡ sum_by length self.now.remain }
    {
        self.remain.as_slice().iter().map(|txns| txns.len()).sum()
    }
}
