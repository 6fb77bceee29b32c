//! The front of parts that has of each session what stands below a count.
ghost use Rattle.std.specs.Prelude.{◌≡◌, ◌↔◌, ◌<◌, length, map, not, slice_index, IfOk, IsTrue};
ghost use Rattle.std.specs.Option.{option_copied};
ghost use Rattle.order_check.specs.Based.{mark_of, remaining_of, received_count, remaining_at, IsReceived, last_gone};
ghost use Rattle.order_check.specs.CountedFronts.{AreFrontCounts, front_at, front_of};
ghost use Rattle.order_check.specs.Good.{IsGood};

use crate::remainder::Parts;
use std::alloc::Global;
use std::marker::Model;
use txn::{NoMemory, Sequence, Txn, TxnId};

/// The front of parts that has of each session what stands below its count. Nothing is copied for it. Contracts see it as parts.
#[derive(Drop, Debug)]
pub struct Front<'a> {
    parts: &'a Parts,
    counts: &'a [u64],
}

impl<'a> Model for Front<'a> {
    ghost use Rattle.std.specs.Coded.{codes};
    ghost use Rattle.order_check.specs.Codes.{coded_last};
    ghost use Rattle.order_check.specs.CountedFronts.{AreFrontCounts, front_of};
    ghost use Rattle.order_check.specs.Good.{IsGood};
    ghost use Rattle.order_check.specs.declared.remainder.Parts.{Parts};

    ghost Value = { Parts };

    ghost coded = { Prim.hlevel (codes, coded_last) };

    ghost view = { λ f. front_of f.parts.now f.counts.now };

    ghost invariant = { λ f. IsGood f.parts.now × AreFrontCounts f.parts.now f.counts.now };
}

/// The count of the session; 0 where there is no such session.
fn count_at(counts: &[u64], session: u8) -> u64
    ensures { result ≡ slice_index counts.now session }
{
    match counts.get(usize::from(session)) {
        Some(count) => *count,
        None => 0,
    }
}

impl<'a> Front<'a> {
    pub fn new(parts: &'a Parts, counts: &'a [u64]) -> Front<'a>
        requires good { IsGood parts.now }
        requires counts { AreFrontCounts parts.now counts.now }
        ensures value { result ≡ front_of parts.now counts.now }
        ensures good { IsGood result }
    {
        Front { parts, counts }
    }

    /// How many sessions there are.
    pub fn sessions(&self) -> usize
        ensures { result ≡ length self.now.remain }
    {
        self.parts.sessions()
    }

    /// How many transactions of the session are gone; 0 where there is no such session.
    pub fn mark_of(&self, session: u8) -> u64
        ensures { result ≡ mark_of self.now session }
    {
        self.parts.mark_of(session)
    }

    /// How many transactions of the session were received; 0 where there is no such session.
    pub fn received_count(&self, session: u8) -> u64
        ensures { result ≡ received_count self.now session }
    {
        count_at(self.counts, session)
    }

    /// What remains of the session; nothing where there is no such session.
    pub fn remaining_of(&self, session: u8) -> &[Txn]
        ensures { result.now ≡ remaining_of self.now session }
    {
        let count = self.received_count(session) - self.mark_of(session);
        &self.parts.remaining_of(session)[..count as usize]
    }

    /// The transaction that has the id, where it remains.
    pub fn remaining_at(&self, id: TxnId) -> Option<&Txn>
        ensures { option_copied result ≡ remaining_at self.now id }
    {
        if !self.is_received(id) {
            return None;
        }
        self.parts.remaining_at(id)
    }

    /// Whether the id is gone or remains.
    pub fn is_received(&self, id: TxnId) -> bool
        ensures { IsTrue result ↔ IsReceived self.now id }
    {
        id.number < self.received_count(id.session)
    }

    /// The last gone writer of the key, where there is one.
    pub fn last_gone(&self, key: u64) -> Option<TxnId>
        ensures { result ≡ last_gone self.now key }
    {
        self.parts.last_gone(key)
    }
}

/// What of the session is in the front.
fn copy_of_session(alloc: Global, front: &Front<'_>, session: u8) -> Result<Sequence<Txn>, NoMemory>
    ensures { IfOk result (λ copy. copy ≡ remaining_of front.now session) }
{
    let txns = front.remaining_of(session);
    Ok(Sequence::new(txns.to_vec(alloc)?))
}

/// What remains of each session of the front.
#[tactic(auto, using(crate::proofs::CopiedFronts::copied_more, crate::proofs::CopiedFronts::copied_all))]
fn copy_of_front(alloc: Global, front: &Front<'_>) -> Result<Sequence<Sequence<Txn>>, NoMemory>
    requires { IsGood front.now }
    ensures { IfOk result (λ copy. copy ≡ front.now.remain) }
{
    let mut copies = Vec::with_capacity(alloc, front.sessions())?;
    for session in 0..front.sessions() {
        copies.push(copy_of_session(alloc, front, session as u8)?)?;
    }
    Ok(Sequence::new(copies))
}

/// The flags of the sessions that are closed, where those of the open ones are given.
fn closed_flags(alloc: Global, live: &[bool]) -> Result<Sequence<bool>, NoMemory>
    ensures { IfOk result (λ closed. closed ≡ map not live.now) }
{
    let mut closed = Vec::with_capacity(alloc, live.len())?;
    for is_open in live {
        closed.push(!*is_open)?;
    }
    Ok(Sequence::new(closed))
}

/// The base and the bounds of the parts, with what is in the front of them, and these flags.
fn parts_of_front(
    alloc: Global,
    parts: &Parts,
    counts: &[u64],
    live: &[bool],
) -> Result<Parts, NoMemory>
    requires good { IsGood parts.now }
    requires counts { AreFrontCounts parts.now counts.now }
    ensures { IfOk result (λ front. front ≡ front_at parts.now counts.now live.now) }
{
    let front = Front::new(parts, counts);
    Ok(Parts {
        base: parts.base.clone()?,
        remain: copy_of_front(alloc, &front)?,
        closed: closed_flags(alloc, live)?,
        most_sessions: parts.most_sessions,
        limit: parts.limit,
    })
}

/// A copy of the front of the parts up to these counts, where these sessions are open.
#[tactic(auto, using(crate::proofs::CountedFronts::good_front))]
pub fn front_parts(
    alloc: Global,
    parts: &Parts,
    counts: &[u64],
    live: &[bool],
) -> Result<Parts, NoMemory>
    requires good { IsGood parts.now }
    requires counts { AreFrontCounts parts.now counts.now }
    requires flags { length live.now ≡ length parts.now.remain }
    ensures value { IfOk result (λ front. front ≡ front_at parts.now counts.now live.now) }
    ensures good { IfOk result IsGood }
{
    let front = parts_of_front(alloc, parts, counts, live)?;
    Ok(front)
}
