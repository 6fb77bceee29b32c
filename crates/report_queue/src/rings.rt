ghost use Rattle.std.specs.Prelude.{◌≡◌, ◌+◌, ◌<◌, ◌≤◌, ◌++◌, ◌∷◌, [], length, IfOk, IfSome, IsOk, IsSome, MatchOption, MatchResult};
ghost use mathlib.Core.List.{IsPrefix};

use crate::entries::Entry;
use rtrb::{Consumer, Finished, Producer, PushError, RingBuffer};
use std::alloc::Global;
use std::marker::Model;
use txn::NoMemory;

/// The end that sends. It may move to another thread. Contracts see which ring it is of, how many
/// places it knows to be free, and what was sent.
#[derive(Drop)]
pub struct ReportSender {
    producer: Producer<Entry>,
}

impl Model for ReportSender {
    ghost use Rattle.std.specs.Coded.{codes};
    ghost use Rattle.report_queue.specs.contracts.entries.Entry as entry;
    ghost use Rattle.report_queue.specs.Rings.{Sending};

    ghost Value = { Sending };

    ghost coded = { Prim.hlevel (codes, entry.the_row.coded) };

    ghost use Rattle.rtrb.specs.Ring.{sent, known_free};
    ghost use Rattle.report_queue.specs.Ends.{ring_of};

    ghost view = { λ s. record { ring = ring_of s.producer.end; free = known_free s.producer; sent = sent s.producer } };
}

/// The end that reads. It may move to another thread. Contracts see which ring it is of, what was
/// received, and what it knows to wait.
#[derive(Drop)]
pub struct ReportReader {
    consumer: Consumer<Entry>,
}

impl Model for ReportReader {
    ghost use Rattle.std.specs.Coded.{codes};
    ghost use Rattle.report_queue.specs.contracts.entries.Entry as entry;
    ghost use Rattle.report_queue.specs.Rings.{Receiving};

    ghost Value = { Receiving };

    ghost coded = { Prim.hlevel (codes, entry.the_row.coded) };

    ghost use Rattle.rtrb.specs.Ring.{received, known_items};
    ghost use Rattle.report_queue.specs.Ends.{ring_of};

    ghost view = { λ r. record { ring = ring_of r.consumer.end; received = received r.consumer; waiting = known_items r.consumer } };
}

/// What is left of a sender that has ended. Contracts see which ring it is of, and all that was sent.
#[derive(Drop)]
pub struct SenderEnd {
    finished: Finished<Entry>,
}

impl Model for SenderEnd {
    ghost use Rattle.std.specs.Coded.{codes};
    ghost use Rattle.report_queue.specs.contracts.entries.Entry as entry;
    ghost use Rattle.report_queue.specs.Rings.{Ended};

    ghost Value = { Ended };

    ghost coded = { Prim.hlevel (codes, entry.the_row.coded) };

    ghost use Rattle.rtrb.specs.Ring.{all_sent};
    ghost use Rattle.report_queue.specs.Ends.{ring_of};

    ghost view = { λ e. record { ring = ring_of e.finished.end; sent = all_sent e.finished } };
}

/// A ring with this many places, and its two ends.
pub fn ring(alloc: Global, capacity: usize) -> Result<(ReportSender, ReportReader), NoMemory>
    requires { (1 ≤ capacity) × (capacity ≤ 1024) }
    ensures pair { IfOk result (λ r. r.1.ring ≡ r.0.ring) }
    ensures empty { IfOk result (λ r. (r.0.free ≡ capacity) × (r.0.sent ≡ []) × (r.1.received ≡ []) × (r.1.waiting ≡ [])) }
{
    let (producer, consumer) = RingBuffer::new(alloc, capacity)?;
    Ok((ReportSender { producer }, ReportReader { consumer }))
}

impl ReportSender {
    /// Sends the entry; where the ring is full, gives it back. It never comes back where a place was known to be free, and where it does
    /// none is known to be. That the ring is full then is tested: no clause knows how far the reader is.
    pub fn send(&mut self, entry: Entry) -> Result<(), Entry>
        ensures ring { self.new.ring ≡ self.old.ring }
        ensures free { (0 < self.old.free → IsOk result) × (self.old.free ≤ self.new.free + 1) }
        ensures sent { MatchResult result (λ _. self.new.sent ≡ self.old.sent ++ entry ∷ []) (λ e. (e ≡ entry) × (self.new.sent ≡ self.old.sent) × (self.new.free ≡ 0)) }
    {
        match self.producer.push(entry) {
            Ok(()) => Ok(()),
            Err(PushError::Full(back)) => Err(back),
        }
    }

    /// Gives the sender up. Where its end comes back, the reader may learn by it what still waits. `None` comes where the
    /// reader was let go before.
    pub fn end(self) -> Option<SenderEnd>
        ensures { IfSome result (λ e. (e.ring ≡ self.ring) × (e.sent ≡ self.sent)) }
    {
        let ReportSender { producer } = self;
        let finished = producer.finish()?;
        Some(SenderEnd { finished })
    }
}

impl ReportReader {
    /// The next entry. `None` says nothing of what is still to come, and never comes where an entry was known to wait; where it does none is
    /// known to.
    pub fn next(&mut self) -> Option<Entry>
        ensures ring { self.new.ring ≡ self.old.ring }
        ensures waiting { (0 < length self.old.waiting → IsSome result) × IfSome result (λ e. IsPrefix self.old.waiting (e ∷ self.new.waiting)) }
        ensures received { MatchOption result ((self.new.received ≡ self.old.received) × (self.new.waiting ≡ [])) (λ e. self.new.received ≡ self.old.received ++ e ∷ []) }
    {
        match self.consumer.pop() {
            Ok(entry) => Some(entry),
            Err(_) => None,
        }
    }

    /// How many entries still wait, once the sender has ended.
    pub fn left(&mut self, end: &mut SenderEnd) -> usize
        requires { end.old.ring ≡ self.old.ring }
        ensures same { (self.new.ring ≡ self.old.ring) × (self.new.received ≡ self.old.received) × (end.new ≡ end.old) }
        ensures waiting { (result ≡ length self.new.waiting) × (self.new.received ++ self.new.waiting ≡ end.old.sent) }
    {
        self.consumer.slots_after(&mut end.finished)
    }
}
