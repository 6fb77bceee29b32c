ghost use Rattle.std.specs.Prelude.{◌≡◌, ◌↔◌, ◌+◌, ◌-◌, ◌++◌, ◌∷◌, [], take, ◌<◌, ◌≤◌, ◌^◌, length, replicate, IsTrue, IfOk, OnOk, OnErr, IfErr, MatchResult};
ghost use Rattle.txn.specs.Transactions.{HasGoodLengths};
ghost use Rattle.session_marks.specs.Marks.{fresh, mark_at, IsOpen, with_received, with_gone, with_closed, with_flag, IsReceived, received_counts, IsNext, AdmitFault, CloseFault};

use std::alloc::Global;
use std::marker::Model;
use txn::{Fragment, NoMemory, Refusal, Sequence, TxnId};

/// How far a session has come.
#[derive(Clone, Copy, Debug, PartialEq, Eq)]
pub struct SessionMark {
    /// How many of its transactions are gone.
    pub gone: u64,
    /// How many of its transactions were received, those that are gone included.
    pub received: u64,
    /// Whether it receives no more.
    pub closed: bool,
}

const FRESH: SessionMark = SessionMark {
    gone: 0,
    received: 0,
    closed: false,
};

/// The mark of each session. Contracts see the list of them.
#[derive(Clone, Drop, Debug)]
pub struct Marks {
    sessions: Vec<SessionMark>,
}

impl Model for Marks {
    ghost use Rattle.std.specs.Prelude.{List};
    ghost use Rattle.session_marks.specs.declared.marks.SessionMark.{SessionMark};

    ghost Value = { List SessionMark };

    ghost view = { λ m. m.sessions.items };
}

impl Marks {
    /// Sessions of which nothing was received, and that are open.
    pub fn new(alloc: Global, sessions: usize) -> Result<Self, NoMemory>
        ensures { IfOk result (λ marks. marks ≡ replicate sessions fresh) }
    {
        Ok(Marks {
            sessions: vec![in alloc; FRESH; sessions]?,
        })
    }

    /// Sessions with these marks.
    pub fn of(sessions: Vec<SessionMark>) -> Self
        ensures { result ≡ sessions.items }
    {
        Marks { sessions }
    }

    /// How many sessions there are.
    pub fn sessions(&self) -> usize
        ensures { result ≡ length self.now }
    {
        self.sessions.len()
    }

    pub fn gone(&self, session: u8) -> u64
        requires { session < length self.now }
        ensures { result ≡ (mark_at self.now session).gone }
    {
        self.sessions[session as usize].gone
    }

    pub fn received(&self, session: u8) -> u64
        requires { session < length self.now }
        ensures { result ≡ (mark_at self.now session).received }
    {
        self.sessions[session as usize].received
    }

    pub fn is_open(&self, session: u8) -> bool
        requires { session < length self.now }
        ensures { IsTrue result ↔ IsOpen self.now session }
    {
        !self.sessions[session as usize].closed
    }

    /// Whether the transaction with this id was received; none was of a session that isn't there.
    pub fn is_received(&self, id: TxnId) -> bool
        ensures { IsTrue result ↔ IsReceived self.now id }
    {
        match self.sessions.get(usize::from(id.session)) {
            Some(mark) => id.number < mark.received,
            None => false,
        }
    }

    /// How many transactions of each session were received.
    pub fn received_counts(&self, alloc: Global) -> Result<Sequence<u64>, NoMemory>
        ensures { IfOk result (λ counts. counts ≡ received_counts self.now) }
    {
        let counts = self.sessions.iter().map(|mark| mark.received);
        Ok(Sequence::new(counts.collect(alloc)?))
    }

    /// Whether the fragment is next in its session; if not, the first of BadSession, Closed, Gap and Repeat. It takes
    /// constant time.
    pub fn admit(&self, fragment: &Fragment) -> Result<(), Refusal>
        requires { HasGoodLengths fragment.now }
        ensures { MatchResult result (λ _. IsNext self.now fragment.now) (AdmitFault self.now fragment.now) }
    {
        let session = fragment.session as usize;
        if session >= self.sessions() {
            return Err(Refusal::BadSession);
        }
        let mark = self.sessions[session];
        if mark.closed {
            Err(Refusal::Closed)
        } else if mark.received < fragment.first {
            Err(Refusal::Gap)
        } else if fragment.first < mark.received {
            Err(Refusal::Repeat)
        } else {
            Ok(())
        }
    }

    /// Counts more transactions of a session as received.
    pub fn receive(&mut self, session: u8, count: u64)
        requires there { session < length self.old }
        requires numbers { (mark_at self.old session).received + count ≤ 2 ^ 48 }
        ensures { self.new ≡ with_received self.old session count }
    {
        let sessions = &mut self.sessions;
        let mark = &mut sessions[session as usize];
        mark.received += count;
    }

    /// Counts more transactions of a session as gone. It takes no memory.
    pub fn raise(&mut self, session: u8, count: u64)
        requires there { session < length self.old }
        requires numbers { (mark_at self.old session).gone + count ≤ 2 ^ 48 }
        ensures { self.new ≡ with_gone self.old session count }
    {
        let sessions = &mut self.sessions;
        let mark = &mut sessions[session as usize];
        mark.gone += count;
    }

    /// Closes a session, unless there is none (BadSession) or it is closed already (Closed).
    pub fn close(&mut self, session: u8) -> Result<(), Refusal>
        ensures ok { OnOk result (IsOpen self.old session × (self.new ≡ with_closed self.old session)) }
        ensures err { IfErr result (λ refusal. CloseFault self.old session refusal × (self.new ≡ self.old)) }
    {
        let place = session as usize;
        if place >= self.sessions() {
            return Err(Refusal::BadSession);
        }
        let sessions = &mut self.sessions;
        let mark = &mut sessions[place];
        if mark.closed {
            return Err(Refusal::Closed);
        }
        mark.closed = true;
        Ok(())
    }

    /// Makes a session closed or open, whatever it was. It takes no memory.
    pub fn set_closed(&mut self, session: u8, closed: bool)
        requires { session < length self.old }
        ensures { self.new ≡ with_flag self.old session closed }
    {
        let sessions = &mut self.sessions;
        let mark = &mut sessions[session as usize];
        mark.closed = closed;
    }

    /// Adds a session of which nothing was received, and that is open.
    pub fn add(&mut self) -> Result<(), NoMemory>
        ensures ok { OnOk result (self.new ≡ self.old ++ fresh ∷ []) }
        ensures err { OnErr result (self.new ≡ self.old) }
    {
        self.sessions.push(FRESH)?;
        Ok(())
    }

    /// Takes the last session away, where there is one.
    pub fn take_last(&mut self)
        ensures { self.new ≡ take (length self.old - 1) self.old }
    {
        let _ = self.sessions.pop();
    }
}
