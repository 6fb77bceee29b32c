ghost use Rattle.std.specs.Prelude.{◌≡◌};
ghost use Rattle.txn.specs.Refusals.{number_of, name_of};
ghost use Rattle.txn.specs.declared.refusals.Refusal.TheVariants.{NoMemory};

use std::alloc::{AllocError, AllocFailed};
use thiserror::Error;

/// Memory was refused.
pub type NoMemory = AllocError;

/// Why a call or a line is refused. Whatever is refused changes nothing.
#[derive(Clone, Copy, Debug, PartialEq, Eq, Error)]
pub enum Refusal {
    #[error("the line is not a command that may stand here")]
    BadLine = 1,
    #[error("there is no such session, or there may not be so many")]
    BadSession,
    #[error("a transaction has a list that does not strictly ascend, or reads from itself or from an id that cannot be")]
    BadTxn,
    #[error("a transaction that is no fence touches key 0")]
    BadFence,
    #[error("the fragment starts above what was received of its session")]
    Gap,
    #[error("the fragment starts below what was received of its session")]
    Repeat,
    #[error("the session is closed")]
    Closed,
    #[error("more transactions would remain than the limit allows")]
    Backlog,
    #[error("a length or a number is outside its limit")]
    TooLong,
    #[error("a round is open")]
    RoundOpen,
    #[error("no round is open")]
    NoRound,
    #[error("the certificate fails its check; the round stays open")]
    BadCertificate,
    #[error("no cut is held")]
    NoCut,
    #[error("the parts break their rules")]
    BadParts,
    #[error("the queue is full")]
    Full,
    #[error("out of memory")]
    NoMemory,
    #[error("the joining session does not begin with a fence that follows a fence of the history")]
    NotAnchored,
    #[error("the reader or the writer failed")]
    Device,
}

impl Refusal {
    /// Its number in replies, from 1 to 18.
    pub fn number(self) -> u8
        ensures { result ≡ number_of self }
    {
        self as u8
    }

    /// Its name in replies.
    pub fn name(self) -> &'static str
        ensures { result.now ≡ name_of self }
    {
        match self {
            Refusal::BadLine => "BadLine",
            Refusal::BadSession => "BadSession",
            Refusal::BadTxn => "BadTxn",
            Refusal::BadFence => "BadFence",
            Refusal::Gap => "Gap",
            Refusal::Repeat => "Repeat",
            Refusal::Closed => "Closed",
            Refusal::Backlog => "Backlog",
            Refusal::TooLong => "TooLong",
            Refusal::RoundOpen => "RoundOpen",
            Refusal::NoRound => "NoRound",
            Refusal::BadCertificate => "BadCertificate",
            Refusal::NoCut => "NoCut",
            Refusal::BadParts => "BadParts",
            Refusal::Full => "Full",
            Refusal::NoMemory => "NoMemory",
            Refusal::NotAnchored => "NotAnchored",
            Refusal::Device => "Device",
        }
    }
}

impl From<AllocError> for Refusal {
    ghost from_gives = { λ _ refusal. refusal ≡ NoMemory };

    fn from(_error: AllocError) -> Refusal {
        Refusal::NoMemory
    }
}

impl<T: Drop> From<AllocFailed<T>> for Refusal {
    ghost from_gives = { λ _ refusal. refusal ≡ NoMemory };

    fn from(_error: AllocFailed<T>) -> Refusal {
        Refusal::NoMemory
    }
}
