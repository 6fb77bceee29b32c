ghost use Rattle.std.specs.Prelude.{◌≡◌, ◌≤◌, IfSome, IfNone};
ghost use Rattle.cobra.specs.Held.{IsHanding, IsEnough};
ghost use Rattle.cobra.specs.Outputs.{names_at};

use crate::audits::Audit;
use crate::handing::Handing;
use log_text::{Names, Opening, Version};
use strict_offers::Offered;

/// One more than a fragment may have.
const TOO_MANY: usize = 257;

/// How far a script is.
#[derive(Drop)]
pub(crate) enum Stage {
    /// Nothing has begun.
    Nothing,
    /// Parts are to be handed over, of so many sessions, under this limit, to go on as in a script that is opened for this: marks come
    /// next.
    Resuming {
        sessions: u64,
        limit: u64,
        opening: Opening,
    },
    /// Parts are handed over, to go on so.
    Handing {
        handed: Handing,
        opening: Opening,
    },
    /// An engine is open, for lines that ask for this; a search may go on beside them.
    Open {
        audit: Audit,
        opening: Opening,
    },
    /// What is offered with its times is taken, for lines of this version that ask for strict serializability.
    Strict {
        offered: Offered,
        version: Version,
    },
}

impl Stage {
    /// How lines name transactions.
    pub(crate) fn names(&self) -> Names
        ensures { result ≡ names_at self.now }
    {
        match self {
            Stage::Open { opening, .. } => opening.names(),
            _ => Names::Ids,
        }
    }

    /// How many transactions of an offer or a join are held, where not all are. One that has more than a fragment may have is refused
    /// whatever they are, so too many of them are as good as all; but what is handed over may have any number.
    pub(crate) fn most_held(&self) -> Option<usize>
        ensures enough { IsEnough self.now result }
        ensures few { IfSome result (λ most. most ≤ 257) }
        ensures all { IfNone result (IsHanding self.now) }
    {
        match self {
            Stage::Handing { .. } => None,
            _ => Some(TOO_MANY),
        }
    }
}
