ghost use Rattle.std.specs.Prelude.{◌↔◌, IsTrue};
ghost use Rattle.order_check.specs.Based.{HasPending};
ghost use Rattle.order_check.specs.Good.{IsGood};
ghost use Rattle.order_check.specs.Waiting.{IsAwaited, Waits, SomeWaits};

use crate::remainder::Parts;
use txn::{Source, Txn};

impl Parts {
    fn awaits(&self, source: Source) -> bool
        requires { IsGood self.now }
        ensures { IsTrue result ↔ IsAwaited self.now source }
    {
        match source {
            Source::Init => false,
            Source::By(writer) => !self.is_received(writer),
        }
    }

    fn waits(&self, txn: &Txn) -> bool
        requires { IsGood self.now }
        ensures { IsTrue result ↔ Waits self.now txn.now }
    {
        txn.reads.as_slice().iter().any(|read| self.awaits(read.1))
    }

    fn some_waits(&self, txns: &[Txn]) -> bool
        requires { IsGood self.now }
        ensures { IsTrue result ↔ SomeWaits self.now txns.now }
    {
        txns.iter().any(|txn| self.waits(txn))
    }

    /// Whether some read waits for an id that isn't received.
    pub fn has_pending(&self) -> bool
        requires { IsGood self.now }
        ensures { IsTrue result ↔ HasPending self.now }
    {
        self.remain
            .as_slice()
            .iter()
            .any(|txns| self.some_waits(txns.as_slice()))
    }
}
