ghost use Rattle.std.specs.Prelude.{◌≡◌};
ghost use Rattle.isolation_histories.specs.Halves.{event_at};

use txn::TxnId;

/// A transaction begins, and sees what was committed by then; or commits, all that it writes at once.
#[derive(Clone, Copy, Debug, PartialEq, Eq)]
pub enum Event {
    Begin(TxnId),
    Commit(TxnId),
}

/// Which event of the history a transaction of the split one stands for.
pub fn event_of(half: TxnId) -> Event
    ensures { result ≡ event_at half }
{
    let id = TxnId {
        session: half.session,
        number: half.number / 2,
    };
    if half.number % 2 == 0 {
        Event::Begin(id)
    } else {
        Event::Commit(id)
    }
}
