ghost use Rattle.std.specs.Prelude.{◌≡◌, ◌↔◌, codes, Ok, None, Some, OnOk, OnErr, IsErrOf};
ghost use Rattle.byte_lines.specs.Exits.{exit_words};

use crate::findings::Outcome;
use byte_lines::Failure;
use cobra::{Exit, exit_of};

/// How a program ends that checked replies, and came to this.
pub fn exit_of_check(checked: Result<Outcome, Failure>) -> Exit
    ensures right { (result.status ≡ 0) ↔ (checked ≡ Ok Outcome.Right) }
    ensures wrong { (result.status ≡ 3) ↔ (checked ≡ Ok Outcome.Wrong) }
    ensures unchecked { (result.status ≡ 4) ↔ (checked ≡ Ok Outcome.Unchecked) }
    ensures failed { OnErr checked (result.status ≡ 1) }
    ensures device { IsErrOf checked Failure.Device → exit_words result ≡ Some (codes "device failed") }
    ensures memory { IsErrOf checked Failure.NoMemory → exit_words result ≡ Some (codes "out of memory") }
    ensures silent { OnOk checked (result.words ≡ None) }
{
    match checked {
        Ok(Outcome::Right) => exit_of(Ok(())),
        Ok(Outcome::Wrong) => Exit {
            status: 3,
            words: None,
        },
        Ok(Outcome::Unchecked) => Exit {
            status: 4,
            words: None,
        },
        Err(failure) => exit_of(Err(failure)),
    }
}
