ghost use Rattle.std.specs.Prelude.{◌≡◌, IfOk, MatchResult};
ghost use Rattle.log_text.specs.Commands.{HasLimits};
ghost use Rattle.isolation_histories.specs.Logged.{split_logged};
ghost use Rattle.isolation_histories.specs.Offered.{CanBeOffered, OfferedFault};
ghost use Rattle.isolation_scripts.specs.Splitting.{CanBeAsked, IsAskedFault, split_command, split_wanted};

use isolation_histories::{check_offered, split_logged};
use log_text::{Command, Wanted};
use logged_fragments::LoggedFragment;
use std::alloc::Global;
use txn::{NoMemory, Refusal};

/// Transactions are numbered below it.
const NUMBERS: u64 = 1 << 47;

/// The fragment split, or why it can't be offered.
fn split_offer(
    alloc: Global,
    sessions: u64,
    logged: &LoggedFragment,
) -> Result<Result<LoggedFragment, Refusal>, NoMemory>
    ensures { IfOk result (λ judged. MatchResult judged (λ split. CanBeOffered sessions logged.now.fragment × (split ≡ split_logged logged.now)) (OfferedFault sessions logged.now.fragment)) }
{
    match check_offered(sessions, &logged.fragment) {
        Ok(()) => Ok(Ok(split_logged(alloc, logged)?)),
        Err(refusal) => Ok(Err(refusal)),
    }
}

/// A session is given out from the begin of a transaction on.
fn split_wanted(wanted: Wanted) -> Wanted
    ensures { result ≡ split_wanted wanted }
{
    match wanted {
        Wanted::Remain { session, number } => {
            let within = if number < NUMBERS { number } else { NUMBERS };
            Wanted::Remain {
                session,
                number: 2 * within,
            }
        }
        wanted => wanted,
    }
}

/// The command that asks the same of an auditor whose transactions are split, where there may be so many sessions; or why it is refused before
/// it gets there. An answer's begins and commits were read as halves.
pub fn split_command(
    alloc: Global,
    sessions: u64,
    command: Command,
) -> Result<Result<Command, Refusal>, NoMemory>
    ensures split { IfOk result (λ judged. MatchResult judged (λ split. CanBeAsked sessions command × (split ≡ split_command command)) (IsAskedFault sessions command)) }
    ensures limits { IfOk result (λ judged. IfOk judged (λ split. HasLimits command → HasLimits split)) }
{
    match command {
        Command::Offer(logged) => match split_offer(alloc, sessions, &logged)? {
            Ok(split) => Ok(Ok(Command::Offer(split))),
            Err(refusal) => Ok(Err(refusal)),
        },
        Command::Join(logged) => match split_offer(alloc, sessions, &logged)? {
            Ok(split) => Ok(Ok(Command::Join(split))),
            Err(refusal) => Ok(Err(refusal)),
        },
        Command::Save(wanted) => Ok(Ok(Command::Save(split_wanted(wanted)))),
        command => Ok(Ok(command)),
    }
}
