//! What is offered, and when its transactions began and ended, read token by token.
ghost use Rattle.std.specs.Prelude.{◌≡◌, IfOk, IfSome, option_map};
ghost use Rattle.log_text.specs.Items.{list_of, one_item};
ghost use Rattle.log_text.specs.Numbers.{whole_number};
ghost use Rattle.log_text.specs.Commands.{offer_in, times_in, HasLimits};
ghost use Rattle.log_text.specs.Held.{held};
ghost use Rattle.log_text.specs.Kept.{offered_behind, offered_from};
ghost use Rattle.log_text.specs.Streams.{AreRead};
ghost use Rattle.log_text.specs.declared.commands.Command.{Command};

use crate::commands::Command;
use crate::fragments::{list_of_txns, made};
use crate::streams::{number, numbers, session};
use json::Reader;
use logged_fragments::LoggedFragment;
use std::alloc::Global;
use txn::{NoMemory, Sequence};

/// When the transactions ended, which ends the line.
fn ended(
    alloc: Global,
    reader: &mut Reader<'_>,
    logged: LoggedFragment,
    began: Sequence<u64>,
) -> Result<Option<Command>, NoMemory>
    ensures form { IfOk result (λ command. AreRead (one_item (Command.OfferTimed logged began) (list_of whole_number)) 1 reader.old command reader.new) }
    ensures limits { IfOk result (λ command. IfSome command HasLimits) }
{
    let Some(ended) = numbers(alloc, reader)? else {
        return Ok(None);
    };
    if reader.take_end_array() {
        Ok(Some(Command::OfferTimed {
            logged,
            began,
            ended,
        }))
    } else {
        Ok(None)
    }
}

/// What stands behind the transactions: nothing, or when they began and when they ended.
fn times(
    alloc: Global,
    reader: &mut Reader<'_>,
    logged: LoggedFragment,
) -> Result<Option<Command>, NoMemory>
    ensures form { IfOk result (λ command. AreRead (times_in logged) 1 reader.old command reader.new) }
    ensures limits { IfOk result (λ command. IfSome command HasLimits) }
{
    if reader.take_end_array() {
        return Ok(Some(Command::Offer(logged)));
    }
    match numbers(alloc, reader)? {
        Some(began) => ended(alloc, reader, logged, began),
        None => Ok(None),
    }
}

/// An offer of the transactions that come next.
fn offer_from(
    alloc: Global,
    reader: &mut Reader<'_>,
    session: u8,
    first: u64,
    most: Option<usize>,
) -> Result<Option<Command>, NoMemory>
    ensures form { IfOk result (λ command. AreRead (offered_from most session first) 4 reader.old command reader.new) }
    ensures limits { IfOk result (λ command. IfSome command HasLimits) }
{
    let Some((txns, aborted)) = list_of_txns(alloc, reader, most)? else {
        return Ok(None);
    };
    let logged = made(session, first, txns, aborted);
    times(alloc, reader, logged)
}

/// An offer of a session.
fn offer_of(
    alloc: Global,
    reader: &mut Reader<'_>,
    session: u8,
    most: Option<usize>,
) -> Result<Option<Command>, NoMemory>
    ensures form { IfOk result (λ command. AreRead (offered_behind most session) 4 reader.old command reader.new) }
    ensures limits { IfOk result (λ command. IfSome command HasLimits) }
{
    match number(reader) {
        Some(first) => offer_from(alloc, reader, session, first, most),
        None => Ok(None),
    }
}

/// An offer, of which the first so many transactions are kept.
pub(crate) fn offer(
    alloc: Global,
    reader: &mut Reader<'_>,
    most: Option<usize>,
) -> Result<Option<Command>, NoMemory>
    ensures form { IfOk result (λ command. AreRead (λ parts. option_map (held most) (offer_in parts)) 4 reader.old command reader.new) }
    ensures limits { IfOk result (λ command. IfSome command HasLimits) }
{
    match session(reader) {
        Some(session) => offer_of(alloc, reader, session, most),
        None => Ok(None),
    }
}
