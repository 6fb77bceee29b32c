ghost use Rattle.std.specs.Prelude.{◌≡◌, ◌<◌, ◌^◌, ◌++◌, ◌∷◌, ℕ, List, Some, IfOk, MatchOption, string_bytes};
ghost use Rattle.std.specs.Fmt.{decimal};
ghost use Rattle.demonstration.specs.declared.commands.Command.{Command};
ghost use Rattle.demo_store.specs.declared.requests.Fault.{Fault};
ghost use Rattle.demonstration.specs.Names.{fault_name};
ghost use Rattle.demonstration.specs.Commands.{line_of, IsAllowed, IsAsked};

use crate::names::fault_name;
use demo_store::Fault;
use std::alloc::Global;
use std::str;
use txn::NoMemory;

/// What a run is asked to show: a fault of the store, and how many places the desk has.
#[derive(Clone, Copy, Debug, PartialEq, Eq)]
pub struct Command {
    pub fault: Fault,
    pub capacity: u16,
}

/// The longest line of a command, in bytes.
pub const LONGEST_COMMAND: usize = 17;

/// The fault of this name.
fn fault_named(name: &str) -> Option<Fault>
    ensures { (fault : Fault) → name.now ≡ fault_name fault → result ≡ Some fault }
{
    match name {
        "none" => Some(Fault::None),
        "stale-read" => Some(Fault::StaleRead),
        "lost-update" => Some(Fault::LostUpdate),
        "split-read" => Some(Fault::SplitRead),
        "session-back" => Some(Fault::SessionBack),
        "dirty-read" => Some(Fault::DirtyRead),
        _ => None,
    }
}

/// The line of a command.
fn line_of(alloc: Global, command: Command) -> Result<String, NoMemory>
    ensures { IfOk result (λ line. string_bytes line ≡ line_of command) }
{
    let name = fault_name(command.fault);
    let capacity = command.capacity;
    format!(in alloc; "{name} {capacity}")
}

/// The words before and after the first space.
fn halves(text: &str) -> Option<(&str, &str)>
    ensures { (fault : Fault) (rest : List ℕ) → text.now ≡ fault_name fault ++ 32 ∷ rest → MatchOption result ⊥ (λ halves. (halves.0.now ≡ fault_name fault) × (halves.1.now ≡ rest)) }
{
    text.split_once(' ')
}

/// The capacity of this text.
fn capacity_of(text: &str) -> Option<u16>
    ensures { (capacity : ℕ) → capacity < 2 ^ 16 → text.now ≡ decimal capacity → result ≡ Some capacity }
{
    text.parse::<u16>().ok()
}

/// The command that the words would be, if they are one's at all.
fn guess(text: &str) -> Option<Command>
    ensures { (command : Command) → IsAllowed command → text.now ≡ line_of command → result ≡ Some command }
{
    let (name, number) = halves(text)?;
    let fault = fault_named(name)?;
    let capacity = capacity_of(number)?;
    Some(Command { fault, capacity })
}

/// The command whose line this is.
pub fn command_of(alloc: Global, line: &[u8]) -> Result<Option<Command>, NoMemory>
    ensures { IfOk result (IsAsked line.now) }
{
    let Ok(text) = str::from_utf8(line) else {
        return Ok(None);
    };
    let Some(command) = guess(text) else {
        return Ok(None);
    };
    if command.capacity < 1 || command.capacity > 1024 {
        return Ok(None);
    }
    let own = line_of(alloc, command)?;
    if own.as_str() == text {
        Ok(Some(command))
    } else {
        Ok(None)
    }
}
