ghost use Rattle.std.specs.Prelude.{◌≡◌, option_and_then, option_map};
ghost use Rattle.log_text.specs.Numbers.{number_within};
ghost use Rattle.std.specs.List.{list_any};
ghost use Rattle.serde_json.specs.Data.{string};
ghost use Rattle.serde_json.specs.View.{view, items_view};
ghost use Rattle.log_text.specs.Versions.{greatest_limit, has_form, most_remaining, most_sessions, names_of, opening_in, promise_of, version_in, version_numbered, version_of, promise_in, strict_in, strict_of};

use crate::names::Names;
use crate::numbers::number_within;
use logged_fragments::LoggedFragment;
use serde_json::Value;

/// The version of a script, which it is opened with.
#[derive(Clone, Copy, Debug, PartialEq, Eq)]
pub enum Version {
    One,
    /// In which transactions may be told to have aborted.
    Two,
    /// As version 2, in which there may be more sessions, and many more transactions may be let remain.
    Three,
}

/// How many sessions there may be in a script of version 1 or 2.
const FEW_SESSIONS: u64 = 64;

/// How many in one of version 3.
const MANY_SESSIONS: u64 = 256;

/// How many transactions may be let remain in a script of version 1 or 2.
const SMALL_LIMIT: u64 = 4096;

/// How many in one of version 3.
const LARGE_LIMIT: u64 = 1_048_576;

/// Whether one of the transactions is told to have aborted.
fn tells_abort(flags: &[bool]) -> bool
    ensures { result ≡ list_any (λ aborted. aborted) flags.now }
{
    flags.iter().any(|aborted| *aborted)
}

/// What a script is opened for.
#[derive(Clone, Copy, Debug, PartialEq, Eq)]
pub enum Opening {
    /// Whether some order explains what it has, by lines of this version.
    Ordered(Version),
    /// Whether it keeps snapshot isolation, by lines of this version, which is 2 or 3.
    Isolated(Version),
}

/// What a script may be opened for that resumes no other.
#[derive(Clone, Copy, Debug, PartialEq, Eq)]
pub enum Promise {
    /// What one may be opened for that resumes another, too.
    Resumable(Opening),
    /// Whether some order explains all that was offered and keeps real time, by lines of this version, which is 2 or 3.
    Strict(Version),
}

impl Version {
    /// Whether the fragment may stand in a script of this version: in version 1 no transaction is told to have aborted.
    pub fn has_form(self, logged: &LoggedFragment) -> bool
        ensures { result ≡ has_form self logged.now }
    {
        match self {
            Version::One => !tells_abort(logged.aborted.as_slice()),
            Version::Two | Version::Three => true,
        }
    }

    /// How many sessions there may be in a script of this version.
    pub fn most_sessions(self) -> u64
        ensures { result ≡ most_sessions self }
    {
        match self {
            Version::One | Version::Two => FEW_SESSIONS,
            Version::Three => MANY_SESSIONS,
        }
    }

    /// How many transactions may be let remain in a script of this version.
    pub fn greatest_limit(self) -> u64
        ensures { result ≡ greatest_limit self }
    {
        match self {
            Version::One | Version::Two => SMALL_LIMIT,
            Version::Three => LARGE_LIMIT,
        }
    }
}

impl Opening {
    /// The version in whose lines something is opened.
    pub fn version(self) -> Version
        ensures { result ≡ version_of self }
    {
        match self {
            Opening::Ordered(version) | Opening::Isolated(version) => version,
        }
    }

    /// How lines name transactions then.
    pub fn names(self) -> Names
        ensures { result ≡ names_of self }
    {
        match self {
            Opening::Ordered(_) => Names::Ids,
            Opening::Isolated(_) => Names::Events,
        }
    }

    /// How many transactions may be let remain then.
    pub fn most_remaining(self) -> u64
        ensures { result ≡ most_remaining self }
    {
        match self {
            Opening::Ordered(version) => version.greatest_limit(),
            Opening::Isolated(version) => version.greatest_limit() / 2,
        }
    }
}

/// The version that is told by a number, of 2 and 3.
fn version_numbered(number: u64) -> Version
    ensures { result ≡ version_numbered number }
{
    if number == 2 {
        Version::Two
    } else {
        Version::Three
    }
}

/// The version of a script, by what stands behind the numbers of its first line: nothing, 2 or 3.
#[tactic(auto, using(crate::proofs::Arity::version_none))]
pub fn version_in(behind: &[Value]) -> Option<Version>
    ensures { result ≡ version_in (items_view behind.now) }
{
    match behind {
        [] => Some(Version::One),
        [version] => {
            let number = number_within(2, 3, version)?;
            Some(version_numbered(number))
        }
        _ => None,
    }
}

fn promise_named(word: &str, version: Version) -> Option<Opening>
    ensures { result ≡ promise_of (string word.now) version }
{
    if word == "snapshot" {
        Some(Opening::Isolated(version))
    } else {
        None
    }
}

fn promise_of(value: &Value, version: Version) -> Option<Opening>
    ensures { result ≡ promise_of (view value.now) version }
{
    promise_named(value.as_str()?, version)
}

fn isolated_in(version: &Value, promise: &Value) -> Option<Opening>
    ensures { result ≡ option_and_then (λ n. promise_of (view promise.now) (version_numbered n)) (number_within 2 3 (view version.now)) }
{
    let number = number_within(2, 3, version)?;
    promise_of(promise, version_numbered(number))
}

fn ordered_in(behind: &[Value]) -> Option<Opening>
    ensures { result ≡ option_map Opening.Ordered (version_in (items_view behind.now)) }
{
    Some(Opening::Ordered(version_in(behind)?))
}

/// What a script is opened for, by what stands behind the numbers of its first line: nothing, 2, 3, or 2 or 3 and "snapshot".
#[tactic(auto, using(crate::proofs::Arity::ordered_else))]
pub(crate) fn opening_in(behind: &[Value]) -> Option<Opening>
    ensures { result ≡ opening_in (items_view behind.now) }
{
    match behind {
        [version, promise] => isolated_in(version, promise),
        _ => ordered_in(behind),
    }
}

fn strict_named(word: &str, version: Version) -> Option<Version>
    ensures { result ≡ strict_of (string word.now) version }
{
    if word == "strict" {
        Some(version)
    } else {
        None
    }
}

fn strict_of(value: &Value, version: Version) -> Option<Version>
    ensures { result ≡ strict_of (view value.now) version }
{
    strict_named(value.as_str()?, version)
}

fn strict_by(version: &Value, promise: &Value) -> Option<Version>
    ensures { result ≡ option_and_then (λ n. strict_of (view promise.now) (version_numbered n)) (number_within 2 3 (view version.now)) }
{
    let number = number_within(2, 3, version)?;
    strict_of(promise, version_numbered(number))
}

#[tactic(auto, using(crate::proofs::Arity::strict_none))]
fn strict_in(behind: &[Value]) -> Option<Version>
    ensures { result ≡ strict_in (items_view behind.now) }
{
    match behind {
        [version, promise] => strict_by(version, promise),
        _ => None,
    }
}

/// What a script may be opened for that resumes no other, by what stands behind the numbers of its first line: 2 or 3 and "strict", or what one may
/// be opened for that resumes another.
pub(crate) fn promise_in(behind: &[Value]) -> Option<Promise>
    ensures { result ≡ promise_in (items_view behind.now) }
{
    match strict_in(behind) {
        Some(version) => Some(Promise::Strict(version)),
        None => Some(Promise::Resumable(opening_in(behind)?)),
    }
}
