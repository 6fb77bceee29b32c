ghost use Rattle.std.specs.Prelude.{◌≡◌};
ghost use Rattle.serde_json.specs.View.{view, items_view};
ghost use Rattle.log_text.specs.Searches.{search_in, search_named, search_of};

use serde_json::Value;

/// Which search a round is asked to make.
#[derive(Clone, Copy, Debug, PartialEq, Eq)]
pub enum Search {
    /// The plain one, whose answer is defined.
    Plain,
    /// One that may find an order or a refutation in other ways too.
    Guided,
}

fn search_named(name: &str) -> Option<Search>
    ensures { result ≡ search_named name.now }
{
    if name == "guided" {
        Some(Search::Guided)
    } else {
        None
    }
}

/// The search of this name.
pub fn search_of(value: &Value) -> Option<Search>
    ensures { result ≡ search_of (view value.now) }
{
    search_named(value.as_str()?)
}

/// The search that is asked for, by what stands behind its numbers: nothing, or "guided".
#[tactic(auto, using(crate::proofs::Arity::search_none))]
pub fn search_in(behind: &[Value]) -> Option<Search>
    ensures { result ≡ search_in (items_view behind.now) }
{
    match behind {
        [] => Some(Search::Plain),
        [name] => search_of(name),
        _ => None,
    }
}
