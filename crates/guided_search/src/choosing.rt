//! Which choice is split next, and which side comes first.
ghost use Rattle.std.specs.Prelude.{IsTrue};
ghost use Rattle.order_check.specs.Known.{IsChoice};

use clock_choices::Branch;
use order_check::Parts;
use std::alloc::Global;
use std::collections::BTreeMap;
use txn::{Choice, NoMemory, Side, Source, TxnId};

/// How many choices are kept as recent.
const MOST_RECENT: usize = 64;

/// The choices that the latest conflicts used, the last one last.
#[derive(Drop)]
pub struct Recent {
    choices: Vec<Choice>,
}

/// Whether nothing says yet which side of the choice is taken.
fn is_open(branch: &Branch, choice: Choice) -> bool {
    !branch.reaches(choice.other, choice.writer)
        && !branch.reaches(choice.reader, choice.other)
        && !branch.reaches(choice.writer, choice.other)
        && !branch.reaches(choice.other, choice.reader)
}

impl Recent {
    pub fn new(alloc: Global) -> Recent {
        Recent {
            choices: Vec::new(alloc),
        }
    }

    /// Makes the choice the latest one.
    pub fn note(&mut self, choice: Choice) -> Result<(), NoMemory> {
        match self.choices.iter().position(|other| *other == choice) {
            Some(place) if place < self.choices.len() => {
                let _choice = self.choices.remove(place);
            }
            _ => {
                if self.choices.len() >= MOST_RECENT {
                    let _oldest = self.choices.remove(0);
                }
            }
        }
        self.choices.push(choice)?;
        Ok(())
    }

    /// The latest one that is open.
    fn latest_open(&self, branch: &Branch) -> Option<Choice> {
        for choice in self.choices.iter().rev() {
            if is_open(branch, *choice) {
                return Some(*choice);
            }
        }
        None
    }
}

/// The choice to split: the latest that a conflict used, or else the first that is open.
pub fn next_choice(
    alloc: Global,
    branch: &Branch,
    recent: &Recent,
) -> Result<Option<Choice>, NoMemory> {
    match recent.latest_open(branch) {
        Some(choice) => Ok(Some(choice)),
        None => branch.first_open(alloc),
    }
}

/// Where each transaction stood in an order.
#[derive(Drop)]
pub struct Places {
    places: BTreeMap<TxnId, usize>,
}

impl Places {
    pub fn of(alloc: Global, order: &[TxnId]) -> Result<Places, NoMemory> {
        let mut places = BTreeMap::new(alloc);
        for (place, id) in order.iter().enumerate() {
            places.insert(*id, place)?;
        }
        Ok(Places { places })
    }

    fn place_of(&self, id: TxnId) -> usize {
        self.places.get(&id).copied().unwrap_or(0)
    }

    /// The side that the order keeps; where it keeps neither, the one that it misses by less.
    pub fn side_of(&self, choice: Choice) -> Side {
        let other = self.place_of(choice.other);
        let late = other.saturating_sub(self.place_of(choice.writer));
        let early = self.place_of(choice.reader).saturating_sub(other);
        if late <= early {
            Side::First
        } else {
            Side::Second
        }
    }
}

/// Whether it is a choice of the parts: whatever is split is asked, since nothing else says so of the recent ones.
pub fn is_choice(parts: &Parts, choice: Choice) -> bool
    ensures { IsTrue result → IsChoice parts.now choice }
{
    parts.reads(choice.reader, choice.key, Source::By(choice.writer))
        && parts.writes(choice.writer, choice.key)
        && parts.writes(choice.other, choice.key)
        && choice.other != choice.writer
        && choice.other != choice.reader
}
