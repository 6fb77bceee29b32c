use crossbeam_queue::RuledArrayQueue;
use crossbeam_queue::protocol::{Join, Lesson, Outcome, Protocol, Split};
use logged_fragments::LoggedFragment;
use std::collections::LinkedList;

/// What a collector hands in: a fragment, one that a session joins or comes back with, that a session is closed, or that nothing more comes.
#[derive(Drop, Debug)]
pub enum Item {
    Fragment(LoggedFragment),
    Join(LoggedFragment),
    Close(u8),
    End,
}

/// An item with its collector, from 0 to 3, and its place among what that one submitted, counted from 0.
#[derive(Drop, Debug)]
pub struct Parcel {
    pub collector: u64,
    pub place: u64,
    pub item: Item,
}

// What a pass knows: what each of its collectors has submitted, how many auditors' parts it has (at most one), and what
// it has taken. No value of it is made.
pub struct View {
    pub mine: LinkedList<(u64, LinkedList<Parcel>)>,
    pub audits: u64,
    pub got: LinkedList<Parcel>,
}

/// What the desk holds, after what the auditor has taken, is of each collector what it submitted, in its order.
pub struct InOrder;

impl Protocol<Parcel, View> for InOrder {
    ghost use Rattle.fragment_intake.specs.Delivers.{Delivers, everyone};

    ghost holds = { λ items views. Delivers items views };

    ghost first = { everyone };
}

/// A collector's part is split off the first pass, and taken in again at the end.
pub struct Roles;

impl Split<View> for Roles {
    ghost use Rattle.fragment_intake.specs.Delivers.{without_first, only_first};

    ghost left = { without_first };

    ghost right = { only_first };
}

impl Join<View> for Roles {
    ghost use Rattle.fragment_intake.specs.Delivers.{both_of, blank};

    ghost both = { both_of };

    ghost spent = { blank };
}

/// A collector's push, and what it learns where the queue is full.
pub struct Puts;

impl Outcome<Parcel, View> for Puts {
    ghost use Rattle.fragment_intake.specs.Delivers.{Put};

    ghost then = { Put };
}

impl Lesson<Parcel, View> for Puts {
    ghost use Rattle.fragment_intake.specs.Delivers.{Waits};

    ghost fact = { Waits };
}

/// The auditor's pop, and what it learns where the queue is empty.
pub struct Takes;

impl Outcome<Parcel, View> for Takes {
    ghost use Rattle.fragment_intake.specs.Delivers.{Got};

    ghost then = { Got };
}

impl Lesson<Parcel, View> for Takes {
    ghost use Rattle.fragment_intake.specs.Delivers.{Settled};

    ghost fact = { Settled };
}

pub type Line = RuledArrayQueue<Parcel, View, InOrder>;
