ghost use Rattle.std.specs.Prelude.{◌≡◌};
ghost use Rattle.report_checking.specs.Telling.{owes_nothing, what_of};

use log_text::Reply;
use order_check::Kind;

/// What a reply that is right tells.
#[derive(Clone, Copy, Debug, PartialEq, Eq)]
pub(crate) enum What {
    Report(Kind),
    Cut,
    Other,
}

/// What would have to be shown for a reply to be owed, and isn't.
#[derive(Clone, Copy, Debug, PartialEq, Eq)]
pub(crate) enum Unshown {
    /// The order doesn't explain what had been accepted.
    Order,
    /// The refutation doesn't refute what had been accepted.
    Refutation,
    /// What had gone before: the script resumes what another run gave out.
    Beginning,
    /// What was offered with its times: the script asks for strict serializability, which isn't checked.
    Strict,
}

/// Why a reply isn't right.
#[derive(Drop, Debug)]
pub(crate) enum Fault {
    /// This text is owed, and another one is stored.
    Other(Vec<u8>),
    Unshown(Unshown),
    /// The line has no reply.
    Missing,
    /// It is longer than any that is read.
    TooLong,
}

impl Fault {
    /// Whether nothing is owed to the line, whatever is replied: what its script begins with isn't checked.
    pub(crate) fn owes_nothing(&self) -> bool
        ensures { result ≡ owes_nothing self.now }
    {
        matches!(self, Fault::Unshown(Unshown::Beginning | Unshown::Strict))
    }
}

/// What was found of a reply.
#[derive(Drop, Debug)]
pub(crate) enum Found {
    Right(What),
    /// It says that memory was wanting: nothing is known of that.
    Unchecked,
    /// It isn't right: it is wrong, unless nothing is owed to the line.
    Wrong(Fault),
}

/// What a check comes to.
#[derive(Clone, Copy, Debug, PartialEq, Eq)]
pub enum Outcome {
    /// All replies are right.
    Right,
    /// None is wrong, but not all are checked: some say that memory was wanting, or what the script begins with isn't checked.
    Unchecked,
    /// One is wrong.
    Wrong,
}

/// What is owed to a line.
#[derive(Drop, Debug)]
pub(crate) enum Owed {
    Reply(Reply),
    /// This isn't shown.
    Nothing(Unshown),
}

pub(crate) fn what_of(answer: &Reply) -> What
    ensures { result ≡ what_of answer.now }
{
    match answer {
        Reply::Order { kind, .. } => What::Report(*kind),
        Reply::Violated { .. } => What::Report(Kind::Violated),
        Reply::Spent { .. } => What::Report(Kind::Spent),
        Reply::Cut { .. } => What::Cut,
        Reply::Done | Reply::Searching | Reply::No(_) | Reply::Show { .. } | Reply::Saved(_) =>
            What::Other,
    }
}
