ghost use Rattle.std.specs.Prelude.{◌≡◌, true, ◌++◌, ◌∷◌, []};
ghost use Rattle.demonstration.specs.Reading.{last_kind, or_else, kind_of};
ghost use Rattle.demonstration.specs.Runs.{HasHeard};

use crate::halls::Hall;
use order_check::Kind;
use report_queue::{Entry, ReportReader};
use std::alloc::Global;
use std::snapshot::Snapshot;
use std::sync::Wait;
use std::thread;
use std::thread::Promise;
use txn::Sequence;

/// The next entry, once it comes.
fn next<R: Wait>(rt: &R, reader: &mut ReportReader) -> Entry
    ensures ring { reader.new.ring ≡ reader.old.ring }
    ensures received { reader.new.received ≡ reader.old.received ++ result ∷ [] }
{
    for _ in rt.forever() {
        if let Some(entry) = reader.next() {
            return entry;
        }
        thread::yield_now();
    }
    unreachable!()
}

/// The kind of an entry that is a report.
fn kind_of(entry: &Entry) -> Option<Kind>
    ensures { result ≡ kind_of entry.now }
{
    match entry {
        Entry::Report(report) => Some(report.kind),
        _ => None,
    }
}

/// The entries that were read, unless memory was refused for one.
#[derive(Drop)]
struct Kept {
    entries: Sequence<Entry>,
    is_whole: bool,
}

impl Kept {
    /// Keeps the entry, unless memory is refused or was before.
    fn keep(&mut self, entry: Entry)
        ensures { self.new.is_whole ≡ true → (self.old.is_whole ≡ true) × (self.new.entries ≡ self.old.entries ++ entry ∷ []) }
    {
        if self.is_whole {
            self.is_whole = self.entries.push(entry).is_ok();
        }
    }
}

/// Reads to the end, and gives the last report's kind and what was read.
#[tactic(auto, using(crate::proofs::LastKinds::last_kind_snoc))]
fn read_all<R: Wait>(rt: &R, alloc: Global, reader: &mut ReportReader) -> (Option<Kind>, Kept)
    requires { reader.old.received ≡ [] }
    ensures ring { reader.new.ring ≡ reader.old.ring }
    ensures last { result.0 ≡ last_kind reader.new.received }
    ensures kept { result.1.is_whole ≡ true → result.1.entries ≡ reader.new.received }
{
    let mut last = None;
    let mut kept = Kept {
        entries: Sequence::new(Vec::new(alloc)),
        is_whole: true,
    };
    for _ in rt.forever() {
        let entry = next(rt, reader);
        let is_end = matches!(entry, Entry::End);
        last = kind_of(&entry).or(last);
        kept.keep(entry);
        if is_end {
            return (last, kept);
        }
    }
    unreachable!()
}

/// What the reader comes back with: itself, the last report's kind, and what it has read, if that is all of it.
#[derive(Drop)]
pub struct Heard {
    pub reader: ReportReader,
    pub last: Option<Kind>,
    pub entries: Sequence<Entry>,
    pub is_whole: bool,
}

/// That this reader comes back.
#[derive(Drop)]
pub struct HearingOf(pub Snapshot<ReportReader>);

impl Promise<Heard> for HearingOf {
    ghost use Rattle.demonstration.specs.Runs.{HasHeard};

    ghost kept_by = { λ promise heard. HasHeard promise.0.value heard };
}

/// The reader's whole work, once it is called.
pub fn hear<R: Wait>(rt: &R, alloc: Global, hall: &Hall, reader: ReportReader) -> Heard
    requires { reader.received ≡ [] }
    ensures { HasHeard reader result }
{
    let mut reader = reader;
    if !hall.start.wait(rt) {
        return Heard {
            reader,
            last: None,
            entries: Sequence::new(Vec::new(alloc)),
            is_whole: false,
        };
    }
    let (last, kept) = read_all(rt, alloc, &mut reader);
    let Kept { entries, is_whole } = kept;
    Heard {
        reader,
        last,
        entries,
        is_whole,
    }
}
