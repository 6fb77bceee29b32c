use round_state::Report;
use settle::Cut;
use txn::Refusal;

/// What the auditor tells, in order: what became of each parcel, by its collector and its place among that one's parcels;
/// what each round found; what was cut away; a round that was refused at its begin or abandoned, and why; and that nothing
/// more comes.
#[derive(Drop, Debug)]
pub enum Entry {
    Accepted {
        collector: u64,
        place: u64,
    },
    Refused {
        collector: u64,
        place: u64,
        refusal: Refusal,
    },
    Report(Report),
    Cut(Cut),
    Skipped(Refusal),
    End,
}
