ghost use Rattle.std.specs.Prelude.{◌≡◌, ◌+◌};
ghost use Rattle.byte_lines.specs.Faults.{number_of};

use std::mem;
use std::snapshot::Snapshot;

/// How often a device has failed, for its contract alone. A number of 64 bits would have to stop or to wrap somewhere;
/// this count needs no memory and has no end, since an earlier count is kept as a snapshot, which has no bytes.
#[derive(Drop)]
pub(crate) enum FaultCount {
    Never,
    After(Snapshot<FaultCount>),
}

impl FaultCount {
    pub(crate) fn add(&mut self)
        ensures { number_of self.new ≡ number_of self.old + 1 }
    {
        let earlier = Snapshot::of(&*self);
        *self = FaultCount::After(earlier);
    }
}
