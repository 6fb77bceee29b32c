ghost use Rattle.std.specs.Prelude.{◌≡◌, None, OnOk};
ghost use Rattle.round_state.specs.Opening.{fresh_state};
ghost use Rattle.round_state.specs.Runs.{Holds};
ghost use Rattle.live_audit.specs.Running.{reports_in};
ghost use Rattle.demonstration.specs.Runs.{HasAudited, IsFreshSide, IsSameSide};

use crate::halls::Hall;
use live_audit::{AuditorSide, Effort, Means, audit_live};
use polygraph::Solver;
use round_state::Engine;
use std::alloc::Global;
use std::sync::Wait;
use std::thread::{Scope, Threads};
use txn::Refusal;

const EFFORT: Effort = Effort {
    budget: 4096,
    depth: 2,
    workers: 4,
};

/// The auditor's whole work. It answers what its last round was refused for.
pub fn audit<'s, E, R: Threads + Wait, S: Solver + Sync>(
    scope: &Scope<'s, E>,
    rt: &R,
    alloc: Global,
    hall: &Hall,
    engine: Engine,
    solver: &'s S,
    side: &mut AuditorSide,
) -> Result<(), Refusal>
    requires ready { S.ready }
    requires none_open { engine.asked ≡ None }
    requires holds { Holds engine (fresh_state 64 4 4096) }
    requires side { IsFreshSide hall.now side.old }
    ensures same { IsSameSide side.old side.new }
    ensures audited { OnOk result (HasAudited side.new.pass.1 side.new.sender.sent) }
    ensures published { side.new.seat.published ≡ reports_in side.new.sender.sent }
{
    let means = Means {
        scope,
        rt,
        alloc,
        desk: &hall.desk,
        latest: &hall.latest,
        solver,
        effort: EFFORT,
    };
    audit_live(&means, engine, side)
}
