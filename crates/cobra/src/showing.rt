ghost use Rattle.std.specs.Prelude.{◌≡◌, IfOk};
ghost use Rattle.cobra.specs.Scripts.{state_told};

use log_text::Reply;
use round_state::{Engine, received_counts};
use std::alloc::Global;
use txn::NoMemory;

/// What an engine keeps, to be told.
pub fn state_told(alloc: Global, engine: &Engine) -> Result<Reply, NoMemory>
    ensures { IfOk result (λ answer. answer ≡ state_told engine.now) }
{
    let parts = engine.parts();
    Ok(Reply::Show {
        marks: parts.base.marks.clone()?,
        received: received_counts(alloc, parts)?,
        closed: parts.closed.clone()?,
        last: parts.base.last.entries(alloc)?,
        remaining: engine.remaining() as u64,
    })
}
