// The choices of a read that the relation leaves open: of each session the writers that stand neither before the reader nor behind the
// writer, which stand together.
ghost use Rattle.std.specs.Prelude.{◌<◌, ℕ, length};
ghost use Rattle.txn.specs.declared.transactions.TxnId.{TxnId};
ghost use Rattle.session_clocks.specs.Graphs.{HasNode};
ghost use Rattle.session_clocks.specs.Reach.{Reaches};
ghost use Rattle.clock_choices.specs.Runs.{Climbs};
ghost use Rattle.clock_choices.specs.Spans.{IsOpenSpan, id_at};

use crate::reads::Read;
use crate::runs::count_below;
use session_clocks::Graph;

/// From which place on the session's numbers have open choices of the read, and up to before which.
pub(crate) fn open_span(graph: &Graph, read: Read, session: u8, numbers: &[u64]) -> (usize, usize)
    requires climbs { Climbs numbers.now }
    requires session { session < length graph.now.gone }
    requires there { (place : ℕ) → place < length numbers.now → HasNode graph.now (id_at session numbers.now place) }
    requires reader { HasNode graph.now read.reader }
    requires writer { HasNode graph.now read.writer }
    requires read { Reaches graph.now.gone graph.now.received graph.now.arcs read.writer read.reader }
    ensures { IsOpenSpan (Reaches graph.now.gone graph.now.received graph.now.arcs) read session numbers.now result.0 result.1 }
{
    // Most sessions have none: that shows before their numbers are looked at.
    let before = graph.before(read.reader, session);
    let after = graph.after(read.writer, session);
    if after <= before {
        return (0, 0);
    }
    let from = count_below(numbers, before);
    let to = count_below(numbers, after);
    (from, to.max(from))
}
