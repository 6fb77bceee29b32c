ghost use Rattle.std.specs.Prelude.{◌≡◌};
ghost use Rattle.demonstration.specs.Names.{fault_name, kind_name};

use demo_store::Fault;
use order_check::Kind;

/// A fault's name.
pub fn fault_name(fault: Fault) -> &'static str
    ensures { result.now ≡ fault_name fault }
{
    match fault {
        Fault::None => "none",
        Fault::StaleRead => "stale-read",
        Fault::LostUpdate => "lost-update",
        Fault::SplitRead => "split-read",
        Fault::SessionBack => "session-back",
        Fault::DirtyRead => "dirty-read",
    }
}

/// The name of a report's kind; `none` where there is no report.
pub fn kind_name(kind: Option<Kind>) -> &'static str
    ensures { result.now ≡ kind_name kind }
{
    match kind {
        Some(Kind::Serial) => "serial",
        Some(Kind::Pending) => "pending",
        Some(Kind::Violated) => "violated",
        Some(Kind::Spent) => "spent",
        None => "none",
    }
}
