//! Transactions of a log and the fragments that they come in: what they are, which are well formed, and why another
//! is refused.
#![tactic(auto)]

mod choices;
mod refusals;
mod sequences;
mod transactions;
mod well_formed;

pub use choices::{Arc, Choice, ForceStep, Side};
pub use refusals::{NoMemory, Refusal};
pub use sequences::Sequence;
pub use transactions::{EPOCH, Fragment, Source, Txn, TxnId};
pub use well_formed::{NUMBERS, check_fragment, is_short, is_well_formed};
