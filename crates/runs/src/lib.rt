// Runs: calls given to a reader in order, and what it replies.
#![tactic(auto)]

mod runs;

pub use runs::serve::serve;
pub use runs::{Answer, Call, Reply, run};
