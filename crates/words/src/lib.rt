// Words over a field, one symbol for each dot of a group.
#![tactic(auto)]

mod checks;
mod count;
mod group_algebra;
mod likeness;
mod record;
mod turn_dots;
mod word;

pub use checks::{check_length, check_lengths, check_symbols};
pub use count::weight;
pub use group_algebra::GroupAlgebra;
pub use likeness::alike;
pub use record::DotRecord;
pub use turn_dots::turn;
pub use word::Word;
