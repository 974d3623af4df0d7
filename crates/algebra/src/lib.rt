// The interfaces of symbols and dots, and what a refused call tells.
#![tactic(auto)]

mod fault;
mod field;
mod group;

pub use fault::{Fault, Part, Refusal};
pub use field::Field;
pub use group::Group;
