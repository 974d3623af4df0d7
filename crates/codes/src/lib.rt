// Group codes, and the basis by which their code words are written and read.
#![tactic(auto)]

mod basis;

pub use basis::{Basis, BasisRow};
