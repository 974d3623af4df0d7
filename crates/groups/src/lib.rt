// The groups that are made from numbers and from other groups.
#![tactic(auto)]

mod double_ring;
mod grid;
mod ring;
#[cfg(test)]
mod tests;

pub use double_ring::DoubleRing;
pub use grid::Grid;
pub use ring::Ring;
