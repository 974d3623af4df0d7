// The fields that are built in.
#![tactic(auto)]

mod binary;
mod prime;
#[cfg(test)]
mod tests;

pub use binary::BinaryField;
pub use prime::PrimeField;
