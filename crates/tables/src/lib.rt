// The groups that are given by tables.
#![tactic(auto)]

mod products;
mod table;

pub use table::TableGroup;
