// The book of a code, and what is found by it: whether the code words lie far enough apart, and the pattern
// of a syndrome.
#![tactic(auto)]

mod book;
mod closeness;
mod fits;
mod patterns;

pub use book::{Book, Placed, Row, row_count};
pub use patterns::Found;
