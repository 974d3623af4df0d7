// The lines of the program marks: what a line of bytes asks, and the line that answers.
#![tactic(auto)]

mod digits;
mod held;
mod line;
mod pending;
mod reply;
mod request;
#[cfg(test)]
mod tests;

pub use digits::Digits;
pub use held::Held;
pub use line::Line;
pub use pending::Pending;
pub use reply::{Answer, Declined, Reply, show};
pub use request::{Request, parse};
