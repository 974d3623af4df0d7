// Reading and writing marks: words of a group code.
#![tactic(auto)]

mod checks;
mod code;
mod reader;
mod record;

pub use reader::Reader;
pub use record::ReadRecord;
