// The book of a code: the words of weight at most t with symbol 1 at dot 0, each with its syndrome.
ghost use Rattle.std.specs.Prelude.{◌≤◌};

mod build;
mod count;
mod find;
mod push;
mod row_words;

pub use count::row_count;
use words::Word;

// A symbol at a dot.
#[derive(Clone, Copy, PartialEq, Eq, Debug)]
pub struct Placed {
    pub dot: u8,
    pub symbol: u8,
}

impl Placed {
    // A symbol of 0 is no symbol: the word of a row is 0 there.
    pub(crate) const NOTHING: Placed = Placed { dot: 0, symbol: 0 };
}

// The word with 1 at dot 0 and two more symbols, of which each may be 0.
#[derive(Clone, Copy, PartialEq, Eq, Debug)]
pub struct Row {
    pub first: Placed,
    pub second: Placed,
    pub syndrome: Word,
    // The last row before it in its bucket.
    pub earlier: Option<u16>,
}

// The rows below count, and the last row of each bucket: fixed tables, by a rule of the project, with no heap.
// Not each book is that of a code: it may be half filled, cut short at 4096 rows, or written by a caller with rows
// outside their buckets. So that it is one is a premise of what its methods promise, and no part of the type.
#[derive(Clone, Copy)]
pub struct Book {
    pub rows: [Row; 4096],
    pub count: usize,
    pub heads: [Option<u16>; 1024],
    ghost most: { count ≤ 4096 },
}
