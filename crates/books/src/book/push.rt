// Filling a book, row by row.
ghost use Rattle.std.specs.Prelude.{◌≡◌, ◌<◌};
ghost use Rattle.books.specs.Adding.{Pushed};
ghost use Rattle.books.specs.Books.{Chained};
ghost use Rattle.books.specs.Rows.{bucket as bucket_of};

use crate::book::{Book, Placed, Row};
use words::Word;

// The bucket of a syndrome.
pub fn bucket(syndrome: &Word) -> usize
    ensures is { result ≡ bucket_of syndrome.now }
    ensures below { result < 1024 }
{
    (0..64).fold(0, |h, d| (h * 31 + usize::from(syndrome.symbol(d))) % 1024)
}

impl Book {
    // The book with no rows.
    pub fn empty() -> Book
        ensures none { result.count ≡ 0 }
        ensures chained { Chained result }
    {
        let row = Row {
            first: Placed::NOTHING,
            second: Placed::NOTHING,
            syndrome: Word::zero(),
            earlier: None,
        };
        Book {
            rows: [row; 4096],
            count: 0,
            heads: [None; 1024],
        }
    }

    // Adds a row at the head of its bucket, unless the book is full.
    pub fn push(&mut self, mut row: Row)
        ensures { self.old.count < 4096 → Pushed row self.old self.new }
    {
        if self.count >= 4096 {
            return;
        }
        row.earlier = self.heads[bucket(&row.syndrome)].replace(self.count as u16);
        self.rows[self.count] = row;
        self.count += 1;
    }
}
