// The words of rows.
ghost use Rattle.std.specs.Prelude.{◌≡◌, ◌<◌, ◌≤◌};
ghost use Rattle.words.specs.Stored.{Stores};
ghost use Rattle.books.specs.Books.{row_at};
ghost use Rattle.books.specs.Rows.{row_symbol, row_word};

use crate::book::{Book, Row};
use algebra::{Field, Group};
use words::{GroupAlgebra, Word};

impl Row {
    // The symbol of the row's word at dot d.
    fn symbol(&self, d: usize) -> u8
        ensures { result ≡ row_symbol self.now d }
    {
        if d == 0 {
            1
        } else if d == usize::from(self.first.dot) {
            self.first.symbol
        } else if d == usize::from(self.second.dot) {
            self.second.symbol
        } else {
            0
        }
    }

    // The row's word, of at most 64 dots.
    pub fn word(&self, n: usize) -> Word
        ensures { n ≤ 64 → Stores n result (row_word n self.now) }
    {
        // No `from_fn`, which would go over all 64 dots: with few dots that takes three times as long.
        let mut symbols = [0; 64];
        for (d, symbol) in symbols[..n.min(64)].iter_mut().enumerate() {
            *symbol = self.symbol(d);
        }
        Word::of(&symbols)
    }
}

impl Book {
    // The word of the i-th row, and the zero word from 4096 on: a public function that cannot fail.
    pub fn row_word<F: Field, G: Group>(&self, algebra: &GroupAlgebra<F, G>, i: usize) -> Word
        ensures { let n = (G.Group.dots algebra.now.group).order in i < 4096 → Stores n result (row_word n (row_at self.now i)) }
    {
        match self.rows.get(i) {
            Some(row) => row.word(algebra.dots()),
            None => Word::zero(),
        }
    }
}
