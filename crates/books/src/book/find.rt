// Looking up a syndrome in a book.
ghost use Rattle.std.specs.Prelude.{◌≡◌, ℕ, ◌<◌, ◌≢◌, MatchBool, MatchOption};
ghost use Rattle.words.specs.Stored.{word};
ghost use Rattle.books.specs.Books.{Chained, row_at};

use crate::book::Book;
use crate::book::push::bucket;
use words::Word;

// Whether all 64 symbols are the same. The words come by value, since behind a `&` a proof does not know that
// they have 64.
fn same(u: Word, v: Word) -> bool
    ensures { MatchBool result (word 64 u ≡ word 64 v) (word 64 u ≢ word 64 v) }
{
    u == v
}

impl Book {
    // The last row with this syndrome, if there is one.
    pub fn find(&self, syndrome: &Word) -> Option<usize>
        ensures { Chained self.now → MatchOption result ((i : ℕ) → i < self.now.count → word 64 (row_at self.now i).syndrome ≢ word 64 syndrome.now) (λ i. (i < self.now.count) × (word 64 (row_at self.now i).syndrome ≡ word 64 syndrome.now) × ((j : ℕ) → i < j → j < self.now.count → word 64 (row_at self.now j).syndrome ≢ word 64 syndrome.now)) }
    {
        // A loop, since `successors` does not say that a chain ends. Each step goes to a lower row, so this one ends in
        // any book.
        let mut bound = self.count;
        let mut next = self.heads[bucket(syndrome)];
        while let Some(i) = next {
            let i = usize::from(i);
            if i >= bound {
                break;
            }
            let row = &self.rows[i];
            if same(row.syndrome, *syndrome) {
                return Some(i);
            }
            bound = i;
            next = row.earlier;
        }
        None
    }
}
