// The pattern of a syndrome: its turns are looked up in the book, one by one.
ghost use Rattle.std.specs.Prelude.{◌≡◌, ℕ, ◌≤◌, List, MatchOption};
ghost use Rattle.words.specs.Stored.{Stores, word};
ghost use Rattle.words.specs.Words.{Lawful, at, syndrome as syndrome_of};
ghost use Rattle.books.specs.Fitting.{SaysPattern};
ghost use Rattle.codes.specs.GroupCodes.{Pattern, TooClose, TurnCount};
ghost use Rattle.books.specs.Books.{BookOf};

use crate::book::Book;
use algebra::{Field, Group};
use words::{GroupAlgebra, Word};

#[derive(Clone, Copy, PartialEq, Eq, Debug)]
pub struct Found {
    pub pattern: Word,
    pub turns: u8,
}

impl Book {
    // The pattern with this syndrome, and its count of turns.
    pub fn find_pattern<F: Field, G: Group>(
        &self,
        algebra: &GroupAlgebra<F, G>,
        syndrome: &Word,
    ) -> Option<Found>
        ensures { let k = F.Field.symbols algebra.now.field in let g = G.Group.dots algebra.now.group in let n = g.order in (e : List ℕ) (t : ℕ) (r : List ℕ) → Lawful k n e → Lawful k n r → BookOf k g e t self.now → (TooClose k g e t → ⊥) → Stores n syndrome.now (syndrome_of k g e r) → MatchOption result ((p : List ℕ) → Pattern k g e t r p → ⊥) (λ x. Pattern k g e t r (word n x.pattern) × TurnCount g (word n x.pattern) x.turns × ((d : ℕ) → n ≤ d → at x.pattern.symbols d ≡ 0)) }
    {
        let zero = Word::zero();
        if algebra.same(syndrome, &zero) {
            return Some(Found {
                pattern: zero,
                turns: 0,
            });
        }
        (0..algebra.dots()).find_map(|j| {
            let pattern = self.pattern_at(algebra, j, syndrome)?;
            Some(Found {
                pattern,
                turns: j as u8 + 1,
            })
        })
    }

    // The multiple of a row that fits the syndrome turned by j, turned back.
    fn pattern_at<F: Field, G: Group>(
        &self,
        algebra: &GroupAlgebra<F, G>,
        j: usize,
        syndrome: &Word,
    ) -> Option<Word>
        ensures { let k = F.Field.symbols algebra.now.field in let g = G.Group.dots algebra.now.group in SaysPattern k g self.now j (word g.order syndrome.now) result }
    {
        let fit = self.find_fit(algebra, &algebra.turned(j, syndrome))?;
        let row = self.row_word(algebra, fit.row);
        Some(algebra.turned_back(j, &algebra.scaled(fit.scale, &row)))
    }
}
