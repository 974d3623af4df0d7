// Whether some code word that is not zero is too light, by the rows of the book.
ghost use Rattle.std.specs.Prelude.{ℕ, List, MatchBool};
ghost use Rattle.words.specs.Stored.{word as symbols};
ghost use Rattle.words.specs.Words.{Lawful};
ghost use Rattle.books.specs.Fitting.{SaysClash, SaysRowClash, SaysTurnClash};
ghost use Rattle.codes.specs.GroupCodes.{TooClose};
ghost use Rattle.books.specs.Books.{BookOf};

use crate::book::{Book, Row};
use algebra::{Field, Group};
use words::{GroupAlgebra, Word};

// The algebra comes with each call, since a reader holds it beside its code.
impl Book {
    // Whether some code word that is not zero has weight 2t or less.
    pub fn too_close<F: Field, G: Group>(&self, algebra: &GroupAlgebra<F, G>) -> bool
        ensures { let k = F.Field.symbols algebra.now.field in let g = G.Group.dots algebra.now.group in (e : List ℕ) (t : ℕ) → Lawful k g.order e → BookOf k g e t self.now → MatchBool result (TooClose k g e t) (TooClose k g e t → ⊥) }
    {
        self.rows[..self.count]
            .iter()
            .any(|row| self.row_clashes(algebra, row))
    }

    // Whether the row is a code word, or one of its turns is not the multiple of a row that its syndrome says.
    fn row_clashes<F: Field, G: Group>(&self, algebra: &GroupAlgebra<F, G>, row: &Row) -> bool
        ensures { let k = F.Field.symbols algebra.now.field in let g = G.Group.dots algebra.now.group in SaysRowClash k g self.now row.now result }
    {
        if algebra.same(&row.syndrome, &Word::zero()) {
            return true;
        }
        let word = row.word(algebra.dots());
        (0..algebra.dots()).any(|j| {
            self.turn_clashes(
                algebra,
                &algebra.turned(j, &word),
                &algebra.turned(j, &row.syndrome),
            )
        })
    }

    // Whether at some scale the word is not that scale times the row that fits its syndrome.
    fn turn_clashes<F: Field, G: Group>(
        &self,
        algebra: &GroupAlgebra<F, G>,
        word: &Word,
        syndrome: &Word,
    ) -> bool
        ensures { let k = F.Field.symbols algebra.now.field in let g = G.Group.dots algebra.now.group in SaysTurnClash k g self.now (symbols g.order word.now) (symbols g.order syndrome.now) result }
    {
        (1..algebra.symbols()).any(|scale| self.clashes(algebra, scale, word, syndrome))
    }

    // Whether the word is not the scale times the row that fits its syndrome.
    fn clashes<F: Field, G: Group>(
        &self,
        algebra: &GroupAlgebra<F, G>,
        scale: u8,
        word: &Word,
        syndrome: &Word,
    ) -> bool
        ensures { let k = F.Field.symbols algebra.now.field in let g = G.Group.dots algebra.now.group in SaysClash k g self.now (symbols g.order word.now) (symbols g.order syndrome.now) scale result }
    {
        self.fit_at(algebra, scale, syndrome).is_some_and(|row| {
            !algebra.same(word, &algebra.scaled(scale, &self.row_word(algebra, row)))
        })
    }
}
