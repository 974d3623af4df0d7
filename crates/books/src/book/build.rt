// Making the book of a code.
ghost use Rattle.std.specs.Prelude.{suc, ◌-◌, ◌*◌, ◌<◌, ◌≤◌};
ghost use Rattle.words.specs.Stored.{word};
ghost use Rattle.books.specs.Adding.{Adds, Exactly, FirstDots, LastDots};
ghost use Rattle.codes.specs.GroupCodes.{choose, rows};
ghost use Rattle.books.specs.Books.{BookOf};

use crate::book::{Book, Placed, Row};
use algebra::{Field, Group};
use words::{GroupAlgebra, Word};

// The rows are filled one at a time, by nested loops over dots and symbols.
// The algebra and e come with each call: a reader holds the one and its code the other, and a struct that borrows
// both would be made anew in each call.
impl Book {
    // Adds the row with these symbols.
    fn add<F: Field, G: Group>(
        &mut self,
        algebra: &GroupAlgebra<F, G>,
        e: &Word,
        first: Placed,
        second: Placed,
    )
        ensures { let k = F.Field.symbols algebra.now.field in let g = G.Group.dots algebra.now.group in Adds k g (word g.order e.now) 1 (Exactly first second) self.old self.new }
    {
        let row = Row {
            first,
            second,
            syndrome: Word::zero(),
            earlier: None,
        };
        let syndrome = algebra.syndrome(e, &row.word(algebra.dots()));
        self.push(Row { syndrome, ..row });
    }

    // Adds the rows with this first symbol, and any symbol but 0 at a later dot.
    fn add_seconds<F: Field, G: Group>(
        &mut self,
        algebra: &GroupAlgebra<F, G>,
        e: &Word,
        first: Placed,
    )
        requires { first.dot < (G.Group.dots algebra.now.group).order }
        ensures { let k = F.Field.symbols algebra.now.field in let g = G.Group.dots algebra.now.group in Adds k g (word g.order e.now) ((g.order - suc first.dot) * (k.order - 1)) (LastDots first g.order k.order) self.old self.new }
    {
        for dot in first.dot + 1..algebra.dots() as u8 {
            for symbol in 1..algebra.symbols() {
                self.add(algebra, e, first, Placed { dot, symbol });
            }
        }
    }

    // Adds the rows with two symbols but 0.
    fn add_pairs<F: Field, G: Group>(&mut self, algebra: &GroupAlgebra<F, G>, e: &Word)
        ensures { let k = F.Field.symbols algebra.now.field in let g = G.Group.dots algebra.now.group in Adds k g (word g.order e.now) (choose (g.order - 1) 2 * ((k.order - 1) * (k.order - 1))) (FirstDots g.order g.order k.order) self.old self.new }
    {
        for dot in 1..algebra.dots() as u8 {
            for symbol in 1..algebra.symbols() {
                self.add_seconds(algebra, e, Placed { dot, symbol });
            }
        }
    }

    // The book of the code of e for radius t. Any t is taken, and t up to 3 is what is promised.
    pub fn of<F: Field, G: Group>(algebra: &GroupAlgebra<F, G>, e: &Word, t: u8) -> Book
        ensures { let k = F.Field.symbols algebra.now.field in let g = G.Group.dots algebra.now.group in t ≤ 3 → rows g.order k.order t ≤ 4096 → BookOf k g (word g.order e.now) t result }
    {
        let mut book = Book::empty();
        if t >= 1 {
            book.add(algebra, e, Placed::NOTHING, Placed::NOTHING);
        }
        if t >= 2 {
            book.add_seconds(algebra, e, Placed::NOTHING);
        }
        if t >= 3 {
            book.add_pairs(algebra, e);
        }
        book
    }
}
