// Rows of the book whose syndrome, times a scale, is a given word.
ghost use Rattle.words.specs.Stored.{word};
ghost use Rattle.books.specs.Fitting.{SaysFit, SaysFits};

use crate::book::Book;
use algebra::{Field, Group};
use words::{GroupAlgebra, Word};

// The row is told by its number, by which rows are told apart and compared.
#[derive(Clone, Copy, PartialEq, Eq, Debug)]
pub struct Fit {
    pub row: usize,
    pub scale: u8,
}

impl Book {
    // The last row whose syndrome times the scale is the word.
    pub(crate) fn fit_at<F: Field, G: Group>(
        &self,
        algebra: &GroupAlgebra<F, G>,
        scale: u8,
        target: &Word,
    ) -> Option<usize>
        ensures { let k = F.Field.symbols algebra.now.field in let g = G.Group.dots algebra.now.group in SaysFit k g self.now (word g.order target.now) scale result }
    {
        let inverse = algebra.inverse(scale)?;
        self.find(&algebra.scaled(inverse, target))
    }

    // A row and a scale by which its syndrome is the word.
    pub(crate) fn find_fit<F: Field, G: Group>(
        &self,
        algebra: &GroupAlgebra<F, G>,
        target: &Word,
    ) -> Option<Fit>
        ensures { let k = F.Field.symbols algebra.now.field in let g = G.Group.dots algebra.now.group in SaysFits k g self.now (word g.order target.now) result }
    {
        (1..algebra.symbols()).find_map(|scale| {
            self.fit_at(algebra, scale, target)
                .map(|row| Fit { row, scale })
        })
    }
}
