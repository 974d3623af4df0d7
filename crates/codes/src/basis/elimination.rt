// The elimination over the turns of a code's word.
ghost use Rattle.std.specs.Prelude.{◌≡◌, ℕ, ◌<◌, List};
ghost use Rattle.words.specs.Stored.{Stores, word};
ghost use Rattle.words.specs.Words.{Lawful, Keeps};
ghost use Rattle.codes.specs.Eliminations.{Absorbs, Extended, Listed, Reduced, Spans, cleared, pivot_at, residual, word_at};

use crate::basis::{Basis, BasisRow};
use algebra::{Field, Group};
use words::{GroupAlgebra, Word};

// For each dot that is a pivot, its word. The algebra comes with each call, since the reader holds it.
#[derive(Clone, Copy)]
pub struct Elimination {
    rows: [Option<Word>; 64],
}

impl Elimination {
    // The elimination over the turns of e.
    pub fn spanning<F: Field, G: Group>(algebra: &GroupAlgebra<F, G>, e: &Word) -> Elimination
        ensures { let k = F.Field.symbols algebra.now.field in let g = G.Group.dots algebra.now.group in let n = g.order in Lawful k n (word n e.now) → Keeps k g (word n e.now) (word n e.now) → Spans k g (word n e.now) n result }
    {
        let mut elimination = Elimination { rows: [None; 64] };
        // A fold would copy the rows, 4,160 bytes, at each turn.
        for j in 0..algebra.dots() {
            elimination.absorb(algebra, &algebra.turned(j, e));
        }
        elimination
    }

    // Makes w a combination of the pivots' words.
    fn absorb<F: Field, G: Group>(&mut self, algebra: &GroupAlgebra<F, G>, w: &Word)
        ensures { let k = F.Field.symbols algebra.now.field in let g = G.Group.dots algebra.now.group in let n = g.order in (e : List ℕ) → Lawful k n e → Reduced k g e (pivot_at self.old) (word_at n self.old) → Keeps k g e (word n w.now) → Absorbs k g e self.old (word n w.now) self.new }
    {
        let rest = self.residual(algebra, w);
        let Some(p) = algebra.first_difference(&rest, &Word::zero()) else {
            return;
        };
        let Some(a) = algebra.inverse(rest.symbol(p)) else {
            return;
        };
        self.extend(algebra, p, &algebra.scaled(a, &rest));
    }

    // What is left of w when each pivot's word is taken off.
    fn residual<F: Field, G: Group>(&self, algebra: &GroupAlgebra<F, G>, w: &Word) -> Word
        ensures { let k = F.Field.symbols algebra.now.field in let g = G.Group.dots algebra.now.group in let n = g.order in (e : List ℕ) → Reduced k g e (pivot_at self.now) (word_at n self.now) → Lawful k n (word n w.now) → word n result ≡ residual k n (pivot_at self.now) (word_at n self.now) (word n w.now) }
    {
        let mut rest = *w;
        for (d, row) in self.rows[..algebra.dots()].iter().enumerate() {
            if let Some(b) = row {
                rest = cleared(algebra, d, b, &rest);
            }
        }
        rest
    }

    // Makes p a pivot with the word b, and clears the words of the other pivots at p.
    fn extend<F: Field, G: Group>(&mut self, algebra: &GroupAlgebra<F, G>, p: usize, b: &Word)
        requires { p < (G.Group.dots algebra.now.group).order }
        ensures { let k = F.Field.symbols algebra.now.field in let n = (G.Group.dots algebra.now.group).order in Extended k n (pivot_at self.old) (word_at n self.old) p (word n b.now) (pivot_at self.new) (word_at n self.new) }
    {
        for row in self.rows[..algebra.dots()].iter_mut() {
            if let Some(u) = row {
                *u = cleared(algebra, p, b, u);
            }
        }
        self.rows[p] = Some(*b);
    }

    // The pivots, rising, with their words.
    pub fn listed<F: Field, G: Group>(&self, algebra: &GroupAlgebra<F, G>) -> Basis
        ensures { Listed (G.Group.dots algebra.now.group).order self.now result }
    {
        let none = BasisRow {
            dot: 0,
            word: Word::zero(),
        };
        let mut rows = [none; 64];
        let mut count = 0;
        for (dot, row) in self.rows[..algebra.dots()].iter().enumerate() {
            if let Some(word) = row {
                rows[count] = BasisRow { dot, word: *word };
                count += 1;
            }
        }
        Basis { rows, count }
    }
}

// u less b scaled by the symbol of u at p.
fn cleared<F: Field, G: Group>(algebra: &GroupAlgebra<F, G>, p: usize, b: &Word, u: &Word) -> Word
    requires { p < (G.Group.dots algebra.now.group).order }
    ensures { let k = F.Field.symbols algebra.now.field in let n = (G.Group.dots algebra.now.group).order in Stores n result (cleared k n p (word n b.now) (word n u.now)) }
{
    algebra.less(u, &algebra.scaled(u.symbol(p), b))
}
