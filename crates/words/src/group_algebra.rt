// The algebra of a group over a field: its elements are words, one symbol for each dot.
ghost use Rattle.std.specs.Prelude.{◌≡◌, ℕ, ◌<◌, ◌≤◌, length, MatchBool, MatchOption, ◌≢◌};
ghost use Rattle.algebra.specs.Checks.{FirstWithout, Judged};
ghost use Rattle.words.specs.Laws.{AlgebraLaws};
ghost use Rattle.words.specs.Stored.{Stores, coefficient, word};
ghost use Rattle.words.specs.Turns.{LeastTurn, alike_checks};
ghost use Rattle.words.specs.Words.{at, less, one, plus, scaled, syndrome, times, turned, unit, weight as nonzeros};

use crate::word::Word;
use crate::{count, likeness};
use algebra::{Fault, Field, Group};

#[derive(Drop)]
pub struct GroupAlgebra<F, G> {
    field: F,
    group: G,
}

// In the contracts k is what the field means, g what the group means and n the number of dots. Definitions for these
// three would have to take the members `symbols` and `dots` of the two traits as arguments, and be no shorter.
impl<F: Field, G: Group> GroupAlgebra<F, G> {
    pub fn new(field: F, group: G) -> GroupAlgebra<F, G>
        ensures made { result ≡ record { field = field; group = group } }
        ensures laws { AlgebraLaws (F.Field.symbols field) (G.Group.dots group) }
    {
        GroupAlgebra { field, group }
    }

    // The number of dots.
    pub fn dots(&self) -> usize
        ensures { result ≡ (G.Group.dots self.now.group).order }
    {
        self.group.order()
    }

    // The number of symbols that a dot can have.
    pub fn symbols(&self) -> u8
        ensures { result ≡ (F.Field.symbols self.now.field).order }
    {
        self.field.order()
    }

    // The inverse of a symbol, if it has one.
    pub fn inverse(&self, a: u8) -> Option<u8>
        ensures { result ≡ (F.Field.symbols self.now.field).inverse a }
    {
        self.field.inverse(a)
    }

    // The least dot by which the first mark turns into the second, if there is one.
    pub fn alike(&self, first: &[u8], second: &[u8]) -> Result<Option<usize>, Fault>
        ensures { let g = G.Group.dots self.now.group in Judged (alike_checks g.order (length first.now) (length second.now)) result (λ j. LeastTurn g first.now second.now j) }
    {
        likeness::alike(&self.group, first, second)
    }

    // The word with the symbol at each dot that the closure gives.
    fn tabulated<S: Fn(usize) -> u8>(&self, symbol: S) -> Word
        requires { S.IsAlwaysCallable symbol }
        ensures below { (d : ℕ) → d < (G.Group.dots self.now.group).order → S.post symbol d (at result.symbols d) }
        ensures rest { (d : ℕ) → (G.Group.dots self.now.group).order ≤ d → at result.symbols d ≡ 0 }
    {
        // As many turns as there are dots: `array::from_fn` would take 64 in a group of few. No group has more than 64
        // dots, and where the compiler sees that too, it takes several of them at a time.
        let n = self.group.order().min(64);
        let mut symbols = [0; 64];
        for (d, x) in symbols[..n].iter_mut().enumerate() {
            *x = symbol(d);
        }
        Word { symbols }
    }

    // The word with 1 at dot d and 0 elsewhere.
    pub fn unit(&self, d: usize) -> Word
        ensures { let n = (G.Group.dots self.now.group).order in Stores n result (unit n d) }
    {
        let mut symbols = [0; 64];
        if d < self.group.order() {
            symbols[d] = 1;
        }
        Word { symbols }
    }

    // The word with 1 at dot 0 and 0 elsewhere.
    pub fn one(&self) -> Word
        ensures { let n = (G.Group.dots self.now.group).order in Stores n result (one n) }
    {
        self.unit(0)
    }

    // The sum, symbol by symbol.
    pub fn plus(&self, u: &Word, v: &Word) -> Word
        ensures { let k = F.Field.symbols self.now.field in let n = (G.Group.dots self.now.group).order in Stores n result (plus k n (word n u.now) (word n v.now)) }
    {
        self.tabulated(|d| self.field.sum(u.symbol(d), v.symbol(d)))
    }

    // The difference, symbol by symbol.
    pub fn less(&self, u: &Word, v: &Word) -> Word
        ensures { let k = F.Field.symbols self.now.field in let n = (G.Group.dots self.now.group).order in Stores n result (less k n (word n u.now) (word n v.now)) }
    {
        self.tabulated(|d| {
            self.field
                .sum(u.symbol(d), self.field.opposite(v.symbol(d)))
        })
    }

    // Each symbol of w times a.
    pub fn scaled(&self, a: u8, w: &Word) -> Word
        ensures { let k = F.Field.symbols self.now.field in let n = (G.Group.dots self.now.group).order in Stores n result (scaled k n a (word n w.now)) }
    {
        self.tabulated(|d| self.field.product(a, w.symbol(d)))
    }

    // The symbol at x of the product of u and v.
    fn coefficient(&self, u: &Word, v: &Word, x: usize) -> u8
        ensures { let k = F.Field.symbols self.now.field in let g = G.Group.dots self.now.group in let n = g.order in result ≡ coefficient k g (word n u.now) (word n v.now) x }
    {
        (0..self.group.order()).fold(0, |sum, h| {
            let y = self.group.product(self.group.inverse(h), x);
            self.field
                .sum(sum, self.field.product(u.symbol(h), v.symbol(y)))
        })
    }

    // The product: at x the sum, over all dots h, of u at h times v at (inverse of h) times x.
    pub fn product(&self, u: &Word, v: &Word) -> Word
        ensures { let k = F.Field.symbols self.now.field in let g = G.Group.dots self.now.group in let n = g.order in Stores n result (times k g (word n u.now) (word n v.now)) }
    {
        self.tabulated(|d| self.coefficient(u, v, d))
    }

    // w turned by j: what hung on dot h hangs on j times h.
    pub fn turned(&self, j: usize, w: &Word) -> Word
        ensures { let g = G.Group.dots self.now.group in let n = g.order in Stores n result (turned g j (word n w.now)) }
    {
        let back = self.group.inverse(j);
        self.tabulated(|d| w.symbol(self.group.product(back, d)))
    }

    // w turned by the inverse of j.
    pub fn turned_back(&self, j: usize, w: &Word) -> Word
        ensures { let g = G.Group.dots self.now.group in let n = g.order in Stores n result (turned g (g.inverse j) (word n w.now)) }
    {
        self.turned(self.group.inverse(j), w)
    }

    // One less e.
    fn complement(&self, e: &Word) -> Word
        ensures { let k = F.Field.symbols self.now.field in let n = (G.Group.dots self.now.group).order in Stores n result (less k n (one n) (word n e.now)) }
    {
        self.less(&self.one(), e)
    }

    // w times the complement of e.
    pub fn syndrome(&self, e: &Word, w: &Word) -> Word
        ensures { let k = F.Field.symbols self.now.field in let g = G.Group.dots self.now.group in let n = g.order in Stores n result (syndrome k g (word n e.now) (word n w.now)) }
    {
        self.product(w, &self.complement(e))
    }

    // The first dot at which the two words differ.
    pub fn first_difference(&self, u: &Word, v: &Word) -> Option<usize>
        ensures { let n = (G.Group.dots self.now.group).order in MatchOption result (word n u.now ≡ word n v.now) (λ i. (i < n) × FirstWithout (λ d. at (word n u.now) d ≡ at (word n v.now) d) i) }
    {
        (0..self.group.order()).find(|&d| u.symbol(d) != v.symbol(d))
    }

    // Whether the two words are the same.
    pub fn same(&self, u: &Word, v: &Word) -> bool
        ensures { let n = (G.Group.dots self.now.group).order in MatchBool result (word n u.now ≡ word n v.now) (word n u.now ≢ word n v.now) }
    {
        self.first_difference(u, v).is_none()
    }

    // How many symbols are not zero.
    pub fn weight(&self, w: &Word) -> usize
        ensures { let n = (G.Group.dots self.now.group).order in result ≡ nonzeros (word n w.now) }
    {
        count::weight(&w.symbols[..self.group.order()])
    }
}
