// The products of n dots, as rows of a table that was handed in: row a, column b has a times b, and each entry is
// a dot.
// The checks that such a table has to pass stand in the order in which it is judged.
ghost use Rattle.std.specs.Prelude.{◌≡◌, ℕ, ◌+◌, ◌*◌, ◌<◌, [], ◌∷◌, ◌↔◌, IsTrue, MatchOption, MatchResult, slice_index};
ghost use Rattle.algebra.specs.Checks.{Judged};
ghost use Rattle.algebra.specs.Refusals.{inverse_refused};
ghost use Rattle.tables.specs.Tables.{Associates, Associative, Cancels, FirstUnassociative, Invertible, Kept, Sized, association_check, entry, entry_check, identity_check, inverse_check, size_check};

use algebra::{Fault, Part, Refusal};

#[derive(Clone, Copy)]
pub struct Products<'a> {
    order: usize,
    rows: &'a [u8],
    ghost sized: { Sized order rows.now },
    ghost within: { (i : ℕ) → i < order * order → slice_index rows.now i < order },
}

impl<'a> Products<'a> {
    pub fn new(n: usize, table: &'a [u8]) -> Result<Products<'a>, Fault>
        ensures { Judged (size_check n table.now ∷ entry_check n table.now ∷ []) result (λ x. (x.order ≡ n) × (x.rows.now ≡ table.now)) }
    {
        if !(1..=64).contains(&n) || table.len() != n * n {
            return Err(Part::Dots.refuses(Refusal::TableSize, 0));
        }
        match table.iter().position(|entry| usize::from(*entry) >= n) {
            Some(place) => Err(Part::Dots.refuses(Refusal::Entry, place)),
            None => Ok(Products {
                order: n,
                rows: table,
            }),
        }
    }

    // Dot 0 leaves each dot as it is.
    pub fn check_identity(&self) -> Result<(), Fault>
        ensures { Judged (identity_check self.now.order self.now.rows.now ∷ []) result (λ _. Unit {0}) }
    {
        match (0..self.order).find(|a| !self.keeps(*a)) {
            Some(a) => Err(Part::Dots.refuses(Refusal::Identity, a)),
            None => Ok(()),
        }
    }

    // The inverse of each dot.
    pub fn inverses(&self) -> Result<[u8; 64], Fault>
        ensures { let n = self.now.order in let t = self.now.rows.now in Judged (inverse_check n t ∷ []) result (λ v. (a : ℕ) → a < n → (slice_index v a < n) × Cancels n t a (slice_index v a)) }
    {
        let mut inverses = [0; 64];
        for (a, inverse) in inverses[..self.order].iter_mut().enumerate() {
            *inverse = self.inverse(a)?;
        }
        Ok(inverses)
    }

    pub fn check_association(&self) -> Result<(), Fault>
        ensures { Judged (association_check self.now.order self.now.rows.now ∷ []) result (λ _. Unit {0}) }
    {
        let n = self.order;
        match self.first_unassociative() {
            Some((a, b, c)) => Err(Part::Dots.refuses(
                Refusal::Association,
                a * (n * n) + b * n + c,
            )),
            None => Ok(()),
        }
    }

    // A dot is a plain number, as in `Group`: a type for the dots below the order would be unwrapped at each index.
    fn product(&self, a: usize, b: usize) -> usize
        requires row { a < self.now.order }
        requires column { b < self.now.order }
        ensures value { result ≡ entry self.now.order self.now.rows.now a b }
        ensures below { result < self.now.order }
    {
        usize::from(self.rows[a * self.order + b])
    }

    fn keeps(&self, a: usize) -> bool
        requires { a < self.now.order }
        ensures { IsTrue result ↔ Kept self.now.order self.now.rows.now a }
    {
        self.product(0, a) == a && self.product(a, 0) == a
    }

    fn cancels(&self, a: usize, b: usize) -> bool
        requires first { a < self.now.order }
        requires second { b < self.now.order }
        ensures { IsTrue result ↔ Cancels self.now.order self.now.rows.now a b }
    {
        self.product(a, b) == 0 && self.product(b, a) == 0
    }

    fn inverse(&self, a: usize) -> Result<u8, Fault>
        requires { a < self.now.order }
        ensures { let n = self.now.order in let t = self.now.rows.now in MatchResult result (λ b. (b < n) × Cancels n t a b) (λ f. (f ≡ inverse_refused a) × (Invertible n t a → ⊥)) }
    {
        match (0..self.order).find(|b| self.cancels(a, *b)) {
            Some(b) => Ok(b as u8),
            None => Err(Part::Dots.refuses(Refusal::Inverse, a)),
        }
    }

    // The first triple that fails, by three loops left by a label: a rule of the project keeps them.
    fn first_unassociative(&self) -> Option<(usize, usize, usize)>
        ensures { let n = self.now.order in let t = self.now.rows.now in MatchOption result (Associative n t) (λ x. FirstUnassociative n t x.0 x.1 x.2) }
    {
        let n = self.order;
        'search: {
            for a in 0..n {
                for b in 0..n {
                    for c in 0..n {
                        if !self.associates(a, b, c) {
                            break 'search Some((a, b, c));
                        }
                    }
                }
            }
            None
        }
    }

    fn associates(&self, a: usize, b: usize, c: usize) -> bool
        requires first { a < self.now.order }
        requires second { b < self.now.order }
        requires third { c < self.now.order }
        ensures { IsTrue result ↔ Associates self.now.order self.now.rows.now a b c }
    {
        let ab = self.product(a, b);
        let bc = self.product(b, c);
        self.product(ab, c) == self.product(a, bc)
    }
}
