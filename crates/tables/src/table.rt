// A group given by the table of its products.
ghost use Rattle.std.specs.Prelude.{◌≡◌, ℕ, ◌*◌, ◌<◌, ◌≤◌, OnErr, slice_index};
ghost use Rattle.algebra.specs.Checks.{Judged};
ghost use Rattle.tables.specs.Tables.{Adopted, Associative, Cancels, Kept, table_checks, table_dots};
ghost use Rattle.std.proofs.Math.Logic.{∥∥₁_elim};
ghost use Rattle.std.proofs.Math.Nat.{ℕ_set};
ghost use Rattle.algebra.proofs.GroupLaws.{group_laws};
ghost use Rattle.tables.specs.TablesLemmas.{table_laws};

use crate::products::Products;
use algebra::{Fault, Group};

// With fixed memory and no heap: the first n × n products and the first n inverses count, for the order n.
#[derive(Clone, Copy, PartialEq, Eq, Hash, Debug)]
pub struct TableGroup {
    order: usize,
    products: [u8; 4096],
    inverses: [u8; 64],
    ghost sized: { (1 ≤ order) × (order ≤ 64) },
    ghost entries: { (i : ℕ) → i < order * order → slice_index products i < order },
    ghost identity: { (a : ℕ) → a < order → Kept order products a },
    ghost inverses_within: { (a : ℕ) → a < order → slice_index inverses a < order },
    ghost cancels: { (a : ℕ) → a < order → Cancels order products a (slice_index inverses a) },
    ghost associates: { ∥ Associative order products ∥₁ },
}

impl TableGroup {
    // The group of one dot.
    pub fn new() -> TableGroup
        ensures { (⟦<TableGroup as Group>⟧.dots result).order ≡ 1 }
    {
        TableGroup {
            order: 1,
            products: [0; 4096],
            inverses: [0; 64],
        }
    }

    // Takes the group whose table has a times b in row a, column b, or leaves the group as it was.
    pub fn adopt(&mut self, n: usize, table: &[u8]) -> Result<(), Fault>
        ensures answer { Judged (table_checks n table.now) result (λ _. Adopted n table.now (⟦<TableGroup as Group>⟧.dots self.new)) }
        ensures kept { OnErr result (self.new ≡ self.old) }
    {
        let given = Products::new(n, table)?;
        given.check_identity()?;
        let inverses = given.inverses()?;
        given.check_association()?;
        let mut products = [0; 4096];
        products[..table.len()].copy_from_slice(table);
        *self = TableGroup {
            order: n,
            products,
            inverses,
        };
        Ok(())
    }
}

impl Default for TableGroup {
    ghost is_default = { λ x. (⟦<TableGroup as Group>⟧.dots x).order ≡ 1 };

    fn default() -> TableGroup {
        TableGroup::new()
    }
}

impl Group for TableGroup {
    ghost dots = { λ x. table_dots x.order x.products x.inverses };

    ghost lawful = { λ x.
        group_laws _ _ _
        (table_laws x.order x.products x.inverses x.sized.0 x.sized.1 x.entries x.identity x.inverses_within x.cancels
        (λ a b c ha hb hc. ∥∥₁_elim x.associates (ℕ_set _ _) (λ holds. holds a b c ha hb hc))) };

    fn order(&self) -> usize {
        self.order
    }

    fn product(&self, a: usize, b: usize) -> usize {
        if a >= self.order || b >= self.order {
            return 0;
        }
        usize::from(self.products[a * self.order + b])
    }

    fn inverse(&self, a: usize) -> usize {
        if a >= self.order {
            return 0;
        }
        usize::from(self.inverses[a])
    }
}
