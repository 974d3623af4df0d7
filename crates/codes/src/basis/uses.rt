// Writing messages as code words, and reading them off, by the basis of a code.
ghost use Rattle.std.specs.Prelude.{◌≡◌, ℕ, ◌≤◌, List, length};
ghost use Rattle.algebra.specs.Fields.{Symbols};
ghost use Rattle.algebra.specs.Groups.{Dots};
ghost use Rattle.words.specs.Stored.{word};
ghost use Rattle.words.specs.Words.{at, Lawful};
ghost use Rattle.codes.specs.GroupCodes.{WrittenAs, chosen};
ghost use Rattle.codes.specs.Bases.{BasisOf, basis_dots};

use crate::basis::Basis;
use algebra::{Field, Group};
use words::{GroupAlgebra, Word};

impl Basis {
    // The code word with the message's symbols at the message dots.
    pub fn write<F: Field, G: Group>(&self, algebra: &GroupAlgebra<F, G>, message: &[u8]) -> Word
        ensures written { let k = F.Field.symbols algebra.now.field in let g = G.Group.dots algebra.now.group in let n = g.order in (e : List ℕ) → Lawful k n e → BasisOf k g e self.now → Lawful k self.now.count message.now → WrittenAs k g e (basis_dots self.now) message.now (word n result) }
        ensures rest { (d : ℕ) → (G.Group.dots algebra.now.group).order ≤ d → at result.symbols d ≡ 0 }
    {
        message
            .iter()
            .zip(&self.rows[..self.count])
            .fold(Word::zero(), |mark, (symbol, row)| {
                algebra.plus(&mark, &algebra.scaled(*symbol, &row.word))
            })
    }

    // Fills the target with the symbols of the mark at the message dots.
    pub fn message(&self, mark: &Word, target: &mut [u8])
        ensures { (k : Symbols) (g : Dots) (e : List ℕ) → BasisOf k g e self.now → length target.old ≡ self.now.count → target.new ≡ chosen (basis_dots self.now) (word g.order mark.now) }
    {
        let count = self.count.min(target.len());
        // A zip with `target.iter_mut()` would leave the symbols unknown to the proof.
        for (i, row) in self.rows[..count].iter().enumerate() {
            target[i] = mark.symbol(row.dot);
        }
    }
}
