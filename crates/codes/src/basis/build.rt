// Finding the basis of a code.
ghost use Rattle.words.specs.Stored.{word};
ghost use Rattle.words.specs.Words.{Lawful, Keeps};
ghost use Rattle.codes.specs.Bases.{BasisOf};

use crate::basis::Basis;
use crate::basis::elimination::Elimination;
use algebra::{Field, Group};
use words::{GroupAlgebra, Word};

impl Basis {
    // The basis of the code of e.
    pub fn of<F: Field, G: Group>(algebra: &GroupAlgebra<F, G>, e: &Word) -> Basis
        ensures { let k = F.Field.symbols algebra.now.field in let g = G.Group.dots algebra.now.group in let n = g.order in Lawful k n (word n e.now) → Keeps k g (word n e.now) (word n e.now) → BasisOf k g (word n e.now) result }
    {
        Elimination::spanning(algebra, e).listed(algebra)
    }
}
