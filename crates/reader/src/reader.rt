// A reader: a field and a group, and the code that is loaded, if there is one.
use crate::code::Code;
use algebra::{Field, Group};
use std::marker::Model;
use words::GroupAlgebra;

mod loads;
mod marks;

#[derive(Drop)]
pub struct Reader<F: Field, G: Group> {
    algebra: GroupAlgebra<F, G>,
    code: Option<Code>,
}

impl<F: Field, G: Group> Model for Reader<F, G> {
    ghost use Rattle.std.specs.Coded.{codes};
    ghost use Rattle.reader.specs.contracts.code.Code as held;
    ghost use Rattle.reader.specs.Stored.{Held, Sound};

    ghost Value = { Held F G };

    ghost coded = { Prim.hlevel (codes, held.the_row.coded) };

    ghost view = { λ r. record { algebra = r.algebra; code = r.code } };

    ghost invariant = { λ r. Sound (F.Field.symbols r.algebra.field) (G.Group.dots r.algebra.group) r.code };
}
