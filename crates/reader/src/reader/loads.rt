// Loading a code, and letting it go.
ghost use Rattle.std.specs.Prelude.{◌≡◌, List, [], ◌∷◌, None, OnErr};
ghost use Rattle.reader.specs.Calls.{Loads};
ghost use Rattle.reader.specs.Histories.{Call, load as load_of, clear as clear_of};
ghost use Rattle.reader.specs.Stored.{Lived};

use crate::code::Code;
use crate::reader::Reader;
use algebra::{Fault, Field, Group};
use words::GroupAlgebra;

// The clauses `lived` speak of every past, which no field of a reader could hold.
impl<F: Field, G: Group> Reader<F, G> {
    pub fn new(field: F, group: G) -> Reader<F, G>
        ensures made { result ≡ record { algebra = record { field = field; group = group }; code = None } }
        ensures lived { Lived (F.Field.symbols field) (G.Group.dots group) [] result.code }
    {
        Reader {
            algebra: GroupAlgebra::new(field, group),
            code: None,
        }
    }

    // Puts the code of e and t in force, and answers the number of message dots and of rows.
    // A plain pair, by a rule of the project.
    pub fn load(&mut self, e: &[u8], t: u8) -> Result<(usize, usize), Fault>
        ensures answer { Loads (F.Field.symbols self.old.algebra.field) (G.Group.dots self.old.algebra.group) e.now t result }
        ensures kept { OnErr result (self.new ≡ self.old) }
        ensures same { self.new.algebra ≡ self.old.algebra }
        ensures lived { (past : List Call) → Lived (F.Field.symbols self.old.algebra.field) (G.Group.dots self.old.algebra.group) past self.old.code → Lived (F.Field.symbols self.old.algebra.field) (G.Group.dots self.old.algebra.group) (load_of e.now t ∷ past) self.new.code }
    {
        let code = Code::of(&self.algebra, e, t)?;
        let answer = (code.basis.count, code.book.count);
        self.code = Some(code);
        Ok(answer)
    }

    pub fn clear(&mut self)
        ensures after { self.new ≡ record { algebra = self.old.algebra; code = None } }
        ensures lived { (past : List Call) → Lived (F.Field.symbols self.old.algebra.field) (G.Group.dots self.old.algebra.group) (clear_of ∷ past) self.new.code }
    {
        self.code = None;
    }
}
