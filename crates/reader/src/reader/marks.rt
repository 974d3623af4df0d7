// The calls that leave the reader as it is.
ghost use Rattle.std.specs.Prelude.{◌≡◌, ◌+◌, ◌≤◌, List, ◌∷◌, length, Some, None, IfOk, IfErr, OnErr};
ghost use Rattle.algebra.specs.Refusals.{no_code_refused};
ghost use Rattle.reader.specs.Calls.{Alikes, Facts, Reads, Syndromes, Writes};
ghost use Rattle.reader.specs.Histories.{Call, ReadsLawfully, alike as alike_of, facts as facts_of, find_syndrome as syndrome_of, read as read_of, write as write_of};
ghost use Rattle.reader.specs.Stored.{Lived, SoundCode, code_of};

use crate::checks::check_buffers;
use crate::code::Code;
use crate::reader::Reader;
use crate::record::ReadRecord;
use algebra::{Fault, Field, Group, Part, Refusal};
use words::check_symbols;

// The clauses `lived` speak of every past, which no field of a reader could hold.
#[tactic(auto, using(crate::proofs::InForce::lived_on))]
impl<F: Field, G: Group> Reader<F, G> {
    // The code in force.
    fn code(&self) -> Result<&Code, Fault>
        ensures held { IfOk result (λ c. self.now.code ≡ Some c.now) }
        ensures sound { IfOk result (λ c. SoundCode (F.Field.symbols self.now.algebra.field) (G.Group.dots self.now.algebra.group) c.now) }
        ensures none { IfErr result (λ f. (self.now.code ≡ None) × (f ≡ no_code_refused)) }
    {
        self.code
            .as_ref()
            .ok_or(Part::Reader.refuses(Refusal::NoCode, 0))
    }

    // Writes the code word with the message's symbols at the message dots into the mark.
    pub fn write(&self, message: &[u8], mark: &mut [u8]) -> Result<(), Fault>
        ensures answer { let k = F.Field.symbols self.now.algebra.field in let g = G.Group.dots self.now.algebra.group in Writes k g (code_of g.order self.now.code) message.now mark.old result mark.new }
        ensures kept { OnErr result (mark.new ≡ mark.old) }
        ensures lived { let k = F.Field.symbols self.now.algebra.field in let g = G.Group.dots self.now.algebra.group in (past : List Call) → Lived k g past self.now.code → Lived k g (write_of message.now (length mark.old) ∷ past) self.now.code }
    {
        self.code()?.write(&self.algebra, message, mark)
    }

    // Mends what was received, and reads the message off.
    pub fn read(
        &self,
        received: &[u8],
        mended: &mut [u8],
        message: &mut [u8],
    ) -> Result<ReadRecord, Fault>
        ensures answer { let k = F.Field.symbols self.now.algebra.field in let g = G.Group.dots self.now.algebra.group in Reads k g (code_of g.order self.now.code) received.now mended.old message.old result mended.new message.new }
        ensures kept { OnErr result ((mended.new ≡ mended.old) × (message.new ≡ message.old)) }
        ensures bound { let k = F.Field.symbols self.now.algebra.field in let g = G.Group.dots self.now.algebra.group in IfOk result (λ x. x.wrong + x.turns ≤ g.order + 1) }
        ensures law { let k = F.Field.symbols self.now.algebra.field in let g = G.Group.dots self.now.algebra.group in (past : List Call) → Lived k g past self.now.code → ReadsLawfully k g past received.now (length mended.old) (length message.old) result mended.new message.new }
        ensures lived { let k = F.Field.symbols self.now.algebra.field in let g = G.Group.dots self.now.algebra.group in (past : List Call) → Lived k g past self.now.code → Lived k g (read_of received.now (length mended.old) (length message.old) ∷ past) self.now.code }
    {
        self.code()?.read(&self.algebra, received, mended, message)
    }

    // Writes the syndrome of the mark into the buffer.
    pub fn syndrome(&self, mark: &[u8], buffer: &mut [u8]) -> Result<(), Fault>
        ensures answer { let k = F.Field.symbols self.now.algebra.field in let g = G.Group.dots self.now.algebra.group in Syndromes k g (code_of g.order self.now.code) mark.now buffer.old result buffer.new }
        ensures kept { OnErr result (buffer.new ≡ buffer.old) }
        ensures lived { let k = F.Field.symbols self.now.algebra.field in let g = G.Group.dots self.now.algebra.group in (past : List Call) → Lived k g past self.now.code → Lived k g (syndrome_of mark.now (length buffer.old) ∷ past) self.now.code }
    {
        self.code()?.syndrome(&self.algebra, mark, buffer)
    }

    // The number of message dots, the radius, and the number of rows of the book.
    // A plain triple, by a rule of the project.
    pub fn facts(&self) -> Result<(usize, usize, usize), Fault>
        ensures answer { let k = F.Field.symbols self.now.algebra.field in let g = G.Group.dots self.now.algebra.group in Facts k g (code_of g.order self.now.code) result }
        ensures lived { let k = F.Field.symbols self.now.algebra.field in let g = G.Group.dots self.now.algebra.group in (past : List Call) → Lived k g past self.now.code → Lived k g (facts_of ∷ past) self.now.code }
    {
        let code = self.code()?;
        Ok((code.basis.count, usize::from(code.radius), code.book.count))
    }

    // The least dot by which the first mark turns into the second, if there is one.
    pub fn alike(&self, first: &[u8], second: &[u8]) -> Result<Option<usize>, Fault>
        ensures answer { Alikes (F.Field.symbols self.now.algebra.field) (G.Group.dots self.now.algebra.group) first.now second.now result }
        ensures lived { let k = F.Field.symbols self.now.algebra.field in let g = G.Group.dots self.now.algebra.group in (past : List Call) → Lived k g past self.now.code → Lived k g (alike_of first.now second.now ∷ past) self.now.code }
    {
        let dots = self.algebra.dots();
        let order = self.algebra.symbols();
        check_buffers(&[(first.len(), dots), (second.len(), dots)], order, first)?;
        check_symbols(order, second)?;
        self.algebra.alike(first, second)
    }
}
