// What the calls do with the code in force.
ghost use Rattle.std.specs.Prelude.{◌≡◌, Some, OnErr};
ghost use Rattle.reader.specs.Calls.{Reads, Syndromes, Writes};
ghost use Rattle.reader.specs.Stored.{SoundCode, code_of};

use crate::checks::check_buffers;
use crate::code::Code;
use crate::record::ReadRecord;
use algebra::{Fault, Field, Group, Part, Refusal};
use words::{GroupAlgebra, Word};

impl Code {
    pub(crate) fn write<F: Field, G: Group>(
        &self,
        algebra: &GroupAlgebra<F, G>,
        message: &[u8],
        mark: &mut [u8],
    ) -> Result<(), Fault>
        requires { SoundCode (F.Field.symbols algebra.now.field) (G.Group.dots algebra.now.group) self.now }
        ensures answer { let k = F.Field.symbols algebra.now.field in let g = G.Group.dots algebra.now.group in Writes k g (code_of g.order (Some self.now)) message.now mark.old result mark.new }
        ensures kept { OnErr result (mark.new ≡ mark.old) }
    {
        let lengths = [
            (message.len(), self.basis.count),
            (mark.len(), algebra.dots()),
        ];
        check_buffers(&lengths, algebra.symbols(), message)?;
        self.basis.write(algebra, message).copy_to(mark);
        Ok(())
    }

    pub(crate) fn read<F: Field, G: Group>(
        &self,
        algebra: &GroupAlgebra<F, G>,
        received: &[u8],
        mended: &mut [u8],
        message: &mut [u8],
    ) -> Result<ReadRecord, Fault>
        requires { SoundCode (F.Field.symbols algebra.now.field) (G.Group.dots algebra.now.group) self.now }
        ensures answer { let k = F.Field.symbols algebra.now.field in let g = G.Group.dots algebra.now.group in Reads k g (code_of g.order (Some self.now)) received.now mended.old message.old result mended.new message.new }
        ensures kept { OnErr result ((mended.new ≡ mended.old) × (message.new ≡ message.old)) }
    {
        let dots = algebra.dots();
        let lengths = [
            (received.len(), dots),
            (mended.len(), dots),
            (message.len(), self.basis.count),
        ];
        check_buffers(&lengths, algebra.symbols(), received)?;
        let mark = Word::of(received);
        let syndrome = algebra.syndrome(&self.word, &mark);
        let Some(found) = self.book.find_pattern(algebra, &syndrome) else {
            return Err(Part::Reader.refuses(Refusal::OutOfReach, 0));
        };
        let whole = algebra.less(&mark, &found.pattern);
        whole.copy_to(mended);
        self.basis.message(&whole, message);
        Ok(ReadRecord {
            wrong: algebra.weight(&found.pattern) as u8,
            turns: found.turns,
        })
    }

    pub(crate) fn syndrome<F: Field, G: Group>(
        &self,
        algebra: &GroupAlgebra<F, G>,
        mark: &[u8],
        buffer: &mut [u8],
    ) -> Result<(), Fault>
        ensures answer { let k = F.Field.symbols algebra.now.field in let g = G.Group.dots algebra.now.group in Syndromes k g (code_of g.order (Some self.now)) mark.now buffer.old result buffer.new }
        ensures kept { OnErr result (buffer.new ≡ buffer.old) }
    {
        let dots = algebra.dots();
        let lengths = [(mark.len(), dots), (buffer.len(), dots)];
        check_buffers(&lengths, algebra.symbols(), mark)?;
        algebra
            .syndrome(&self.word, &Word::of(mark))
            .copy_to(buffer);
        Ok(())
    }
}
