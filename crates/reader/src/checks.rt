// The check of the buffers that a call is handed.
ghost use Rattle.algebra.specs.Checks.{Judged};
ghost use Rattle.reader.specs.Buffers.{buffer_checks};

use algebra::Fault;
use words::{check_lengths, check_symbols};

// Refuses the first buffer whose length is not the one beside it, and then the first symbol that is not below the
// order.
pub fn check_buffers(lengths: &[(usize, usize)], order: u8, symbols: &[u8]) -> Result<(), Fault>
    ensures { Judged (buffer_checks lengths.now order symbols.now) result (λ _. Unit {0}) }
{
    check_lengths(lengths)?;
    check_symbols(order, symbols)
}
