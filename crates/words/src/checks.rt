// The checks that each call asks of the buffers that it is handed.
ghost use Rattle.std.specs.Prelude.{[], ◌∷◌};
ghost use Rattle.algebra.specs.Checks.{Judged};
ghost use Rattle.words.specs.Buffers.{length_check, length_checks, range_check};

use algebra::Fault;

// Refuses the buffer with this position among the call's buffers unless it has n elements.
pub fn check_length(length: usize, n: usize, buffer: usize) -> Result<(), Fault>
    ensures { Judged (length_check length n buffer ∷ []) result (λ _. Unit {0}) }
{
    if length != n {
        return Err(Fault::length(buffer));
    }
    Ok(())
}

// Refuses the first buffer whose length is not the one beside it.
pub fn check_lengths(lengths: &[(usize, usize)]) -> Result<(), Fault>
    ensures { Judged (length_checks 0 lengths.now) result (λ _. Unit {0}) }
{
    if let Some(buffer) = lengths.iter().position(|(length, n)| *length != *n) {
        return Err(Fault::length(buffer));
    }
    Ok(())
}

// Refuses a buffer with a symbol that is not below the order.
pub fn check_symbols(order: u8, symbols: &[u8]) -> Result<(), Fault>
    ensures { Judged (range_check order symbols.now ∷ []) result (λ _. Unit {0}) }
{
    // A rule of the project: a range check loops with the index.
    for i in 0..symbols.len() {
        if symbols[i] >= order {
            return Err(Fault::symbol(i));
        }
    }
    Ok(())
}
