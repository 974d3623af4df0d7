// Turning what hangs on the dots.
ghost use Rattle.std.specs.Prelude.{◌≡◌, length, OnErr};
ghost use Rattle.algebra.specs.Checks.{Judged};
ghost use Rattle.words.specs.Turns.{Turned, turn_checks};

use crate::checks::check_lengths;
use algebra::{Fault, Group};

// Turns by dot g: what hangs on dot h of the source hangs on dot g times h of the target.
pub fn turn<G: Group, T: Copy>(
    group: &G,
    g: usize,
    source: &[T],
    target: &mut [T],
) -> Result<(), Fault>
    ensures answer { Judged (turn_checks (G.Group.dots group.now).order g (length source.now) (length target.old)) result (λ _. Turned (G.Group.dots group.now) g source.now target.new) }
    ensures kept { OnErr result (target.new ≡ target.old) }
{
    let n = group.order();
    check_lengths(&[(source.len(), n), (target.len(), n)])?;
    if g >= n {
        return Err(Fault::dot());
    }
    for (h, x) in source.iter().enumerate() {
        target[group.product(g, h)] = *x;
    }
    Ok(())
}
