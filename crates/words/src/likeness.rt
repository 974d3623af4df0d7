// Whether one mark is another, seen from another dot.
ghost use Rattle.std.specs.Prelude.{◌≡◌, ◌<◌, length, MatchBool};
ghost use Rattle.algebra.specs.Checks.{Judged};
ghost use Rattle.words.specs.Turns.{LeastTurn, Turned, alike_checks};

use crate::checks::check_lengths;
use algebra::{Fault, Group};

// The least dot by which the first mark turns into the second, if there is one.
pub fn alike<G: Group>(group: &G, first: &[u8], second: &[u8]) -> Result<Option<usize>, Fault>
    ensures { Judged (alike_checks (G.Group.dots group.now).order (length first.now) (length second.now)) result (λ j. LeastTurn (G.Group.dots group.now) first.now second.now j) }
{
    let n = group.order();
    check_lengths(&[(first.len(), n), (second.len(), n)])?;
    Ok((0..n).find(|&g| turns_into(group, g, first, second)))
}

fn turns_into<G: Group>(group: &G, g: usize, first: &[u8], second: &[u8]) -> bool
    requires first { length first.now ≡ (G.Group.dots group.now).order }
    requires second { length second.now ≡ (G.Group.dots group.now).order }
    ensures { MatchBool result (Turned (G.Group.dots group.now) g first.now second.now) (Turned (G.Group.dots group.now) g first.now second.now → ⊥) }
{
    // A plain loop, which takes half the time of `all` over the symbols.
    for h in 0..group.order() {
        let to = group.product(g, h);
        if second[to] != first[h] {
            return false;
        }
    }
    true
}
