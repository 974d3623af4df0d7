// How many rows a book has.
ghost use Rattle.std.specs.Prelude.{◌≡◌, ◌≤◌};
ghost use Rattle.codes.specs.GroupCodes.{rows};

// The number of words of weight at most t with symbol 1 at dot 0, over n dots and q symbols; 0 where n is not from 1
// to 64 or q not from 2 to 16. Any t is taken, and t up to 3 is what is promised.
pub fn row_count(n: usize, q: u8, t: u8) -> usize
    ensures inside { 1 ≤ n → n ≤ 64 → 2 ≤ q → q ≤ 16 → t ≤ 3 → result ≡ rows n q t }
    ensures outside { ((1 ≤ n) × (n ≤ 64) × (2 ≤ q) × (q ≤ 16) → ⊥) → result ≡ 0 }
{
    if n < 1 || n > 64 || q < 2 || q > 16 {
        return 0;
    }
    let dots = n - 1;
    let symbols = usize::from(q) - 1;
    match t {
        0 => 0,
        1 => 1,
        2 => 1 + dots * symbols,
        _ => 1 + dots * symbols + dots * dots.saturating_sub(1) / 2 * (symbols * symbols),
    }
}
