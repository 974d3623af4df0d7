// How many symbols of a word are not zero.
ghost use Rattle.std.specs.Prelude.{◌≡◌};
ghost use Rattle.words.specs.Words.{weight as nonzeros};

pub fn weight(symbols: &[u8]) -> usize
    ensures { result ≡ nonzeros symbols.now }
{
    // A rule of the project: the weight is a `for` over the symbols.
    let mut count = 0;
    for s in symbols {
        if *s != 0 {
            count += 1;
        }
    }
    count
}
