// A field, whose elements are the symbols of a mark.
ghost use Rattle.std.specs.Prelude.{◌≡◌};
ghost use Rattle.algebra.specs.Fields.{FieldLaws, Symbols};

pub trait Field {
    // What the field means: its order with its sums, opposites, products and inverses.
    ghost symbols: { Self → Symbols };

    fn order(&self) -> u8
        ensures { result ≡ (symbols self.now).order };

    fn sum(&self, a: u8, b: u8) -> u8
        ensures { result ≡ (symbols self.now).sum a b };

    fn opposite(&self, a: u8) -> u8
        ensures { result ≡ (symbols self.now).opposite a };

    fn product(&self, a: u8, b: u8) -> u8
        ensures { result ≡ (symbols self.now).product a b };

    // The one code whose product with a is 1, if there is one.
    fn inverse(&self, a: u8) -> Option<u8>
        ensures { result ≡ (symbols self.now).inverse a }
    {
        (0..self.order()).find(|b| self.product(a, *b) == 1)
    }

    ghost lawful: { (x : Self) → FieldLaws (symbols x) };
}
