// A group, whose elements are the dots of a mark.
ghost use Rattle.std.specs.Prelude.{◌≡◌};
ghost use Rattle.algebra.specs.Groups.{Dots, GroupLaws};

pub trait Group {
    // What the group means: its order with its products and inverses.
    ghost dots: { Self → Dots };

    fn order(&self) -> usize
        ensures { result ≡ (dots self.now).order };

    fn product(&self, a: usize, b: usize) -> usize
        ensures { result ≡ (dots self.now).product a b };

    fn inverse(&self, a: usize) -> usize
        ensures { result ≡ (dots self.now).inverse a };

    ghost lawful: { (x : Self) → GroupLaws (dots x) };
}
