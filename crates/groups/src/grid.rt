// A grid of two groups: its dots stand for pairs, which multiply part by part.
ghost use Rattle.std.specs.Prelude.{◌≡◌};
ghost use Rattle.groups.specs.GroupKinds.{grid_dots};
ghost use Rattle.groups.specs.Grids.{grid_laws};

use algebra::Group;

#[derive(Clone, Copy, PartialEq, Eq, Hash, Debug)]
pub struct Grid<A, B> {
    a: A,
    b: B,
}

impl<A, B> Grid<A, B> {
    pub fn new(a: A, b: B) -> Grid<A, B>
        ensures { result ≡ record { a = a; b = b } }
    {
        Grid { a, b }
    }
}

impl<A: Group, B: Group> Group for Grid<A, B> {
    ghost dots = { λ x. grid_dots (A.Group.dots x.a) (B.Group.dots x.b) };

    ghost lawful = { λ x. grid_laws (A.Group.dots x.a) (B.Group.dots x.b) (A.Group.lawful x.a) (B.Group.lawful x.b) };

    // By the rules the group of one dot stands in for a grid of more than 64.
    fn order(&self) -> usize {
        let n = self.a.order() * self.b.order();
        if n > 64 { 1 } else { n }
    }

    fn product(&self, a: usize, b: usize) -> usize {
        let n = self.order();
        if a >= n || b >= n {
            return 0;
        }
        let width = self.b.order();
        self.a.product(a / width, b / width) * width + self.b.product(a % width, b % width)
    }

    fn inverse(&self, a: usize) -> usize {
        let n = self.order();
        if a >= n {
            return 0;
        }
        let width = self.b.order();
        self.a.inverse(a / width) * width + self.b.inverse(a % width)
    }
}
