// What a read tells: how many dots were wrong, and how far the mark had to be turned to find them.
// The rules have turns as a count too: 0 where nothing was wrong.
ghost use Rattle.std.specs.Prelude.{◌≡◌, ◌≤◌};

#[derive(Clone, Copy, PartialEq, Eq, Debug)]
pub struct ReadRecord {
    pub wrong: u8,
    pub turns: u8,
    ghost few: { wrong ≤ 3 },
    ghost none_wrong: { wrong ≡ 0 → turns ≡ 0 },
    ghost none_turned: { turns ≡ 0 → wrong ≡ 0 },
}
