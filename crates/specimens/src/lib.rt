// Specimens: worked examples of fields, groups and codes, which hold by the definitions that the other crates promise.
#![tactic(auto)]

ghost use Rattle.std.specs.Prelude.{◌≡◌, length};
ghost use Rattle.specimens.specs.Specimens.{AllHold, specimens};

// How many specimens stand: all of them.
pub fn specimens_stand() -> u8
    ensures count { result ≡ length specimens }
    ensures stand { AllHold specimens }
{
    23
}
