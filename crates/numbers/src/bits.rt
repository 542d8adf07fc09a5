// One bit of a number.
ghost use Rattle.std.specs.Prelude.{◌≡◌, ◌<◌};
ghost use Rattle.numbers.specs.Numbers as Nu;

// Is bit i set?
#[tactic(auto, unfolding(crate::specs::Numbers::bit))]
pub fn bit(number: u64, i: usize) -> bool
    requires { i < 64 }
    ensures { result ≡ Nu.bit i number }
{
    (number >> i) % 2 == 1
}
