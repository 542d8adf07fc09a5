// A crossing that counts, as one number: its column, and its inclusion, which is -2, -1, 1 or 2.
ghost use Rattle.std.specs.Prelude.{◌≡◌, true, ◌<◌, ◌≤◌, nat_abs};
ghost use Rattle.list_words.specs.Lists.{nonzero};
ghost use Rattle.layouts.specs.Words as La;

#[tactic(auto, unfolding(crate::specs::Words::packed))]
pub fn packed(column: usize, n: i32) -> u32
    requires { (column < 65536) × (nat_abs n ≤ 2) × (nonzero n ≡ true) }
    ensures { result ≡ La.packed (column, n) }
{
    let there = 4 * column as u32;
    match n {
        2 => there + 3,
        1 => there + 2,
        -1 => there + 1,
        _ => there,
    }
}

#[tactic(auto, unfolding(crate::specs::Words::column))]
pub fn column(x: u32) -> usize
    ensures { result ≡ La.column x }
{
    (x / 4) as usize
}

#[tactic(auto, unfolding(crate::specs::Words::inclusion))]
pub fn inclusion(x: u32) -> i32
    ensures { result ≡ La.inclusion x }
{
    match x % 4 {
        3 => 2,
        2 => 1,
        1 => -1,
        _ => -2,
    }
}
