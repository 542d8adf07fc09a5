// Stores into a list of numbers: one number, three numbers, a whole front.
#![tactic(auto)]

ghost use Rattle.std.specs.Prelude.{◌≡◌, [], ◌∷◌, ◌+◌, ◌≤◌, ◌<◌, ◌^◌, length, set};
ghost use Rattle.std.proofs.lemmas.List.Edits.{sets};
ghost use Rattle.list_words.specs.Lists.{onto};
ghost use Rattle.points.specs.Points.{coordinates};

use points::Point;

// Stores where there is room.
pub fn store(list: &mut [u32], at: usize, v: u32)
    ensures { list.new ≡ set list.old at v }
{
    if at < list.len() {
        list[at] = v;
    }
}

// Three numbers from a place on, as far as there is room (`sets` does nothing beyond a list's end).
pub fn put_three(a: u32, b: u32, c: u32, list: &mut [u32], at: usize)
    requires { at + 2 < 2 ^ 64 }
    ensures { list.new ≡ sets list.old at (a ∷ b ∷ c ∷ []) }
{
    store(list, at, a);
    store(list, at + 1, b);
    store(list, at + 2, c);
}

// A point's coordinates from a place on.
pub fn put_point(v: Point, list: &mut [f64], at: usize)
    requires { at + 3 ≤ length list.old }
    ensures { list.new ≡ sets list.old at (coordinates v) }
{
    list[at] = v.x;
    list[at + 1] = v.y;
    list[at + 2] = v.z;
}

// A list copied into the front of another.
pub fn copy_front<T: Copy>(from: &[T], to: &mut [T])
    requires { length from.now ≤ length to.old }
    ensures { to.new ≡ onto from.now to.old }
{
    // One by one: `copy_from_slice` becomes a call of `memmove`, which the archive for C would need from outside.
    for i in 0..from.len() {
        to[i] = from[i];
    }
}
