// The front of a list: its first n members, or all where it has fewer.
#![tactic(auto)]

ghost use Rattle.std.specs.Prelude.{◌≡◌, take};

// The lists of a solid that a request brings.
pub type Coordinates = [f64; 8192];

pub type Corners = [u32; 8192];

pub fn front<T>(list: &[T], n: usize) -> &[T]
    ensures { result.now ≡ take n list.now }
{
    &list[..n.min(list.len())]
}

// The same, to be written.
pub fn front_mut<T>(list: &mut [T], n: usize) -> &mut [T]
    ensures { result.now ≡ take n list.old }
{
    let most = n.min(list.len());
    &mut list[..most]
}
