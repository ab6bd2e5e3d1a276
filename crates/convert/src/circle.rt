// Longitudes as places on a circle, each named once: by a number from -half to half - 1, where `half` is half of the circle.
ghost use Rattle.std.specs.Prelude.{◌≡◌, ◌*◌, ◌≤◌, ◌<◌};
ghost use Rattle.laws.specs.Parts.{Within};
ghost use Rattle.laws.specs.Circle.{names, place_of};

// The name of the place at which a number stands: one that is past an end of the range is a turn off.
pub(crate) fn place_of(half: usize, v: i64) -> i64
    requires { (0 < half) × (half ≤ 64800000000) × (Within (2 * half) v) }
    ensures { (result ≡ place_of half v) × (Within 64800000000 result) }
{
    if names(half, v) {
        v
    } else if v < 0 {
        v + 2 * (half as i64)
    } else {
        v - 2 * (half as i64)
    }
}

// Whether a number names a place.
#[tactic(auto, unfolding(laws::specs::Circle::names))]
fn names(half: usize, v: i64) -> bool
    requires { half ≤ 64800000000 }
    ensures { result ≡ names half v }
{
    let end = half as i64;
    (-end..end).contains(&v)
}
