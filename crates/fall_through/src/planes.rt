ghost use Rattle.std.specs.Prelude.{◌≡◌, ◌+◌, ◌≤◌, nat_le};

// A table has at most so many planes.
const MOST_PLANES: u16 = 8;

// The number of planes of both.
pub(crate) fn together(upper: u16, lower: u16) -> u16
    requires upper { upper ≤ 8 }
    requires lower { lower ≤ 8 }
    ensures { result ≡ upper + lower }
{
    upper + lower
}

// Whether one table may have the planes of both.
pub(crate) fn few_enough(upper: u16, lower: u16) -> bool
    requires upper { upper ≤ 8 }
    requires lower { lower ≤ 8 }
    ensures { result ≡ nat_le (upper + lower) 8 }
{
    together(upper, lower) <= MOST_PLANES
}
