ghost use Rattle.std.specs.Prelude.{◌≡◌, ◌≤◌, take};
ghost use Rattle.bits.specs.Halves.{front, Aligned};
ghost use Rattle.address.specs.Prefixes.{number, checked, outcome, Tested};

use super::refusal::PrefixRefusal;
use bits::front::Front;

impl PrefixRefusal {
    // The number by which the refusal is reported.
    // A method and no `From`: it is a fact about the refusal, which the refusal does not turn into.
    pub fn number(self) -> u8
        ensures { result ≡ number self }
    {
        match self {
            PrefixRefusal::TooLong => 12,
            PrefixRefusal::StrayBits => 13,
        }
    }
}

// Whether the front has at most `width` bits, and nothing is set beyond them.
fn test_prefix(f: Front, width: u8) -> Result<(), PrefixRefusal>
    requires { width ≤ 128 }
    ensures { Tested width f.len f.bits result }
{
    if f.len > width {
        return Err(PrefixRefusal::TooLong);
    }
    if !f.is_aligned() {
        return Err(PrefixRefusal::StrayBits);
    }
    Ok(())
}

// Whether the bits of the front are a prefix of such an address as its halves hold, of `width` bits.
pub fn check_prefix(f: Front, width: u8) -> Result<(), PrefixRefusal>
    requires narrow { width ≤ 128 }
    requires clear { Aligned width f.bits }
    ensures { outcome (λ _. take f.len (front width f.bits)) result ≡ checked (front width f.bits) f.len }
{
    test_prefix(f, width)
}
