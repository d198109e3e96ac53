ghost use Rattle.std.specs.Prelude.{◌≡◌, ◌^◌, ◌<◌, ◌≤◌, true, drop, MatchOption};
ghost use Rattle.bits.specs.Halves.{clear, low_bits};

pub mod address_kind;

// How many addresses of 48 bits there are.
const ADDRESSES: u64 = 1 << 48;

// An address of 48 bits.
#[derive(Clone, Copy, PartialEq, Eq, Debug)]
pub struct Mac48 {
    bits: u64,
}

// A prefix of 48-bit addresses: nothing is set beyond its length.
// A rule of the project: each address kind has a prefix type of its own, so these types are not one over the kind.
#[derive(Clone, Copy, PartialEq, Eq, Debug)]
pub struct Prefix48 {
    address: Mac48,
    len: u8,
    ghost small: { address.bits < 2 ^ 48 },
    ghost within: { len ≤ 48 },
    ghost zeros: { clear (drop len (low_bits 48 address.bits)) ≡ true },
}

impl Mac48 {
    // The address of that number, if it has no more than 48 bits.
    pub fn new(bits: u64) -> Option<Mac48>
        ensures { MatchOption result (2 ^ 48 ≤ bits) (λ a. (a.bits ≡ bits) × (bits < 2 ^ 48)) }
    {
        if bits < ADDRESSES {
            Some(Mac48 { bits })
        } else {
            None
        }
    }

    pub fn bits(self) -> u64
        ensures { result ≡ self.bits }
    {
        self.bits
    }
}
