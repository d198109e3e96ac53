ghost use Rattle.std.specs.Prelude.{◌≡◌, ◌^◌, ◌<◌, ◌≤◌, true, drop};
ghost use Rattle.bits.specs.Halves.{clear, low_bits};

pub mod address;
pub mod text;

// An address of 32 bits.
#[derive(Clone, Copy, PartialEq, Eq, Debug)]
pub struct Ipv4 {
    bits: u32,
}

// A prefix of 32-bit addresses: nothing is set beyond its length.
// A rule of the project: each address kind has a prefix type of its own, so these types are not one over the kind.
#[derive(Clone, Copy, PartialEq, Eq, Debug)]
pub struct Prefix4 {
    address: Ipv4,
    len: u8,
    ghost small: { address.bits < 2 ^ 32 },
    ghost within: { len ≤ 32 },
    ghost zeros: { clear (drop len (low_bits 32 address.bits)) ≡ true },
}

impl Prefix4 {
    // The prefix of the first `len` bits of the address, beyond which nothing is set.
    fn of(address: Ipv4, len: u8) -> Prefix4
        requires within { len ≤ 32 }
        requires zeros { clear (drop len (low_bits 32 address.bits)) ≡ true }
        ensures { (result.address ≡ address) × (result.len ≡ len) }
    {
        Prefix4 { address, len }
    }

    pub fn len(self) -> u8
        ensures { result ≡ self.len }
    {
        self.len
    }
}

// Made and read by functions as the addresses of std are; a `From` for each number would be no plainer.
impl Ipv4 {
    pub fn new(bits: u32) -> Ipv4
        ensures { result.bits ≡ bits }
    {
        Ipv4 { bits }
    }

    pub fn bits(self) -> u32
        ensures { result ≡ self.bits }
    {
        self.bits
    }
}
