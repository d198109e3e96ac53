ghost use Rattle.std.specs.Prelude.{◌≡◌, ◌^◌, ◌<◌, ◌≤◌, true, drop};
ghost use Rattle.bits.specs.Halves.{clear};
ghost use Rattle.bits.specs.Wide.{paired};

pub mod address;
pub mod text;

// An address of 128 bits as two halves, the higher first.
#[derive(Clone, Copy, PartialEq, Eq, Debug)]
pub struct Ipv6 {
    hi: u64,
    lo: u64,
}

// A prefix of 128-bit addresses: nothing is set beyond its length.
// A rule of the project: each address kind has a prefix type of its own, so these types are not one over the kind.
#[derive(Clone, Copy, PartialEq, Eq, Debug)]
pub struct Prefix6 {
    address: Ipv6,
    len: u8,
    ghost high: { address.hi < 2 ^ 64 },
    ghost low: { address.lo < 2 ^ 64 },
    ghost within: { len ≤ 128 },
    ghost zeros: { clear (drop len (paired address.hi address.lo)) ≡ true },
}

impl Prefix6 {
    // The prefix of the first `len` bits of the address, beyond which nothing is set.
    fn of(address: Ipv6, len: u8) -> Prefix6
        requires within { len ≤ 128 }
        requires zeros { clear (drop len (paired address.hi address.lo)) ≡ true }
        ensures { (result.address ≡ address) × (result.len ≡ len) }
    {
        Prefix6 { address, len }
    }

    pub fn len(self) -> u8
        ensures { result ≡ self.len }
    {
        self.len
    }
}

// Made and read by functions as the addresses of std are; a `From` for each number would be no plainer.
impl Ipv6 {
    pub fn new(hi: u64, lo: u64) -> Ipv6
        ensures { (result.hi ≡ hi) × (result.lo ≡ lo) }
    {
        Ipv6 { hi, lo }
    }

    pub fn hi(self) -> u64
        ensures { result ≡ self.hi }
    {
        self.hi
    }

    pub fn lo(self) -> u64
        ensures { result ≡ self.lo }
    {
        self.lo
    }
}
