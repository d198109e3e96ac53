use address::ipv4::Ipv4;
use address::ipv6::Ipv6;
use address::kind::Address;

// The prefixes and addresses of one kind that the tour uses.
#[derive(Clone, Copy)]
pub struct Samples<A, P> {
    // the prefix of length 0
    pub all: P,
    // a prefix, a longer one beneath it, and the address `inside` as a prefix
    pub wide: P,
    pub narrow: P,
    pub host: P,
    pub inside: A,
    pub outside: A,
    // next hops
    pub first: A,
    pub second: A,
}

// An address and a length that have to make a prefix.
fn net<A: Address>(address: A, len: u8) -> anyhow::Result<A::Prefix> {
    Ok(address.prefix(len)?)
}

fn dotted(a: u8, b: u8, c: u8, d: u8) -> Ipv4 {
    Ipv4::new(u32::from_be_bytes([a, b, c, d]))
}

pub fn ipv4() -> anyhow::Result<Samples<Ipv4, <Ipv4 as Address>::Prefix>> {
    let inside = dotted(10, 1, 2, 3);
    Ok(Samples {
        all: net(dotted(0, 0, 0, 0), 0)?,
        wide: net(dotted(10, 0, 0, 0), 8)?,
        narrow: net(dotted(10, 1, 0, 0), 16)?,
        host: net(inside, 32)?,
        inside,
        outside: dotted(11, 0, 0, 1),
        first: dotted(192, 0, 2, 1),
        second: dotted(192, 0, 2, 2),
    })
}

pub fn ipv6() -> anyhow::Result<Samples<Ipv6, <Ipv6 as Address>::Prefix>> {
    let inside = Ipv6::new(0x2001_0db8_0001_0000, 9);
    Ok(Samples {
        all: net(Ipv6::new(0, 0), 0)?,
        wide: net(Ipv6::new(0x2001_0db8_0000_0000, 0), 32)?,
        narrow: net(Ipv6::new(0x2001_0db8_0001_0000, 0), 48)?,
        host: net(inside, 128)?,
        inside,
        outside: Ipv6::new(0x2001_0db9_0000_0000, 1),
        first: Ipv6::new(0xfe80_0000_0000_0000, 1),
        second: Ipv6::new(0xfe80_0000_0000_0000, 2),
    })
}
