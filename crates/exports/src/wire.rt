use crate::bytes::{HALVES, halves_in};
use address::kind::Address;
use address::refusal::PrefixRefusal;
use bits::front::Front;
use bits::halves::Halves;
use table::calls::{Call, Granted, Reply};

// How many bytes a call takes: what is asked (0 announce, 1 withdraw, 2 fetch, anything else lookup), the length or the bound, two bytes
// of the plane, 16 of the address and 16 of the next hop. Addresses stand at the left; what is set beyond their width is not read.
pub const CALL: usize = 36;

// How many bytes a reply takes: its kind, the length or the number of the refusal, and 16 bytes of the next hop.
pub const REPLY: usize = 18;

// What a call asks.
#[derive(Clone, Copy, PartialEq, Eq, Debug)]
enum CallKind {
    Announce,
    Withdraw,
    Fetch,
    Lookup,
}

impl From<u8> for CallKind {
    fn from(byte: u8) -> CallKind {
        match byte {
            0 => CallKind::Announce,
            1 => CallKind::Withdraw,
            2 => CallKind::Fetch,
            _ => CallKind::Lookup,
        }
    }
}

// The kinds of replies, with their bytes.
#[derive(Clone, Copy, PartialEq, Eq, Debug)]
enum ReplyKind {
    Done = 0,
    Nothing = 1,
    Holds = 2,
    Found = 3,
    Refused = 4,
}

// The address in its bytes.
#[tactic(auto, using(bits::proofs::Fronts::masked_aligned))]
pub fn address_in<A: Address>(bytes: &[u8; HALVES]) -> A {
    let front = Front {
        bits: halves_in(bytes),
        len: A::WIDTH,
    };
    A::from_halves(front.masked())
}

// The address of a call, from its fifth byte on.
fn address_of<A: Address>(call: &[u8; CALL]) -> A {
    address_in::<A>(call[4..].first_chunk().unwrap())
}

// The prefix of a call: its length in the second byte, its address from the fifth on.
pub fn prefix_of<A: Address>(call: &[u8; CALL]) -> Result<A::Prefix, PrefixRefusal> {
    address_of::<A>(call).prefix(call[1])
}

// The next hop of a call, in its last bytes.
pub fn hop_of<A: Address>(call: &[u8; CALL]) -> A {
    address_in::<A>(call.last_chunk().unwrap())
}

// The call in its bytes, unless its prefix is refused.
pub fn call_in<A: Address>(call: &[u8; CALL]) -> Result<Call<A, A::Prefix>, PrefixRefusal> {
    let plane = u16::from_be_bytes([call[2], call[3]]);
    Ok(match CallKind::from(call[0]) {
        CallKind::Announce => Call::Announce {
            plane,
            prefix: prefix_of::<A>(call)?,
            hop: hop_of::<A>(call),
        },
        CallKind::Withdraw => Call::Withdraw {
            plane,
            prefix: prefix_of::<A>(call)?,
        },
        CallKind::Fetch => Call::Fetch {
            plane,
            prefix: prefix_of::<A>(call)?,
        },
        CallKind::Lookup => Call::Lookup {
            address: address_of::<A>(call),
            bound: call[1],
        },
    })
}

// The bytes of a reply: its kind, its number and its next hop.
fn with_hop(kind: ReplyKind, number: u8, hop: Halves) -> [u8; REPLY] {
    let mut bytes = [0; REPLY];
    bytes[0] = kind as u8;
    bytes[1] = number;
    bytes[2..10].copy_from_slice(&hop.hi.to_be_bytes());
    bytes[10..].copy_from_slice(&hop.lo.to_be_bytes());
    bytes
}

// The bytes of a reply that names no next hop.
fn plain(kind: ReplyKind, number: u8) -> [u8; REPLY] {
    with_hop(kind, number, Halves { hi: 0, lo: 0 })
}

// The bytes that say that a call was refused with this number.
pub fn refused(number: u8) -> [u8; REPLY] {
    plain(ReplyKind::Refused, number)
}

// The bytes of a reply.
pub fn reply_bytes<A: Address>(reply: Reply<A>) -> [u8; REPLY] {
    match reply {
        Ok(Granted::Done) => plain(ReplyKind::Done, 0),
        Ok(Granted::Holds(None) | Granted::Found(None)) => plain(ReplyKind::Nothing, 0),
        Ok(Granted::Holds(Some(hop))) => with_hop(ReplyKind::Holds, 0, hop.to_halves()),
        Ok(Granted::Found(Some((len, hop)))) => with_hop(ReplyKind::Found, len, hop.to_halves()),
        Err(refusal) => refused(refusal.number()),
    }
}
