ghost use Rattle.std.specs.Prelude.{◌≡◌, length};
ghost use Rattle.bits.specs.Bits.{covers, order};
ghost use Rattle.bits.specs.Halves.{stands, front, word};

use super::kind::Address;
use std::cmp::Ordering;

// Whether the prefix's halves cover those of the address.
fn covers_halves<A: Address>(p: A::Prefix, a: A) -> bool
    ensures { result ≡ covers (front (length (A.Address.pbits p)) (A.Address.halves (A.Address.start p))) (word (A.Address.halves a)) }
{
    A::front(p).covers(a.to_halves())
}

// Whether the prefix covers the address.
pub fn covers_address<A: Address>(p: A::Prefix, a: A) -> bool
    ensures { result ≡ covers (A.Address.pbits p) (A.Address.bits a) }
{
    covers_halves(p, a)
}

// How the halves of the two prefixes stand.
fn order_halves<A: Address>(p: A::Prefix, q: A::Prefix) -> Ordering
    ensures { stands result ≡ order (front (length (A.Address.pbits p)) (A.Address.halves (A.Address.start p))) (front (length (A.Address.pbits q)) (A.Address.halves (A.Address.start q))) }
{
    A::front(p).order(A::front(q))
}

// How the two prefixes stand in the order by address and then by length.
pub fn order_prefixes<A: Address>(p: A::Prefix, q: A::Prefix) -> Ordering
    ensures { stands result ≡ order (A.Address.pbits p) (A.Address.pbits q) }
{
    order_halves::<A>(p, q)
}
