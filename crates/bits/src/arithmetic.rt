// Arithmetic on halves: each function is an equation over numbers. What it means for bit strings, `Halves` and `Front` say.
ghost use Rattle.std.specs.Prelude.{◌≡◌, ◌-◌, ◌<◌, ◌≤◌};
ghost use Rattle.bits.specs.Halves.{stands};
ghost use Rattle.bits.specs.Arithmetic.{bit_of, shared, top, cut, uncut, agree, settled};

use super::front::Front;
use super::halves::Halves;
use std::cmp::Ordering;

// Bit `i`, the highest first.
pub fn bit(h: Halves, i: u8) -> bool
    requires { i < 128 }
    ensures { result ≡ bit_of h i }
{
    if i < 64 {
        (h.hi >> (63 - i)) % 2 == 1
    } else {
        (h.lo >> (127 - i)) % 2 == 1
    }
}

// How many bits stand before the first in which the two differ.
pub fn shared_bits(a: Halves, b: Halves) -> u8
    ensures { result ≡ shared a b }
{
    let x = a.hi ^ b.hi;
    if x != 0 {
        x.leading_zeros() as u8
    } else {
        64 + (a.lo ^ b.lo).leading_zeros() as u8
    }
}

// The first `n` bits of `x`, with zeros after.
fn kept(x: u64, n: u8) -> u64
    requires { n ≤ 64 }
    ensures { result ≡ top n x }
{
    if n == 0 {
        0
    } else {
        let s = 64 - n;
        (x >> s) << s
    }
}

// The bits of the front, with zeros after.
pub fn cut_after(f: Front) -> Halves
    requires { f.len ≤ 128 }
    ensures { result ≡ cut f.len f.bits }
{
    if f.len < 64 {
        Halves {
            hi: kept(f.bits.hi, f.len),
            lo: 0,
        }
    } else {
        Halves {
            hi: f.bits.hi,
            lo: kept(f.bits.lo, f.len - 64),
        }
    }
}

// Whether nothing is cut off after the bits of the front.
pub fn uncut(f: Front) -> bool
    requires { f.len ≤ 128 }
    ensures { result ≡ uncut f.len f.bits }
{
    cut_after(f) == f.bits
}

// Whether the bits of the front are the first ones of `a` too.
pub fn agree_on(f: Front, a: Halves) -> bool
    requires { f.len ≤ 128 }
    ensures { result ≡ agree f.len f.bits a }
{
    if f.len <= 64 {
        f.len == 0 || (f.bits.hi ^ a.hi) >> (64 - f.len) == 0
    } else {
        f.bits.hi == a.hi && (f.bits.lo ^ a.lo) >> (128 - f.len) == 0
    }
}

// How the two fronts stand: by the bit of `a` in which they differ first, else by length.
pub fn settle(a: Front, b: Front) -> Ordering
    requires left { a.len ≤ 128 }
    requires right { b.len ≤ 128 }
    ensures { stands result ≡ settled (shared a.bits b.bits) (bit_of a.bits (shared a.bits b.bits)) a.len b.len }
{
    let both = shared_bits(a.bits, b.bits);
    if both < a.len && both < b.len {
        if bit(a.bits, both) {
            Ordering::Greater
        } else {
            Ordering::Less
        }
    } else {
        a.len.cmp(&b.len)
    }
}
