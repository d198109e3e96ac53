ghost use Rattle.std.specs.Prelude.{◌≡◌, ◌/◌, ◌%◌, ◌^◌, ◌<◌, ◌≤◌, length, take};
ghost use Rattle.std.proofs.Common.{sym, lit≤, arith, rules};
ghost use Rattle.bits.specs.Halves.{low_bits};
ghost use Rattle.bits.specs.Narrow.{lifted};
ghost use Rattle.address.specs.Kind4.{joined4, made4};
ghost use Rattle.bits.proofs.LowBits.{low_length};
ghost use Rattle.bits.proofs.Narrow.{lifted_fit, lifted_aligned, lifted_front, lowered_back, lowered_bound, lifted_lowered, narrow_length, narrow_zeros, narrow_made, narrow_lengths, narrow_addresses};
ghost use Rattle.address.specs.Same4.{same_address, same_prefix};

use super::{Ipv4, Prefix4};
use crate::checks::check_prefix;
use crate::kind::Address;
use crate::refusal::PrefixRefusal;
use bits::front::Front;
use bits::halves::Halves;

// The higher 32 bits of `x`.
fn top_half(x: u64) -> u32
    ensures { result ≡ x / 2 ^ 32 % 2 ^ 32 }
{
    (x >> 32) as u32
}

// As that of any kind that is one number: a trait between would have these members again, and no macro may write an impl.
impl Address for Ipv4 {
    type Prefix = Prefix4;

    const WIDTH: u8 = 32;

    ghost WIDTH = { 32 };

    ghost bits = { λ a. low_bits 32 a.bits };

    ghost pbits = { λ p. take p.len (low_bits 32 p.address.bits) };

    ghost real = { λ a. a.bits < 2 ^ 32 };

    ghost halves = { λ a. lifted 32 a.bits };

    ghost joined = { joined4 };

    ghost start = { λ p. p.address };

    ghost made = { made4 };

    ghost sized = { Prim.search rules };

    ghost whole = { λ a. low_length 32 a.bits };

    ghost fits = { λ a. (lifted_fit 32 a.bits (lit≤ tt), lifted_aligned 32 a.bits (lit≤ tt)) };

    ghost reads = { λ a. sym (lifted_front 32 a.bits (lit≤ tt)) };

    ghost back = { λ a h. same_address _ a (lowered_back 32 a.bits h) };

    ghost lives = { λ h. lowered_bound 32 h };

    ghost forth = { λ h f a. lifted_lowered 32 h (lit≤ tt) f a };

    ghost short = { λ p.
        let e : length (take p.len (low_bits 32 p.address.bits)) ≡ p.len = narrow_length 32 p.address.bits p.len p.within in
        let h : p.len ≤ 32 = p.within in
        omega arith };

    ghost opens = { λ p. narrow_zeros 32 p.address.bits p.len p.within p.zeros };

    ghost every = { λ q h. narrow_made 32 q h };

    ghost one = { λ p q e.
        same_prefix p q
        (same_address _ _ (narrow_addresses 32 _ _ _ _ p.small q.small p.within q.within p.zeros q.zeros e))
        (narrow_lengths 32 p.address.bits q.address.bits _ _ p.within q.within e) };

    fn to_halves(self) -> Halves {
        Halves {
            hi: u64::from(self.bits) << 32,
            lo: 0,
        }
    }

    fn from_halves(h: Halves) -> Ipv4 {
        Ipv4::new(top_half(h.hi))
    }

    fn front(p: Prefix4) -> Front {
        Front {
            bits: p.address.to_halves(),
            len: p.len(),
        }
    }

    fn prefix(self, len: u8) -> Result<Prefix4, PrefixRefusal> {
        let bits = self.to_halves();
        check_prefix(Front { bits, len }, Self::WIDTH)?;
        Ok(Prefix4::of(self, len))
    }
}
