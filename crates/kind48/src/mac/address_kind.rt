ghost use Rattle.std.specs.Prelude.{◌≡◌, ◌^◌, ◌<◌, ◌≤◌, length, take};
ghost use Rattle.bits.specs.Halves.{low_bits};
ghost use Rattle.bits.specs.Narrow.{lifted};
ghost use Rattle.kind48.specs.Kind48.{joined48, made48};
ghost use Rattle.bits.proofs.LowBits.{low_length};
ghost use Rattle.std.proofs.Common.{lit≤, sym, arith, rules};
ghost use Rattle.bits.proofs.Narrow.{lifted_fit, lifted_aligned, lifted_front, lowered_back, lowered_bound, lifted_lowered, narrow_length, narrow_zeros, narrow_made, narrow_lengths, narrow_addresses};
ghost use Rattle.kind48.specs.Same48.{same_address, same_prefix};

use super::{ADDRESSES, Mac48, Prefix48};
use address::checks::check_prefix;
use address::kind::Address;
use address::refusal::PrefixRefusal;
use bits::front::Front;
use bits::halves::Halves;

// As that of any kind that is one number: a trait between would have these members again, and no macro may write an impl.
impl Address for Mac48 {
    type Prefix = Prefix48;

    const WIDTH: u8 = 48;

    ghost WIDTH = { 48 };

    ghost bits = { λ a. low_bits 48 a.bits };

    ghost pbits = { λ p. take p.len (low_bits 48 p.address.bits) };

    ghost real = { λ a. a.bits < 2 ^ 48 };

    ghost halves = { λ a. lifted 48 a.bits };

    ghost joined = { joined48 };

    ghost start = { λ p. p.address };

    ghost made = { made48 };

    ghost sized = { Prim.search rules };

    ghost whole = { λ a. low_length 48 a.bits };

    ghost fits = { λ a. (lifted_fit 48 a.bits (lit≤ tt), lifted_aligned 48 a.bits (lit≤ tt)) };

    ghost reads = { λ a. sym (lifted_front 48 a.bits (lit≤ tt)) };

    ghost back = { λ a h. same_address _ a (lowered_back 48 a.bits h) };

    ghost lives = { λ h. lowered_bound 48 h };

    ghost forth = { λ h f a. lifted_lowered 48 h (lit≤ tt) f a };

    ghost short = { λ p.
        let e : length (take p.len (low_bits 48 p.address.bits)) ≡ p.len = narrow_length 48 p.address.bits p.len p.within in
        let h : p.len ≤ 48 = p.within in
        omega arith };

    ghost opens = { λ p. narrow_zeros 48 p.address.bits p.len p.within p.zeros };

    ghost every = { λ q h. narrow_made 48 q h };

    ghost one = { λ p q e.
        same_prefix p q
        (same_address _ _ (narrow_addresses 48 _ _ _ _ p.small q.small p.within q.within p.zeros q.zeros e))
        (narrow_lengths 48 p.address.bits q.address.bits _ _ p.within q.within e) };

    fn to_halves(self) -> Halves {
        Halves {
            hi: (self.bits % ADDRESSES) << 16,
            lo: 0,
        }
    }

    fn from_halves(h: Halves) -> Mac48 {
        Mac48 { bits: h.hi >> 16 }
    }

    fn front(p: Prefix48) -> Front {
        Front {
            bits: p.address.to_halves(),
            len: p.len,
        }
    }

    fn prefix(self, len: u8) -> Result<Prefix48, PrefixRefusal> {
        let address = Mac48 {
            bits: self.bits % ADDRESSES,
        };
        let bits = address.to_halves();
        check_prefix(Front { bits, len }, Self::WIDTH)?;
        Ok(Prefix48 { address, len })
    }
}
