ghost use Rattle.std.specs.Prelude.{◌≡◌, ◌^◌, ◌<◌, ◌≤◌, length, take};
ghost use Rattle.std.proofs.Common.{sym, ◌∙◌, arith, rules};
ghost use Rattle.bits.specs.Wide.{paired};
ghost use Rattle.address.specs.Kind6.{halves6, joined6, made6};
ghost use Rattle.bits.proofs.Wide.{paired_length, aligned_whole, paired_front, paired_rest, wide_length, wide_zeros, wide_made, wide_lengths, wide_addresses};
ghost use Rattle.bits.proofs.LowBits.{rest_bound};
ghost use Rattle.address.specs.Same6.{same_address, raw, same_raw, same_prefix};
ghost use Rattle.address.specs.Ipv6AddressLemmas.{left};
ghost use Rattle.bits.proofs.Fronts.{halves_equal};

use super::{Ipv6, Prefix6};
use crate::checks::check_prefix;
use crate::kind::Address;
use crate::refusal::PrefixRefusal;
use bits::front::Front;
use bits::halves::Halves;

// The address of the two halves.
impl From<Halves> for Ipv6 {
    ghost from_gives = { λ h a. (a.hi ≡ h.hi) × (a.lo ≡ h.lo) };

    fn from(h: Halves) -> Ipv6 {
        Ipv6::new(h.hi, h.lo)
    }
}

impl Address for Ipv6 {
    type Prefix = Prefix6;

    const WIDTH: u8 = 128;

    ghost WIDTH = { 128 };

    ghost bits = { λ a. paired a.hi a.lo };

    ghost pbits = { λ p. take p.len (paired p.address.hi p.address.lo) };

    ghost real = { λ a. (a.hi < 2 ^ 64) × (a.lo < 2 ^ 64) };

    ghost halves = { halves6 };

    ghost joined = { joined6 };

    ghost start = { λ p. p.address };

    ghost made = { made6 };

    ghost sized = { Prim.search rules };

    ghost whole = { λ a. paired_length a.hi a.lo };

    ghost fits = { λ a. ((rest_bound 64 a.hi, rest_bound 64 a.lo), aligned_whole (halves6 a)) };

    ghost reads = { λ a. sym (paired_front (halves6 a) ∙ paired_rest a.hi a.lo) };

    ghost back = { λ a h. same_address _ a (left a.hi h.0) (left a.lo h.1) };

    ghost lives = { λ h. (rest_bound 64 h.hi, rest_bound 64 h.lo) };

    ghost forth = { λ h f a. halves_equal _ h (left h.hi f.0) (left h.lo f.1) };

    ghost short = { λ p.
        let e : length (take p.len (paired p.address.hi p.address.lo)) ≡ p.len = wide_length p.address.hi p.address.lo p.len p.within in
        let h : p.len ≤ 128 = p.within in
        omega arith };

    ghost opens = { λ p. wide_zeros p.address.hi p.address.lo p.len p.within p.zeros };

    ghost every = { λ q h. wide_made q h };

    ghost one = { λ p q e.
        same_prefix p q
        (same_raw _ _ (wide_addresses (raw p.address) (raw q.address) _ _ (p.high, p.low) (q.high, q.low)
        p.within q.within p.zeros q.zeros e))
        (wide_lengths (raw p.address) (raw q.address) _ _ p.within q.within e) };

    fn to_halves(self) -> Halves {
        Halves {
            hi: self.hi,
            lo: self.lo,
        }
    }

    fn from_halves(h: Halves) -> Ipv6 {
        Ipv6::from(h)
    }

    fn front(p: Prefix6) -> Front {
        Front {
            bits: p.address.to_halves(),
            len: p.len(),
        }
    }

    fn prefix(self, len: u8) -> Result<Prefix6, PrefixRefusal> {
        let bits = self.to_halves();
        check_prefix(Front { bits, len }, Self::WIDTH)?;
        Ok(Prefix6::of(self, len))
    }
}
