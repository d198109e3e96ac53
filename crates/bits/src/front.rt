// What the arithmetic on fronts means for the bit strings that they stand for.
ghost use Rattle.std.specs.Prelude.{◌≡◌, ◌-◌, ◌≤◌, false, ◌++◌, min, length, take, drop, replicate};
ghost use Rattle.bits.specs.Bits.{covers, common, order};
ghost use Rattle.bits.specs.Halves.{word, front, clear, stands};

use super::arithmetic;
use super::halves::Halves;
use std::cmp::Ordering;

// The first `len` bits of an address, as of a prefix; what its halves hold beyond those does not count.
// That `len` is at most 128 is no ghost field: borrowed rows and nodes hold fronts, whatever was written there before.
#[derive(Clone, Copy, PartialEq, Eq, Debug)]
pub struct Front {
    pub bits: Halves,
    pub len: u8,
}

impl Front {
    // Whether they are the first bits of the address too.
    pub fn covers(self, address: Halves) -> bool
        requires { self.len ≤ 128 }
        ensures { result ≡ covers (front self.len self.bits) (word address) }
    {
        arithmetic::agree_on(self, address)
    }

    // How the two stand, in the order by address and then by length.
    pub fn order(self, other: Front) -> Ordering
        requires left { self.len ≤ 128 }
        requires right { other.len ≤ 128 }
        ensures { stands result ≡ order (front self.len self.bits) (front other.len other.bits) }
    {
        arithmetic::settle(self, other)
    }

    // How many first bits the two have in common, none beyond either's length.
    pub fn common_len(self, other: Front) -> u8
        ensures { result ≡ min (min (length (common (word self.bits) (word other.bits))) self.len) other.len }
    {
        self.bits
            .common_len(other.bits)
            .min(self.len)
            .min(other.len)
    }

    // The same bits, by a length of at most 128.
    #[tactic(auto, using(crate::proofs::Fronts::front_min))]
    pub fn capped(self) -> Front
        ensures same { front result.len result.bits ≡ front self.len self.bits }
        ensures short { result.len ≤ 128 }
    {
        Front {
            bits: self.bits,
            len: self.len.min(128),
        }
    }

    // The bits, with zeros after.
    pub fn masked(self) -> Halves
        requires { self.len ≤ 128 }
        ensures { word result ≡ take self.len (word self.bits) ++ replicate (128 - self.len) false }
    {
        arithmetic::cut_after(self)
    }

    // Whether nothing is set beyond the bits.
    pub fn is_aligned(self) -> bool
        requires { self.len ≤ 128 }
        ensures { result ≡ clear (drop self.len (word self.bits)) }
    {
        arithmetic::uncut(self)
    }
}
