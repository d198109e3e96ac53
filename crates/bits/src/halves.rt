ghost use Rattle.std.specs.Prelude.{◌≡◌, ◌<◌, false, length, slice_index_or};
ghost use Rattle.bits.specs.Bits.{common};
ghost use Rattle.bits.specs.Halves.{word};

use super::arithmetic;

// The bits of an address as two halves, the highest bit of `hi` first, zeros after an address of fewer than 128 bits.
#[derive(Clone, Copy, PartialEq, Eq, Debug)]
pub struct Halves {
    pub hi: u64,
    pub lo: u64,
}

impl Halves {
    // Bit `i`, the highest first.
    pub fn bit_at(self, i: u8) -> bool
        requires { i < 128 }
        ensures { result ≡ slice_index_or (word self) i false }
    {
        arithmetic::bit(self, i)
    }

    // How many first bits the two have in common.
    pub fn common_len(self, other: Halves) -> u8
        ensures { result ≡ length (common (word self) (word other)) }
    {
        arithmetic::shared_bits(self, other)
    }
}
