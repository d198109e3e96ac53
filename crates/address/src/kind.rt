ghost use Rattle.std.specs.Prelude.{◌≡◌, ℕ, ◌-◌, ◌≤◌, false, ◌++◌, length, replicate};
ghost use Rattle.bits.specs.Bits.{Bits};
ghost use Rattle.bits.specs.Halves.{front, Aligned, Fit};
ghost use Rattle.bits.specs.declared.halves.Halves.{Halves};
ghost use Rattle.address.specs.Prefixes.{checked, outcome};

use super::refusal::PrefixRefusal;
use bits::front::Front;
use bits::halves::Halves;

// A kind of address: strings of `width` bits, the highest first, with prefixes of its own.
pub trait Address: Copy {
    type Prefix: Copy;

    const WIDTH: u8;

    ghost WIDTH: { ℕ };

    ghost bits: { Self → Bits };

    // a prefix's own bits, as many as its length
    ghost pbits: { Self.Prefix → Bits };

    // the numbers are in the range of the kind, as those of every value that a program can make
    ghost real: { Self → Type 0 };

    // the bits in two halves, with zeros after
    ghost halves: { Self → Halves };

    ghost joined: { Halves → Self };

    // the address at which a prefix starts, zeros beyond its length
    ghost start: { Self.Prefix → Self };

    // the prefix of those bits
    ghost made: { Bits → Self.Prefix };

    fn to_halves(self) -> Halves
        ensures { result ≡ halves self };

    fn from_halves(h: Halves) -> Self
        requires { Aligned WIDTH h }
        ensures { result ≡ joined h };

    // The bits of `p`, in the halves of the address at which it starts.
    fn front(p: Self::Prefix) -> Front
        ensures bits { result.bits ≡ halves (start p) }
        ensures len { result.len ≡ length (pbits p) };

    fn len(p: Self::Prefix) -> u8
        ensures { result ≡ length (pbits p) }
    {
        Self::front(p).len
    }

    // The prefix of the first `len` bits, if there are so many and nothing is set beyond them.
    fn prefix(self, len: u8) -> Result<Self::Prefix, PrefixRefusal>
        ensures { outcome pbits result ≡ checked (bits self) len };

    ghost sized: { (16 ≤ WIDTH) × (WIDTH ≤ 128) };

    ghost whole: { (a : Self) → length (bits a) ≡ WIDTH };

    ghost fits: { (a : Self) → Fit (halves a) × Aligned WIDTH (halves a) };

    ghost reads: { (a : Self) → bits a ≡ front WIDTH (halves a) };

    ghost back: { (a : Self) → real a → joined (halves a) ≡ a };

    ghost lives: { (h : Halves) → real (joined h) };

    ghost forth: { (h : Halves) → Fit h → Aligned WIDTH h → halves (joined h) ≡ h };

    ghost short: { (p : Self.Prefix) → length (pbits p) ≤ WIDTH };

    ghost opens: { (p : Self.Prefix) → bits (start p) ≡ pbits p ++ replicate (WIDTH - length (pbits p)) false };

    ghost every: { (q : Bits) → length q ≤ WIDTH → pbits (made q) ≡ q };

    ghost one: { (p q : Self.Prefix) → pbits p ≡ pbits q → p ≡ q };
}
