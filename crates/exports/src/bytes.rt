ghost use Rattle.std.specs.Prelude.{◌≡◌, take, drop};
ghost use Rattle.std.specs.Int.{w64, from_be_bytes};

use bits::halves::Halves;

// How many bytes two halves take.
pub const HALVES: usize = 16;

// The two halves in their bytes, the higher first and of each the highest byte first.
pub fn halves_in(bytes: &[u8; HALVES]) -> Halves
    ensures hi { result.hi ≡ from_be_bytes w64 (take 8 bytes.now) }
    ensures lo { result.lo ≡ from_be_bytes w64 (drop 8 bytes.now) }
{
    Halves {
        hi: u64::from_be_bytes(*bytes.first_chunk().unwrap()),
        lo: u64::from_be_bytes(*bytes.last_chunk().unwrap()),
    }
}
