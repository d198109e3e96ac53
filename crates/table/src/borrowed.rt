// What tables over borrowed slots share.
ghost use Rattle.std.specs.Prelude.{◌≡◌};
ghost use Rattle.bits.specs.Halves.{Aligned};
ghost use Rattle.model.specs.Tables.{usable};

use address::kind::Address;
use bits::halves::Halves;

// Of borrowed slots no more than so many are used.
const MOST: usize = 65535;

// How many of so many borrowed slots are used at most.
pub fn room_in(slots: usize) -> usize
    ensures { result ≡ usable slots }
{
    slots.min(MOST)
}

// The next hop in these halves.
pub fn hop_in<A: Address>(hop: Halves) -> A
    requires { Aligned A.Address.WIDTH hop }
    ensures { result ≡ A.Address.joined hop }
{
    A::from_halves(hop)
}
