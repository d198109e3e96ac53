ghost use Rattle.std.specs.Prelude.{◌≡◌, ◌-◌, ◌%◌, ◌<◌, ◌≤◌, map, length, drop};
ghost use Rattle.bits.specs.Bits.{equal};
ghost use Rattle.bits.specs.Halves.{front};
ghost use Rattle.model.specs.Slots.{number, slot_of, in_full};
ghost use Rattle.cache.specs.Entries.{as_slot, as_slots, answer_in, as_hit, emptied};

use crate::entry::Entry;
use address::kind::Address;
use address::prefixes::covers_address;
use bits::front::Front;

// A cache has so many slots, of which it may use fewer.
pub const SLOTS: usize = 4096;

// The last 16 bits of a number.
fn low_16(value: u128) -> usize
    ensures { result ≡ value % 65536 }
{
    (value % 65536) as usize
}

// The last 16 of the front's bits, as a number.
pub fn last_16(f: Front) -> usize
    requires some { 16 ≤ f.len }
    requires most { f.len ≤ 128 }
    ensures { result ≡ number 0 (drop (f.len - 16) (front f.len f.bits)) }
{
    let whole = (u128::from(f.bits.hi) << 64) + u128::from(f.bits.lo);
    low_16(whole >> (128 - f.len))
}

// The slot of a number, of `count` slots.
fn modulo(value: usize, count: usize) -> usize
    requires { 0 < count }
    ensures which { result ≡ value % count }
    ensures below { result < count }
{
    value % count
}

// The slot of an address, of `count` slots.
pub fn slot_of<A: Address>(address: A, count: usize) -> usize
    requires { 0 < count }
    ensures which { result ≡ slot_of count (A.Address.bits address) }
    ensures below { result < count }
{
    let whole = Front {
        bits: address.to_halves(),
        len: A::WIDTH,
    };
    modulo(last_16(whole), count)
}

// Whether the slots take part in the lookup: some are used, and the bound is the full width.
pub fn in_full<A: Address>(count: usize, address: A, bound: u8) -> bool
    ensures { result ≡ in_full count (A.Address.bits address) bound }
{
    count != 0 && bound == A::WIDTH
}

// Whether the two are the same address.
fn same_address<A: Address>(a: A, b: A) -> bool
    ensures { result ≡ equal (A.Address.bits a) (A.Address.bits b) }
{
    a.to_halves() == b.to_halves()
}

// The answer in the slot, if the slot holds this address.
pub fn hit<A: Address>(slot: Option<Entry<A>>, address: A) -> Option<Option<(u8, A)>>
    ensures { as_hit A.Address.bits result ≡ answer_in (as_slot A.Address.bits slot) (A.Address.bits address) }
{
    let entry = slot?;
    same_address(entry.address, address).then_some(entry.answer)
}

// The slot after an update of the prefix: empty if the prefix covers its address.
fn swept<A: Address>(slot: Option<Entry<A>>, prefix: A::Prefix) -> Option<Entry<A>>
    ensures { as_slot A.Address.bits result ≡ emptied (A.Address.pbits prefix) (as_slot A.Address.bits slot) }
{
    slot.filter(|entry| !covers_address(prefix, entry.address))
}

// Empties the slots whose address the prefix covers.
pub fn sweep<A: Address>(slots: &mut [Option<Entry<A>>; SLOTS], prefix: A::Prefix)
    requires { length slots.old ≡ 4096 }
    ensures all { length slots.new ≡ 4096 }
    ensures swept { as_slots A.Address.bits slots.new ≡ map (emptied (A.Address.pbits prefix)) (as_slots A.Address.bits slots.old) }
{
    for slot in slots.iter_mut() {
        *slot = swept(*slot, prefix);
    }
}
