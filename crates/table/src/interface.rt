ghost use Rattle.std.specs.Prelude.{◌≡◌, ℕ, false, List, length, is_ok};
ghost use Rattle.model.specs.Room.{RoomLaw};
ghost use Rattle.model.specs.Machine.{Plane, View, Room, on, announce, withdraw, fetch, lookup};
ghost use Rattle.model.specs.Stack.{Stack, Described, Current};
ghost use Rattle.model.specs.Laws.{Local, Sound, Does};
ghost use Rattle.table.specs.Meaning.{of_update, of_fetch, of_lookup};

use crate::calls::Refusal;
use address::kind::Address;

// A table: its planes, its view and its room say what it means, and every call is an equation over the reference machine.
pub trait Table {
    type Addr: Address;

    // the prefix maps that it holds, numbered from 0
    ghost planes: { Self → List Plane };
    // from the planes to the one map that lookups see
    ghost view: { Self → View };
    // which maps fit each plane
    ghost room: { Self → Room };
    // the layers down to the tables, with the entries of each cache
    ghost stack: { Self → Stack };
    // the storage is well-formed: the one premise of the calls, true of a fresh table and kept by every call
    ghost valid: { Self → Type 0 };

    // laws, which each implementation proves
    ghost described: { (s : Self) → Described (stack s) (planes s) (view s) (room s) };

    ghost local: { (s : Self) → Local (view s) };

    ghost roomy: { (s : Self) (i : ℕ) → RoomLaw (room s i) };

    ghost sound: { (s : Self) → valid s → Sound (room s) (planes s) };

    ghost current: { (s : Self) → valid s → Current (stack s) };

    // The number of planes.
    fn plane_count(&self) -> u16
        requires { valid self.now }
        ensures { result ≡ length (planes self.now) };

    // Puts the prefix with this hop into the plane, in the place of an older hop.
    fn announce(
        &mut self,
        plane: u16,
        prefix: <Self::Addr as Address>::Prefix,
        hop: Self::Addr,
    ) -> Result<(), Refusal>
        requires { valid self.old }
        ensures valid { valid self.new }
        ensures does { Does planes view room stack self.old self.new (on plane (announce (Self.Addr.Address.pbits prefix) (Self.Addr.Address.bits hop))) (of_update result) }
        ensures refused { is_ok result ≡ false → self.new ≡ self.old };

    // Takes the prefix out of the plane.
    fn withdraw(
        &mut self,
        plane: u16,
        prefix: <Self::Addr as Address>::Prefix,
    ) -> Result<(), Refusal>
        requires { valid self.old }
        ensures valid { valid self.new }
        ensures does { Does planes view room stack self.old self.new (on plane (withdraw (Self.Addr.Address.pbits prefix))) (of_update result) }
        ensures refused { is_ok result ≡ false → self.new ≡ self.old };

    // The hop that the plane has for the prefix.
    fn fetch(
        &mut self,
        plane: u16,
        prefix: <Self::Addr as Address>::Prefix,
    ) -> Result<Option<Self::Addr>, Refusal>
        requires { valid self.old }
        ensures valid { valid self.new }
        ensures does { Does planes view room stack self.old self.new (on plane (fetch (Self.Addr.Address.pbits prefix))) (of_fetch Self.Addr.Address.bits result) }
        ensures refused { is_ok result ≡ false → self.new ≡ self.old };

    // The length and hop of the longest visible prefix that covers the address and is no longer than the bound.
    fn lookup(
        &mut self,
        address: Self::Addr,
        bound: u8,
    ) -> Result<Option<(u8, Self::Addr)>, Refusal>
        requires { valid self.old }
        ensures valid { valid self.new }
        ensures does { Does planes view room stack self.old self.new (lookup (Self.Addr.Address.bits address) bound) (of_lookup Self.Addr.Address.bits result) }
        ensures refused { is_ok result ≡ false → self.new ≡ self.old };
}
